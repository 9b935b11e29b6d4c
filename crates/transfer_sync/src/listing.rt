//! The entries that one walk found.
ghost use Rattle.std.specs.Prelude.{◌≡◌, true, IfOk, IfErr, OnOk};
ghost use Rattle.std.specs.Option.{option_copied};
ghost use Rattle.transfer_sync.specs.Entries.{entry_of_path, is_open_directory};
ghost use Rattle.transfer_sync.specs.Listings.{
  IsFault,
  IsIndexOf,
  is_listing,
  listing_fault,
  listing_of,
  with_open_directory,
};
ghost use Rattle.transfer_sync.specs.PathMaps.{path_set, place_map, with_place};

use crate::entry::{Entry, Kind};
use crate::paths::{PathSet, Places, directory_of, name_in_directory};
use std::alloc::{AllocError, Global};
use std::marker::Model;
use thiserror::Error;
use transfer_plan::is_component;

/// The reason why entries are no listing. The number is the place of the first entry that is at fault.
///
/// Example: `crates/sftp_transfer/src/tree.rt`.
#[derive(Clone, Copy, Debug, Drop, PartialEq, Eq, Error)]
pub enum ListingError {
    /// The last component of the path is empty, `.` or `..`, or contains a slash or a zero byte.
    #[error("entry {0} has a bad name")]
    BadName(usize),
    /// The entry is not in the root, and no directory before it whose entries are listed has it.
    #[error("entry {0} is in no directory before it")]
    NoDirectory(usize),
    /// An entry before this one has the same path.
    #[error("entry {0} has the path of one before it")]
    Twice(usize),
    /// Out of memory.
    #[error("out of memory")]
    OutOfMemory,
}

impl From<AllocError> for ListingError {
    ghost use Rattle.transfer_sync.specs.declared.listing.ListingError.TheVariants as error;

    ghost from_gives = { λ e given. given ≡ error.OutOfMemory };

    fn from(_: AllocError) -> ListingError {
        ListingError::OutOfMemory
    }
}

/// The entries that one walk found. No two have one path, and each comes after the directory that it is in. A contract
/// sees the entries, and whether the walk came to its end.
///
/// Example: `crates/sftp_transfer/src/tree.rt`.
#[derive(Drop)]
pub struct Listing {
    entries: Vec<Entry>,
    places: Places,
    complete: bool,
}

impl Model for Listing {
    ghost use Rattle.transfer_sync.specs.Entries.{TreeListing};
    ghost use Rattle.transfer_sync.specs.Listings.{IsIndexOf, listing_of};
    ghost use Rattle.transfer_sync.specs.PathMaps.{place_map};

    ghost Value = { TreeListing };

    ghost view = { λ l. listing_of l.entries.items l.complete };

    ghost invariant = { λ l. IsIndexOf l.entries.items (place_map l.places) };
}

impl Listing {
    /// Creates a listing of the entries of a walk, in its order. `complete` is true if the walk listed everything: an
    /// incomplete source removes nothing. Of a target it has no meaning.
    ///
    /// # Errors
    ///
    /// `BadName` if the last component of a path is no safe name, `NoDirectory` if an entry is in no directory before
    /// it, `Twice` if an entry has the path of one before it, or `OutOfMemory` if an allocation fails.
    pub fn new(alloc: Global, entries: Vec<Entry>, complete: bool) -> Result<Listing, ListingError>
        ensures value { IfOk result (λ listing. listing ≡ listing_of entries.items complete) }
        ensures listing { IfOk result (λ listing. is_listing listing.entries ≡ true) }
        ensures refusal { IfErr result (λ e. IsFault entries.items e) }
    {
        let places = places_of(alloc, entries.as_slice())?;
        Ok(Listing {
            entries,
            places,
            complete,
        })
    }

    /// Returns the entries in their order.
    pub fn entries(&self) -> &[Entry]
        ensures value { result.now ≡ self.now.entries }
        ensures listing { is_listing self.now.entries ≡ true }
    {
        self.entries.as_slice()
    }

    /// Returns the entry of a path.
    pub fn find(&self, path: &[u8]) -> Option<&Entry>
        ensures { option_copied result ≡ entry_of_path self.now.entries path.now }
    {
        match self.places.get(path) {
            Some(place) => self.entries.get(place),
            None => None,
        }
    }

    /// Returns true if the walk listed everything.
    pub fn is_complete(&self) -> bool
        ensures { result ≡ self.now.complete }
    {
        self.complete
    }
}

/// Returns true for a directory whose entries are listed.
fn is_open_directory(entry: &Entry) -> bool
    ensures { result ≡ is_open_directory entry.now }
{
    match entry.kind {
        Kind::Directory(_) => !entry.excluded,
        _ => false,
    }
}

/// Returns the reason why an entry cannot follow others, given the places of their paths and the directories among them
/// whose entries are listed.
fn listing_fault(
    places: &Places,
    directories: &PathSet,
    place: usize,
    entry: &Entry,
) -> Option<ListingError>
    ensures { result ≡ listing_fault (place_map places.now) (path_set directories.now) place entry.now }
{
    let path = entry.path.as_slice();
    if !is_component(name_in_directory(path)) {
        return Some(ListingError::BadName(place));
    }
    if !directories.has(directory_of(path)) {
        return Some(ListingError::NoDirectory(place));
    }
    if places.get(path).is_some() {
        return Some(ListingError::Twice(place));
    }
    None
}

/// Records an entry. Fails only if an allocation fails.
fn note(
    alloc: Global,
    places: &mut Places,
    directories: &mut PathSet,
    place: usize,
    entry: &Entry,
) -> Result<(), AllocError>
    ensures places { OnOk result (place_map places.new
        ≡ with_place (place_map places.old) entry.now.path place) }
    ensures directories { OnOk result (path_set directories.new
        ≡ with_open_directory (path_set directories.old) entry.now) }
{
    places.insert(Vec::from_slice(alloc, entry.path.as_slice())?, place)?;
    if is_open_directory(entry) {
        directories.insert(Vec::from_slice(alloc, entry.path.as_slice())?)?;
    }
    Ok(())
}

/// Returns the places of entries by their paths.
///
/// # Errors
///
/// The fault of the first entry that cannot follow those before it, or `OutOfMemory` if an allocation fails.
fn places_of(alloc: Global, entries: &[Entry]) -> Result<Places, ListingError>
    ensures index { IfOk result (λ places. IsIndexOf entries.now (place_map places)) }
    ensures refusal { IfErr result (λ e. IsFault entries.now e) }
{
    let mut places = Places::new(alloc);
    let mut directories = PathSet::new(alloc);
    directories.insert(Vec::new(alloc))?;
    for (i, entry) in entries.iter().enumerate() {
        if let Some(fault) = listing_fault(&places, &directories, i, entry) {
            return Err(fault);
        }
        note(alloc, &mut places, &mut directories, i, entry)?;
    }
    Ok(places)
}
