//! A walk in progress.
ghost use Rattle.std.specs.Prelude.{◌≡◌, ◌<◌, ◌≤◌, ◌^◌, ◌-◌, true, IfOk, Some, List, ℕ, length};
ghost use Rattle.std.specs.List.{slice_get};
ghost use Rattle.transfer_plan.specs.Entries.{root_found};
ghost use Rattle.transfer_plan.specs.Walks.{AddsEntry, GoesToNext, IsNextFolder, IsWalk, begun_walk};

use crate::found::Found;
use crate::task::{EntryKind, Task};
use sftp_model::FileAttrs;
use ssh_encoding::OutOfMemory;
use std::alloc::{AllocError, Global};
use std::marker::Model;

/// The most entries that a walk may have, including its root.
pub const MAX_ENTRIES: usize = 1_000_000;

/// The reason why an entry was not added.
///
/// Example: `crates/sftp_transfer/src/local_side.rt`.
#[derive(Clone, Copy, Debug, Drop, PartialEq, Eq)]
pub enum WalkError {
    /// The walk has 1000000 entries already.
    TooMany,
    /// Out of memory.
    OutOfMemory,
}

impl From<AllocError> for WalkError {
    ghost use Rattle.transfer_plan.specs.declared.walk.WalkError.TheVariants as error;

    ghost from_gives = { λ e given. given ≡ error.OutOfMemory };

    fn from(_: AllocError) -> WalkError {
        WalkError::OutOfMemory
    }
}

impl From<OutOfMemory> for WalkError {
    ghost use Rattle.transfer_plan.specs.declared.walk.WalkError.TheVariants as error;

    ghost from_gives = { λ e given. given ≡ error.OutOfMemory };

    fn from(_: OutOfMemory) -> WalkError {
        WalkError::OutOfMemory
    }
}

/// A walk in progress: the entries found, each directory before its contents, and the directory whose entries are being
/// added. A contract sees these fields.
///
/// Example: `crates/sftp_transfer/src/local_side.rt`.
#[derive(Drop)]
pub struct Walk {
    found: Vec<Found>,
    at: usize,
    texts: bool,
}

impl Model for Walk {
    ghost use Rattle.transfer_plan.specs.Walks.{IsWalk, WalkValue};

    ghost Value = { WalkValue };

    ghost view = { λ w. record { found = w.found.items; at = w.at; texts = w.texts } };

    ghost invariant = { λ w. IsWalk (record { found = w.found.items; at = w.at; texts = w.texts }) };
}

impl Walk {
    /// Starts a walk at a directory, whose entries are added next. With `texts` it refuses names that aren't UTF-8.
    ///
    /// # Errors
    ///
    /// `OutOfMemory` if an allocation fails.
    pub fn new(
        alloc: Global,
        source: &[u8],
        target: &[u8],
        attrs: FileAttrs,
        texts: bool,
    ) -> Result<Walk, OutOfMemory>
        ensures { IfOk result (λ walk. walk ≡ begun_walk (root_found source.now target.now attrs) texts) }
    {
        let mut found = Vec::with_capacity(alloc, 1)?;
        found.push(Found::root(alloc, source, target, attrs)?)?;
        Ok(Walk {
            found,
            at: 0,
            texts,
        })
    }

    /// Returns the entries found so far, in order. Each except the root comes after its directory, and has a target
    /// that stays in the target of the root.
    pub fn found(&self) -> &[Found]
        ensures is { result.now ≡ self.now.found }
        ensures walk { IsWalk self.now }
    {
        self.found.as_slice()
    }

    /// Returns the entries found, in order.
    pub fn into_found(self) -> Vec<Found>
        ensures is { result.items ≡ self.found }
        ensures walk { IsWalk self }
    {
        self.found
    }

    /// Returns the directory whose entries are being added.
    pub fn folder(&self) -> &Found
        ensures { slice_get self.now.found self.now.at ≡ Some result.now }
    {
        at_place(self.found.as_slice(), self.at)
    }

    /// Adds an entry of the directory after all entries found so far.
    ///
    /// # Errors
    ///
    /// `TooMany` if the walk has 1000000 entries already, or `OutOfMemory` if an allocation fails; the walk is
    /// unchanged.
    pub fn add(
        &mut self,
        alloc: Global,
        name: &[u8],
        kind: EntryKind,
        attrs: FileAttrs,
    ) -> Result<(), WalkError>
        ensures { AddsEntry name.now kind attrs self.old self.new result }
    {
        if self.found.len() >= MAX_ENTRIES {
            return Err(WalkError::TooMany);
        }
        self.found.reserve(1)?;
        let folder = at_place(self.found.as_slice(), self.at);
        let entry = folder.entry(alloc, self.texts, name, kind, attrs)?;
        self.found.push(entry).unwrap();
        Ok(())
    }

    /// Moves to the next directory that was found. Returns false if there is none, and then nothing changes.
    pub fn go_on(&mut self) -> bool
        ensures { GoesToNext self.old self.new result }
    {
        match next_folder(self.found.as_slice(), self.at) {
            Some(at) => {
                self.at = at;
                true
            }
            None => false,
        }
    }
}

/// Returns the entry at a place.
fn at_place(found: &[Found], place: usize) -> &Found
    requires { place < length found.now }
    ensures { slice_get found.now place ≡ Some result.now }
{
    &found[place]
}

/// Returns the place of the first directory after a place.
fn next_folder(found: &[Found], at: usize) -> Option<usize>
    requires { at < length found.now }
    ensures { IsNextFolder found.now at result }
{
    for place in at + 1..found.len() {
        if found[place].task == Task::MakeFolder {
            return Some(place);
        }
    }
    None
}
