//! Listings of many directories at once.
ghost use Rattle.std.specs.Prelude.{◌≡◌, [], length};
ghost use Rattle.transfer_pool.specs.Sessions.{IsGoing};
ghost use Rattle.transfer_remote.specs.ManyListings.{AdvancesListings, BeginsListing, EndsFirst, FailsFirst, HoldsListings, KeepsFault, ListsNext, MayRunTogether, RunsTogether};

use crate::listing_stage::{Listing, Stage};
use crate::remote_error::RemoteError;
use sftp_client::{DirEntry, Sftp};
use sftp_core::Core;
use sftp_link::Link;
use std::alloc::Global;
use std::collections::VecDeque;
use std::marker::Model;
use transfer_pool::turn;

/// The result of a listing that has ended: its entries, in the order of the server's replies and with the directory
/// itself and its parent if the server lists them, or the reason why it could not be listed to its end.
pub type Listed = Result<Vec<DirEntry>, RemoteError>;

/// The state of the first listing.
pub(crate) enum First {
    /// It has not ended.
    Waits,
    /// It has ended and was removed, or no listing was begun.
    Over(Option<Listed>),
}

/// Listings of directories in flight, in the order in which they were begun. It isn't droppable: `clear` spends it,
/// also after all of them were returned.
///
/// Used by the functions of this module.
#[must_use]
pub struct Listings {
    listings: VecDeque<Listing>,
}

impl Model for Listings {
    ghost use Rattle.std.specs.Prelude.{List};
    ghost use Rattle.transfer_remote.specs.declared.listing_stage.Listing.{Listing};

    ghost Value = { List Listing };

    ghost view = { λ l. l.listings.items };
}

impl Listings {
    /// Returns no listings. No memory is allocated.
    pub fn new(alloc: Global) -> Listings
        ensures { result ≡ [] }
    {
        Listings {
            listings: VecDeque::new(alloc),
        }
    }

    /// Returns the number of listings that were begun and not returned.
    pub fn len(&self) -> usize
        ensures { result ≡ length self.now }
    {
        self.listings.len()
    }

    /// Begins to list a directory after all others. Its OPENDIR is queued, and nothing is awaited
    /// (draft-ietf-secsh-filexfer-02, section 6.7).
    ///
    /// # Errors
    ///
    /// A kept fault; `IOError(PathTooLong)` if the path has more than 1048562 bytes; `OutOfMemory` if an allocation
    /// fails or 2147483648 ids are in use. The listings are unchanged.
    pub fn begin<L: Link>(
        &mut self,
        alloc: Global,
        sftp: &mut Sftp<L>,
        path: &[u8],
    ) -> Result<(), RemoteError>
        requires { HoldsListings L.LinkState.state sftp.old self.old }
        ensures { BeginsListing path.now L.LinkState.state sftp.old self.old sftp.new self.new result }
    {
        // No `?`: it converts the error, and the clause is by cases on the result.
        match sftp.ready() {
            Ok(()) => {}
            Err(e) => return Err(e.into()),
        }
        if self.listings.reserve(1).is_err() {
            return Err(RemoteError::OutOfMemory);
        }
        match sftp.fs().start_open_dir(alloc, sftp.core(), path) {
            Ok(call) => {
                self.listings.push_back_reserved(Listing {
                    stage: Stage::Opening(call),
                    entries: Vec::new(alloc),
                });
                Ok(())
            }
            Err(e) => Err(e.into()),
        }
    }

    /// Runs the session until the listing that was begun first has ended, and returns and removes it. All others make
    /// progress meanwhile, up to some 4096 entries each. A directory is read by one READDIR after another, and its CLOSE
    /// is not awaited. Returns `None` if no listing is left.
    ///
    /// # Errors
    ///
    /// An error is that of this listing: the server refused, the session failed, an allocation failed, it has more than
    /// 1000002 entries, or 18446744073709551615 rounds were not enough. Its directory is closed, and the others may
    /// still be asked for; after a fault of the session each of them fails.
    pub fn next<L: Link>(&mut self, alloc: Global, sftp: &mut Sftp<L>) -> Option<Listed>
        requires { HoldsListings L.LinkState.state sftp.old self.old }
        ensures { ListsNext L.LinkState.state (record { session = sftp.old; listings = self.old })
            (record { session = sftp.new; listings = self.new }) result }
    {
        next_of(&mut self.listings, alloc, sftp)
    }

    /// Gives up all listings. Replies that still come are dropped, and a handle that came or comes is closed. Nothing
    /// is awaited.
    pub fn clear<L: Link>(self, sftp: &mut Sftp<L>)
        requires { HoldsListings L.LinkState.state sftp.old self }
        ensures { IsGoing L.LinkState.state sftp.new }
    {
        let Listings { listings } = self;
        clear_all(listings, sftp.core());
    }
}

/// Gives up listings, the first one first.
fn clear_all(listings: VecDeque<Listing>, core: &mut Core)
    requires { MayRunTogether core.old listings.items }
    ensures { KeepsFault core.old core.new }
{
    let mut listings = listings;
    while let Some(listing) = listings.pop_front() {
        listing.cancel(core);
    }
    listings.destroy_empty();
}

/// Returns the result of the first listing as soon as it has ended.
fn next_of<L: Link>(
    listings: &mut VecDeque<Listing>,
    alloc: Global,
    sftp: &mut Sftp<L>,
) -> Option<Listed>
    requires { HoldsListings L.LinkState.state sftp.old listings.old.items }
    ensures { ListsNext L.LinkState.state (record { session = sftp.old; listings = listings.old.items })
        (record { session = sftp.new; listings = listings.new.items }) result }
{
    for _ in 0..u64::MAX {
        match advance(listings, alloc, sftp) {
            First::Waits => {}
            First::Over(result) => return result,
        }
    }
    fail_first(listings, sftp.core(), RemoteError::TooLong)
}

/// Runs each listing until it awaits a reply or has ended. If the first one has not, the session takes a turn; if that
/// fails, the first one fails.
fn advance<L: Link>(listings: &mut VecDeque<Listing>, alloc: Global, sftp: &mut Sftp<L>) -> First
    requires { HoldsListings L.LinkState.state sftp.old listings.old.items }
    ensures { AdvancesListings L.LinkState.state (record { session = sftp.old; listings = listings.old.items })
        (record { session = sftp.new; listings = listings.new.items }) result }
{
    run_all(listings, alloc, sftp.core());
    match take_ended(listings) {
        First::Over(result) => First::Over(result),
        First::Waits => match turn(sftp) {
            Ok(()) => First::Waits,
            Err(e) => First::Over(fail_first(listings, sftp.core(), e.into())),
        },
    }
}

/// Runs each listing, the first one first, until it awaits a reply or has ended. Those after the first one pause once
/// they have 4096 entries.
fn run_all(listings: &mut VecDeque<Listing>, alloc: Global, core: &mut Core)
    requires { MayRunTogether core.old listings.old.items }
    ensures { RunsTogether core.old listings.old.items core.new listings.new.items }
{
    let count = listings.len();
    let mut is_first = true;
    for _ in 0..count {
        let Some(listing) = listings.pop_front() else {
            return;
        };
        let listing = listing.run_within(alloc, core, is_first);
        listings.push_back_reserved(listing);
        is_first = false;
    }
}

/// Removes the first listing if it has ended, and returns its result.
fn take_ended(listings: &mut VecDeque<Listing>) -> First
    ensures { EndsFirst listings.old.items listings.new.items result }
{
    let Some(first) = listings.pop_front() else {
        return First::Over(None);
    };
    let Listing { stage, entries } = first;
    match stage {
        Stage::Complete => First::Over(Some(Ok(entries))),
        Stage::Failed(e) => First::Over(Some(Err(e))),
        Stage::Opening(call) => {
            listings.push_front_reserved(Listing {
                stage: Stage::Opening(call),
                entries,
            });
            First::Waits
        }
        Stage::Reading(dir) => {
            listings.push_front_reserved(Listing {
                stage: Stage::Reading(dir),
                entries,
            });
            First::Waits
        }
    }
}

/// Gives up the first listing, and returns the error as its result. Returns `None` if there is no listing.
fn fail_first(listings: &mut VecDeque<Listing>, core: &mut Core, e: RemoteError) -> Option<Listed>
    requires { MayRunTogether core.old listings.old.items }
    ensures { FailsFirst core.old listings.old.items core.new listings.new.items e result }
{
    match listings.pop_front() {
        Some(listing) => {
            listing.cancel(core);
            Some(Err(e))
        }
        None => None,
    }
}
