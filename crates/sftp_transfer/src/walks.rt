//! The walks of the trees on both sides.
ghost use Rattle.std.specs.Prelude.{◌≡◌};
ghost use Rattle.transfer_pool.specs.Sessions.{IsGoing};
ghost use Rattle.transfer_remote.specs.ManyListings.{HoldsListings};

use crate::courier::Courier;
use crate::local_side::list_local;
use crate::sources::ends_walk;
use crate::transfer_error::{TransferError, tell_of};
use crate::tree::{Side, Untouched, path_below};
use sftp_link::Link;
use transfer_plan::{Found, MAX_ENTRIES, Task, Walk, path_in};
use transfer_remote::{Listings, add_entries};

/// The most directories of the server that are listed at once.
const MAX_LISTINGS: usize = 64;

impl<'a, L: Link> Courier<'a, L> {
    /// Begins to list directories that a walk found, from a place on, until 64 are listed at once. Directories that are
    /// untouched are not listed.
    fn begin_listings(
        &mut self,
        walk: &Walk,
        root_len: usize,
        untouched: &mut Untouched<'_>,
        begun: &mut usize,
        listings: &mut Listings,
    ) -> Result<(), TransferError>
        requires { HoldsListings L.LinkState.state self.old.sftp listings.old }
        ensures { HoldsListings L.LinkState.state self.new.sftp listings.new }
    {
        let found = walk.found();
        for place in *begun..found.len() {
            if listings.len() >= MAX_LISTINGS {
                return Ok(());
            }
            *begun = place.saturating_add(1);
            let Some(entry) = found.get(place) else {
                return Ok(());
            };
            if entry.task == Task::MakeFolder && !untouched.has(path_below(entry, root_len), true) {
                listings.begin(self.rt.alloc(), &mut self.sftp, entry.source.as_slice())?;
            }
        }
        Ok(())
    }

    /// Adds the entries of the walk's current directory, whose listing was begun before all others.
    fn take_listing(
        &mut self,
        walk: &mut Walk,
        listings: &mut Listings,
    ) -> Result<(), TransferError>
        requires { HoldsListings L.LinkState.state self.old.sftp listings.old }
        ensures { HoldsListings L.LinkState.state self.new.sftp listings.new }
    {
        let alloc = self.rt.alloc();
        match listings.next(alloc, &mut self.sftp) {
            Some(Ok(entries)) => Ok(add_entries(alloc, walk, &entries)?),
            Some(Err(e)) => Err(e.into()),
            None => Err(TransferError::TooLong),
        }
    }

    /// Records that a directory of a walk was listed, or reports why it wasn't, so that the walk isn't complete. Fails
    /// only if the walk can't continue.
    fn note_listed(
        &mut self,
        walk: &Walk,
        listed: Result<(), TransferError>,
        complete: &mut bool,
    ) -> Result<(), TransferError>
        ensures { self.new.sftp ≡ self.old.sftp }
    {
        let Err(reason) = listed else {
            return Ok(());
        };
        if ends_walk(&reason) || self.sftp.core().fault().is_some() {
            return Err(reason);
        }
        *complete = false;
        tell_of(self.rt, walk.folder().source.as_slice(), &reason);
        Ok(())
    }

    /// Finds everything in the root of a walk of the server, in its order, while directories that come later are listed
    /// as well.
    fn walk_listed(
        &mut self,
        walk: &mut Walk,
        listings: &mut Listings,
        untouched: &mut Untouched<'_>,
        complete: &mut bool,
    ) -> Result<(), TransferError>
        requires { HoldsListings L.LinkState.state self.old.sftp listings.old }
        ensures { HoldsListings L.LinkState.state self.new.sftp listings.new }
    {
        let root_len = path_in(self.rt.alloc(), walk.folder().source.as_slice(), b"")?.len();
        let mut begun = 0;
        for _ in 0..MAX_ENTRIES {
            self.begin_listings(walk, root_len, untouched, &mut begun, listings)?;
            if !untouched.has(path_below(walk.folder(), root_len), true) {
                let listed = self.take_listing(walk, listings);
                self.note_listed(walk, listed, complete)?;
            }
            if !walk.go_on() {
                break;
            }
        }
        Ok(())
    }

    /// Finds everything in the root of a walk of the server, each directory before its contents. Many directories are
    /// listed at once.
    fn walk_there(
        &mut self,
        walk: &mut Walk,
        untouched: &mut Untouched<'_>,
        complete: &mut bool,
    ) -> Result<(), TransferError>
        requires { IsGoing L.LinkState.state self.old.sftp }
        ensures { IsGoing L.LinkState.state self.new.sftp }
    {
        let mut listings = Listings::new(self.rt.alloc());
        let walked = self.walk_listed(walk, &mut listings, untouched, complete);
        listings.clear(&mut self.sftp);
        walked
    }

    /// Finds everything in the root of a walk of the local side, each directory before its contents.
    fn walk_here(
        &mut self,
        walk: &mut Walk,
        untouched: &mut Untouched<'_>,
        complete: &mut bool,
    ) -> Result<(), TransferError>
        ensures { self.new.sftp ≡ self.old.sftp }
    {
        let root_len = path_in(self.rt.alloc(), walk.folder().source.as_slice(), b"")?.len();
        for _ in 0..MAX_ENTRIES {
            if !untouched.has(path_below(walk.folder(), root_len), true) {
                let listed = list_local(self.rt, walk, complete);
                self.note_listed(walk, listed, complete)?;
            }
            if !walk.go_on() {
                break;
            }
        }
        Ok(())
    }

    /// Finds everything in the root of a walk, each directory before its contents. The directories that are untouched
    /// are found, and nothing in them.
    pub(crate) fn walk_tree(
        &mut self,
        side: Side,
        walk: Walk,
        untouched: &mut Untouched<'_>,
        complete: &mut bool,
    ) -> Result<Vec<Found>, TransferError>
        requires { IsGoing L.LinkState.state self.old.sftp }
        ensures { IsGoing L.LinkState.state self.new.sftp }
    {
        let mut walk = walk;
        match side {
            Side::Here => self.walk_here(&mut walk, untouched, complete)?,
            Side::There => self.walk_there(&mut walk, untouched, complete)?,
        }
        Ok(walk.into_found())
    }
}
