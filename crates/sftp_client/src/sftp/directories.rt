//! Calls on directories, each of which runs to its end.
ghost use Rattle.std.specs.Prelude.{◌≡◌, ◌++◌, ◌∷◌, [], IfErr, IfOk, OnOk};
ghost use Rattle.sftp_model.specs.declared.error.Error.TheVariants as error;
ghost use Rattle.plan_state.specs.Keeping.{KeepsHeld, SparesOthers};
ghost use Rattle.sftp_fs.specs.Listings.{IsListing};
ghost use Rattle.sftp_client.specs.Calls.{ClosesHandle, IsCallable, IsUsable, IsUsableAfter, OpensDirectory, ReleasesHandle};
ghost use Rattle.sftp_client.specs.DirCalls.{ClosesListing, IsNoneOfListing, ListsDirectory, ListsEntries};

use super::Sftp;
use sftp_fs::{Dir, DirEntry, ReadDir};
use sftp_link::Link;
use sftp_model::Error;

/// The calls on directories. Each of them sends what is queued and takes frames until its replies come; the replies to
/// other calls are kept for them. A listing cannot be dropped: `close_dir` or `release_dir` consumes it.
impl<L: Link> Sftp<L> {
    /// Opens a directory (draft-ietf-secsh-filexfer-02, section 6.7). `Dir::read_dir` returns its listing, and
    /// `next_entry` that one's entries.
    ///
    /// # Errors
    ///
    /// A recorded fault is reported first. `OutOfMemory` if 2147483648 ids are in use or an allocation fails;
    /// `IOError(PathTooLong)` if the request would pass 1048575 bytes; `SftpError` with the server's status and message if
    /// it refuses; otherwise the errors of `flush` and `take`.
    pub fn open_dir(&mut self, path: &[u8]) -> Result<Dir, Error>
        requires { IsCallable L.LinkState.state self.old }
        ensures { OpensDirectory path.now L.LinkState.state self.old self.new result }
    {
        self.check_start()?;
        let call = self.fs().start_open_dir(self.alloc, &mut self.core, path)?;
        self.finish(call)
    }

    /// Closes a listing and its directory, and waits until the server has closed it.
    ///
    /// # Errors
    ///
    /// `SftpError` if the server refuses, or the errors of `flush` and `take`. The listing is given up in any case.
    pub fn close_dir(&mut self, listing: ReadDir) -> Result<(), Error>
        requires usable { IsCallable L.LinkState.state self.old }
        requires listing { IsListing self.old.core listing }
        ensures { ClosesHandle (ClosesListing listing) (IsNoneOfListing listing) L.LinkState.state self.old self.new result }
    {
        let call = listing.start_close(&mut self.core);
        self.finish_close(call)
    }

    /// Closes a listing and its directory without waiting: the CLOSE is queued, and its reply is dropped.
    pub fn release_dir(&mut self, listing: ReadDir)
        requires { IsListing self.old.core listing }
        ensures { ReleasesHandle (ClosesListing listing) (IsNoneOfListing listing) self.old self.new }
    {
        listing.start_close(&mut self.core).cancel(&mut self.core);
    }

    /// Returns the entries of a directory in the server's order, with `.` and `..` if it reports them. The directory
    /// is opened, listed to its end, and closed.
    ///
    /// # Errors
    ///
    /// Those of `open_dir`, of `next_entry` and of `close_dir`; `OutOfMemory` if the entries find no memory. The
    /// directory is closed then, and the entries that came are dropped.
    pub fn read_dir(&mut self, path: &[u8]) -> Result<Vec<DirEntry>, Error>
        requires { IsCallable L.LinkState.state self.old }
        ensures lists { ListsDirectory path.now L.LinkState.state self.old self.new result }
        ensures keeps { KeepsHeld self.old.core self.new.core }
        ensures usable { IsUsableAfter L.LinkState.state self.new result }
    {
        self.list_dir(path, usize::MAX)
    }

    /// Does the same for a directory of at most this many entries: the next one finds no memory.
    pub(crate) fn list_dir(&mut self, path: &[u8], most: usize) -> Result<Vec<DirEntry>, Error>
        requires { IsCallable L.LinkState.state self.old }
        ensures lists { ListsDirectory path.now L.LinkState.state self.old self.new result }
        ensures keeps { KeepsHeld self.old.core self.new.core }
        ensures usable { IsUsableAfter L.LinkState.state self.new result }
    {
        let mut listing = self.open_dir(path)?.read_dir(self.alloc);
        match self.entries_of(&mut listing, most) {
            Ok(entries) => {
                self.close_dir(listing)?;
                Ok(entries)
            }
            Err(e) => {
                self.release_dir(listing);
                Err(e)
            }
        }
    }

    /// Returns the entries of a listing up to its end, if they are at most this many.
    fn entries_of(&mut self, listing: &mut ReadDir, most: usize) -> Result<Vec<DirEntry>, Error>
        requires usable { IsUsable L.LinkState.state self.old }
        requires listing { IsListing self.old.core listing.old }
        ensures listed { ListsEntries L.LinkState.state self.old self.new listing.old listing.new result }
        ensures listing { IsListing self.new.core listing.new }
        ensures spares { SparesOthers self.old.core self.new.core (IsNoneOfListing listing.old) (IsNoneOfListing listing.new) }
        ensures usable { IsUsableAfter L.LinkState.state self.new result }
    {
        let mut entries = Vec::new(self.alloc);
        for _ in 0..u64::MAX {
            match self.next_entry(listing)? {
                Some(entry) => push(&mut entries, entry, most)?,
                None => return Ok(entries),
            }
        }
        Err(Error::OutOfMemory)
    }
}

/// Appends an entry, if there are fewer than this many.
fn push(entries: &mut Vec<DirEntry>, entry: DirEntry, most: usize) -> Result<(), Error>
    ensures pushed { OnOk result (entries.new.items ≡ entries.old.items ++ entry ∷ []) }
    ensures memory { IfErr result (λ e. e ≡ error.OutOfMemory) }
{
    if entries.len() >= most {
        return Err(Error::OutOfMemory);
    }
    match entries.push(entry) {
        Ok(()) => Ok(()),
        Err(_) => Err(Error::OutOfMemory),
    }
}
