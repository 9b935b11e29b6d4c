//! Calls on trees of directories, each of which runs to its end.
ghost use Rattle.std.specs.Prelude.{◌≡◌, ◌≤◌, ◌<◌, ◌∷◌, [], IfErr, IfOk, length};
ghost use Rattle.plan_state.specs.Keeping.{KeepsHeld};
ghost use Rattle.sftp_model.specs.declared.error.Error.TheVariants as error;
ghost use Rattle.sftp_client.specs.Calls.{IsCallable, IsUsable, IsUsableAfter};
ghost use Rattle.sftp_client.specs.CreatedDirs.{FindsDir, MakesDirs, MakesPath, found_or, is_directory, is_refusal};
ghost use Rattle.sftp_client.specs.DirPaths.{dir_at};
ghost use Rattle.sftp_client.specs.RemovedTrees.{RemovesEach, RemovesOne, RemovesPath, RemovesTree, is_link, removal_of, removals_of};
ghost use Rattle.sftp_client.specs.Walks.{ListsDir, StopsWalk, WalksWhole, dirs_at};

use super::Sftp;
use crate::dir_paths::is_dir_end;
use crate::walk_entries::append_entries;
use crate::walk_entry::WalkEntry;
use sftp_link::Link;
use sftp_meta::MetaData;
use sftp_model::{Error, RemotePath, TryCopy};
use std::alloc::Global;

/// A tree that is walked has fewer entries.
const MAX_WALKED: usize = 1_000_000;

/// The calls on trees of directories. Each of them is a number of the calls on paths and directories, one after another.
impl<L: Link> Sftp<L> {
    /// Creates a directory and each missing one on the way to it, the outermost first. It is no error if they exist.
    /// `a//b/` goes through `a`, `a//b` and `a//b/`; a path that ends without a slash asks once for each name.
    ///
    /// For each of them MKDIR is sent. If the server refuses it, STAT asks whether the path is a directory.
    ///
    /// # Errors
    ///
    /// The first error of `create_dir`, unless the path is a directory; that of `metadata` if it isn't a refusal by the
    /// server. The directories that were created before it stay.
    pub fn create_dir_all(&mut self, path: &[u8]) -> Result<(), Error>
        requires { IsCallable L.LinkState.state self.old }
        ensures { MakesPath path.now L.LinkState.state self.old self.new result }
    {
        for end in 0..path.len() {
            self.ensure_dir_at(path, end)?;
        }
        self.ensure_dir(path)
    }

    /// Creates the directory whose path ends at a place of another path, if one does.
    fn ensure_dir_at(&mut self, path: &[u8], end: usize) -> Result<(), Error>
        requires usable { IsCallable L.LinkState.state self.old }
        requires within { end ≤ length path.now }
        ensures { MakesDirs L.LinkState.state (dir_at path.now end) self.old self.new result }
    {
        let (dir, rest) = path.split_at(end);
        if is_dir_end(dir, rest) {
            return self.ensure_dir(dir);
        }
        Ok(())
    }

    /// Creates a directory, if it doesn't exist.
    fn ensure_dir(&mut self, path: &[u8]) -> Result<(), Error>
        requires { IsCallable L.LinkState.state self.old }
        ensures { MakesDirs L.LinkState.state (path.now ∷ []) self.old self.new result }
    {
        match self.create_dir(path) {
            Ok(()) => Ok(()),
            Err(e) => {
                if !is_refusal(&e) {
                    return Err(e);
                }
                self.find_dir(path, e)
            }
        }
    }

    /// Returns the refusal of a directory that wasn't created, unless it exists.
    fn find_dir(&mut self, path: &[u8], refusal: Error) -> Result<(), Error>
        requires { IsCallable L.LinkState.state self.old }
        ensures { FindsDir L.LinkState.state path.now refusal self.old self.new result }
    {
        let told = self.metadata(path);
        found_or(told, refusal)
    }

    /// Returns all entries below a directory, with their paths. First come the entries of the directory, in the server's
    /// order, and then those of each directory among them, in the order in which the directories were found. So a
    /// directory comes before its entries. A symbolic link is an entry and is not followed.
    ///
    /// An entry is left out if its name is empty, `.` or `..`, or has a slash or a zero byte: its path would lead
    /// elsewhere. An entry whose type the server doesn't report is no directory.
    ///
    /// # Errors
    ///
    /// Those of `read_dir`; `OutOfMemory` also if there are 1000000 entries or more. The entries that came are dropped.
    pub fn walk(&mut self, path: &[u8]) -> Result<Vec<WalkEntry>, Error>
        requires { IsCallable L.LinkState.state self.old }
        ensures walks { IfOk result (λ found. WalksWhole path.now L.LinkState.state self.old self.new found.items) }
        ensures stops { IfErr result (λ e. StopsWalk path.now L.LinkState.state self.old self.new e) }
        ensures keeps { KeepsHeld self.old.core self.new.core }
        ensures usable { IsUsableAfter L.LinkState.state self.new result }
    {
        let mut found = Vec::new(self.alloc);
        self.walk_dir(path, &mut found)?;
        for at in 0..MAX_WALKED {
            if at >= found.len() {
                return Ok(found);
            }
            self.walk_at(at, &mut found)?;
        }
        Err(Error::OutOfMemory)
    }

    /// Removes a directory with all entries below it. They are found as by `walk`, and removed in reverse order, so that
    /// an entry is removed before its directory: a directory by RMDIR, and anything else by REMOVE
    /// (draft-ietf-secsh-filexfer-02, sections 6.5 and 6.6). A symbolic link is removed and not followed, also if `path`
    /// is one: LSTAT asks for it first.
    ///
    /// # Errors
    ///
    /// Those of `symlink_metadata` and `walk`: nothing was removed then. After the first error of `remove_file` or
    /// `remove_dir`, nothing more is removed. An entry that `walk` leaves out is not removed, so its directory is not
    /// empty.
    pub fn remove_dir_all(&mut self, path: &[u8]) -> Result<(), Error>
        requires { IsCallable L.LinkState.state self.old }
        ensures { RemovesPath path.now L.LinkState.state self.old self.new result }
    {
        let told = self.symlink_metadata(path)?;
        if is_link(&told) {
            return self.remove_file(path);
        }
        self.remove_tree(path)
    }

    /// Removes a directory with all entries below it.
    fn remove_tree(&mut self, path: &[u8]) -> Result<(), Error>
        requires { IsCallable L.LinkState.state self.old }
        ensures { RemovesTree path.now L.LinkState.state self.old self.new result }
    {
        let found = self.walk(path)?;
        self.remove_walked(path, found)
    }

    /// Removes the entries of a walk, the last one first, and then its directory.
    fn remove_walked(&mut self, path: &[u8], found: Vec<WalkEntry>) -> Result<(), Error>
        requires { IsCallable L.LinkState.state self.old }
        ensures { RemovesEach L.LinkState.state (removals_of path.now found.items) self.old self.new result }
    {
        let mut found = found;
        while let Some(entry) = found.pop() {
            self.remove_entry(&entry)?;
        }
        self.remove_dir(path)
    }

    /// Removes an entry.
    fn remove_entry(&mut self, entry: &WalkEntry) -> Result<(), Error>
        requires { IsCallable L.LinkState.state self.old }
        ensures { RemovesOne L.LinkState.state (removal_of entry.now) self.old self.new result }
    {
        let path = entry.path.as_bytes();
        if is_directory(&entry.metadata) {
            self.remove_dir(path)
        } else {
            self.remove_file(path)
        }
    }

    /// Appends the entries of the directory at a place, if the entry there is one.
    fn walk_at(&mut self, at: usize, found: &mut Vec<WalkEntry>) -> Result<(), Error>
        requires usable { IsUsable L.LinkState.state self.old }
        requires within { at < length found.old.items }
        ensures { ListsDir L.LinkState.state (dirs_at found.old.items at)
            (record { session = self.old; found = found.old.items })
            (record { session = self.new; found = found.new.items }) result }
    {
        let entry = &found[at];
        if !is_directory(&entry.metadata) {
            return Ok(());
        }
        let path = copy_path(self.alloc, &entry.path)?;
        self.walk_dir(path.as_bytes(), found)
    }

    /// Appends the entries of a directory.
    fn walk_dir(&mut self, path: &[u8], found: &mut Vec<WalkEntry>) -> Result<(), Error>
        requires { IsCallable L.LinkState.state self.old }
        ensures { ListsDir L.LinkState.state (path.now ∷ [])
            (record { session = self.old; found = found.old.items })
            (record { session = self.new; found = found.new.items }) result }
    {
        let most = MAX_WALKED.saturating_sub(found.len());
        let entries = self.list_dir(path, most)?;
        append_entries(self.alloc, found, path, &entries)
    }
}

/// Returns a copy of a path.
fn copy_path(alloc: Global, path: &RemotePath) -> Result<RemotePath, Error>
    ensures path { IfOk result (λ copy. copy ≡ path.now) }
    ensures memory { IfErr result (λ e. e ≡ error.OutOfMemory) }
{
    match path.try_copy(alloc) {
        Ok(copy) => Ok(copy),
        Err(_) => Err(Error::OutOfMemory),
    }
}

/// Returns true if the server refused a request by a STATUS.
fn is_refusal(e: &Error) -> bool
    ensures { result ≡ is_refusal e.now }
{
    matches!(e, Error::SftpError { .. })
}

/// Returns true if the server reported that these are the attributes of a directory.
fn is_directory(metadata: &MetaData) -> bool
    ensures { result ≡ is_directory metadata.now }
{
    match metadata.file_type() {
        Some(kind) => kind.is_dir(),
        None => false,
    }
}

/// Returns true if the server reported that these are the attributes of a symbolic link.
fn is_link(metadata: &MetaData) -> bool
    ensures { result ≡ is_link metadata.now }
{
    match metadata.file_type() {
        Some(kind) => kind.is_symlink(),
        None => false,
    }
}

/// Returns the refusal of a directory that wasn't created, unless these attributes are those of a directory, or the
/// call for them failed by itself.
fn found_or(told: Result<MetaData, Error>, refusal: Error) -> Result<(), Error>
    ensures { result ≡ found_or told refusal }
{
    match told {
        Ok(metadata) => {
            if is_directory(&metadata) {
                Ok(())
            } else {
                Err(refusal)
            }
        }
        Err(e) => { if is_refusal(&e) { Err(refusal) } else { Err(e) } }
    }
}
