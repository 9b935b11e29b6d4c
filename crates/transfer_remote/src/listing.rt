//! Lists a directory of the server into a walk.
ghost use Rattle.std.specs.Prelude.{◌≡◌, ◌∷◌, [], IfOk};
ghost use Rattle.sftp_fs.specs.Listings.{IsListing};
ghost use Rattle.sftp_client.specs.Calls.{IsUsable};
ghost use Rattle.sftp_client.specs.DirCalls.{IsListedToEnd, ListsWhole};
ghost use Rattle.transfer_pool.specs.Sessions.{IsGoing};
ghost use Rattle.transfer_remote.specs.Listed.{AddsEntries, CountsSelf, GrowsBy, ListsInto, is_self, kind_of};

use crate::listing_stage::push_entry;
use crate::remote_error::RemoteError;
use sftp_client::{DirEntry, ReadDir, Sftp};
use sftp_link::Link;
use sftp_meta::FileType;
use std::alloc::Global;
use transfer_plan::{EntryKind, MAX_ENTRIES, Walk, WalkError};

/// The name under which a directory lists itself.
const SELF: &[u8] = b".";

/// The name under which a directory lists its parent.
const ABOVE: &[u8] = b"..";

/// Returns true if an entry is the directory itself or its parent.
fn is_self(name: &[u8]) -> bool
    ensures { result ≡ is_self name.now }
{
    name == SELF || name == ABOVE
}

/// Returns the kind of an entry, by its type; `Other` also if the server doesn't report the type.
fn kind_of(kind: Option<FileType>) -> EntryKind
    ensures { result ≡ kind_of kind }
{
    let Some(kind) = kind else {
        return EntryKind::Other;
    };
    if kind.is_file() {
        EntryKind::File
    } else if kind.is_dir() {
        EntryKind::Folder
    } else if kind.is_symlink() {
        EntryKind::Link
    } else {
        EntryKind::Other
    }
}

/// Counts an entry that is the directory itself or its parent. Fails if there were 1000000: so a listing without an end
/// fails, whatever its entries are.
fn count_self(selves: &mut usize) -> Result<(), RemoteError>
    ensures { CountsSelf selves.old selves.new result }
{
    if *selves >= MAX_ENTRIES {
        return Err(RemoteError::TooManyEntries);
    }
    *selves += 1;
    Ok(())
}

/// Adds an entry to a walk, unless it is the directory itself or its parent, which is counted. After an error the walk
/// is unchanged.
fn add_entry(
    alloc: Global,
    walk: &mut Walk,
    selves: &mut usize,
    entry: &DirEntry,
) -> Result<(), RemoteError>
    ensures { GrowsBy (entry.now ∷ []) (record { walk = walk.old; selves = selves.old })
        (record { walk = walk.new; selves = selves.new }) result }
{
    let name = entry.filename().as_bytes();
    if is_self(name) {
        return count_self(selves);
    }
    let attrs = entry.metadata().into_inner();
    match walk.add(alloc, name, kind_of(entry.file_type()), attrs) {
        Ok(()) => Ok(()),
        Err(WalkError::TooMany) => Err(RemoteError::TooManyEntries),
        Err(WalkError::OutOfMemory) => Err(RemoteError::OutOfMemory),
    }
}

/// Adds the entries of a listing to a walk, as entries of its current directory and in their order. The directory
/// itself and its parent are left out. Each other entry is added, whatever its name is.
///
/// # Errors
///
/// `TooManyEntries` if the walk has too many entries or more than 1000000 are the directory itself or its parent;
/// `OutOfMemory` if an allocation fails. The entries before are added.
pub fn add_entries(alloc: Global, walk: &mut Walk, entries: &[DirEntry]) -> Result<(), RemoteError>
    ensures { AddsEntries entries.now walk.old walk.new result }
{
    let mut selves = 0;
    for entry in entries {
        // No `?`: it converts the error, and the clause is by cases on the result.
        match add_entry(alloc, walk, &mut selves, entry) {
            Ok(()) => {}
            Err(e) => return Err(e),
        }
    }
    Ok(())
}

/// Returns the entries of an open directory, up to their end.
fn entries_of<L: Link>(
    alloc: Global,
    sftp: &mut Sftp<L>,
    dir: &mut ReadDir,
) -> Result<Vec<DirEntry>, RemoteError>
    requires usable { IsUsable L.LinkState.state sftp.old }
    requires listing { IsListing sftp.old.core dir.old }
    ensures listed { IfOk result
        (λ entries. IsListedToEnd L.LinkState.state sftp.old sftp.new dir.old dir.new entries.items) }
    ensures listing { IsListing sftp.new.core dir.new }
    ensures going { IsGoing L.LinkState.state sftp.new }
{
    let mut entries = Vec::new(alloc);
    for _ in 0..u64::MAX {
        // No `?`: it converts the error, and `listed` is by cases on the result.
        let given = match sftp.next_entry(dir) {
            Ok(given) => given,
            Err(e) => return Err(e.into()),
        };
        match given {
            Some(entry) => match push_entry(&mut entries, entry) {
                Ok(()) => {}
                Err(e) => return Err(e),
            },
            None => return Ok(entries),
        }
    }
    Err(RemoteError::TooLong)
}

/// Returns the entries of a directory. It is closed, and if it was listed to its end, the server's reply is awaited.
fn list_dir<L: Link>(
    alloc: Global,
    sftp: &mut Sftp<L>,
    path: &[u8],
) -> Result<Vec<DirEntry>, RemoteError>
    requires { IsGoing L.LinkState.state sftp.old }
    ensures lists { IfOk result (λ entries. ListsWhole path.now L.LinkState.state sftp.old sftp.new entries.items) }
    ensures going { IsGoing L.LinkState.state sftp.new }
{
    // No `?`: it converts the error, and `lists` is by cases on the result.
    let dir = match sftp.open_dir(path) {
        Ok(dir) => dir,
        Err(e) => return Err(e.into()),
    };
    let mut dir = dir.read_dir(alloc);
    match entries_of(alloc, sftp, &mut dir) {
        Ok(entries) => match sftp.close_dir(dir) {
            Ok(()) => Ok(entries),
            Err(e) => Err(e.into()),
        },
        Err(e) => {
            sftp.release_dir(dir);
            Err(e)
        }
    }
}

/// Adds the entries of the walk's current directory, as the server lists them, without the directory itself and its
/// parent. The directory is closed whether or not the listing succeeded.
///
/// # Errors
///
/// A `RemoteError` if the server refuses, the session fails, an allocation fails, the walk has too many entries, the
/// directory has more than 1000002, or 18446744073709551615 of them were not enough. If it could not be listed to its
/// end, nothing is added.
pub fn list_remote<L: Link>(
    alloc: Global,
    sftp: &mut Sftp<L>,
    walk: &mut Walk,
) -> Result<(), RemoteError>
    requires { IsGoing L.LinkState.state sftp.old }
    ensures going { IsGoing L.LinkState.state sftp.new }
    ensures told { ListsInto L.LinkState.state sftp.old sftp.new walk.old walk.new result }
{
    let path = walk.folder().source.as_slice();
    // No `?`: it converts the error, and `told` is by cases on the result.
    match list_dir(alloc, sftp, path) {
        Ok(entries) => add_entries(alloc, walk, &entries),
        Err(e) => Err(e),
    }
}
