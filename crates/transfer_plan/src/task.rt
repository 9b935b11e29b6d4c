//! The task for each directory entry.
ghost use Rattle.std.specs.Prelude.{◌≡◌};
ghost use Rattle.std.specs.Str.{is_utf8};
ghost use Rattle.transfer_plan.specs.Entries.{task_at, task_of};

use crate::component::is_entry_name;
use std::str;

/// The greatest depth of nested directories below the root.
pub const MAX_DEPTH: u32 = 64;

/// The type of a directory entry, as the directory's listing reports it.
///
/// Example: `crates/sftp_transfer/src/local_side.rt`.
#[derive(Clone, Copy, Debug, PartialEq, Eq)]
pub enum EntryKind {
    /// A regular file.
    File,
    /// A directory.
    Folder,
    /// A symbolic link.
    Link,
    /// Any other type, such as a device or a socket.
    Other,
}

/// The task for an entry that was found.
///
/// Example: `crates/sftp_transfer/src/courier.rt`.
#[derive(Clone, Copy, Debug, PartialEq, Eq)]
pub enum Task {
    /// Copies a regular file.
    CopyFile,
    /// Creates a directory.
    MakeFolder,
    /// Creates a symbolic link with the same target as the one that was found.
    CopyLink,
    /// Removes a file, a symbolic link or anything else that is no directory. No walk finds this task.
    RemoveFile,
    /// Removes a directory, which is empty by then. No walk finds this task.
    RemoveFolder,
    /// Gives an entry that exists permissions and times. No walk finds this task.
    SetAttributes,
    /// Skips the entry, since it is no file, no directory and no symbolic link.
    PassOver,
    /// Refuses the entry: its name is no component, and could lead out of the target, or it has more than 255 bytes,
    /// which no file system takes.
    RefuseName,
    /// Refuses the entry: its name isn't UTF-8, so no entry with that name can be created.
    RefuseText,
    /// Refuses the entry: directories are nested too deep.
    RefuseDepth,
    /// Refuses a file: another file before it is copied to the same path.
    RefuseTwice,
    /// Refuses a file: its path is that of a part, in which a file is written until all its bytes are there, or its own
    /// part would have the path of another one's part.
    RefusePart,
}

/// Returns true if bytes are UTF-8.
fn is_text(name: &[u8]) -> bool
    ensures { result ≡ is_utf8 name.now }
{
    match str::from_utf8(name) {
        Ok(_) => true,
        Err(_) => false,
    }
}

/// Returns the task for an entry of this kind with a usable name, at this depth below the root.
fn task_at(depth: u32, kind: EntryKind) -> Task
    ensures { result ≡ task_at depth kind }
{
    match kind {
        EntryKind::File => Task::CopyFile,
        EntryKind::Folder => {
            if depth < MAX_DEPTH {
                Task::MakeFolder
            } else {
                Task::RefuseDepth
            }
        }
        EntryKind::Link => Task::CopyLink,
        EntryKind::Other => Task::PassOver,
    }
}

/// Returns the task for an entry of a directory at this depth below the root. With `texts` a name must be UTF-8.
pub(crate) fn task_of(texts: bool, depth: u32, name: &[u8], kind: EntryKind) -> Task
    ensures { result ≡ task_of texts depth name.now kind }
{
    if !is_entry_name(name) {
        return Task::RefuseName;
    }
    if texts && !is_text(name) {
        return Task::RefuseText;
    }
    task_at(depth, kind)
}
