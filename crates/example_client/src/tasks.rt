//! The examples by their words.
ghost use Rattle.std.specs.Prelude.{◌≡◌, ◌++◌, IfOk, OnOk, flat_map};
ghost use Rattle.sftp_client.specs.Calls.{IsUsable};
ghost use Rattle.example_client.specs.Tasks.{IsDone, line_of, path_line};

use crate::files::{append, get, put};
use sftp_client::{DirEntry, Error, Link, Sftp, WalkEntry};
use std::alloc::Global;

/// The work of an example.
#[derive(Clone, Copy, Drop)]
pub enum Task {
    /// Writes a file whole.
    Put,
    /// Reads a file whole.
    Get,
    /// Lists a directory.
    ListDir,
    /// Lists all that is below a directory.
    Walk,
    /// Creates a directory and those on the way to it.
    CreateDirs,
    /// Removes a directory and all that is below it.
    RemoveDirs,
}

/// Runs one of them, and returns the text to print: the bytes of the file that was read, a line for the name or the path
/// of each entry, or nothing.
///
/// # Errors
///
/// The error of the session or the server.
pub fn do_task<L: Link>(
    alloc: Global,
    sftp: &mut Sftp<L>,
    task: Task,
    path: &[u8],
    content: &[u8],
) -> Result<Vec<u8>, Error>
    requires { IsUsable L.LinkState.state sftp.old }
    ensures { IfOk result (λ printed. IsDone task path.now content.now L.LinkState.state sftp.old sftp.new printed.items) }
{
    match task {
        Task::Put => {
            put(sftp, path, content)?;
            Ok(Vec::new(alloc))
        }
        Task::Get => get(alloc, sftp, path),
        Task::ListDir => {
            let entries = sftp.read_dir(path)?;
            lines(alloc, &entries)
        }
        Task::Walk => {
            let found = sftp.walk(path)?;
            paths(alloc, &found)
        }
        Task::CreateDirs => {
            sftp.create_dir_all(path)?;
            Ok(Vec::new(alloc))
        }
        Task::RemoveDirs => {
            sftp.remove_dir_all(path)?;
            Ok(Vec::new(alloc))
        }
    }
}

/// Returns the names of entries, a line each.
pub(crate) fn lines(alloc: Global, entries: &[DirEntry]) -> Result<Vec<u8>, Error>
    ensures { IfOk result (λ text. text.items ≡ flat_map line_of entries.now) }
{
    let mut text = Vec::new(alloc);
    for entry in entries {
        append_line(&mut text, entry)?;
    }
    Ok(text)
}

/// Appends the line of an entry.
fn append_line(text: &mut Vec<u8>, entry: &DirEntry) -> Result<(), Error>
    ensures { OnOk result (text.new.items ≡ text.old.items ++ line_of entry.now) }
{
    append(text, entry.filename().as_bytes())?;
    append(text, b"\n")
}

/// Returns the paths of entries, a line each.
fn paths(alloc: Global, found: &[WalkEntry]) -> Result<Vec<u8>, Error>
    ensures { IfOk result (λ text. text.items ≡ flat_map path_line found.now) }
{
    let mut text = Vec::new(alloc);
    for entry in found {
        append_path(&mut text, entry)?;
    }
    Ok(text)
}

/// Appends the line of an entry's path.
fn append_path(text: &mut Vec<u8>, entry: &WalkEntry) -> Result<(), Error>
    ensures { OnOk result (text.new.items ≡ text.old.items ++ path_line entry.now) }
{
    append(text, entry.path.as_bytes())?;
    append(text, b"\n")
}
