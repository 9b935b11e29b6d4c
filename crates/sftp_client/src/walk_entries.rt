//! The entries of one directory, as a walk finds them.
ghost use Rattle.std.specs.Prelude.{◌≡◌, ◌++◌, ◌∷◌, [], IfErr, IfOk, OnOk, flat_map};
ghost use Rattle.sftp_model.specs.declared.error.Error.TheVariants as error;
ghost use Rattle.transfer_plan.specs.Names.{path_in};
ghost use Rattle.sftp_client.specs.Walks.{found_in};

use crate::walk_entry::WalkEntry;
use sftp_fs::DirEntry;
use sftp_model::{Error, RemotePath};
use std::alloc::Global;
use transfer_plan::{is_component, path_in};

/// Appends the entries of the directory of a path, except those whose name is no component.
pub(crate) fn append_entries(
    alloc: Global,
    found: &mut Vec<WalkEntry>,
    path: &[u8],
    entries: &[DirEntry],
) -> Result<(), Error>
    ensures pushes { OnOk result (found.new.items ≡ found.old.items ++ flat_map (found_in path.now) entries.now) }
    ensures memory { IfErr result (λ e. e ≡ error.OutOfMemory) }
{
    for entry in entries {
        append_entry(alloc, found, path, entry)?;
    }
    Ok(())
}

/// Appends an entry of the directory of a path, unless its name is no component.
fn append_entry(
    alloc: Global,
    found: &mut Vec<WalkEntry>,
    path: &[u8],
    entry: &DirEntry,
) -> Result<(), Error>
    ensures pushes { OnOk result (found.new.items ≡ found.old.items ++ found_in path.now entry.now) }
    ensures memory { IfErr result (λ e. e ≡ error.OutOfMemory) }
{
    let name = entry.filename().as_bytes();
    if !is_component(name) {
        return Ok(());
    }
    let path = path_below(alloc, path, name)?;
    push(
        found,
        WalkEntry {
            path,
            metadata: entry.metadata(),
        },
    )
}

/// Returns the path of an entry of a directory.
fn path_below(alloc: Global, directory: &[u8], name: &[u8]) -> Result<RemotePath, Error>
    ensures path { IfOk result (λ path. path ≡ path_in directory.now name.now) }
    ensures memory { IfErr result (λ e. e ≡ error.OutOfMemory) }
{
    match path_in(alloc, directory, name) {
        Ok(path) => Ok(RemotePath::new(path)),
        Err(_) => Err(Error::OutOfMemory),
    }
}

/// Appends an entry.
fn push(found: &mut Vec<WalkEntry>, entry: WalkEntry) -> Result<(), Error>
    ensures pushes { OnOk result (found.new.items ≡ found.old.items ++ entry ∷ []) }
    ensures memory { IfErr result (λ e. e ≡ error.OutOfMemory) }
{
    match found.push(entry) {
        Ok(()) => Ok(()),
        Err(_) => Err(Error::OutOfMemory),
    }
}
