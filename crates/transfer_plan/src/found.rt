//! An entry that a walk found.
ghost use Rattle.std.specs.Prelude.{◌≡◌, ◌<◌, ◌^◌, ◌-◌, true, IfOk};
ghost use Rattle.transfer_plan.specs.Entries.{entry_found, root_found, target_in};

use crate::component::is_entry_name;
use crate::path_in;
use crate::task::{EntryKind, Task, task_of};
use sftp_model::FileAttrs;
use sftp_values::ByteText;
use ssh_encoding::OutOfMemory;
use std::alloc::Global;

/// An entry that was found below a root, or the root itself.
///
/// Example: `crates/sftp_transfer/src/batch.rt`.
#[derive(Debug, Drop)]
pub struct Found {
    /// The task for it.
    pub task: Task,
    /// Its depth below the root; 0 for the root.
    pub depth: u32,
    /// The path at which it was found.
    pub source: ByteText,
    /// The path that it is copied to. If its name is refused, this is the path that its directory is copied to.
    pub target: ByteText,
    /// The file attributes that the listing reported for it.
    pub attrs: FileAttrs,
}

impl Found {
    /// Returns a directory as the root of a walk.
    ///
    /// # Errors
    ///
    /// `OutOfMemory` if an allocation fails.
    pub fn root(
        alloc: Global,
        source: &[u8],
        target: &[u8],
        attrs: FileAttrs,
    ) -> Result<Found, OutOfMemory>
        ensures { IfOk result (λ found. found ≡ root_found source.now target.now attrs) }
    {
        Ok(Found {
            task: Task::MakeFolder,
            depth: 0,
            source: ByteText::new(Vec::from_slice(alloc, source)?),
            target: ByteText::new(Vec::from_slice(alloc, target)?),
            attrs,
        })
    }

    /// Returns an entry of this directory. Fails only if an allocation fails.
    pub(crate) fn entry(
        &self,
        alloc: Global,
        texts: bool,
        name: &[u8],
        kind: EntryKind,
        attrs: FileAttrs,
    ) -> Result<Found, OutOfMemory>
        requires { self.now.depth < 2 ^ 32 - 1 }
        ensures { IfOk result (λ found. found ≡ entry_found texts self.now name.now kind attrs) }
    {
        let source = path_in(alloc, self.source.as_slice(), name)?;
        let target = target_in(alloc, self.target.as_slice(), name)?;
        Ok(Found {
            task: task_of(texts, self.depth, name, kind),
            depth: self.depth + 1,
            source: ByteText::new(source),
            target: ByteText::new(target),
            attrs,
        })
    }
}

/// Returns the path that an entry is copied to. Fails only if an allocation fails.
fn target_in(alloc: Global, folder: &[u8], name: &[u8]) -> Result<Vec<u8>, OutOfMemory>
    ensures { IfOk result (λ target. target.items ≡ target_in folder.now name.now) }
{
    if is_entry_name(name) {
        return path_in(alloc, folder, name);
    }
    Ok(Vec::from_slice(alloc, folder)?)
}
