//! The paths of directory entries.
ghost use Rattle.std.specs.Prelude.{◌≡◌, true, IfOk};
ghost use Rattle.sftp_model.specs.Paths.{with_separator};
ghost use Rattle.transfer_plan.specs.Names.{LeadsInto, is_component, path_in};

use ssh_encoding::OutOfMemory;
use std::alloc::Global;

/// Returns a copy of a directory's path, with a `/` at its end if it isn't empty. Fails only if an allocation fails.
fn with_separator(alloc: Global, folder: &[u8]) -> Result<Vec<u8>, OutOfMemory>
    ensures { IfOk result (λ bytes. bytes.items ≡ with_separator folder.now) }
{
    let mut bytes = Vec::from_slice(alloc, folder)?;
    match folder.last() {
        Some(b'/') | None => Ok(bytes),
        Some(_) => {
            bytes.push(b'/')?;
            Ok(bytes)
        }
    }
}

/// Returns the path of an entry of a directory: the two joined by a `/`. The `/` is not added if the directory's path
/// is empty or ends in `/`. If the name is a component, the path leads from the directory down to that name.
///
/// # Errors
///
/// `OutOfMemory` if an allocation fails.
#[tactic(auto, using(crate::proofs::PathLaws::leads_into))]
pub fn path_in(alloc: Global, folder: &[u8], name: &[u8]) -> Result<Vec<u8>, OutOfMemory>
    ensures is { IfOk result (λ path. path.items ≡ path_in folder.now name.now) }
    ensures below { IfOk result (λ path. is_component name.now ≡ true → LeadsInto folder.now name.now path.items) }
{
    let mut path = with_separator(alloc, folder)?;
    path.extend_from_slice(name)?;
    Ok(path)
}
