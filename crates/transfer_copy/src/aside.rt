//! The name that an old file of the server has until the new one has its name.
ghost use Rattle.std.specs.Prelude.{◌≡◌, ◌≤◌, IfOk, length};
ghost use Rattle.transfer_copy.specs.Asides.{aside_of, before_old, is_directory, name_len_from};

use sftp_model::{FileAttrs, RemotePath};
use ssh_encoding::OutOfMemory;
use std::alloc::Global;

/// The most bytes of a part's name to which `.old` is appended: a name has at most 255 bytes.
const MAX_PART_LEN: usize = 251;

/// The bits of an `st_mode` that are the type of an entry.
const TYPE_BITS: u32 = 0o170000;

/// The type of a directory.
const DIRECTORY: u32 = 0o040000;

/// Returns the number of bytes after the last slash of a path.
fn name_len(path: &[u8]) -> usize
    ensures is { result ≡ name_len_from 0 path.now }
    ensures few { result ≤ length path.now }
{
    let mut len = 0;
    let mut rest = path;
    loop {
        match rest {
            [] => return len,
            [byte, later @ ..] => {
                len = if *byte == b'/' { 0 } else { len + 1 };
                rest = later;
            }
        }
    }
}

/// Returns the bytes of a part's path before `.old`: all of them. If its name has more than 251 bytes, the last five,
/// which are `.part`, are left out.
#[tactic(auto, unfolding(crate::specs::Asides::before_old))]
fn before_old(part: &[u8]) -> &[u8]
    ensures { result.now ≡ before_old part.now }
{
    if name_len(part) > MAX_PART_LEN {
        return &part[..part.len() - 5];
    }
    part
}

/// Returns the path that the old file of the server has until the new one has its name: that of the part with `.old`
/// after it. Fails only if an allocation fails.
#[tactic(auto, unfolding(crate::specs::Asides::aside_of))]
pub(crate) fn aside_of(alloc: Global, part: &str) -> Result<RemotePath, OutOfMemory>
    ensures { IfOk result (λ path. path ≡ aside_of part.now) }
{
    let mut path = Vec::from_slice(alloc, before_old(part.as_bytes()))?;
    path.extend_from_slice(b".old")?;
    Ok(RemotePath::new(path))
}

/// Returns true if the attributes are those of a directory. If the server did not report the type, they are not.
pub(crate) fn is_directory(attrs: &FileAttrs) -> bool
    ensures { result ≡ is_directory attrs.now }
{
    match attrs.permissions {
        Some(mode) => mode & TYPE_BITS == DIRECTORY,
        None => false,
    }
}
