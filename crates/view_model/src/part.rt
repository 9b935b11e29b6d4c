//! A part of bytes.
ghost use Rattle.std.specs.Prelude.{◌≡◌, IfOk, drop, take};

use sftp_values::ByteText;
use ssh_encoding::OutOfMemory;
use std::alloc::Global;

/// Returns at most `len` of the bytes after the first `skipped`.
///
/// # Errors
///
/// `OutOfMemory` if an allocation fails.
pub fn cut(alloc: Global, bytes: &[u8], skipped: u64, len: u32) -> Result<ByteText, OutOfMemory>
    ensures { IfOk result (λ part. part ≡ take len (drop skipped bytes.now)) }
{
    let from = bytes.len().min(skipped as usize);
    let rest = &bytes[from..];
    let to = rest.len().min(len as usize);
    Ok(ByteText::new(Vec::from_slice(alloc, &rest[..to])?))
}
