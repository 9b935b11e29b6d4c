//! First bytes of pieces.
ghost use Rattle.std.specs.Prelude.{◌≡◌, ◌≤◌, ◌<◌, [], IfOk, IfNone, IfSome};
ghost use Rattle.sftp_file.specs.Slices.{IsCutOff};

use bytes::Bytes;
use ssh_encoding::OutOfMemory;
use std::alloc::Global;

/// Returns the first bytes of these pieces, at most `limit`: how many they are, how many whole pieces are among them,
/// and the rest, which shares the bytes of the next piece. Returns `None` exactly if all pieces are empty.
///
/// # Errors
///
/// `OutOfMemory` if an allocation fails.
pub fn take_io_slices(
    _alloc: Global,
    bufs: &[Bytes],
    limit: usize,
) -> Result<Option<(usize, usize, Bytes)>, OutOfMemory>
    requires { 1 ≤ limit }
    ensures { IfOk result (IsCutOff bufs.now limit) }
{
    let mut left = limit;
    let mut whole = 0;
    for piece in bufs {
        if left < piece.len() {
            return Ok(Some((limit, whole, piece.slice(0..left)?)));
        }
        left -= piece.len();
        whole += 1;
    }
    Ok(counted(limit - left, whole))
}

/// Returns the first bytes of these pieces, as `take_io_slices` does.
///
/// # Errors
///
/// `OutOfMemory` if an allocation fails.
pub fn take_bytes(
    alloc: Global,
    bufs: &[Bytes],
    limit: usize,
) -> Result<Option<(usize, usize, Bytes)>, OutOfMemory>
    requires { 1 ≤ limit }
    ensures { IfOk result (IsCutOff bufs.now limit) }
{
    take_io_slices(alloc, bufs, limit)
}

/// Returns the number of bytes in this many whole pieces, if there are any bytes.
fn counted(len: usize, whole: usize) -> Option<(usize, usize, Bytes)>
    ensures none { IfNone result (len ≡ 0) }
    ensures some { IfSome result (λ first. (0 < len) × (first ≡ (len, whole, []))) }
{
    if len == 0 {
        return None;
    }
    Some((len, whole, Bytes::new()))
}
