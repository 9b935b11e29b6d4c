//! The comparison of a reader's bytes with others.
ghost use Rattle.std.specs.Prelude.{OnOk};
ghost use Rattle.std.specs.Io.KnownBytes.{Consumes, IsAtEnd, ReadConsumes};

use std::alloc::Global;
use std::io;
use std::io::{ErrorKind, Read};
use transfer_pool::LocalError;

/// Reads some bytes into a buffer, and repeats the read if a signal interrupted it.
pub(crate) fn read_some<F: Read>(file: &mut F, room: &mut [u8]) -> io::Result<usize>
    ensures { OnOk result (ReadConsumes (F.remaining file.old) (F.remaining file.new) result room.new) }
{
    for _ in 0..u64::MAX {
        match file.read(room) {
            Err(e) if e.kind() == ErrorKind::Interrupted => {}
            read => return read,
        }
    }
    Err(ErrorKind::Interrupted.into())
}

/// Compares the next bytes of a reader with these. Fails with `Differs` if it has other bytes or has ended, and with
/// another error if it can't be read.
pub(crate) fn compare_next<F: Read>(
    alloc: Global,
    file: &mut F,
    bytes: &[u8],
) -> Result<(), LocalError>
    ensures { OnOk result (Consumes (F.remaining file.old) (F.remaining file.new) bytes.now) }
{
    let Ok(mut room) = vec![in alloc; 0u8; bytes.len()] else {
        return Err(LocalError::OutOfMemory);
    };
    match file.read_exact(room.as_mut_slice()) {
        Ok(()) => {
            if room.as_slice() == bytes {
                return Ok(());
            }
            Err(LocalError::Differs)
        }
        Err(e) if e.kind() == ErrorKind::UnexpectedEof => Err(LocalError::Differs),
        Err(e) => Err(e.into()),
    }
}

/// Checks that a reader has ended. Fails with `Differs` if it has not, and with another error if it can't be read.
pub(crate) fn compare_end<F: Read>(file: &mut F) -> Result<(), LocalError>
    ensures { OnOk result (IsAtEnd (F.remaining file.new)) }
{
    let mut room = [0u8; 1];
    if read_some(file, &mut room)? == 0 {
        return Ok(());
    }
    Err(LocalError::Differs)
}
