//! Puts of bytes, and the bytes that come meanwhile.
ghost use Rattle.std.specs.Prelude.{◌<◌, ◌-◌, ◌^◌, length};
ghost use Rattle.link_duplex.specs.Buffers.{MakesWay, PutsSome};

use crate::read_ahead::{GetOutcome, ReadAhead};
use crate::wire::{Readiness, Wire};
use sftp_link::DeviceError;

/// Reads ahead if bytes came. Otherwise waits until the wire can be read or written, or only until it can be written if
/// no more bytes can be read ahead.
///
/// # Errors
///
/// `OutOfMemory` or `Failed`; no bytes that came are lost.
fn make_way<W: Wire>(limit: usize, wire: &mut W, ahead: &mut ReadAhead) -> Result<(), DeviceError>
    requires { (W.state wire.old).faults < 2 ^ 64 - 1 }
    ensures { MakesWay limit ahead.old ahead.new (W.state wire.old) (W.state wire.new) result }
{
    match ahead.take(limit, wire) {
        Ok(GetOutcome::Came) => Ok(()),
        Ok(GetOutcome::Nothing) => wire.wait(Readiness::Either),
        Ok(GetOutcome::End) => wire.wait(Readiness::Writable),
        Ok(GetOutcome::Full) => wire.wait(Readiness::Writable),
        Err(e) => Err(e),
    }
}

/// Puts bytes from the beginning of a piece, at least one, and returns their number. Bytes that come before one can be
/// put are read ahead.
///
/// # Errors
///
/// `OutOfMemory` or `Failed`; no byte was put.
pub(crate) fn put_some<W: Wire>(
    limit: usize,
    wire: &mut W,
    ahead: &mut ReadAhead,
    bytes: &[u8],
) -> Result<usize, DeviceError>
    requires some { 0 < length bytes.now }
    requires count { (W.state wire.old).faults < 2 ^ 64 - 1 }
    ensures { PutsSome limit bytes.now ahead.old ahead.new (W.state wire.old) (W.state wire.new) result }
{
    for _ in 0..u64::MAX {
        match wire.put(bytes) {
            Ok(Some(n)) => return Ok(n),
            Ok(None) => {}
            Err(e) => return Err(e),
        }
        match make_way(limit, wire, ahead) {
            Ok(()) => {}
            Err(e) => return Err(e),
        }
    }
    Err(wire.give_up())
}
