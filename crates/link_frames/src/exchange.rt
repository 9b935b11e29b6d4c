//! One frame that comes over a link, and the errors that a refused frame and a failed call of a link are to a run.
ghost use Rattle.std.specs.Prelude.{◌≡◌, ◌<◌, ◌^◌, ◌-◌, length, IfOk, IfErr};
ghost use Rattle.sftp_link.specs.Told.{IfLogged, GotAll};
ghost use Rattle.link_frames.specs.Causes.{IsCausedByLink, IsRunError, fault_of_link};
ghost use Rattle.link_frames.specs.Reading.{BeginsFrame, FilledOrNot, IsWhole, ReadFails, RefusesLength};
ghost use Rattle.sftp_core.specs.Errors.{error_of};

use sftp_core::TakeError;
use sftp_link::{DeviceError, LinkIn, recv_exact};
use sftp_model::Error;
use sftp_wire::{FrameReader, body_len};
use std::alloc::Global;

/// Returns the error of a run for a refused frame.
#[tactic(auto, using(crate::proofs::RunErrors::refusal_ends_runs))]
pub fn refused(e: TakeError) -> Error
    ensures error { result ≡ error_of e }
    ensures only { IsRunError result }
{
    Error::from(e)
}

/// Returns the error of a run for a failed call of a link.
pub fn fault(e: DeviceError) -> Error
    ensures { result ≡ fault_of_link e }
{
    match e {
        DeviceError::OutOfMemory => Error::OutOfMemory,
        DeviceError::Failed => Error::LinkFault,
    }
}

/// Fills the room from the link. Fails with a fault of the link, at its end, or out of memory.
fn fill<L: LinkIn>(link: &mut L, room: &mut [u8]) -> Result<(), Error>
    requires { (L.LinkState.state link.old).faults < 2 ^ 64 - 1 }
    ensures log { FilledOrNot room.new (L.LinkState.state link.old).log (L.LinkState.state link.new).log result }
    ensures caused { IsCausedByLink (L.LinkState.state link.old) (L.LinkState.state link.new) result }
{
    match recv_exact(link, room) {
        Ok(true) => Ok(()),
        Ok(false) => Err(Error::LinkEnded),
        Err(e) => Err(fault(e)),
    }
}

/// Allocates a frame with these four bytes of its length, and zeros in place of its body. Fails for a wrong length, or
/// out of memory.
fn begun_frame(alloc: Global, len: &[u8]) -> Result<Vec<u8>, Error>
    requires { length len.now ≡ 4 }
    ensures begins { IfOk result (λ frame. BeginsFrame len.now frame.items) }
    ensures refuses { IfErr result (λ e. RefusesLength e len.now) }
{
    let body_len = match body_len(alloc, len) {
        Ok(body_len) => body_len as usize,
        Err(kind) => return Err(Error::FormatError(kind)),
    };
    let Ok(mut frame) = Vec::with_capacity(alloc, 4 + body_len) else {
        return Err(Error::OutOfMemory);
    };
    frame.extend_from_slice(len).unwrap();
    frame.resize(4 + body_len, 0).unwrap();
    Ok(frame)
}

/// Takes one frame, and no byte past it.
///
/// # Errors
///
/// `OutOfMemory` if memory is exhausted, `LinkFault` only if the link's count of faults rose, `LinkEnded` only if the
/// link's last call found the end, or the error of a wrong length. If the link reports its pieces, the bytes received
/// show why no whole frame was taken.
pub fn read_frame<L: LinkIn>(alloc: Global, link: &mut L) -> Result<FrameReader, Error>
    requires { (L.LinkState.state link.old).faults < 2 ^ 64 - 1 }
    ensures whole { IfOk result IsWhole }
    ensures log { IfOk result (λ r. IfLogged (GotAll r.bytes) (L.LinkState.state link.old).log (L.LinkState.state link.new).log) }
    ensures stops { IfErr result (λ e. IfLogged (ReadFails e) (L.LinkState.state link.old).log (L.LinkState.state link.new).log) }
    ensures caused { IsCausedByLink (L.LinkState.state link.old) (L.LinkState.state link.new) result }
{
    let mut len = [0u8; 4];
    fill(link, &mut len)?;
    let mut frame = begun_frame(alloc, &len)?;
    fill(link, &mut frame[4..])?;
    Ok(FrameReader::of_frame(alloc, frame))
}
