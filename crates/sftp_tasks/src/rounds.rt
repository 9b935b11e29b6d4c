//! One round of a worker over its half of the link: it holds the lock while it hands out or takes, and not while it
//! sends, receives or reads.
ghost use Rattle.std.specs.Prelude.{◌≡◌, ◌<◌, ◌≤◌, ◌-◌, ◌^◌, ℕ, List, length, None, Some, IfErr, IfNone, IfOk, IfSome};
ghost use Rattle.link_frames.specs.Reading.{IsWhole};
ghost use Rattle.sftp_core.specs.Pieces.{HasFrames};
ghost use Rattle.sftp_model.specs.declared.request.Request.{Request};
ghost use Rattle.session_seats.specs.Holds.{AddsEntries, claim_of};
ghost use Rattle.sftp_tasks.specs.Entries.{by_failing, by_flush, by_nothing, by_read};
ghost use Rattle.sftp_tasks.specs.LockedEvents.{ReadsFrame};
ghost use Rattle.sftp_tasks.specs.Rounds.{FlushStops, FlushesRound, ReadStops, ReadsRound, SendsGroups, StopsByError, fault_for};

use crate::events::{Fail, GiveUp, HandOut, MayRead, TakeFrame, Written};
use crate::frames::Handed;
use crate::shared_sftp::{Seat, SharedSftp, settle};
use link_frames::{read_frame, send_pieces};
use sftp_core::{Chunk, Place};
use sftp_link::{LinkIn, LinkOut};
use sftp_model::{Error, Fault, FrameError, Reply};
use sftp_wire::{FrameReader, read_reply};
use ssh_encoding::OutOfMemory;
use std::alloc::Global;
use std::sync::Wait;

/// Returns the fault that a session records if this went wrong in a round; `None` for running out of memory, for a
/// fault that was recorded before, and for errors that a round never returns.
pub fn fault_for(e: &Error) -> Option<Fault>
    ensures { result ≡ fault_for e.now }
{
    match e {
        Error::LinkFault => Some(Fault::Link),
        Error::LinkEnded => Some(Fault::Ended),
        Error::UnsupportedSftpProtocol { version } => Some(Fault::Protocol { version: *version }),
        Error::FormatError(kind) => Some(Fault::Format(*kind)),
        Error::HandleTooLong { len } => Some(Fault::HandleTooLong { len: *len }),
        Error::InvalidResponseId { id } => Some(Fault::ResponseId { id: *id }),
        Error::InvalidResponse { id } => Some(Fault::Response { id: *id }),
        Error::SftpError { code, .. } => Some(Fault::Limits { code: *code }),
        _ => None,
    }
}

/// Stops the session for an error in a round, and returns the error of the round. The fault is recorded if it is the
/// session's first; otherwise the one that was recorded before is returned. If an allocation failed the session is
/// given up.
pub(crate) fn stop<R: Wait>(rt: &R, shared: &SharedSftp, seat: &mut Seat, why: Error) -> Error
    requires own { seat.old.inner.table_id ≡ shared.now.shared.table.shared.table_id }
    ensures own { (seat.new.inner.table_id ≡ seat.old.inner.table_id) × (seat.new.lane ≡ seat.old.lane) }
    ensures only { AddsEntries (by_failing seat.old.lane) (claim_of seat.old.inner.me) (claim_of seat.new.inner.me) }
    ensures stops { StopsByError why result seat.old.inner.me seat.new.inner.me }
{
    let Some(fault) = fault_for(&why) else {
        let _ = seat.apply(rt, shared.alloc, &shared.shared, GiveUp);
        return Error::OutOfMemory;
    };
    let (did, _) = seat.apply(rt, shared.alloc, &shared.shared, Fail { fault });
    match did {
        Ok(()) => why,
        Err(told) => told,
    }
}

/// Hands out while it holds the lock, and sends everything without it, group by group. Each group is recorded as
/// written before the next one is sent. Returns false exactly if nothing is unsent, or a reply of the opening is
/// awaited; nothing is sent then.
///
/// # Errors
///
/// `LinkFault` if the link fails: a prefix of the frames was sent, and the session records the fault. `OutOfMemory` if
/// an allocation fails, and for good if the link ran out of memory. `BackgroundTaskFailure` if a fault was recorded
/// before.
pub fn flush_round<O: LinkOut, R: Wait>(
    rt: &R,
    shared: &SharedSftp,
    seat: &mut Seat,
    out: &mut O,
) -> Result<bool, Error>
    requires own { seat.old.inner.table_id ≡ shared.now.shared.table.shared.table_id }
    requires count { (O.LinkState.state out.old).faults < 2 ^ 64 - 1 }
    ensures own { (seat.new.inner.table_id ≡ seat.old.inner.table_id) × (seat.new.lane ≡ seat.old.lane) }
    ensures only { AddsEntries (by_flush seat.old.lane) (claim_of seat.old.inner.me) (claim_of seat.new.inner.me) }
    ensures flushes { IfOk result (λ did. FlushesRound did seat.old.inner.me seat.new.inner.me (O.LinkState.state out.old) (O.LinkState.state out.new)) }
    ensures stops { IfErr result (λ e. FlushStops e seat.old.inner.me seat.new.inner.me (O.LinkState.state out.old) (O.LinkState.state out.new)) }
{
    let (did, copied) = seat.apply(rt, shared.alloc, &shared.shared, HandOut);
    // No `?`: it converts the error, and `stops` is about the error itself.
    let Handed { chunk, .. } = match did {
        Ok(Some(handed)) => handed,
        Ok(None) => return settle(Ok(false), copied),
        Err(e) => return Err(e),
    };
    match send_groups(rt, shared, seat, out, &chunk) {
        Ok(()) => settle(Ok(true), copied),
        Err(e) => Err(stop(rt, shared, seat, e)),
    }
}

/// Sends the frames of a chunk group by group, and records those of a group as written before it sends the next one.
/// So the reply to each frame that the server has read whole may be read, even while the server takes no further bytes.
///
/// # Errors
///
/// `OutOfMemory` or `LinkFault`; a prefix of the frames was sent, and those that were recorded are whole in it.
fn send_groups<O: LinkOut, R: Wait>(
    rt: &R,
    shared: &SharedSftp,
    seat: &mut Seat,
    out: &mut O,
    chunk: &Chunk,
) -> Result<(), Error>
    requires own { seat.old.inner.table_id ≡ shared.now.shared.table.shared.table_id }
    requires count { (O.LinkState.state out.old).faults < 2 ^ 64 - 1 }
    requires unwritten { length chunk.now.counts ≤ (claim_of seat.old.inner.me).unwritten }
    ensures own { (seat.new.inner.table_id ≡ seat.old.inner.table_id) × (seat.new.lane ≡ seat.old.lane) }
    ensures only { AddsEntries (by_nothing seat.old.lane) (claim_of seat.old.inner.me) (claim_of seat.new.inner.me) }
    ensures sends { (queue : List (ℕ × Request)) → HasFrames chunk.now queue
        → SendsGroups queue seat.old.inner.me seat.new.inner.me (O.LinkState.state out.old) (O.LinkState.state out.new) result }
{
    let mut start = Place {
        pieces: 0,
        frames: 0,
    };
    while start.frames < chunk.frames() {
        let end = chunk.group_end(start);
        // No `?`: `sends` is about the error itself.
        match send_pieces(out, chunk.between(start, end)) {
            Ok(()) => {}
            Err(e) => return Err(e),
        }
        let frames = (end.frames - start.frames) as u64;
        // The hold adds no entry, so no receipt is missing.
        let _ = seat.apply(rt, shared.alloc, &shared.shared, Written { frames });
        start = end;
    }
    Ok(())
}

/// Reads the body of a whole frame, without the lock.
///
/// # Errors
///
/// Those of `read_reply`.
pub(crate) fn read_body(
    alloc: Global,
    frame: FrameReader,
) -> Result<(Option<u32>, Reply), FrameError>
    requires { IsWhole frame }
    ensures { ReadsFrame frame result }
{
    match frame.frame() {
        Some(body) => read_reply(alloc, body),
        None => unreachable!(),
    }
}

/// Receives and reads one frame without the lock, and takes it while holding the lock. Returns false exactly if at
/// least as many frames were taken as were written whole; nothing is received then.
///
/// # Errors
///
/// `OutOfMemory` if an allocation fails; `BackgroundTaskFailure` if a fault was recorded before. The session records
/// any other error as its fault: the link's, or the first thing that is wrong with the frame.
pub fn read_round<I: LinkIn, R: Wait>(
    rt: &R,
    shared: &SharedSftp,
    seat: &mut Seat,
    input: &mut I,
) -> Result<bool, Error>
    requires own { seat.old.inner.table_id ≡ shared.now.shared.table.shared.table_id }
    requires count { (I.LinkState.state input.old).faults < 2 ^ 64 - 1 }
    ensures own { (seat.new.inner.table_id ≡ seat.old.inner.table_id) × (seat.new.lane ≡ seat.old.lane) }
    ensures only { AddsEntries (by_read seat.old.lane) (claim_of seat.old.inner.me) (claim_of seat.new.inner.me) }
    ensures reads { IfOk result (λ did. ReadsRound did seat.old.inner.me seat.new.inner.me (I.LinkState.state input.old) (I.LinkState.state input.new)) }
    ensures stops { IfErr result (λ e. ReadStops e seat.old.inner.me seat.new.inner.me (I.LinkState.state input.old) (I.LinkState.state input.new)) }
{
    let (may, looked) = seat.apply(rt, shared.alloc, &shared.shared, MayRead);
    // No `?`: it converts the error, and `stops` is about the error itself.
    match may {
        Ok(true) => {}
        Ok(false) => return settle(Ok(false), looked),
        Err(e) => return Err(e),
    }
    let frame = match read_frame(shared.alloc, input) {
        Ok(frame) => frame,
        Err(e) => return Err(stop(rt, shared, seat, e)),
    };
    let read = read_body(shared.alloc, frame);
    let (did, copied) = seat.apply(rt, shared.alloc, &shared.shared, TakeFrame { read });
    match did {
        Ok(()) => {}
        Err(e) => return Err(e),
    }
    match looked {
        Ok(()) => settle(Ok(true), copied),
        Err(OutOfMemory) => Err(Error::OutOfMemory),
    }
}
