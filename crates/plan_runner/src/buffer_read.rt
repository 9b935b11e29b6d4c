//! `buf_read`: from the buffer, which a READ fills if it is empty.
ghost use Rattle.std.specs.Prelude.{◌≡◌, ◌<◌, ◌≤◌, ◌-◌, ◌^◌, [], length, take, Option, Some, None, IfOk};
ghost use Rattle.sftp_model.specs.Slots.{slot_at};
ghost use Rattle.sftp_model.specs.declared.slot.Move.TheVariants.{Done};
ghost use Rattle.plan_model.specs.declared.call.Call.TheVariants as call;
ghost use Rattle.plan_model.specs.Moves.{further, on_buffered};
ghost use Rattle.plan_model.specs.BufferPlans.{cancelled_buf_read, fill_next, was_filled};
ghost use Rattle.plan_runner.specs.Ran.{BegunBuffered, EndsByFill};
ghost use Rattle.plan_runner.specs.Buffers.{with_reading};
ghost use Rattle.plan_runner.specs.Runners.{RunsByPlan};
ghost use Rattle.plan_runner.specs.Cancelling.{LeavesCancelled};
ghost use Rattle.plan_runner.specs.Sound.{AreWithin, EndsWithin, KeepsRunningSound, StandsAt};
ghost use Rattle.plan_runner.specs.Pending.{PendsAfter, pends_idle};
ghost use Rattle.plan_runner.specs.Asking.{BeginsAsking};

use crate::buffer_seek::{after_first, rebuffer};
use crate::next::{Asked, Next, Running};
use crate::read_all_call::no_bytes;
use crate::replies::{refused, status_refusal};
use crate::site::{set_slot, slot_of, take_slot};
use sftp_model::numbers::SSH_FX_EOF;
use sftp_model::{Buffer, Error, Facts, FileAt, IoKind, Outcome, Reply, Site, Slot};
use sftp_values::ByteText;
use ssh_encoding::OutOfMemory;
use std::alloc::Global;

/// Returns the first `n` of these bytes. Fails only if an allocation fails.
fn first_of(alloc: Global, bytes: &[u8], n: u64) -> Result<ByteText, OutOfMemory>
    ensures { IfOk result (λ first. first ≡ take n bytes.now) }
{
    let len = bytes.len().min(n as usize);
    Ok(ByteText::new(Vec::from_slice(alloc, &bytes[..len])?))
}

/// Returns a buffered file with its offset after the first `n` of these bytes.
fn stands_after(file: &FileAt, bytes: &[u8], n: u64) -> FileAt
    requires { length bytes.now ≤ (2 ^ 64 - 1) - file.now.offset }
    ensures { result ≡ further file.now (length (take n bytes.now)) }
{
    let taken = bytes.len().min(n as usize);
    FileAt {
        offset: file.offset + taken as u64,
        ..*file
    }
}

/// Sets the read in flight of the buffered file in a slot, or removes it.
#[tactic(auto, using(crate::proofs::SlotSets::set_twice))]
fn set_reading(site: &mut Site, slot: u8, reading: Option<u64>)
    requires { slot < length site.old.slots }
    ensures { site.new ≡ with_reading site.old slot (slot_at site.old slot) reading }
{
    match take_slot(site, slot) {
        Slot::Buffered(file, buffer) => {
            let Buffer {
                len,
                bytes,
                deferred,
                ..
            } = buffer;
            let after = Buffer {
                len,
                bytes,
                deferred,
                reading,
            };
            set_slot(site, slot, Slot::Buffered(file, after));
        }
        Slot::File(file) => set_slot(site, slot, Slot::File(file)),
        Slot::Empty => set_slot(site, slot, Slot::Empty),
    }
}

/// Reads at most `n` bytes of the buffered file in a slot.
///
/// # Errors
///
/// `OutOfMemory` if an allocation fails; `site` is unchanged.
pub fn begin_buf_read(
    alloc: Global,
    slot: u8,
    n: u64,
    place: u64,
    site: &mut Site,
    facts: &Facts,
) -> Result<Next, OutOfMemory>
    requires slot { slot < length site.old.slots }
    requires within { AreWithin facts.now site.old }
    ensures { BegunBuffered (call.BufRead slot n) place site.old site.new facts.now result }
{
    let Slot::Buffered(file, buffer) = slot_of(site, slot) else {
        return Ok(Next::Done(Outcome::NoFile));
    };
    if !file.readable {
        return Ok(Next::Done(refused(IoKind::NotReadable)));
    }
    if n == 0 {
        return Ok(Next::Done(Outcome::Bytes(no_bytes(alloc))));
    }
    let bytes = buffer.bytes.as_slice();
    if bytes.is_empty() {
        return Ok(fill(slot, n, place, site, facts));
    }
    let (moved, reading) = (stands_after(file, bytes, n), buffer.reading);
    let first = first_of(alloc, bytes, n)?;
    let rest = after_first(alloc, bytes, n)?;
    rebuffer(site, slot, moved, rest, reading);
    Ok(Next::Done(Outcome::Bytes(first)))
}

/// Fills the buffer of the file in a slot: by the read in flight, or otherwise by one of the call's own.
fn fill(slot: u8, n: u64, place: u64, site: &mut Site, facts: &Facts) -> Next
    requires { slot < length site.old.slots }
    ensures goes { RunsByPlan (λ own answers. on_buffered (slot_at site.old slot) site.old (λ file buffer.
        fill_next slot n file buffer site.old facts.now buffer.reading own answers))
        place [] site.new facts.now result }
    ensures left { LeavesCancelled (cancelled_buf_read slot site.old facts.now)
        place [] site.new facts.now result }
    ensures sound { KeepsRunningSound [] facts.now site.old site.new result }
    ensures pends { PendsAfter (pends_idle site.old) place site.new result }
    ensures asks { BeginsAsking None place site.old site.new result }
{
    let Slot::Buffered(file, buffer) = slot_of(site, slot) else {
        return Next::Done(Outcome::NoFile);
    };
    let file = *file;
    let offset = file.offset;
    if buffer.reading.is_some() {
        return Next::Wait(Running::FillingBuffer {
            slot,
            n,
            offset,
            own: false,
        });
    }
    let len = n.max(buffer.len as u64).min(facts.read_len as u64) as u32;
    if !file.readable {
        return Next::Done(refused(IoKind::NotReadable));
    }
    if offset.checked_add(len as u64).is_none() {
        return Next::Done(refused(IoKind::OffsetOverflow));
    }
    set_reading(site, slot, Some(place));
    let asked = Asked::Read {
        grant: file.grant,
        offset,
        len,
    };
    Next::Ask(
        asked,
        Running::FillingBuffer {
            slot,
            n,
            offset,
            own: true,
        },
    )
}

/// Processes the reply to the READ that fills a buffer: the call returns the first `n` bytes of a DATA, and the others
/// stay in the buffer. Fails only if an allocation fails; `site` is unchanged.
pub(crate) fn filled_replied(
    alloc: Global,
    slot: u8,
    n: u64,
    offset: u64,
    reply: Reply,
    site: &mut Site,
) -> Result<Outcome, OutOfMemory>
    requires slot { slot < length site.old.slots }
    requires stands { StandsAt offset (slot_at site.old slot) }
    requires room { EndsWithin offset reply }
    ensures { EndsByFill (on_buffered (slot_at site.old slot) site.old (λ file buffer.
        was_filled slot n file buffer site.old reply)) slot site.old site.new result }
{
    let Slot::Buffered(file, _) = slot_of(site, slot) else {
        return Ok(Outcome::NoFile);
    };
    let file = *file;
    match reply {
        Reply::Content(content) => {
            let bytes = content.as_slice();
            let moved = stands_after(&file, bytes, n);
            let first = first_of(alloc, bytes, n)?;
            let rest = after_first(alloc, bytes, n)?;
            rebuffer(site, slot, moved, rest, None);
            Ok(Outcome::Bytes(first))
        }
        Reply::Status {
            code,
            message,
            language,
        } => {
            set_reading(site, slot, None);
            if code == SSH_FX_EOF {
                return Ok(Outcome::End);
            }
            Ok(status_refusal(code, message, language))
        }
        _ => {
            set_reading(site, slot, None);
            Ok(Outcome::Refused(Error::InvalidResponse { id: None }))
        }
    }
}
