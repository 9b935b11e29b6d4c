//! `buf_write` and `buf_write_all`: WRITEs whose statuses are left for later, within the limit of pending bytes.
ghost use Rattle.std.specs.Prelude.{◌≡◌, ◌<◌, ◌≤◌, ◌-◌, ◌^◌, [], Some, None, length, drop, min, IfOk};
ghost use Rattle.sftp_model.specs.Slots.{slot_at};
ghost use Rattle.plan_model.specs.declared.call.Call.TheVariants as call;
ghost use Rattle.plan_model.specs.Moves.{on_buffered};
ghost use Rattle.plan_model.specs.BufferPlans.{after_write, buf_write_all_next, pending_bytes, with_capacity};
ghost use Rattle.plan_runner.specs.Ran.{BegunBuffered, ContinuesByPlan, DefersWrite};
ghost use Rattle.plan_runner.specs.declared.next.Running.TheVariants as running;
ghost use Rattle.plan_runner.specs.Buffers.{running_after, must_wait, rest_of, sent_next};
ghost use Rattle.plan_runner.specs.Deferrals.{IsDeferral, settled_next, settled_site};
ghost use Rattle.plan_runner.specs.Runners.{after};
ghost use Rattle.plan_runner.specs.Sound.{AreWithin, HasDone, IsFullAt};

use crate::buffer_flush::take_oldest;
use crate::buffer_seek::after_first;
use crate::next::{Asked, Next, Running};
use crate::replies::{failure, refused};
use crate::site::{set_slot, slot_of};
use crate::turn::Turn;
use crate::write_call::content_of;
use sftp_model::{Buffer, Facts, FileAt, IoKind, Outcome, Reply, Site, Slot};
use sftp_values::Items;
use ssh_encoding::OutOfMemory;
use std::alloc::Global;

/// A WRITE that is to be deferred, before the slot is changed; or the reason why none is asked.
///
/// Used in `begin_buf_write`.
#[derive(Debug, Drop)]
pub enum Deferral {
    /// The call is wrong by itself.
    Refused(Outcome),
    /// The request, the state in which the call continues, and the contents of the slot after it.
    Asked {
        asked: Asked,
        running: Running,
        held: Slot,
    },
}

/// The bytes that a call still writes to the buffered file in a slot: all, or those from `done` on.
///
/// Used in `send`.
#[derive(Clone, Copy)]
pub(crate) struct Unwritten {
    pub(crate) slot: u8,
    pub(crate) done: Option<usize>,
}

/// Returns the number of bytes of these deferred writes.
fn pending_len(writes: &[(u64, u32)]) -> u64
    requires { pending_bytes writes.now < 2 ^ 64 }
    ensures { result ≡ pending_bytes writes.now }
{
    let mut sum = 0;
    let mut rest = writes;
    loop {
        match rest {
            [] => return sum,
            [write, later @ ..] => {
                sum += write.1 as u64;
                rest = later;
            }
        }
    }
}

/// Returns true if the oldest of these writes must be taken out before the next.
fn must_wait(writes: &[(u64, u32)], facts: &Facts) -> bool
    requires { pending_bytes writes.now ≤ facts.now.write_limit }
    ensures { result ≡ must_wait facts.now.write_limit writes.now }
{
    let limit = facts.write_limit;
    match writes {
        [] => false,
        _ => pending_len(writes) == limit,
    }
}

/// Returns how many of these bytes one WRITE takes beside these deferred writes.
fn deferrable_len(bytes: &[u8], writes: &[(u64, u32)], facts: &Facts) -> u32
    requires { pending_bytes writes.now ≤ facts.now.write_limit }
    ensures { result ≡ min (length bytes.now)
        (min facts.now.write_len (facts.now.write_limit - pending_bytes writes.now)) }
{
    let room = facts.write_limit - pending_len(writes);
    (bytes.len() as u64).min((facts.write_len as u64).min(room)) as u32
}

/// Returns the buffer after a WRITE of this many bytes, asked at this place beside these deferred writes. Fails only if
/// an allocation fails.
fn after_write(
    alloc: Global,
    buffer: &Buffer,
    writes: &[(u64, u32)],
    place: u64,
    len: u32,
) -> Result<Buffer, OutOfMemory>
    ensures { IfOk result (λ b. b
        ≡ after_write (record buffer.now { deferred = writes.now }) place len) }
{
    let mut deferred = Vec::from_slice(alloc, writes)?;
    deferred.push((place, len))?;
    let bytes = after_first(alloc, buffer.bytes.as_slice(), len as u64)?;
    Ok(Buffer {
        len: buffer.len,
        bytes,
        deferred: Items::new(deferred),
        reading: None,
    })
}

/// Returns the bytes that are left: all, or those from `done` on.
fn rest_of(done: Option<usize>, bytes: &[u8]) -> &[u8]
    requires { HasDone done bytes.now }
    ensures { result.now ≡ rest_of done bytes.now }
{
    match done {
        None => bytes,
        Some(done) => &bytes[done..],
    }
}

/// Returns the state of a call after a WRITE of this many bytes.
fn running_after(slot: u8, done: Option<usize>, len: u32, bytes: &[u8]) -> Running
    requires done { HasDone done bytes.now }
    requires len { len ≤ length (rest_of done bytes.now) }
    ensures { result ≡ running_after slot done len }
{
    match done {
        None => Running::Deferred { slot, count: len },
        Some(done) => Running::DeferringRest {
            slot,
            done: done + len as usize,
        },
    }
}

/// Returns the WRITE of the bytes that are left, beside these deferred writes. Fails only if an allocation fails.
fn next_deferral(
    turn: Turn,
    unwritten: Unwritten,
    file: &FileAt,
    buffer: &Buffer,
    writes: &[(u64, u32)],
    bytes: &[u8],
) -> Result<Deferral, OutOfMemory>
    requires done { HasDone unwritten.done bytes.now }
    requires limit { pending_bytes writes.now ≤ turn.facts.write_limit }
    ensures { IfOk result (IsDeferral unwritten.slot unwritten.done file.now
        (record buffer.now { deferred = writes.now }) bytes.now turn.place turn.facts) }
{
    let rest = rest_of(unwritten.done, bytes);
    let len = deferrable_len(rest, writes, &turn.facts);
    if !file.writable {
        return Ok(Deferral::Refused(refused(IoKind::NotWritable)));
    }
    if file.offset.checked_add(len as u64).is_none() {
        return Ok(Deferral::Refused(refused(IoKind::OffsetOverflow)));
    }
    let after = after_write(turn.alloc, buffer, writes, turn.place, len)?;
    let moved = FileAt {
        offset: file.offset + len as u64,
        ..*file
    };
    let asked = Asked::Write {
        grant: file.grant,
        offset: file.offset,
        content: content_of(turn.alloc, &rest[..len as usize])?,
    };
    Ok(Deferral::Asked {
        asked,
        running: running_after(unwritten.slot, unwritten.done, len, bytes),
        held: Slot::Buffered(moved, after),
    })
}

/// Asks a WRITE that is to be deferred, and puts it into its slot.
fn settle(slot: u8, deferral: Deferral, site: &mut Site) -> Next
    requires { slot < length site.old.slots }
    ensures next { result ≡ settled_next deferral }
    ensures site { site.new ≡ settled_site slot deferral site.old }
{
    match deferral {
        Deferral::Refused(outcome) => Next::Done(outcome),
        Deferral::Asked {
            asked,
            running,
            held,
        } => {
            set_slot(site, slot, held);
            Next::Ask(asked, running)
        }
    }
}

/// Writes the bytes that are left to the buffered file in a slot, or awaits the oldest status if the window is full.
/// Fails only if an allocation fails; `site` is unchanged.
fn send(
    turn: Turn,
    unwritten: Unwritten,
    bytes: &[u8],
    site: &mut Site,
) -> Result<Next, OutOfMemory>
    requires slot { unwritten.slot < length site.old.slots }
    requires done { HasDone unwritten.done bytes.now }
    requires within { AreWithin turn.facts site.old }
    ensures { DefersWrite (λ own answers. on_buffered (slot_at site.old unwritten.slot) site.old (λ file buffer.
        with_capacity unwritten.slot file buffer site.old turn.facts answers
        (sent_next unwritten.slot unwritten.done file bytes.now turn.facts own answers)))
        unwritten.slot bytes.now turn.place site.old site.new turn.facts result }
{
    let Slot::Buffered(file, buffer) = slot_of(site, unwritten.slot) else {
        return Ok(Next::Done(Outcome::NoFile));
    };
    let writes = buffer.deferred.as_slice();
    if must_wait(writes, &turn.facts) {
        return Ok(Next::Wait(Running::AwaitingRoom {
            slot: unwritten.slot,
            done: unwritten.done,
        }));
    }
    let deferral = next_deferral(turn, unwritten, file, buffer, writes, bytes)?;
    Ok(settle(unwritten.slot, deferral, site))
}

/// Writes the first of these bytes to the buffered file in a slot.
///
/// # Errors
///
/// `OutOfMemory` if an allocation fails; `site` is unchanged.
pub fn begin_buf_write(
    alloc: Global,
    slot: u8,
    bytes: &[u8],
    place: u64,
    site: &mut Site,
    facts: &Facts,
) -> Result<Next, OutOfMemory>
    requires slot { slot < length site.old.slots }
    requires within { AreWithin facts.now site.old }
    ensures { BegunBuffered (call.BufWrite slot bytes.now) place site.old site.new facts.now result }
{
    let Slot::Buffered(file, _) = slot_of(site, slot) else {
        return Ok(Next::Done(Outcome::NoFile));
    };
    if !file.writable {
        return Ok(Next::Done(refused(IoKind::NotWritable)));
    }
    if bytes.is_empty() {
        return Ok(Next::Done(Outcome::Count(0)));
    }
    let turn = Turn {
        alloc,
        place,
        facts: *facts,
    };
    send(turn, Unwritten { slot, done: None }, bytes, site)
}

/// Writes the bytes from `done` on to the buffered file in a slot, one WRITE after another. Fails only if an allocation
/// fails; `site` is unchanged.
pub(crate) fn defer_rest(
    turn: Turn,
    slot: u8,
    done: usize,
    bytes: &[u8],
    site: &mut Site,
) -> Result<Next, OutOfMemory>
    requires slot { slot < length site.old.slots }
    requires done { done ≤ length bytes.now }
    requires within { AreWithin turn.facts site.old }
    ensures { DefersWrite (buf_write_all_next slot (drop done bytes.now) site.old turn.facts)
        slot bytes.now turn.place site.old site.new turn.facts result }
{
    let Slot::Buffered(file, _) = slot_of(site, slot) else {
        return Ok(Next::Done(Outcome::NoFile));
    };
    if bytes[done..].is_empty() {
        return Ok(Next::Done(Outcome::Done));
    }
    if !file.writable {
        return Ok(Next::Done(refused(IoKind::NotWritable)));
    }
    let unwritten = Unwritten {
        slot,
        done: Some(done),
    };
    send(turn, unwritten, bytes, site)
}

/// Writes all of these bytes to the buffered file in a slot.
///
/// # Errors
///
/// `OutOfMemory` if an allocation fails; `site` is unchanged.
pub fn begin_buf_write_all(
    alloc: Global,
    slot: u8,
    bytes: &[u8],
    place: u64,
    site: &mut Site,
    facts: &Facts,
) -> Result<Next, OutOfMemory>
    requires slot { slot < length site.old.slots }
    requires within { AreWithin facts.now site.old }
    ensures { BegunBuffered (call.BufWriteAll slot bytes.now) place site.old site.new facts.now result }
{
    let turn = Turn {
        alloc,
        place,
        facts: *facts,
    };
    defer_rest(turn, slot, 0, bytes, site)
}

/// Processes the reply to the oldest deferred write at a full window: after a STATUS of OK the next WRITE is asked.
/// Fails only if an allocation fails; `site` is unchanged.
pub(crate) fn room_replied(
    turn: Turn,
    unwritten: Unwritten,
    reply: Reply,
    bytes: &[u8],
    site: &mut Site,
) -> Result<Next, OutOfMemory>
    requires slot { unwritten.slot < length site.old.slots }
    requires full { IsFullAt turn.facts (slot_at site.old unwritten.slot) }
    requires done { HasDone unwritten.done bytes.now }
    requires within { AreWithin turn.facts site.old }
    ensures { ContinuesByPlan (running.AwaitingRoom unwritten.slot unwritten.done) (Some reply)
        bytes.now turn.place site.old site.new turn.facts result }
{
    let Slot::Buffered(file, buffer) = slot_of(site, unwritten.slot) else {
        return Ok(Next::Done(Outcome::NoFile));
    };
    let [_, writes @ ..] = buffer.deferred.as_slice() else {
        return Ok(Next::Done(Outcome::NoFile));
    };
    if let Some(outcome) = failure(reply) {
        take_oldest(unwritten.slot, site);
        return Ok(Next::Done(outcome));
    }
    let deferral = next_deferral(turn, unwritten, file, buffer, writes, bytes)?;
    take_oldest(unwritten.slot, site);
    Ok(settle(unwritten.slot, deferral, site))
}
