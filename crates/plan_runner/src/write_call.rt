//! `write`, `write_all` and `write_parts`: each WRITE after the STATUS of OK to the one before.
ghost use Rattle.std.specs.Prelude.{◌≡◌, ◌<◌, ◌≤◌, length, drop, List, ℕ, Option, Some, IfOk};
ghost use Rattle.sftp_model.specs.declared.slot.Move.TheVariants.{Done};
ghost use Rattle.sftp_model.specs.declared.slot.Site.{Site as SiteValue};
ghost use Rattle.plan_model.specs.declared.call.Call.TheVariants as call;
ghost use Rattle.plan_model.specs.TransferPlans.{joined_parts, part_len, rest_next, was_written};
ghost use Rattle.plan_runner.specs.declared.next.Running.TheVariants as running;
ghost use Rattle.plan_runner.specs.Begun.{StartsAsPlanned};
ghost use Rattle.plan_runner.specs.Runners.{RunsByPlan, after, keep_in};
ghost use Rattle.plan_runner.specs.Cancelling.{LeavesCancelled, left_kept};
ghost use Rattle.plan_runner.specs.Sound.{CanMove, HasSlot, IsKept, KeepsRunningSound};
ghost use Rattle.plan_runner.specs.Pending.{AwaitsNoMore, PendsAfter, pends_after, pends_idle};
ghost use Rattle.plan_runner.specs.Asking.{opened_after};
ghost use Rattle.plan_runner.specs.Ran.{AsksRest, EndsByReply, ContinuesTransfer};

use crate::next::{Asked, Next, Running};
use crate::replies::{failure, refused};
use crate::site::{set_slot, slot_of};
use crate::turn::Turn;
use bytes::Bytes;
use sftp_model::{Content, Facts, FileAt, IoKind, Outcome, Reply, Site, Slot};
use ssh_encoding::OutOfMemory;
use std::alloc::Global;

/// The WRITE of a part in flight: its place, which contracts alone read, the file, which is in a slot or in none, and
/// the number of bytes that are done.
///
/// Used in `part_replied`.
#[derive(Clone, Copy)]
pub(crate) struct Part {
    pub(crate) awaited: u64,
    pub(crate) slot: Option<u8>,
    pub(crate) file: FileAt,
    pub(crate) done: usize,
}

/// Returns these bytes as a content. Fails only if an allocation fails.
pub(crate) fn content_of(alloc: Global, bytes: &[u8]) -> Result<Content, OutOfMemory>
    ensures { IfOk result (λ c. c ≡ bytes.now) }
{
    let mut content = Content::new(alloc);
    content.push(Bytes::copy_from_slice(alloc, bytes)?)?;
    Ok(content)
}

/// Writes the first of these bytes to the file in a slot.
///
/// # Errors
///
/// `OutOfMemory` if an allocation fails.
pub fn begin_write(
    alloc: Global,
    slot: u8,
    bytes: &[u8],
    place: u64,
    site: &Site,
    facts: &Facts,
) -> Result<Next, OutOfMemory>
    requires { slot < length site.now.slots }
    ensures { IfOk result (StartsAsPlanned (call.Write slot bytes.now) place site.now site.now facts.now) }
{
    let Slot::File(file) = slot_of(site, slot) else {
        return Ok(Next::Done(Outcome::NoFile));
    };
    let file = *file;
    if bytes.is_empty() {
        return Ok(Next::Done(Outcome::Count(0)));
    }
    let len = bytes.len().min(facts.write_len as usize);
    if !file.writable {
        return Ok(Next::Done(refused(IoKind::NotWritable)));
    }
    if file.offset.checked_add(len as u64).is_none() {
        return Ok(Next::Done(refused(IoKind::OffsetOverflow)));
    }
    let asked = Asked::Write {
        grant: file.grant,
        offset: file.offset,
        content: content_of(alloc, &bytes[..len])?,
    };
    let len = len as u32;
    Ok(Next::Ask(
        asked,
        Running::Sending {
            place,
            slot,
            file,
            len,
        },
    ))
}

/// Processes the reply to the WRITE of one `write`: after a STATUS of OK the file's offset is after its bytes.
#[tactic(auto, using(crate::proofs::Fewer::fewer_file))]
pub(crate) fn write_replied(
    slot: u8,
    file: FileAt,
    len: u32,
    reply: Reply,
    site: &mut Site,
) -> Outcome
    requires within { slot < length site.old.slots }
    requires room { CanMove file len }
    ensures { EndsByReply (was_written slot file len site.old reply) result site.old site.new }
{
    if let Some(outcome) = failure(reply) {
        return outcome;
    }
    let moved = FileAt {
        offset: file.offset + len as u64,
        ..file
    };
    set_slot(site, slot, Slot::File(moved));
    Outcome::Count(len as u64)
}

/// Writes the bytes from `done` on to a file, which is in a slot or in none; the site may be any.
///
/// # Errors
///
/// `OutOfMemory` if an allocation fails.
pub fn write_rest(
    turn: Turn,
    slot: Option<u8>,
    file: FileAt,
    done: usize,
    bytes: &[u8],
) -> Result<Next, OutOfMemory>
    requires { done ≤ length bytes.now }
    ensures goes { (site : SiteValue)
        → IfOk result (RunsByPlan (rest_next (keep_in slot) file (drop done bytes.now) site turn.facts) turn.place bytes.now site turn.facts) }
    ensures left { (site : SiteValue) → IsKept slot file site
        → IfOk result (LeavesCancelled (left_kept slot site turn.facts) turn.place bytes.now site turn.facts) }
    ensures sound { (site : SiteValue) → IsKept slot file site
        → IfOk result (KeepsRunningSound bytes.now turn.facts site site) }
    ensures pends { (site : SiteValue) → IfOk result (PendsAfter (pends_idle site) turn.place site) }
    ensures asks { AsksRest slot file turn.place result }
{
    let rest = &bytes[done..];
    if rest.is_empty() {
        return Ok(Next::Done(Outcome::Done));
    }
    let len = rest.len().min(turn.facts.write_len as usize);
    if !file.writable {
        return Ok(Next::Done(refused(IoKind::NotWritable)));
    }
    if file.offset.checked_add(len as u64).is_none() {
        return Ok(Next::Done(refused(IoKind::OffsetOverflow)));
    }
    let asked = Asked::Write {
        grant: file.grant,
        offset: file.offset,
        content: content_of(turn.alloc, &rest[..len])?,
    };
    Ok(Next::Ask(
        asked,
        Running::Writing {
            place: turn.place,
            slot,
            file,
            done,
        },
    ))
}

/// Writes all of these bytes to the file in a slot.
///
/// # Errors
///
/// `OutOfMemory` if an allocation fails.
pub fn begin_write_all(
    alloc: Global,
    slot: u8,
    bytes: &[u8],
    place: u64,
    site: &Site,
    facts: &Facts,
) -> Result<Next, OutOfMemory>
    requires { slot < length site.now.slots }
    ensures { IfOk result (StartsAsPlanned (call.WriteAll slot bytes.now) place site.now site.now facts.now) }
{
    let Slot::File(file) = slot_of(site, slot) else {
        return Ok(Next::Done(Outcome::NoFile));
    };
    let turn = Turn {
        alloc,
        place,
        facts: *facts,
    };
    write_rest(turn, Some(slot), *file, 0, bytes)
}

/// Writes the bytes of all parts, which are passed in joined, to the file in a slot.
///
/// # Errors
///
/// `OutOfMemory` if an allocation fails.
pub fn begin_write_parts(
    alloc: Global,
    slot: u8,
    bytes: &[u8],
    place: u64,
    site: &Site,
    facts: &Facts,
) -> Result<Next, OutOfMemory>
    requires { slot < length site.now.slots }
    ensures { (parts : List (List ℕ)) → joined_parts parts ≡ bytes.now
        → IfOk result (StartsAsPlanned (call.WriteParts slot parts) place site.now site.now facts.now) }
{
    begin_write_all(alloc, slot, bytes, place, site, facts)
}

/// Sets the file in its slot, if it has one.
fn keep(site: &mut Site, slot: Option<u8>, file: FileAt)
    requires { HasSlot slot site.old }
    ensures { site.new ≡ keep_in slot file site.old }
{
    if let Some(slot) = slot {
        set_slot(site, slot, Slot::File(file));
    }
}

/// Processes the reply to the WRITE of a part: after a STATUS of OK the file's offset is after the part, and the rest
/// is written. Fails only if an allocation fails; `site` is unchanged.
pub(crate) fn part_replied(
    turn: Turn,
    part: Part,
    reply: Reply,
    bytes: &[u8],
    site: &mut Site,
) -> Result<Next, OutOfMemory>
    requires kept { IsKept part.slot part.file site.old }
    requires prefix { part.done ≤ length bytes.now }
    requires room { CanMove part.file (part_len turn.facts (drop part.done bytes.now)) }
    ensures { ContinuesTransfer
        (after (running.Writing part.awaited part.slot part.file part.done) bytes.now site.old turn.facts (Some reply))
        part.slot (opened_after (running.Writing part.awaited part.slot part.file part.done) (Some reply))
        (pends_after (running.Writing part.awaited part.slot part.file part.done) site.old (Some reply))
        bytes.now turn.place site.old site.new turn.facts result }
{
    if let Some(outcome) = failure(reply) {
        return Ok(Next::Done(outcome));
    }
    let len = (bytes.len() - part.done).min(turn.facts.write_len as usize);
    let moved = FileAt {
        offset: part.file.offset + len as u64,
        ..part.file
    };
    let next = write_rest(turn, part.slot, moved, part.done + len, bytes)?;
    keep(site, part.slot, moved);
    Ok(next)
}
