//! `buf_flush`: the deferred statuses, the oldest first, up to the first refusal.
ghost use Rattle.std.specs.Prelude.{◌≡◌, ◌<◌, length, List, ℕ, [], Some, None};
ghost use Rattle.sftp_model.specs.Slots.{slot_at};
ghost use Rattle.sftp_model.specs.declared.slot.Facts.{Facts as FactsValue};
ghost use Rattle.plan_model.specs.declared.call.Call.TheVariants as call;
ghost use Rattle.plan_runner.specs.declared.next.Running.TheVariants as running;
ghost use Rattle.plan_runner.specs.Runners.{BeginsByPlan, RunsByPlan, after};
ghost use Rattle.plan_runner.specs.Buffers.{but_oldest, flush_oldest, without_oldest};
ghost use Rattle.plan_runner.specs.Cancelling.{BeginsLeaving, LeavesCancelled, left_after};
ghost use Rattle.plan_runner.specs.Sound.{KeepsSite, KeepsRunningSound};
ghost use Rattle.plan_runner.specs.Pending.{AwaitsNoMore, PendsAfter, pends_after, pends_idle};
ghost use Rattle.plan_runner.specs.Asking.{BeginsAsking, GoesOnAsking};

use crate::next::{Next, Running};
use crate::replies::{failure, refused};
use crate::site::{set_slot, slot_of, take_slot};
use sftp_model::{Buffer, Facts, IoKind, Outcome, Reply, Site, Slot};
use sftp_values::Items;

/// Flushes the buffered file in a slot: awaits the status of each deferred write.
pub fn begin_buf_flush(slot: u8, place: u64, site: &Site, facts: &Facts) -> Next
    requires { slot < length site.now.slots }
    ensures goes { BeginsByPlan (call.BufFlush slot) place site.now site.now facts.now result }
    ensures left { BeginsLeaving (call.BufFlush slot) place site.now site.now facts.now result }
    ensures sound { KeepsRunningSound [] facts.now site.now site.now result }
    ensures pends { PendsAfter (pends_idle site.now) place site.now result }
    ensures asks { BeginsAsking None place site.now site.now result }
{
    let Slot::Buffered(file, buffer) = slot_of(site, slot) else {
        return Next::Done(Outcome::NoFile);
    };
    if !file.writable {
        return Next::Done(refused(IoKind::NotWritable));
    }
    flush_on(slot, buffer.deferred.as_slice())
}

/// Awaits the oldest of these writes.
fn flush_on(slot: u8, writes: &[(u64, u32)]) -> Next
    ensures { result ≡ flush_oldest slot writes.now }
{
    if writes.is_empty() {
        return Next::Done(Outcome::Done);
    }
    Next::Wait(Running::Flushing { slot })
}

/// Returns these writes without the oldest.
fn but_oldest(writes: Items<(u64, u32)>) -> Items<(u64, u32)>
    ensures { result ≡ but_oldest writes }
{
    let mut left = writes.into_vec();
    if left.is_empty() {
        return Items::new(left);
    }
    left.remove(0);
    Items::new(left)
}

/// Takes the oldest deferred write out of a slot.
#[tactic(auto, using(crate::proofs::SlotSets::set_twice))]
pub fn take_oldest(slot: u8, site: &mut Site)
    requires { slot < length site.old.slots }
    ensures after { site.new ≡ without_oldest site.old slot (slot_at site.old slot) }
    ensures fewer { AwaitsNoMore site.old site.new }
    ensures keeps { (facts : FactsValue) → KeepsSite facts site.old site.new }
{
    match take_slot(site, slot) {
        Slot::Buffered(file, buffer) => {
            let Buffer {
                len,
                bytes,
                deferred,
                reading,
            } = buffer;
            let after = Buffer {
                len,
                bytes,
                deferred: but_oldest(deferred),
                reading,
            };
            set_slot(site, slot, Slot::Buffered(file, after));
        }
        Slot::File(file) => set_slot(site, slot, Slot::File(file)),
        Slot::Empty => set_slot(site, slot, Slot::Empty),
    }
}

/// Processes the reply to the oldest deferred write of a flush, which continues after a STATUS of OK.
pub(crate) fn flush_replied(
    slot: u8,
    reply: Reply,
    place: u64,
    site: &mut Site,
    facts: &Facts,
) -> Next
    requires { slot < length site.old.slots }
    ensures goes { (bytes : List ℕ)
        → RunsByPlan (after (running.Flushing slot) bytes site.old facts.now (Some reply))
        place bytes site.new facts.now result }
    ensures left { (bytes : List ℕ)
        → LeavesCancelled (left_after (running.Flushing slot) bytes site.old facts.now (Some reply))
        place bytes site.new facts.now result }
    ensures sound { (bytes : List ℕ) → KeepsRunningSound bytes facts.now site.old site.new result }
    ensures pends { PendsAfter (pends_after (running.Flushing slot) site.old (Some reply))
        place site.new result }
    ensures asks { GoesOnAsking None place [] site.old site.new result }
{
    let Slot::Buffered(_, buffer) = slot_of(site, slot) else {
        return Next::Done(Outcome::NoFile);
    };
    if buffer.deferred.as_slice().is_empty() {
        return Next::Done(Outcome::Done);
    }
    take_oldest(slot, site);
    if let Some(outcome) = failure(reply) {
        return Next::Done(outcome);
    }
    let Slot::Buffered(_, left) = slot_of(site, slot) else {
        return Next::Done(Outcome::NoFile);
    };
    flush_on(slot, left.deferred.as_slice())
}
