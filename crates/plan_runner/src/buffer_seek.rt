//! `buf_seek`: a move forward keeps the buffered bytes from there on, any other keeps none.
ghost use Rattle.std.specs.Prelude.{◌≡◌, ◌<◌, ◌-◌, ℕ, [], length, drop, Ok, Err, IfOk, OnErr, nat_lt, if◌then◌else◌};
ghost use Rattle.sftp_model.specs.Slots.{slot_at};
ghost use Rattle.sftp_model.specs.declared.slot.Facts.{Facts as FactsValue};
ghost use Rattle.plan_model.specs.declared.call.Call.TheVariants as call;
ghost use Rattle.plan_runner.specs.declared.next.Next.TheVariants as step;
ghost use Rattle.plan_runner.specs.Runners.{BeginsByPlan};
ghost use Rattle.plan_runner.specs.Seeks.{with_buffer_at, sought_bytes};
ghost use Rattle.plan_runner.specs.Sound.{KeepsSite};
ghost use Rattle.plan_runner.specs.Pending.{AwaitsNoMore};

use crate::local_calls::sought;
use crate::read_all_call::no_bytes;
use crate::replies::refused;
use crate::site::{set_slot, slot_of, take_slot};
use sftp_model::{Buffer, FileAt, Outcome, Site, Slot};
use sftp_values::ByteText;
use ssh_encoding::OutOfMemory;
use std::alloc::Global;
use std::io::SeekFrom;

/// Returns these bytes without the first `n`. Fails only if an allocation fails.
pub(crate) fn after_first(alloc: Global, bytes: &[u8], n: u64) -> Result<ByteText, OutOfMemory>
    ensures { IfOk result (λ rest. rest ≡ drop n bytes.now) }
{
    if n >= bytes.len() as u64 {
        return Ok(no_bytes(alloc));
    }
    let rest = &bytes[n as usize..];
    Ok(ByteText::new(Vec::from_slice(alloc, rest)?))
}

/// Returns the buffered bytes from a new offset on, if it lies ahead. Fails only if an allocation fails.
fn sought_bytes(alloc: Global, from: u64, to: u64, bytes: &[u8]) -> Result<ByteText, OutOfMemory>
    ensures { IfOk result (λ rest. rest ≡ sought_bytes from to bytes.now) }
{
    if from < to {
        return after_first(alloc, bytes, to - from);
    }
    Ok(no_bytes(alloc))
}

/// Replaces the buffered file in a slot, with these bytes and this read in flight.
#[tactic(auto, using(crate::proofs::SlotSets::set_twice))]
pub(crate) fn rebuffer(
    site: &mut Site,
    slot: u8,
    file: FileAt,
    bytes: ByteText,
    reading: Option<u64>,
)
    requires { slot < length site.old.slots }
    ensures { site.new ≡ with_buffer_at slot site.old (slot_at site.old slot) file bytes reading }
{
    match take_slot(site, slot) {
        Slot::Buffered(_, buffer) => {
            let Buffer { len, deferred, .. } = buffer;
            let after = Buffer {
                len,
                bytes,
                deferred,
                reading,
            };
            set_slot(site, slot, Slot::Buffered(file, after));
        }
        Slot::File(file) => set_slot(site, slot, Slot::File(file)),
        Slot::Empty => set_slot(site, slot, Slot::Empty),
    }
}

/// Sets the offset of the buffered file in a slot. The read in flight is abandoned if the offset changes.
///
/// # Errors
///
/// `OutOfMemory` if an allocation fails; `site` is unchanged.
#[tactic(auto, using(crate::proofs::SlotSets::set_same))]
pub fn begin_buf_seek(
    alloc: Global,
    slot: u8,
    position: SeekFrom,
    site: &mut Site,
) -> Result<Outcome, OutOfMemory>
    requires { slot < length site.old.slots }
    ensures goes { (place : ℕ) (facts : FactsValue) → IfOk result (λ o.
        BeginsByPlan (call.BufSeek slot position) place site.old site.new facts (step.Done o)) }
    ensures unchanged { OnErr result (site.new ≡ site.old) }
    ensures sound { (facts : FactsValue) → KeepsSite facts site.old site.new }
    ensures pends { AwaitsNoMore site.old site.new }
{
    let Slot::Buffered(file, buffer) = slot_of(site, slot) else {
        return Ok(Outcome::NoFile);
    };
    let file = *file;
    let to = match sought(file.offset, position) {
        Ok(to) => to,
        Err(why) => return Ok(refused(why)),
    };
    if to == file.offset {
        return Ok(Outcome::Count(to));
    }
    let bytes = sought_bytes(alloc, file.offset, to, buffer.bytes.as_slice())?;
    rebuffer(site, slot, FileAt { offset: to, ..file }, bytes, None);
    Ok(Outcome::Count(to))
}
