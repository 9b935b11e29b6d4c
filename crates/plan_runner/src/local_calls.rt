//! Calls that make no request: they end at once.
ghost use Rattle.std.specs.Prelude.{◌≡◌, ◌<◌, ℕ, List, [], length, Ok, Err, IfOk, OnErr};
ghost use Rattle.sftp_model.specs.declared.slot.Facts.{Facts as FactsValue};
ghost use Rattle.sftp_model.specs.declared.slot.Move.{Move};
ghost use Rattle.sftp_model.specs.declared.slot.Site.{Site as SiteValue};
ghost use Rattle.plan_model.specs.declared.call.Call.TheVariants as call;
ghost use Rattle.plan_model.specs.FilePlans.{on_seek};
ghost use Rattle.std.specs.declared.io.traits.SeekFrom.TheVariants as position;
ghost use Rattle.plan_runner.specs.declared.next.Next.TheVariants as step;
ghost use Rattle.plan_runner.specs.Runners.{BeginsByPlan, by_seek};
ghost use Rattle.plan_runner.specs.Sound.{KeepsSite};
ghost use Rattle.plan_runner.specs.Pending.{AwaitsNoMore};

use crate::replies::refused;
use crate::site::{set_slot, slot_of};
use sftp_model::{Buffer, FileAt, IoKind, Outcome, RemotePath, Site, Slot};
use sftp_values::{ByteText, Items};
use ssh_encoding::OutOfMemory;
use std::alloc::Global;
use std::io::SeekFrom;

/// Returns the offset at this distance from another.
fn moved_by(offset: u64, by: i64) -> Result<u64, IoKind>
    ensures { (site : SiteValue) (go : ℕ → Move)
        → on_seek (position.Current by) offset site go ≡ by_seek result site go }
{
    let distance = by.unsigned_abs();
    if by < 0 {
        return offset.checked_sub(distance).ok_or(IoKind::SeekUnderflow);
    }
    offset.checked_add(distance).ok_or(IoKind::SeekOverflow)
}

/// Returns the offset that a seek from another leads to.
///
/// # Errors
///
/// The `IoKind` of a seek that is refused.
pub fn sought(offset: u64, position: SeekFrom) -> Result<u64, IoKind>
    ensures { (site : SiteValue) (go : ℕ → Move)
        → on_seek position offset site go ≡ by_seek result site go }
{
    match position {
        SeekFrom::Start(n) => Ok(n),
        SeekFrom::End(_) => Err(IoKind::SeekFromEnd),
        SeekFrom::Current(by) => moved_by(offset, by),
    }
}

/// Sets the offset of the file in a slot.
#[tactic(auto, using(crate::proofs::Fewer::fewer_file))]
pub fn begin_seek(slot: u8, position: SeekFrom, site: &mut Site) -> Outcome
    requires { slot < length site.old.slots }
    ensures goes { (place : ℕ) (facts : FactsValue)
        → BeginsByPlan (call.Seek slot position) place site.old site.new facts (step.Done result) }
    ensures sound { (facts : FactsValue) → KeepsSite facts site.old site.new }
    ensures pends { AwaitsNoMore site.old site.new }
{
    let Slot::File(file) = slot_of(site, slot) else {
        return Outcome::NoFile;
    };
    let file = *file;
    let offset = match sought(file.offset, position) {
        Ok(offset) => offset,
        Err(why) => return refused(why),
    };
    set_slot(site, slot, Slot::File(FileAt { offset, ..file }));
    Outcome::Count(offset)
}

/// Puts the file in one slot into another as well; the old contents of that slot are released.
#[tactic(auto, using(crate::proofs::Fewer::fewer_file))]
pub fn begin_clone(from: u8, to: u8, site: &mut Site) -> Outcome
    requires source { from < length site.old.slots }
    requires target { to < length site.old.slots }
    ensures goes { (place : ℕ) (facts : FactsValue)
        → BeginsByPlan (call.CloneFile from to) place site.old site.new facts (step.Done result) }
    ensures sound { (facts : FactsValue) → KeepsSite facts site.old site.new }
    ensures pends { AwaitsNoMore site.old site.new }
{
    if from == to {
        return Outcome::NoFile;
    }
    let Slot::File(file) = slot_of(site, from) else {
        return Outcome::NoFile;
    };
    let file = *file;
    set_slot(site, to, Slot::File(file));
    Outcome::Done
}

/// Gives the file in a slot an empty buffer, which a read fills with `len` bytes.
#[tactic(auto, using(crate::proofs::Fewer::fewer_bare))]
pub fn begin_buffer(alloc: Global, slot: u8, len: u32, site: &mut Site) -> Outcome
    requires { slot < length site.old.slots }
    ensures goes { (place : ℕ) (facts : FactsValue)
        → BeginsByPlan (call.Buffer slot len) place site.old site.new facts (step.Done result) }
    ensures sound { (facts : FactsValue) → KeepsSite facts site.old site.new }
    ensures pends { AwaitsNoMore site.old site.new }
{
    let Slot::File(file) = slot_of(site, slot) else {
        return Outcome::NoFile;
    };
    let file = *file;
    let buffer = Buffer {
        len,
        bytes: ByteText::new(Vec::new(alloc)),
        deferred: Items::new(Vec::new(alloc)),
        reading: None,
    };
    set_slot(site, slot, Slot::Buffered(file, buffer));
    Outcome::Done
}

/// Removes the buffer from the file in a slot: its bytes and the replies that it awaits are dropped.
#[tactic(auto, using(crate::proofs::Fewer::fewer_file))]
pub fn begin_unbuffer(slot: u8, site: &mut Site) -> Outcome
    requires { slot < length site.old.slots }
    ensures goes { (place : ℕ) (facts : FactsValue)
        → BeginsByPlan (call.Unbuffer slot) place site.old site.new facts (step.Done result) }
    ensures sound { (facts : FactsValue) → KeepsSite facts site.old site.new }
    ensures pends { AwaitsNoMore site.old site.new }
{
    let Slot::Buffered(file, _) = slot_of(site, slot) else {
        return Outcome::NoFile;
    };
    let file = *file;
    set_slot(site, slot, Slot::File(file));
    Outcome::Done
}

/// Sets the working directory, to the path as it is.
///
/// # Errors
///
/// `OutOfMemory` if an allocation fails; `site` is unchanged.
pub fn begin_cwd(alloc: Global, path: &[u8], site: &mut Site) -> Result<Outcome, OutOfMemory>
    ensures goes { (place : ℕ) (facts : FactsValue) → IfOk result (λ o.
        BeginsByPlan (call.Cwd path.now) place site.old site.new facts (step.Done o)) }
    ensures unchanged { OnErr result (site.new ≡ site.old) }
    ensures sound { (facts : FactsValue) → KeepsSite facts site.old site.new }
    ensures pends { AwaitsNoMore site.old site.new }
{
    site.directory = RemotePath::new(Vec::from_slice(alloc, path)?);
    Ok(Outcome::Done)
}
