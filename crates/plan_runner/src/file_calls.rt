//! Calls on the file in a slot that make one request, except reads and writes.
ghost use Rattle.std.specs.Prelude.{◌<◌, length, Some, None};
ghost use Rattle.sftp_model.specs.declared.outcome.Outcome.TheVariants as outcome;
ghost use Rattle.sftp_model.specs.declared.slot.Move.TheVariants.{Done};
ghost use Rattle.plan_model.specs.declared.call.Call.TheVariants as call;
ghost use Rattle.plan_model.specs.FilePlans.{site_after_copy};
ghost use Rattle.plan_model.specs.Moves.{on_status};
ghost use Rattle.plan_runner.specs.Ran.{EndsByReply};
ghost use Rattle.plan_runner.specs.Begun.{StartsAsPlanned};
ghost use Rattle.plan_runner.specs.Sound.{CanMove};
ghost use Rattle.plan_runner.specs.Pending.{AwaitsNoMore};
ghost use Rattle.plan_runner.specs.Asking.{AwaitsAsked};

use crate::next::{Asked, EndsBy, Next, Running};
use crate::replies::{failure, refused, unsupported};
use crate::single::{attributes, offers};
use crate::site::{set_slot, slot_of};
use sftp_model::{Extensions, Facts, FileAt, IoKind, Outcome, Reply, Site, Slot};

/// A `copy-data` in flight: the slots, the files in them, and the number of bytes.
///
/// Used in `copy_replied`.
#[derive(Clone, Copy)]
pub(crate) struct CopyData {
    pub(crate) from: u8,
    pub(crate) to: u8,
    pub(crate) source: FileAt,
    pub(crate) target: FileAt,
    pub(crate) len: u64,
}

/// Sets the size of the file in a slot.
pub fn begin_set_len(slot: u8, n: u64, place: u64, site: &Site, facts: &Facts) -> Next
    requires { slot < length site.now.slots }
    ensures { StartsAsPlanned (call.SetLen slot n) place site.now site.now facts.now result }
{
    let Slot::File(file) = slot_of(site, slot) else {
        return Next::Done(Outcome::NoFile);
    };
    if !file.writable {
        return Next::Done(refused(IoKind::NotWritable));
    }
    let running = Running::Ending {
        place,
        by: EndsBy::Status,
    };
    let grant = file.grant;
    let attrs = attributes(Some(n), None);
    Next::Ask(Asked::Fsetstat { grant, attrs }, running)
}

/// Sets the mode of the file in a slot.
pub fn begin_set_perm(slot: u8, mode: u32, place: u64, site: &Site, facts: &Facts) -> Next
    requires { slot < length site.now.slots }
    ensures { StartsAsPlanned (call.SetPerm slot mode) place site.now site.now facts.now result }
{
    let Slot::File(file) = slot_of(site, slot) else {
        return Next::Done(Outcome::NoFile);
    };
    if !file.writable {
        return Next::Done(refused(IoKind::NotWritable));
    }
    let running = Running::Ending {
        place,
        by: EndsBy::Status,
    };
    let grant = file.grant;
    let attrs = attributes(None, Some(mode));
    Next::Ask(Asked::Fsetstat { grant, attrs }, running)
}

/// Asks for the attributes of the file in a slot.
pub fn begin_meta(slot: u8, place: u64, site: &Site, facts: &Facts) -> Next
    requires { slot < length site.now.slots }
    ensures { StartsAsPlanned (call.Meta slot) place site.now site.now facts.now result }
{
    let Slot::File(file) = slot_of(site, slot) else {
        return Next::Done(Outcome::NoFile);
    };
    if !file.readable {
        return Next::Done(refused(IoKind::NotReadable));
    }
    let running = Running::Ending {
        place,
        by: EndsBy::Attributes,
    };
    Next::Ask(Asked::Fstat { grant: file.grant }, running)
}

/// Requests that the server writes the file in a slot to its disk.
pub fn begin_sync(slot: u8, place: u64, site: &Site, facts: &Facts) -> Next
    requires { slot < length site.now.slots }
    ensures { StartsAsPlanned (call.Sync slot) place site.now site.now facts.now result }
{
    let Slot::File(file) = slot_of(site, slot) else {
        return Next::Done(Outcome::NoFile);
    };
    if !offers(facts, Extensions::FSYNC) {
        return Next::Done(unsupported(Extensions::FSYNC));
    }
    if !file.writable {
        return Next::Done(refused(IoKind::NotWritable));
    }
    let running = Running::Ending {
        place,
        by: EndsBy::Status,
    };
    Next::Ask(Asked::Fsync { grant: file.grant }, running)
}

/// Requests that the server copies `len` bytes from the file in one slot to that in another, each from its offset.
pub fn begin_copy(from: u8, to: u8, len: u64, place: u64, site: &Site, facts: &Facts) -> Next
    requires source { from < length site.now.slots }
    requires target { to < length site.now.slots }
    ensures { StartsAsPlanned (call.Copy from to len) place site.now site.now facts.now result }
{
    if from == to {
        return Next::Done(Outcome::NoFile);
    }
    let Slot::File(source) = slot_of(site, from) else {
        return Next::Done(Outcome::NoFile);
    };
    let Slot::File(target) = slot_of(site, to) else {
        return Next::Done(Outcome::NoFile);
    };
    if !offers(facts, Extensions::COPY_DATA) {
        return Next::Done(unsupported(Extensions::COPY_DATA));
    }
    if !target.writable {
        return Next::Done(refused(IoKind::NotWritable));
    }
    if !source.readable {
        return Next::Done(refused(IoKind::NotReadable));
    }
    if source.offset.checked_add(len).is_none() || target.offset.checked_add(len).is_none() {
        return Next::Done(refused(IoKind::OffsetOverflow));
    }
    let asked = Asked::CopyData {
        from: source.grant,
        from_offset: source.offset,
        len,
        to: target.grant,
        to_offset: target.offset,
    };
    Next::Ask(
        asked,
        Running::Copying {
            place,
            from,
            to,
            source: *source,
            target: *target,
            len,
        },
    )
}

/// Processes the reply to a `copy-data`: after a STATUS of OK the offsets of both files are after the bytes.
#[tactic(auto, using(crate::proofs::Fewer::fewer_files))]
pub(crate) fn copy_replied(copy: CopyData, reply: Reply, site: &mut Site) -> Outcome
    requires from { copy.from < length site.old.slots }
    requires to { copy.to < length site.old.slots }
    requires source { CanMove copy.source copy.len }
    requires target { CanMove copy.target copy.len }
    ensures { EndsByReply (on_status reply site.old
        (Done outcome.Done (site_after_copy copy.from copy.to copy.source copy.target copy.len site.old)))
        result site.old site.new }
{
    if let Some(outcome) = failure(reply) {
        return outcome;
    }
    let source = FileAt {
        offset: copy.source.offset + copy.len,
        ..copy.source
    };
    let target = FileAt {
        offset: copy.target.offset + copy.len,
        ..copy.target
    };
    set_slot(site, copy.from, Slot::File(source));
    set_slot(site, copy.to, Slot::File(target));
    Outcome::Done
}
