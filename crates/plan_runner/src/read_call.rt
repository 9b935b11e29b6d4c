//! `read`: at most n bytes at the file's offset.
ghost use Rattle.std.specs.Prelude.{[], ◌≡◌, ◌<◌, length, Some, None};
ghost use Rattle.sftp_model.specs.declared.slot.Move.TheVariants.{Done};
ghost use Rattle.sftp_model.specs.declared.slot.Facts.{Facts as FactsValue};
ghost use Rattle.plan_model.specs.declared.call.Call.TheVariants as call;
ghost use Rattle.plan_model.specs.TransferPlans.{was_read};
ghost use Rattle.plan_runner.specs.Begun.{StartsAsPlanned};
ghost use Rattle.plan_runner.specs.Runners.{BeginsByPlan};
ghost use Rattle.plan_runner.specs.Cancelling.{BeginsLeaving};
ghost use Rattle.plan_runner.specs.Sound.{HasRoom, KeepsSite, KeepsRunningSound};
ghost use Rattle.plan_runner.specs.Pending.{AwaitsNoMore, PendsAfter, pends_idle};
ghost use Rattle.plan_runner.specs.Asking.{AwaitsAsked};

use crate::next::{Asked, Next, Running};
use crate::replies::{refused, status_refusal};
use crate::site::{set_slot, slot_of};
use sftp_model::numbers::SSH_FX_EOF;
use sftp_model::{Error, Facts, FileAt, IoKind, Outcome, Reply, Site, Slot};
use sftp_values::ByteText;

/// Reads at most `n` bytes of the file in a slot.
pub fn begin_read(slot: u8, n: u32, place: u64, site: &Site, facts: &Facts) -> Next
    requires { slot < length site.now.slots }
    ensures { StartsAsPlanned (call.Read slot n) place site.now site.now facts.now result }
{
    let Slot::File(file) = slot_of(site, slot) else {
        return Next::Done(Outcome::NoFile);
    };
    let file = *file;
    if n == 0 {
        return Next::Done(Outcome::End);
    }
    let len = n.min(facts.read_len);
    if !file.readable {
        return Next::Done(refused(IoKind::NotReadable));
    }
    if file.offset.checked_add(len as u64).is_none() {
        return Next::Done(refused(IoKind::OffsetOverflow));
    }
    let asked = Asked::Read {
        grant: file.grant,
        offset: file.offset,
        len,
    };
    Next::Ask(
        asked,
        Running::Reading {
            place,
            slot,
            file,
            len,
        },
    )
}

/// Processes the reply to a READ: the file's offset is moved past the bytes of a DATA, which the outcome shares.
#[tactic(auto, using(crate::proofs::Fewer::fewer_file))]
pub(crate) fn read_replied(slot: u8, file: FileAt, reply: Reply, site: &mut Site) -> Outcome
    requires within { slot < length site.old.slots }
    requires room { HasRoom file reply }
    ensures gives { was_read slot file site.old reply ≡ Done result site.new }
    ensures sound { (facts : FactsValue) → KeepsSite facts site.old site.new }
    ensures fewer { AwaitsNoMore site.old site.new }
{
    match reply {
        Reply::Content(bytes) => {
            let moved = FileAt {
                offset: file.offset + bytes.len() as u64,
                ..file
            };
            set_slot(site, slot, Slot::File(moved));
            Outcome::Bytes(ByteText::shared(bytes))
        }
        Reply::Status {
            code,
            message,
            language,
        } => {
            if code == SSH_FX_EOF {
                return Outcome::End;
            }
            status_refusal(code, message, language)
        }
        _ => Outcome::Refused(Error::InvalidResponse { id: None }),
    }
}
