//! `close`: the slot is cleared, and the last slot of a file sends its CLOSE.
ghost use Rattle.std.specs.Prelude.{[], ◌≡◌, ◌<◌, true, length, Some, None};
ghost use Rattle.sftp_model.specs.declared.slot.Site.{Site as SiteValue};
ghost use Rattle.sftp_model.specs.Slots.{has_grant};
ghost use Rattle.plan_model.specs.declared.call.Call.TheVariants as call;
ghost use Rattle.plan_model.specs.FilePlans.{close_grant_next};
ghost use Rattle.plan_runner.specs.Begun.{StartsAsPlanned};
ghost use Rattle.plan_runner.specs.Runners.{BeginsByPlan, RunsByPlan};
ghost use Rattle.plan_runner.specs.Cancelling.{BeginsLeaving, LeavesCancelled, NeverWaits};
ghost use Rattle.plan_runner.specs.Sound.{KeepsRunningSound};
ghost use Rattle.plan_runner.specs.Pending.{PendsAfter, pends_idle};
ghost use Rattle.plan_runner.specs.Asking.{AwaitsAsked};

use crate::next::{Asked, EndsBy, Next, Running};
use crate::site::{holds_grant, set_slot, slot_of};
use sftp_model::{Facts, Outcome, Site, Slot};

/// Closes the file in a slot, which is cleared at once.
pub fn begin_close(slot: u8, place: u64, site: &mut Site, facts: &Facts) -> Next
    requires { slot < length site.old.slots }
    ensures { StartsAsPlanned (call.Close slot) place site.old site.new facts.now result }
{
    let grant = match slot_of(site, slot) {
        Slot::Empty => return Next::Done(Outcome::NoFile),
        Slot::File(file) => file.grant,
        Slot::Buffered(file, _) => file.grant,
    };
    set_slot(site, slot, Slot::Empty);
    close_grant(grant, place, site, facts)
}

/// Closes a grant if no slot has it any more.
fn close_grant(grant: u64, place: u64, site: &Site, facts: &Facts) -> Next
    ensures asks { NeverWaits result }
    ensures goes { RunsByPlan (close_grant_next grant site.now) place [] site.now facts.now result }
    ensures left { LeavesCancelled (λ own answers. site.now) place [] site.now facts.now result }
    ensures sound { KeepsRunningSound [] facts.now site.now site.now result }
    ensures pends { PendsAfter (pends_idle site.now) place site.now result }
    ensures grants { (old : SiteValue) → has_grant old grant ≡ true → AwaitsAsked None place old result }
{
    if holds_grant(site, grant) {
        return Next::Done(Outcome::Done);
    }
    let running = Running::Ending {
        place,
        by: EndsBy::Status,
    };
    Next::Ask(Asked::Close { grant }, running)
}
