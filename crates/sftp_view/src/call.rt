//! One call of the lane.
ghost use Rattle.std.specs.Prelude.{◌≡◌, None, Ok, OnErr, OnOk};
ghost use Rattle.session_driver.specs.declared.session.Phase.TheVariants.{Open};
ghost use Rattle.session_driver.specs.Ongoing.{run_state};
ghost use Rattle.session_driver.specs.Session.{IsUnmoved};
ghost use Rattle.session_model.specs.Calls.{current};
ghost use Rattle.session_work.specs.Working.{past_of};
ghost use Rattle.sftp_lanes.specs.Seen.{seen_of, setting_at};
ghost use Rattle.view_model.specs.Viewed.{makes, pure};
ghost use Rattle.sftp_view.specs.Doings.{IsIdle, MayDo, DoesBySession};
ghost use Rattle.sftp_view.specs.IdleSteps.{StepsIdly};

use session_driver::run_call;
use session_model::Call;
use sftp_lanes::Session;
use sftp_link::Link;
use sftp_model::Error;
use sftp_values::ByteText;
use ssh_encoding::OutOfMemory;
use std::alloc::Global;
use view_model::found_in;

/// Bytes, or the status of a refusal.
pub type Found = Result<ByteText, u32>;

/// Steps an idle lane, which does nothing.
// For the contract: among all results of a session, only this one says that a lane's calls are those of its journal,
// and that no grant is to be closed.
pub(crate) fn step_idly(session: &mut Session) -> Result<(), OutOfMemory>
    requires open { session.old.phase ≡ Open }
    requires done { current (setting_at session.old) (past_of session.old.work) 0 ≡ None }
    ensures steps { OnOk result (StepsIdly session.old session.new) }
    ensures left { OnErr result (IsUnmoved (seen_of session.old) (seen_of session.new)) }
{
    session.step(0)?;
    Ok(())
}

/// Adds a call to the lane of an idle session, runs it to its end, and returns its result.
pub(crate) fn make_call<L: Link>(
    alloc: Global,
    session: &mut Session,
    link: &mut L,
    call: Call,
) -> Result<Found, Error>
    requires idle { IsIdle (run_state (seen_of session.old) (L.LinkState.state link.old)) }
    requires may { MayDo (makes call) (seen_of session.old).progress.past }
    ensures { DoesBySession (makes call) pure (run_state (seen_of session.old) (L.LinkState.state link.old)) (run_state (seen_of session.new) (L.LinkState.state link.new)) result }
{
    if step_idly(session).is_err() {
        return Err(Error::OutOfMemory);
    }
    run_call(alloc, session, link, 0, call)?;
    let Some(outcome) = session.outcomes(0).last() else {
        unreachable!()
    };
    match found_in(alloc, outcome) {
        Ok(found) => Ok(found),
        Err(_) => Err(Error::OutOfMemory),
    }
}
