//! The driver of a whole run.
ghost use Rattle.std.specs.Prelude.{◌<◌, ◌^◌, ◌-◌};
ghost use Rattle.session_driver.specs.Session.{IsFresh};
ghost use Rattle.session_driver.specs.Ongoing.{DrivesSession, run_state};

use crate::opening::open;
use crate::runs::{drain, end_lanes, let_go_lanes, run_turns};
use crate::session::RunsLanes;
use session_model::Turn;
use sftp_link::Link;
use sftp_model::Error;
use std::alloc::Global;

/// Runs the lanes of a session over a link. It sends the hello and takes the limits, and makes the turns of the
/// schedule. Then, for each lane in order, it does rounds of a step, a flush and a take until the lane has no call
/// left. Then it releases the lanes in order, and takes the last replies.
///
/// With `Ok` the journal is a run of the lanes under these turns, and the link's log, if it reports one, shows VERSION
/// and the journal.
///
/// # Errors
///
/// `LinkFault` only if the link's count of faults rose; `LinkEnded` only if its last call found the end. Each other
/// error except `OutOfMemory` is the first thing that is wrong with the frame that came last.
///
/// After an error the log shows VERSION and a journal that is a run so far of the lanes under these turns, or the
/// hello. After that it shows nothing, a prefix of the next frames to be sent, or bytes of one frame that wasn't taken,
/// and none past it. The session's journal is that one then, or has another entry: the Send whose frames could not all
/// be sent, or the fault of the frame that was refused. Its setting is the one that VERSION and that journal fix.
pub fn run_session<X: RunsLanes, L: Link>(
    alloc: Global,
    session: &mut X,
    link: &mut L,
    schedule: &[Turn],
) -> Result<(), Error>
    requires fresh { IsFresh (X.seen session.old) }
    requires count { (L.LinkState.state link.old).faults < 2 ^ 64 - 1 }
    ensures { DrivesSession schedule.now (run_state (X.seen session.old) (L.LinkState.state link.old)) (run_state (X.seen session.new) (L.LinkState.state link.new)) result }
{
    open(alloc, session, link)?;
    run_turns(alloc, session, link, schedule)?;
    end_lanes(alloc, session, link)?;
    let_go_lanes(session, link)?;
    drain(alloc, session, link)
}
