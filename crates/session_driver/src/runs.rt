//! Parts of a run, each a loop of turns.
ghost use Rattle.std.specs.Prelude.{◌≡◌, ◌≢◌, ◌<◌, ℕ, length, false, None, OnOk};
ghost use Rattle.session_model.specs.Calls.{current};
ghost use Rattle.session_model.specs.Readings.{count_unanswered, was_let_go};
ghost use Rattle.session_model.specs.Runs.{round_of};
ghost use Rattle.session_driver.specs.RunsSoFar.{drain_of};
ghost use Rattle.session_driver.specs.Ongoing.{RunsPart, IsReady, run_state, turns_of, lane_of, lanes_end, let_go_of, lanes_go, drain_part};

use crate::session::RunsLanes;
use crate::turns::{flush_turn, one_turn, settle, step_turn, take_turn};
use session_model::Turn;
use sftp_link::Link;
use sftp_model::Error;
use std::alloc::Global;

/// Makes the turns of a schedule, in order.
pub(crate) fn run_turns<X: RunsLanes, L: Link>(
    alloc: Global,
    session: &mut X,
    link: &mut L,
    schedule: &[Turn],
) -> Result<(), Error>
    requires ready { IsReady (run_state (X.seen session.old) (L.LinkState.state link.old)) }
    ensures ongoing { RunsPart (turns_of schedule.now) (run_state (X.seen session.old) (L.LinkState.state link.old)) (run_state (X.seen session.new) (L.LinkState.state link.new)) result }
{
    for turn in schedule {
        one_turn(alloc, session, link, *turn)?;
    }
    Ok(())
}

/// Does a round of a lane: a step, a flush and a take. If the lane has a call left, less work is left then.
fn one_round<X: RunsLanes, L: Link>(
    alloc: Global,
    session: &mut X,
    link: &mut L,
    lane: u32,
) -> Result<(), Error>
    requires ready { IsReady (run_state (X.seen session.old) (L.LinkState.state link.old)) }
    ensures ongoing { RunsPart (turns_of (round_of lane)) (run_state (X.seen session.old) (L.LinkState.state link.old)) (run_state (X.seen session.new) (L.LinkState.state link.new)) result }
    ensures less { OnOk result (current (X.seen session.old).setting (X.seen session.old).progress.past lane ≢ None → (X.seen session.new).work < (X.seen session.old).work) }
{
    step_turn(session, link, lane)?;
    flush_turn(session, link)?;
    take_turn(alloc, session, link)
}

/// Does rounds until a lane has no call left.
pub(crate) fn end_lane<X: RunsLanes, L: Link>(
    alloc: Global,
    session: &mut X,
    link: &mut L,
    lane: u32,
) -> Result<(), Error>
    requires ready { IsReady (run_state (X.seen session.old) (L.LinkState.state link.old)) }
    ensures ongoing { RunsPart (lane_of lane) (run_state (X.seen session.old) (L.LinkState.state link.old)) (run_state (X.seen session.new) (L.LinkState.state link.new)) result }
{
    while !session.is_done(lane) {
        one_round(alloc, session, link, lane)?;
    }
    Ok(())
}

/// Does rounds of each lane in order, until none has a call left.
pub(crate) fn end_lanes<X: RunsLanes, L: Link>(
    alloc: Global,
    session: &mut X,
    link: &mut L,
) -> Result<(), Error>
    requires ready { IsReady (run_state (X.seen session.old) (L.LinkState.state link.old)) }
    ensures ongoing { RunsPart lanes_end (run_state (X.seen session.old) (L.LinkState.state link.old)) (run_state (X.seen session.new) (L.LinkState.state link.new)) result }
{
    for lane in 0..session.lane_count() {
        end_lane(alloc, session, link, lane)?;
    }
    Ok(())
}

/// Releases one lane.
fn let_go_one<X: RunsLanes, L: Link>(session: &mut X, link: &mut L, lane: u32) -> Result<(), Error>
    requires ready { IsReady (run_state (X.seen session.old) (L.LinkState.state link.old)) }
    requires there { lane < length (X.seen session.old).setting.lanes }
    requires done { current (X.seen session.old).setting (X.seen session.old).progress.past lane ≡ None }
    requires holds { was_let_go (X.seen session.old).progress.past lane ≡ false }
    ensures ongoing { RunsPart (let_go_of lane) (run_state (X.seen session.old) (L.LinkState.state link.old)) (run_state (X.seen session.new) (L.LinkState.state link.new)) result }
{
    match session.let_go(lane) {
        Ok(()) => settle(session, link),
        Err(_) => Err(Error::OutOfMemory),
    }
}

/// Releases each lane in order.
///
/// # Errors
///
/// `OutOfMemory` if an allocation fails, or the error of the link that stopped a send.
pub fn let_go_lanes<X: RunsLanes, L: Link>(session: &mut X, link: &mut L) -> Result<(), Error>
    requires ready { IsReady (run_state (X.seen session.old) (L.LinkState.state link.old)) }
    requires done { (lane : ℕ) → lane < length (X.seen session.old).setting.lanes → current (X.seen session.old).setting (X.seen session.old).progress.past lane ≡ None }
    requires holds { (lane : ℕ) → was_let_go (X.seen session.old).progress.past lane ≡ false }
    ensures ongoing { RunsPart lanes_go (run_state (X.seen session.old) (L.LinkState.state link.old)) (run_state (X.seen session.new) (L.LinkState.state link.new)) result }
{
    for lane in 0..session.lane_count() {
        let_go_one(session, link, lane)?;
    }
    Ok(())
}

/// Does a flush and a take. If something is unanswered, less work is left then.
fn one_drain<X: RunsLanes, L: Link>(
    alloc: Global,
    session: &mut X,
    link: &mut L,
) -> Result<(), Error>
    requires ready { IsReady (run_state (X.seen session.old) (L.LinkState.state link.old)) }
    ensures ongoing { RunsPart (turns_of drain_of) (run_state (X.seen session.old) (L.LinkState.state link.old)) (run_state (X.seen session.new) (L.LinkState.state link.new)) result }
    ensures less { OnOk result (0 < count_unanswered (X.seen session.old).progress.past → (X.seen session.new).work < (X.seen session.old).work) }
{
    flush_turn(session, link)?;
    take_turn(alloc, session, link)
}

/// Takes the last replies: flushes and takes until nothing is unanswered.
///
/// # Errors
///
/// `OutOfMemory` if an allocation fails, or the error of the link or of a frame that stopped it.
pub fn drain<X: RunsLanes, L: Link>(
    alloc: Global,
    session: &mut X,
    link: &mut L,
) -> Result<(), Error>
    requires ready { IsReady (run_state (X.seen session.old) (L.LinkState.state link.old)) }
    ensures ongoing { RunsPart drain_part (run_state (X.seen session.old) (L.LinkState.state link.old)) (run_state (X.seen session.new) (L.LinkState.state link.new)) result }
{
    while session.unanswered() > 0 {
        one_drain(alloc, session, link)?;
    }
    Ok(())
}
