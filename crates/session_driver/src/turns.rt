//! Turns of a schedule, each with the Send that may follow it.
ghost use Rattle.std.specs.Prelude.{◌≡◌, ◌≢◌, ◌<◌, ◌∷◌, IfErr, OnErr, OnOk, nat_lt};
ghost use Rattle.sftp_model.specs.declared.error.Error.TheVariants as error;
ghost use Rattle.session_model.specs.declared.entry.Entry.TheVariants as entry;
ghost use Rattle.session_model.specs.declared.event.Event.TheVariants.{Send};
ghost use Rattle.session_model.specs.declared.turn.Turn.TheVariants as turns;
ghost use Rattle.session_model.specs.Readings.{count_awaited, count_unanswered};
ghost use Rattle.session_driver.specs.Session.{LessBy, MovesLane};
ghost use Rattle.session_driver.specs.Ongoing.{RunsPart, IsReady, run_state, flush_part, settle_part, turn_of};

use crate::session::{RunsLanes, Stepped};
use link_frames::{read_frame, refused, send_pieces};
use session_model::Turn;
use sftp_link::Link;
use sftp_model::Error;
use std::alloc::Global;

/// Sends the unsent requests, if there are any. If the link fails, the session has recorded the Send, and is otherwise
/// as it was.
pub(crate) fn flush<X: RunsLanes, L: Link>(session: &mut X, link: &mut L) -> Result<(), Error>
    requires ready { IsReady (run_state (X.seen session.old) (L.LinkState.state link.old)) }
    ensures ongoing { RunsPart flush_part (run_state (X.seen session.old) (L.LinkState.state link.old)) (run_state (X.seen session.new) (L.LinkState.state link.new)) result }
    ensures work { OnOk result ((X.seen session.new).work ≡ (X.seen session.old).work) }
    ensures sent { IfErr result (λ e. e ≢ error.OutOfMemory → (X.seen session.new).progress.past ≡ entry.Event Send ∷ (X.seen session.old).progress.past) }
{
    let chunk = match session.hand_out() {
        Ok(Some(chunk)) => chunk,
        Ok(None) => return Ok(()),
        Err(_) => return Err(Error::OutOfMemory),
    };
    send_pieces(link, chunk.pieces())?;
    session.give_back(chunk);
    Ok(())
}

/// Sends the unsent requests, if there are more than allowed.
pub(crate) fn settle<X: RunsLanes, L: Link>(session: &mut X, link: &mut L) -> Result<(), Error>
    requires ready { IsReady (run_state (X.seen session.old) (L.LinkState.state link.old)) }
    ensures ongoing { RunsPart settle_part (run_state (X.seen session.old) (L.LinkState.state link.old)) (run_state (X.seen session.new) (L.LinkState.state link.new)) result }
    ensures work { OnOk result ((X.seen session.new).work ≡ (X.seen session.old).work) }
{
    if !session.wants_flush() {
        return Ok(());
    }
    flush(session, link)
}

/// Makes the turn Step.
pub(crate) fn step_turn<X: RunsLanes, L: Link>(
    session: &mut X,
    link: &mut L,
    lane: u32,
) -> Result<(), Error>
    requires ready { IsReady (run_state (X.seen session.old) (L.LinkState.state link.old)) }
    ensures ongoing { RunsPart (turn_of (turns.Step lane)) (run_state (X.seen session.old) (L.LinkState.state link.old)) (run_state (X.seen session.new) (L.LinkState.state link.new)) result }
    ensures work { OnOk result (MovesLane lane (X.seen session.old) (X.seen session.new)) }
{
    let stepped = match session.step(lane) {
        Ok(stepped) => stepped,
        Err(_) => return Err(Error::OutOfMemory),
    };
    if stepped == Stepped::Nothing {
        return Ok(());
    }
    settle(session, link)
}

/// Makes the turn Flush.
pub(crate) fn flush_turn<X: RunsLanes, L: Link>(session: &mut X, link: &mut L) -> Result<(), Error>
    requires ready { IsReady (run_state (X.seen session.old) (L.LinkState.state link.old)) }
    ensures ongoing { RunsPart (turn_of turns.Flush) (run_state (X.seen session.old) (L.LinkState.state link.old)) (run_state (X.seen session.new) (L.LinkState.state link.new)) result }
    ensures work { OnOk result ((X.seen session.new).work ≡ (X.seen session.old).work) }
    ensures awaits { OnOk result (0 < count_unanswered (X.seen session.old).progress.past → 0 < count_awaited (X.seen session.new).progress.past) }
{
    flush(session, link)
}

/// Makes the turn Take: reads one frame, and no byte past it, if a sent request is unanswered. Otherwise nothing is
/// done, and no memory is allocated.
pub(crate) fn take_turn<X: RunsLanes, L: Link>(
    alloc: Global,
    session: &mut X,
    link: &mut L,
) -> Result<(), Error>
    requires ready { IsReady (run_state (X.seen session.old) (L.LinkState.state link.old)) }
    ensures ongoing { RunsPart (turn_of turns.Take) (run_state (X.seen session.old) (L.LinkState.state link.old)) (run_state (X.seen session.new) (L.LinkState.state link.new)) result }
    ensures work { OnOk result (LessBy (nat_lt 0 (count_awaited (X.seen session.old).progress.past)) (X.seen session.old).work (X.seen session.new).work) }
    ensures some { OnErr result (count_awaited (X.seen session.old).progress.past ≢ 0) }
{
    if session.awaited() == 0 {
        return Ok(());
    }
    let reader = read_frame(alloc, link)?;
    let Some(body) = reader.frame() else {
        unreachable!()
    };
    match session.take(body) {
        Ok(()) => settle(session, link),
        Err(e) => Err(refused(e)),
    }
}

/// Makes the turn Cancel.
pub(crate) fn cancel_turn<X: RunsLanes, L: Link>(
    session: &mut X,
    link: &mut L,
    lane: u32,
) -> Result<(), Error>
    requires ready { IsReady (run_state (X.seen session.old) (L.LinkState.state link.old)) }
    ensures ongoing { RunsPart (turn_of (turns.Cancel lane)) (run_state (X.seen session.old) (L.LinkState.state link.old)) (run_state (X.seen session.new) (L.LinkState.state link.new)) result }
{
    match session.cancel(lane) {
        Ok(true) => settle(session, link),
        Ok(false) => Ok(()),
        Err(_) => Err(Error::OutOfMemory),
    }
}

/// Makes one turn.
pub(crate) fn one_turn<X: RunsLanes, L: Link>(
    alloc: Global,
    session: &mut X,
    link: &mut L,
    turn: Turn,
) -> Result<(), Error>
    requires ready { IsReady (run_state (X.seen session.old) (L.LinkState.state link.old)) }
    ensures ongoing { RunsPart (turn_of turn) (run_state (X.seen session.old) (L.LinkState.state link.old)) (run_state (X.seen session.new) (L.LinkState.state link.new)) result }
{
    match turn {
        Turn::Step(lane) => step_turn(session, link, lane),
        Turn::Flush => flush_turn(session, link),
        Turn::Take => take_turn(alloc, session, link),
        Turn::Cancel(lane) => cancel_turn(session, link, lane),
    }
}
