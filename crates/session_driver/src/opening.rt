//! The opening of a session: the hello and VERSION, and the limits if the server offers to report them.
ghost use Rattle.std.specs.Prelude.{◌<◌, ◌^◌, ◌-◌, true, IfErr, OnOk, IfOk};
ghost use Rattle.sftp_link.specs.Told.{IfLogged};
ghost use Rattle.session_driver.specs.Session.{IsFresh, IsOpened, IsWelcomed, OpensOn};
ghost use Rattle.link_frames.specs.Causes.{IsCausedByLink};
ghost use Rattle.session_driver.specs.Logs.{KeepsTrace, ShowsJournal};
ghost use Rattle.session_driver.specs.Ongoing.{HasStopped, MayAsk, StoppedAs, StoppedAtHello, run_state};
ghost use Rattle.session_driver.specs.RunsSoFar.{OpensSoFar};

use crate::session::RunsLanes;
use link_frames::{read_frame, refused, send_pieces};
use sftp_link::Link;
use sftp_model::Error;
use std::alloc::Global;

/// Sends the hello and takes VERSION. Returns true if the limits are to be asked for.
fn greet<X: RunsLanes, L: Link>(alloc: Global, session: &mut X, link: &mut L) -> Result<bool, Error>
    requires fresh { IsFresh (X.seen session.old) }
    requires count { (L.LinkState.state link.old).faults < 2 ^ 64 - 1 }
    ensures welcomed { IfOk result (λ asks. IsWelcomed (X.seen session.old).given asks (X.seen session.new)) }
    ensures log { OnOk result (IfLogged (ShowsJournal (X.seen session.new).version (X.seen session.new).progress.past) (L.LinkState.state link.old).log (L.LinkState.state link.new).log) }
    ensures stops { IfErr result (StoppedAtHello (run_state (X.seen session.old) (L.LinkState.state link.old)) (run_state (X.seen session.new) (L.LinkState.state link.new))) }
    ensures caused { IsCausedByLink (L.LinkState.state link.old) (L.LinkState.state link.new) result }
{
    let chunk = match session.greet() {
        Ok(chunk) => chunk,
        Err(_) => return Err(Error::OutOfMemory),
    };
    send_pieces(link, chunk.pieces())?;
    session.give_back(chunk);
    let reader = read_frame(alloc, link)?;
    let Some(body) = reader.frame() else {
        unreachable!()
    };
    match session.take_version(body) {
        Ok(asks) => Ok(asks),
        Err(e) => Err(refused(e)),
    }
}

/// Asks for the limits, and takes the reply.
fn ask_limits<X: RunsLanes, L: Link>(
    alloc: Global,
    session: &mut X,
    link: &mut L,
) -> Result<(), Error>
    requires welcomed { IsWelcomed (X.seen session.old).given true (X.seen session.old) }
    requires count { (L.LinkState.state link.old).faults < 2 ^ 64 - 1 }
    ensures opens { OnOk result (OpensOn (X.seen session.old) (X.seen session.new)) }
    ensures log { OnOk result (IfLogged (KeepsTrace (X.seen session.old).progress.past (X.seen session.new).progress.past) (L.LinkState.state link.old).log (L.LinkState.state link.new).log) }
    ensures stops { IfErr result (StoppedAs (MayAsk (X.seen session.old)) (run_state (X.seen session.old) (L.LinkState.state link.old)) (run_state (X.seen session.new) (L.LinkState.state link.new))) }
    ensures caused { IsCausedByLink (L.LinkState.state link.old) (L.LinkState.state link.new) result }
{
    let chunk = match session.query() {
        Ok(chunk) => chunk,
        Err(_) => return Err(Error::OutOfMemory),
    };
    send_pieces(link, chunk.pieces())?;
    session.give_back(chunk);
    let reader = read_frame(alloc, link)?;
    let Some(body) = reader.frame() else {
        unreachable!()
    };
    match session.take_limits(body) {
        Ok(()) => Ok(()),
        Err(e) => Err(refused(e)),
    }
}

/// Opens a session: the hello and VERSION, and the limits if the server offers to report them.
///
/// # Errors
///
/// `OutOfMemory` if an allocation fails, or the error of the link or of a frame that stopped the opening.
pub fn open<X: RunsLanes, L: Link>(
    alloc: Global,
    session: &mut X,
    link: &mut L,
) -> Result<(), Error>
    requires fresh { IsFresh (X.seen session.old) }
    requires count { (L.LinkState.state link.old).faults < 2 ^ 64 - 1 }
    ensures opened { OnOk result (IsOpened (X.seen session.old).given (X.seen session.new)) }
    ensures log { OnOk result (IfLogged (ShowsJournal (X.seen session.new).version (X.seen session.new).progress.past) (L.LinkState.state link.old).log (L.LinkState.state link.new).log) }
    ensures stops { IfErr result (HasStopped (λ s. OpensSoFar s.limits) (run_state (X.seen session.old) (L.LinkState.state link.old)) (run_state (X.seen session.new) (L.LinkState.state link.new))) }
    ensures caused { IsCausedByLink (L.LinkState.state link.old) (L.LinkState.state link.new) result }
{
    match greet(alloc, session, link)? {
        true => ask_limits(alloc, session, link),
        false => Ok(()),
    }
}
