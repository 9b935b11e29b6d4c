//! A whole run of lanes over a link.
ghost use Rattle.std.specs.Prelude.{◌≡◌, ◌<◌, ◌^◌, ◌-◌, true, IfOk, IfErr};
ghost use Rattle.sftp_link.specs.Told.{IfLogged};
ghost use Rattle.plan_model.specs.Lanes.{are_ok};
ghost use Rattle.link_frames.specs.Causes.{IsCausedByLink};
ghost use Rattle.session_driver.specs.Logs.{EndsSession};
ghost use Rattle.sftp_lanes.specs.Complete.{StopsForMemory};
ghost use Rattle.sftp_lanes.specs.Seen.{session_inputs};
ghost use Rattle.sftp_lanes.specs.Reported.{IsReport};

use crate::session::Session;
use session_driver::run_session;
use session_model::{Lane, Report, Turn};
use sftp_link::Link;
use sftp_model::{Error, SftpOptions};
use ssh_encoding::OutOfMemory;
use std::alloc::Global;

/// Runs lanes over a link. It sends the hello and takes the limits, and makes the turns of the schedule. Then, for each
/// lane in order, it does rounds of a step, a flush and a take until the lane has no call left. Then it releases the
/// lanes in order, and takes the last replies.
///
/// With `Ok` the report is that of a run of the lanes under these turns: its events are the run's journal, and the
/// link's log, if it reports one, shows VERSION and that journal. Each handle was closed exactly as often as it was
/// granted.
///
/// If the replies are those of a file machine, as over a link to a server of files, the bytes that were written are
/// read back. A name that is one lane's alone was read as the lane wrote it, and its file is left so, if the machine
/// refuses nothing by choice.
///
/// # Errors
///
/// `LinkFault` only if the link's count of faults rose; `LinkEnded` only if its last call found the end. Each other
/// error except `OutOfMemory` is the first thing that is wrong with the frame that came last.
///
/// After an error the log shows VERSION and a journal that is a run so far of the lanes under these turns, or the
/// hello. After that it shows nothing, a prefix of the next frames to be sent, or bytes of one frame that wasn't taken,
/// and none past it. The error is `OutOfMemory` over a new link that has no fault, gives VERSION 3, and answers each
/// request that was sent with a reply that may be taken.
pub fn run_lanes<L: Link>(
    alloc: Global,
    link: &mut L,
    lanes: &[Lane],
    schedule: &[Turn],
    options: &SftpOptions,
) -> Result<Report, Error>
    requires lanes { are_ok lanes.now ≡ true }
    requires count { (L.LinkState.state link.old).faults < 2 ^ 64 - 1 }
    ensures run { IfOk result (λ report. IsReport lanes.now options.now schedule.now (L.LinkState.state link.old).log (L.LinkState.state link.new).log report) }
    ensures stops { IfErr result (λ e. IfLogged (EndsSession (session_inputs lanes.now options.now) schedule.now (L.LinkState.state link.new).ended e) (L.LinkState.state link.old).log (L.LinkState.state link.new).log) }
    ensures caused { IsCausedByLink (L.LinkState.state link.old) (L.LinkState.state link.new) result }
    ensures complete { IfErr result (StopsForMemory (session_inputs lanes.now options.now) (L.LinkState.state link.old) (L.LinkState.state link.new)) }
{
    let mut session = match Session::new(alloc, lanes, options) {
        Ok(session) => session,
        Err(OutOfMemory) => return Err(Error::OutOfMemory),
    };
    run_session(alloc, &mut session, link, schedule)?;
    match session.into_report() {
        Ok(report) => Ok(report),
        Err(OutOfMemory) => Err(Error::OutOfMemory),
    }
}
