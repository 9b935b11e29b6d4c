//! The end of a session.
ghost use Rattle.session_driver.specs.Ongoing.{run_state};
ghost use Rattle.sftp_lanes.specs.Seen.{seen_of};
ghost use Rattle.sftp_view.specs.Doings.{IsIdle};
ghost use Rattle.sftp_view.specs.Closing.{ClosesOrStops};

use crate::call::step_idly;
use session_driver::{drain, let_go_lanes};
use sftp_lanes::Session;
use sftp_link::Link;
use sftp_model::Error;
use std::alloc::Global;

/// Releases the lane of an idle session, and takes the last replies.
pub(crate) fn close_session<L: Link>(
    alloc: Global,
    session: &mut Session,
    link: &mut L,
) -> Result<(), Error>
    requires { IsIdle (run_state (seen_of session.old) (L.LinkState.state link.old)) }
    ensures { ClosesOrStops (run_state (seen_of session.old) (L.LinkState.state link.old)) (run_state (seen_of session.new) (L.LinkState.state link.new)) result }
{
    let_go_lanes(session, link)?;
    drain(alloc, session, link)?;
    match step_idly(session) {
        Ok(()) => Ok(()),
        Err(_) => Err(Error::OutOfMemory),
    }
}
