//! Calls that are added to the lanes of an open session, and run to their end.
ghost use Rattle.std.specs.Prelude.{◌≡◌, ◌<◌, true, false, length, OnErr, OnOk};
ghost use Rattle.plan_model.specs.Lanes.{are_ok};
ghost use Rattle.session_model.specs.Readings.{was_let_go};
ghost use Rattle.session_driver.specs.Adding.{AddsTo, MayAdd, call_of, with_call};
ghost use Rattle.session_driver.specs.Ongoing.{IsReady, RunsPart, run_state};

use crate::runs::end_lane;
use crate::session::RunsLanes;
use session_model::{Call, Lane};
use sftp_link::Link;
use sftp_model::Error;
use ssh_encoding::OutOfMemory;
use std::alloc::Global;

/// A session whose lanes take further calls.
///
/// Used in `crates/sftp_lanes/src/session.rt`.
pub trait AddsCalls: RunsLanes {
    ghost use Rattle.std.specs.Prelude.{List};
    ghost use Rattle.plan_model.specs.declared.call.Lane.{Lane as LaneValue};

    // The calls of each lane: those that it was given, and then those that were added.
    ghost calls: { Self → List LaneValue };

    /// Appends a call to those of an existing lane that was not released.
    ///
    /// # Errors
    ///
    /// `OutOfMemory` if an allocation fails; nothing has changed then.
    fn push_call(&mut self, lane: u32, call: Call) -> Result<(), OutOfMemory>
        requires { MayAdd lane call (Self.seen self.old) (calls self.old) }
        ensures adds { OnOk result (AddsTo lane call (Self.seen self.old) (Self.seen self.new)) }
        ensures calls { OnOk result (calls self.new ≡ with_call (calls self.old) lane call) }
        ensures unchanged { OnErr result (Self.seen self.new ≡ Self.seen self.old) };
}

/// Adds a call to a lane, and runs the lane until it has no call left.
///
/// # Errors
///
/// `OutOfMemory` if an allocation fails, or the error of the link or of a frame that stopped the run.
pub fn run_call<X: AddsCalls, L: Link>(
    alloc: Global,
    session: &mut X,
    link: &mut L,
    lane: u32,
    call: Call,
) -> Result<(), Error>
    requires ready { IsReady (run_state (X.RunsLanes.seen session.old) (L.LinkState.state link.old)) }
    requires there { lane < length (X.calls session.old) }
    requires held { was_let_go (X.RunsLanes.seen session.old).progress.past lane ≡ false }
    requires ok { are_ok (with_call (X.calls session.old) lane call) ≡ true }
    ensures ongoing { RunsPart (call_of lane call) (run_state (X.RunsLanes.seen session.old) (L.LinkState.state link.old)) (run_state (X.RunsLanes.seen session.new) (L.LinkState.state link.new)) result }
{
    match session.push_call(lane, call) {
        Ok(()) => end_lane(alloc, session, link, lane),
        Err(_) => Err(Error::OutOfMemory),
    }
}
