//! Calls that are added to the lanes of the shared session.
ghost use Rattle.std.specs.Prelude.{◌≡◌, MatchBool, IfOk, IfErr, OnOk};
ghost use Rattle.sftp_lanes.specs.Adding.{CanAdd, CannotAdd};
ghost use Rattle.sftp_tasks.specs.SessionEvents.{AddsIn, MayTakeCalls, RefusesToAdd, SubmitsCall};

use crate::locked::Locked;
use session_driver::Phase;
use session_model::Call;
use sftp_model::Error;
use ssh_encoding::OutOfMemory;

impl Locked {
    /// Returns true if a call may be appended to those of a lane. Fails if a fault is recorded, and once the session
    /// has failed.
    fn may_add(&self, lane: u32, call: &Call) -> Result<bool, Error>
        ensures may { IfOk result (λ may. MatchBool may (CanAdd lane call.now self.now.session) (CannotAdd lane call.now self.now.session)) }
        ensures unfailed { OnOk result (MayTakeCalls self.now.session) }
        ensures refused { IfErr result (λ e. RefusesToAdd e self.now.session self.now.session) }
    {
        if let Some(fault) = self.session.fault() {
            return Err(Error::BackgroundTaskFailure(fault));
        }
        if let Phase::Failed = self.session.phase() {
            return Err(Error::OutOfMemory);
        }
        Ok(self.session.can_add(lane, call))
    }

    /// Appends a call to those of a lane, and records it in the journal; before the session is open it waits for a
    /// later step. Returns false if the lane doesn't exist or was released, and if a session can't be given the lanes
    /// with the call; nothing changes then.
    ///
    /// # Errors
    ///
    /// Those of `step`; nothing changes then.
    pub fn push_call(&mut self, lane: u32, call: Call) -> Result<bool, Error>
        ensures rest { self.new ≡ record self.old { session = self.new.session } }
        ensures adds { IfOk result (λ event. AddsIn lane call self.old.session self.new.session event) }
        ensures unfailed { OnOk result (MayTakeCalls self.old.session) }
        ensures refused { IfErr result (λ e. RefusesToAdd e self.old.session self.new.session) }
    {
        // No `?`: it converts the error, and `refused` is about the error itself.
        match self.may_add(lane, &call) {
            Ok(true) => {}
            Ok(false) => return Ok(false),
            Err(e) => return Err(e),
        }
        match self.session.push_call(lane, call) {
            Ok(()) => Ok(true),
            Err(OutOfMemory) => Err(Error::OutOfMemory),
        }
    }

    /// Adds a call to a lane as `push_call` does, and then steps the lane once.
    ///
    /// # Errors
    ///
    /// Those of `step`. The call may have been added then.
    pub fn submit(&mut self, lane: u32, call: Call) -> Result<bool, Error>
        ensures rest { self.new ≡ record self.old { session = self.new.session } }
        ensures submits { SubmitsCall lane call self.old.session self.new.session result }
        ensures unfailed { OnOk result (MayTakeCalls self.old.session) }
    {
        // No `?`: it converts the error, and `submits` is by cases on the result.
        match self.push_call(lane, call) {
            Ok(true) => {}
            Ok(false) => return Ok(false),
            Err(e) => return Err(e),
        }
        match self.step(lane) {
            Ok(_event) => Ok(true),
            Err(e) => Err(e),
        }
    }
}
