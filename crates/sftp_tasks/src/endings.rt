//! The end of the locked session: whether its calls can be made, and the stage of the end.
ghost use Rattle.std.specs.Prelude.{◌≡◌, IfErr, true, IfOk, OnOk};
ghost use Rattle.session_driver.specs.declared.session.Phase.TheVariants as phases;
ghost use Rattle.session_model.specs.Readings.{count_unanswered};
ghost use Rattle.session_work.specs.Working.{past_of};
ghost use Rattle.sftp_tasks.specs.LockedEvents.{DoesNothing, at_end, is_answered};
ghost use Rattle.sftp_tasks.specs.Phases.{is_open_in};
ghost use Rattle.sftp_tasks.specs.SessionEvents.{MayTakeCalls, RefusesCall};

use crate::locked::Locked;
use session_driver::Phase;
use sftp_model::Error;

impl Locked {
    /// Checks that calls of the lanes can be made.
    ///
    /// # Errors
    ///
    /// Those of `step`.
    pub fn check(&self) -> Result<(), Error>
        ensures unfailed { OnOk result (MayTakeCalls self.now.session) }
        ensures refused { IfErr result (λ e. RefusesCall e self.now.session self.now.session) }
    {
        if let Some(fault) = self.session.fault() {
            return Err(Error::BackgroundTaskFailure(fault));
        }
        match self.session.phase() {
            Phase::Failed => Err(Error::OutOfMemory),
            _ => Ok(()),
        }
    }

    /// Returns this value, if nothing is done.
    ///
    /// # Errors
    ///
    /// Those of `step`.
    pub fn idle<T: Drop>(&self, nothing: T) -> Result<T, Error>
        ensures idles { DoesNothing nothing self.now.session result }
        ensures unfailed { OnOk result (MayTakeCalls self.now.session) }
    {
        // No `?`: it converts the error, and `idles` is by cases on the result.
        match self.check() {
            Ok(()) => Ok(nothing),
            Err(e) => Err(e),
        }
    }

    /// Returns true if the session is open.
    pub fn is_open(&self) -> bool
        ensures value { result ≡ is_open_in self.now.session.phase }
        ensures open { result ≡ true → self.now.session.phase ≡ phases.Open }
    {
        matches!(self.session.phase(), Phase::Open)
    }

    /// Returns the stage of the end.
    ///
    /// # Errors
    ///
    /// Those of `step`.
    pub fn stage(&self) -> Result<u64, Error>
        ensures told { IfOk result (λ stage. stage ≡ self.now.counts.stage) }
        ensures unfailed { OnOk result (MayTakeCalls self.now.session) }
        ensures refused { IfErr result (λ e. RefusesCall e self.now.session self.now.session) }
    {
        // No `?`: it converts the error, and `refused` is about the error itself.
        match self.check() {
            Ok(()) => Ok(self.counts.stage),
            Err(e) => Err(e),
        }
    }

    /// Raises the stage of the end to 2 if the end has started and each request of an open session has its reply.
    /// Returns true if that is so.
    ///
    /// # Errors
    ///
    /// Those of `step`.
    pub fn finish(&mut self) -> Result<bool, Error>
        ensures told { IfOk result (λ all. all ≡ is_answered self.old.session.phase self.old.counts.stage (count_unanswered (past_of self.old.session.work))) }
        ensures stage { IfOk result (λ all. self.new ≡ record self.old { counts = at_end all self.old.counts }) }
        ensures unfailed { OnOk result (MayTakeCalls self.old.session) }
        ensures refused { IfErr result (λ e. RefusesCall e self.old.session self.old.session × (self.new ≡ self.old)) }
    {
        // No `?`: it converts the error, and `refused` is about the error itself.
        match self.check() {
            Ok(()) => {}
            Err(e) => return Err(e),
        }
        let all = self.is_answered();
        if all {
            self.counts.stage = 2;
        }
        Ok(all)
    }

    /// Returns true if the end has started, and each request of an open session has its reply.
    fn is_answered(&self) -> bool
        ensures { result ≡ is_answered self.now.session.phase self.now.counts.stage (count_unanswered (past_of self.now.session.work)) }
    {
        match self.session.phase() {
            Phase::Open => self.counts.stage >= 1 && self.session.unanswered() == 0,
            _ => false,
        }
    }
}
