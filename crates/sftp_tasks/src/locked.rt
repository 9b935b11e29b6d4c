//! The value that the lock protects, and each call of its session.
ghost use Rattle.std.specs.Prelude.{◌≡◌, ◌≤◌, ◌+◌, IfOk, IfErr, OnOk};
ghost use Rattle.sftp_lanes.specs.Events.{CancelsIn, StepsIn};
ghost use Rattle.sftp_tasks.specs.SessionEvents.{GivesUp, KeepsFault, LetsLaneGoIn, MayTakeCalls, RefusesCall};
ghost use Rattle.sftp_tasks.specs.Phases.{phase_number};

use session_driver::{Phase, RunsLanes, Stepped};
use session_model::Entry;
use session_seats::{Held, Tide};
use sftp_lanes::Session;
use sftp_model::{Error, Fault};
use ssh_encoding::OutOfMemory;

/// The numbers of the locked session that never fall: the frames that were handed out, those of them that were written
/// whole, the frames that were taken, and the stage of the end.
///
/// Used in `crates/sftp_tasks/src/frames.rt`.
#[derive(Clone, Copy)]
pub struct LockedCounts {
    pub handed: u64,
    pub written: u64,
    pub taken: u64,
    pub stage: u64,
}

/// The session, the counts of its frames with the stage of its end, its users, and how many lanes have a seat.
///
/// Used in `crates/sftp_tasks/src/report.rt`.
#[derive(Drop)]
pub struct Locked {
    pub(crate) session: Session,
    pub(crate) counts: LockedCounts,
    pub(crate) users: u64,
    pub(crate) seated: u32,
    ghost counted: { users ≤ seated + 1 },
}

impl Held for Locked {
    ghost use Rattle.sftp_tasks.specs.Shows.{shown_of};

    ghost shown = { shown_of };

    fn entries(&self) -> &[Entry] {
        self.session.journal()
    }

    fn tide(&self) -> Tide {
        Tide {
            written: self.counts.written,
            stage: self.counts.stage,
            phase: phase_number(self.session.phase()),
        }
    }

    fn users(&self) -> u64 {
        self.users
    }

    fn seat_lane(&mut self) -> Option<u32> {
        if self.seated >= self.session.lane_count() {
            return None;
        }
        let lane = self.seated;
        self.seated += 1;
        self.users += 1;
        Some(lane)
    }

    fn leave(&mut self) -> bool {
        self.users -= 1;
        if self.users == 0 {
            self.counts.stage = 1;
            return true;
        }
        false
    }
}

/// Returns the number of a phase: it rises as the session opens, and is the last one once the session has failed.
fn phase_number(phase: Phase) -> u64
    ensures { result ≡ phase_number phase }
{
    match phase {
        Phase::Fresh => 0,
        Phase::Greeted => 1,
        Phase::Asking => 2,
        Phase::Queried => 3,
        Phase::Open => 4,
        Phase::Failed => 5,
    }
}

impl Locked {
    /// Makes one step of a lane; before the session is open it does nothing.
    ///
    /// # Errors
    ///
    /// `BackgroundTaskFailure` if a fault is recorded; nothing has changed then. `OutOfMemory` if an allocation fails,
    /// and always from then on.
    pub fn step(&mut self, lane: u32) -> Result<Stepped, Error>
        ensures rest { self.new ≡ record self.old { session = self.new.session } }
        ensures steps { IfOk result (λ event. StepsIn self.old.session.phase lane self.old.session self.new.session event) }
        ensures unfailed { OnOk result (MayTakeCalls self.old.session) }
        ensures refused { IfErr result (λ e. RefusesCall e self.old.session self.new.session) }
    {
        // No `?`: it converts the error, and `refused` is about the error itself.
        match self.check() {
            Ok(()) => {}
            Err(e) => return Err(e),
        }
        match self.session.step(lane) {
            Ok(event) => Ok(event),
            Err(OutOfMemory) => Err(Error::OutOfMemory),
        }
    }

    /// Cancels the call of a lane that was started. Returns true if it was: none is before the session is open.
    ///
    /// # Errors
    ///
    /// Those of `step`.
    pub fn cancel(&mut self, lane: u32) -> Result<bool, Error>
        ensures rest { self.new ≡ record self.old { session = self.new.session } }
        ensures cancels { IfOk result (λ event. CancelsIn self.old.session.phase lane self.old.session self.new.session event) }
        ensures unfailed { OnOk result (MayTakeCalls self.old.session) }
        ensures refused { IfErr result (λ e. RefusesCall e self.old.session self.new.session) }
    {
        // No `?`: it converts the error, and `refused` is about the error itself.
        match self.check() {
            Ok(()) => {}
            Err(e) => return Err(e),
        }
        match self.session.cancel(lane) {
            Ok(event) => Ok(event),
            Err(OutOfMemory) => Err(Error::OutOfMemory),
        }
    }

    /// Releases all that the slots of a lane hold, once its calls have ended. Returns false if one has not; nothing
    /// changes then.
    ///
    /// # Errors
    ///
    /// Those of `step`.
    pub fn let_go(&mut self, lane: u32) -> Result<bool, Error>
        ensures rest { self.new ≡ record self.old { session = self.new.session } }
        ensures lets_go { IfOk result (λ event. LetsLaneGoIn lane self.old.session self.new.session event) }
        ensures unfailed { OnOk result (MayTakeCalls self.old.session) }
        ensures refused { IfErr result (λ e. RefusesCall e self.old.session self.new.session) }
    {
        // No `?`: it converts the error, and `refused` is about the error itself.
        match self.check() {
            Ok(()) => {}
            Err(e) => return Err(e),
        }
        if !self.session.is_done(lane) {
            return Ok(false);
        }
        if self.session.was_let_go(lane) {
            return Ok(true);
        }
        match self.session.let_go(lane) {
            Ok(()) => Ok(true),
            Err(OutOfMemory) => Err(Error::OutOfMemory),
        }
    }

    /// Records a fault as the session's first, also as an entry of the journal.
    ///
    /// # Errors
    ///
    /// `BackgroundTaskFailure` with the fault that is already recorded, if there is one; nothing has changed then.
    pub fn fail(&mut self, fault: Fault) -> Result<(), Error>
        ensures rest { self.new ≡ record self.old { session = self.new.session } }
        ensures keeps { KeepsFault fault self.old.session self.new.session result }
    {
        if let Some(first) = self.session.fault() {
            return Err(Error::BackgroundTaskFailure(first));
        }
        self.session.fail(fault);
        Ok(())
    }

    /// Makes each later call of the lanes return `OutOfMemory`, as when a link ran out of memory. Nothing is added to
    /// the journal.
    pub fn give_up(&mut self)
        ensures rest { self.new ≡ record self.old { session = self.new.session } }
        ensures gives_up { GivesUp self.old.session self.new.session }
    {
        self.session.give_up();
    }
}
