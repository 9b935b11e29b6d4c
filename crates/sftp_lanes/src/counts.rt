//! Numbers that a session reports, also of the calls of its lanes, in every phase.
ghost use Rattle.std.specs.Prelude.{◌≡◌, ◌≢◌, ◌↔◌, None, IsTrue, nat_lt};
ghost use Rattle.sftp_core.specs.Core.{awaited_of, queued_of, unanswered_of};
ghost use Rattle.session_model.specs.Calls.{current};
ghost use Rattle.session_driver.specs.declared.session.Phase.TheVariants as phases;
ghost use Rattle.sftp_lanes.specs.Counts.{awaited_in, unanswered_in, unsent_in};
ghost use Rattle.sftp_lanes.specs.Seen.{setting_at};
ghost use Rattle.session_work.specs.Working.{past_of};

use crate::session::Session;

impl Session {
    /// Returns true if the lane has no calls left or does not exist.
    pub fn is_done(&self, lane: u32) -> bool
        ensures { IsTrue result ↔ (current (setting_at self.now) (past_of self.now.work) lane ≡ None) }
    {
        self.work.is_done(lane)
    }

    /// Returns true if more frames are unsent than the options allow, the hello included.
    pub fn wants_flush(&self) -> bool
        ensures core { result ≡ nat_lt self.now.options.max_pending_requests (queued_of self.now.work.core) }
        ensures journal { self.now.phase ≢ phases.Failed → result ≡ nat_lt self.now.options.max_pending_requests (unsent_in self.now.phase (past_of self.now.work)) }
    {
        self.unsent() > u32::from(self.options.get_max_pending_requests())
    }

    /// Returns how many frames are unsent, the hello included: those that are handed out next.
    pub fn unsent(&self) -> u32
        ensures core { result ≡ queued_of self.now.work.core }
        ensures journal { self.now.phase ≢ phases.Failed → result ≡ unsent_in self.now.phase (past_of self.now.work) }
    {
        self.work.core.queued()
    }

    /// Returns how many frames were handed out and have no reply, the hello included.
    pub fn awaited(&self) -> u32
        ensures core { result ≡ awaited_of self.now.work.core }
        ensures journal { self.now.phase ≢ phases.Failed → result ≡ awaited_in self.now.phase (past_of self.now.work) }
    {
        self.work.core.awaited()
    }

    /// Returns how many frames have no reply, handed out or not, the hello included.
    pub fn unanswered(&self) -> u32
        ensures core { result ≡ unanswered_of self.now.work.core }
        ensures journal { self.now.phase ≢ phases.Failed → result ≡ unanswered_in self.now.phase (past_of self.now.work) }
    {
        self.work.core.unanswered()
    }
}
