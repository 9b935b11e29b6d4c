//! Sessions that run lanes, as the driver uses them.
ghost use Rattle.std.specs.Prelude.{◌≡◌, ◌≢◌, ◌<◌, ◌↔◌, false, None, IsTrue, IfOk, IfErr, OnErr, OnOk, length};
ghost use Rattle.std.specs.Option.{option_map};
ghost use Rattle.sftp_model.specs.ReplyReadings.{reply_at};
ghost use Rattle.session_model.specs.Calls.{current, move_of};
ghost use Rattle.session_model.specs.Readings.{count_awaited, count_unanswered, unsent_bytes, was_let_go};
ghost use Rattle.session_model.specs.Shown.{hello_frame};
ghost use Rattle.session_model.specs.Turns.{is_full};
ghost use Rattle.session_driver.specs.Session.{SessionView, ContinuesJournal, HasRefused, IsUnmoved, StaysInPhase, IsLater, HasTakenVersion, HasTakenLimits, StepsTo, CancelsCall, TakesAndSettles, HandsOut, LetsGo, IsGreeted, IsQueried, is_event, LessBy, at_rest};
ghost use Rattle.sftp_core.specs.Pieces.{chunk_bytes};
ghost use Rattle.sftp_core.specs.Take.{IsFirst};
ghost use Rattle.session_driver.specs.Refusals.{refuses, refuses_hello};

use sftp_core::{Chunk, TakeError};
use ssh_encoding::OutOfMemory;

/// The phase of a session's opening.
///
/// Used in `crates/sftp_tasks/src/locked.rt`.
#[derive(Clone, Copy, Debug, PartialEq, Eq)]
pub enum Phase {
    /// The hello is in the queue.
    Fresh,
    /// The hello was handed out, and VERSION is awaited.
    Greeted,
    /// VERSION was taken, and the query for limits is in the queue.
    Asking,
    /// The query for limits was handed out, and its reply is awaited.
    Queried,
    /// Lanes may be stepped.
    Open,
    /// A frame was refused, and the session can't be used any more.
    Failed,
}

/// The kind of one step of a lane.
///
/// Used in `crates/session_work/src/journal.rt`.
#[derive(Clone, Copy, Debug, PartialEq, Eq)]
pub enum Stepped {
    /// The lane has no call left, or its call waits for a reply.
    Nothing,
    /// A request was submitted.
    Submitted,
    /// The call ended.
    Ended,
}

/// A session that runs lanes, as the driver needs it. It keeps a journal, and closes each handle as soon as nothing
/// holds it any more.
///
/// Used in `crates/sftp_lanes/src/session.rt`.
pub trait RunsLanes {
    // The view of the session.
    ghost seen: { Self → SessionView };

    /// Returns the frame of the hello.
    ///
    /// # Errors
    ///
    /// `OutOfMemory` if an allocation fails; the journal, the setting and VERSION are unchanged.
    fn greet(&mut self) -> Result<Chunk, OutOfMemory>
        requires fresh { (seen self.old).phase ≡ Phase.Fresh }
        ensures ok { IfOk result (λ chunk. chunk_bytes chunk ≡ hello_frame) }
        ensures now { OnOk result (IsGreeted (seen self.old) (seen self.new)) }
        ensures left { OnErr result (IsUnmoved (seen self.old) (seen self.new)) };

    /// Takes the body of VERSION. Returns true if the limits are to be asked for.
    ///
    /// # Errors
    ///
    /// The first thing that is wrong with the body, or `OutOfMemory` if an allocation fails. The journal is unchanged
    /// or has the recorded fault.
    fn take_version(&mut self, body: &[u8]) -> Result<bool, TakeError>
        requires greeted { (seen self.old).phase ≡ Phase.Greeted }
        requires rest { (seen self.old).progress ≡ at_rest }
        ensures ok { IfOk result (λ asks. HasTakenVersion (reply_at body.now) (seen self.old).given asks (seen self.new)) }
        ensures refused { IfErr result (λ e. IsFirst e (refuses_hello (reply_at body.now))) }
        ensures left { IfErr result (λ e. HasRefused e (seen self.old) (seen self.new)) };

    /// Returns the frame of the query for limits.
    ///
    /// # Errors
    ///
    /// `OutOfMemory` if an allocation fails; the journal, the setting and VERSION are unchanged.
    fn query(&mut self) -> Result<Chunk, OutOfMemory>
        requires asking { (seen self.old).phase ≡ Phase.Asking }
        ensures ok { IfOk result (λ chunk. chunk_bytes chunk ≡ unsent_bytes (seen self.old).progress.past) }
        ensures now { OnOk result (IsQueried (seen self.old) (seen self.new)) }
        ensures later { OnOk result (IsLater (seen self.new).setting (seen self.old).progress.past (seen self.new).progress.past) }
        ensures left { OnErr result (IsUnmoved (seen self.old) (seen self.new)) };

    /// Takes the body of the reply to the query for limits.
    ///
    /// # Errors
    ///
    /// The first thing that is wrong with the body, or `OutOfMemory` if an allocation fails. The journal is unchanged
    /// or has the recorded fault.
    fn take_limits(&mut self, body: &[u8]) -> Result<(), TakeError>
        requires queried { (seen self.old).phase ≡ Phase.Queried }
        ensures ok { OnOk result (HasTakenLimits (reply_at body.now) (seen self.old) (seen self.new)) }
        ensures refused { IfErr result (λ e. IsFirst e (refuses (seen self.old).progress.past (reply_at body.now))) }
        ensures given { (seen self.new).given ≡ (seen self.old).given }
        ensures version { (seen self.new).version ≡ (seen self.old).version }
        ensures left { IfErr result (λ e. HasRefused e (seen self.old) (seen self.new)) };

    /// Makes one step of a lane: its call's next request, or its end, or nothing.
    ///
    /// # Errors
    ///
    /// `OutOfMemory` if an allocation fails; the journal, the setting and VERSION are unchanged.
    fn step(&mut self, lane: u32) -> Result<Stepped, OutOfMemory>
        requires open { (seen self.old).phase ≡ Phase.Open }
        ensures ok { IfOk result (λ event. StepsTo (seen self.old).setting lane (seen self.old).progress (seen self.new).progress
            (move_of (seen self.old).setting (seen self.old).progress.past lane) event) }
        ensures goes { OnOk result (ContinuesJournal (seen self.old) (seen self.new)) }
        ensures work { IfOk result (λ event. LessBy (is_event event) (seen self.old).work (seen self.new).work) }
        ensures waits { IfOk result (λ event. is_event event ≡ false
            → current (seen self.old).setting (seen self.old).progress.past lane ≢ None → 0 < count_unanswered (seen self.new).progress.past) }
        ensures left { OnErr result (IsUnmoved (seen self.old) (seen self.new)) };

    /// Cancels the call of a lane that was started. Returns true if it was.
    ///
    /// # Errors
    ///
    /// `OutOfMemory` if an allocation fails; the journal, the setting and VERSION are unchanged.
    fn cancel(&mut self, lane: u32) -> Result<bool, OutOfMemory>
        requires open { (seen self.old).phase ≡ Phase.Open }
        ensures ok { IfOk result (λ event. CancelsCall (seen self.old).setting lane (seen self.old).progress (seen self.new).progress event) }
        ensures goes { OnOk result (ContinuesJournal (seen self.old) (seen self.new)) }
        ensures left { OnErr result (IsUnmoved (seen self.old) (seen self.new)) };

    /// Releases all that the slots of a lane hold, if the lane exists.
    ///
    /// # Errors
    ///
    /// `OutOfMemory` if an allocation fails; the journal, the setting and VERSION are unchanged.
    fn let_go(&mut self, lane: u32) -> Result<(), OutOfMemory>
        requires open { (seen self.old).phase ≡ Phase.Open }
        requires done { current (seen self.old).setting (seen self.old).progress.past lane ≡ None }
        requires holds { was_let_go (seen self.old).progress.past lane ≡ false }
        ensures ok { OnOk result (LetsGo (seen self.old).setting lane (seen self.old).progress (seen self.new).progress) }
        ensures goes { OnOk result (ContinuesJournal (seen self.old) (seen self.new)) }
        ensures left { OnErr result (IsUnmoved (seen self.old) (seen self.new)) };

    /// Returns the frames of all unsent requests, or `None` if nothing is unsent.
    ///
    /// # Errors
    ///
    /// `OutOfMemory` if an allocation fails; the journal, the setting and VERSION are unchanged.
    fn hand_out(&mut self) -> Result<Option<Chunk>, OutOfMemory>
        requires open { (seen self.old).phase ≡ Phase.Open }
        ensures ok { IfOk result (λ chunk. HandsOut (seen self.old).setting (seen self.old).progress (option_map chunk_bytes chunk) (seen self.new).progress) }
        ensures stays { OnOk result (StaysInPhase (seen self.old) (seen self.new)) }
        ensures work { OnOk result ((seen self.new).work ≡ (seen self.old).work) }
        ensures left { OnErr result (IsUnmoved (seen self.old) (seen self.new)) };

    /// Takes back a chunk whose frames were sent.
    fn give_back(&mut self, chunk: Chunk)
        ensures same { seen self.new ≡ seen self.old };

    /// Takes the body of one frame.
    ///
    /// # Errors
    ///
    /// The first thing that is wrong with the body, or `OutOfMemory` if an allocation fails. The journal is unchanged
    /// or has the recorded fault.
    fn take(&mut self, body: &[u8]) -> Result<(), TakeError>
        requires open { (seen self.old).phase ≡ Phase.Open }
        ensures ok { OnOk result (TakesAndSettles (seen self.old).setting (reply_at body.now) (seen self.old).progress (seen self.new).progress) }
        ensures goes { OnOk result (ContinuesJournal (seen self.old) (seen self.new)) }
        ensures work { OnOk result ((seen self.new).work < (seen self.old).work) }
        ensures refused { IfErr result (λ e. IsFirst e (refuses (seen self.old).progress.past (reply_at body.now))) }
        ensures left { IfErr result (λ e. HasRefused e (seen self.old) (seen self.new)) };

    /// Returns true if more requests are unsent than allowed.
    fn wants_flush(&self) -> bool
        requires open { (seen self.now).phase ≡ Phase.Open }
        ensures { result ≡ is_full (seen self.now).setting (seen self.now).progress.past };

    /// Returns how many sent requests have no reply.
    fn awaited(&self) -> u32
        requires open { (seen self.now).phase ≡ Phase.Open }
        ensures { result ≡ count_awaited (seen self.now).progress.past };

    /// Returns how many requests have no reply.
    fn unanswered(&self) -> u32
        requires open { (seen self.now).phase ≡ Phase.Open }
        ensures { result ≡ count_unanswered (seen self.now).progress.past };

    /// Returns how many lanes there are.
    fn lane_count(&self) -> u32
        ensures { result ≡ length (seen self.now).setting.lanes };

    /// Returns true if a lane has no call left.
    fn is_done(&self, lane: u32) -> bool
        requires open { (seen self.now).phase ≡ Phase.Open }
        ensures { IsTrue result ↔ (current (seen self.now).setting (seen self.now).progress.past lane ≡ None) };
}
