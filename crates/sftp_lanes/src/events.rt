//! Calls of a session's lanes, and the frames that it hands out and takes in each phase.
ghost use Rattle.std.specs.Prelude.{◌≡◌, None, IfOk, IfErr, IfSome, MatchBool, OnErr, OnOk, false, length, nat_lt, true};
ghost use Rattle.std.specs.Option.{option_map};
ghost use Rattle.sftp_core.specs.Pieces.{chunk_bytes, HasFrames};
ghost use Rattle.sftp_core.specs.Take.{IsFirst};
ghost use Rattle.sftp_model.specs.ReplyReadings.{reply_at};
ghost use Rattle.session_model.specs.Calls.{current};
ghost use Rattle.session_model.specs.Readings.{was_let_go};
ghost use Rattle.session_driver.specs.Refusals.{refuses};
ghost use Rattle.session_driver.specs.declared.session.Phase.TheVariants as phases;
ghost use Rattle.sftp_lanes.specs.Events.{CancelsIn, LanesDid, HandsOutIn, HasFailed, IsRefused, LetsGoIn, LetsIdleGo, StepsIn, TakesIn, first_wrong, takes_frames, takes_memory};
ghost use Rattle.sftp_lanes.specs.Seen.{is_opening, setting_at};
ghost use Rattle.session_work.specs.Working.{HandsAll, TakesBody, past_of};

use crate::session::Session;
use session_driver::{Phase, Stepped};
use sftp_core::{Chunk, TakeError};
use sftp_model::{FrameError, Reply};
use sftp_wire::read_reply;
use ssh_encoding::OutOfMemory;

/// Returns the result of a call of the lanes; after an error, the session has failed.
pub(crate) fn keep<T, E>(phase: &mut Phase, answer: Result<T, E>) -> Result<T, E>
    ensures answer { result ≡ answer }
    ensures ok { OnOk answer (phase.new ≡ phase.old) }
    ensures err { OnErr answer (phase.new ≡ phases.Failed) }
{
    if answer.is_err() {
        *phase = Phase::Failed;
    }
    answer
}

impl Session {
    /// Makes one step of a lane: its call's next request, or its end, or nothing, as before the session is open.
    ///
    /// # Errors
    ///
    /// `OutOfMemory` if an allocation fails: the calls and the journal are unchanged then, and each later call fails in
    /// the same way.
    pub fn step(&mut self, lane: u32) -> Result<Stepped, OutOfMemory>
        ensures steps { IfOk result (λ event. StepsIn self.old.phase lane self.old self.new event) }
        ensures left { OnErr result (HasFailed self.old self.new) }
        ensures opened { OnErr result (is_opening self.old.phase ≡ false) }
    {
        match self.phase {
            Phase::Open => {
                let stepped = self.work.step(self.alloc, lane);
                keep(&mut self.phase, stepped)
            }
            Phase::Failed => Err(OutOfMemory),
            _ => Ok(Stepped::Nothing),
        }
    }

    /// Cancels the call of a lane that was started. Returns true if it was.
    ///
    /// # Errors
    ///
    /// `OutOfMemory` if an allocation fails: the calls and the journal are unchanged then, and each later call fails in
    /// the same way.
    pub fn cancel(&mut self, lane: u32) -> Result<bool, OutOfMemory>
        ensures cancels { IfOk result (λ event. CancelsIn self.old.phase lane self.old self.new event) }
        ensures left { OnErr result (HasFailed self.old self.new) }
        ensures opened { OnErr result (is_opening self.old.phase ≡ false) }
    {
        match self.phase {
            Phase::Open => {
                let cancelled = self.work.cancel(self.alloc, lane);
                keep(&mut self.phase, cancelled)
            }
            Phase::Failed => Err(OutOfMemory),
            _ => Ok(false),
        }
    }

    /// Releases all that the slots of a lane hold, if the lane exists. The lane has no call left and was not released.
    ///
    /// # Errors
    ///
    /// `OutOfMemory` if an allocation fails: the calls and the journal are unchanged then, and each later call fails in
    /// the same way.
    pub fn let_go(&mut self, lane: u32) -> Result<(), OutOfMemory>
        requires done { current (setting_at self.old) (past_of self.old.work) lane ≡ None }
        requires held { was_let_go (past_of self.old.work) lane ≡ false }
        ensures lets_go { OnOk result (LetsGoIn self.old.phase lane self.old self.new) }
        ensures left { OnErr result (HasFailed self.old self.new) }
    {
        match self.phase {
            Phase::Open => {
                let gone = self.work.let_go(self.alloc, lane);
                keep(&mut self.phase, gone)
            }
            Phase::Failed => Err(OutOfMemory),
            _ => self.let_idle_go(lane),
        }
    }

    /// Records the release of a lane before the session is open, if the lane exists: it holds nothing. Fails if an
    /// allocation fails.
    fn let_idle_go(&mut self, lane: u32) -> Result<(), OutOfMemory>
        requires opens { is_opening self.old.phase ≡ true }
        requires done { current (setting_at self.old) (past_of self.old.work) lane ≡ None }
        requires held { was_let_go (past_of self.old.work) lane ≡ false }
        ensures lets_go { OnOk result (MatchBool (nat_lt lane (length self.old.lanes)) (LetsIdleGo lane self.old self.new) (self.new ≡ self.old)) }
        ensures left { OnErr result (HasFailed self.old self.new) }
    {
        if lane >= self.lanes.count() {
            return Ok(());
        }
        let gone = self.work.let_idle_go(lane);
        keep(&mut self.phase, gone)
    }

    /// Returns the frames of all unsent requests of an open session. Fails if an allocation fails.
    pub(crate) fn hand_out_unsent(&mut self) -> Result<Option<Chunk>, OutOfMemory>
        requires open { self.old.phase ≡ phases.Open }
        ensures hands_out { IfOk result (λ chunk. LanesDid (λ s before after. HandsAll s before after (option_map chunk_bytes chunk)) self.old self.new) }
        ensures frames { IfOk result (λ chunk. IfSome chunk (λ c. HasFrames c self.old.work.core.queue)) }
        ensures left { OnErr result (HasFailed self.old self.new) }
    {
        let chunk = self.work.hand_out();
        keep(&mut self.phase, chunk)
    }

    /// Takes what was read of a frame into an open session. Fails with the first thing that is wrong with it, which is
    /// recorded, or if an allocation fails.
    pub(crate) fn take_reply(
        &mut self,
        read: Result<(Option<u32>, Reply), FrameError>,
    ) -> Result<(), TakeError>
        requires open { self.old.phase ≡ phases.Open }
        ensures takes { OnOk result (LanesDid (λ s before after. TakesBody s read before after) self.old self.new) }
        ensures refused { IfErr result (λ e. IsFirst e (refuses (past_of self.old.work) read)) }
        ensures kept { IfErr result (λ e. IsRefused e self.old self.new) }
    {
        let taken = self.work.take(read);
        keep(&mut self.phase, taken)
    }
}

impl Session {
    /// Returns the frames to send next: the hello, then the query for limits if the server offers them, and then those
    /// of all unsent requests. Returns `None` if nothing is unsent, and while VERSION or the limits are awaited.
    ///
    /// # Errors
    ///
    /// `OutOfMemory` if an allocation fails: the calls and the journal are unchanged then, and each later call fails in
    /// the same way.
    pub fn hand_out(&mut self) -> Result<Option<Chunk>, OutOfMemory>
        ensures hands_out { IfOk result (λ chunk. HandsOutIn self.old.phase self.old self.new (option_map chunk_bytes chunk)) }
        ensures frames { IfOk result (λ chunk. IfSome chunk (λ c. HasFrames c self.old.work.core.queue)) }
        ensures left { OnErr result (HasFailed self.old self.new) }
        ensures some { OnErr result (takes_memory self.old.phase ≡ true) }
    {
        // No `?`: these are tail calls, and at its exit `left` and `some` would be left to show.
        match self.phase {
            Phase::Fresh => match self.hand_hello() {
                Ok(chunk) => Ok(Some(chunk)),
                Err(e) => Err(e),
            },
            Phase::Greeted => Ok(None),
            Phase::Asking => match self.hand_query() {
                Ok(chunk) => Ok(Some(chunk)),
                Err(e) => Err(e),
            },
            Phase::Queried => Ok(None),
            Phase::Open => self.hand_out_unsent(),
            Phase::Failed => Err(OutOfMemory),
        }
    }

    /// Takes back a chunk that was handed out, so that its memory is used for the next one. It changes nothing else.
    pub fn give_back(&mut self, chunk: Chunk)
        ensures { self.new ≡ self.old }
    {
        self.work.core.give_back(chunk);
    }

    /// Takes the body of a frame that came, as `take_read` takes what `read_reply` returns for it.
    ///
    /// # Errors
    ///
    /// Those of `take_read`.
    pub fn take(&mut self, body: &[u8]) -> Result<(), TakeError>
        requires unfailed { self.old.work.core.fault ≡ None }
        requires sent { takes_frames self.old.phase ≡ true }
        ensures takes { OnOk result (TakesIn self.old.phase (reply_at body.now) self.old self.new) }
        ensures refused { IfErr result (λ e. IsFirst e (first_wrong self.old.phase (past_of self.old.work) (reply_at body.now))) }
        ensures kept { IfErr result (λ e. IsRefused e self.old self.new) }
    {
        let read = read_reply(self.alloc, body);
        self.take_read(read)
    }

    /// Takes what `read_reply` returned for the body of a frame that came: VERSION, then the reply to the query for
    /// limits if it was made, and then the replies to requests. While the query is in the queue each frame is refused.
    /// So a frame can be read while others use the session.
    ///
    /// # Errors
    ///
    /// The first thing that is wrong with the frame, which is recorded, or `OutOfMemory` if an allocation fails or
    /// failed while the frame was read. After `OutOfMemory` each later call fails in the same way.
    pub fn take_read(
        &mut self,
        read: Result<(Option<u32>, Reply), FrameError>,
    ) -> Result<(), TakeError>
        requires unfailed { self.old.work.core.fault ≡ None }
        requires sent { takes_frames self.old.phase ≡ true }
        ensures takes { OnOk result (TakesIn self.old.phase read self.old self.new) }
        ensures refused { IfErr result (λ e. IsFirst e (first_wrong self.old.phase (past_of self.old.work) read)) }
        ensures kept { IfErr result (λ e. IsRefused e self.old self.new) }
    {
        // No `?`: it converts the error, and `refused` and `kept` are about the error itself.
        match self.phase {
            Phase::Fresh => unreachable!(),
            Phase::Greeted => match self.take_hello(read) {
                Ok(_asks) => Ok(()),
                Err(e) => Err(e),
            },
            Phase::Asking => Err(self.refuse_reply(read)),
            Phase::Queried => self.take_told(read),
            Phase::Open => self.take_reply(read),
            Phase::Failed => Err(TakeError::OutOfMemory),
        }
    }

    /// Returns true if a frame may be taken: the hello was handed out. Before that, and while VERSION is awaited, none
    /// was reported.
    pub fn takes_frames(&self) -> bool
        ensures value { result ≡ takes_frames self.now.phase }
        ensures early { result ≡ false → self.now.version ≡ None }
        ensures untold { self.now.phase ≡ phases.Greeted → self.now.version ≡ None }
    {
        !matches!(self.phase, Phase::Fresh)
    }
}
