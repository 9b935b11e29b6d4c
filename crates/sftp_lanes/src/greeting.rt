//! The opening of a session: the hello and its VERSION, and the query for limits.
ghost use Rattle.std.specs.Prelude.{◌≡◌, IfOk, IfErr, OnErr, OnOk};
ghost use Rattle.sftp_core.specs.Pieces.{chunk_bytes, HasFrames};
ghost use Rattle.sftp_core.specs.Take.{IsFirst};
ghost use Rattle.session_model.specs.Readings.{unsent_bytes};
ghost use Rattle.session_model.specs.Shown.{hello_frame};
ghost use Rattle.session_driver.specs.declared.session.Phase.TheVariants as phases;
ghost use Rattle.session_driver.specs.Refusals.{refuses, refuses_hello};
ghost use Rattle.sftp_lanes.specs.Events.{HandsHello, HandsQuery, HasFailed, IsRefused, TakesLimits, TakesVersion};
ghost use Rattle.session_work.specs.Working.{past_of};

use crate::server_report::{offers_limits, query_entry, tell};
use crate::session::Session;
use session_driver::Phase;
use session_model::{Entry, Event};
use sftp_core::{Chunk, TakeError, Taken};
use sftp_model::{FrameError, Reply};
use ssh_encoding::OutOfMemory;

impl Session {
    /// Hands the hello out. Fails if an allocation fails.
    pub(crate) fn hand_hello(&mut self) -> Result<Chunk, OutOfMemory>
        requires fresh { self.old.phase ≡ phases.Fresh }
        ensures hello { IfOk result (λ chunk. chunk_bytes chunk ≡ hello_frame) }
        ensures frames { IfOk result (λ chunk. HasFrames chunk self.old.work.core.queue) }
        ensures hands { OnOk result (HandsHello self.old self.new) }
        ensures left { OnErr result (HasFailed self.old self.new) }
    {
        match self.work.core.hand_out() {
            Ok(chunk) => {
                self.phase = Phase::Greeted;
                Ok(chunk)
            }
            Err(e) => {
                self.phase = Phase::Failed;
                Err(e)
            }
        }
    }

    /// Takes what was read of VERSION. Returns true if the limits are to be asked for. Fails with the first thing that is
    /// wrong with it, which is recorded, or if an allocation fails.
    pub(crate) fn take_hello(
        &mut self,
        read: Result<(Option<u32>, Reply), FrameError>,
    ) -> Result<bool, TakeError>
        requires greeted { self.old.phase ≡ phases.Greeted }
        ensures takes { IfOk result (λ asks. TakesVersion read asks self.old self.new) }
        ensures refused { IfErr result (λ e. IsFirst e (refuses_hello read)) }
        ensures kept { IfErr result (λ e. IsRefused e self.old self.new) }
    {
        match self.work.take_frame(read) {
            Ok(Taken::Version(reply)) => {
                if offers_limits(&reply) {
                    self.work.journal.push(query_entry()).unwrap();
                    self.work.asked += 1;
                    self.phase = Phase::Asking;
                    self.version = Some(reply);
                    return Ok(true);
                }
                self.info = tell(&mut self.work, &self.options);
                self.phase = Phase::Open;
                self.version = Some(reply);
                Ok(false)
            }
            Ok(_) => unreachable!(),
            Err(e) => {
                self.phase = Phase::Failed;
                Err(e)
            }
        }
    }

    /// Refuses a frame that comes while the query for limits is unsent, since none may come then. The error is the
    /// first thing that is wrong with it, which is recorded, or `OutOfMemory` if an allocation fails.
    pub(crate) fn refuse_reply(
        &mut self,
        read: Result<(Option<u32>, Reply), FrameError>,
    ) -> TakeError
        requires asking { self.old.phase ≡ phases.Asking }
        ensures refused { IsFirst result (refuses (past_of self.old.work) read) }
        ensures kept { IsRefused result self.old self.new }
    {
        match self.work.take_frame(read) {
            Ok(_) => unreachable!(),
            Err(e) => {
                self.phase = Phase::Failed;
                e
            }
        }
    }

    /// Hands the query for limits out. Fails if an allocation fails.
    pub(crate) fn hand_query(&mut self) -> Result<Chunk, OutOfMemory>
        requires asking { self.old.phase ≡ phases.Asking }
        ensures query { IfOk result (λ chunk. chunk_bytes chunk ≡ unsent_bytes (past_of self.old.work)) }
        ensures frames { IfOk result (λ chunk. HasFrames chunk self.old.work.core.queue) }
        ensures hands { OnOk result (HandsQuery self.old self.new) }
        ensures left { OnErr result (HasFailed self.old self.new) }
    {
        if self.work.journal.reserve(2).is_err() {
            self.phase = Phase::Failed;
            return Err(OutOfMemory);
        }
        match self.work.core.hand_out() {
            Ok(chunk) => {
                self.work.journal.push(Entry::Event(Event::Send)).unwrap();
                self.phase = Phase::Queried;
                Ok(chunk)
            }
            Err(e) => {
                self.phase = Phase::Failed;
                Err(e)
            }
        }
    }

    /// Takes what was read of the reply to the query for limits. Fails with the first thing that is wrong with it, which is
    /// recorded, or if an allocation fails.
    pub(crate) fn take_told(
        &mut self,
        read: Result<(Option<u32>, Reply), FrameError>,
    ) -> Result<(), TakeError>
        requires queried { self.old.phase ≡ phases.Queried }
        ensures takes { OnOk result (TakesLimits read self.old self.new) }
        ensures refused { IfErr result (λ e. IsFirst e (refuses (past_of self.old.work) read)) }
        ensures kept { IfErr result (λ e. IsRefused e self.old self.new) }
    {
        match self.work.take_frame(read) {
            Ok(Taken::Limits { id, reply }) => {
                self.info = tell(&mut self.work, &self.options);
                self.work
                    .journal
                    .push(Entry::Event(Event::Take { id, reply }))
                    .unwrap();
                self.phase = Phase::Open;
                Ok(())
            }
            Ok(_) => unreachable!(),
            Err(e) => {
                self.phase = Phase::Failed;
                Err(e)
            }
        }
    }
}
