//! Sessions of lanes: the opening, and each call of the lanes.
ghost use Rattle.std.specs.Prelude.{◌≡◌, ◌≢◌, [], None, Some, true, IfOk, MatchBool, reverse, ◌<◌, ◌≤◌, false, length, OnErr, OnOk, vec_capacity};
ghost use Rattle.std.specs.Option.{unwrap_or};
ghost use Rattle.sftp_core.specs.Core.{failed_with};
ghost use Rattle.plan_model.specs.Lanes.{are_ok};
ghost use Rattle.session_model.specs.Readings.{outcomes_of as of_lane, was_let_go};
ghost use Rattle.session_model.specs.declared.entry.Entry.TheVariants as entry;
ghost use Rattle.session_model.specs.Grants.{next_due};
ghost use Rattle.session_model.specs.Journals.{IsJournal, IsNext};
ghost use Rattle.session_driver.specs.declared.session.Phase.TheVariants as phases;
ghost use Rattle.sftp_lanes.specs.Adding.{AddsCall, CanAdd, CannotAdd, IsSame};
ghost use Rattle.session_driver.specs.Adding.{with_call};
ghost use Rattle.session_driver.specs.Session.{IsFixed};
ghost use Rattle.sftp_lanes.specs.Seen.{HasCalls, IsNew, ReportsSession, given_of, is_opening, setting_at};
ghost use Rattle.session_work.specs.SoFar.{kept_in, kept_past};
ghost use Rattle.session_work.specs.Working.{past_of};

use crate::given::GivenLanes;
use crate::report::events_of;
use session_driver::{AddsCalls, Phase, RunsLanes, Stepped};
use session_model::{Call, Entry, Event, Lane, Outcome, Report};
use session_work::Lanes;
use sftp_core::{Chunk, Fault, Info, TakeError};
use sftp_model::{Reply, SftpOptions};
use sftp_values::Items;
use sftp_wire::read_reply;
use ssh_encoding::OutOfMemory;
use std::alloc::Global;
use std::marker::Model;

/// A session that runs the lanes that it was given, and the calls that are added to them. After an error of `step`,
/// `cancel`, `let_go`, `hand_out`, `take` or `take_read` no call of its lanes can be made any more, but it still
/// reports what happened. Its journal is a run so far in every phase, and has the recorded fault. When it is dropped,
/// it releases all that its lanes hold, and sends nothing.
///
/// Example: `crates/sftp_view/src/run.rt`.
#[derive(Drop)]
pub struct Session {
    pub(crate) alloc: Global,
    pub(crate) lanes: GivenLanes,
    pub(crate) options: SftpOptions,
    pub(crate) phase: Phase,
    pub(crate) version: Option<Reply>,
    pub(crate) info: Option<Info>,
    pub(crate) work: Lanes,
}

impl Model for Session {
    ghost use Rattle.std.specs.Coded.{codes};
    ghost use Rattle.session_work.specs.contracts.lanes.Lanes as of_lanes;
    ghost use Rattle.sftp_lanes.specs.Seen.{SessionValue, IsSession};

    ghost Value = { SessionValue };

    ghost coded = { Prim.hlevel (codes, of_lanes.the_row.coded) };

    ghost view = { λ s. record { lanes = s.lanes; options = s.options; phase = s.phase; version = s.version; info = s.info; work = s.work } };

    ghost invariant = { λ s. IsSession s.lanes s.options s.version s.info s.work s.phase };
}

impl Session {
    /// Returns a session with its hello in the queue.
    ///
    /// # Errors
    ///
    /// `OutOfMemory` if an allocation fails.
    pub fn new(alloc: Global, lanes: &[Lane], options: &SftpOptions) -> Result<Session, OutOfMemory>
        requires { are_ok lanes.now ≡ true }
        ensures { IfOk result (λ session. IsNew lanes.now options.now session) }
    {
        let work = Lanes::new(alloc, lanes, options)?;
        let given = GivenLanes::of(work.calls.as_items());
        Ok(Session {
            alloc,
            lanes: given,
            options: *options,
            phase: Phase::Fresh,
            version: None,
            info: None,
            work,
        })
    }

    /// Returns what VERSION and the limits reported of the server, or `None` before the session is open.
    pub fn info(&self) -> Option<Info>
        ensures value { result ≡ self.now.info }
        ensures told { self.now.phase ≡ phases.Open → result ≢ None }
        ensures untold { is_opening self.now.phase ≡ true → result ≡ None }
    {
        self.info
    }

    /// Returns the recorded fault, which is the first one. The journal has its entry exactly if one is recorded.
    pub fn fault(&self) -> Option<Fault>
        ensures value { result ≡ self.now.work.core.fault }
        ensures entry { result ≡ kept_in (past_of self.now.work) }
    {
        self.work.core.fault()
    }

    /// Returns the journal so far, the first entry first: a run so far in every phase, of the setting that VERSION and
    /// the limits fix. While the session is open, no grant is to be closed.
    pub fn journal(&self) -> &[Entry]
        ensures value { reverse result.now ≡ past_of self.now.work }
        ensures so_far { IsJournal (setting_at self.now) (past_of self.now.work) }
        ensures fixed { self.now.version ≢ None → IsFixed (given_of self.now) self.now.version (past_of self.now.work) (setting_at self.now) }
        ensures settled { self.now.phase ≡ phases.Open → next_due (setting_at self.now) (past_of self.now.work) ≡ None }
    {
        self.work.journal.as_slice()
    }

    /// Returns the outcomes of the calls of a lane that have ended, in their order; none if the lane doesn't exist.
    pub fn outcomes(&self, lane: u32) -> &[Outcome]
        ensures { result.now ≡ of_lane (past_of self.now.work) lane }
    {
        self.work.outcomes(lane)
    }

    /// Returns true if a lane was released.
    pub fn was_let_go(&self, lane: u32) -> bool
        ensures { result ≡ was_let_go (past_of self.now.work) lane }
    {
        self.work.was_let_go(lane)
    }

    /// Returns the phase of the session's opening.
    pub fn phase(&self) -> Phase
        ensures { result ≡ self.now.phase }
    {
        self.phase
    }

    /// Returns the calls of each lane: those that it was given, and then those that were added.
    pub fn calls(&self) -> &[Lane]
        ensures value { result.now ≡ self.now.work.calls }
        ensures each { HasCalls self.now.lanes self.now.work }
    {
        self.work.calls.as_slice()
    }

    /// Returns true if a call may be appended to those of a lane: the lane exists and was not released, and the lanes
    /// with the call are ones that a session can be given, as `lanes_ok` decides for them. Nothing is copied.
    pub fn can_add(&self, lane: u32, call: &Call) -> bool
        ensures { MatchBool result (CanAdd lane call.now self.now) (CannotAdd lane call.now self.now) }
    {
        if lane as usize >= self.calls().len() || self.was_let_go(lane) {
            return false;
        }
        self.work.calls.may_have(call)
    }

    /// Appends a call to those of an existing lane that was not released, and records it in the journal. Before the
    /// session is open the call waits for a later step. `can_add` returns true if a session can have its lanes with the
    /// call.
    ///
    /// # Errors
    ///
    /// `OutOfMemory` if an allocation fails, and always once the session has failed. Nothing has changed then, and the
    /// session continues.
    pub fn push_call(&mut self, lane: u32, call: Call) -> Result<(), OutOfMemory>
        requires there { lane < length self.old.work.calls }
        requires held { was_let_go (past_of self.old.work) lane ≡ false }
        requires ok { are_ok (with_call self.old.work.calls lane call) ≡ true }
        ensures adds { OnOk result (AddsCall lane call self.old self.new) }
        ensures left { OnErr result (IsSame self.old self.new) }
    {
        match self.phase {
            Phase::Failed => Err(OutOfMemory),
            _ => self.work.push_call(self.alloc, lane, call),
        }
    }

    /// Records a fault, also as the last entry of the journal; if one is recorded already, that one stays, and nothing
    /// is added. No call of the lanes can be made any more. No memory is allocated.
    pub fn fail(&mut self, fault: Fault)
        ensures rest { self.new ≡ record self.old {
          phase = phases.Failed;
          work = record self.old.work { core = failed_with self.old.work.core fault; journal = self.new.work.journal };
        } }
        ensures journal { past_of self.new.work ≡ kept_past self.old.work.core.fault fault (past_of self.old.work) }
        ensures next { self.old.work.core.fault ≡ None → IsNext (setting_at self.old) (past_of self.old.work) (entry.Kept fault) }
        ensures told { self.new.work.core.fault ≡ Some (unwrap_or self.old.work.core.fault fault) }
    {
        self.work.keep(fault);
        self.phase = Phase::Failed;
    }

    /// Fails the session for lack of memory, as when a link runs out of it: no call of the lanes can be made any more.
    /// Nothing is added to the journal.
    pub fn give_up(&mut self)
        ensures { self.new ≡ record self.old { phase = phases.Failed } }
    {
        self.phase = Phase::Failed;
    }

    /// Ends the session, and reports what it did. Nothing is sent.
    ///
    /// # Errors
    ///
    /// `OutOfMemory` if an allocation fails.
    pub fn into_report(self) -> Result<Report, OutOfMemory>
        ensures { IfOk result (λ report. ReportsSession self report) }
    {
        let trace = Vec::with_capacity(self.alloc, self.journal().len())?;
        Ok(self.report_into(trace))
    }

    /// Ends the session, and returns its journal, the first entry first. No memory is allocated. Nothing is sent.
    pub fn into_journal(self) -> Items<Entry>
        ensures { reverse result ≡ past_of self.work }
    {
        let Session {
            alloc: _,
            lanes: _,
            options: _,
            phase: _,
            version: _,
            info: _,
            work,
        } = self;
        let (journal, _outcomes) = work.into_told();
        Items::new(journal)
    }

    /// Ends the session, and reports what it did, with its events in an empty list that has room for the journal. No
    /// memory is allocated. Nothing is sent.
    pub fn report_into(self, trace: Vec<Event>) -> Report
        requires empty { trace.items ≡ [] }
        requires room { length (past_of self.work) ≤ vec_capacity trace }
        ensures { ReportsSession self result }
    {
        let Session {
            alloc: _,
            lanes: _,
            options: _,
            phase: _,
            version,
            info: _,
            work,
        } = self;
        let (journal, outcomes) = work.into_told();
        Report {
            hello: version,
            trace: events_of(journal, trace),
            outcomes,
        }
    }
}

impl RunsLanes for Session {
    ghost use Rattle.sftp_lanes.specs.Seen.{seen_of};

    ghost seen = { λ s. seen_of s };

    fn greet(&mut self) -> Result<Chunk, OutOfMemory> {
        self.hand_hello()
    }

    fn take_version(&mut self, body: &[u8]) -> Result<bool, TakeError> {
        let read = read_reply(self.alloc, body);
        self.take_hello(read)
    }

    fn query(&mut self) -> Result<Chunk, OutOfMemory> {
        self.hand_query()
    }

    fn take_limits(&mut self, body: &[u8]) -> Result<(), TakeError> {
        let read = read_reply(self.alloc, body);
        self.take_told(read)
    }

    fn step(&mut self, lane: u32) -> Result<Stepped, OutOfMemory> {
        self.step(lane)
    }

    fn cancel(&mut self, lane: u32) -> Result<bool, OutOfMemory> {
        self.cancel(lane)
    }

    fn let_go(&mut self, lane: u32) -> Result<(), OutOfMemory> {
        self.let_go(lane)
    }

    fn hand_out(&mut self) -> Result<Option<Chunk>, OutOfMemory> {
        self.hand_out_unsent()
    }

    fn give_back(&mut self, chunk: Chunk) {
        self.give_back(chunk);
    }

    fn take(&mut self, body: &[u8]) -> Result<(), TakeError> {
        let read = read_reply(self.alloc, body);
        self.take_reply(read)
    }

    fn wants_flush(&self) -> bool {
        self.wants_flush()
    }

    fn awaited(&self) -> u32 {
        self.awaited()
    }

    fn unanswered(&self) -> u32 {
        self.unanswered()
    }

    fn lane_count(&self) -> u32 {
        self.lanes.count()
    }

    fn is_done(&self, lane: u32) -> bool {
        self.is_done(lane)
    }
}

impl AddsCalls for Session {
    ghost calls = { λ s. s.work.calls };

    fn push_call(&mut self, lane: u32, call: Call) -> Result<(), OutOfMemory> {
        self.push_call(lane, call)
    }
}
