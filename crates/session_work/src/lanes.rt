//! The lanes of an open session: steps, cancels and releases of a lane, and frames that go out and come in.
ghost use Rattle.std.specs.Prelude.{◌≡◌, ◌<◌, ◌+◌, ◌≢◌, ℕ, List, Bool, Some, None, false, IfOk, IfErr, IfSome, OnOk, OnErr, length, vec_len, vec_capacity, slice_get};
ghost use Rattle.session_work.specs.Fresh.{IsMade};
ghost use Rattle.session_work.specs.Adding.{added_in};
ghost use Rattle.session_work.specs.SoFar.{IsIntact, HasRoom, IsLeft, HasOneMore, RefusesWhileOpen, RefusesFrame, TakesFrame, kept_past};
ghost use Rattle.session_work.specs.Working.{contents_of, IsOpened, IsWorking, StepsLane, IsAtRestOpen, CancelsLane, LetsLaneGo, lane_in, past_of, IsIdleIn, NotesNothing, HandsAll, TakesBody};
ghost use Rattle.session_model.specs.Calls.{Setting, current};
ghost use Rattle.session_work.specs.Noting.{CanTurn, HasTurned, HasTurnToNote, with_begun, is_went};
ghost use Rattle.session_model.specs.Readings.{was_let_go};
ghost use Rattle.session_model.specs.declared.entry.Entry.{Entry as EntryValue};
ghost use Rattle.session_work.specs.Letting.{IsDone, IsLetting, LetGo, gone_in};
ghost use Rattle.session_work.specs.Reports.{LeavesReports};
ghost use Rattle.session_laws.specs.Lanes.{Held, Ticketed};
ghost use Rattle.session_work.specs.Closing.{CanClose, ClosesDueGrants, HasClosed, IsClosing};
ghost use Rattle.plan_runner.specs.Pending.{slots_times};
ghost use Rattle.std.specs.Option.{option_map};
ghost use Rattle.sftp_core.specs.Core.{failed_with};
ghost use Rattle.sftp_core.specs.Pieces.{chunk_bytes, HasFrames};

use crate::calls::current_call;
use crate::journal::{
    add_entry, empty_lists, entries_for, keep_moved, keep_outcome, note_close, unmarked,
};
use crate::weighed_lanes::WeighedLanes;
use crate::{LaneState, Moved, empty_slots};
use bitflags::Flags;
use session_driver::Stepped;
use session_model::{Call, Entry, Event, Lane, Owner};
use sftp_core::{Chunk, Core, Ended, Fault, TakeError, Taken};
use sftp_model::{
    Extensions, Facts, FrameError, Outcome, Reply, Request, SftpOptions, Slot, TryCopy,
};
use sftp_values::Items;
use ssh_encoding::OutOfMemory;
use std::alloc::Global;

/// The lanes of a session, and the data that they work with: their calls, the core, the facts that plans use, the
/// journal and how many requests it has, what each lane holds and awaits, and its records for the report.
///
/// Example: `crates/example_threads/src/socket.rt`.
pub struct Lanes {
    /// The calls of each lane.
    pub calls: WeighedLanes,
    /// The core that all lanes ask.
    pub core: Core,
    /// The facts that VERSION and the limits reported, once the session is open.
    pub facts: Facts,
    /// The entries of the journal, the first entry first.
    pub journal: Vec<Entry>,
    /// The number of requests that were submitted, which is the place of the next.
    pub asked: u64,
    /// The tickets, grants and slots of each lane, and what it awaits.
    pub states: Vec<LaneState>,
    /// For each lane the outcomes of its calls that have ended, in their order.
    pub outcomes: Items<Items<Outcome>>,
    /// For each lane true if it was released.
    pub gone: Items<bool>,
}

impl Drop for Lanes {
    /// Releases everything that the lanes hold. Nothing is sent.
    fn drop(self) {
        let _told = self.into_told();
    }
}

/// Returns copies of lanes.
fn copies_of(alloc: Global, lanes: &[Lane]) -> Result<Items<Lane>, OutOfMemory>
    ensures { IfOk result (λ copies. copies ≡ lanes.now) }
{
    let mut copies = Vec::new(alloc);
    for lane in lanes {
        copies.push(lane.try_copy(alloc)?)?;
    }
    Ok(Items::new(copies))
}

/// Releases lanes whose core was given up.
fn let_go_states(mut states: Vec<LaneState>, core: Ended) {
    while let Some(state) = states.pop() {
        state.end(core);
    }
    states.destroy_empty();
}

/// Returns the facts of a server that has reported nothing.
fn untold() -> Facts {
    Facts {
        extensions: Extensions::from_bits_retain(0),
        read_len: 0,
        write_len: 0,
        write_limit: 0,
        read_window: 1,
    }
}

/// Returns true if a turn continued to another reply, and left nothing to record.
fn is_went(moved: &Moved) -> bool
    ensures { result ≡ is_went moved.now }
{
    match moved {
        Moved::Went => true,
        _ => false,
    }
}

impl Lanes {
    /// Returns lanes that have done nothing, and a core with the hello in its queue.
    ///
    /// # Errors
    ///
    /// `OutOfMemory` if an allocation fails.
    pub fn new(alloc: Global, lanes: &[Lane], options: &SftpOptions) -> Result<Lanes, OutOfMemory>
        ensures { IfOk result (λ w. IsMade lanes.now options.now w) }
    {
        let mut work = Lanes {
            calls: WeighedLanes::new(copies_of(alloc, lanes)?),
            core: Core::new(alloc, options)?,
            facts: untold(),
            journal: Vec::with_capacity(alloc, 1)?,
            asked: 0,
            outcomes: empty_lists(alloc, lanes.len())?,
            gone: unmarked(alloc, lanes.len())?,
            states: Vec::with_capacity(alloc, lanes.len())?,
        };
        for _ in 0..lanes.len() {
            let state = LaneState::new(alloc)?;
            work.states.push_reserved(state);
        }
        Ok(work)
    }

    /// Appends a call to those of an existing lane, and records it in the journal, in any state of the session.
    ///
    /// # Errors
    ///
    /// `OutOfMemory` if an allocation fails; nothing has changed then.
    pub fn push_call(&mut self, alloc: Global, lane: u32, call: Call) -> Result<(), OutOfMemory>
        requires there { lane < length self.old.calls }
        requires intact { IsIntact (length self.old.calls) self.old }
        ensures adds { OnOk result (contents_of self.new ≡ added_in (contents_of self.old) lane call) }
        ensures unchanged { OnErr result (contents_of self.new ≡ contents_of self.old) }
        ensures intact { IsIntact (length self.old.calls) self.new }
    {
        let copy = call.try_copy(alloc)?;
        self.journal.reserve(2)?;
        self.calls.push_call(alloc, lane as usize, call)?;
        add_entry(&mut self.journal, Entry::Added { lane, call: copy });
        Ok(())
    }

    /// Makes one turn of a lane that has a call. It records nothing. Fails if an allocation fails.
    fn turn(&mut self, alloc: Global, lane: u32) -> Result<Moved, OutOfMemory>
        requires { CanTurn lane self.old }
        ensures turned { (s : Setting) (begun : ℕ → Bool) → IsAtRestOpen s (with_begun begun (contents_of self.old)) → IfOk result (HasTurnToNote s lane (with_begun begun (contents_of self.old)) (with_begun begun (contents_of self.new))) }
        ensures leaves { IfOk result (HasTurned lane self.old self.new) }
        ensures left { IsLeft self.old self.new }
        ensures room { HasRoom self.new }
    {
        let Some(call) = current_call(self.calls.as_slice(), &self.states, lane) else {
            unreachable!()
        };
        let state = &mut self.states[lane as usize];
        self.journal.reserve(entries_for(state.grant_count())?)?;
        state.turn(alloc, &mut self.core, call, self.asked, &self.facts)
    }

    /// Makes one step of a lane: turns of its call, up to one that leaves an entry or waits.
    ///
    /// # Errors
    ///
    /// `OutOfMemory` if an allocation fails; the calls, the journal, the recorded fault and the records for the report
    /// are unchanged.
    pub fn step(&mut self, alloc: Global, lane: u32) -> Result<Stepped, OutOfMemory>
        requires opened { IsOpened self.old }
        requires intact { IsIntact (length self.old.calls) self.old }
        ensures steps { (s : Setting) → IsWorking s self.old → IfOk result (λ event. StepsLane s lane self.old self.new event) }
        ensures left { OnErr result (IsLeft self.old self.new) }
        ensures intact { IsIntact (length self.old.calls) self.new }
    {
        if current_call(self.calls.as_slice(), &self.states, lane).is_none() {
            return Ok(Stepped::Nothing);
        }
        let number = self.states[lane as usize].ended();
        loop {
            let moved = self.turn(alloc, lane)?;
            if !is_went(&moved) {
                keep_moved(alloc, &mut self.outcomes, lane as usize, &moved)?;
                return Ok(self.note(lane, number, moved));
            }
        }
    }

    /// Cancels the call of a lane that was started. Returns true if it was.
    ///
    /// # Errors
    ///
    /// `OutOfMemory` if an allocation fails; the calls, the journal, the recorded fault and the records for the report
    /// are unchanged.
    pub fn cancel(&mut self, alloc: Global, lane: u32) -> Result<bool, OutOfMemory>
        requires opened { IsOpened self.old }
        requires intact { IsIntact (length self.old.calls) self.old }
        ensures cancels { (s : Setting) → IsWorking s self.old → IfOk result (λ event. CancelsLane s lane self.old self.new event) }
        ensures left { OnErr result (IsLeft self.old self.new) }
        ensures intact { IsIntact (length self.old.calls) self.new }
    {
        if lane as usize >= self.states.len() || !self.states[lane as usize].runs() {
            return Ok(false);
        }
        let state = &mut self.states[lane as usize];
        self.journal.reserve(entries_for(state.grant_count())?)?;
        let call = state.ended();
        state.give_up(&mut self.core)?;
        keep_outcome(alloc, &mut self.outcomes, lane as usize, Outcome::Cancelled)?;
        add_entry(&mut self.journal, Entry::Event(Event::Cancel { lane }));
        add_entry(
            &mut self.journal,
            Entry::Event(Event::End {
                lane,
                call,
                outcome: Outcome::Cancelled,
            }),
        );
        self.close_unheld(lane);
        Ok(true)
    }

    /// Closes the grants of slots that a lane had, one slot after another: each whose grant no later slot has. Tickets
    /// that no slot awaits any more are dropped then.
    fn close_slots(&mut self, lane: u32, slots: &[Slot])
        requires letting { IsLetting lane self.old slots.now }
        requires room { vec_len self.old.journal + length (lane_in self.old.states.items lane).grants < vec_capacity self.old.journal }
        ensures let_go { (s : Setting) (before : List EntryValue) → LetGo s before lane (contents_of self.old) (contents_of self.new) slots.now }
        ensures reports { LeavesReports self.old self.new }
        ensures room { vec_len self.new.journal < vec_capacity self.new.journal }
    {
        let mut rest = slots;
        loop {
            match rest {
                [] => {
                    self.forget_unawaited(lane);
                    return;
                }
                [slot, later @ ..] => {
                    if let Some(k) = self.states[lane as usize].closing(slot, later) {
                        self.close(lane, k);
                    }
                    rest = later;
                }
            }
        }
    }

    /// Records the release of a lane that holds nothing.
    ///
    /// # Errors
    ///
    /// `OutOfMemory` if an allocation fails; nothing has changed then.
    pub fn let_idle_go(&mut self, lane: u32) -> Result<(), OutOfMemory>
        requires there { lane < length self.old.calls }
        requires intact { IsIntact (length self.old.calls) self.old }
        ensures lets_go { OnOk result (contents_of self.new ≡ gone_in (contents_of self.old) lane) }
        ensures left { OnErr result (IsLeft self.old self.new) }
        ensures intact { IsIntact (length self.old.calls) self.new }
    {
        self.journal.reserve(2)?;
        add_entry(&mut self.journal, Entry::LetGo { lane });
        self.gone.set(lane as usize, true);
        Ok(())
    }

    /// Releases everything that the slots of a lane hold, if the lane exists.
    ///
    /// # Errors
    ///
    /// `OutOfMemory` if an allocation fails; the calls, the journal, the recorded fault and the records for the report
    /// are unchanged.
    pub fn let_go(&mut self, alloc: Global, lane: u32) -> Result<(), OutOfMemory>
        requires done { IsDone lane self.old }
        requires intact { IsIntact (length self.old.calls) self.old }
        ensures lets_go { (s : Setting) → IsWorking s self.old → current s (past_of self.old) lane ≡ None → was_let_go (past_of self.old) lane ≡ false
            → OnOk result (LetsLaneGo s lane self.old self.new) }
        ensures left { OnErr result (IsLeft self.old self.new) }
        ensures intact { IsIntact (length self.old.calls) self.new }
    {
        if lane as usize >= self.states.len() {
            return Ok(());
        }
        let empty = empty_slots(alloc)?;
        let state = &mut self.states[lane as usize];
        self.journal.reserve(entries_for(state.grant_count())?)?;
        let slots = state.empty(empty);
        add_entry(&mut self.journal, Entry::LetGo { lane });
        self.gone.set(lane as usize, true);
        self.close_slots(lane, slots.as_slice());
        Ok(())
    }

    /// Closes the grant at an index of a lane, and records its CLOSE.
    pub(crate) fn close(&mut self, lane: u32, k: usize)
        requires { CanClose lane k self.old }
        ensures closed { (g : Held) → slice_get (lane_in self.old.states.items lane).grants k ≡ Some g → HasClosed (contents_of self.old) (contents_of self.new) lane k g }
        ensures reports { LeavesReports self.old self.new }
        ensures one { HasOneMore self.old self.new }
    {
        let (id, handle) = self.states[lane as usize].release(&mut self.core, k);
        add_entry(
            &mut self.journal,
            Entry::Event(Event::Submit {
                owner: Owner::Close,
                id,
                request: Request::Close { handle },
            }),
        );
        self.asked += 1;
    }

    /// Closes each grant of a lane that no slot has, the one of the least place first, and drops each ticket that no
    /// slot awaits.
    pub(crate) fn close_unheld(&mut self, lane: u32)
        requires closing { IsClosing lane self.old }
        requires room { vec_len self.old.journal + length (lane_in self.old.states.items lane).grants < vec_capacity self.old.journal }
        ensures closed { (s : Setting) (before : List EntryValue) → ClosesDueGrants s before lane (contents_of self.old) (contents_of self.new) }
        ensures reports { LeavesReports self.old self.new }
        ensures room { vec_len self.new.journal < vec_capacity self.new.journal }
    {
        while let Some(k) = self.states[lane as usize].unheld() {
            self.close(lane, k);
        }
        self.forget_unawaited(lane);
    }

    /// Drops each ticket of a lane that runs no call whose reply no slot awaits: those that are left are awaited.
    pub(crate) fn forget_unawaited(&mut self, lane: u32)
        requires { IsIdleIn lane self.old }
        ensures forgets { (s : Setting) → IsWorking s self.old → NotesNothing s (contents_of self.old) (contents_of self.new) }
        ensures none { (k : ℕ) (t : Ticketed) → slice_get (lane_in self.new.states.items lane).tickets k ≡ Some t
            → slots_times t.place (lane_in self.new.states.items lane).site.slots ≢ 0 }
        ensures journal { self.new.journal ≡ self.old.journal }
        ensures reports { LeavesReports self.old self.new }
    {
        while let Some(k) = self.states[lane as usize].unawaited() {
            self.states[lane as usize].forget(&mut self.core, k);
        }
    }

    /// Returns the frames of all unsent requests, or `None` if nothing is unsent.
    ///
    /// # Errors
    ///
    /// `OutOfMemory` if an allocation fails; the calls, the journal, the recorded fault and the records for the report
    /// are unchanged.
    pub fn hand_out(&mut self) -> Result<Option<Chunk>, OutOfMemory>
        requires opened { IsOpened self.old }
        requires intact { IsIntact (length self.old.calls) self.old }
        ensures hands_out { (s : Setting) → IsWorking s self.old → IfOk result (λ chunk. HandsAll s self.old self.new (option_map chunk_bytes chunk)) }
        ensures frames { IfOk result (λ chunk. IfSome chunk (λ c. HasFrames c self.old.core.queue)) }
        ensures left { OnErr result (IsLeft self.old self.new) }
        ensures intact { IsIntact (length self.old.calls) self.new }
    {
        if self.core.queued() == 0 {
            return Ok(None);
        }
        self.journal.reserve(2)?;
        let chunk = self.core.hand_out()?;
        add_entry(&mut self.journal, Entry::Event(Event::Send));
        Ok(Some(chunk))
    }

    /// Takes what `read_reply` returned for the body of one frame.
    ///
    /// # Errors
    ///
    /// The first thing that is wrong with the frame, which is kept and recorded in the journal, or `OutOfMemory` if an
    /// allocation fails or failed while the frame was read. The calls are unchanged.
    pub fn take(&mut self, read: Result<(Option<u32>, Reply), FrameError>) -> Result<(), TakeError>
        requires opened { IsOpened self.old }
        requires intact { IsIntact (length self.old.calls) self.old }
        ensures takes { (s : Setting) → IsWorking s self.old → OnOk result (TakesBody s read self.old self.new) }
        ensures refused { IfErr result (λ e. RefusesWhileOpen read e self.old self.new) }
        ensures intact { IsIntact (length self.old.calls) self.new }
    {
        let before = self.core.queued();
        match self.take_frame(read) {
            Ok(Taken::Answer { id, reply }) => {
                add_entry(&mut self.journal, Entry::Event(Event::Take { id, reply }));
                if note_close(&self.core, &mut self.journal, before) {
                    self.asked += 1;
                }
                Ok(())
            }
            Ok(_) => unreachable!(),
            Err(e) => Err(e), // not `?`, whose exit would speak of a converted error
        }
    }

    /// Records a fault if none is recorded, also as the last entry of the journal.
    pub fn keep(&mut self, fault: Fault)
        requires room { HasRoom self.old }
        ensures rest { self.new ≡ record self.old { core = failed_with self.old.core fault; journal = self.new.journal } }
        ensures journal { past_of self.new ≡ kept_past self.old.core.fault fault (past_of self.old) }
    {
        if self.core.fault().is_none() {
            add_entry(&mut self.journal, Entry::Kept(fault));
        }
        self.core.fail(fault);
    }

    /// Takes what was read of one frame into the core; there is then room for two entries and that of a fault.
    ///
    /// # Errors
    ///
    /// The first thing that is wrong with the frame, which is kept and recorded in the journal, or `OutOfMemory` if an
    /// allocation fails or failed while the frame was read.
    pub fn take_frame(
        &mut self,
        read: Result<(Option<u32>, Reply), FrameError>,
    ) -> Result<Taken, TakeError>
        requires unfailed { self.old.core.fault ≡ None }
        requires room { HasRoom self.old }
        ensures takes { IfOk result (λ told. TakesFrame read told self.old self.new) }
        ensures rest { self.new ≡ record self.old { core = self.new.core; journal = self.new.journal } }
        ensures refused { IfErr result (λ e. RefusesFrame read e self.old self.new) }
        ensures room { HasRoom self.new }
    {
        if self.journal.reserve(3).is_err() {
            return Err(TakeError::OutOfMemory);
        }
        match self.core.take_read(read) {
            Ok(taken) => Ok(taken),
            Err(e) => {
                if let Some(fault) = e.fault() {
                    add_entry(&mut self.journal, Entry::Kept(fault));
                }
                Err(e)
            }
        }
    }

    /// Returns the journal, and the outcomes of each lane; everything that the lanes hold is released. Nothing is sent.
    pub fn into_told(self) -> (Vec<Entry>, Items<Items<Outcome>>)
        ensures { result ≡ (self.journal, self.outcomes) }
    {
        let Lanes {
            calls: _,
            core,
            facts: _,
            journal,
            asked: _,
            states,
            outcomes,
            gone: _,
        } = self;
        let_go_states(states, core.end());
        (journal, outcomes)
    }
}
