//! The journal of an open session: its entries, and what is kept of each lane for the report.
ghost use Rattle.std.specs.Prelude.{◌≡◌, ◌<◌, ◌≤◌, ◌+◌, ◌∷◌, ◌++◌, ◌^◌, [], ℕ, List, true, false, IfOk, OnOk, OnErr, length, reverse, slice_get, vec_len, vec_capacity, nat_le, replicate, slice_index_or};
ghost use Rattle.sftp_model.specs.declared.request.Request.{Request as RequestValue};
ghost use Rattle.session_model.specs.declared.event.Event.TheVariants.{Submit, End};
ghost use Rattle.session_model.specs.Calls.{Setting, calls_of};
ghost use Rattle.session_work.specs.Reports.{LeavesReports, lane_report, HasReports, ended_past, with_moved, with_outcome};
ghost use Rattle.session_work.specs.SoFar.{HasOneMore};
ghost use Rattle.session_work.specs.Working.{contents_of, lane_in, LanesValue, past_of};
ghost use Rattle.session_laws.specs.Rest.{begun_of};
ghost use Rattle.session_work.specs.Noting.{CanNote, NotesTurn, with_begun, asked_in, ended_in};
ghost use Rattle.sftp_model.specs.declared.request.Request.TheVariants as request;
ghost use Rattle.session_model.specs.declared.entry.Entry.TheVariants as entry;
ghost use Rattle.session_model.specs.declared.event.Owner.TheVariants as owner;

use crate::Moved;
use crate::calls::push_last;
use crate::lanes::Lanes;
use session_driver::Stepped;
use session_model::{Entry, Event, Owner};
use sftp_core::Core;
use sftp_model::{Outcome, Request, TryCopy};
use sftp_values::Items;
use ssh_encoding::OutOfMemory;
use std::alloc::Global;

/// Adds an entry to a journal that has room for it.
pub(crate) fn add_entry(journal: &mut Vec<Entry>, entry: Entry)
    requires { vec_len journal.old < vec_capacity journal.old }
    ensures items { journal.new.items ≡ journal.old.items ++ entry ∷ [] }
    ensures len { vec_len journal.new ≡ vec_len journal.old + 1 }
    ensures room { vec_capacity journal.old ≤ vec_capacity journal.new }
{
    journal.push(entry).unwrap();
}

/// Records the CLOSE that the core has queued on its own after this many requests. Returns true if there is one.
pub(crate) fn note_close(core: &Core, journal: &mut Vec<Entry>, before: u32) -> bool
    requires { vec_len journal.old < vec_capacity journal.old }
    ensures none { length core.now.queue ≡ before → (result ≡ false) × (journal.new.items ≡ journal.old.items) }
    ensures close { (queue : List (ℕ × RequestValue)) (id : ℕ) (handle : List ℕ) → core.now.queue ≡ queue ++ (id, request.Close handle) ∷ []
        → length queue ≡ before → (result ≡ true) × (journal.new.items ≡ journal.old.items ++ entry.Event (Submit owner.Close id (request.Close handle)) ∷ []) }
    ensures reports { (lane : ℕ) → lane_report (reverse journal.new.items) lane ≡ lane_report (reverse journal.old.items) lane }
    ensures len { vec_len journal.new ≤ vec_len journal.old + 1 }
    ensures room { vec_capacity journal.old ≤ vec_capacity journal.new }
{
    match core.queued_request(before) {
        Some((id, Request::Close { handle })) => {
            add_entry(
                journal,
                Entry::Event(Event::Submit {
                    owner: Owner::Close,
                    id,
                    request: Request::Close {
                        handle: handle.copied(),
                    },
                }),
            );
            true
        }
        _ => false,
    }
}

/// Returns the room for the CLOSEs of this many grants and another, and for three entries beside them.
pub(crate) fn entries_for(grants: usize) -> Result<usize, OutOfMemory>
    ensures { IfOk result (λ n. n ≡ grants + 4) }
{
    grants.checked_add(4).ok_or(OutOfMemory)
}

/// Returns `count` empty lists.
pub(crate) fn empty_lists(alloc: Global, count: usize) -> Result<Items<Items<Outcome>>, OutOfMemory>
    ensures { IfOk result (λ lists. lists ≡ replicate count []) }
{
    let mut lists = Vec::with_capacity(alloc, count)?;
    for _ in 0..count {
        lists.push_reserved(Items::new(Vec::new(alloc)));
    }
    Ok(Items::new(lists))
}

/// Returns the marks of `count` lanes of which none was released.
pub(crate) fn unmarked(alloc: Global, count: usize) -> Result<Items<bool>, OutOfMemory>
    ensures { IfOk result (λ marks. marks ≡ replicate count false) }
{
    Ok(Items::new(vec![in alloc; false; count]?))
}

/// Appends an outcome to those of its lane. Fails if an allocation fails; the lists are unchanged then.
pub(crate) fn keep_outcome(
    alloc: Global,
    lists: &mut Items<Items<Outcome>>,
    lane: usize,
    outcome: Outcome,
) -> Result<(), OutOfMemory>
    requires { lane < length lists.old }
    ensures kept { OnOk result (lists.new ≡ with_outcome lists.old lane outcome) }
    ensures unchanged { OnErr result (lists.new ≡ lists.old) }
{
    let mut list = lists.replace(lane, Items::new(Vec::new(alloc))).into_vec();
    let kept = push_last(&mut list, outcome);
    lists.set(lane, Items::new(list));
    kept
}

/// Keeps a copy of the outcome with which a turn of a lane ended its call, if it has ended. Fails if an allocation
/// fails; the lists are unchanged then.
pub(crate) fn keep_moved(
    alloc: Global,
    lists: &mut Items<Items<Outcome>>,
    lane: usize,
    moved: &Moved,
) -> Result<(), OutOfMemory>
    requires { lane < length lists.old }
    ensures kept { OnOk result (lists.new ≡ with_moved lists.old lane moved.now) }
    ensures unchanged { OnErr result (lists.new ≡ lists.old) }
{
    match moved {
        Moved::Ended { outcome } => {
            let copy = outcome.try_copy(alloc)?;
            keep_outcome(alloc, lists, lane, copy)
        }
        _ => Ok(()),
    }
}

impl Lanes {
    /// Records that a request of a lane's call was submitted.
    fn note_asked(&mut self, lane: u32, call: u32, id: u32, request: Request)
        requires journal { vec_len self.old.journal < vec_capacity self.old.journal }
        requires counted { self.old.asked ≤ vec_len self.old.journal }
        ensures noted { contents_of self.new ≡ with_begun (begun_of (lane_in self.new.states.items)) (asked_in (contents_of self.old) lane call id request) }
        ensures reports { LeavesReports self.old self.new }
        ensures one { HasOneMore self.old self.new }
    {
        add_entry(
            &mut self.journal,
            Entry::Event(Event::Submit {
                owner: Owner::Call { lane, call },
                id,
                request,
            }),
        );
        self.asked += 1;
    }

    /// Records that the call of a lane has ended.
    pub(crate) fn note_ended(&mut self, lane: u32, call: u32, outcome: Outcome)
        requires there { lane < length self.old.states.items }
        requires few { (lane_in self.old.states.items lane).ended < 2 ^ 31 }
        requires room { vec_len self.old.journal < vec_capacity self.old.journal }
        ensures noted { contents_of self.new ≡ with_begun (begun_of (lane_in self.new.states.items)) (ended_in (contents_of self.old) lane call outcome) }
        ensures reports { HasReports (entry.Event (End lane call outcome) ∷ past_of self.old) self.old self.new }
        ensures one { HasOneMore self.old self.new }
    {
        add_entry(
            &mut self.journal,
            Entry::Event(Event::End {
                lane,
                call,
                outcome,
            }),
        );
        self.states[lane as usize].end_call();
    }

    /// Records a lane's turn, and closes the grants that are due then.
    pub(crate) fn note(&mut self, lane: u32, call: u32, moved: Moved) -> Stepped
        requires { CanNote lane call moved self.old }
        ensures noted { (s : Setting) (old : LanesValue) → NotesTurn s lane old self.old (contents_of self.new) moved result }
        ensures reports { HasReports (ended_past lane call moved (past_of self.old)) self.old self.new }
        ensures room { vec_len self.new.journal < vec_capacity self.new.journal }
    {
        match moved {
            Moved::Waits => Stepped::Nothing,
            Moved::Went => unreachable!(),
            Moved::Asked { id, request } => {
                self.note_asked(lane, call, id, request);
                Stepped::Submitted
            }
            Moved::Ended { outcome } => {
                self.note_ended(lane, call, outcome);
                self.close_unheld(lane);
                Stepped::Ended
            }
        }
    }

    /// Returns the outcomes that are kept of a lane, in their order; none if the lane doesn't exist.
    pub fn outcomes(&self, lane: u32) -> &[Outcome]
        ensures { result.now ≡ slice_index_or self.now.outcomes lane [] }
    {
        match self.outcomes.as_slice().get(lane as usize) {
            Some(list) => list.as_slice(),
            None => &[],
        }
    }

    /// Returns true if a lane has no call left: all of its calls have ended.
    pub fn is_done(&self, lane: u32) -> bool
        ensures { result ≡ nat_le (length (calls_of (slice_get self.now.calls lane))) (length (slice_index_or self.now.outcomes lane [])) }
    {
        match self.calls.as_slice().get(lane as usize) {
            Some(given) => given.calls.as_slice().len() <= self.outcomes(lane).len(),
            None => true,
        }
    }

    /// Returns true if a lane was released.
    pub fn was_let_go(&self, lane: u32) -> bool
        ensures { result ≡ slice_index_or self.now.gone lane false }
    {
        match self.gone.as_slice().get(lane as usize) {
            Some(gone) => *gone,
            None => false,
        }
    }
}
