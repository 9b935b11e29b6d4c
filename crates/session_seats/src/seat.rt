//! Seats at a shared value.
ghost use Rattle.std.specs.Prelude.{◌≡◌, ◌<◌, ◌==◌, ◌++◌, [], None, Some, Ok, drop, false, true, IfNone, IfSome, OnOk};
ghost use Rattle.session_seats.specs.Sights.{SessionInputs, made_from, own};
ghost use Rattle.session_seats.specs.Holds.{Applied, Concerning, Hold, IsFresh, IsSeat, NamesLane, MayHold, claim_of, passes};
ghost use Rattle.session_seats.specs.NewSeats.{Gives, GivesLane, HasNone};
ghost use Rattle.session_seats.specs.Rules.{home};

use crate::event::Event;
use crate::rule::Held;
use crate::shared::Shared;
use crate::view::{Receipt, View};
use crate::wakes::{WakeSet, concerned};
use atomic_table::Seat as Inner;
use session_model::Entry;
use sftp_model::TryCopy;
use ssh_encoding::OutOfMemory;
use std::alloc::Global;
use std::sync::Wait;

/// A thread's seat at a shared value. It names a lane, or none, and keeps a receipt of each entry that was added to the
/// journal by it. A seat can't be dropped: `close` of the shared value or `into_receipts` ends it.
///
/// Example: `crates/test_tasks/src/one_thread.rt`.
#[must_use]
pub struct Seat<S: Held + Drop> {
    pub(crate) inner: Inner<S, View>,
    pub(crate) lane: Option<u32>,
    pub(crate) receipts: Vec<Receipt>,
    // True if no allocation for a receipt failed.
    pub(crate) whole: bool,
    // The number of users that are its own.
    pub(crate) share: u64,
    ghost free: { IsSeat inner.me },
    ghost named: { NamesLane (claim_of inner.me) lane },
    ghost shares: { share ≡ (claim_of inner.me).share },
    ghost told: { whole ≡ true → receipts.items ≡ own (claim_of inner.me).number (claim_of inner.me).sight.log },
}

impl<S: Held + Drop> Seat<S> {
    /// Returns the home seat, which a new shared value comes with.
    pub(crate) fn home(alloc: Global, inner: Inner<S, View>) -> Seat<S>
        requires { (m : SessionInputs) × (inner.me ≡ (home m, [])) }
        ensures { (result.inner ≡ inner) × (result.lane ≡ None) × (result.receipts.items ≡ []) × (result.whole ≡ true) }
    {
        Seat {
            inner,
            lane: None,
            receipts: Vec::new(alloc),
            whole: true,
            share: 1,
        }
    }

    /// Returns a seat that was given, which made nothing yet.
    pub(crate) fn fresh(
        alloc: Global,
        inner: Inner<S, View>,
        lane: Option<u32>,
        share: u64,
    ) -> Seat<S>
        requires free { IsSeat inner.me }
        requires fresh { IsFresh (claim_of inner.me) lane }
        requires share { share ≡ (claim_of inner.me).share }
        ensures { (result.inner ≡ inner) × (result.lane ≡ lane) × (result.receipts.items ≡ []) × (result.whole ≡ true) }
    {
        Seat {
            inner,
            lane,
            receipts: Vec::new(alloc),
            whole: true,
            share,
        }
    }

    /// Returns the receipts of the entries that this seat made, in the order of the journal: of all of them, unless an
    /// allocation for one failed.
    pub fn receipts(&self) -> &[Receipt]
        ensures { result.now ≡ self.now.receipts.items }
    {
        self.receipts.as_slice()
    }

    /// Returns the lane that the seat names.
    pub fn lane(&self) -> Option<u32>
        ensures { result ≡ self.now.lane }
    {
        self.lane
    }

    /// Ends the seat, and returns its receipts. The shared value can't be closed with all of its seats any more. If the
    /// seat has a share of the users, the last user never leaves, and threads that wait for the end wait forever:
    /// release the seat or give the session up first.
    pub fn into_receipts(self) -> Vec<Receipt>
        ensures { result ≡ self.receipts }
    {
        let Seat {
            inner: _,
            lane: _,
            receipts,
            whole: _,
            share: _,
        } = self;
        receipts
    }

    /// Returns true if the seat is no user, or no longer one: it has no share of the users. This holds for a worker's
    /// seat from the beginning, and for another once it was released.
    pub fn is_released(&self) -> bool
        ensures value { result ≡ ((claim_of self.now.inner.me).share == 0) }
        ensures share { result ≡ false → 0 < (claim_of self.now.inner.me).share }
    {
        self.share == 0
    }

    /// Returns true if each entry that this seat made has its receipt.
    pub fn has_all_receipts(&self) -> bool
        ensures value { result ≡ self.now.whole }
        ensures all { result ≡ true → self.now.receipts.items ≡ own (claim_of self.now.inner.me).number (claim_of self.now.inner.me).sight.log }
    {
        self.whole
    }

    /// Does the event in one hold of the lock, keeps a receipt of each entry that it adds, and then, without the lock,
    /// wakes the threads that the hold concerns. Returns the answer of the event, and an `Err` if an allocation for a
    /// receipt failed: the entries are in the journal then, and the seat has lost receipts for good.
    pub fn apply<A, E: Event<S, A>, R: Wait>(
        &mut self,
        rt: &R,
        alloc: Global,
        shared: &Shared<S>,
        event: E,
    ) -> (A, Result<(), OutOfMemory>)
        requires own { self.old.inner.table_id ≡ shared.now.table.shared.table_id }
        requires may { MayHold (claim_of self.old.inner.me) (E.needs event) }
        ensures own { self.new.inner.table_id ≡ self.old.inner.table_id }
        ensures lane { self.new.lane ≡ self.old.lane }
        ensures held { Hold S.shown (Applied S.shown (passes (E.only event) self.old.lane) (E.needs event)
            (λ y z. E.does event self.old.lane y z result.0) result.1 self.old.receipts.items self.new.receipts.items)
            self.old.inner.me self.new.inner.me }
    {
        let mut gate = shared.gate.lock(rt);
        let (did, copied, concerned) = self.hold(rt, alloc, shared, event);
        gate.note(concerned);
        drop(gate);
        shared.condvars.notify(concerned);
        (did, copied)
    }

    /// Does the event in one hold of the lock, and keeps a receipt of each entry that it adds. The seat's share follows
    /// the users. Returns also the waiting threads that the hold concerns.
    fn hold<A, E: Event<S, A>, R: Wait>(
        &mut self,
        rt: &R,
        alloc: Global,
        shared: &Shared<S>,
        event: E,
    ) -> (A, Result<(), OutOfMemory>, WakeSet)
        requires own { self.old.inner.table_id ≡ shared.now.table.shared.table_id }
        requires may { MayHold (claim_of self.old.inner.me) (E.needs event) }
        ensures own { self.new.inner.table_id ≡ self.old.inner.table_id }
        ensures lane { self.new.lane ≡ self.old.lane }
        ensures held { Hold S.shown (Concerning S.shown (Applied S.shown (passes (E.only event) self.old.lane) (E.needs event)
            (λ y z. E.does event self.old.lane y z result.0) result.1 self.old.receipts.items self.new.receipts.items) result.2)
            self.old.inner.me self.new.inner.me }
    {
        shared.acquire(rt, &mut self.inner);
        let held = self.inner.slot_mut(&shared.table.shared, 0);
        let from = held.entries().len();
        let before = held.tide();
        let others = held.users() - self.share;
        let did = event.act(held, self.lane);
        self.share = held.users() - others;
        let after = held.tide();
        let journal = held.entries();
        let concerned = concerned(before, after, journal, from);
        let copied = copy_from(alloc, journal, from, &mut self.receipts);
        shared.release(&mut self.inner);
        self.whole = has_kept(self.whole, &copied);
        (did, copied, concerned)
    }
}

/// Returns true if no allocation for a receipt failed so far, nor in this copy.
fn has_kept(whole: bool, copied: &Result<(), OutOfMemory>) -> bool
    ensures whole { result ≡ true → whole ≡ true }
    ensures copied { result ≡ true → copied.now ≡ Ok tt }
{
    match copied {
        Ok(()) => whole,
        Err(OutOfMemory) => false,
    }
}

/// Adds receipts for the entries from the place on. Fails if an allocation fails; some may have been added then.
fn copy_from(
    alloc: Global,
    journal: &[Entry],
    from: usize,
    receipts: &mut Vec<Receipt>,
) -> Result<(), OutOfMemory>
    ensures { OnOk result (receipts.new.items ≡ receipts.old.items ++ made_from from (drop from journal.now)) }
{
    if from > journal.len() {
        return Err(OutOfMemory);
    }
    let mut place = from as u64;
    for entry in &journal[from..] {
        if receipts.reserve(1).is_err() {
            return Err(OutOfMemory);
        }
        let entry = entry.try_copy(alloc)?;
        receipts.push_reserved(Receipt { place, entry });
        place += 1;
    }
    Ok(())
}

impl<S: Held + Drop> Seat<S> {
    /// Returns a new worker's token.
    pub(crate) fn give_worker<R: Wait>(&mut self, rt: &R, shared: &Shared<S>) -> Inner<S, View>
        requires { self.old.inner.table_id ≡ shared.now.table.shared.table_id }
        ensures own { (self.new.inner.table_id ≡ self.old.inner.table_id) × (result.table_id ≡ self.old.inner.table_id) }
        ensures same { (self.new.lane ≡ self.old.lane) × (self.new.receipts ≡ self.old.receipts) × (self.new.whole ≡ self.old.whole) }
        ensures given { Gives S.shown false self.old.inner.me self.new.inner.me result.me }
        ensures fresh { IsSeat result.me × IsFresh (claim_of result.me) None }
    {
        shared.give_worker(rt, &mut self.inner)
    }

    /// Returns a new lane's token, and the lane.
    pub(crate) fn give_lane<R: Wait>(
        &mut self,
        rt: &R,
        shared: &Shared<S>,
    ) -> Option<(Inner<S, View>, u32)>
        requires own { self.old.inner.table_id ≡ shared.now.table.shared.table_id }
        requires share { 0 < (claim_of self.old.inner.me).share }
        ensures own { self.new.inner.table_id ≡ self.old.inner.table_id }
        ensures same { (self.new.lane ≡ self.old.lane) × (self.new.receipts ≡ self.old.receipts) × (self.new.whole ≡ self.old.whole) }
        ensures given { IfSome result (λ s. GivesLane S.shown (Some s.1) self.old.inner.me self.new.inner.me s.0.me × (s.0.table_id ≡ self.old.inner.table_id) × IsSeat s.0.me) }
        ensures none { IfNone result (HasNone S.shown self.old.inner.me self.new.inner.me) }
    {
        shared.give_lane(rt, &mut self.inner)
    }
}
