//! The shared session, and the calls of a lane's seat.
ghost use Rattle.std.specs.Prelude.{◌≡◌, ◌<◌, ◌≤◌, [], None, false, true, IfNone, IfOk, IfSome};
ghost use Rattle.plan_model.specs.Lanes.{are_ok};
ghost use Rattle.session_seats.specs.Holds.{AddsEntries, IsFresh, at_first, claim_of};
ghost use Rattle.session_seats.specs.NewSeats.{Gives, GivesLane, HasNone};
ghost use Rattle.session_seats.specs.Rules.{home};
ghost use Rattle.session_seats.specs.Sights.{inputs_of};
ghost use Rattle.sftp_tasks.specs.Calls.{AnswersSeat, BeginsWith, ReleasesSeat, with_receipt};
ghost use Rattle.sftp_tasks.specs.Entries.{by_cancel, by_let_go, by_nothing, by_submit};
ghost use Rattle.sftp_tasks.specs.LockedEvents.{CancelsLaneCall, GivingUp, OfLane, SubmitsLaneCall};
ghost use Rattle.sftp_tasks.specs.Rounds.{HoldsOnce};
ghost use Rattle.sftp_tasks.specs.Shows.{shown_of};

use crate::copies::copies_of;
use crate::events::{CancelCall, GiveUp, Release, Submit};
use crate::locked::{Locked, LockedCounts};
use session_model::{Call, Lane};
use session_seats::{Origin, Shared};
use sftp_lanes::Session;
use sftp_model::{Error, SftpOptions};
use sftp_values::Items;
use ssh_encoding::OutOfMemory;
use std::alloc::Global;
use std::sync::Wait;

/// A seat at the shared session.
pub type Seat = session_seats::Seat<Locked>;

/// A session that threads share. It is lent to them and stepped by their seats. The contract of a call that takes the
/// lock holds if the call returns.
///
/// Example: `crates/test_tasks/src/one_thread.rt`.
#[derive(Drop)]
pub struct SharedSftp {
    pub(crate) alloc: Global,
    pub(crate) shared: Shared<Locked>,
}

impl Locked {
    /// Returns a session of these lanes with its hello in the queue, with one user and no lane's seat.
    ///
    /// # Errors
    ///
    /// `OutOfMemory` if an allocation fails.
    pub fn new(alloc: Global, lanes: &[Lane], options: &SftpOptions) -> Result<Locked, OutOfMemory>
        requires { are_ok lanes.now ≡ true }
        ensures { IfOk result (λ locked. shown_of locked ≡ at_first (inputs_of lanes.now options.now)) }
    {
        Ok(Locked {
            session: Session::new(alloc, lanes, options)?,
            counts: LockedCounts {
                handed: 0,
                written: 0,
                taken: 0,
                stage: 0,
            },
            users: 1,
            seated: 0,
        })
    }
}

impl SharedSftp {
    /// Returns a session of these lanes with its hello in the queue, and the home seat, which names no lane. The option
    /// `flush_interval` has no effect: a worker that sends waits only while nothing is unsent.
    ///
    /// # Errors
    ///
    /// `OutOfMemory` if an allocation fails.
    pub fn new(
        alloc: Global,
        lanes: &[Lane],
        options: &SftpOptions,
    ) -> Result<(SharedSftp, Seat), OutOfMemory>
        requires { are_ok lanes.now ≡ true }
        ensures { IfOk result (λ r. (r.1.inner.me ≡ (home (inputs_of lanes.now options.now), [])) × (r.1.lane ≡ None)
            × (r.1.receipts.items ≡ []) × (r.1.inner.table_id ≡ r.0.shared.table.shared.table_id)) }
    {
        let value = Locked::new(alloc, lanes, options)?;
        let origin = Origin::of(&Items::new(copies_of(alloc, lanes)?), options);
        let (shared, seat) = Shared::new(alloc, value, &origin, lanes.len())?;
        Ok((SharedSftp { alloc, shared }, seat))
    }

    /// Returns the next lane's seat, from lane 0 on, or `None` exactly if each lane has one. Nothing is added to the
    /// journal.
    pub fn seat<R: Wait>(&self, rt: &R, from: &mut Seat) -> Option<Seat>
        requires own { from.old.inner.table_id ≡ self.now.shared.table.shared.table_id }
        requires share { 0 < (claim_of from.old.inner.me).share }
        ensures own { from.new.inner.table_id ≡ from.old.inner.table_id }
        ensures same { (from.new.lane ≡ from.old.lane) × (from.new.receipts ≡ from.old.receipts) × (from.new.whole ≡ from.old.whole) }
        ensures given { IfSome result (λ s. GivesLane shown_of s.lane from.old.inner.me from.new.inner.me s.inner.me
            × (s.inner.table_id ≡ from.old.inner.table_id)) }
        ensures none { IfNone result (HasNone shown_of from.old.inner.me from.new.inner.me) }
    {
        self.shared.seat(rt, self.alloc, from)
    }

    /// Returns a worker's seat, which names no lane. Nothing is added to the journal.
    pub fn worker_seat<R: Wait>(&self, rt: &R, from: &mut Seat) -> Seat
        requires { from.old.inner.table_id ≡ self.now.shared.table.shared.table_id }
        ensures own { (from.new.inner.table_id ≡ from.old.inner.table_id) × (result.inner.table_id ≡ from.old.inner.table_id) }
        ensures same { (from.new.lane ≡ from.old.lane) × (from.new.receipts ≡ from.old.receipts) × (from.new.whole ≡ from.old.whole) }
        ensures given { Gives shown_of false from.old.inner.me from.new.inner.me result.inner.me }
        ensures fresh { (result.lane ≡ None) × IsFresh (claim_of result.inner.me) None }
    {
        self.shared.worker_seat(rt, self.alloc, from)
    }

    /// Adds a call to the seat's lane, and steps the lane once; before the session is open the call waits for a later
    /// step. Returns false if the seat names no lane, if its lane was released, and if a session can't be given the
    /// lanes with the call; nothing is added then.
    ///
    /// # Errors
    ///
    /// `BackgroundTaskFailure` if the session has recorded a fault; nothing is added then. `OutOfMemory` if an
    /// allocation fails: the call may have been added, and the session may have failed, in which case every later call
    /// returns it too.
    pub fn submit<R: Wait>(&self, rt: &R, seat: &mut Seat, call: Call) -> Result<bool, Error>
        requires own { seat.old.inner.table_id ≡ self.now.shared.table.shared.table_id }
        ensures own { (seat.new.inner.table_id ≡ seat.old.inner.table_id) × (seat.new.lane ≡ seat.old.lane)
            × ((claim_of seat.old.inner.me).share ≤ (claim_of seat.new.inner.me).share) }
        ensures only { AddsEntries (by_submit seat.old.lane) (claim_of seat.old.inner.me) (claim_of seat.new.inner.me) }
        ensures answers { AnswersSeat (OfLane (SubmitsLaneCall call) false seat.old.lane) seat.old.receipts.items seat.new.receipts.items
            result seat.old.inner.me seat.new.inner.me }
        ensures first { IfOk result (λ did. did ≡ true → IfSome seat.old.lane (λ lane. BeginsWith lane call seat.old.receipts.items seat.new.receipts.items)) }
    {
        let (did, copied) = seat.apply(rt, self.alloc, &self.shared, Submit { call });
        settle(did, copied)
    }

    /// Cancels the call of the seat's lane that was started. Returns true if it was.
    ///
    /// # Errors
    ///
    /// Those of `submit`.
    pub fn cancel<R: Wait>(&self, rt: &R, seat: &mut Seat) -> Result<bool, Error>
        requires own { seat.old.inner.table_id ≡ self.now.shared.table.shared.table_id }
        ensures own { (seat.new.inner.table_id ≡ seat.old.inner.table_id) × (seat.new.lane ≡ seat.old.lane)
            × ((claim_of seat.old.inner.me).share ≤ (claim_of seat.new.inner.me).share) }
        ensures only { AddsEntries (by_cancel seat.old.lane) (claim_of seat.old.inner.me) (claim_of seat.new.inner.me) }
        ensures answers { AnswersSeat (OfLane CancelsLaneCall false seat.old.lane) seat.old.receipts.items seat.new.receipts.items
            result seat.old.inner.me seat.new.inner.me }
    {
        let (did, copied) = seat.apply(rt, self.alloc, &self.shared, CancelCall);
        settle(did, copied)
    }

    /// Releases all that the slots of the seat's lane hold, and then leaves the users; a seat that names no lane only
    /// leaves. Returns false if a call of the lane has not ended; nothing has changed then. The seat must have a share:
    /// it has none after true, and keeps it after any other result.
    ///
    /// # Errors
    ///
    /// Those of `submit`. After `OutOfMemory` the lane may have been released.
    pub fn release<R: Wait>(&self, rt: &R, seat: &mut Seat) -> Result<bool, Error>
        requires own { seat.old.inner.table_id ≡ self.now.shared.table.shared.table_id }
        requires share { 0 < (claim_of seat.old.inner.me).share }
        ensures own { (seat.new.inner.table_id ≡ seat.old.inner.table_id) × (seat.new.lane ≡ seat.old.lane) }
        ensures only { AddsEntries (by_let_go seat.old.lane) (claim_of seat.old.inner.me) (claim_of seat.new.inner.me) }
        ensures releases { ReleasesSeat seat.old.lane seat.old.receipts.items seat.new.receipts.items result seat.old.inner.me seat.new.inner.me }
    {
        let (did, copied) = seat.apply(rt, self.alloc, &self.shared, Release);
        // No `?`: it converts the error, and `releases` is by cases on the result.
        match settle(did, copied) {
            Ok(true) => {}
            Ok(false) => return Ok(false),
            Err(e) => return Err(e),
        }
        seat.leave(rt, &self.shared);
        Ok(true)
    }

    /// Gives the session up, so that no thread waits for one that can't continue. Each later call of its seats returns
    /// `OutOfMemory`, or `BackgroundTaskFailure` if the session has recorded a fault. Nothing is added to the journal.
    pub fn give_up<R: Wait>(&self, rt: &R, seat: &mut Seat)
        requires own { seat.old.inner.table_id ≡ self.now.shared.table.shared.table_id }
        ensures own { (seat.new.inner.table_id ≡ seat.old.inner.table_id) × (seat.new.lane ≡ seat.old.lane) }
        ensures only { AddsEntries (by_nothing seat.old.lane) (claim_of seat.old.inner.me) (claim_of seat.new.inner.me) }
        ensures gives_up { HoldsOnce (λ y z more. GivingUp y z) seat.old.inner.me seat.new.inner.me }
    {
        let _ = seat.apply(rt, self.alloc, &self.shared, GiveUp);
    }
}

/// Returns the answer of an event, unless a receipt is missing.
pub(crate) fn settle<T: Drop>(
    did: Result<T, Error>,
    copied: Result<(), OutOfMemory>,
) -> Result<T, Error>
    ensures { result ≡ with_receipt did copied }
{
    // No `?`: it converts the error, and the clause is an equation of the whole result.
    match did {
        Ok(did) => match copied {
            Ok(()) => Ok(did),
            Err(OutOfMemory) => Err(Error::OutOfMemory),
        },
        Err(e) => Err(e),
    }
}
