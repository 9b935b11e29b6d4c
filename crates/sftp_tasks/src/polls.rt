//! Polls of a lane until its calls have ended.
ghost use Rattle.std.specs.Prelude.{◌≡◌, Ok, IfErr, IfOk, IfSome, OnOk};
ghost use Rattle.session_seats.specs.Holds.{AddsEntries, claim_of, sight_by};
ghost use Rattle.sftp_tasks.specs.Calls.{AnswersSeat, InOneHold, PollsSeat, PollsUntil, SeesEnded, calls_in, is_ended};
ghost use Rattle.sftp_tasks.specs.Entries.{by_step};
ghost use Rattle.sftp_tasks.specs.SessionEvents.{AllEnded, MayTakeCalls, PollsIn, RefusesCall, polled_of};
ghost use Rattle.session_work.specs.Working.{past_of};

use crate::events::Poll;
use crate::locked::Locked;
use crate::shared_sftp::{Seat, SharedSftp, settle};
use session_driver::Stepped;
use session_seats::Waiter;
use sftp_model::Error;
use std::sync::Wait;

/// The result of one poll of a lane.
///
/// Used in `crates/sftp_tasks/src/events.rt`.
#[derive(Clone, Copy)]
pub enum Polled {
    /// All calls of the lane have ended; this is their number.
    Ended(u64),
    /// A request was submitted, or a call ended.
    Moved,
    /// The lane's call waits for a reply, or for the session to open.
    Waits,
}

impl Polled {
    /// Returns true if all calls have ended.
    fn is_ended(&self) -> bool
        ensures { result ≡ is_ended self.now }
    {
        matches!(self, Polled::Ended(_))
    }

    /// Returns how many calls have ended, if all have.
    fn calls(&self) -> u64
        ensures { result ≡ calls_in self.now }
    {
        match self {
            Polled::Ended(calls) => *calls,
            _ => 0,
        }
    }
}

/// Returns the result of a poll for a step of its lane.
fn polled_of(event: Stepped) -> Polled
    ensures { result ≡ polled_of event }
{
    match event {
        Stepped::Nothing => Polled::Waits,
        Stepped::Submitted => Polled::Moved,
        Stepped::Ended => Polled::Moved,
    }
}

impl Locked {
    /// Returns how many calls a lane has, if all have ended. Errors are those of `step`.
    fn ended_calls(&self, lane: u32) -> Result<Option<u64>, Error>
        ensures ended { IfOk result (λ calls. IfSome calls (AllEnded self.now.session.lanes (past_of self.now.session.work) lane)) }
        ensures unfailed { OnOk result (MayTakeCalls self.now.session) }
        ensures refused { IfErr result (λ e. RefusesCall e self.now.session self.now.session) }
    {
        // No `?`: it converts the error, and `refused` is about the error itself.
        match self.check() {
            Ok(()) => {}
            Err(e) => return Err(e),
        }
        if !self.session.is_done(lane) {
            return Ok(None);
        }
        // For the contract: the journal is a run, so no more calls have ended than there are.
        let _ = self.session.journal();
        Ok(Some(self.session.outcomes(lane).len() as u64))
    }

    /// Makes one step of a lane, unless all of its calls have ended.
    ///
    /// # Errors
    ///
    /// Those of `step`.
    pub fn poll(&mut self, lane: u32) -> Result<Polled, Error>
        ensures rest { self.new ≡ record self.old { session = self.new.session } }
        ensures polls { IfOk result (λ p. PollsIn lane self.old.session self.new.session p) }
        ensures unfailed { OnOk result (MayTakeCalls self.old.session) }
        ensures refused { IfErr result (λ e. RefusesCall e self.old.session self.new.session) }
    {
        // No `?`: it converts the error, and `refused` is about the error itself.
        match self.ended_calls(lane) {
            Ok(None) => {}
            Ok(Some(calls)) => return Ok(Polled::Ended(calls)),
            Err(e) => return Err(e),
        }
        match self.step(lane) {
            Ok(event) => Ok(polled_of(event)),
            Err(e) => Err(e),
        }
    }
}

/// Returns the changes for which the seat waits: those of its lane. A seat that names no lane never waits.
fn waiter_of(seat: &Seat) -> Waiter {
    match seat.lane() {
        Some(lane) => Waiter::Lane(lane),
        None => Waiter::Reader,
    }
}

impl SharedSftp {
    /// Steps the seat's lane until all of its calls have ended, and returns how many it has. Meanwhile it waits for
    /// VERSION and for replies. Returns 0 if the seat names no lane.
    ///
    /// # Errors
    ///
    /// `BackgroundTaskFailure` once the session has recorded a fault, and `OutOfMemory` if an allocation fails.
    pub fn poll_wait<R: Wait>(&self, rt: &R, seat: &mut Seat) -> Result<u64, Error>
        requires own { seat.old.inner.table_id ≡ self.now.shared.table.shared.table_id }
        ensures own { (seat.new.inner.table_id ≡ seat.old.inner.table_id) × (seat.new.lane ≡ seat.old.lane)
            × ((claim_of seat.new.inner.me).share ≡ (claim_of seat.old.inner.me).share) }
        ensures only { AddsEntries (by_step seat.old.lane) (claim_of seat.old.inner.me) (claim_of seat.new.inner.me) }
        ensures polls { PollsUntil seat.old.lane result seat.old.inner.me seat.new.inner.me }
        ensures ended { IfOk result (λ calls. SeesEnded seat.old.lane calls (sight_by seat.new.inner.me)) }
    {
        let who = waiter_of(seat);
        let mut seen = self.shared.changes(rt, who);
        for _ in rt.forever() {
            // No `?`: it converts the error, and `polls` is by cases on the result.
            let polled = match self.poll(rt, seat) {
                Ok(polled) => polled,
                Err(e) => return Err(e),
            };
            if polled.is_ended() {
                return Ok(polled.calls());
            }
            seen = self.pause(rt, polled, who, seen);
        }
        unreachable!()
    }

    /// Polls the seat's lane once.
    fn poll<R: Wait>(&self, rt: &R, seat: &mut Seat) -> Result<Polled, Error>
        requires own { seat.old.inner.table_id ≡ self.now.shared.table.shared.table_id }
        ensures own { (seat.new.inner.table_id ≡ seat.old.inner.table_id) × (seat.new.lane ≡ seat.old.lane)
            × ((claim_of seat.new.inner.me).share ≡ (claim_of seat.old.inner.me).share) }
        ensures only { AddsEntries (by_step seat.old.lane) (claim_of seat.old.inner.me) (claim_of seat.new.inner.me) }
        ensures polls { InOneHold (PollsSeat seat.old.lane) result seat.old.inner.me seat.new.inner.me }
    {
        let (did, copied) = seat.apply(rt, self.alloc, &self.shared, Poll);
        settle(did, copied)
    }

    /// Waits for a change that concerns the lane if the poll found nothing to do. Returns the number of changes up to
    /// which the next poll looks: `seen`, if it did not wait.
    fn pause<R: Wait>(&self, rt: &R, polled: Polled, who: Waiter, seen: u64) -> u64 {
        match polled {
            Polled::Waits => self.shared.wait(rt, who, seen),
            _ => seen,
        }
    }
}
