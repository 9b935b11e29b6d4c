//! New seats, which other seats give.
ghost use Rattle.std.specs.Prelude.{◌≡◌, ◌<◌, None, Some, false, true, IfNone, IfSome};
ghost use Rattle.session_seats.specs.NewSeats.{Gives, GivesLane, HasNone};
ghost use Rattle.session_seats.specs.Holds.{IsFresh, IsSeat, claim_of};

use crate::rule::{Held, LaneSeat, WorkerSeat};
use crate::seat::Seat;
use crate::shared::Shared;
use crate::view::View;
use atomic_table::Seat as Inner;
use std::alloc::Global;
use std::sync::Wait;

impl<S: Held + Drop> Shared<S> {
    /// Returns a worker's token: it names no lane, and has no share.
    pub(crate) fn give_worker<R: Wait>(&self, rt: &R, from: &mut Inner<S, View>) -> Inner<S, View>
        requires own { from.old.table_id ≡ self.now.table.shared.table_id }
        requires free { IsSeat from.old.me }
        ensures own { (from.new.table_id ≡ from.old.table_id) × (result.table_id ≡ from.old.table_id) }
        ensures free { IsSeat from.new.me × IsSeat result.me }
        ensures given { Gives S.shown false from.old.me from.new.me result.me }
        ensures fresh { IsFresh (claim_of result.me) None }
    {
        self.acquire(rt, from);
        let new = self.table.shared.split_seat::<WorkerSeat>(from);
        self.release(from);
        new
    }

    /// Returns the token of the next lane, with a share, or `None` if each lane has one.
    pub(crate) fn give_lane<R: Wait>(
        &self,
        rt: &R,
        from: &mut Inner<S, View>,
    ) -> Option<(Inner<S, View>, u32)>
        requires own { from.old.table_id ≡ self.now.table.shared.table_id }
        requires free { IsSeat from.old.me }
        requires share { 0 < (claim_of from.old.me).share }
        ensures own { (from.new.table_id ≡ from.old.table_id) × IsSeat from.new.me }
        ensures given { IfSome result (λ s. GivesLane S.shown (Some s.1) from.old.me from.new.me s.0.me × (s.0.table_id ≡ from.old.table_id) × IsSeat s.0.me) }
        ensures none { IfNone result (HasNone S.shown from.old.me from.new.me) }
    {
        self.acquire(rt, from);
        let held = from.slot_mut(&self.table.shared, 0);
        match held.seat_lane() {
            Some(lane) => {
                let new = self.table.shared.split_seat::<LaneSeat>(from);
                self.release(from);
                Some((new, lane))
            }
            None => {
                self.release(from);
                None
            }
        }
    }
}

impl<S: Held + Drop> Shared<S> {
    /// Returns a worker's seat: it names no lane, and has no share among the users.
    pub fn worker_seat<R: Wait>(&self, rt: &R, alloc: Global, from: &mut Seat<S>) -> Seat<S>
        requires { from.old.inner.table_id ≡ self.now.table.shared.table_id }
        ensures own { (from.new.inner.table_id ≡ from.old.inner.table_id) × (result.inner.table_id ≡ from.old.inner.table_id) }
        ensures same { (from.new.lane ≡ from.old.lane) × (from.new.receipts ≡ from.old.receipts) × (from.new.whole ≡ from.old.whole) }
        ensures given { Gives S.shown false from.old.inner.me from.new.inner.me result.inner.me }
        ensures fresh { (result.lane ≡ None) × IsFresh (claim_of result.inner.me) None }
    {
        let inner = from.give_worker(rt, self);
        Seat::fresh(alloc, inner, None, 0)
    }

    /// Returns the next lane's seat, from lane 0 on, with a share among the users. Returns `None` exactly if each lane
    /// that the value was made of has one; nothing changes then. The seat `from` must have a share itself.
    pub fn seat<R: Wait>(&self, rt: &R, alloc: Global, from: &mut Seat<S>) -> Option<Seat<S>>
        requires own { from.old.inner.table_id ≡ self.now.table.shared.table_id }
        requires share { 0 < (claim_of from.old.inner.me).share }
        ensures own { from.new.inner.table_id ≡ from.old.inner.table_id }
        ensures same { (from.new.lane ≡ from.old.lane) × (from.new.receipts ≡ from.old.receipts) × (from.new.whole ≡ from.old.whole) }
        ensures given { IfSome result (λ s. GivesLane S.shown s.lane from.old.inner.me from.new.inner.me s.inner.me × (s.inner.table_id ≡ from.old.inner.table_id)) }
        ensures none { IfNone result (HasNone S.shown from.old.inner.me from.new.inner.me) }
    {
        match from.give_lane(rt, self) {
            Some((inner, lane)) => Some(Seat::fresh(alloc, inner, Some(lane), 1)),
            None => None,
        }
    }
}
