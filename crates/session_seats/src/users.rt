//! Users, which leave one by one. The stage of the end rises once the last one has left.
ghost use Rattle.std.specs.Prelude.{◌≡◌, ◌<◌};
ghost use Rattle.session_seats.specs.Holds.{IsSeat, claim_of};
ghost use Rattle.session_seats.specs.Users.{Leaves};

use crate::rule::Held;
use crate::seat::Seat;
use crate::shared::Shared;
use crate::view::View;
use crate::wakes::{WakeSet, nobody, with_tide};
use atomic_table::Seat as Inner;
use std::sync::Wait;

impl<S: Held + Drop> Shared<S> {
    /// Gives up a share of the seat, and with it a user. Returns true if this was the last one, and the waiting threads
    /// that this concerns.
    pub(crate) fn leave_with<R: Wait>(&self, rt: &R, seat: &mut Inner<S, View>) -> (bool, WakeSet)
        requires own { seat.old.table_id ≡ self.now.table.shared.table_id }
        requires free { IsSeat seat.old.me }
        requires share { 0 < (claim_of seat.old.me).share }
        ensures own { seat.new.table_id ≡ seat.old.table_id }
        ensures free { IsSeat seat.new.me }
        ensures left { Leaves S.shown result.0 seat.old.me seat.new.me }
    {
        self.acquire(rt, seat);
        let held = seat.slot_mut(&self.table.shared, 0);
        let before = held.tide();
        let last = held.leave();
        let concerned = with_tide(before, held.tide(), nobody());
        self.release(seat);
        (last, concerned)
    }
}

impl<S: Held + Drop> Seat<S> {
    /// Gives up a share. Returns true if this was the last user: the stage of the end is 1 then, and no user comes any
    /// more.
    pub fn leave<R: Wait>(&mut self, rt: &R, shared: &Shared<S>) -> bool
        requires own { self.old.inner.table_id ≡ shared.now.table.shared.table_id }
        requires share { 0 < (claim_of self.old.inner.me).share }
        ensures own { self.new.inner.table_id ≡ self.old.inner.table_id }
        ensures same { (self.new.lane ≡ self.old.lane) × (self.new.receipts ≡ self.old.receipts) × (self.new.whole ≡ self.old.whole) }
        ensures left { Leaves S.shown result self.old.inner.me self.new.inner.me }
    {
        let mut gate = shared.gate.lock(rt);
        let (last, concerned) = shared.leave_with(rt, &mut self.inner);
        self.share -= 1;
        gate.note(concerned);
        drop(gate);
        shared.condvars.notify(concerned);
        last
    }
}
