//! The rule of the lock: the value that it protects, and each step by which a seat accesses it.
ghost use Rattle.std.specs.Prelude.{◌≡◌, reverse};

use crate::origin::Origin;
use crate::view::View;
use crate::wakes::Tide;
use atomic_table::{Join, Play, Split, TableRule};
use session_model::Entry;

/// A value that a lock can protect: it shows a journal, what it was made of, its counts and its users.
///
/// Used in `crates/session_seats/src/event.rt`.
pub trait Held {
    ghost use Rattle.std.specs.Prelude.{◌<◌, ◌≤◌, ◌-◌, ◌==◌, true, length, IfNone, IfSome};
    ghost use Rattle.session_seats.specs.Sights.{Shown, one_if};
    ghost use Rattle.session_seats.specs.NewSeats.{with_seat};
    ghost use Rattle.session_seats.specs.Users.{with_users};
    ghost use Rattle.session_seats.specs.Wakes.{tide_of};

    // The view of the value.
    ghost shown: { Self → Shown };

    /// Returns its journal, the first entry first.
    fn entries(&self) -> &[Entry]
        ensures { reverse result.now ≡ (shown self.now).past };

    /// Returns the numbers by which a change may concern threads that wait.
    fn tide(&self) -> Tide
        ensures { result ≡ tide_of (shown self.now).counts };

    /// Returns how many users there are.
    fn users(&self) -> u64
        ensures { result ≡ (shown self.now).users };

    /// Returns the next lane that has no seat, from lane 0 on. It then has one, and there is another user. Returns
    /// `None` exactly if each lane that it was made of has one.
    fn seat_lane(&mut self) -> Option<u32>
        ensures given { IfSome result (λ lane. (lane ≡ (shown self.old).seated) × (shown self.new ≡ with_seat true (shown self.old))) }
        ensures some { IfSome result (λ lane. lane < length (shown self.old).lanes) }
        ensures none { IfNone result (shown self.new ≡ shown self.old) }
        ensures all { IfNone result (length (shown self.old).lanes ≤ (shown self.old).seated) };

    /// Removes one user. Returns true if it was the last: then the end has started, with stage 1.
    fn leave(&mut self) -> bool
        requires { (0 < (shown self.old).users) × ((shown self.old).counts.stage ≡ 0) }
        ensures last { result ≡ ((shown self.old).users == 1) }
        ensures left { shown self.new ≡ with_users ((shown self.old).users - 1) (one_if result) (shown self.old) };
}

/// The rule of the table, whose one slot has the value.
///
/// Used in `crates/session_seats/src/shared.rt`.
pub struct SeatRule;

impl<S: Held> TableRule<S, View, Origin> for SeatRule {
    ghost use Rattle.session_seats.specs.Rules.{Kept, home};

    ghost holds = { λ _. Kept S.shown };

    ghost first = { λ made. home made };
}

/// Takes the slot, if it is at home.
///
/// Used in `crates/session_seats/src/shared.rt`.
pub struct Acquire;

impl<S: Held> Play<S, View> for Acquire {
    ghost use Rattle.session_seats.specs.Rules.{acquired};

    ghost then = { acquired S.shown };
}

/// Gives the slot back. The entries that were added to the journal are this seat's.
///
/// Used in `crates/session_seats/src/shared.rt`.
pub struct Release;

impl<S: Held> Play<S, View> for Release {
    ghost use Rattle.session_seats.specs.Rules.{released};

    ghost then = { released S.shown };
}

/// Reports the consequences of the rule for the claims of the seat that has the slot.
///
/// Used in `crates/session_seats/src/ended.rt`.
pub struct Check;

impl<S: Held> Play<S, View> for Check {
    ghost use Rattle.session_seats.specs.Rules.{checked_step};

    ghost then = { checked_step };
}

/// Cuts off a seat that names the next lane.
///
/// Used in `crates/session_seats/src/new_seats.rt`.
pub struct LaneSeat;

impl Split<View> for LaneSeat {
    ghost use Rattle.std.specs.Prelude.{true};
    ghost use Rattle.session_seats.specs.Rules.{giver, newcomer};

    ghost left = { giver true };

    ghost right = { newcomer true };
}

/// Cuts off a seat that names no lane.
///
/// Used in `crates/session_seats/src/new_seats.rt`.
pub struct WorkerSeat;

impl Split<View> for WorkerSeat {
    ghost use Rattle.std.specs.Prelude.{false};
    ghost use Rattle.session_seats.specs.Rules.{giver, newcomer};

    ghost left = { giver false };

    ghost right = { newcomer false };
}

/// Takes in another seat's claims.
///
/// Used in `crates/session_seats/src/ended.rt`.
pub struct TakeIn;

impl Join<View> for TakeIn {
    ghost use Rattle.session_seats.specs.Rules.{joined_views, nobody};

    ghost both = { joined_views };

    ghost spent = { nobody };
}
