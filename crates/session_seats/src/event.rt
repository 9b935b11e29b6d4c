//! Events: the effect of one hold of the lock on the value that it protects.
use crate::rule::Held;

/// An operation on the shared value in one hold, with the answer `A`. By its three ghost members an event says which
/// entries it may add, what it needs of its seat's counts, and what it does.
///
/// Used in `crates/sftp_tasks/src/events.rt`.
pub trait Event<S: Held, A> {
    ghost use Rattle.std.specs.Prelude.{ℕ, Bool, Option};
    ghost use Rattle.session_model.specs.declared.entry.Entry.{Entry};
    ghost use Rattle.session_seats.specs.Holds.{Allowance, GoesBy, HasUsers, passes};

    // The entries that it may add for the seat of a lane, with any answer.
    ghost only: { Self → Option ℕ → Entry → Bool };
    // The number of frames that it reports as written, and the number of shares that it gives up.
    ghost needs: { Self → Allowance };
    // The relation between the value before and after, and the answer.
    ghost does: { Self → Option ℕ → S → S → A → Type 0 };

    /// Does the operation, for a seat that names this lane, or none.
    fn act(self, value: &mut S, lane: Option<u32>) -> A
        requires { HasUsers (needs self) (S.shown value.old) }
        ensures goes { GoesBy (passes (only self) lane) (needs self) (S.shown value.old) (S.shown value.new) }
        ensures does { does self lane value.old value.new result };
}
