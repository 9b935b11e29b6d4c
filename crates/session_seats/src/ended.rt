//! The end of a shared value: its seats are taken in, and it is taken out.
ghost use Rattle.std.specs.Prelude.{◌≡◌, ◌∷◌, ◌++◌, ◌+◌, ◌≤◌, length, true, vec_capacity, vec_len, IfOk, IfErr};
ghost use Rattle.std.specs.List.{list_all};
ghost use Rattle.session_seats.specs.Closes.{AllOf, AllWhole, CanJoin, Closes, HandsBack, JoinsAll, Returns, TakesOut, claims_of, receipts_of, whole_of};
ghost use Rattle.session_seats.specs.Covers.{HasAllSeats, CoversEntries};

use crate::rule::{Check, Held, TakeIn};
use crate::seat::Seat;
use crate::shared::Shared;
use crate::view::{Receipt, View};
use atomic_table::Seat as Inner;
use std::alloc::Global;
use std::mem;
use std::sync::Wait;

/// The remains of a shared value: the value, and for each seat its receipts.
///
/// Example: `crates/test_tasks/src/one_thread.rt`.
#[derive(Drop)]
pub struct Ended<S: Drop> {
    pub value: S,
    pub receipts: Vec<Vec<Receipt>>,
}

/// A check of whether a shared value may be taken out. If it may, `T` is what was made of it before; otherwise `E` says
/// why not.
///
/// Used in `crates/sftp_tasks/src/report.rt`.
pub trait Ending<S: Held, T, E> {
    ghost use Rattle.std.specs.Prelude.{IfOk, IfErr};

    // The condition of a value that may be taken out, and what was made of it.
    ghost allows: { Self → S → T → Type 0 };
    // The condition under which it may not be taken out.
    ghost refuses: { Self → S → E → Type 0 };

    /// Looks at the value, which is taken out unchanged.
    ///
    /// # Errors
    ///
    /// The reason that the value may not be taken out.
    fn look(&self, value: &S) -> Result<T, E>
        ensures allowed { IfOk result (allows self.now value.now) }
        ensures refused { IfErr result (refuses self.now value.now) };
}

/// How a shared value is taken out: the check of whether it may be, and the value that is dropped in its place.
///
/// Used in `crates/sftp_tasks/src/report.rt`.
#[derive(Drop)]
pub struct TakeOut<S: Drop, X: Drop> {
    pub ending: X,
    pub empty: S,
}

/// A shared value was not taken out. Its seats come back with all their receipts.
///
/// Used in `crates/sftp_tasks/src/report.rt`.
#[must_use]
pub struct NotEnded<S: Held + Drop, E: Drop> {
    /// The reason that it may not be taken out. `None` if an allocation failed, now or earlier for a receipt of one of
    /// the seats.
    pub error: Option<E>,
    pub seat: Seat<S>,
    pub others: Vec<Seat<S>>,
}

impl<S: Held + Drop> Shared<S> {
    /// Takes the seats in, and the value out, if it may be taken out. With `Ok` it returns the receipts of each seat in
    /// the order of the seats, and what was made of the value before.
    ///
    /// # Errors
    ///
    /// `NotEnded` if the value may not be taken out, or an allocation failed now or earlier for a receipt. No seat was
    /// taken in then, and each comes back with its receipts.
    pub fn close<T: Drop, E: Drop, X: Ending<S, T, E> + Drop, R: Wait>(
        self,
        rt: &R,
        alloc: Global,
        seat: Seat<S>,
        others: Vec<Seat<S>>,
        out: TakeOut<S, X>,
    ) -> Result<(Ended<S>, T), NotEnded<S, E>>
        requires own { AllOf self.table.shared.table_id (seat ∷ others.items) }
        ensures closes { IfOk result (λ r. Closes S.shown (seat ∷ others.items) r.0 × X.allows out.ending r.0.value r.1) }
        ensures covers { IfOk result (λ r. HasAllSeats (claims_of (seat ∷ others.items)) → CoversEntries S.shown r.0) }
        ensures kept { IfErr result (λ n. HandsBack S.shown (X.refuses out.ending) seat others.items n.error n.seat n.others.items) }
    {
        let mut lists = Vec::new(alloc);
        if lists.reserve(others.len().saturating_add(1)).is_err() {
            return Err(NotEnded {
                error: None,
                seat,
                others,
            });
        }
        if !has_all(&seat, &others) {
            return Err(NotEnded {
                error: None,
                seat,
                others,
            });
        }
        let (mut inner, receipts, made) = match self.take_out(rt, seat, &out.ending) {
            Ok(taken) => taken,
            Err((e, seat)) => {
                return Err(NotEnded {
                    error: Some(e),
                    seat,
                    others,
                });
            }
        };
        lists.push_reserved(receipts);
        self.join_all(&mut inner, &mut lists, others);
        self.table.shared.load::<Check>(&mut inner, 0);
        let held = inner.slot_mut(&self.table.shared, 0);
        let value = mem::replace(held, out.empty);
        let ended = Ended {
            value,
            receipts: lists,
        };
        Ok((ended, made))
    }

    /// Returns the seat's token that has the value, the seat's receipts, and what was made of the value. The seat comes
    /// back if the value may not be taken out.
    fn take_out<T: Drop, E: Drop, X: Ending<S, T, E>, R: Wait>(
        &self,
        rt: &R,
        seat: Seat<S>,
        ending: &X,
    ) -> Result<(Inner<S, View>, Vec<Receipt>, T), (E, Seat<S>)>
        requires own { seat.inner.table_id ≡ self.now.table.shared.table_id }
        ensures taken { IfOk result (λ r. (r.0.table_id ≡ seat.inner.table_id) × (r.1 ≡ seat.receipts) × TakesOut S.shown (λ y. X.allows ending.now y r.2) seat.inner.me r.0.me) }
        ensures kept { IfErr result (λ r. Returns S.shown (X.refuses ending.now) seat r.1 r.0) }
    {
        let Seat {
            mut inner,
            lane,
            receipts,
            whole,
            share,
        } = seat;
        self.acquire(rt, &mut inner);
        let held = inner.slot_mut(&self.table.shared, 0);
        match ending.look(held) {
            Ok(made) => Ok((inner, receipts, made)),
            Err(e) => {
                self.release(&mut inner);
                let seat = Seat {
                    inner,
                    lane,
                    receipts,
                    whole,
                    share,
                };
                Err((e, seat))
            }
        }
    }

    /// Takes the seats in.
    fn join_all(
        &self,
        base: &mut Inner<S, View>,
        lists: &mut Vec<Vec<Receipt>>,
        seats: Vec<Seat<S>>,
    )
        requires own { base.old.table_id ≡ self.now.table.shared.table_id }
        requires others { AllOf self.now.table.shared.table_id seats.items }
        requires may { CanJoin base.old.me × (vec_len lists.old + length seats.items ≤ vec_capacity lists.old) }
        ensures own { base.new.table_id ≡ base.old.table_id }
        ensures joined { JoinsAll base.old.me base.new.me seats.items }
        ensures lists { lists.new.items ≡ lists.old.items ++ receipts_of seats.items }
    {
        let mut rest = seats.into_iter();
        while let Some(seat) = rest.next() {
            let Seat {
                inner,
                lane: _,
                receipts,
                whole: _,
                share: _,
            } = seat;
            self.table.shared.join_seat::<TakeIn>(base, inner);
            lists.push_reserved(receipts);
        }
        rest.destroy_empty();
    }
}

/// Returns true if no allocation for a receipt of one of the seats failed.
fn has_all<S: Held + Drop>(seat: &Seat<S>, others: &[Seat<S>]) -> bool
    ensures { result ≡ true → (seat.now.whole ≡ true) × AllWhole others.now }
{
    seat.whole && are_whole(others)
}

fn are_whole<S: Held + Drop>(seats: &[Seat<S>]) -> bool
    ensures { result ≡ list_all whole_of seats.now }
{
    seats.iter().all(|seat| seat.whole)
}
