//! The shared value, protected by its lock.
ghost use Rattle.std.specs.Prelude.{◌≡◌, [], None, IfOk};
ghost use Rattle.session_seats.specs.Rules.{home};
ghost use Rattle.session_seats.specs.Holds.{CanRelease, HasTaken, IsSeat, Releases, at_first};

use crate::origin::Origin;
use crate::rule::{Acquire, Held, Release, SeatRule};
use crate::seat::Seat;
use crate::view::View;
use crate::waits::{Condvars, Gate};
use atomic_table::{Seat as Inner, Table};
use ssh_encoding::OutOfMemory;
use std::alloc::Global;
use std::sync::{Mutex, Wait};
use std::thread;

/// A value that threads share: it lies in the one slot of a table, and a thread that has taken the slot holds the lock.
///
/// Used in `crates/sftp_tasks/src/shared_sftp.rt`.
#[derive(Drop)]
pub struct Shared<S: Held + Drop> {
    pub(crate) table: Table<S, View, Origin, SeatRule, Global>,
    // Threads that are about to take the value wait here. It counts the changes, for those that wait for one.
    pub(crate) gate: Mutex<Gate>,
    pub(crate) condvars: Condvars,
    ghost sized: { (table.shared.table_id.words ≡ 1) × (table.shared.table_id.slots ≡ 1) },
}

impl<S: Held + Drop> Shared<S> {
    /// Returns the value protected by its lock, which nobody has used yet and which was made of this; and the home
    /// seat, which names no lane. Each of `lanes` lanes has a condition variable of its own.
    ///
    /// # Errors
    ///
    /// `OutOfMemory` if an allocation fails.
    pub fn new(
        alloc: Global,
        value: S,
        origin: &Origin,
        lanes: usize,
    ) -> Result<(Shared<S>, Seat<S>), OutOfMemory>
        requires { S.shown value ≡ at_first origin.now }
        ensures { IfOk result (λ r. (r.1.inner.me ≡ (home origin.now, [])) × (r.1.lane ≡ None)
            × (r.1.receipts.items ≡ []) × (r.1.inner.table_id ≡ r.0.table.shared.table_id)) }
    {
        let gate = Gate::new(alloc, lanes)?;
        let condvars = Condvars::new(alloc, lanes)?;
        let mut slots = Vec::new(alloc);
        if slots.reserve(1).is_err() {
            return Err(OutOfMemory);
        }
        slots.push_reserved(value);
        match Table::new(alloc, &[0], slots, origin) {
            Ok((table, inner)) => Ok((
                Shared {
                    table,
                    gate: Mutex::new(gate),
                    condvars,
                },
                Seat::home(alloc, inner),
            )),
            Err(_) => Err(OutOfMemory),
        }
    }

    /// Takes the value, once no other seat has it.
    pub(crate) fn acquire<R: Wait>(&self, rt: &R, seat: &mut Inner<S, View>)
        requires own { seat.old.table_id ≡ self.now.table.shared.table_id }
        requires free { IsSeat seat.old.me }
        ensures own { seat.new.table_id ≡ seat.old.table_id }
        ensures taken { HasTaken S.shown seat.old.me seat.new.me }
    {
        for _ in rt.forever() {
            if self.table.shared.compare_exchange::<Acquire>(seat, 0, 0, 1) == 0 {
                return;
            }
            thread::yield_now();
        }
        unreachable!()
    }

    /// Gives the value back.
    pub(crate) fn release(&self, seat: &mut Inner<S, View>)
        requires own { seat.old.table_id ≡ self.now.table.shared.table_id }
        requires held { CanRelease S.shown seat.old.me }
        ensures own { seat.new.table_id ≡ seat.old.table_id }
        ensures gave { Releases S.shown seat.old.me seat.new.me }
    {
        self.table.shared.store::<Release>(seat, 0, 0);
    }
}
