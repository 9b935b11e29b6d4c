//! A half of a link in whose `recv` another seat's round fails.
ghost use Rattle.std.specs.Prelude.{◌≡◌};

use sftp_link::{DeviceError, LinkIn, LinkState, ScriptedLink};
use sftp_tasks::*;
use std::alloc::Global;
use std::sync::Wait;

/// A half that ends at once. Its `recv` first makes a round of a seat of its own, which sends over a half that fails.
pub(crate) struct NestedIn<'a, R> {
    pub(crate) rt: &'a R,
    pub(crate) alloc: Global,
    pub(crate) shared: &'a SharedSftp,
    pub(crate) seat: Seat,
    /// The error of the round, once it was made.
    pub(crate) error: Option<Error>,
    pub(crate) ended: bool,
    ghost own: { seat.inner.table_id ≡ shared.now.shared.table.shared.table_id },
}

impl<'a, R> LinkState for NestedIn<'a, R> {
    ghost use Rattle.std.specs.Prelude.{None};

    ghost Service = { Unit {0} };

    ghost state = { λ h. record { log = None; faults = 0; ended = h.ended; service = tt } };
}

impl<'a, R: Wait> LinkIn for NestedIn<'a, R> {
    /// Makes the round, and returns that the link has ended.
    fn recv(&mut self, room: &mut [u8]) -> Result<usize, DeviceError> {
        let _ = room;
        self.ended = false;
        let mut fails = Vec::new(self.alloc);
        fails.push(0)?;
        let mut out = ScriptedLink::new(self.alloc, Vec::new(self.alloc), fails, 0);
        if let Err(e) = flush_round(self.rt, self.shared, &mut self.seat, &mut out) {
            self.error = Some(e);
        }
        self.ended = true;
        Ok(0)
    }
}
