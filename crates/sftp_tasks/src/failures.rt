//! The end of a shared session that recorded a fault.
ghost use Rattle.std.specs.Prelude.{◌≡◌, ◌∷◌, List, IfErr, IfOk, IfSome, reverse};
ghost use Rattle.session_model.specs.declared.entry.Entry.{Entry as EntryValue};
ghost use Rattle.session_model.specs.declared.entry.Entry.TheVariants as entry;
ghost use Rattle.session_seats.specs.Closes.{AllOf};
ghost use Rattle.sftp_tasks.specs.Reported.{ComesBack, EndedByFault};

use crate::locked::Locked;
use crate::report::NotClosed;
use crate::shared_sftp::{Seat, SharedSftp};
use session_model::Entry;
use session_seats::Ending;
use sftp_model::{Error, Fault};
use std::sync::Wait;

/// The check that a session ends by the fault that it recorded.
#[derive(Drop)]
struct ByFault;

impl Ending<Locked, Fault, Error> for ByFault {
    ghost use Rattle.std.specs.Prelude.{◌≡◌};
    ghost use Rattle.sftp_model.specs.declared.error.Error.TheVariants as error;
    ghost use Rattle.sftp_tasks.specs.Reported.{EndsByFault};

    ghost allows = { λ _ y fault. EndsByFault y.session fault };

    ghost refuses = { λ _ y e. e ≡ error.OutOfMemory };

    fn look(&self, value: &Locked) -> Result<Fault, Error> {
        match newest_fault(value.session.journal()) {
            Some(fault) => Ok(fault),
            None => Err(Error::OutOfMemory),
        }
    }
}

/// Returns the fault that the newest entry of a journal records, or `None` if it records none.
fn newest_fault(journal: &[Entry]) -> Option<Fault>
    ensures { IfSome result (λ fault. (before : List EntryValue) × (reverse journal.now ≡ entry.Kept fault ∷ before)) }
{
    match journal.last() {
        Some(Entry::Kept(fault)) => Some(*fault),
        _ => None,
    }
}

impl SharedSftp {
    /// Ends a session that recorded a fault, and returns the fault: the journal ends by it. Nothing is sent, and
    /// nothing is added to the journal.
    ///
    /// # Errors
    ///
    /// `OutOfMemory` if an allocation fails, also one for a receipt, and if the journal doesn't end by a fault. The
    /// seats come back then, each with its receipts.
    pub fn close_failed<R: Wait>(
        self,
        rt: &R,
        seat: Seat,
        others: Vec<Seat>,
    ) -> Result<Fault, NotClosed>
        requires own { AllOf self.shared.table.shared.table_id (seat ∷ others.items) }
        ensures closes { IfOk result (EndedByFault (seat ∷ others.items)) }
        ensures refused { IfErr result (λ n. ComesBack seat n.seat others.items n.others.items) }
    {
        // No `?`: it converts the error, and `refused` is about the error itself.
        match self.take_out(rt, seat, others, ByFault) {
            Ok((_ended, fault)) => Ok(fault),
            Err(refused) => Err(refused),
        }
    }
}
