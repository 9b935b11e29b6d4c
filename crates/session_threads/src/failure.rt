//! The end of a session that an error stopped, and of seats that no report has.
ghost use Rattle.std.specs.Prelude.{◌≡◌, ◌⊎◌, ◌∷◌};
ghost use Rattle.session_seats.specs.Closes.{AllOf};
ghost use Rattle.sftp_model.specs.declared.error.Error.TheVariants as error;
ghost use Rattle.sftp_model.specs.declared.error.Fault.{Fault};
ghost use Rattle.sftp_tasks.specs.Reported.{EndedByFault};

use sftp_tasks::{Error, NotClosed, Seat, SharedSftp};
use std::sync::Wait;

/// Ends the seats of a run that has no report.
pub(crate) fn spend(seats: Vec<Seat>) {
    let mut seats = seats.into_iter();
    while let Some(seat) = seats.next() {
        drop(seat.into_receipts());
    }
    seats.destroy_empty();
}

/// Ends the seats of a session that could not be closed, and returns the reason.
pub fn spend_refused(refused: NotClosed) -> Error
    ensures { result ≡ refused.error }
{
    let NotClosed {
        error,
        seat,
        others,
    } = refused;
    drop(seat.into_receipts());
    spend(others);
    error
}

/// Ends a session that this error stopped, and returns the error: the journal ends by a fault. Returns `OutOfMemory` if
/// an allocation fails.
pub(crate) fn close_failed<R: Wait>(
    rt: &R,
    shared: SharedSftp,
    first: Seat,
    others: Vec<Seat>,
    why: Error,
) -> Error
    requires own { AllOf shared.shared.table.shared.table_id (first ∷ others.items) }
    ensures { (result ≡ error.OutOfMemory)
        ⊎ ((result ≡ why) × ((fault : Fault) × EndedByFault (first ∷ others.items) fault)) }
{
    match shared.close_failed(rt, first, others) {
        Ok(_fault) => why,
        Err(refused) => {
            drop(spend_refused(refused));
            Error::OutOfMemory
        }
    }
}
