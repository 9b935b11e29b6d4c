//! The end of the shared session, and its report.
ghost use Rattle.std.specs.Prelude.{◌≡◌, ◌≤◌, ◌∷◌, [], IfErr, IfOk, Option, length, map, vec_capacity};
ghost use Rattle.session_seats.specs.Closes.{AllOf, Closes, HandsBack, claims_of, items_of};
ghost use Rattle.session_seats.specs.Covers.{CoversEntries, CoversPlacesOnce, HasAllSeats};
ghost use Rattle.sftp_model.specs.declared.error.Error.{Error as ErrorValue};
ghost use Rattle.session_work.specs.Working.{past_of};
ghost use Rattle.sftp_lanes.specs.Seen.{ReportsSession};
ghost use Rattle.sftp_tasks.specs.Reported.{IsPrepared, Refused, Reported, reason_of};
ghost use Rattle.sftp_tasks.specs.Shows.{shown_of};

use crate::copies::copies_of;
use crate::locked::Locked;
use crate::shared_sftp::{Seat, SharedSftp};
use session_driver::Phase;
use session_model::{Entry, Event, Report};
use session_seats::{Ended, Ending, NotEnded, Receipt, TakeOut};
use sftp_model::{Error, SftpOptions};
use ssh_encoding::OutOfMemory;
use std::alloc::Global;
use std::sync::Wait;

/// The report of a shared session.
///
/// Example: `crates/example_threads/src/socket.rt`.
#[derive(Drop)]
pub struct SharedReport {
    /// VERSION, the events of the journal, and the outcomes of each lane's calls.
    pub report: Report,
    /// The journal, the first entry first.
    pub journal: Vec<Entry>,
    /// The receipts of each seat, in the order of the seats that were passed in. Those of a lane's seat are of all
    /// entries of the lane.
    pub receipts: Vec<Vec<Receipt>>,
    /// True exactly if the session was open: then no grant is left to close.
    pub is_open: bool,
}

/// A shared session could not be closed. Its seats come back, each with its receipts.
///
/// Used by the functions of this module.
#[must_use]
pub struct NotClosed {
    /// `BackgroundTaskFailure` with the fault that is recorded in the journal that the first seat has seen, or
    /// `OutOfMemory`.
    pub error: Error,
    pub seat: Seat,
    pub others: Vec<Seat>,
}

/// The values that are made before the session ends, so that its report allocates no memory: a copy of its journal, an
/// empty list that has room for its events, and whether the session is open.
#[derive(Drop)]
struct Prepared {
    journal: Vec<Entry>,
    trace: Vec<Event>,
    is_open: bool,
}

/// The check that a session ends while calls of its lanes can be made.
#[derive(Drop)]
struct Unfailed {
    alloc: Global,
}

impl Ending<Locked, Prepared, Error> for Unfailed {
    ghost use Rattle.sftp_tasks.specs.Reported.{EndsSo, IsRefusedFor};

    ghost allows = { λ _ y p. EndsSo y.session p.journal p.trace p.is_open };

    ghost refuses = { λ _ y e. IsRefusedFor e y.session };

    fn look(&self, value: &Locked) -> Result<Prepared, Error> {
        if let Some(fault) = value.session.fault() {
            return Err(Error::BackgroundTaskFailure(fault));
        }
        if let Phase::Failed = value.session.phase() {
            return Err(Error::OutOfMemory);
        }
        match value.prepared(self.alloc) {
            Ok(prepared) => Ok(prepared),
            Err(OutOfMemory) => Err(Error::OutOfMemory),
        }
    }
}

impl Locked {
    /// Returns a copy of the journal, room for its events, and whether the session is open. Fails if an allocation
    /// fails.
    fn prepared(&self, alloc: Global) -> Result<Prepared, OutOfMemory>
        ensures { IfOk result (λ p. IsPrepared self.now.session p.journal p.trace p.is_open) }
    {
        let listed = self.session.journal();
        let journal = copies_of(alloc, listed)?;
        let trace = Vec::with_capacity(alloc, listed.len())?;
        Ok(Prepared {
            journal,
            trace,
            is_open: self.is_open(),
        })
    }

    /// Returns the report of the session, with its events in an empty list that has room for the journal.
    fn report_into(self, trace: Vec<Event>) -> Report
        requires empty { trace.items ≡ [] }
        requires room { length (past_of self.session.work) ≤ vec_capacity trace }
        ensures { ReportsSession self.session result }
    {
        let Locked {
            session,
            counts: _,
            users: _,
            seated: _,
        } = self;
        session.report_into(trace)
    }
}

/// Returns the reason that the session was not taken out: without a reported error, an allocation failed.
fn reason(error: Option<Error>) -> Error
    ensures { result ≡ reason_of error }
{
    match error {
        Some(error) => error,
        None => Error::OutOfMemory,
    }
}

impl SharedSftp {
    /// Takes the session out of its lock, if this check lets it end. Returns its remains, and what was made of it before.
    ///
    /// # Errors
    ///
    /// The reason of the check, and `OutOfMemory` if an allocation fails, also one for a receipt. The seats come back
    /// then, each with its receipts.
    pub(crate) fn take_out<T: Drop, X: Ending<Locked, T, Error> + Drop, R: Wait>(
        self,
        rt: &R,
        seat: Seat,
        others: Vec<Seat>,
        ending: X,
    ) -> Result<(Ended<Locked>, T), NotClosed>
        requires own { AllOf self.shared.table.shared.table_id (seat ∷ others.items) }
        ensures closes { IfOk result (λ r. Closes shown_of (seat ∷ others.items) r.0 × X.allows ending r.0.value r.1) }
        ensures covers { IfOk result (λ r. HasAllSeats (claims_of (seat ∷ others.items)) → CoversEntries shown_of r.0) }
        ensures refused { IfErr result (λ n. (why : Option ErrorValue) × ((n.error ≡ reason_of why)
            × HandsBack shown_of (X.refuses ending) seat others.items why n.seat n.others.items)) }
    {
        let SharedSftp { alloc, shared } = self;
        let Ok(empty) = Locked::new(alloc, &[], &SftpOptions::default()) else {
            return Err(NotClosed {
                error: Error::OutOfMemory,
                seat,
                others,
            });
        };
        match shared.close(rt, alloc, seat, others, TakeOut { ending, empty }) {
            Ok(taken) => Ok(taken),
            Err(
                NotEnded {
                    error,
                    seat,
                    others,
                },
            ) => Err(NotClosed {
                error: reason(error),
                seat,
                others,
            }),
        }
    }

    /// Ends the session, and reports what it did, with the receipts of each seat. Nothing is sent, and nothing is added
    /// to the journal.
    ///
    /// # Errors
    ///
    /// `BackgroundTaskFailure` if the session has recorded a fault, and `OutOfMemory` if an allocation fails, also one
    /// for a receipt. The seats come back then, each with its receipts.
    pub fn close<R: Wait>(
        self,
        rt: &R,
        seat: Seat,
        others: Vec<Seat>,
    ) -> Result<SharedReport, NotClosed>
        requires own { AllOf self.shared.table.shared.table_id (seat ∷ others.items) }
        ensures closes { IfOk result (λ r. Reported (seat ∷ others.items) r) }
        ensures covers { IfOk result (λ r. HasAllSeats (claims_of (seat ∷ others.items)) → CoversPlacesOnce (length r.journal.items) (map items_of r.receipts.items)) }
        ensures refused { IfErr result (λ n. Refused seat others.items n.error n.seat n.others.items) }
    {
        let ending = Unfailed { alloc: self.alloc };
        // No `?`: it converts the error, and `refused` is about the error itself.
        match self.take_out(rt, seat, others, ending) {
            Ok((ended, prepared)) => {
                let Ended { value, receipts } = ended;
                let Prepared {
                    journal,
                    trace,
                    is_open,
                } = prepared;
                Ok(SharedReport {
                    report: value.report_into(trace),
                    journal,
                    receipts,
                    is_open,
                })
            }
            Err(refused) => Err(refused),
        }
    }
}
