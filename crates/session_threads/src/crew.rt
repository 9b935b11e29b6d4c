//! The seats of a run.
ghost use Rattle.std.specs.Prelude.{◌≡◌, ◌<◌, ◌∷◌, ◌++◌, [], IfOk, length};

use crate::failure::spend;
use sftp_tasks::{OutOfMemory, Seat};

/// The seats of a run, all at one session. The home seat gave the others.
///
/// Example: `crates/example_threads/src/calls.rt`.
#[must_use]
pub struct Crew {
    /// The seat that names no lane, and gave the others.
    pub home: Seat,
    /// The seats of the lanes, in lane order.
    pub lanes: Vec<Seat>,
    /// The seat of the worker that sends.
    pub sender: Seat,
    /// The seat of the worker that reads.
    pub reader: Seat,
}

impl Crew {
    /// Ends all seats of a run that has no report.
    pub fn spend(self) {
        let Crew {
            home,
            lanes,
            sender,
            reader,
        } = self;
        drop(home.into_receipts());
        spend(lanes);
        drop(sender.into_receipts());
        drop(reader.into_receipts());
    }

    /// Returns the first of all seats, and the others: those of the lanes come first, then the home seat, and then
    /// those of the worker that sends and of the one that reads. A report lists receipts in this order.
    ///
    /// # Errors
    ///
    /// `OutOfMemory` if an allocation fails; all seats have ended then.
    pub fn into_seats(self) -> Result<(Seat, Vec<Seat>), OutOfMemory>
        ensures { IfOk result (λ r. r.0 ∷ r.1.items ≡ self.lanes.items ++ self.home ∷ self.sender ∷ self.reader ∷ []) }
    {
        let mut crew = self;
        if crew.lanes.reserve(3).is_err() {
            crew.spend();
            return Err(OutOfMemory);
        }
        let Crew {
            home,
            lanes,
            sender,
            reader,
        } = crew;
        let mut seats = lanes;
        seats.push_reserved(home);
        seats.push_reserved(sender);
        seats.push_reserved(reader);
        Ok(first_of(seats))
    }
}

/// Returns the first of the seats, and the others.
fn first_of(seats: Vec<Seat>) -> (Seat, Vec<Seat>)
    requires { 0 < length seats.items }
    ensures { seats.items ≡ result.0 ∷ result.1.items }
{
    let mut others = seats;
    let first = others.remove(0);
    (first, others)
}
