//! Seats at a session that threads share. One lock protects the session, each thread accesses it by a seat of its own,
//! and the rule of the lock gives for every entry of the journal the seat that made it. The crate is generic in the
//! value that the lock protects.
#![tactic(auto)]

mod ended;
mod event;
mod laws;
mod new_seats;
mod origin;
mod rule;
mod seat;
mod shared;
mod users;
mod view;
mod waits;
mod wakes;

pub use ended::{Ended, Ending, NotEnded, TakeOut};
pub use event::Event;
pub use laws::{changes_are_counted, others_have_no_news, quiet_holds_change_nothing};
pub use origin::Origin;
pub use rule::{Acquire, Check, Held, LaneSeat, Release, SeatRule, TakeIn, WorkerSeat};
pub use seat::Seat;
pub use shared::Shared;
pub use view::{Claim, Counts, Receipt, SeatName, Sight, Stamp, View};
pub use wakes::{LaneSet, Tide, Waiter, WakeSet};
