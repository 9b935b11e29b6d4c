//! The one state below all calls of files, directories and paths: a runner, and the ticket of the reply that it awaits.
//! Polling, cancelling and releasing are implemented here once, for any call.
#![tactic(auto)]

mod call;
mod laws;
mod poll;
mod runner;
mod stage;
mod submission;
mod told;

pub use call::{Alone, PendingCall};
pub use laws::{calls_keep_what_is_held, cancelled_opens_are_closed, others_keep_what_they_hold};
pub use poll::Poll;
pub use runner::{PlanRunner, Then};
pub use stage::Stage;
pub use submission::Asking;
pub use told::Told;
