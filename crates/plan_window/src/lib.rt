//! The READs of a whole read: those that were answered, those in flight, and the next move that follows from them. This
//! crate sends and receives nothing, and knows no calls.
#![tactic(auto)]

mod begins;
mod content;
mod gap;
mod laws;
mod next_move;
mod numbers;
mod tally;
mod window;

pub use laws::windows_tell_the_plan;
pub use next_move::WindowMove;
pub use window::{Answered, ReadAt, Window};
