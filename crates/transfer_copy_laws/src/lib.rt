//! Laws of copies: the result of a whole copy that returned a count, for a file that nothing else changes at the same
//! time.
#![tactic(auto)]

mod laws;

pub use laws::{files_come_down_whole, files_go_up_whole, machine_gives_pieces};
