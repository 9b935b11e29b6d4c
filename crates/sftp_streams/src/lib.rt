//! The bytes of an open file as a stream: read in order, or written one after another, with many requests under way.
#![tactic(auto)]

mod download;
mod laws;
mod parts;
mod upload;

pub use download::Download;
pub use laws::{files_are_given_whole, pieces_are_the_run, polls_follow_the_run};
pub use parts::Part;
pub use upload::Upload;
