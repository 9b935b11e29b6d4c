//! Copies of a list of files: the lanes that copy them, the turns under which they run, and the result of each file by
//! the outcomes of its calls.
#![tactic(auto)]

mod directories;
mod directory;
mod job;
mod lanes;
mod laws;
mod text;
mod turns;
mod verdict;
mod verdicts;

pub use directories::parents;
pub use directory::Directory;
pub use job::Job;
pub use lanes::lanes_of;
pub use laws::{copies_keep_files, good_files_are_copied, written_names_denote_themselves};
pub use ssh_encoding::OutOfMemory;
pub use text::write_verdicts;
pub use turns::turns_for;
pub use verdict::Verdict;
pub use verdicts::{verdict_of, verdicts_of};
