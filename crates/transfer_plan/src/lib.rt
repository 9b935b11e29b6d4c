//! The names of directory entries and the paths made of them.
#![tactic(auto)]

mod apart;
mod below;
mod carry;
mod component;
mod cut;
mod found;
mod hand;
mod link;
mod part;
mod path_set;
mod tally;
mod task;
mod walk;

pub use apart::keep_apart;
pub use below::path_in;
pub use carry::carry_out;
pub use component::is_component;
pub use cut::last_component;
pub use found::Found;
pub use hand::{Hand, JobVerdict};
pub use link::leads_out;
pub use part::{is_part_of, part_path};
pub use ssh_encoding::OutOfMemory;
pub use tally::Tally;
pub use task::{EntryKind, MAX_DEPTH, Task};
pub use walk::{MAX_ENTRIES, Walk, WalkError};
