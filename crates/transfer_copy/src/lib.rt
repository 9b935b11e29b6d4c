//! A local file to copy from or to, and the history of the operations on it.
#![tactic(auto)]

mod answers;
mod aside;
mod copy_error;
mod get;
mod holding;
mod laws;
mod local;
mod paths;
mod progress;
mod put;
mod refusals;
mod submission;

pub use copy_error::CopyError;
pub use get::{FileGet, GetStage};
pub use holding::{FileHold, Holding, Part};
pub use laws::{
    gets_are_whole, gets_write_their_part, no_file_is_lost, old_names_fit, one_name_is_changed,
    puts_are_whole, puts_read_their_file,
};
pub use local::{LocalError, LocalFile};
pub use progress::Progress;
pub use put::{FilePut, PutStage};
