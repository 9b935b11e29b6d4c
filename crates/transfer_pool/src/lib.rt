//! Many files copied at once over one session.
#![tactic(auto)]

mod copier;
mod copy_job;
mod jobs;
mod round;

pub use copier::{Copier, CopierStep};
pub use copy_job::{Copied, CopyJob, CopyState, Running};
pub use jobs::{CopyJobs, Wanted, copy_all};
pub use round::turn;
pub use transfer_args::Direction;
pub use transfer_copy::{CopyError, LocalError, LocalFile, Progress};
