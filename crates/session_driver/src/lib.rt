//! A driver that runs the lanes of an SFTP session over a link.
#![tactic(auto)]

mod calls;
mod driver;
mod opening;
mod runs;
mod session;
mod turns;

pub use calls::{AddsCalls, run_call};
pub use driver::run_session;
pub use opening::open;
pub use runs::{drain, let_go_lanes};
pub use session::{Phase, RunsLanes, Stepped};
pub use sftp_core::TakeError;
pub use sftp_model::Error;
pub use ssh_encoding::OutOfMemory;
