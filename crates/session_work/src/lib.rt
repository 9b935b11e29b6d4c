//! The lanes of an open session at work: each continues by the runner of its call over one core, and one journal
//! records the events. Sends, takes, cancels and releases of lanes keep core and lanes as the journal says.
#![tactic(auto)]

mod call;
mod calls;
mod journal;
mod lane;
mod lanes;
mod laws;
mod requests;
mod tokens;
mod weighed_lanes;

pub use lane::{LaneState, Moved, empty_slots};
pub use lanes::Lanes;
pub use laws::{lanes_may_turn, turns_keep_sessions, turns_leave_rest, went_turns_are_few};
pub use session_driver::Stepped;
pub use session_model::{Call, Entry, Lane};
pub use sftp_core::{Chunk, Core, Fault, TakeError, Taken};
pub use sftp_model::{Facts, SftpOptions};
pub use ssh_encoding::OutOfMemory;
pub use weighed_lanes::WeighedLanes;
