//! An SFTP session that threads share. Each thread has a seat at it: that of a lane submits calls, polls and cancels;
//! those of workers send what is unsent and read what comes, each over its half of the link. Every entry of the journal
//! has its receipt at the seat that made it.
#![tactic(auto)]

mod added_calls;
mod copies;
mod endings;
mod events;
mod failures;
mod frames;
mod hello;
mod laws;
mod locked;
mod polls;
mod report;
mod rounds;
mod shared_sftp;
mod workers;

pub use events::{
    CancelCall, Fail, Finish, GiveUp, HandOut, LookStage, MayRead, Poll, Release, Submit,
    TakeFrame, Written,
};
pub use frames::Handed;
pub use hello::{HandHello, TakeVersion};
pub use laws::{failed_sessions_refuse, given_up_is_seen, workers_show_their_seats};
pub use locked::{Locked, LockedCounts};
pub use polls::Polled;
pub use report::{NotClosed, SharedReport};
pub use rounds::{fault_for, flush_round, read_round};
pub use session_driver::{Phase, Stepped};
pub use session_model::{Call, Entry, Lane, Report, lanes_ok};
pub use session_seats::Receipt;
pub use sftp_model::{Error, Fault, SftpOptions};
pub use shared_sftp::{Seat, SharedSftp};
pub use ssh_encoding::OutOfMemory;
pub use workers::{flush_worker, read_worker};
