//! Whole reads of a path of an SFTP server, by a window of READs.
#![tactic(auto)]

mod fs_read;
mod reads;
mod replies;
mod tickets;

pub use fs_read::{FsReadCall, StartRead};
