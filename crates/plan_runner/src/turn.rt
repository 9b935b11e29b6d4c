//! The values that a call is given in one turn of its lane.
use sftp_model::Facts;
use std::alloc::Global;

/// The allocator, the place of the next request, and the facts of the session.
///
/// Example: `crates/session_work/src/call.rt`.
#[derive(Clone, Copy)]
pub struct Turn {
    pub alloc: Global,
    pub place: u64,
    pub facts: Facts,
}
