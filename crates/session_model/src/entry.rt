//! Entries of a session's journal.
use crate::event::Event;
use plan_model::Call;
use sftp_model::Fault;

/// An entry of a session's journal.
///
/// Example: `crates/example_threads/src/receipts.rt`.
#[derive(Debug, Drop, PartialEq, Eq)]
pub enum Entry {
    /// An event.
    Event(Event),
    /// A call was added at the end of a lane.
    Added { lane: u32, call: Call },
    /// All that a lane's slots held was released.
    LetGo { lane: u32 },
    /// The session failed, and keeps this fault.
    Kept(Fault),
}
