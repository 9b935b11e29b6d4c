//! Reports of a session.
use crate::event::Event;
use sftp_model::{Outcome, Reply};
use sftp_values::Items;

/// The report of a session's run.
///
/// Example: `crates/example_threads/src/laid_out.rt`.
#[derive(Debug, Drop)]
pub struct Report {
    /// The server's VERSION, if it was taken.
    pub hello: Option<Reply>,
    /// The events, the first one first.
    pub trace: Items<Event>,
    /// The outcomes of each lane's calls.
    pub outcomes: Items<Items<Outcome>>,
}
