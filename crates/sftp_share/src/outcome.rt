//! The outcome of a replay.

use machine_answers::Machine;
use sftp_model::Reply;

/// The answers of a machine to the requests of a trace, compared with the replies that were taken there.
///
/// Example: `crates/sftp_share/src/replayed.rt`.
#[derive(Drop)]
pub enum Replay {
    /// Every reply that was taken is the machine's. This is the machine after the last request.
    Serves(Machine),
    /// The reply that was taken to this request is not the machine's; it is the first such request.
    Differs {
        /// Its place among the requests that were submitted, counted from 0.
        place: u64,
        /// The machine's reply to it.
        reply: Reply,
    },
}
