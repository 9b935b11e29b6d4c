//! Ids, the queue, the unanswered requests and the grants of one SFTP session.
#![tactic(auto)]

mod chunk;
mod errors;
mod handshake;
mod id_record;
mod info;
mod laws;
mod pipeline;
mod place;
mod queued;
mod table;
mod tokens;

pub use chunk::Chunk;
pub use errors::{SubmitError, TakeError};
pub use handshake::Handshake;
pub use id_record::IdRecord;
pub use info::{Info, MAX_IDS, lengths};
pub use laws::{one_request_an_id, options_only_lower, takes_what_may_answer};
pub use pipeline::{Core, Ended};
pub use place::Place;
pub use sftp_model::{Fault, Limits};
pub use ssh_encoding::OutOfMemory;
pub use tokens::{Grant, Polled, Taken, Ticket};
