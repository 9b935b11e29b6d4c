//! Pieces that are sent over a link, with small neighbours as one, and one frame that is read from it.
#![tactic(auto)]

mod exchange;
mod gather;

pub use exchange::{fault, read_frame, refused};
pub use gather::send_pieces;
pub use sftp_core::TakeError;
pub use sftp_model::Error;
