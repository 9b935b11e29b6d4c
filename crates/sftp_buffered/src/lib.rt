//! A file of an SFTP server with a buffer for reads, and with writes whose statuses are taken later.
#![tactic(auto)]

mod file;
mod laws;
mod limits;
mod reads;
mod reply;
mod writes;

pub use file::{DEFAULT_BUFLEN, TokioCompatFile};
pub use laws::{others_leave_it_sound, replies_can_be_told, tickets_stay_apart};
pub use sftp_file::{File, Poll};
