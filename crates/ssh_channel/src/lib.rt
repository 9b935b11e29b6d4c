//! A channel of an OpenSSH connection as a link. OpenSSH's master listens at a Unix socket, which in proxy mode carries
//! the messages of RFC 4254 without any cryptography.
#![tactic(auto)]

mod channel;
mod condition;
mod handshake;
mod message;
mod numbers;
mod open_error;
mod outgoing;
mod packets;
mod read_ahead;
mod refusal;
mod state;
mod subsystem_reply;

pub use channel::SshChannel;
pub use handshake::open;
pub use open_error::OpenError;
pub use refusal::Refusal;
