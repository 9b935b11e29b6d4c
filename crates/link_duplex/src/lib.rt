//! A link of which neither direction waits for the other: a send that cannot continue reads what the peer writes.
#![tactic(auto)]

mod dial;
mod duplex;
mod puts;
mod read_ahead;
mod standard;
mod stream;
mod wire;
mod write_behind;

pub use dial::DuplexDial;
pub use duplex::DuplexLink;
pub use sftp_link::{DeviceError, Link, LinkIn, LinkOut, LinkState};
pub use standard::{StandardStreams, StdioOutput, StdioWire, over_stdio, release_stdio};
pub use stream::{StreamWire, UnixWire, over_unix};
pub use wire::{Readiness, Wire};
