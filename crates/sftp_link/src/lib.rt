//! The environment as traits, with what they report and how often they failed, and implementations in memory.
#![tactic(auto)]

mod calls;
mod device_error;
mod dial;
mod duplex;
mod edge;
mod frames;
mod link;
mod logged;
mod memory;
mod memory_dial;
mod piece;
mod rest;
mod scripted_link;
mod stream;
mod unix;
mod whole;

pub use device_error::DeviceError;
pub use dial::Dial;
pub use duplex::Duplex;
pub use edge::{ReadSource, WriteSink};
pub use link::{Link, LinkIn, LinkOut, LinkState};
pub use logged::Logged;
pub use memory::{MemorySink, MemorySource};
pub use memory_dial::MemoryDial;
pub use piece::{Piece, Scripted};
pub use scripted_link::ScriptedLink;
pub use stream::{Sink, Source};
pub use unix::{StreamLink, UnixDial, UnixLink};
pub use whole::{read_up_to, recv_exact, send_all, write_all};
