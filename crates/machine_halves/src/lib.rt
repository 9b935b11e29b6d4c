//! The server of files and directories in memory in two halves, for two threads: bytes are sent to one half, and come
//! from the other.
#![tactic(auto)]

mod halves;
mod pair;

pub use halves::{MapIn, MapOut, SharedMap};
pub use pair::{MapPair, Pair};
pub use sftp_link::Piece;
pub use sftp_map_server::MapServer;
