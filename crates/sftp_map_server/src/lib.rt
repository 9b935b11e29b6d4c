//! A server of files and directories in memory as a link, as an SFTP version 3 server answers its requests
//! (draft-ietf-secsh-filexfer-02). The server itself is that of `machine_answers`; this crate has the bytes that come
//! and are sent.
#![tactic(auto)]

mod map_server;
mod state;
mod unopened;

pub use machine_answers::{Machine, components, gives_within, grants_are_new, may_begin};
pub use map_server::MapServer;
pub use sftp_model::{Choice, Limits, ServerConfig};
pub use ssh_encoding::OutOfMemory;
pub use state::{frame_of, version};
pub use unopened::new_server;
