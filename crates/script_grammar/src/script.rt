//! The content of a script.

use session_model::{Lane, Turn};
use sftp_model::{Choice, ServerConfig, SftpOptions};
use sftp_values::{ByteText, Items};

/// The content of a script: a client, a server of files in memory, and the schedule of their run.
///
/// Example: `crates/example_threads/src/socket.rt`.
#[derive(Debug, Drop)]
pub struct Script {
    /// The options of the session.
    pub options: SftpOptions,
    /// The offers of the server.
    pub server: ServerConfig,
    /// The server's first files: the path of each and its content.
    pub files: Items<(ByteText, ByteText)>,
    /// The paths of the server's first directories. All parents of files and directories exist too.
    pub dirs: Items<ByteText>,
    /// The choices of the server for the requests, in the order in which it receives them.
    pub choices: Items<Choice>,
    /// The picks of the server among the waiting replies, for one reply after another.
    pub picks: Items<u32>,
    /// The lanes, from number 0 on.
    pub lanes: Items<Lane>,
    /// The turns before the closing rounds.
    pub turns: Items<Turn>,
}
