//! The values that an SFTP client and server exchange, and their meaning: the frames of requests and replies, the
//! replies that may answer a request, and session lengths. The definitions are in `specs/`.
#![tactic(auto)]

mod answers;
mod config;
mod content;
mod copy;
mod error;
mod file_attrs;
mod flags;
mod frame_error;
mod handle;
mod laws;
mod lengths;
pub mod numbers;
mod open_options;
mod options;
mod outcome;
mod refusal;
mod remote_path;
mod reply;
mod request;
mod same;
mod slot;

pub use answers::{Expected, ends, may_answer};
pub use config::{Choice, Limits, ServerConfig};
pub use content::Content;
pub use copy::TryCopy;
pub use error::{Error, Fault, IoKind};
pub use file_attrs::FileAttrs;
pub use flags::{Extensions, OpenFlags};
pub use frame_error::{FormatKind, FrameError};
pub use handle::Handle;
pub use laws::frames_read_back;
pub use lengths::session_lengths;
pub use open_options::OpenOptions;
pub use options::SftpOptions;
pub use outcome::Outcome;
pub use remote_path::RemotePath;
pub use reply::{NameEntry, Reply};
pub use request::Request;
pub use slot::{Buffer, Facts, FileAt, Move, Site, Slot};
pub use ssh_encoding::OutOfMemory;
