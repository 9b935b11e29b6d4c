//! The site of a lane, the facts of a session, and the moves of a call.
use crate::flags::Extensions;
use crate::outcome::Outcome;
use crate::remote_path::RemotePath;
use crate::request::Request;
use sftp_values::{ByteText, Items};

/// An open file. Requests are numbered in the order of their submission; a place is such a number.
///
/// Example: `crates/sftp_file/src/file.rt`.
#[derive(Clone, Copy, Debug, PartialEq, Eq)]
pub struct FileAt {
    /// The place of the OPEN that a HANDLE answered.
    pub grant: u64,
    /// True if it was opened to read.
    pub readable: bool,
    /// True if it was opened to write.
    pub writable: bool,
    /// The offset, in bytes.
    pub offset: u64,
}

/// The buffer of a buffered file.
///
/// Example: `crates/plan_runner/src/local_calls.rt`.
#[derive(Debug, Drop)]
pub struct Buffer {
    /// The number of bytes that a read into the buffer asks for, at least 1.
    pub len: u32,
    /// The buffered bytes, starting at the file's offset.
    pub bytes: ByteText,
    /// The writes whose status was not taken: the place of each and its bytes, the oldest first.
    pub deferred: Items<(u64, u32)>,
    /// The place of the READ in flight.
    pub reading: Option<u64>,
}

/// The contents of a lane's slot.
///
/// Example: `crates/plan_runner/src/site.rt`.
#[derive(Debug, Drop)]
pub enum Slot {
    Empty,
    File(FileAt),
    Buffered(FileAt, Buffer),
}

/// The slots and the working directory of a lane between its calls.
///
/// Example: `crates/plan_runner/src/site.rt`.
#[derive(Debug, Drop)]
pub struct Site {
    /// The slots by their number.
    pub slots: Items<Slot>,
    /// The working directory; empty for none.
    pub directory: RemotePath,
}

/// The values that VERSION, the limits reply and the options fix for a session.
///
/// Example: `crates/sftp_file/src/file.rt`.
#[derive(Clone, Copy, Debug, PartialEq, Eq)]
pub struct Facts {
    /// The extensions that the server offers.
    pub extensions: Extensions,
    /// The most bytes that one READ asks for.
    pub read_len: u32,
    /// The most bytes that one WRITE carries.
    pub write_len: u32,
    /// The most bytes of a buffered file's deferred writes.
    pub write_limit: u64,
    /// The most READs of a whole read that are in flight at once, at least 1.
    pub read_window: u32,
}

/// The next move of a call.
///
/// Used in `crates/plan_model/src/laws.rt`.
#[derive(Debug, Drop)]
pub enum Move {
    /// This request is submitted.
    Ask(Request),
    /// The reply to the request at this place is awaited.
    Wait(u64),
    /// The call ends with this outcome and leaves this site.
    Done(Outcome, Site),
}
