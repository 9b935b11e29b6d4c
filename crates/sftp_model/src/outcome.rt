//! The outcomes of calls.
use crate::copy::TryCopy;
use crate::error::Error;
use crate::file_attrs::FileAttrs;
use crate::remote_path::RemotePath;
use crate::reply::NameEntry;
use sftp_values::{ByteText, Items};
use ssh_encoding::OutOfMemory;
use std::alloc::Global;

/// The outcome of a call.
///
/// Example: `crates/example_threads/src/socket.rt`.
#[derive(Debug, Drop, PartialEq, Eq)]
pub enum Outcome {
    /// The call is done, and has no value to return.
    Done,
    /// A slot holds the opened file.
    Opened,
    /// Bytes written, or the new offset.
    Count(u64),
    /// The bytes that were read.
    Bytes(ByteText),
    /// The file has no bytes at the offset.
    End,
    /// The attributes of a file or directory.
    Meta(FileAttrs),
    /// The entries of a directory, in the server's order.
    Names(Items<NameEntry>),
    /// A path.
    Path(RemotePath),
    /// The call was refused, by the server or without a request.
    Refused(Error),
    /// The slot does not hold the file or buffer that the call works on.
    NoFile,
    /// The call was cancelled.
    Cancelled,
    /// The call reached its bound on requests.
    GivenUp,
}

impl TryCopy for Outcome {
    fn try_copy(&self, alloc: Global) -> Result<Outcome, OutOfMemory> {
        match self {
            Outcome::Done => Ok(Outcome::Done),
            Outcome::Opened => Ok(Outcome::Opened),
            Outcome::Count(n) => Ok(Outcome::Count(*n)),
            Outcome::Bytes(bytes) => Ok(Outcome::Bytes(bytes.try_copy(alloc)?)),
            Outcome::End => Ok(Outcome::End),
            Outcome::Meta(attrs) => Ok(Outcome::Meta(*attrs)),
            Outcome::Names(names) => Ok(Outcome::Names(names.try_copy(alloc)?)),
            Outcome::Path(path) => Ok(Outcome::Path(path.try_copy(alloc)?)),
            Outcome::Refused(error) => Ok(Outcome::Refused(error.try_copy(alloc)?)),
            Outcome::NoFile => Ok(Outcome::NoFile),
            Outcome::Cancelled => Ok(Outcome::Cancelled),
            Outcome::GivenUp => Ok(Outcome::GivenUp),
        }
    }
}
