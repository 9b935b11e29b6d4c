//! The errors of calls and of sessions.
ghost use Rattle.std.specs.Prelude.{◌≡◌};

use crate::copy::TryCopy;
use crate::flags::Extensions;
use crate::frame_error::FormatKind;
use crate::refusal::write_refusal;
use sftp_values::ByteText;
use ssh_encoding::OutOfMemory;
use std::alloc::Global;

/// The first fault of a session, after which it cannot be used.
///
/// Example: `crates/test_wire/src/model.rt`.
#[derive(Clone, Copy, Debug, PartialEq, Eq, thiserror::Error)]
pub enum Fault {
    /// The link failed.
    #[error("the link failed")]
    Link,
    /// The link ended before an expected reply came.
    #[error("the link ended while a reply was due")]
    Ended,
    /// The server uses a version of the protocol other than 3.
    #[error("the server speaks version {version} of the protocol, and only 3 is supported")]
    Protocol { version: u32 },
    /// A frame does not have the form of a reply.
    #[error("{0}")]
    Format(FormatKind),
    /// A handle is longer than `MAX_HANDLE_LEN`.
    #[error("a handle has {len} bytes, and at most 256 are allowed")]
    HandleTooLong { len: u32 },
    /// No sent request that is unanswered has the id of a reply.
    #[error("a reply has the id {id}, which no unanswered request has")]
    ResponseId { id: u32 },
    /// The reply may not answer its request.
    #[error("a reply may not answer its request")]
    Response { id: Option<u32> },
    /// The server refused the query for limits that it had advertised.
    #[error("the server refused the query for its limits with status {code}")]
    Limits { code: u32 },
}

/// The kinds of errors that the client finds in a call by itself, without a request.
///
/// Example: `crates/test_wire/src/model.rt`.
#[derive(Clone, Copy, Debug, PartialEq, Eq, thiserror::Error)]
pub enum IoKind {
    /// The file was not opened to read.
    #[error("the file was not opened to read")]
    NotReadable,
    /// The file was not opened to write or append.
    #[error("the file was not opened to write")]
    NotWritable,
    /// A seek counts from the end of the file.
    #[error("seeking from the end of a file is not supported")]
    SeekFromEnd,
    /// A seek goes past the greatest offset.
    #[error("seek past the greatest offset")]
    SeekOverflow,
    /// A seek goes before the start of the file.
    #[error("seek before the start of the file")]
    SeekUnderflow,
    /// A request would go past the greatest offset.
    #[error("the request goes past the greatest offset")]
    OffsetOverflow,
    /// A path is too long for a frame.
    #[error("the path is too long for a frame")]
    PathTooLong,
    /// The file ended before all the bytes that were to be read came.
    #[error("unexpected end of file")]
    UnexpectedEof,
}

/// The reason why a call failed.
///
/// Example: `crates/example_client/src/tasks.rt`.
#[derive(Debug, Drop, PartialEq, Eq, thiserror::Error)]
pub enum Error {
    /// An allocation failed.
    #[error("out of memory")]
    OutOfMemory,
    /// The link failed in this call.
    #[error("{}", Fault::Link)]
    LinkFault,
    /// The link ended before an expected reply came.
    #[error("{}", Fault::Ended)]
    LinkEnded,
    /// The server uses a version of the protocol other than 3.
    #[error("{}", Fault::Protocol {version: *version})]
    UnsupportedSftpProtocol {
        version: u32,
    },
    /// A frame does not have the form of a reply.
    #[error("{0}")]
    FormatError(FormatKind),
    /// A handle is longer than `MAX_HANDLE_LEN`.
    #[error("{}", Fault::HandleTooLong {len: *len})]
    HandleTooLong {
        len: u32,
    },
    /// No sent request that is unanswered has the id of a reply.
    #[error("{}", Fault::ResponseId {id: *id})]
    InvalidResponseId {
        id: u32,
    },
    /// The reply may not answer its request.
    #[error("{}", Fault::Response {id: *id})]
    InvalidResponse {
        id: Option<u32>,
    },
    /// The server refused the request, with its code, message and language tag.
    #[error(fmt = write_refusal)]
    SftpError {
        code: u32,
        message: ByteText,
        language: ByteText,
    },
    /// The server does not offer this extension.
    #[error("the server does not offer an extension that the call needs")]
    UnsupportedExtension(Extensions),
    /// The client found the call wrong, and sent no request for it.
    #[error("{0}")]
    IOError(IoKind),
    /// The session had failed before.
    #[error("the session failed earlier: {0}")]
    BackgroundTaskFailure(Fault),
}

impl TryCopy for Error {
    fn try_copy(&self, alloc: Global) -> Result<Error, OutOfMemory> {
        match self {
            Error::OutOfMemory => Ok(Error::OutOfMemory),
            Error::LinkFault => Ok(Error::LinkFault),
            Error::LinkEnded => Ok(Error::LinkEnded),
            Error::UnsupportedSftpProtocol { version } => {
                Ok(Error::UnsupportedSftpProtocol { version: *version })
            }
            Error::FormatError(kind) => Ok(Error::FormatError(*kind)),
            Error::HandleTooLong { len } => Ok(Error::HandleTooLong { len: *len }),
            Error::InvalidResponseId { id } => Ok(Error::InvalidResponseId { id: *id }),
            Error::InvalidResponse { id } => Ok(Error::InvalidResponse { id: *id }),
            Error::SftpError {
                code,
                message,
                language,
            } => Ok(Error::SftpError {
                code: *code,
                message: message.try_copy(alloc)?,
                language: language.try_copy(alloc)?,
            }),
            Error::UnsupportedExtension(extensions) => Ok(Error::UnsupportedExtension(*extensions)),
            Error::IOError(kind) => Ok(Error::IOError(*kind)),
            Error::BackgroundTaskFailure(fault) => Ok(Error::BackgroundTaskFailure(*fault)),
        }
    }
}

impl From<OutOfMemory> for Error {
    ghost use Rattle.sftp_model.specs.declared.error.Error.TheVariants as error;

    ghost from_gives = { λ _ e. e ≡ error.OutOfMemory };

    fn from(_: OutOfMemory) -> Error {
        Error::OutOfMemory
    }
}
