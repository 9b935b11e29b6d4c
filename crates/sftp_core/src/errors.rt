//! The errors of a core.
ghost use Rattle.std.specs.Prelude.{◌≡◌};
ghost use Rattle.sftp_core.specs.declared.errors.SubmitError.TheVariants as submit;
ghost use Rattle.sftp_core.specs.declared.errors.TakeError.TheVariants as take;
ghost use Rattle.sftp_core.specs.Errors.{error_of};
ghost use Rattle.sftp_core.specs.Take.{unread, fault_of};

use sftp_model::{Fault, FormatKind, FrameError};
use sftp_values::ByteText;
use ssh_encoding::OutOfMemory;
use thiserror::Error;

/// The reason why a request was not submitted. The core is unchanged.
///
/// Used in `crates/plan_state/src/submission.rt`.
#[derive(Clone, Copy, Debug, PartialEq, Eq, Error)]
pub enum SubmitError {
    /// An allocation failed.
    #[error("out of memory")]
    OutOfMemory,
    /// No fault is kept, and the request's body is over 1048575 bytes.
    #[error("the request is too long for a frame")]
    TooLong,
    /// A fault is kept: the session cannot be used any more.
    #[error("the session failed earlier: {0}")]
    Failed(Fault),
}

impl From<OutOfMemory> for SubmitError {
    ghost from_gives = { λ _ e. e ≡ submit.OutOfMemory };

    fn from(_: OutOfMemory) -> SubmitError {
        SubmitError::OutOfMemory
    }
}

/// The reason why a frame was not taken.
///
/// After `OutOfMemory` the core is unchanged and the frame may be taken again. Each other error is kept as the
/// session's fault (draft-ietf-secsh-filexfer-02, sections 3 to 7).
///
/// Used in `crates/sftp_lanes/src/greeting.rt`.
#[derive(Debug, Drop, PartialEq, Eq, Error)]
pub enum TakeError {
    /// An allocation failed.
    #[error("out of memory")]
    OutOfMemory,
    /// The frame, or the content of the limits, does not have its form.
    #[error("{0}")]
    Format(FormatKind),
    /// All fields could be read, and the handle is longer than 256 bytes.
    #[error("{}", Fault::HandleTooLong {len: *len})]
    HandleTooLong {
        len: u32,
    },
    /// No request that was handed out and has no reply has the id.
    #[error("{}", Fault::ResponseId {id: *id})]
    InvalidResponseId {
        id: u32,
    },
    /// The reply may not answer its request, or is no VERSION when only that may come, or is a second VERSION.
    #[error("{}", Fault::Response {id: *id})]
    InvalidResponse {
        id: Option<u32>,
    },
    /// The server refused the query for limits that it had advertised.
    #[error("{}", Fault::Limits {code: *code})]
    LimitsRefused {
        code: u32,
        message: ByteText,
        language: ByteText,
    },
    /// The server uses a version of the protocol other than 3.
    #[error("{}", Fault::Protocol {version: *version})]
    Protocol {
        version: u32,
    },
}

impl TakeError {
    /// Returns the fault that is kept after this error; running out of memory keeps none.
    pub fn fault(&self) -> Option<Fault>
        ensures { result ≡ fault_of self.now }
    {
        match self {
            TakeError::OutOfMemory => None,
            TakeError::Format(kind) => Some(Fault::Format(*kind)),
            TakeError::HandleTooLong { len } => Some(Fault::HandleTooLong { len: *len }),
            TakeError::InvalidResponseId { id } => Some(Fault::ResponseId { id: *id }),
            TakeError::InvalidResponse { id } => Some(Fault::Response { id: *id }),
            TakeError::LimitsRefused { code, .. } => Some(Fault::Limits { code: *code }),
            TakeError::Protocol { version } => Some(Fault::Protocol { version: *version }),
        }
    }
}

impl From<OutOfMemory> for TakeError {
    ghost from_gives = { λ _ e. e ≡ take.OutOfMemory };

    fn from(_: OutOfMemory) -> TakeError {
        TakeError::OutOfMemory
    }
}

impl From<FrameError> for TakeError {
    ghost from_gives = { λ e r. r ≡ unread e };

    fn from(e: FrameError) -> TakeError {
        match e {
            FrameError::OutOfMemory => TakeError::OutOfMemory,
            FrameError::Format(kind) => TakeError::Format(kind),
            FrameError::HandleTooLong { len } => TakeError::HandleTooLong { len },
        }
    }
}

impl From<TakeError> for sftp_model::Error {
    ghost from_gives = { λ e r. r ≡ error_of e };

    fn from(e: TakeError) -> sftp_model::Error {
        match e {
            TakeError::OutOfMemory => sftp_model::Error::OutOfMemory,
            TakeError::Format(kind) => sftp_model::Error::FormatError(kind),
            TakeError::HandleTooLong { len } => sftp_model::Error::HandleTooLong { len },
            TakeError::InvalidResponseId { id } => sftp_model::Error::InvalidResponseId { id },
            TakeError::InvalidResponse { id } => sftp_model::Error::InvalidResponse { id },
            TakeError::LimitsRefused {
                code,
                message,
                language,
            } => sftp_model::Error::SftpError {
                code,
                message,
                language,
            },
            TakeError::Protocol { version } => {
                sftp_model::Error::UnsupportedSftpProtocol { version }
            }
        }
    }
}
