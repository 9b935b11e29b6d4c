//! The errors of frames.
ghost use Rattle.std.specs.Prelude.{◌≡◌};
ghost use Rattle.sftp_model.specs.FieldErrors.{frame_error};

use thiserror::Error;

/// The ways in which a frame's body does not have the form of a reply or request.
///
/// Example: `crates/test_wire/src/model.rt`.
#[derive(Clone, Copy, Debug, PartialEq, Eq, Error)]
pub enum FormatKind {
    /// A field extends past the body's end, or a length that must not be 0 is 0.
    #[error("a field ends past the end of its frame")]
    Length,
    /// A length is over `MAX_BODY_LEN`.
    #[error("a length is over 1048575")]
    Overflow,
    /// Bytes follow the last field.
    #[error("{remaining} bytes follow the last field of a frame")]
    TrailingData { remaining: usize },
    /// No frame has this type byte.
    #[error("unknown frame type {0}")]
    InvalidDiscriminant(u8),
}

/// The reason why a frame was not read or written.
///
/// Example: `crates/test_wire/src/model.rt`.
#[derive(Clone, Copy, Debug, PartialEq, Eq, Error)]
pub enum FrameError {
    #[error("out of memory")]
    OutOfMemory,
    #[error("{0}")]
    Format(FormatKind),
    /// All fields could be read, and a handle is longer than `MAX_HANDLE_LEN`.
    #[error("a handle has {len} bytes, and at most 256 are allowed")]
    HandleTooLong { len: u32 },
}

impl From<ssh_encoding::Error> for FrameError {
    ghost from_gives = { λ e r. r ≡ frame_error e };

    fn from(e: ssh_encoding::Error) -> FrameError {
        match e {
            ssh_encoding::Error::OutOfMemory => FrameError::OutOfMemory,
            ssh_encoding::Error::Overflow => FrameError::Format(FormatKind::Overflow),
            _ => FrameError::Format(FormatKind::Length),
        }
    }
}
