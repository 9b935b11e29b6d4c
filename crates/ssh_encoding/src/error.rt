//! The errors of reading and writing.
ghost use Rattle.std.specs.Prelude.{◌≡◌};
ghost use Rattle.ssh_encoding.specs.declared.error.Error.TheVariants as errors;

use crate::label_error::LabelError;
use crate::out_of_memory::OutOfMemory;
use std::alloc::{AllocError, AllocFailed};
use std::num::TryFromIntError;
use std::str::Utf8Error;
use std::string::FromUtf8Error;

/// The reason why a value could not be read or written.
///
/// Example: `crates/example_client/src/tasks.rt`.
#[derive(Debug, PartialEq, Eq, Drop, thiserror::Error)]
pub enum Error {
    /// A text that is not UTF-8.
    #[error("character encoding invalid")]
    CharacterEncoding,

    /// A name that is not one of its set.
    #[error("{0}")]
    Label(LabelError),

    /// Fewer bytes than a value needs, a buffer that is too short, or a sum of lengths over `usize::MAX`.
    #[error("length invalid")]
    Length,

    /// A whole number with a first byte that is not needed.
    #[error("`mpint` encoding invalid")]
    MpintEncoding,

    /// A length over the limit: 1048575 if it is read, `u32::MAX` if it is written.
    #[error("internal overflow error")]
    Overflow,

    /// Bytes left after the expected end of the message.
    #[error("unexpected trailing data at end of message ({remaining} bytes)")]
    TrailingData {
        /// The number of bytes left.
        remaining: usize,
    },

    /// A number that names no case. No call of this crate returns it: it is for a caller's own [`crate::Decode`].
    #[error("invalid discriminant value: {0}")]
    InvalidDiscriminant(u128),

    /// An allocation failed.
    #[error("out of memory")]
    OutOfMemory,
}

impl From<OutOfMemory> for Error {
    ghost from_gives = { λ _ e. e ≡ errors.OutOfMemory };

    fn from(_refused: OutOfMemory) -> Error {
        Error::OutOfMemory
    }
}

impl From<AllocError> for Error {
    ghost from_gives = { λ _ e. e ≡ errors.OutOfMemory };

    fn from(_refused: AllocError) -> Error {
        Error::OutOfMemory
    }
}

impl<T: Drop> From<AllocFailed<T>> for Error {
    ghost from_gives = { λ _ e. e ≡ errors.OutOfMemory };

    fn from(_refused: AllocFailed<T>) -> Error {
        Error::OutOfMemory
    }
}

impl From<LabelError> for Error {
    ghost from_gives = { λ label e. e ≡ errors.Label label };

    fn from(refused: LabelError) -> Error {
        Error::Label(refused)
    }
}

impl From<TryFromIntError> for Error {
    ghost from_gives = { λ _ e. e ≡ errors.Overflow };

    fn from(_refused: TryFromIntError) -> Error {
        Error::Overflow
    }
}

impl From<Utf8Error> for Error {
    ghost from_gives = { λ _ e. e ≡ errors.CharacterEncoding };

    fn from(_refused: Utf8Error) -> Error {
        Error::CharacterEncoding
    }
}

impl From<FromUtf8Error> for Error {
    ghost from_gives = { λ _ e. e ≡ errors.CharacterEncoding };

    fn from(_refused: FromUtf8Error) -> Error {
        Error::CharacterEncoding
    }
}
