//! The errors of reading a script or a line of one.
ghost use Rattle.std.specs.Prelude.{◌≡◌};
ghost use Rattle.script_words.specs.declared.error.LineError.TheVariants as line;
ghost use Rattle.script_words.specs.Refusals.{hex_error};

use crate::reason::Reason;
use hex::FromHexError;
use ssh_encoding::OutOfMemory;
use std::alloc::{AllocError, AllocFailed};
use thiserror::Error;

/// The reason why a script is not read.
///
/// Example: `crates/test_tasks/src/texts.rt`.
#[derive(Clone, Copy, Debug, PartialEq, Eq, Error)]
pub enum ScriptError {
    /// Out of memory.
    #[error("out of memory")]
    OutOfMemory,
    /// The first line that is refused, counted from 1, and the reason. A script that is too long is refused at line 0.
    #[error("line {line} {reason}")]
    Line { line: u64, reason: Reason },
}

/// The reason why a line is not read.
///
/// Example: `crates/script_grammar/src/options.rt`.
#[derive(Clone, Copy, Debug, PartialEq, Eq)]
pub enum LineError {
    /// Out of memory.
    OutOfMemory,
    /// The line is refused for this reason.
    Refused(Reason),
}

impl From<Reason> for LineError {
    ghost from_gives = { λ reason e. e ≡ line.Refused reason };

    fn from(reason: Reason) -> LineError {
        LineError::Refused(reason)
    }
}

impl From<FromHexError> for LineError {
    ghost from_gives = { λ why e. e ≡ hex_error why };

    fn from(why: FromHexError) -> LineError {
        match why {
            FromHexError::OutOfMemory => LineError::OutOfMemory,
            FromHexError::InvalidHexCharacter { .. }
            | FromHexError::OddLength
            | FromHexError::InvalidStringLength => LineError::Refused(Reason::Hex),
        }
    }
}

impl From<OutOfMemory> for LineError {
    ghost from_gives = { λ _ e. e ≡ line.OutOfMemory };

    fn from(_: OutOfMemory) -> LineError {
        LineError::OutOfMemory
    }
}

impl From<AllocError> for LineError {
    ghost from_gives = { λ _ e. e ≡ line.OutOfMemory };

    fn from(_refused: AllocError) -> LineError {
        LineError::OutOfMemory
    }
}

impl<T: Drop> From<AllocFailed<T>> for LineError {
    ghost from_gives = { λ _ e. e ≡ line.OutOfMemory };

    fn from(_refused: AllocFailed<T>) -> LineError {
        LineError::OutOfMemory
    }
}
