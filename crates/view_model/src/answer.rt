//! The answers to operations.
use sftp_values::ByteText;

/// The answer to an operation.
///
/// Used in `crates/view_model/src/text.rt`.
#[derive(Debug, Drop, PartialEq, Eq)]
pub enum Answer {
    /// The bytes of the file.
    Got(ByteText),
    /// All bytes were written.
    Put,
    /// A request was refused, with this status.
    Refused { code: u32 },
    /// The path is too long for a frame.
    TooLong,
}
