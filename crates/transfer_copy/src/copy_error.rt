//! The failure of a copy.
use crate::LocalError;
use sftp_model::Error;

/// The reason why a file was not copied.
///
/// Used in `crates/transfer_copy/src/progress.rt`.
#[derive(Drop)]
pub enum CopyError {
    /// The server refused a request, or the session failed.
    Remote(Error),
    /// A local file failed.
    Local(LocalError),
    /// Out of memory.
    OutOfMemory,
    /// 18446744073709551615 steps were not enough.
    TooLong,
}

impl From<Error> for CopyError {
    fn from(e: Error) -> CopyError {
        match e {
            Error::OutOfMemory => CopyError::OutOfMemory,
            e => CopyError::Remote(e),
        }
    }
}

impl From<LocalError> for CopyError {
    fn from(e: LocalError) -> CopyError {
        match e {
            LocalError::OutOfMemory => CopyError::OutOfMemory,
            e => CopyError::Local(e),
        }
    }
}
