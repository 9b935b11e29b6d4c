//! The failure of a call.
ghost use Rattle.std.specs.Prelude.{◌≡◌};

use sftp_model::Error;

/// The reason why a call failed.
///
/// Used in `crates/transfer_remote/src/paths.rt`.
#[derive(Drop)]
pub enum RemoteError {
    /// The server refused a request, or the session failed.
    Remote(Error),
    /// Out of memory.
    OutOfMemory,
    /// 18446744073709551615 steps were not enough.
    TooLong,
    /// A tree has more than 1000000 entries.
    TooManyEntries,
}

impl From<Error> for RemoteError {
    ghost use Rattle.transfer_remote.specs.Failures.{remote_of};

    ghost from_gives = { λ e given. given ≡ remote_of e };

    fn from(e: Error) -> RemoteError {
        match e {
            Error::OutOfMemory => RemoteError::OutOfMemory,
            e => RemoteError::Remote(e),
        }
    }
}
