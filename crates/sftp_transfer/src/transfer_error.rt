//! The reasons why something was not done, and their messages.
use crate::printable::printable;
use sftp_model::Error;
use ssh_encoding::OutOfMemory;
use std::io;
use std::io::ErrorKind;
use transfer_plan::{Found, Task};
use transfer_pool::{CopyError, LocalError};
use transfer_remote::RemoteError;

/// The reason why something was not done.
#[derive(Drop)]
pub(crate) enum TransferError {
    /// The server refused a request, or the session failed.
    Remote(Error),
    /// A local file failed.
    Local(io::Error),
    /// Out of memory.
    OutOfMemory,
    /// 18446744073709551615 steps were not enough.
    TooLong,
    /// A tree has more than 1000000 entries.
    TooManyEntries,
    /// The entry is not of a kind that is copied, or is refused for its name or its depth.
    Refused(&'static str),
}

impl From<Error> for TransferError {
    fn from(e: Error) -> TransferError {
        match e {
            Error::OutOfMemory => TransferError::OutOfMemory,
            e => TransferError::Remote(e),
        }
    }
}

impl From<OutOfMemory> for TransferError {
    fn from(_e: OutOfMemory) -> TransferError {
        TransferError::OutOfMemory
    }
}

impl From<io::Error> for TransferError {
    fn from(e: io::Error) -> TransferError {
        if e.kind() == ErrorKind::OutOfMemory {
            return TransferError::OutOfMemory;
        }
        TransferError::Local(e)
    }
}

impl From<RemoteError> for TransferError {
    fn from(e: RemoteError) -> TransferError {
        match e {
            RemoteError::Remote(e) => TransferError::Remote(e),
            RemoteError::OutOfMemory => TransferError::OutOfMemory,
            RemoteError::TooLong => TransferError::TooLong,
            RemoteError::TooManyEntries => TransferError::TooManyEntries,
        }
    }
}

impl From<CopyError> for TransferError {
    fn from(e: CopyError) -> TransferError {
        match e {
            CopyError::Remote(e) => TransferError::Remote(e),
            CopyError::Local(LocalError::Failed(e)) => TransferError::Local(e),
            CopyError::Local(LocalError::OutOfMemory) => TransferError::OutOfMemory,
            CopyError::Local(LocalError::Differs) => {
                TransferError::Refused("the bytes read back from the server differ")
            }
            CopyError::OutOfMemory => TransferError::OutOfMemory,
            CopyError::TooLong => TransferError::TooLong,
        }
    }
}

/// Returns the reason why a local path that isn't UTF-8 can't be used.
pub(crate) fn no_text() -> TransferError {
    TransferError::Refused("a local file can't have this name: it is not UTF-8")
}

/// Returns true if the last component of a path is longer than file systems allow.
fn has_long_name(path: &[u8]) -> bool {
    match path.iter().rposition(|byte| *byte == b'/') {
        Some(slash) => path.len().saturating_sub(slash) > 256,
        None => path.len() > 255,
    }
}

/// Returns the reason why an entry that was found is not copied.
pub(crate) fn refusal_of(found: &Found) -> &'static str {
    match found.task {
        Task::RefuseName if has_long_name(found.source.as_slice()) => {
            "skipped: the name has more than 255 bytes"
        }
        Task::RefuseName => "skipped: the name leads out of its directory",
        Task::RefuseText => "skipped: the name is not UTF-8, and a local file can't have it",
        Task::RefuseDepth => "skipped: more than 64 nested directories",
        Task::RefuseTwice => "skipped: another file is copied to the same path",
        Task::RefusePart => "skipped: another file is written under this name until it is complete",
        _ => "skipped: not a file, a directory or a symbolic link",
    }
}

/// Writes to standard error why something was not done. If standard error fails too, the message is lost.
pub(crate) fn tell(rt: &HostRuntime, name: &str, reason: &TransferError) {
    let _ = match reason {
        TransferError::Refused(why) => eprintln!(rt; "sftp_transfer: {name}: {why}"),
        TransferError::Remote(Error::BackgroundTaskFailure(fault)) => eprintln!(rt;
            "sftp_transfer: {name}: {fault}"
        ),
        TransferError::Remote(e) => eprintln!(rt; "sftp_transfer: {name}: {e}"),
        TransferError::Local(e) => eprintln!(rt; "sftp_transfer: {name}: {e}"),
        TransferError::TooLong => eprintln!(rt; "sftp_transfer: {name}: too many steps"),
        TransferError::TooManyEntries => eprintln!(rt;
            "sftp_transfer: {name}: more than 1000000 entries"
        ),
        TransferError::OutOfMemory => eprintln!(rt; "sftp_transfer: {name}: out of memory"),
    };
}

/// Writes to standard error why something at a path was not done.
pub(crate) fn tell_of(rt: &HostRuntime, path: &[u8], reason: &TransferError) {
    match printable(rt.alloc(), path) {
        Ok(name) => tell(rt, name.as_str(), reason),
        Err(_) => tell(rt, "?", reason),
    }
}

/// Returns true if an allocation failed.
pub(crate) fn is_starved(reason: &TransferError) -> bool {
    match reason {
        TransferError::OutOfMemory => true,
        _ => false,
    }
}

/// Returns true if the session failed, so that nothing else can be done over it.
pub(crate) fn is_session_failure(reason: &TransferError) -> bool {
    match reason {
        TransferError::Remote(Error::BackgroundTaskFailure(_)) => true,
        _ => false,
    }
}

/// Returns true if nothing else can be done: an allocation failed, or the session did.
pub(crate) fn ends_all(reason: &TransferError) -> bool {
    is_starved(reason) || is_session_failure(reason)
}

/// Returns true if a local disk has no space left for files.
pub(crate) fn is_full(reason: &TransferError) -> bool {
    match reason {
        TransferError::Local(e) => match e.kind() {
            ErrorKind::StorageFull | ErrorKind::QuotaExceeded => true,
            _ => false,
        },
        _ => false,
    }
}
