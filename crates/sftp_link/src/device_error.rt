//! The errors of calls of the environment.
ghost use Rattle.std.specs.Prelude.{◌≡◌};
ghost use Rattle.sftp_link.specs.declared.device_error.DeviceError.TheVariants.{OutOfMemory};

use std::alloc::{AllocError, AllocFailed};
use thiserror::Error;

/// The reason why a call of the environment failed.
///
/// Example: `crates/example_threads/src/sheet.rt`.
#[derive(Clone, Copy, Debug, PartialEq, Eq, Error)]
pub enum DeviceError {
    /// An allocation for the call failed. The object may be called again.
    #[error("out of memory")]
    OutOfMemory,
    /// The device failed: its count of faults rose in this call.
    #[error("the device failed")]
    Failed,
}

impl From<AllocError> for DeviceError {
    ghost from_gives = { λ _ e. e ≡ OutOfMemory };

    fn from(_: AllocError) -> Self {
        DeviceError::OutOfMemory
    }
}

impl<T: Drop> From<AllocFailed<T>> for DeviceError {
    ghost from_gives = { λ _ e. e ≡ OutOfMemory };

    fn from(_: AllocFailed<T>) -> Self {
        DeviceError::OutOfMemory
    }
}
