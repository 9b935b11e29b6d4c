//! The reasons why no further frame is served, and their statuses.
ghost use Rattle.std.specs.Prelude.{◌≡◌};
ghost use Rattle.sftp_serve.specs.Ended.{stop_status};
ghost use Rattle.sftp_serve.specs.declared.stop.Stop.TheVariants as stop;

use sftp_link::DeviceError;
use ssh_encoding::OutOfMemory;

/// The status if the stream ended after a frame.
const WHOLE: u8 = 0;

/// The status if the stream broke.
const BROKEN: u8 = 1;

/// The status if the link failed.
pub(crate) const LINK_FAULT: u8 = 3;

/// The status if an allocation failed.
pub(crate) const OUT_OF_MEMORY: u8 = 5;

/// The reason why no further frame is served.
///
/// Used in `crates/sftp_serve/src/engine.rt`.
#[derive(Clone, Copy)]
pub enum Stop {
    /// The stream ended after a frame.
    Ended,
    /// The stream ended within a frame, or bytes came that are no frame, or a frame that may not come.
    Broken,
    /// The link failed.
    Faulted,
    /// Out of memory.
    OutOfMemory,
}

impl Stop {
    /// Returns the exit status.
    pub(crate) fn status(self) -> u8
        ensures { result ≡ stop_status self }
    {
        match self {
            Stop::Ended => WHOLE,
            Stop::Broken => BROKEN,
            Stop::Faulted => LINK_FAULT,
            Stop::OutOfMemory => OUT_OF_MEMORY,
        }
    }
}

impl From<DeviceError> for Stop {
    ghost use Rattle.sftp_serve.specs.Ended.{stop_of};

    ghost from_gives = { λ e s. s ≡ stop_of e };

    fn from(e: DeviceError) -> Stop {
        match e {
            DeviceError::OutOfMemory => Stop::OutOfMemory,
            DeviceError::Failed => Stop::Faulted,
        }
    }
}

impl From<OutOfMemory> for Stop {
    ghost from_gives = { λ _ s. s ≡ stop.OutOfMemory };

    fn from(_: OutOfMemory) -> Stop {
        Stop::OutOfMemory
    }
}
