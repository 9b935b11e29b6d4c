//! The reasons why no channel was opened.
ghost use Rattle.std.specs.Prelude.{◌≡◌};

use sftp_link::DeviceError;
use thiserror::Error;

/// The reason why no channel was opened.
///
/// Example: `README.md` of this crate.
#[derive(Clone, Copy, Debug, PartialEq, Eq, Error)]
pub enum OpenError {
    /// An allocation failed.
    #[error("out of memory")]
    OutOfMemory,
    /// The connection to the master ended or failed.
    #[error("the connection to the master was lost")]
    Lost,
    /// The peer does not follow OpenSSH's PROTOCOL.mux, or breaks the rules of RFC 4254.
    #[error("this is not a control socket of OpenSSH")]
    NotAMaster,
    /// The master speaks another version of the multiplexing protocol.
    #[error("the master speaks version {0} of the multiplexing protocol, not version 4")]
    OtherVersion(u32),
    /// The master refused its proxy mode.
    #[error("the master refuses its proxy mode (OpenSSH before 7.4 has none)")]
    NoProxy,
    /// The server refused the channel, for this reason (RFC 4254, section 5.1).
    #[error("the server refused a channel (reason {0}); with reason 2 its MaxSessions may be reached")]
    NoChannel(u32),
    /// The server refused the subsystem.
    #[error("the server has no such subsystem")]
    NoSubsystem,
}

impl From<DeviceError> for OpenError {
    fn from(e: DeviceError) -> OpenError {
        match e {
            DeviceError::OutOfMemory => OpenError::OutOfMemory,
            DeviceError::Failed => OpenError::Lost,
        }
    }
}

impl From<ssh_encoding::Error> for OpenError {
    fn from(_: ssh_encoding::Error) -> OpenError {
        OpenError::OutOfMemory
    }
}
