//! The facts that a session knows about its server.
ghost use Rattle.std.specs.Prelude.{◌≡◌, ◌≤◌};
ghost use Rattle.sftp_model.specs.Numbers.{MAX_TRANSFER_LEN};
ghost use Rattle.sftp_core.specs.Info.{lengths_of, info_with, HasLengths};

use sftp_model::{Extensions, Limits, SftpOptions, session_lengths};

/// The most ids that are in use at one time: a request may be submitted if fewer are kept.
pub const MAX_IDS: u32 = 2_147_483_648;

/// The facts that a session knows about its server once the greeting is over.
///
/// Used in `crates/sftp_lanes/src/session.rt`.
#[derive(Clone, Copy, Debug, PartialEq, Eq)]
pub struct Info {
    /// The extensions that the server offers.
    pub extensions: Extensions,
    /// The most bytes that one READ asks for, from 1 to 1048275.
    pub read_len: u32,
    /// The most bytes that one WRITE carries, from 1 to 1048275.
    pub write_len: u32,
}

/// Returns the read length and the write length of a session, in bytes, each from 1 to 1048275.
///
/// They are the lengths that the server's limits advertise, or 32768 if the limits say nothing. The options can lower
/// them (OpenSSH's PROTOCOL, section 4.8).
pub fn lengths(limits: Option<Limits>, options: &SftpOptions) -> (u32, u32)
    ensures value { result ≡ lengths_of limits options.now }
    ensures read_range { (1 ≤ result.0) × (result.0 ≤ MAX_TRANSFER_LEN) }
    ensures write_range { (1 ≤ result.1) × (result.1 ≤ MAX_TRANSFER_LEN) }
{
    session_lengths(
        limits,
        options.get_max_read_len(),
        options.get_max_write_len(),
    )
}

impl Info {
    /// Returns the facts known about a server with these extensions and limits.
    pub(crate) fn with(
        extensions: Extensions,
        limits: Option<Limits>,
        options: &SftpOptions,
    ) -> Info
        ensures value { result ≡ info_with extensions limits options.now }
        ensures lengths { HasLengths result }
    {
        let (read_len, write_len) = lengths(limits, options);
        Info {
            extensions,
            read_len,
            write_len,
        }
    }
}
