//! Times in seconds.
ghost use Rattle.std.specs.Prelude.{◌≡◌, ℕ, ◌<◌, ◌≤◌, ◌^◌, ◌↔◌, Some, IsOk, IsErr, IfOk, IfErr};

use std::marker::Model;
use thiserror::Error;

/// A moment, in whole seconds since 1970-01-01T00:00:00Z: from 0 to 4294967295, which is 2106-02-07T06:28:15Z (the
/// times of draft-ietf-secsh-filexfer-02, section 5). A contract sees the number of seconds.
///
/// Example: `crates/test_wire/src/metadata.rt`.
#[derive(Clone, Copy, Debug, PartialEq, Eq, Hash)]
pub struct UnixTimeStamp(u32);

/// The error for a moment that has no `UnixTimeStamp`: it is past 2106-02-07T06:28:15Z.
///
/// Used by the functions of this module.
#[derive(Clone, Copy, Debug, PartialEq, Eq, Error)]
#[error("{seconds} seconds since 1970 are over 4294967295, the greatest timestamp")]
pub struct UnixTimeStampError {
    /// The moment, in seconds since 1970-01-01T00:00:00Z.
    pub seconds: u64,
}

impl Model for UnixTimeStamp {
    ghost Value = { ℕ };

    ghost view = { λ t. t.0 };

    ghost inverse = { λ n. record { 0 = n } };
}

impl UnixTimeStamp {
    /// Returns the moment this many seconds after 1970-01-01T00:00:00Z.
    ///
    /// # Errors
    ///
    /// `UnixTimeStampError` with these seconds, exactly if they are over 4294967295.
    pub fn new(seconds: u64) -> Result<UnixTimeStamp, UnixTimeStampError>
        ensures accepted { IsOk result ↔ (seconds ≤ u32.MAX) }
        ensures refused { IsErr result ↔ (u32.MAX < seconds) }
        ensures value { IfOk result (λ t. t ≡ seconds) }
        ensures error { IfErr result (λ e. e.seconds ≡ seconds) }
    {
        match u32::try_from(seconds) {
            Ok(raw) => Ok(UnixTimeStamp::of_raw(raw)),
            Err(_) => Err(UnixTimeStampError { seconds }),
        }
    }

    /// Returns 1970-01-01T00:00:00Z.
    pub fn unix_epoch() -> UnixTimeStamp
        ensures { result ≡ 0 }
    {
        UnixTimeStamp::of_raw(0)
    }

    /// Returns the moment this many seconds after 1970-01-01T00:00:00Z. The result is always `Some`.
    pub fn from_raw(elapsed: u32) -> Option<UnixTimeStamp>
        ensures { result ≡ Some elapsed }
    {
        Some(UnixTimeStamp::of_raw(elapsed))
    }

    /// Returns the moment this many seconds after 1970-01-01T00:00:00Z.
    pub(crate) fn of_raw(elapsed: u32) -> UnixTimeStamp
        ensures { result ≡ elapsed }
    {
        UnixTimeStamp(elapsed)
    }

    /// Returns the seconds since 1970-01-01T00:00:00Z.
    pub fn into_raw(self) -> u32
        ensures { result ≡ self }
    {
        self.0
    }

    /// Returns the seconds since 1970-01-01T00:00:00Z, at most 4294967295.
    pub fn as_seconds(self) -> u64
        ensures value { result ≡ self }
        ensures within { result ≤ u32.MAX }
    {
        u64::from(self.0)
    }
}

impl Default for UnixTimeStamp {
    ghost is_default = { λ t. t ≡ 0 };

    /// Returns 1970-01-01T00:00:00Z.
    fn default() -> UnixTimeStamp {
        UnixTimeStamp::unix_epoch()
    }
}
