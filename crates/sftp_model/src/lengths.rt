//! The read length and write length of a session.
ghost use Rattle.std.specs.Prelude.{◌≡◌, ◌≤◌};
ghost use Rattle.sftp_model.specs.Numbers.{MAX_TRANSFER_LEN};
ghost use Rattle.sftp_model.specs.Lengths.{session_lengths, session_len, advertised_len, packet_len_of};

use crate::config::Limits;
use crate::numbers;

/// Returns a session's read length and write length, in bytes, each from 1 to `MAX_TRANSFER_LEN`.
///
/// They are the lengths that the server's limits advertise, or 32768 if the limits say nothing. The options
/// `max_read_len` and `max_write_len` can lower them (OpenSSH's PROTOCOL, section 4.8).
pub fn session_lengths(
    limits: Option<Limits>,
    max_read_len: Option<u32>,
    max_write_len: Option<u32>,
) -> (u32, u32)
    ensures value { result ≡ session_lengths limits max_read_len max_write_len }
    ensures read_range { (1 ≤ result.0) × (result.0 ≤ MAX_TRANSFER_LEN) }
    ensures write_range { (1 ≤ result.1) × (result.1 ≤ MAX_TRANSFER_LEN) }
{
    match limits {
        None => (
            session_len(max_read_len, DEFAULT_LEN),
            session_len(max_write_len, DEFAULT_LEN),
        ),
        Some(limits) => (
            session_len(
                max_read_len,
                advertised_len(limits.packet_len, limits.read_len),
            ),
            session_len(
                max_write_len,
                advertised_len(limits.packet_len, limits.write_len),
            ),
        ),
    }
}

/// The bytes of a READ or WRITE if the server sets no length.
const DEFAULT_LEN: u32 = 32768;

/// Returns a length of the limits as a uint32.
fn advertised_len(packet_len: u64, len: u64) -> u32
    ensures { result ≡ advertised_len packet_len len }
{
    if len == 0 {
        return DEFAULT_LEN;
    }
    if len > 4294967295 {
        return packet_len_of(packet_len).saturating_sub(300);
    }
    len as u32
}

/// Returns the packet length of the limits as a uint32.
fn packet_len_of(packet_len: u64) -> u32
    ensures { result ≡ packet_len_of packet_len }
{
    if packet_len > 4294967295 {
        4294967286
    } else {
        packet_len as u32
    }
}

/// Returns the least of a length, the option and the greatest length, and at least 1.
fn session_len(most: Option<u32>, len: u32) -> u32
    ensures value { result ≡ session_len most len }
    ensures range { (1 ≤ result) × (result ≤ MAX_TRANSFER_LEN) }
{
    let capped = match most {
        None => len,
        Some(most) => most.min(len),
    };
    numbers::MAX_TRANSFER_LEN.min(capped).max(1)
}
