//! Packets as they come over a link: a length and a body.
ghost use Rattle.std.specs.Prelude.{◌≡◌, ◌<◌, ◌≤◌, ◌-◌, ◌^◌, ℕ, get_or, length, take};
ghost use Rattle.std.specs.Int.{w32, from_be_bytes};
ghost use Rattle.sftp_link.specs.Causes.{CountsDeviceFault};
ghost use Rattle.sftp_link.specs.Told.{FillsRoom};
ghost use Rattle.ssh_channel.specs.LogBytes.{ReceivesPacket};

use sftp_link::{DeviceError, LinkIn, recv_exact};

/// The packet that came.
pub(crate) enum Packet {
    /// A body of this many bytes, which are at the start of the buffer.
    Whole(usize),
    /// The length of a body for which the buffer has no room.
    TooLong(u32),
    /// The end of the link, before a packet or within it.
    End,
}

/// Returns the number in four bytes.
fn length_of(head: &[u8]) -> u32
    requires { length head.now ≡ 4 }
    ensures number { result ≡ from_be_bytes w32 head.now }
    ensures bytes { (i : ℕ) → get_or head.now i 0 < 256 }
{
    u32::from_be_bytes([head[0], head[1], head[2], head[3]])
}

/// Fills the first `n` bytes of a buffer. Returns false if the link's end came first.
///
/// # Errors
///
/// `OutOfMemory` or `Failed`.
fn fill_start<L: LinkIn>(link: &mut L, buffer: &mut [u8], n: usize) -> Result<bool, DeviceError>
    requires within { n ≤ length buffer.old }
    requires count { (L.LinkState.state link.old).faults < 2 ^ 64 - 1 }
    ensures log { FillsRoom (take n buffer.new) (L.LinkState.state link.old).log
        (L.LinkState.state link.new).log result }
    ensures cause { CountsDeviceFault (L.LinkState.state link.old).faults (L.LinkState.state link.new).faults result }
    ensures same { (L.LinkState.state link.new).service ≡ (L.LinkState.state link.old).service }
{
    recv_exact(link, &mut buffer[..n])
}

/// Receives one packet, and puts its body at the start of the buffer.
///
/// # Errors
///
/// `OutOfMemory` or `Failed`; a part of the packet may have been received.
pub(crate) fn next_packet<L: LinkIn>(
    link: &mut L,
    buffer: &mut Vec<u8>,
) -> Result<Packet, DeviceError>
    requires { (L.LinkState.state link.old).faults < 2 ^ 64 - 1 }
    ensures { ReceivesPacket buffer.new.items (L.LinkState.state link.old) (L.LinkState.state link.new) result }
{
    let mut head = [0; 4];
    if !recv_exact(link, &mut head)? {
        return Ok(Packet::End);
    }
    let len = length_of(&head);
    if len as usize > buffer.len() {
        return Ok(Packet::TooLong(len));
    }
    if !fill_start(link, buffer.as_mut_slice(), len as usize)? {
        return Ok(Packet::End);
    }
    Ok(Packet::Whole(len as usize))
}
