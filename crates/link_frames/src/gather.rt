//! Pieces that are sent over a link, with small ones gathered into one send.
ghost use Rattle.std.specs.Prelude.{◌≡◌, ◌<◌, ◌-◌, ◌^◌, ◌++◌, [], OnOk};
ghost use Rattle.sftp_model.specs.Pieces.{joined_pieces};
ghost use Rattle.link_frames.specs.Causes.{SentBy};
ghost use Rattle.link_frames.specs.Gathering.{GathersBytes};

use crate::exchange::fault;
use arrayvec::ArrayVec;
use bytes::Bytes;
use sftp_link::{LinkOut, send_all};
use sftp_model::Error;

/// The most bytes that are gathered into one send.
const MAX_GATHERED: usize = 65536;

/// The size in bytes from which a piece is sent by itself and is not copied.
const MIN_ALONE: usize = 16384;

/// Sends pieces in their order, with small neighbours gathered into one send.
///
/// # Errors
///
/// `OutOfMemory` or `LinkFault`; the latter only if the link's count of faults rose. A prefix of the bytes was sent,
/// and not all of them.
pub fn send_pieces<L: LinkOut>(link: &mut L, pieces: &[Bytes]) -> Result<(), Error>
    requires { (L.LinkState.state link.old).faults < 2 ^ 64 - 1 }
    ensures { SentBy (joined_pieces pieces.now) (L.LinkState.state link.old) (L.LinkState.state link.new) result }
{
    match pieces {
        [piece] => send_bytes(link, piece),
        _ => send_gathered(link, pieces),
    }
}

/// Sends bytes. After an error a prefix of them was sent, and not all.
fn send_bytes<L: LinkOut>(link: &mut L, bytes: &[u8]) -> Result<(), Error>
    requires { (L.LinkState.state link.old).faults < 2 ^ 64 - 1 }
    ensures { SentBy bytes.now (L.LinkState.state link.old) (L.LinkState.state link.new) result }
{
    match send_all(link, bytes) {
        Ok(()) => Ok(()),
        Err(e) => Err(fault(e)),
    }
}

/// Sends pieces in their order, with small neighbours as one. After an error a prefix of their bytes was sent, and not
/// all.
fn send_gathered<L: LinkOut>(link: &mut L, pieces: &[Bytes]) -> Result<(), Error>
    requires { (L.LinkState.state link.old).faults < 2 ^ 64 - 1 }
    ensures { SentBy (joined_pieces pieces.now) (L.LinkState.state link.old) (L.LinkState.state link.new) result }
{
    let mut gathered: ArrayVec<u8, MAX_GATHERED> = ArrayVec::new();
    for piece in pieces {
        put_piece(link, &mut gathered, piece)?;
    }
    flush_gathered(link, &mut gathered)
}

/// Gathers a piece. The bytes gathered before are sent first if the two do not fit into one send. After an error a
/// prefix of the bytes was sent, and not all.
fn put_piece<L: LinkOut>(
    link: &mut L,
    gathered: &mut ArrayVec<u8, MAX_GATHERED>,
    piece: &[u8],
) -> Result<(), Error>
    requires { (L.LinkState.state link.old).faults < 2 ^ 64 - 1 }
    ensures { GathersBytes (gathered.old.items ++ piece.now) gathered.new.items (L.LinkState.state link.old) (L.LinkState.state link.new) result }
{
    if piece.len() < MIN_ALONE && piece.len() <= gathered.remaining_capacity() {
        gathered.try_extend_from_slice(piece).unwrap();
        return Ok(());
    }
    flush_gathered(link, gathered)?;
    send_or_gather(link, gathered, piece)
}

/// Sends a large piece, or gathers a small one. After an error a prefix of the bytes was sent, and not all.
fn send_or_gather<L: LinkOut>(
    link: &mut L,
    gathered: &mut ArrayVec<u8, MAX_GATHERED>,
    piece: &[u8],
) -> Result<(), Error>
    requires empty { gathered.old.items ≡ [] }
    requires count { (L.LinkState.state link.old).faults < 2 ^ 64 - 1 }
    ensures { GathersBytes piece.now gathered.new.items (L.LinkState.state link.old) (L.LinkState.state link.new) result }
{
    if piece.len() < MIN_ALONE {
        gathered.try_extend_from_slice(piece).unwrap();
        return Ok(());
    }
    send_bytes(link, piece)
}

/// Sends the gathered bytes; none are gathered afterwards. After an error a prefix of them was sent, and not all.
fn flush_gathered<L: LinkOut>(
    link: &mut L,
    gathered: &mut ArrayVec<u8, MAX_GATHERED>,
) -> Result<(), Error>
    requires { (L.LinkState.state link.old).faults < 2 ^ 64 - 1 }
    ensures sent { SentBy gathered.old.items (L.LinkState.state link.old) (L.LinkState.state link.new) result }
    ensures empty { OnOk result (gathered.new.items ≡ []) }
{
    send_bytes(link, gathered.as_slice())?;
    gathered.clear();
    Ok(())
}
