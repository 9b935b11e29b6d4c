//! Bytes that were handed out and are not sent yet.
ghost use Rattle.std.specs.Prelude.{◌≡◌, ◌<◌, ◌≤◌, ◌-◌, ◌^◌, [], ◌++◌, length, drop, Some};
ghost use Rattle.sftp_core.specs.Frames.{AreFilled};
ghost use Rattle.sftp_core.specs.Pieces.{chunk_bytes};
ghost use Rattle.sftp_model.specs.Pieces.{joined_pieces};
ghost use Rattle.sftp_link.specs.Moves.{HasSent};
ghost use Rattle.sftp_client.specs.Outgoing.{IsPrefixOf, IsAt, IsWithin, SendsOn, unsent_from};

use arrayvec::ArrayVec;
use bytes::Bytes;
use link_frames::fault;
use sftp_core::Chunk;
use sftp_link::{DeviceError, LinkOut};
use sftp_model::Error;
use std::marker::Model;

/// The most bytes that are gathered into one send.
const MAX_GATHERED: usize = 65536;

/// The number of unsent bytes from which a piece is sent by itself, and is not copied.
const MIN_ALONE: usize = 16384;

/// The unsent part of a chunk: its pieces from one on, and of that one the bytes from an offset on. A contract sees
/// these bytes.
#[derive(Drop)]
pub(crate) struct Outgoing {
    chunk: Option<Chunk>,
    piece: usize,
    offset: usize,
}

impl Model for Outgoing {
    ghost use Rattle.std.specs.Prelude.{List, ℕ};
    ghost use Rattle.sftp_client.specs.Outgoing.{IsAt, chunk_pieces, unsent_from};

    ghost Value = { List ℕ };

    ghost view = { λ o. unsent_from (chunk_pieces o.chunk) o.piece o.offset };

    ghost invariant = { λ o. IsAt (chunk_pieces o.chunk) o.piece o.offset };
}

impl Outgoing {
    /// Returns a chunk of which nothing is unsent.
    pub(crate) fn new() -> Outgoing
        ensures { result ≡ [] }
    {
        Outgoing {
            chunk: None,
            piece: 0,
            offset: 0,
        }
    }

    /// Returns a chunk of which everything is unsent.
    pub(crate) fn of(chunk: Chunk) -> Outgoing
        requires { AreFilled chunk.pieces }
        ensures { result ≡ chunk_bytes chunk }
    {
        Outgoing {
            chunk: Some(chunk),
            piece: 0,
            offset: 0,
        }
    }

    /// Sends the unsent bytes; small neighbouring pieces are gathered into one send. After an error the rest stays
    /// unsent, and the next call continues with it.
    pub(crate) fn send<L: LinkOut>(&mut self, link: &mut L) -> Result<(), Error>
        requires { (L.LinkState.state link.old).faults < 2 ^ 64 - 1 }
        ensures { SendsOn self.old self.new (L.LinkState.state link.old) (L.LinkState.state link.new) result }
    {
        match &self.chunk {
            Some(chunk) => send_from(link, chunk.pieces(), &mut self.piece, &mut self.offset),
            None => Ok(()),
        }
    }

    /// Returns the chunk, if all of it was sent, so that its memory may be used again.
    pub(crate) fn into_chunk(self) -> Option<Chunk> {
        let Outgoing { chunk, .. } = self;
        chunk
    }
}

/// Sends pieces from a position on, and moves the position past the bytes that were sent.
fn send_from<L: LinkOut>(
    link: &mut L,
    pieces: &[Bytes],
    piece: &mut usize,
    offset: &mut usize,
) -> Result<(), Error>
    requires count { (L.LinkState.state link.old).faults < 2 ^ 64 - 1 }
    requires at { IsAt (Some pieces.now) piece.old offset.old }
    ensures sends { SendsOn (unsent_from (Some pieces.now) piece.old offset.old) (unsent_from (Some pieces.now) piece.new offset.new)
        (L.LinkState.state link.old) (L.LinkState.state link.new) result }
    ensures at { IsAt (Some pieces.now) piece.new offset.new }
{
    while *piece < pieces.len() {
        match send_some(link, pieces, *piece, *offset) {
            Ok(n) => pass(pieces, n, piece, offset),
            Err(e) => return Err(fault(e)),
        }
    }
    Ok(())
}

/// Does one send of the first unsent bytes: a large piece by itself, or small ones as one.
fn send_some<L: LinkOut>(
    link: &mut L,
    pieces: &[Bytes],
    piece: usize,
    offset: usize,
) -> Result<usize, DeviceError>
    requires count { (L.LinkState.state link.old).faults < 2 ^ 64 - 1 }
    requires at { IsWithin (drop piece pieces.now) offset }
    requires some { piece < length pieces.now }
    ensures { HasSent L.LinkState.Service (unsent_from (Some pieces.now) piece offset) (L.LinkState.state link.old) (L.LinkState.state link.new) result }
{
    let first = &pieces[piece][offset..];
    if first.len() >= MIN_ALONE {
        return link.send(first);
    }
    let mut gathered: ArrayVec<u8, MAX_GATHERED> = ArrayVec::new();
    gather(first, &pieces[piece + 1..], &mut gathered);
    link.send(gathered.as_slice())
}

/// Gathers bytes, and the whole pieces after them that there is room for.
fn gather(first: &[u8], later: &[Bytes], gathered: &mut ArrayVec<u8, MAX_GATHERED>)
    requires empty { gathered.old.items ≡ [] }
    requires fits { length first.now ≤ MAX_GATHERED }
    ensures begins { IsPrefixOf gathered.new.items (first.now ++ joined_pieces later.now) }
    ensures first { length first.now ≤ length gathered.new.items }
{
    gathered.try_extend_from_slice(first).unwrap();
    for piece in later {
        if piece.len() > gathered.remaining_capacity() {
            return;
        }
        gathered.try_extend_from_slice(piece).unwrap();
    }
}

/// Moves a position past bytes that were sent.
fn pass(pieces: &[Bytes], sent: usize, piece: &mut usize, offset: &mut usize)
    requires at { IsAt (Some pieces.now) piece.old offset.old }
    requires within { sent ≤ length (unsent_from (Some pieces.now) piece.old offset.old) }
    ensures passed { unsent_from (Some pieces.now) piece.new offset.new ≡ drop sent (unsent_from (Some pieces.now) piece.old offset.old) }
    ensures at { IsAt (Some pieces.now) piece.new offset.new }
{
    let mut left = sent;
    while left > 0 {
        let rest = pieces[*piece].len() - *offset;
        if left < rest {
            *offset += left;
            return;
        }
        left -= rest;
        *piece += 1;
        *offset = 0;
    }
}
