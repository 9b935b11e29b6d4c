//! Pieces of bytes that are cut out without a copy.
ghost use Rattle.std.specs.Prelude.{◌≡◌, ◌≤◌, ◌+◌, [], ◌∷◌, ◌++◌, ℕ, List, length, min, take, drop, IfOk, OnOk};
ghost use Rattle.sftp_model.specs.Pieces.{joined_pieces};
ghost use Rattle.sftp_file.specs.Parts.{cut_at, with_filled};

use bytes::Bytes;
use ssh_encoding::OutOfMemory;
use std::alloc::Global;

/// Copies these bytes once, into one piece.
///
/// # Errors
///
/// `OutOfMemory` if an allocation fails.
pub fn one_piece(alloc: Global, bytes: &[u8]) -> Result<Vec<Bytes>, OutOfMemory>
    ensures { IfOk result (λ pieces. (pieces.items ≡ bytes.now ∷ []) × (joined_pieces pieces.items ≡ bytes.now)) }
{
    let mut pieces = Vec::new(alloc);
    pieces.push(Bytes::copy_from_slice(alloc, bytes)?)?;
    Ok(pieces)
}

/// Returns the same pieces again, sharing their bytes.
pub(crate) fn shared(alloc: Global, pieces: &[Bytes]) -> Result<Vec<Bytes>, OutOfMemory>
    ensures { IfOk result (λ copies. copies.items ≡ pieces.now) }
{
    let mut copies = Vec::new(alloc);
    for piece in pieces {
        copies.push(piece.clone()?)?;
    }
    Ok(copies)
}

/// Returns the bytes from a position on, at most `limit`, as pieces that share their bytes with these, and how many
/// bytes they are. No piece is empty.
///
/// # Errors
///
/// `OutOfMemory` if an allocation fails.
pub fn cut(
    alloc: Global,
    pieces: &[Bytes],
    from: usize,
    limit: usize,
) -> Result<(Vec<Bytes>, usize), OutOfMemory>
    ensures pieces { IfOk result (λ cut. cut.0.items ≡ cut_at from limit pieces.now) }
    ensures bytes { IfOk result (λ cut. joined_pieces cut.0.items ≡ take limit (drop from (joined_pieces pieces.now))) }
    ensures len { IfOk result (λ cut. cut.1 ≡ min (length (drop from (joined_pieces pieces.now))) limit) }
{
    let mut parts = Vec::new(alloc);
    let mut before = from;
    let mut left = limit;
    for piece in pieces {
        let start = before.min(piece.len());
        let len = left.min(piece.len() - start);
        push_filled(&mut parts, piece.slice(start..start + len)?)?;
        before -= start;
        left -= len;
    }
    Ok((parts, limit - left))
}

/// Appends a piece if it isn't empty. Fails only if an allocation fails.
fn push_filled(pieces: &mut Vec<Bytes>, piece: Bytes) -> Result<(), OutOfMemory>
    ensures { OnOk result (pieces.new.items ≡ pieces.old.items ++ with_filled piece []) }
{
    if !piece.is_empty() {
        pieces.push(piece)?;
    }
    Ok(())
}
