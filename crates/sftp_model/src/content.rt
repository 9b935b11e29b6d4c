//! Bytes to be written, as shared pieces.
ghost use Rattle.std.specs.Prelude.{◌≡◌, ◌==◌, ◌++◌, [], List, ℕ, length, OnOk, OnErr};
ghost use Rattle.std.specs.List.{list_all};
ghost use Rattle.std.proofs.Common.{rules};
ghost use Rattle.std.specs.Cmp.Lexicographic.{pointwise};
ghost use Rattle.std.specs.Cmp.Rules.{comparing};
ghost use Rattle.sftp_model.specs.Pieces.{joined_pieces};

use crate::copy::{TryCopy, copies_of};
use bytes::Bytes;
use ssh_encoding::OutOfMemory;
use std::alloc::Global;
use std::marker::Model;

/// Bytes to be written, as shared pieces in order. A contract sees the joined bytes: how they are cut into pieces is
/// left open.
///
/// Example: `crates/test_wire/src/model.rt`.
#[derive(Debug, Drop)]
pub struct Content {
    pieces: Vec<Bytes>,
}

impl Model for Content {
    ghost use Rattle.std.specs.Prelude.{List, ℕ};
    ghost use Rattle.sftp_model.specs.Pieces.{joined_pieces};

    ghost Value = { List ℕ };

    ghost view = { λ c. joined_pieces c.pieces.items };
}

impl Content {
    /// Creates it without bytes. Does not allocate.
    pub fn new(alloc: Global) -> Content
        ensures { result ≡ [] }
    {
        Content {
            pieces: Vec::new(alloc),
        }
    }

    /// Adds a piece at the end.
    ///
    /// # Errors
    ///
    /// `OutOfMemory` if an allocation fails; the content is unchanged.
    #[tactic(auto, using(crate::proofs::Joining::joining))]
    pub fn push(&mut self, piece: Bytes) -> Result<(), OutOfMemory>
        ensures ok { OnOk result (self.new ≡ self.old ++ piece) }
        ensures unchanged { OnErr result (self.new ≡ self.old) }
    {
        self.pieces.push(piece)?;
        Ok(())
    }

    /// Returns the pieces in order; joined they are the content.
    pub fn pieces(&self) -> &[Bytes]
        ensures { joined_pieces result.now ≡ self.now }
    {
        self.pieces.as_slice()
    }
}

/// Returns true if the pieces of both sides join to the same bytes.
#[tactic(auto, using(crate::proofs::Joining::joining))]
fn are_joined_same(left: &[Bytes], right: &[Bytes]) -> bool
    ensures { result ≡ pointwise ◌==◌ (joined_pieces left.now) (joined_pieces right.now) }
{
    let (mut lefts, mut rights) = (left, right);
    let mut ours: &[u8] = &[];
    let mut theirs: &[u8] = &[];
    loop {
        match (ours, theirs) {
            ([x, ours_rest @ ..], [y, theirs_rest @ ..]) => {
                if *x != *y {
                    return false;
                }
                ours = ours_rest;
                theirs = theirs_rest;
            }
            ([], _) => match lefts {
                [piece, rest @ ..] => {
                    ours = piece.as_slice();
                    lefts = rest;
                }
                [] => return theirs.is_empty() && are_all_empty(rights),
            },
            (_, []) => match rights {
                [piece, rest @ ..] => {
                    theirs = piece.as_slice();
                    rights = rest;
                }
                [] => return false,
            },
        }
    }
}

/// Returns true if the pieces join to no bytes.
fn are_all_empty(pieces: &[Bytes]) -> bool
    ensures { result ≡ list_all (λ piece. length piece == 0) pieces.now }
{
    pieces.iter().all(|piece| piece.is_empty())
}

impl PartialEq for Content {
    ghost eq = { pointwise ◌==◌ };

    ghost laws = { Prim.search (comparing, rules) };

    fn eq(&self, other: &Content) -> bool {
        are_joined_same(self.pieces.as_slice(), other.pieces.as_slice())
    }
}

impl Eq for Content {
    ghost laws = { Prim.search (comparing, rules) };
}

impl TryCopy for Content {
    fn try_copy(&self, alloc: Global) -> Result<Content, OutOfMemory> {
        Ok(Content {
            pieces: copies_of(alloc, self.pieces.as_slice())?,
        })
    }
}
