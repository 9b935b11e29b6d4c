//! The items that a scripted link has still to send.
ghost use Rattle.std.specs.Prelude.{◌≡◌, ◌≤◌, ◌∷◌, ◌++◌, [], length, take, min, OnOk, OnErr, IfOk, MatchOption, Some, None};
ghost use Rattle.sftp_link.specs.Script.{has_bytes, ahead_of, with_item_begun, after_bytes_given, begun_from, ahead_of_items};
ghost use Rattle.sftp_link.specs.declared.piece.Scripted.{Scripted};
ghost use Rattle.sftp_link.specs.Frames.{item_bytes};

use crate::frames::item_bytes;
use crate::piece::Scripted;
use std::alloc::{AllocError, Global};
use std::collections::VecDeque;
use std::marker::Model;

/// The bytes and items that a scripted link has still to send.
#[derive(Drop)]
pub(crate) struct Remaining {
    items: VecDeque<Scripted>,
    begun: Vec<u8>,
    at: usize,
}

impl Model for Remaining {
    ghost use Rattle.std.specs.Prelude.{◌≤◌, drop, length};
    ghost use Rattle.sftp_link.specs.Script.{ScriptAhead};

    ghost Value = { ScriptAhead };

    ghost view = { λ s. record { rest = drop s.at s.begun.items; items = s.items.items } };

    ghost invariant = { λ s. s.at ≤ length s.begun.items };
}

// Returns true if an item has bytes to send.
fn has_bytes(item: &Scripted) -> bool
    ensures { result ≡ has_bytes item.now }
{
    match item {
        Scripted::Raw(bytes) => !bytes.as_slice().is_empty(),
        Scripted::To { .. } => true,
    }
}

// Returns the bytes of the first item and removes it. Returns `None` if there is no item or it has no bytes yet. Fails
// only if an allocation fails; `items` is unchanged.
fn begin_next(
    alloc: Global,
    sent: &[u8],
    items: &mut VecDeque<Scripted>,
) -> Result<Option<Vec<u8>>, AllocError>
    ensures ok { IfOk result (λ found. MatchOption found
        (begun_from sent.now [] items.old.items ≡ record { rest = []; items = items.new.items })
        (λ v. begun_from sent.now [] items.old.items
        ≡ record { rest = v.items; items = items.new.items })) }
    ensures unchanged { OnErr result (items.new.items ≡ items.old.items) }
{
    let Some(item) = items.front() else {
        return Ok(None);
    };
    let Some(bytes) = item_bytes(alloc, sent, item)? else {
        return Ok(None);
    };
    let _ = items.pop_front();
    Ok(Some(bytes))
}

impl Remaining {
    /// Creates the script of these items. Items without bytes are passed over.
    pub(crate) fn new(alloc: Global, mut items: Vec<Scripted>) -> Remaining
        ensures { result ≡ ahead_of items.items }
    {
        items.retain(has_bytes);
        Remaining {
            items: VecDeque::from(items),
            begun: Vec::new(alloc),
            at: 0,
        }
    }

    /// Starts the next item if nothing is left of the one before. After an error it is unchanged.
    pub(crate) fn begin(&mut self, alloc: Global, sent: &[u8]) -> Result<(), AllocError>
        ensures ok { OnOk result (self.new ≡ with_item_begun sent.now self.old) }
        ensures unchanged { OnErr result (self.new ≡ self.old) }
    {
        if self.at < self.begun.len() {
            return Ok(());
        }
        if let Some(bytes) = begin_next(alloc, sent, &mut self.items)? {
            self.begun = bytes;
            self.at = 0;
        }
        Ok(())
    }

    /// Copies the rest of the started item into the room, up to its length, and returns the number of bytes.
    pub(crate) fn give(&mut self, room: &mut [u8]) -> usize
        ensures count { result ≡ min (length room.new) (length self.old.rest) }
        ensures bytes { take result room.new ≡ take result self.old.rest }
        ensures given { self.new ≡ after_bytes_given result self.old }
    {
        let n = room.len().min(self.begun.len() - self.at);
        room[..n].copy_from_slice(&self.begun[self.at..self.at + n]);
        self.at += n;
        n
    }
}
