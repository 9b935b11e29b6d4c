//! Bytes of the stream that came and were not returned yet.
ghost use Rattle.std.specs.Prelude.{◌≡◌, ◌<◌, ◌≤◌, ◌-◌, ◌++◌, [], length, OnOk, OnErr};
ghost use Rattle.ssh_channel.specs.ChannelStates.{GivesPrefix};

use std::alloc::{AllocError, Global};
use std::marker::Model;

/// Bytes that came and were not returned yet. A contract sees these bytes.
#[derive(Drop)]
pub(crate) struct ReadAhead {
    bytes: Vec<u8>,
    given: usize,
}

impl Model for ReadAhead {
    ghost use Rattle.std.specs.Prelude.{List, ℕ, ◌≤◌, drop, length};

    ghost Value = { List ℕ };

    ghost view = { λ a. drop a.given a.bytes.items };

    ghost invariant = { λ a. a.given ≤ length a.bytes.items };
}

impl ReadAhead {
    /// Creates it without bytes. Does not allocate.
    pub(crate) fn new(alloc: Global) -> ReadAhead
        ensures { result ≡ [] }
    {
        ReadAhead {
            bytes: Vec::new(alloc),
            given: 0,
        }
    }

    /// Returns the number of bytes.
    pub(crate) fn len(&self) -> usize
        ensures { result ≡ length self.now }
    {
        self.bytes.len() - self.given
    }

    /// Appends bytes.
    ///
    /// # Errors
    ///
    /// `AllocError` if an allocation fails; the bytes ahead are unchanged.
    pub(crate) fn append(&mut self, bytes: &[u8]) -> Result<(), AllocError>
        ensures ok { OnOk result (self.new ≡ self.old ++ bytes.now) }
        ensures err { OnErr result (self.new ≡ self.old) }
    {
        self.bytes.extend_from_slice(bytes)
    }

    /// Allocates memory for this many bytes more. The memory of bytes that were returned is used again once they are
    /// half of it.
    ///
    /// # Errors
    ///
    /// `AllocError` if an allocation fails.
    pub(crate) fn reserve(&mut self, more: usize) -> Result<(), AllocError>
        ensures { self.new ≡ self.old }
    {
        if self.given >= self.bytes.len() - self.given {
            self.bytes.drain(..self.given);
            self.given = 0;
        }
        self.bytes.reserve(more)
    }

    /// Moves the first bytes into the room, at most its length, and returns their number.
    pub(crate) fn give(&mut self, room: &mut [u8]) -> usize
        ensures { GivesPrefix self.old self.new room.new result }
    {
        let n = room.len().min(self.bytes.len() - self.given);
        room[..n].copy_from_slice(&self.bytes[self.given..self.given + n]);
        self.given += n;
        n
    }
}
