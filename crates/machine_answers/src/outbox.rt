//! Replies that wait, and the order in which they are sent.
ghost use Rattle.std.specs.Prelude.{◌≡◌, ◌<◌, ◌≤◌, ◌-◌, ◌∷◌, ◌++◌, [], length, take, drop, OnOk, OnErr};
ghost use Rattle.machine_answers.specs.WaitingFrames.{WaitingFrames, with_next_picked, index_of};

use sftp_values::Items;
use ssh_encoding::OutOfMemory;
use std::alloc::Global;
use std::collections::VecDeque;
use std::marker::Model;

/// Frames of replies: the rest of the one that is being sent, and those that wait, in the order of their requests. The
/// next pick n takes number n modulo their count; after the last pick it takes the first.
///
/// Example: `crates/sftp_map_server/src/state.rt`.
#[derive(Drop)]
pub struct Outbox {
    ready: Vec<u8>,
    given: usize,
    waiting: VecDeque<Items<u8>>,
    picks: Items<u32>,
    used: usize,
}

impl Model for Outbox {
    ghost use Rattle.std.specs.Prelude.{◌≤◌, length, drop};
    ghost use Rattle.machine_answers.specs.WaitingFrames.{WaitingFrames};

    ghost Value = { WaitingFrames };

    ghost view = { λ o. record { ready = drop o.given o.ready.items; waiting = o.waiting.items; picks = drop o.used o.picks } };

    ghost invariant = { λ o. (o.given ≤ length o.ready.items) × (o.used ≤ length o.picks) };
}

impl Outbox {
    /// Creates it with these picks and without frames. Does not allocate.
    pub fn new(alloc: Global, picks: Items<u32>) -> Outbox
        ensures { result ≡ record { ready = []; waiting = []; picks = picks } }
    {
        Outbox {
            ready: Vec::new(alloc),
            given: 0,
            waiting: VecDeque::new(alloc),
            picks,
            used: 0,
        }
    }

    /// Adds a frame that is to be sent at once, after the one that is being sent.
    ///
    /// # Errors
    ///
    /// `OutOfMemory` if an allocation fails; nothing is changed.
    pub fn say(&mut self, frame: &[u8]) -> Result<(), OutOfMemory>
        ensures said { OnOk result (self.new ≡ record {
          ready = self.old.ready ++ frame.now;
          waiting = self.old.waiting;
          picks = self.old.picks;
        }) }
        ensures unchanged { OnErr result (self.new ≡ self.old) }
    {
        self.ready.extend_from_slice(frame)?;
        Ok(())
    }

    /// Adds a frame that waits until it is picked.
    ///
    /// # Errors
    ///
    /// `OutOfMemory` if an allocation fails; nothing is changed.
    pub fn hold(&mut self, frame: Items<u8>) -> Result<(), OutOfMemory>
        ensures held { OnOk result (self.new ≡ record {
          ready = self.old.ready;
          waiting = self.old.waiting ++ frame ∷ [];
          picks = self.old.picks;
        }) }
        ensures unchanged { OnErr result (self.new ≡ self.old) }
    {
        self.waiting.push_back(frame)?;
        Ok(())
    }

    /// Removes the frame that was added last by `hold`, as if it had not been added.
    pub fn take_back(&mut self)
        requires { 0 < length self.old.waiting }
        ensures { self.new ≡ record {
          ready = self.old.ready;
          waiting = take (length self.old.waiting - 1) self.old.waiting;
          picks = self.old.picks;
        } }
    {
        let _ = self.waiting.pop_back();
    }

    // Returns the index of the frame that is picked next.
    fn index(&self) -> usize
        ensures { result ≡ index_of self.now }
    {
        if self.waiting.is_empty() {
            return 0;
        }
        let pick = match self.picks.as_slice().get(self.used) {
            Some(pick) => *pick,
            None => 0,
        };
        pick as usize % self.waiting.len()
    }

    /// Returns the bytes that are sent next: the rest of a frame, or otherwise the whole of the frame that is picked.
    /// There are none if no frame waits.
    pub fn front(&self) -> &[u8]
        ensures { result.now ≡ (with_next_picked self.now).ready }
    {
        if self.given < self.ready.len() {
            return &self.ready[self.given..];
        }
        match self.waiting.get(self.index()) {
            Some(frame) => frame.as_slice(),
            None => &[],
        }
    }

    /// Removes the first `n` bytes of `front`, which were sent. A pick is used when a frame begins.
    pub fn give(&mut self, n: usize)
        requires { n ≤ length (with_next_picked self.old).ready }
        ensures { self.new ≡ record {
          ready = drop n (with_next_picked self.old).ready;
          waiting = (with_next_picked self.old).waiting;
          picks = (with_next_picked self.old).picks;
        } }
    {
        self.turn();
        self.given += n;
        if self.given == self.ready.len() {
            self.ready.clear();
            self.given = 0;
        }
    }

    // Picks the next frame, if no frame is being sent.
    fn turn(&mut self)
        ensures { self.new ≡ with_next_picked self.old }
    {
        if self.given < self.ready.len() || self.waiting.is_empty() {
            return;
        }
        let index = self.index();
        if let Some(frame) = self.waiting.remove(index) {
            self.ready = frame.into_vec();
            self.given = 0;
            self.spend();
        }
    }

    // Uses the next pick.
    fn spend(&mut self)
        ensures { self.new ≡ record { ready = self.old.ready; waiting = self.old.waiting; picks = drop 1 self.old.picks } }
    {
        if self.used < self.picks.as_slice().len() {
            self.used += 1;
        }
    }
}
