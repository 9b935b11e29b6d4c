//! Bytes that came and were not returned yet.
ghost use Rattle.std.specs.Prelude.{◌≡◌, ◌<◌, ◌≤◌, ◌-◌, ◌^◌, [], ℕ, drop, length, take, OnOk};
ghost use Rattle.link_duplex.specs.Buffers.{GivesPrefix, IsWithin, ReadsAhead};

use crate::wire::Wire;
use sftp_link::DeviceError;
use std::alloc::{AllocError, Global};
use std::marker::Model;

/// The capacity that is allocated at first, and the least limit of a link.
pub(crate) const STEP: usize = 65536;

/// The outcome of a get that reads ahead.
#[derive(Clone, Copy)]
pub(crate) enum GetOutcome {
    /// Bytes came.
    Came,
    /// No bytes came.
    Nothing,
    /// The end was found.
    End,
    /// The wire was not called, because the limit is reached.
    Full,
}

/// Bytes that came over a wire and were not returned yet. A contract sees these bytes.
#[derive(Drop)]
pub(crate) struct ReadAhead {
    room: Vec<u8>,
    given: usize,
    came: usize,
}

impl Model for ReadAhead {
    ghost use Rattle.std.specs.Prelude.{List, ℕ, drop, take};
    ghost use Rattle.link_duplex.specs.Buffers.{IsWithin};

    ghost Value = { List ℕ };

    ghost view = { λ a. drop a.given (take a.came a.room.items) };

    ghost invariant = { λ a. IsWithin a.given a.came a.room.items };
}

impl ReadAhead {
    /// Creates it without bytes. Does not allocate.
    pub(crate) fn new(alloc: Global) -> ReadAhead
        ensures { result ≡ [] }
    {
        ReadAhead {
            room: Vec::new(alloc),
            given: 0,
            came: 0,
        }
    }

    /// Returns the number of bytes.
    pub(crate) fn len(&self) -> usize
        ensures { result ≡ length self.now }
    {
        self.came - self.given
    }

    /// Moves the first bytes into the room, at most its length, and returns their number.
    pub(crate) fn give(&mut self, room: &mut [u8]) -> usize
        ensures { GivesPrefix self.old self.new room.new result }
    {
        let n = room.len().min(self.came - self.given);
        room[..n].copy_from_slice(&self.room[self.given..self.given + n]);
        self.given += n;
        n
    }

    /// Makes one get of a wire if fewer bytes than the limit are ahead. The bytes that come are appended.
    ///
    /// # Errors
    ///
    /// `OutOfMemory` or `Failed`; the bytes ahead are unchanged.
    pub(crate) fn take<W: Wire>(
        &mut self,
        limit: usize,
        wire: &mut W,
    ) -> Result<GetOutcome, DeviceError>
        requires { (W.state wire.old).faults < 2 ^ 64 - 1 }
        ensures { ReadsAhead limit self.old self.new (W.state wire.old) (W.state wire.new) result }
    {
        if self.len() >= limit {
            return Ok(GetOutcome::Full);
        }
        if make_place(limit, &mut self.room, &mut self.given, &mut self.came).is_err() {
            return Err(DeviceError::OutOfMemory);
        }
        match wire.get(&mut self.room[self.came..]) {
            Ok(Some(0)) => Ok(GetOutcome::End),
            Ok(Some(n)) => {
                self.came += n;
                Ok(GetOutcome::Came)
            }
            Ok(None) => Ok(GetOutcome::Nothing),
            Err(e) => Err(e),
        }
    }
}

/// Makes space in a room for at least one byte after those that came. The room is used from its start again if all its
/// bytes were returned, and doubled if it is full.
///
/// # Errors
///
/// `AllocError` if an allocation fails; the bytes are unchanged.
fn make_place(
    limit: usize,
    room: &mut Vec<u8>,
    given: &mut usize,
    came: &mut usize,
) -> Result<(), AllocError>
    requires within { IsWithin given.old came.old room.old.items }
    requires limit { came.old - given.old < limit }
    ensures same { drop given.new (take came.new room.new.items) ≡ drop given.old (take came.old room.old.items) }
    ensures within { IsWithin given.new came.new room.new.items }
    ensures place { OnOk result (came.new < length room.new.items) }
{
    let ahead = *came - *given;
    if ahead == 0 && !room.is_empty() {
        *given = 0;
        *came = 0;
        return Ok(());
    }
    if *came < room.len() {
        return Ok(());
    }
    grow(limit - ahead, room)
}

/// Doubles a room, by at most `most` bytes.
///
/// # Errors
///
/// `AllocError` if an allocation fails; the bytes are unchanged.
fn grow(most: usize, room: &mut Vec<u8>) -> Result<(), AllocError>
    requires { 0 < most }
    ensures same { (n : ℕ) → n ≤ length room.old.items → take n room.new.items ≡ take n room.old.items }
    ensures longer { length room.old.items ≤ length room.new.items }
    ensures place { OnOk result (length room.old.items < length room.new.items) }
{
    let Some(wanted) = room.len().checked_add(STEP.max(room.len()).min(most)) else {
        return Err(AllocError);
    };
    match room.resize(wanted, 0) {
        Ok(()) => Ok(()),
        Err(e) => Err(e),
    }
}
