//! The link of which neither direction waits for the other.
ghost use Rattle.std.specs.Prelude.{◌≡◌, ◌<◌, ◌≤◌, ◌-◌, ◌^◌, [], length, false, max, OnOk};
ghost use Rattle.sftp_link.specs.Moves.{HasReceived, HasSent};
ghost use Rattle.link_duplex.specs.Duplex.{FlushDid, GivesAheadFirst, ReadsNow, RecvDid, SendDid, TakesTurn, IsNeededReadiness, duplex_view};

use crate::puts::put_some;
use crate::read_ahead::{GetOutcome, ReadAhead, STEP};
use crate::wire::{Readiness, Wire};
use crate::write_behind::{MAX_BEHIND, WriteBehind};
use sftp_link::{DeviceError, Link, LinkIn, LinkOut, LinkState};
use std::alloc::Global;
use std::marker::Model;

/// A link over a wire of which neither direction waits for the other.
///
/// A send holds its bytes back if there is room for them, and otherwise puts them. While no byte can be put, it reads
/// ahead the bytes that come. A recv returns bytes that were read ahead. If there are none, it puts the bytes held
/// back, and waits until the wire can be read or written. So while fewer bytes than the limit are ahead, a peer may
/// write a reply of any length before it reads on.
///
/// The bytes held back may stay until a recv has no bytes to return: to send them without a recv, call `flush`. Bytes
/// that are still held back when the link is dropped are not sent.
///
/// It reports no pieces. Its faults are those of the wire, including those of sends that were held back.
///
/// Example: `crates/test_link/src/duplex.rt`.
#[derive(Drop)]
pub struct DuplexLink<W> {
    wire: W,
    ahead: ReadAhead,
    behind: WriteBehind,
    limit: usize,
    ended: bool,
}

impl<W> Model for DuplexLink<W> {
    ghost use Rattle.link_duplex.specs.Duplex.{DuplexLinkState};

    ghost Value = { DuplexLinkState W };

    ghost view = { λ l. record {
      wire = l.wire;
      ahead = l.ahead;
      behind = l.behind;
      limit = l.limit;
      ended = l.ended;
    } };

    ghost use Rattle.std.specs.Prelude.{◌<◌};

    ghost invariant = { λ l. 0 < l.limit };
}

impl<W: Wire> DuplexLink<W> {
    /// Creates the link over a wire. Sends read ahead until `limit` bytes are ahead; a limit below 65536 counts as
    /// 65536. Nothing is read ahead and nothing is held back. Does not allocate.
    pub fn new(alloc: Global, wire: W, limit: usize) -> DuplexLink<W>
        ensures { result ≡ record { wire = wire; ahead = []; behind = []; limit = max STEP limit; ended = false } }
    {
        DuplexLink {
            wire,
            ahead: ReadAhead::new(alloc),
            behind: WriteBehind::new(alloc),
            limit: STEP.max(limit),
            ended: false,
        }
    }

    /// Returns the wire.
    pub fn wire(&self) -> &W
        ensures { result.now ≡ self.now.wire }
    {
        &self.wire
    }

    /// Puts all bytes held back. Bytes that come meanwhile are read ahead.
    ///
    /// # Errors
    ///
    /// `OutOfMemory` or `Failed` if they could not all be put; the rest is still held back.
    pub fn flush(&mut self) -> Result<(), DeviceError>
        requires { (W.state self.old.wire).faults < 2 ^ 64 - 1 }
        ensures { FlushDid W.state self.old self.new result }
    {
        self.ended = false;
        self.behind
            .put_all(self.limit, &mut self.wire, &mut self.ahead)
    }

    /// Returns bytes that came if none are ahead. A large room is passed to the wire itself. Returns `None` if no bytes
    /// came.
    ///
    /// # Errors
    ///
    /// `OutOfMemory` or `Failed`; no bytes came.
    fn read_now(&mut self, room: &mut [u8]) -> Result<Option<usize>, DeviceError>
        requires none { self.old.ahead ≡ [] }
        requires some { 0 < length room.old }
        requires count { (W.state self.old.wire).faults < 2 ^ 64 - 1 }
        ensures { ReadsNow W.state room.new self.old self.new result }
    {
        if room.len() >= STEP {
            return self.wire.get(room);
        }
        match self.ahead.take(self.limit, &mut self.wire) {
            Ok(GetOutcome::Came) => Ok(Some(self.ahead.give(room))),
            Ok(GetOutcome::End) => Ok(Some(0)),
            Ok(GetOutcome::Nothing) => Ok(None),
            Ok(GetOutcome::Full) => unreachable!(),
            Err(e) => Err(e),
        }
    }

    /// Puts the bytes held back that can be put at once, and returns bytes that came. If none came, waits until the
    /// wire can be read or written, and returns `None`.
    ///
    /// # Errors
    ///
    /// `OutOfMemory` or `Failed`; no bytes came.
    fn turn(&mut self, room: &mut [u8]) -> Result<Option<usize>, DeviceError>
        requires none { self.old.ahead ≡ [] }
        requires some { 0 < length room.old }
        requires count { (W.state self.old.wire).faults < 2 ^ 64 - 1 }
        ensures { TakesTurn W.state room.new self.old self.new result }
    {
        match self.behind.put_now(&mut self.wire) {
            Ok(()) => {}
            Err(e) => return Err(e),
        }
        match self.read_now(room) {
            Ok(Some(n)) => return Ok(Some(n)),
            Ok(None) => {}
            Err(e) => return Err(e),
        }
        let readiness = self.needed_readiness();
        match self.wire.wait(readiness) {
            Ok(()) => {}
            Err(e) => return Err(e),
        }
        Ok(None)
    }

    /// Returns the readiness that a recv waits for: `Readable` only if no bytes are held back.
    fn needed_readiness(&self) -> Readiness
        ensures { IsNeededReadiness result self.now.behind }
    {
        if self.behind.len() == 0 {
            Readiness::Readable
        } else {
            Readiness::Either
        }
    }
}

impl<W: Wire> LinkState for DuplexLink<W> {
    ghost Service = { Unit {0} };

    ghost state = { λ l. duplex_view W.state l };
}

impl<W: Wire> LinkOut for DuplexLink<W> {
    /// Holds the bytes back if there is room for them. Otherwise puts the bytes held back before, and then some of
    /// these. Bytes that come meanwhile are read ahead. At most 65536 bytes are held back afterwards.
    ///
    /// # Errors
    ///
    /// `OutOfMemory` or `Failed`; none of these bytes was taken.
    fn send(&mut self, bytes: &[u8]) -> Result<usize, DeviceError>
        requires some { 0 < length bytes.now }
        requires count { (W.state self.old.wire).faults < 2 ^ 64 - 1 }
        ensures sends { HasSent (Unit {0}) bytes.now (duplex_view W.state self.old)
            (duplex_view W.state self.new) result }
        ensures did { SendDid W.state bytes.now self.old self.new result }
        ensures held { OnOk result (length self.new.behind ≤ MAX_BEHIND) }
    {
        self.ended = false;
        if self.behind.has_room(bytes.len()) {
            match self.behind.hold(bytes) {
                Ok(()) => return Ok(bytes.len()),
                Err(_) => return Err(DeviceError::OutOfMemory),
            }
        }
        match self
            .behind
            .put_all(self.limit, &mut self.wire, &mut self.ahead)
        {
            Ok(()) => put_some(self.limit, &mut self.wire, &mut self.ahead, bytes),
            Err(e) => Err(e),
        }
    }
}

impl<W: Wire> LinkIn for DuplexLink<W> {
    /// Returns bytes that were read ahead. If there are none, puts the bytes held back and gets bytes from the wire,
    /// whichever is possible first.
    ///
    /// # Errors
    ///
    /// `OutOfMemory` or `Failed`; no bytes came, and those held back that were not put still are.
    fn recv(&mut self, room: &mut [u8]) -> Result<usize, DeviceError>
        requires some { 0 < length room.old }
        requires count { (W.state self.old.wire).faults < 2 ^ 64 - 1 }
        ensures receives { HasReceived (Unit {0}) room.new (duplex_view W.state self.old)
            (duplex_view W.state self.new) result }
        ensures did { RecvDid W.state room.new self.old self.new result }
        ensures first { GivesAheadFirst self.old self.new }
    {
        self.ended = false;
        if self.ahead.len() > 0 {
            return Ok(self.ahead.give(room));
        }
        for _ in 0..u64::MAX {
            match self.turn(room) {
                Ok(Some(n)) => {
                    self.ended = n == 0;
                    return Ok(n);
                }
                Ok(None) => {}
                Err(e) => return Err(e),
            }
        }
        Err(self.wire.give_up())
    }
}

impl<W: Wire> Link for DuplexLink<W> {}
