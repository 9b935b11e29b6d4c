//! Bytes that the caller sent and that were not put yet.
ghost use Rattle.std.specs.Prelude.{◌≡◌, ◌<◌, ◌≤◌, ◌+◌, ◌-◌, ◌^◌, ◌++◌, [], length, drop, true, OnOk, OnErr};
ghost use Rattle.link_duplex.specs.Buffers.{PutsAll, PutsAtOnce};

use crate::puts::put_some;
use crate::read_ahead::ReadAhead;
use crate::wire::Wire;
use sftp_link::DeviceError;
use std::alloc::{AllocError, Global};
use std::marker::Model;

/// The most bytes that are held back.
pub(crate) const MAX_BEHIND: usize = 65536;

/// Bytes that were sent and not put yet. A contract sees these bytes.
#[derive(Drop)]
pub(crate) struct WriteBehind {
    bytes: Vec<u8>,
    passed: usize,
}

impl Model for WriteBehind {
    ghost use Rattle.std.specs.Prelude.{List, ℕ, ◌≤◌, drop, length};

    ghost Value = { List ℕ };

    ghost view = { λ b. drop b.passed b.bytes.items };

    ghost invariant = { λ b. b.passed ≤ length b.bytes.items };
}

impl WriteBehind {
    /// Creates it without bytes. Does not allocate.
    pub(crate) fn new(alloc: Global) -> WriteBehind
        ensures { result ≡ [] }
    {
        WriteBehind {
            bytes: Vec::new(alloc),
            passed: 0,
        }
    }

    /// Returns true if this many bytes may be held back in addition.
    pub(crate) fn has_room(&self, more: usize) -> bool
        ensures { result ≡ true → length self.now + more ≤ MAX_BEHIND }
    {
        self.bytes.len() <= MAX_BEHIND && more <= MAX_BEHIND - self.bytes.len()
    }

    /// Appends bytes.
    ///
    /// # Errors
    ///
    /// `AllocError` if an allocation fails; the bytes held back are unchanged.
    pub(crate) fn hold(&mut self, bytes: &[u8]) -> Result<(), AllocError>
        ensures ok { OnOk result (self.new ≡ self.old ++ bytes.now) }
        ensures err { OnErr result (self.new ≡ self.old) }
    {
        self.bytes.extend_from_slice(bytes)
    }

    /// Returns the number of bytes held back.
    pub(crate) fn len(&self) -> usize
        ensures { result ≡ length self.now }
    {
        self.bytes.len() - self.passed
    }

    /// Puts all bytes. Bytes that come meanwhile are read ahead.
    ///
    /// # Errors
    ///
    /// `OutOfMemory` or `Failed`; the bytes that were not put are still held back.
    pub(crate) fn put_all<W: Wire>(
        &mut self,
        limit: usize,
        wire: &mut W,
        ahead: &mut ReadAhead,
    ) -> Result<(), DeviceError>
        requires { (W.state wire.old).faults < 2 ^ 64 - 1 }
        ensures { PutsAll limit self.old self.new ahead.old ahead.new (W.state wire.old) (W.state wire.new) result }
    {
        match put_from(limit, wire, ahead, &self.bytes, &mut self.passed) {
            Ok(()) => {
                self.bytes.clear();
                self.passed = 0;
                Ok(())
            }
            Err(e) => Err(e),
        }
    }

    /// Puts the bytes that can be put at once.
    ///
    /// # Errors
    ///
    /// `OutOfMemory` or `Failed`; the bytes that were not put are still held back.
    pub(crate) fn put_now<W: Wire>(&mut self, wire: &mut W) -> Result<(), DeviceError>
        requires { (W.state wire.old).faults < 2 ^ 64 - 1 }
        ensures { PutsAtOnce self.old self.new (W.state wire.old) (W.state wire.new) result }
    {
        match put_now_from(wire, &self.bytes, &mut self.passed) {
            Ok(()) => {
                self.forget_put();
                Ok(())
            }
            Err(e) => Err(e),
        }
    }

    /// Clears the buffer if all its bytes were put.
    fn forget_put(&mut self)
        ensures { self.new ≡ self.old }
    {
        if self.passed == self.bytes.len() {
            self.bytes.clear();
            self.passed = 0;
        }
    }
}

/// Puts the bytes from an offset on, and moves the offset past them. Bytes that come meanwhile are read ahead.
///
/// # Errors
///
/// `OutOfMemory` or `Failed`; the offset is that of the first byte that was not put.
fn put_from<W: Wire>(
    limit: usize,
    wire: &mut W,
    ahead: &mut ReadAhead,
    bytes: &[u8],
    passed: &mut usize,
) -> Result<(), DeviceError>
    requires within { passed.old ≤ length bytes.now }
    requires count { (W.state wire.old).faults < 2 ^ 64 - 1 }
    ensures puts { PutsAll limit (drop passed.old bytes.now) (drop passed.new bytes.now) ahead.old ahead.new
        (W.state wire.old) (W.state wire.new) result }
    ensures within { passed.new ≤ length bytes.now }
{
    while *passed < bytes.len() {
        match put_some(limit, wire, ahead, &bytes[*passed..]) {
            Ok(n) => *passed += n,
            Err(e) => return Err(e),
        }
    }
    Ok(())
}

/// Puts the bytes from an offset on that can be put at once, and moves the offset past them.
///
/// # Errors
///
/// `OutOfMemory` or `Failed`; the offset is that of the first byte that was not put.
fn put_now_from<W: Wire>(wire: &mut W, bytes: &[u8], passed: &mut usize) -> Result<(), DeviceError>
    requires within { passed.old ≤ length bytes.now }
    requires count { (W.state wire.old).faults < 2 ^ 64 - 1 }
    ensures puts { PutsAtOnce (drop passed.old bytes.now) (drop passed.new bytes.now)
        (W.state wire.old) (W.state wire.new) result }
    ensures within { passed.new ≤ length bytes.now }
{
    while *passed < bytes.len() {
        match wire.put(&bytes[*passed..]) {
            Ok(Some(n)) => *passed += n,
            Ok(None) => return Ok(()),
            Err(e) => return Err(e),
        }
    }
    Ok(())
}
