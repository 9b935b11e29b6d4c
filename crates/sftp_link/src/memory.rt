//! A source and a sink in memory.
ghost use Rattle.std.specs.Prelude.{◌≡◌, ◌<◌, ◌-◌, ◌^◌, [], length};
ghost use Rattle.sftp_link.specs.Calls.{before_first_call};
ghost use Rattle.sftp_link.specs.Memory.{ReadsNext, WritesNext};
ghost use Rattle.sftp_link.specs.Moves.{HasRead, HasWritten};
ghost use Rattle.sftp_link.specs.Views.{store_view, supply_view};

use crate::calls::Calls;
use crate::device_error::DeviceError;
use crate::stream::{Sink, Source};
use std::alloc::Global;
use std::marker::Model;

/// A source in memory. Its calls with listed numbers fail.
///
/// Example: `crates/test_link/src/link.rt`.
#[derive(Drop)]
pub struct MemorySource {
    bytes: Vec<u8>,
    at: usize,
    calls: Calls,
}

impl Model for MemorySource {
    ghost use Rattle.std.specs.Prelude.{◌≤◌, drop, length};
    ghost use Rattle.sftp_link.specs.Memory.{Supply};

    ghost Value = { Supply };

    ghost view = { λ s. record { left = drop s.at s.bytes.items; calls = s.calls } };

    ghost invariant = { λ s. s.at ≤ length s.bytes.items };
}

impl MemorySource {
    /// Creates a source of these bytes. `fails` lists the numbers, from 0, of the reads that fail.
    pub fn new(bytes: Vec<u8>, fails: Vec<u32>) -> MemorySource
        ensures { result ≡ record { left = bytes.items; calls = before_first_call fails.items } }
    {
        MemorySource {
            bytes,
            at: 0,
            calls: Calls::new(fails),
        }
    }
}

impl Source for MemorySource {
    ghost state = { λ s. supply_view s };

    /// Reads the bytes that are left, up to the size of the room.
    ///
    /// # Errors
    ///
    /// `Failed` exactly if the read's number is listed.
    #[tactic(auto, unfolding(crate::specs::Memory::ReadsNext))]
    fn read(&mut self, room: &mut [u8]) -> Result<usize, DeviceError>
        requires some { 0 < length room.old }
        requires count { self.old.calls.faults < 2 ^ 64 - 1 }
        ensures reads { HasRead room.new (supply_view self.old) (supply_view self.new) result }
        ensures next { ReadsNext self.old self.new room.new result }
    {
        if self.calls.count() {
            return Err(DeviceError::Failed);
        }
        let n = room.len().min(self.bytes.len() - self.at);
        room[..n].copy_from_slice(&self.bytes[self.at..self.at + n]);
        self.at += n;
        Ok(n)
    }
}

/// A sink in memory. Its calls with listed numbers fail.
///
/// Example: `crates/test_link/src/link.rt`.
#[derive(Drop)]
pub struct MemorySink {
    bytes: Vec<u8>,
    calls: Calls,
}

impl Model for MemorySink {
    ghost use Rattle.sftp_link.specs.Memory.{Store};

    ghost Value = { Store };

    ghost view = { λ s. record { written = s.bytes.items; calls = s.calls } };
}

impl MemorySink {
    /// Creates an empty sink. `fails` lists the numbers, from 0, of the writes that fail.
    pub fn new(alloc: Global, fails: Vec<u32>) -> MemorySink
        ensures { result ≡ record { written = []; calls = before_first_call fails.items } }
    {
        MemorySink {
            bytes: Vec::new(alloc),
            calls: Calls::new(fails),
        }
    }

    /// Returns the bytes that were written, in order.
    pub fn bytes(&self) -> &[u8]
        ensures { result.now ≡ self.now.written }
    {
        &self.bytes
    }
}

impl Sink for MemorySink {
    ghost state = { λ s. store_view s };

    /// Takes all the bytes.
    ///
    /// # Errors
    ///
    /// `OutOfMemory` if an allocation fails, and `Failed` exactly if the write's number is listed.
    #[tactic(auto, unfolding(crate::specs::Memory::WritesNext))]
    fn write(&mut self, bytes: &[u8]) -> Result<usize, DeviceError>
        requires { self.old.calls.faults < 2 ^ 64 - 1 }
        ensures writes { HasWritten bytes.now (store_view self.old) (store_view self.new) result }
        ensures next { WritesNext self.old self.new bytes.now result }
    {
        if self.calls.count() {
            return Err(DeviceError::Failed);
        }
        self.bytes.extend_from_slice(bytes)?;
        Ok(bytes.len())
    }
}
