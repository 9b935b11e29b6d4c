//! The trusted edge: a reader and a writer of std, which report nothing of their contents.
ghost use Rattle.std.specs.Prelude.{◌≡◌, ◌<◌, ◌≤◌, ◌-◌, ◌+◌, ◌^◌, length, take, IfOk, OnErr, IfSome, IfNone};
ghost use Rattle.std.specs.Io.KnownBytes.{ReadConsumes, Appends};
ghost use Rattle.sftp_link.specs.Edge.{AppendsSome};
ghost use Rattle.sftp_link.specs.Moves.{HasRead, HasWritten};
ghost use Rattle.sftp_link.specs.Views.{reader_view, writer_view};

use crate::device_error::DeviceError;
use crate::stream::{Sink, Source};
use std::io::{Read, Write};
use std::marker::Model;

/// A reader, and how often it failed.
///
/// Example: `crates/example_threads/src/socket.rt`.
#[derive(Drop)]
pub struct ReadSource<R> {
    inner: R,
    faults: u64,
}

impl<R> Model for ReadSource<R> {
    ghost use Rattle.sftp_link.specs.Edge.{Counting};

    ghost Value = { Counting R };

    ghost view = { λ s. record { inner = s.inner; faults = s.faults } };
}

impl<R: Read> ReadSource<R> {
    /// Creates the source that reads from a reader.
    pub fn new(inner: R) -> ReadSource<R>
        ensures { result ≡ record { inner = inner; faults = 0 } }
    {
        ReadSource { inner, faults: 0 }
    }
}

impl<R: Read> Source for ReadSource<R> {
    ghost state = { λ s. reader_view s };

    /// Makes one read from the reader.
    ///
    /// # Errors
    ///
    /// `Failed` if the reader returns an error, which is counted as one fault.
    fn read(&mut self, room: &mut [u8]) -> Result<usize, DeviceError>
        requires some { 0 < length room.old }
        requires count { self.old.faults < 2 ^ 64 - 1 }
        ensures reads { HasRead room.new (reader_view self.old) (reader_view self.new) result }
        ensures inner { ReadConsumes (R.remaining self.old.inner) (R.remaining self.new.inner)
            result room.new }
        ensures failed { OnErr result (self.new.faults ≡ self.old.faults + 1) }
    {
        match self.inner.read(room) {
            Ok(n) => Ok(n),
            Err(_) => {
                self.faults += 1;
                Err(DeviceError::Failed)
            }
        }
    }
}

/// A writer, and how often it failed. It is flushed after each write.
///
/// Used by the functions of this module.
#[derive(Drop)]
pub struct WriteSink<W> {
    inner: W,
    faults: u64,
}

impl<W> Model for WriteSink<W> {
    ghost use Rattle.sftp_link.specs.Edge.{Counting};

    ghost Value = { Counting W };

    ghost view = { λ s. record { inner = s.inner; faults = s.faults } };
}

impl<W: Write> WriteSink<W> {
    /// Creates the sink that writes to a writer.
    pub fn new(inner: W) -> WriteSink<W>
        ensures { result ≡ record { inner = inner; faults = 0 } }
    {
        WriteSink { inner, faults: 0 }
    }
}

// Makes one write and a flush, and returns the number of bytes taken. Returns `None` if either failed or no byte of a
// piece that is not empty was taken.
fn write_and_flush<W: Write>(inner: &mut W, bytes: &[u8]) -> Option<usize>
    ensures within { IfSome result (λ n. (0 < length bytes.now → 0 < n) × (n ≤ length bytes.now)) }
    ensures taken { IfSome result
        (λ n. Appends (W.contents inner.old) (W.contents inner.new) (take n bytes.now)) }
    ensures refused { IfNone result
        (AppendsSome (W.contents inner.old) (W.contents inner.new) bytes.now) }
{
    let Ok(n) = inner.write(bytes) else {
        return None;
    };
    if n == 0 && !bytes.is_empty() {
        return None;
    }
    match inner.flush() {
        Ok(()) => Some(n),
        Err(_) => None,
    }
}

impl<W: Write> Sink for WriteSink<W> {
    ghost state = { λ s. writer_view s };

    /// Makes one write to the writer, and a flush.
    ///
    /// # Errors
    ///
    /// `Failed` if either returns an error, or if no byte of a piece that is not empty was taken. The writer may have
    /// taken some of the first bytes.
    fn write(&mut self, bytes: &[u8]) -> Result<usize, DeviceError>
        requires { self.old.faults < 2 ^ 64 - 1 }
        ensures writes { HasWritten bytes.now (writer_view self.old) (writer_view self.new) result }
        ensures taken { IfOk result
            (λ n. Appends (W.contents self.old.inner) (W.contents self.new.inner)
            (take n bytes.now)) }
        ensures refused { OnErr result
            (AppendsSome (W.contents self.old.inner) (W.contents self.new.inner) bytes.now) }
        ensures failed { OnErr result (self.new.faults ≡ self.old.faults + 1) }
    {
        match write_and_flush(&mut self.inner, bytes) {
            Some(n) => Ok(n),
            None => {
                self.faults += 1;
                Err(DeviceError::Failed)
            }
        }
    }
}
