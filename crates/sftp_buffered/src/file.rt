//! Files with their buffer and the requests under way; seeks, and the file below the buffer.
ghost use Rattle.std.specs.Prelude.{◌≡◌, ◌≤◌, [], None, true, ◌<◌};
ghost use Rattle.sftp_core.specs.Core.{Core as CoreValue, record_at, core_after_retain, users_of, IsGrant};
ghost use Rattle.sftp_buffered.specs.Buffered.{IsSound, new_value, AreHeld, IsHeld};
ghost use Rattle.sftp_buffered.specs.Seeks.{SeeksTo, stood};
ghost use Rattle.sftp_buffered.specs.Steps.{read_dropped};
ghost use Rattle.std.specs.Borrow.{sem};
ghost use Rattle.sftp_buffered.specs.Lending.{LendsFile};
ghost use Rattle.sftp_buffered.specs.Whole.{AbandonsRequests, EmptiesBuffer, all_dropped};

use crate::reads::abandon_read;
use bytes::BytesMut;
use sftp_core::{Core, Ended, Ticket};
use sftp_file::{Error, File, sought};
use std::alloc::Global;
use std::collections::VecDeque;
use std::io::SeekFrom;
use std::marker::Model;

/// The number of bytes that a read into the buffer asks for by default.
pub const DEFAULT_BUFLEN: usize = 4096;

/// A WRITE whose status wasn't taken.
///
/// Used in `crates/sftp_buffered/src/writes.rt`.
#[must_use]
pub struct DeferredWrite {
    /// Its place among the requests of the file.
    pub place: u64,
    /// The number of bytes that it carries.
    pub len: u32,
    /// Its ticket.
    pub ticket: Ticket,
}

/// The READ under way.
///
/// Used in `crates/sftp_buffered/src/reads.rt`.
#[must_use]
pub struct ReadUnderWay {
    /// Its place among the requests of the file.
    pub place: u64,
    /// The most bytes that may come.
    pub len: u32,
    /// Its ticket.
    pub ticket: Ticket,
}

/// A file with a buffer for reads, and with writes whose statuses are taken later. It isn't droppable: `into_inner`
/// consumes it, and `let_go` does after its core was given up.
///
/// Example: `crates/test_client/src/buffered.rt`.
#[must_use]
pub struct TokioCompatFile {
    pub(crate) file: File,
    pub(crate) buffer_len: usize,
    pub(crate) capacity: usize,
    pub(crate) buffered: BytesMut,
    pub(crate) deferred: VecDeque<DeferredWrite>,
    pub(crate) pending: u64,
    pub(crate) reading: Option<ReadUnderWay>,
    pub(crate) place: u64,
}

impl Model for TokioCompatFile {
    ghost use Rattle.sftp_buffered.specs.Buffered.{CompatValue};

    ghost Value = { CompatValue };

    ghost view = { λ c. record {
      file = c.file;
      buffer_len = c.buffer_len;
      capacity = c.capacity;
      buffered = c.buffered.items;
      deferred = c.deferred.items;
      pending = c.pending;
      reading = c.reading;
      place = c.place;
    } };
}

impl TokioCompatFile {
    /// Returns the file with an empty buffer, whose reads ask for at least `DEFAULT_BUFLEN` bytes. No memory is
    /// allocated.
    pub fn new(alloc: Global, inner: File) -> TokioCompatFile
        ensures value { result ≡ new_value inner 4096 }
        ensures sound { (core : CoreValue) → IsSound core result }
    {
        TokioCompatFile::with_capacity(alloc, inner, DEFAULT_BUFLEN)
    }

    /// Returns the file with an empty buffer, whose reads ask for at least `buffer_len` bytes. No memory is allocated.
    pub fn with_capacity(alloc: Global, inner: File, buffer_len: usize) -> TokioCompatFile
        requires { 1 ≤ buffer_len }
        ensures value { result ≡ new_value inner buffer_len }
        ensures sound { (core : CoreValue) → IsSound core result }
    {
        TokioCompatFile {
            file: inner,
            buffer_len,
            capacity: 0,
            buffered: BytesMut::new(alloc),
            deferred: VecDeque::new(alloc),
            pending: 0,
            reading: None,
            place: 1,
        }
    }

    /// Returns the capacity of the buffer in bytes, which is at least the number of buffered bytes.
    pub fn capacity(&self) -> usize
        ensures { result ≡ self.now.capacity }
    {
        self.capacity
    }

    /// Returns the file below the buffer.
    pub fn file(&self) -> &File
        ensures { result.now ≡ self.now.file }
    {
        &self.file
    }

    /// Returns the offset of the next read or write, in bytes. No seek is ever under way.
    pub fn poll_complete(&self) -> u64
        ensures { result ≡ self.now.file.offset }
    {
        self.file.offset()
    }

    /// Returns true, as `poll_write_vectored` takes the bytes of more than one piece.
    pub fn is_write_vectored(&self) -> bool
        ensures { result ≡ true }
    {
        true
    }

    /// Moves the offset; no request is needed. If the offset changes, the READ under way is given up. A move forward
    /// inside the buffer keeps the bytes from there on, and any other move none.
    ///
    /// # Errors
    ///
    /// `IOError`; core and file are unchanged then. `SeekFromEnd` comes for each position from the end, `SeekOverflow`
    /// if the offset would be over 18446744073709551615, and `SeekUnderflow` if it would be below 0.
    pub fn start_seek(&mut self, core: &mut Core, position: SeekFrom) -> Result<(), Error>
        requires { IsSound core.old self.old }
        ensures { SeeksTo position core.old core.new self.old self.new result }
    {
        let from = self.file.offset();
        match sought(from, position) {
            Ok(to) => {
                if to == from {
                    return Ok(());
                }
                self.stand(core, from, to);
                Ok(())
            }
            Err(why) => Err(Error::IOError(why)),
        }
    }

    /// Sets the offset to another.
    fn stand(&mut self, core: &mut Core, from: u64, to: u64)
        requires sound { IsSound core.old self.old }
        requires here { self.old.file.offset ≡ from }
        ensures left { self.new ≡ stood self.old to }
        ensures core { core.new ≡ read_dropped core.old self.old.reading }
    {
        self.file.stand(to);
        if from < to {
            self.skip(to - from);
        } else {
            self.buffered.clear();
        }
        self.drop_read(core);
    }

    /// Returns the file below. The buffer is dropped, and the deferred writes and the READ are given up: they stay
    /// under way, and their replies are dropped.
    pub fn into_inner(self, core: &mut Core) -> File
        requires { IsSound core.old self }
        ensures file { result ≡ self.file }
        ensures abandons { AbandonsRequests core.old core.new self }
    {
        let TokioCompatFile {
            file,
            buffer_len: _,
            capacity: _,
            buffered: _,
            deferred,
            pending: _,
            reading,
            place: _,
        } = self;
        abandon_read(core, reading);
        abandon_all(core, deferred);
        file
    }

    /// Returns the file below, to be moved or asked. The buffer is emptied before, and the READ under way is given up;
    /// the deferred writes stay.
    pub fn as_mut_file(&mut self, core: &mut Core) -> &mut File
        requires { IsSound core.old self.old }
        ensures* writes_back { sem 𝓛 (LendsFile self.entry result) }
        ensures value { result.now ≡ self.old.file }
        ensures empties { EmptiesBuffer core.old core.new self.old }
    {
        self.buffered.clear();
        self.drop_read(core);
        &mut self.file
    }

    /// Returns the same file for another user, at the same offset and with the same buffer length; nothing of it is
    /// buffered or under way.
    pub fn clone_compat(&self, core: &mut Core) -> TokioCompatFile
        requires counted { IsGrant core.old self.now.file.grant }
        requires few { users_of (record_at core.old self.now.file.grant.id) < 4294967295 }
        ensures file { result ≡ new_value self.now.file self.now.buffer_len }
        ensures core { core.new ≡ core_after_retain core.old self.now.file.grant }
        ensures granted { IsGrant core.new self.now.file.grant }
        ensures sound { (other : CoreValue) → IsSound other result }
    {
        TokioCompatFile {
            file: self.file.clone_file(core),
            buffer_len: self.buffer_len,
            capacity: 0,
            buffered: BytesMut::new(core.alloc()),
            deferred: VecDeque::new(core.alloc()),
            pending: 0,
            reading: None,
            place: 1,
        }
    }

    /// Releases the file after its core was given up. No CLOSE is sent.
    pub fn let_go(self, core: Ended) {
        let TokioCompatFile {
            file,
            buffer_len: _,
            capacity: _,
            buffered: _,
            mut deferred,
            pending: _,
            reading,
            place: _,
        } = self;
        if let Some(
            ReadUnderWay {
                place: _,
                len: _,
                ticket,
            },
        ) = reading
        {
            ticket.let_go(core);
        }
        while let Some(
            DeferredWrite {
                place: _,
                len: _,
                ticket,
            },
        ) = deferred.pop_front()
        {
            ticket.let_go(core);
        }
        deferred.destroy_empty();
        file.let_go(core);
    }
}

/// Gives up all these writes, the oldest first.
fn abandon_all(core: &mut Core, mut deferred: VecDeque<DeferredWrite>)
    requires { AreHeld core.old deferred.items }
    ensures { core.new ≡ all_dropped core.old deferred.items }
{
    while let Some(
        DeferredWrite {
            place: _,
            len: _,
            ticket,
        },
    ) = deferred.pop_front()
    {
        core.abandon(ticket);
    }
    deferred.destroy_empty();
}
