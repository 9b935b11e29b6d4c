//! The trusted edge: a wire over a socket or a pair of pipes that do not block. It reports nothing of its contents.
ghost use Rattle.std.specs.Prelude.{◌≡◌, ◌<◌, ◌-◌, ◌^◌, IfOk, false, length};
ghost use Rattle.link_duplex.specs.Wires.{HasGivenUp, HasGot, HasPut, HasWaited};
ghost use Rattle.link_duplex.specs.Streams.{stream_wire_view};

use crate::wire::{Readiness, Wire};
use mio::unix::SourceFd;
use mio::{Events, Interest, Poll, Token};
use sftp_link::DeviceError;
use std::alloc::Global;
use std::io;
use std::io::{ErrorKind, Read, Write};
use std::marker::Model;
use std::net::Net;
use std::os::fd::AsRawFd;
use std::os::unix::net::UnixStream;
use std::time::Duration;

/// A wire over two descriptors that do not block, one to read from and one to write to.
///
/// The system reports when they are ready (`mio`). That they do not block is up to the caller of `new`.
///
/// Example: `crates/test_link/src/duplex.rt`.
#[derive(Drop)]
pub struct StreamWire<R, W> {
    reads: R,
    writes: W,
    bytes: Poll,
    either: Poll,
    events: Events,
    timeout: Option<Duration>,
    silent: bool,
    faults: u64,
}

impl<R, W> Model for StreamWire<R, W> {
    ghost use Rattle.link_duplex.specs.Streams.{StreamWireState};

    ghost Value = { StreamWireState };

    ghost view = { λ l. record { silent = l.silent; faults = l.faults } };
}

/// A connected Unix socket as a wire. It is closed when it is dropped.
pub type UnixWire = StreamWire<UnixStream, UnixStream>;

/// Creates the wire over a connected Unix socket, which does not block from then on. If there is a timeout, a wait
/// fails if the peer does nothing for that long.
///
/// # Errors
///
/// The error of the system, for example if the process has too many open files.
pub fn over_unix(
    net: &impl Net,
    alloc: Global,
    stream: UnixStream,
    timeout: Option<Duration>,
) -> io::Result<UnixWire>
    ensures { IfOk result (λ wire. wire ≡ record { silent = false; faults = 0 }) }
{
    stream.set_nonblocking(true)?;
    let reads = stream.try_clone()?;
    StreamWire::new(net, alloc, reads, stream, timeout)
}

impl<R: Read + AsRawFd + Drop, W: Write + AsRawFd + Drop> StreamWire<R, W> {
    /// Creates the wire over two descriptors, which the caller has made not to block. If there is a timeout, a wait
    /// fails if the peer does nothing for that long. A signal may shorten it, to half of the time at least.
    ///
    /// # Errors
    ///
    /// The error of the system, for example if the process has too many open files.
    pub fn new(
        net: &impl Net,
        alloc: Global,
        reads: R,
        writes: W,
        timeout: Option<Duration>,
    ) -> io::Result<StreamWire<R, W>>
        ensures { IfOk result (λ wire. wire ≡ record { silent = false; faults = 0 }) }
    {
        let bytes = Poll::new(net)?;
        let either = Poll::new(net)?;
        let events = Events::with_capacity(alloc, 2)?;
        let from = reads.as_raw_fd();
        let to = writes.as_raw_fd();
        bytes
            .registry()
            .register(&mut SourceFd(&from), Token(0), Interest::READABLE)?;
        either
            .registry()
            .register(&mut SourceFd(&from), Token(0), Interest::READABLE)?;
        either
            .registry()
            .register(&mut SourceFd(&to), Token(1), Interest::WRITABLE)?;
        Ok(StreamWire {
            reads,
            writes,
            bytes,
            either,
            events,
            timeout: timeout.map(|time| time / 2),
            silent: false,
            faults: 0,
        })
    }

    /// Returns true if a wait failed because the peer did nothing until the timeout.
    pub fn is_silent(&self) -> bool {
        self.silent
    }

    /// Counts a fault, and returns `Failed`.
    fn fail(&mut self) -> DeviceError
        requires { self.old.faults < 2 ^ 64 - 1 }
        ensures { HasGivenUp (stream_wire_view self.old) (stream_wire_view self.new) result }
    {
        self.faults += 1;
        DeviceError::Failed
    }

    /// Waits once, for half of the timeout, and returns false if nothing was reported.
    ///
    /// # Errors
    ///
    /// The error of the system.
    fn wait_once(&mut self, readiness: Readiness) -> io::Result<bool>
        ensures { self.new ≡ self.old }
    {
        match readiness {
            Readiness::Readable => self.bytes.poll(&mut self.events, self.timeout)?,
            Readiness::Writable | Readiness::Either => self
                .either
                .poll(&mut self.events, self.timeout)?,
        }
        Ok(!self.events.is_empty() || self.timeout.is_none())
    }
}

impl<R: Read + AsRawFd + Drop, W: Write + AsRawFd + Drop> Wire for StreamWire<R, W> {
    ghost state = { λ l. stream_wire_view l };

    /// Makes one write.
    ///
    /// # Errors
    ///
    /// `Failed` if the writer returns an error or takes no bytes. Each is counted as one fault.
    fn put(&mut self, bytes: &[u8]) -> Result<Option<usize>, DeviceError>
        requires some { 0 < length bytes.now }
        requires count { self.old.faults < 2 ^ 64 - 1 }
        ensures { HasPut bytes.now (stream_wire_view self.old) (stream_wire_view self.new) result }
    {
        match self.writes.write(bytes) {
            Ok(n) if n > 0 => Ok(Some(n)),
            Ok(_) => Err(self.fail()),
            Err(e) if would_wait(&e) => Ok(None),
            Err(_) => Err(self.fail()),
        }
    }

    /// Makes one read.
    ///
    /// # Errors
    ///
    /// `Failed` if the reader returns an error, which is counted as one fault.
    fn get(&mut self, room: &mut [u8]) -> Result<Option<usize>, DeviceError>
        requires some { 0 < length room.old }
        requires count { self.old.faults < 2 ^ 64 - 1 }
        ensures { HasGot room.new (stream_wire_view self.old) (stream_wire_view self.new) result }
    {
        match self.reads.read(room) {
            Ok(n) => Ok(Some(n)),
            Err(e) if would_wait(&e) => Ok(None),
            Err(_) => Err(self.fail()),
        }
    }

    /// Waits until the system reports that a descriptor is ready. A signal ends a wait as well, so the peer counts as
    /// silent only if two waits in a row reported nothing.
    ///
    /// # Errors
    ///
    /// `Failed` if the system returns an error, or if the peer did nothing until the timeout. Each is counted as one
    /// fault.
    fn wait(&mut self, readiness: Readiness) -> Result<(), DeviceError>
        requires { self.old.faults < 2 ^ 64 - 1 }
        ensures { HasWaited readiness (stream_wire_view self.old) (stream_wire_view self.new) result }
    {
        match self.wait_once(readiness) {
            Ok(true) => return Ok(()),
            Ok(false) => {}
            Err(_) => return Err(self.fail()),
        }
        match self.wait_once(readiness) {
            Ok(true) => return Ok(()),
            Ok(false) => {}
            Err(_) => return Err(self.fail()),
        }
        self.silent = true;
        Err(self.fail())
    }

    fn give_up(&mut self) -> DeviceError
        requires { self.old.faults < 2 ^ 64 - 1 }
        ensures { HasGivenUp (stream_wire_view self.old) (stream_wire_view self.new) result }
    {
        self.fail()
    }
}

/// Returns true if the call would have had to wait.
fn would_wait(e: &io::Error) -> bool {
    e.kind() == ErrorKind::WouldBlock
}
