//! The standard streams: as a wire, and as the first numbers that the system gives.
ghost use Rattle.std.specs.Prelude.{◌≡◌, IfOk, false};

use crate::stream::StreamWire;
use std::alloc::Global;
use std::fs::{File, OpenOptions};
use std::io::{self, Stdin, Stdout, Write};
use std::os::fd::{AsFd, AsRawFd, RawFd};
use std::os::unix::net::UnixStream;
use std::time::Duration;

/// Standard output as the connection to a peer.
///
/// Used by `over_stdio`.
#[derive(Drop)]
pub enum StdioOutput {
    /// It is a socket: a write after the peer has gone is an error.
    Socket(UnixStream),
    /// It is a pipe or a terminal: by default the signal SIGPIPE ends the process if nobody reads the pipe.
    Other(Stdout),
}

impl Write for StdioOutput {
    fn write(&mut self, bytes: &[u8]) -> io::Result<usize> {
        match self {
            StdioOutput::Socket(stream) => stream.write(bytes),
            StdioOutput::Other(stream) => stream.write(bytes),
        }
    }

    fn flush(&mut self) -> io::Result<()> {
        Ok(())
    }
}

impl AsRawFd for StdioOutput {
    fn as_raw_fd(&self) -> RawFd {
        match self {
            StdioOutput::Socket(stream) => stream.as_raw_fd(),
            StdioOutput::Other(stream) => stream.as_raw_fd(),
        }
    }
}

/// Standard input and output as a wire.
pub type StdioWire = StreamWire<Stdin, StdioOutput>;

/// Returns another descriptor of a stream, as the one type of std that sets modes. It need not be a socket.
fn handle_of<F: AsFd>(stream: &F) -> io::Result<UnixStream> {
    let descriptor = stream.as_fd();
    let clone = descriptor.try_clone_to_owned()?;
    Ok(UnixStream::from(clone))
}

/// Sets whether calls on a stream wait.
///
/// The mode belongs to the open pipe or socket. So it holds in each process that has it.
fn set_nonblocking<F: AsFd>(stream: &F, nonblocking: bool) -> io::Result<()> {
    let handle = handle_of(stream)?;
    handle.set_nonblocking(nonblocking)
}

/// Returns standard output as the connection to a peer.
fn output_of(stream: Stdout) -> io::Result<StdioOutput> {
    let handle = handle_of(&stream)?;
    // Only a socket has an error of its own.
    match handle.take_error() {
        Ok(_) => Ok(StdioOutput::Socket(handle)),
        Err(_) => Ok(StdioOutput::Other(stream)),
    }
}

/// Creates the wire over standard input and output, which do not block from then on. If there is a timeout, a wait
/// fails if the peer does nothing for that long.
///
/// # Errors
///
/// The error of the system, for example if one of them is a regular file, for which nothing ever has to wait.
pub fn over_stdio(
    rt: &HostRuntime,
    alloc: Global,
    timeout: Option<Duration>,
) -> io::Result<StdioWire>
    ensures { IfOk result (λ wire. wire ≡ record { silent = false; faults = 0 }) }
{
    let input = rt.stdin();
    let output = rt.stdout();
    set_nonblocking(&input, true)?;
    set_nonblocking(&output, true)?;
    let output = output_of(output)?;
    StreamWire::new(rt, alloc, input, output, timeout)
}

/// Lets standard input and output block again, for the processes that have them later. An error is ignored.
pub fn release_stdio(rt: &HostRuntime) {
    let input = rt.stdin();
    let output = rt.stdout();
    let _ = set_nonblocking(&input, false);
    let _ = set_nonblocking(&output, false);
}

/// Keeps the numbers of the standard streams that were closed when the program started.
///
/// Without it the next socket or file gets such a number, and what is written to the stream goes into it. As long as
/// this exists, reads from such a stream and writes to it fail.
///
/// Used by `main` of `crates/sftp_cli`, `crates/sftp_mirror` and `crates/sftp_transfer`.
#[derive(Drop)]
pub struct StandardStreams {
    _input: Option<File>,
    _output: Option<File>,
    _error: Option<File>,
}

/// Returns true if a stream is open.
fn is_open<F: AsFd>(stream: &F) -> bool {
    let descriptor = stream.as_fd();
    descriptor.try_clone_to_owned().is_ok()
}

/// Opens a file that can't be read.
fn open_unreadable(rt: &HostRuntime) -> Option<File> {
    OpenOptions::new().write(true).open(rt, "/dev/null").ok()
}

/// Opens a file that can't be written.
fn open_unwritable(rt: &HostRuntime) -> Option<File> {
    File::open(rt, "/dev/null").ok()
}

impl StandardStreams {
    /// Takes the numbers of the streams that are closed. A program does this before it opens anything.
    pub fn keep(rt: &HostRuntime) -> StandardStreams {
        let (input, output, error) = (rt.stdin(), rt.stdout(), rt.stderr());
        // The system gives the smallest free number, so the order is that of the numbers.
        let _input = if is_open(&input) {
            None
        } else {
            open_unreadable(rt)
        };
        let _output = if is_open(&output) {
            None
        } else {
            open_unwritable(rt)
        };
        let _error = if is_open(&error) {
            None
        } else {
            open_unwritable(rt)
        };
        StandardStreams {
            _input,
            _output,
            _error,
        }
    }
}
