//! The connection to the server, as a link of which neither direction waits for the other.
ghost use Rattle.std.specs.Prelude.{◌≡◌, IfOk};

use link_duplex::{DuplexLink, StdioWire, StreamWire, UnixWire, over_stdio, over_unix};
use sftp_client::Sftp;
use sftp_link::Link;
use sftp_model::Fault;
use ssh_channel::SshChannel;
use std::fs::{File, OpenOptions};
use std::io::{self, ErrorKind, Read, Write};
use std::net::{TcpStream, ToSocketAddrs};
use std::os::fd::{AsFd, AsRawFd};
use std::os::unix::net::UnixStream;
use std::time::Duration;

/// A link that reports why it failed.
pub(crate) trait Connection: Link {
    /// Reports what the link knows of its failure and the session does not. `seconds` is the time limit.
    fn report(&self, rt: &HostRuntime, seconds: u32);
}

impl<R: Read + AsRawFd + Drop, W: Write + AsRawFd + Drop> Connection
    for DuplexLink<StreamWire<R, W>> {
    fn report(&self, rt: &HostRuntime, seconds: u32) {
        if self.wire().is_silent() {
            let _ = eprintln!(rt; "sftp_transfer: the server was silent for {seconds} seconds");
        }
    }
}

impl<L: Connection> Connection for SshChannel<L> {
    fn report(&self, rt: &HostRuntime, seconds: u32) {
        self.inner().report(rt, seconds);
        if let Some(why) = self.refusal() {
            let _ = eprintln!(rt; "sftp_transfer: ssh: {why}");
        }
        if let Some(status) = self.exit_status() {
            if status != 0 {
                let _ = eprintln!(rt;
                    "sftp_transfer: the server's sftp program ended with status {status}"
                );
            }
        }
    }
}

/// Returns true if the connection of a session failed or ended.
pub(crate) fn is_lost<L: Link>(sftp: &mut Sftp<L>) -> bool
    ensures { sftp.new ≡ sftp.old }
{
    match sftp.core().fault() {
        Some(Fault::Link | Fault::Ended) => true,
        _ => false,
    }
}

/// The number of bytes up to which a link reads ahead while it sends.
const MAX_AHEAD: usize = 8388608;

/// Connects to a Unix socket. If there is a timeout, the link fails if the server does nothing for that long.
///
/// # Errors
///
/// The error of the system, for example if nothing listens at the path.
pub(crate) fn unix_link(
    rt: &HostRuntime,
    path: &str,
    timeout: Option<Duration>,
) -> io::Result<DuplexLink<UnixWire>>
    ensures { IfOk result (λ link. link.wire.faults ≡ 0) }
{
    let stream = UnixStream::connect(rt, path)?;
    let wire = over_unix(rt, rt.alloc(), stream, timeout)?;
    Ok(DuplexLink::new(rt.alloc(), wire, MAX_AHEAD))
}

/// Connects to the first address of a host that answers in time.
///
/// # Errors
///
/// The error of the last address.
fn connect_within(rt: &HostRuntime, address: &str, timeout: Duration) -> io::Result<TcpStream> {
    let mut last = io::Error::from(ErrorKind::NotFound);
    for found in address.to_socket_addrs(rt)? {
        match TcpStream::connect_timeout(rt, &found, timeout) {
            Ok(stream) => return Ok(stream),
            Err(error) => last = error,
        }
    }
    Err(last)
}

/// Connects to a host and a port over TCP. A small piece is sent at once: it does not wait until the server has
/// acknowledged those before. If there is a timeout, the connection is given up after that long, and the link fails if
/// the server does nothing for that long.
///
/// # Errors
///
/// The error of the system, for example if nothing listens there.
pub(crate) fn tcp_link(
    rt: &HostRuntime,
    address: &str,
    timeout: Option<Duration>,
) -> io::Result<DuplexLink<StreamWire<TcpStream, TcpStream>>>
    ensures { IfOk result (λ link. link.wire.faults ≡ 0) }
{
    let stream = match timeout {
        Some(timeout) => connect_within(rt, address, timeout)?,
        None => TcpStream::connect(rt, address)?,
    };
    stream.set_nodelay(true)?;
    stream.set_nonblocking(true)?;
    let reads = stream.try_clone()?;
    let wire = StreamWire::new(rt, rt.alloc(), reads, stream, timeout)?;
    Ok(DuplexLink::new(rt.alloc(), wire, MAX_AHEAD))
}

/// Returns the link over standard input and output. If there is a timeout, it fails if the server does nothing for that
/// long.
///
/// # Errors
///
/// The error of the system, for example if one of them is a regular file.
pub(crate) fn stdio_link(
    rt: &HostRuntime,
    timeout: Option<Duration>,
) -> io::Result<DuplexLink<StdioWire>>
    ensures { IfOk result (λ link. link.wire.faults ≡ 0) }
{
    let wire = over_stdio(rt, rt.alloc(), timeout)?;
    Ok(DuplexLink::new(rt.alloc(), wire, MAX_AHEAD))
}

/// Opens two files that carry the replies and the requests, such as named pipes. The server may open its ends of two
/// pipes in any order. If there is a timeout, the link fails if the server does nothing for that long.
///
/// # Errors
///
/// The error of the system, for example if one of them is a regular file, for which nothing ever has to wait.
pub(crate) fn files_link(
    rt: &HostRuntime,
    replies: &str,
    requests: &str,
    timeout: Option<Duration>,
) -> io::Result<DuplexLink<StreamWire<File, File>>>
    ensures { IfOk result (λ link. link.wire.faults ≡ 0) }
{
    // As long as a pipe is open for reading and writing here, the server can open it for writing.
    let held = OpenOptions::new().read(true).write(true).open(rt, replies);
    let output = OpenOptions::new().write(true).open(rt, requests)?;
    drop(held);
    let input = File::open(rt, replies)?;
    stop_blocking(&input)?;
    stop_blocking(&output)?;
    let wire = StreamWire::new(rt, rt.alloc(), input, output, timeout)?;
    Ok(DuplexLink::new(rt.alloc(), wire, MAX_AHEAD))
}

/// Lets calls on a file not wait. A Unix socket is the one type of std that sets this mode of any descriptor.
fn stop_blocking(file: &File) -> io::Result<()> {
    let descriptor = file.as_fd();
    let handle = UnixStream::from(descriptor.try_clone_to_owned()?);
    handle.set_nonblocking(true)
}
