//! Tests of a link over a peer in memory that writes each answer whole before it reads on, and over a pair of sockets.
ghost use Rattle.std.specs.Prelude.{◌≡◌};

use link_duplex::{DuplexLink, Readiness, Wire, over_unix};
use sftp_link::{DeviceError, LinkIn, LinkOut, recv_exact, send_all};
use std::alloc::Global;
use std::os::unix::net::UnixStream;
use std::test::Fail;
use std::time::Duration;

/// The number of bytes that a pipe holds.
const PIPE: usize = 1000;

/// A peer behind two pipes. It answers each byte `r` by `answer` bytes, and other bytes by none. It writes its whole answer
/// before it reads on.
#[derive(Drop)]
struct Peer {
    answer: usize,
    /// The bytes in the pipe to the peer, of which the first `read` were read.
    going: Vec<u8>,
    read: usize,
    /// The number of bytes in the pipe from the peer, and the number that it must still write.
    coming: usize,
    owed: usize,
}

impl Peer {
    /// Returns the number of bytes in the pipe to the peer.
    fn unread(&self) -> usize {
        self.going.len().saturating_sub(self.read)
    }

    /// Writes and reads until one of them would have to wait.
    fn run(&mut self) {
        for _ in 0..u64::MAX {
            let n = self.owed.min(PIPE.saturating_sub(self.coming));
            self.coming = self.coming.saturating_add(n);
            self.owed = self.owed.saturating_sub(n);
            if self.owed > 0 {
                return;
            }
            let Some(byte) = self.going.get(self.read) else {
                self.going.clear();
                self.read = 0;
                return;
            };
            if *byte == b'r' {
                self.owed = self.answer;
            }
            self.read = self.read.saturating_add(1);
        }
    }
}

/// A wire to such a peer. A wait that would never end fails.
#[derive(Drop)]
struct Stubborn {
    peer: Peer,
    faults: u64,
}

impl Stubborn {
    fn new(alloc: Global, answer: usize) -> Stubborn
        ensures { result.faults ≡ 0 }
    {
        let peer = Peer {
            answer,
            going: Vec::new(alloc),
            read: 0,
            coming: 0,
            owed: 0,
        };
        Stubborn { peer, faults: 0 }
    }
}

impl Wire for Stubborn {
    ghost use Rattle.std.specs.Prelude.{None};
    ghost use Rattle.link_duplex.specs.Wires.{WireView};

    ghost state = { λ l. record { log = None; faults = l.faults } };

    fn put(&mut self, bytes: &[u8]) -> Result<Option<usize>, DeviceError> {
        self.peer.run();
        let n = bytes.len().min(PIPE.saturating_sub(self.peer.unread()));
        if n == 0 {
            return Ok(None);
        }
        if self.peer.going.extend_from_slice(&bytes[..n]).is_err() {
            return Err(DeviceError::OutOfMemory);
        }
        Ok(Some(n))
    }

    fn get(&mut self, room: &mut [u8]) -> Result<Option<usize>, DeviceError> {
        self.peer.run();
        let n = room.len().min(self.peer.coming);
        self.peer.coming = self.peer.coming.saturating_sub(n);
        if n == 0 {
            return Ok(None);
        }
        Ok(Some(n))
    }

    fn wait(&mut self, readiness: Readiness) -> Result<(), DeviceError> {
        self.peer.run();
        let writable = self.peer.unread() < PIPE && readiness != Readiness::Readable;
        let readable = self.peer.coming > 0 && readiness != Readiness::Writable;
        if writable || readable {
            return Ok(());
        }
        Err(self.give_up())
    }

    fn give_up(&mut self) -> DeviceError {
        self.faults += 1;
        DeviceError::Failed
    }
}

// The answer and the piece are larger than both pipes: the peer writes while the link sends.
#[test]
fn a_peer_that_writes_during_a_send(rt: HostRuntime) -> Result<(), Fail> {
    let alloc = rt.alloc();
    let mut link = DuplexLink::new(alloc, Stubborn::new(alloc, 300000), 1000000);
    let piece = vec![in alloc; b'w'; 300000]?;
    let mut room = vec![in alloc; 0u8; 300000]?;
    send_all(&mut link, b"r")?;
    send_all(&mut link, &piece)?;
    assert_eq!(rt; recv_exact(&mut link, &mut room), Ok(true));
    Ok(())
}

// The answer is longer than the limit, so the link stops reading while the peer still writes.
#[test]
fn a_peer_that_writes_more_than_the_limit(rt: HostRuntime) -> Result<(), Fail> {
    let alloc = rt.alloc();
    let mut link = DuplexLink::new(alloc, Stubborn::new(alloc, 300000), 100000);
    let piece = vec![in alloc; b'w'; 300000]?;
    send_all(&mut link, b"r")?;
    assert_eq!(rt; send_all(&mut link, &piece), Err(DeviceError::Failed));
    Ok(())
}

// Ten bytes come, four at a time, and then the peer has no more to write.
#[test]
fn a_recv_puts_what_is_held_back(rt: HostRuntime) -> Result<(), Fail> {
    let alloc = rt.alloc();
    let mut link = DuplexLink::new(alloc, Stubborn::new(alloc, 10), 0);
    let mut room = [0; 4];
    let sent = link.send(b"r")?;
    let unread = link.wire().peer.unread();
    let first = link.recv(&mut room)?;
    let second = link.recv(&mut room)?;
    let third = link.recv(&mut room)?;
    assert_eq!(rt; [sent, unread, first, second, third], [1, 0, 4, 4, 2]);
    assert_eq!(rt; link.recv(&mut room), Err(DeviceError::Failed));
    Ok(())
}

#[test]
fn a_flush_puts_what_is_held_back(rt: HostRuntime) -> Result<(), Fail> {
    let alloc = rt.alloc();
    let mut link = DuplexLink::new(alloc, Stubborn::new(alloc, 10), 0);
    link.send(b"ww")?;
    let flushed = link.flush();
    assert!(rt; flushed.is_ok() && link.wire().peer.unread() == 2);
    Ok(())
}

#[test]
fn a_silent_peer_is_waited_for_until_the_timeout(rt: HostRuntime) -> Result<(), Fail> {
    let alloc = rt.alloc();
    let (near, _far) = UnixStream::pair(&rt)?;
    let wire = over_unix(&rt, alloc, near, Some(Duration::from_millis(20)))?;
    let mut link = DuplexLink::new(alloc, wire, 0);
    let mut room = [0; 4];
    assert_eq!(rt; link.recv(&mut room), Err(DeviceError::Failed));
    assert!(rt; link.wire().is_silent());
    Ok(())
}

#[test]
fn a_peer_that_ended(rt: HostRuntime) -> Result<(), Fail> {
    let alloc = rt.alloc();
    let (near, far) = UnixStream::pair(&rt)?;
    let mut link = DuplexLink::new(alloc, over_unix(&rt, alloc, near, None)?, 0);
    drop(far);
    let mut room = [0; 4];
    assert_eq!(rt; link.recv(&mut room), Ok(0));
    Ok(())
}
