//! The two halves of a server in memory, each with a log of its own.
ghost use Rattle.std.specs.Prelude.{◌≡◌, ◌<◌, ◌≤◌, ◌∷◌, ◌++◌, [], false, length, reverse, vec_capacity, vec_len, IfOk};
ghost use Rattle.sftp_link.specs.Moves.{HasReceived, HasSent};
ghost use Rattle.machine_halves.specs.Halves.{Half, half_view, fresh_half};

use sftp_link::{DeviceError, LinkIn, LinkOut, LinkState, Piece};
use sftp_map_server::MapServer;
use sftp_values::ByteText;
use ssh_encoding::OutOfMemory;
use std::alloc::Global;
use std::marker::Model;
use std::sync::{Arc, Mutex, Wait};

/// The half to which bytes are sent. It has no faults, and reports the pieces that it moved.
///
/// Example: `crates/machine_halves/src/pair.rt`.
#[derive(Drop)]
pub struct MapOut<R> {
    alloc: Global,
    // The runtime with which the half takes the lock of the server.
    rt: R,
    server: Arc<Mutex<MapServer>, Global>,
    log: Vec<Piece>,
}

/// The half from which bytes come. It has no faults, and reports the pieces that it moved.
///
/// Example: `crates/machine_halves/src/pair.rt`.
#[derive(Drop)]
pub struct MapIn<R> {
    alloc: Global,
    rt: R,
    server: Arc<Mutex<MapServer>, Global>,
    log: Vec<Piece>,
    ended: bool,
}

impl<R> Model for MapOut<R> {
    ghost use Rattle.std.specs.Prelude.{false, reverse};
    ghost use Rattle.machine_halves.specs.Halves.{Half};

    ghost Value = { Half };

    ghost view = { λ h. record { log = reverse h.log.items; ended = false } };
}

impl<R> Model for MapIn<R> {
    ghost use Rattle.std.specs.Prelude.{reverse};
    ghost use Rattle.machine_halves.specs.Halves.{Half};

    ghost Value = { Half };

    ghost view = { λ h. record { log = reverse h.log.items; ended = h.ended } };
}

/// A way to split the server in memory in two.
///
/// Example: `crates/machine_halves/src/pair.rt`.
pub struct SharedMap;

impl SharedMap {
    /// Returns the two halves of a server, on which no call was made. The replies to the bytes sent to one half come
    /// from the other.
    ///
    /// # Errors
    ///
    /// `OutOfMemory` if an allocation fails.
    pub fn split<R: Wait + Clone + Drop>(
        rt: &R,
        alloc: Global,
        server: MapServer,
    ) -> Result<(MapOut<R>, MapIn<R>), OutOfMemory>
        ensures { IfOk result (λ r. (r.0 ≡ fresh_half) × (r.1 ≡ fresh_half)) }
    {
        let server = Arc::new(alloc, Mutex::new(server))?;
        let theirs = Arc::try_clone(&server)?;
        let out = MapOut {
            alloc,
            rt: rt.clone()?,
            server,
            log: Vec::new(alloc),
        };
        let input = MapIn {
            alloc,
            rt: rt.clone()?,
            server: theirs,
            log: Vec::new(alloc),
            ended: false,
        };
        Ok((out, input))
    }
}

/// The most bytes that one send takes, and so the most that are copied for a piece of the log.
const PIECE: usize = 16384;

/// Adds a piece to a log that has room for it.
fn add_piece(log: &mut Vec<Piece>, piece: Piece)
    requires { vec_len log.old < vec_capacity log.old }
    ensures { log.new.items ≡ log.old.items ++ piece ∷ [] }
{
    log.push(piece).unwrap();
}

/// Sends the first bytes of a piece, at least one, and returns their number. Fails only if an allocation fails.
fn send_to(server: &mut MapServer, bytes: &[u8]) -> Result<usize, OutOfMemory>
    requires { 0 < length bytes.now }
    ensures { IfOk result (λ n. (0 < n) × (n ≤ length bytes.now)) }
{
    match server.send(bytes) {
        Ok(n) => Ok(n),
        Err(DeviceError::OutOfMemory) => Err(OutOfMemory),
        Err(DeviceError::Failed) => unreachable!(),
    }
}

/// Receives some bytes into the start of the room, and returns their number, 0 if none wait. Fails only if an
/// allocation fails.
fn recv_from(server: &mut MapServer, room: &mut [u8]) -> Result<usize, OutOfMemory>
    requires { 0 < length room.old }
    ensures { IfOk result (λ n. n ≤ length room.new) }
{
    match server.recv(room) {
        Ok(n) => Ok(n),
        Err(DeviceError::OutOfMemory) => Err(OutOfMemory),
        Err(DeviceError::Failed) => unreachable!(),
    }
}

impl<R> LinkState for MapOut<R> {
    ghost use Rattle.machine_halves.specs.Halves.{half_view};

    ghost Service = { Unit {0} };

    ghost state = { λ h. half_view h };
}

impl<R> LinkState for MapIn<R> {
    ghost use Rattle.machine_halves.specs.Halves.{half_view};

    ghost Service = { Unit {0} };

    ghost state = { λ h. half_view h };
}

impl<R: Wait> LinkOut for MapOut<R> {
    /// Sends while it holds the lock of the server.
    ///
    /// # Errors
    ///
    /// `OutOfMemory` if an allocation fails.
    fn send(&mut self, bytes: &[u8]) -> Result<usize, DeviceError>
        requires some { 0 < length bytes.now }
        ensures sends { HasSent (Unit {0}) bytes.now (half_view self.old) (half_view self.new) result }
    {
        let part = &bytes[..bytes.len().min(PIECE)];
        let mut copy = Vec::from_slice(self.alloc, part)?;
        self.log.reserve(1)?;
        let mut server = self.server.lock(&self.rt);
        let sent = send_to(&mut *server, part);
        drop(server);
        let n = match sent {
            Ok(n) => n,
            Err(OutOfMemory) => return Err(DeviceError::OutOfMemory),
        };
        copy.truncate(n);
        copy.shrink_to_fit();
        add_piece(&mut self.log, Piece::Sent(ByteText::new(copy)));
        Ok(n)
    }
}

impl<R: Wait> LinkIn for MapIn<R> {
    /// Receives while it holds the lock of the server. If no reply waits, that is the end.
    ///
    /// # Errors
    ///
    /// `OutOfMemory` if an allocation fails.
    fn recv(&mut self, room: &mut [u8]) -> Result<usize, DeviceError>
        requires some { 0 < length room.old }
        ensures receives { HasReceived (Unit {0}) room.new (half_view self.old) (half_view self.new) result }
    {
        self.ended = false;
        let mut copy = Vec::with_capacity(self.alloc, room.len())?;
        self.log.reserve(1)?;
        let mut server = self.server.lock(&self.rt);
        let got = recv_from(&mut *server, room);
        drop(server);
        let n = match got {
            Ok(n) => n,
            Err(OutOfMemory) => return Err(DeviceError::OutOfMemory),
        };
        copy.extend_from_slice(&room[..n]).unwrap();
        copy.shrink_to_fit();
        add_piece(&mut self.log, Piece::Got(ByteText::new(copy)));
        self.ended = n == 0;
        Ok(n)
    }
}
