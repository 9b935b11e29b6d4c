//! A dial that returns links of which neither direction waits for the other.
ghost use Rattle.std.specs.Prelude.{◌≡◌, ◌<◌, ◌-◌, ◌^◌, ℕ, None};
ghost use Rattle.sftp_link.specs.Dialled.{after_put_back, dialled_once_more};
ghost use Rattle.sftp_link.specs.Moves.{HasDialled, HasPutBack};
ghost use Rattle.sftp_link.specs.Views.{last_of, line_view};
ghost use Rattle.link_duplex.specs.Duplex.{duplex_view};
ghost use Rattle.link_duplex.specs.Streams.{stream_wire_view};

use crate::duplex::DuplexLink;
use crate::stream::{UnixWire, over_unix};
use sftp_link::{DeviceError, Dial, Logged};
use std::alloc::Global;
use std::marker::Model;
use std::net::Net;
use std::os::unix::net::UnixStream;
use std::time::Duration;

/// The number of bytes up to which a dialled link reads ahead.
const MAX_AHEAD: usize = 8388608;

/// A dial that connects to Unix sockets. It keeps the link that is put back, open, until the next one is put back, and
/// counts its dials.
///
/// Used by `main` of `crates/sftp_cli` and `crates/sftp_mirror`.
#[derive(Drop)]
pub struct DuplexDial<R> {
    runtime: R,
    alloc: Global,
    timeout: Option<Duration>,
    last: Option<Logged<DuplexLink<UnixWire>>>,
    // For the contract: the history of the dial.
    dials: u64,
    faults: u64,
}

impl<R> Model for DuplexDial<R> {
    ghost use Rattle.sftp_link.specs.Dialled.{Line};
    ghost use Rattle.link_duplex.specs.Duplex.{DuplexLinkState};
    ghost use Rattle.link_duplex.specs.Streams.{StreamWireState};

    ghost Value = { Line R (DuplexLinkState StreamWireState) };

    ghost view = { λ d. record { from = d.runtime; last = d.last; dials = d.dials; faults = d.faults } };
}

impl<R: Net> DuplexDial<R> {
    /// Creates a dial that connects by this runtime. If there is a timeout, a wait of its links fails if the peer does
    /// nothing for that long.
    pub fn new(runtime: R, alloc: Global, timeout: Option<Duration>) -> DuplexDial<R>
        ensures { result ≡ record { from = runtime; last = None; dials = 0; faults = 0 } }
    {
        DuplexDial {
            runtime,
            alloc,
            timeout,
            last: None,
            dials: 0,
            faults: 0,
        }
    }

    /// Returns true if the link that was put back failed because the peer did nothing until the timeout.
    pub fn is_silent(&self) -> bool {
        match &self.last {
            Some(link) => link.inner().wire().is_silent(),
            None => false,
        }
    }
}

impl<R: Net> Dial for DuplexDial<R> {
    type End = DuplexLink<UnixWire>;

    ghost History = { ℕ };

    ghost dialled = { λ path dials. dialled_once_more path dials };

    ghost state = { λ d. line_view (duplex_view stream_wire_view) d };

    /// Makes one connect to the socket at the path. The link that was put back stays, whether or not it succeeds.
    ///
    /// # Errors
    ///
    /// `Failed` if the connect returns an error, for example if nothing listens at the path, or if the system refuses
    /// to watch the socket.
    fn dial(&mut self, path: &str) -> Result<DuplexLink<UnixWire>, DeviceError>
        requires count { self.old.faults < 2 ^ 64 - 1 }
        ensures dials { HasDialled (duplex_view stream_wire_view) (dialled_once_more path.now)
            (line_view (duplex_view stream_wire_view) self.old) (line_view (duplex_view stream_wire_view) self.new) result }
    {
        self.dials = self.dials.saturating_add(1);
        let Ok(stream) = UnixStream::connect(&self.runtime, path) else {
            self.faults += 1;
            return Err(DeviceError::Failed);
        };
        match over_unix(&self.runtime, self.alloc, stream, self.timeout) {
            Ok(wire) => Ok(DuplexLink::new(self.alloc, wire, MAX_AHEAD)),
            Err(_) => {
                self.faults += 1;
                Err(DeviceError::Failed)
            }
        }
    }

    fn put_back(&mut self, end: Logged<DuplexLink<UnixWire>>)
        ensures back { HasPutBack (last_of (duplex_view stream_wire_view) end)
            (line_view (duplex_view stream_wire_view) self.old) (line_view (duplex_view stream_wire_view) self.new) }
        ensures next { self.new ≡ after_put_back self.old end }
    {
        self.last = Some(end);
    }
}
