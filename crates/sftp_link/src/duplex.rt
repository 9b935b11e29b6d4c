//! A source and a sink as one link.
ghost use Rattle.std.specs.Prelude.{◌≡◌, ◌<◌, ◌+◌, ◌-◌, ◌^◌, length, false};
ghost use Rattle.sftp_link.specs.Moves.{HasRead, HasReceived, HasSent, HasWritten};
ghost use Rattle.sftp_link.specs.Views.{joined_view};

use crate::device_error::DeviceError;
use crate::link::{Link, LinkIn, LinkOut, LinkState};
use crate::stream::{Sink, Source};
use std::marker::Model;

/// A link that receives from a source and sends to a sink, as a program does over its standard input and output. It
/// keeps no log, and its faults are those of both.
///
/// Example: `crates/sftp_serve/src/main.rt`.
#[derive(Drop)]
pub struct Duplex<S, K> {
    source: S,
    sink: K,
    ended: bool,
}

impl<S, K> Model for Duplex<S, K> {
    ghost use Rattle.sftp_link.specs.Edge.{Joining};

    ghost Value = { Joining S K };

    ghost view = { λ l. record { source = l.source; sink = l.sink; ended = l.ended } };
}

impl<S: Source, K: Sink> Duplex<S, K> {
    /// Creates the link over a source and a sink.
    pub fn new(source: S, sink: K) -> Duplex<S, K>
        ensures { result ≡ record { source = source; sink = sink; ended = false } }
    {
        Duplex {
            source,
            sink,
            ended: false,
        }
    }
}

impl<S: Source, K: Sink> LinkState for Duplex<S, K> {
    ghost use Rattle.sftp_link.specs.Views.{joined_view};

    ghost Service = { Unit {0} };

    ghost state = { λ l. joined_view S.state K.state l };
}

impl<S: Source, K: Sink> LinkOut for Duplex<S, K> {
    /// Makes one write to the sink. The source is unchanged.
    ///
    /// # Errors
    ///
    /// The error of the sink's write.
    fn send(&mut self, bytes: &[u8]) -> Result<usize, DeviceError>
        requires some { 0 < length bytes.now }
        requires count { (S.state self.old.source).faults + (K.state self.old.sink).faults < 2 ^ 64 - 1 }
        ensures sends { HasSent (Unit {0}) bytes.now (joined_view S.state K.state self.old) (joined_view S.state K.state self.new) result }
        ensures writes { HasWritten bytes.now (K.state self.old.sink) (K.state self.new.sink) result }
        ensures source { self.new.source ≡ self.old.source }
    {
        self.ended = false;
        self.sink.write(bytes)
    }
}

impl<S: Source, K: Sink> LinkIn for Duplex<S, K> {
    /// Makes one read from the source. The sink is unchanged.
    ///
    /// # Errors
    ///
    /// The error of the source's read.
    fn recv(&mut self, room: &mut [u8]) -> Result<usize, DeviceError>
        requires some { 0 < length room.old }
        requires count { (S.state self.old.source).faults + (K.state self.old.sink).faults < 2 ^ 64 - 1 }
        ensures receives { HasReceived (Unit {0}) room.new (joined_view S.state K.state self.old) (joined_view S.state K.state self.new) result }
        ensures reads { HasRead room.new (S.state self.old.source) (S.state self.new.source) result }
        ensures sink { self.new.sink ≡ self.old.sink }
    {
        self.ended = false;
        let n = self.source.read(room)?;
        self.ended = n == 0;
        Ok(n)
    }
}

impl<S: Source, K: Sink> Link for Duplex<S, K> {}
