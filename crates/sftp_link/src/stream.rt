//! Traits for sources and sinks of bytes.
ghost use Rattle.std.specs.Prelude.{◌<◌, ◌-◌, ◌^◌, length};
ghost use Rattle.sftp_link.specs.Views.{SinkView, SourceView};
ghost use Rattle.sftp_link.specs.Moves.{HasRead, HasWritten};

use crate::device_error::DeviceError;

/// Bytes that come from the environment.
///
/// Example: `crates/test_link/src/edge.rt`.
pub trait Source {
    // The bytes that are left, if it reports them, and how often it failed.
    ghost state: { Self → SourceView };

    /// Reads some bytes into the start of the room and returns their number, 0 only if none is left.
    ///
    /// # Errors
    ///
    /// `OutOfMemory` if an allocation fails, and `Failed` only if the count of faults rose. No bytes were read.
    fn read(&mut self, room: &mut [u8]) -> Result<usize, DeviceError>
        requires some { 0 < length room.old }
        requires count { (Self.state self.old).faults < 2 ^ 64 - 1 }
        ensures { HasRead room.new (Self.state self.old) (Self.state self.new) result };
}

/// A receiver of bytes in the environment.
///
/// Example: `crates/test_link/src/edge.rt`.
pub trait Sink {
    // The bytes that were written, if it reports them, and how often it failed.
    ghost state: { Self → SinkView };

    /// Writes the first bytes of a piece, at least one if the piece is not empty, and returns their number.
    ///
    /// # Errors
    ///
    /// `OutOfMemory` if an allocation fails, and `Failed` only if the count of faults rose. For a sink that reports its
    /// bytes, they are unchanged. A sink that reports none may have passed some of the first bytes on before it failed.
    fn write(&mut self, bytes: &[u8]) -> Result<usize, DeviceError>
        requires { (Self.state self.old).faults < 2 ^ 64 - 1 }
        ensures { HasWritten bytes.now (Self.state self.old) (Self.state self.new) result };
}
