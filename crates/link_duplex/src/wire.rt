//! A trait for both directions of a connection whose reads and writes do not wait.
ghost use Rattle.std.specs.Prelude.{◌<◌, ◌-◌, ◌^◌, length};
ghost use Rattle.link_duplex.specs.Wires.{HasGivenUp, HasGot, HasPut, HasWaited, WireView};

use sftp_link::DeviceError;

/// What a wait of a wire waits for.
///
/// Used by `Wire::wait`.
#[derive(Clone, Copy, Debug, PartialEq, Eq)]
pub enum Readiness {
    /// Bytes came, or the end did.
    Readable,
    /// Bytes can be put.
    Writable,
    /// Bytes came or can be put, whichever is first.
    Either,
}

/// Both directions of a connection. `put` and `get` move the bytes that can be moved at once, and only `wait` waits.
///
/// Example: `crates/test_link/src/duplex.rt`.
pub trait Wire {
    // The steps that it reports, and how often it failed.
    ghost state: { Self → WireView };

    /// Puts bytes from the beginning of a piece, at least one, and returns their number. Returns `None` if no byte can
    /// be put now.
    ///
    /// # Errors
    ///
    /// `OutOfMemory` if an allocation fails, and `Failed` only if the count of faults rose. No byte was put.
    fn put(&mut self, bytes: &[u8]) -> Result<Option<usize>, DeviceError>
        requires some { 0 < length bytes.now }
        requires count { (Self.state self.old).faults < 2 ^ 64 - 1 }
        ensures { HasPut bytes.now (Self.state self.old) (Self.state self.new) result };

    /// Gets bytes that came into the start of the room, and returns their number, which is 0 at the end. Returns `None`
    /// if no bytes came.
    ///
    /// # Errors
    ///
    /// `OutOfMemory` if an allocation fails, and `Failed` only if the count of faults rose. No bytes were taken.
    fn get(&mut self, room: &mut [u8]) -> Result<Option<usize>, DeviceError>
        requires some { 0 < length room.old }
        requires count { (Self.state self.old).faults < 2 ^ 64 - 1 }
        ensures { HasGot room.new (Self.state self.old) (Self.state self.new) result };

    /// Waits until the wire has this readiness. It may return earlier.
    ///
    /// # Errors
    ///
    /// `OutOfMemory` if an allocation fails, and `Failed` only if the count of faults rose.
    fn wait(&mut self, readiness: Readiness) -> Result<(), DeviceError>
        requires { (Self.state self.old).faults < 2 ^ 64 - 1 }
        ensures { HasWaited readiness (Self.state self.old) (Self.state self.new) result };

    /// Counts a fault of a caller that gives up, and returns `Failed`.
    fn give_up(&mut self) -> DeviceError
        requires { (Self.state self.old).faults < 2 ^ 64 - 1 }
        ensures { HasGivenUp (Self.state self.old) (Self.state self.new) result };
}
