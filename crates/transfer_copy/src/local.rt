//! A file of the machine on which the program runs.
ghost use Rattle.std.specs.Prelude.{◌≡◌, ◌≤◌, [], ◌∷◌, length, IfOk};
ghost use Rattle.transfer_copy.specs.Local.{HasDone, LocalAct, Created, Opened, Renamed, Reopened, Synced, SyncedParent, Wrote, got_by, act_of};

use bytes::Bytes;
use std::alloc::Global;
use std::io;

/// The error of a call on a local file.
///
/// Example: `crates/sftp_transfer/src/system.rt`.
#[derive(Drop)]
pub enum LocalError {
    /// Out of memory.
    OutOfMemory,
    /// The error that the system reported.
    Failed(io::Error),
    /// The bytes differ from those of the file that they are compared with.
    Differs,
}

impl From<io::Error> for LocalError {
    fn from(e: io::Error) -> LocalError {
        if e.kind() == io::ErrorKind::OutOfMemory {
            return LocalError::OutOfMemory;
        }
        LocalError::Failed(e)
    }
}

/// A local file to copy from or to.
///
/// Example: `crates/sftp_transfer/src/system.rt`.
pub trait LocalFile {
    // Records the operations that were done.
    ghost History: { Type 0 };

    // The history after another operation. Code that is generic in the file has no other way to build it. So an
    // equation with it says that there was exactly one operation, and which.
    ghost done: { LocalAct → History → History };

    ghost history: { Self → History };

    /// Opens a file for reading from the offset `from` on; 0 is its start.
    ///
    /// # Errors
    ///
    /// The error if the file can't be opened; the history records the failed operation.
    fn open(&mut self, name: &str, from: u64) -> Result<(), LocalError>
        ensures { HasDone Self.done (act_of result (Opened name.now from) ∷ []) (Self.history self.old) (Self.history self.new) };

    /// Creates a file that does not exist, and opens it for writing from its start. A file that is only compared with the
    /// bytes opens the existing one instead.
    ///
    /// # Errors
    ///
    /// The error if the file can't be created. An entry that has the name, also a symbolic link, is such an error, and
    /// stays as it is. The history records the failed operation.
    fn create(&mut self, name: &str) -> Result<(), LocalError>
        ensures { HasDone Self.done (act_of result (Created name.now) ∷ []) (Self.history self.old) (Self.history self.new) };

    /// Opens a file that has exactly `len` bytes, for writing after them.
    ///
    /// # Errors
    ///
    /// The error if the file can't be opened, does not exist or has another size; the history records the failed
    /// operation.
    fn reopen(&mut self, name: &str, len: u64) -> Result<(), LocalError>
        ensures { HasDone Self.done (act_of result (Reopened name.now len) ∷ []) (Self.history self.old) (Self.history self.new) };

    /// Returns the next bytes of the file that was opened, at most `most`; no bytes only at its end.
    ///
    /// # Errors
    ///
    /// The error if nothing can be read; the history records the failed operation.
    fn read(&mut self, alloc: Global, most: u32) -> Result<Bytes, LocalError>
        ensures acts { HasDone Self.done (got_by result ∷ []) (Self.history self.old) (Self.history self.new) }
        ensures few { IfOk result (λ bytes. length bytes ≤ most) };

    /// Writes bytes to the file that was created or reopened last, after those that it has.
    ///
    /// # Errors
    ///
    /// `Differs` if the file is one that is compared and has other bytes there; otherwise the error if the bytes can't
    /// be written. The history records the failed operation.
    fn write(&mut self, bytes: &[u8]) -> Result<(), LocalError>
        ensures { HasDone Self.done (act_of result (Wrote bytes.now) ∷ []) (Self.history self.old) (Self.history self.new) };

    /// Writes the bytes of the file that was created or reopened last through to the disk.
    ///
    /// # Errors
    ///
    /// The error if they can't be written through; the history records the failed operation.
    fn sync(&mut self) -> Result<(), LocalError>
        ensures { HasDone Self.done (act_of result Synced ∷ []) (Self.history self.old) (Self.history self.new) };

    /// Renames a file, and replaces a file that has the new name.
    ///
    /// # Errors
    ///
    /// The error if the file can't be renamed; the history records the failed operation.
    fn rename(&mut self, from: &str, to: &str) -> Result<(), LocalError>
        ensures { HasDone Self.done (act_of result (Renamed from.now to.now) ∷ []) (Self.history self.old) (Self.history self.new) };

    /// Writes the directory of a path through to the disk, with the names in it.
    ///
    /// # Errors
    ///
    /// The error if it can't be written through; the history records the failed operation.
    fn sync_parent(&mut self, name: &str) -> Result<(), LocalError>
        ensures { HasDone Self.done (act_of result (SyncedParent name.now) ∷ []) (Self.history self.old) (Self.history self.new) };
}
