//! The files and directories that are open.
use sftp_model::NameEntry;
use sftp_values::Items;

/// A file that is open.
///
/// Used in `crates/machine_answers/src/store.rt`.
#[derive(Clone, Copy, Debug, PartialEq, Eq)]
pub struct Held {
    /// The file's number.
    pub file: u64,
    /// True if it was opened to read.
    pub readable: bool,
    /// True if it was opened to write.
    pub writable: bool,
    /// True if each write goes to the end of the file.
    pub append: bool,
}

/// The file or directory that a handle has open.
///
/// Used by the functions of this module.
#[derive(Debug, Drop)]
pub enum Opened {
    /// A file.
    File(Held),
    /// A directory, by the entries that are still to be listed, in order.
    Directory(Items<NameEntry>),
}
