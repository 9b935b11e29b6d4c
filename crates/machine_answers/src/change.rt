//! The changes that requests make.
use machine_model::Opened;
use machine_tree::TreeName;
use sftp_model::Handle;
use sftp_values::ByteText;

/// The change that a request makes.
///
/// Used in `crates/machine_answers/src/commit.rt`.
#[derive(Drop)]
pub enum Change {
    Unchanged,
    /// A piece is written to a file, at an offset; zeros fill a gap.
    Written(u64, u64, ByteText),
    /// A file is resized.
    Resized(u64, u64),
    /// The next handle is opened.
    Granted(Opened),
    /// A file is truncated, and the next handle has it open.
    Truncated(u64, Opened),
    /// An empty file is created under a name, and the next handle has it open.
    Created(TreeName, Opened),
    /// A handle is removed.
    ClosedDirectory(Handle),
    /// A handle is removed, by which a file was open.
    ClosedFile(Handle, u64),
    /// A handle's first entries were listed.
    Listed(Handle, usize),
    /// A directory is created.
    MadeDirectory(TreeName),
    /// A name is removed.
    RemovedDirectory(TreeName),
    /// A name that had a file is removed.
    RemovedFile(TreeName, u64),
    /// The file or directory of the old name is moved to the new one.
    Renamed(TreeName, TreeName),
    /// The same, if the new name had a file.
    Replaced(TreeName, TreeName, u64),
}
