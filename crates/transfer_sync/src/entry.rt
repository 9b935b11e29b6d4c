//! An entry that a walk found.
use sftp_model::FileAttrs;
use sftp_values::ByteText;

/// The length, time and permissions of a file.
///
/// Example: `crates/sftp_transfer/src/tree.rt`.
#[derive(Clone, Copy, Debug, PartialEq, Eq)]
pub struct FileFacts {
    /// The length in bytes.
    pub len: u64,
    /// The time of the last change in seconds, or `None` if it is unknown.
    pub modified: Option<u32>,
    /// The permissions, or `None` if they are unknown.
    pub mode: Option<u32>,
}

/// The kind of an entry.
///
/// Example: `crates/sftp_transfer/src/tree.rt`.
#[derive(Debug, Drop)]
pub enum Kind {
    /// A regular file.
    File(FileFacts),
    /// A directory with its permissions, or `None` if they are unknown.
    Directory(Option<u32>),
    /// A symbolic link with its text.
    Link(ByteText),
    /// Anything else, such as a device or a socket.
    Other,
}

/// An entry that a walk found below its root.
///
/// Example: `crates/sftp_transfer/src/tree.rt`.
#[derive(Debug, Drop)]
pub struct Entry {
    /// The path below the root: components with a slash between each two, and no slash at either end.
    pub path: ByteText,
    /// The kind of the entry.
    pub kind: Kind,
    /// True if the filters exclude the entry. The entries of an excluded directory are not listed.
    pub excluded: bool,
    /// The number of components of the path.
    pub depth: u32,
    /// The file attributes that the walk found. No plan depends on them: a copy of the entry is given them.
    pub attrs: FileAttrs,
}
