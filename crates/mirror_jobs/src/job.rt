//! The files to copy.
use sftp_values::ByteText;

/// A file to copy.
///
/// Example: `crates/sftp_mirror/src/copy.rt`.
#[derive(Debug, Drop, PartialEq, Eq)]
pub enum Job {
    /// To the server: the file at the path is created or truncated, written, and read back.
    Up { name: ByteText, content: ByteText },
    /// From the server: the file at the path is read, by at most `bound` READs that return bytes.
    Down { name: ByteText, bound: u32 },
}
