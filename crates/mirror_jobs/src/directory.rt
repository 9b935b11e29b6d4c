//! The directories on the server that uploads need.
use sftp_values::ByteText;

/// A directory on the server in which a file is to be written.
///
/// Used in `crates/mirror_jobs/src/lanes.rt`.
#[derive(Debug, Drop, PartialEq, Eq)]
pub struct Directory {
    /// The number of components of its name.
    pub depth: usize,
    /// Its path: its components with a slash between each two, and a leading slash if the file's path has one.
    pub path: ByteText,
}
