//! The operations on a view.
use sftp_values::ByteText;

/// An operation on a view. Offsets and lengths are in bytes.
///
/// Example: `crates/sftp_view/src/ops.rt`.
#[derive(Debug, Drop, PartialEq, Eq)]
pub enum ViewOp {
    /// Reads at most `len` bytes of the file at a path, from an offset on.
    Get {
        name: ByteText,
        offset: u64,
        len: u32,
    },
    /// Writes bytes to the file at a path, from an offset on; a missing file is created.
    Put {
        name: ByteText,
        offset: u64,
        content: ByteText,
    },
}
