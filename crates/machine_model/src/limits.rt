//! The bounds of a server in memory.
//!
//! Each bound is stated again in `specs/Limits.antt`: the proofs fail for a wrong one here.

/// The greatest length of a name's component, in bytes.
pub const MAX_COMPONENT_LEN: usize = 255;

/// The greatest length of one file, in bytes.
pub const MAX_FILE_LEN: u64 = 16_777_216;

/// The greatest length of all files together, in bytes.
pub const MAX_TOTAL_LEN: u64 = 67_108_864;

/// The most entries of one NAME.
pub const MAX_NAME_ENTRIES: u32 = 1000;

/// The permissions of each directory: all may read it, and its owner may change it.
pub const DIRECTORY_PERMISSIONS: u32 = 0o040_755;
