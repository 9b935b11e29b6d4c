//! The entries that a walk finds.
use sftp_meta::MetaData;
use sftp_model::RemotePath;

/// An entry that `Sftp::walk` found.
///
/// Example: `crates/example_client/src/largest.rt`.
#[derive(Debug, Drop)]
pub struct WalkEntry {
    /// The path of its directory, a `/`, and its name.
    pub path: RemotePath,
    /// The metadata that the server reported as it listed the directory.
    pub metadata: MetaData,
}
