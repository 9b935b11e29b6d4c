//! The largest files of a tree.
ghost use Rattle.std.specs.Prelude.{◌≡◌, IfOk, IsTrue};
ghost use Rattle.example_client.specs.Largest.{AreLargest, is_file, size_of};

use sftp_client::{Error, WalkEntry};
use std::cmp::Reverse;

/// The most files that are returned.
const MAX_FILES: usize = 10;

/// Returns the files among the entries of a walk, at most ten, the largest first. Of two files of the same size, the
/// one that was found first comes first.
///
/// # Errors
///
/// `OutOfMemory` if an allocation fails.
pub(crate) fn largest_files(found: Vec<WalkEntry>) -> Result<Vec<WalkEntry>, Error>
    ensures { IfOk result (λ files. AreLargest found.items files.items) }
{
    let mut files = found;
    files.retain(is_file);
    match files.sort_by_key(greater_first) {
        Ok(()) => {}
        Err(_) => return Err(Error::OutOfMemory),
    }
    files.truncate(MAX_FILES);
    Ok(files)
}

/// Returns true if the server reported that the entry is a regular file.
fn is_file(entry: &WalkEntry) -> bool
    ensures { result ≡ is_file entry.now }
{
    match entry.metadata.file_type() {
        Some(kind) => kind.is_file(),
        None => false,
    }
}

/// Returns the size that the server reported, or 0.
pub(crate) fn size_of(entry: &WalkEntry) -> u64
    ensures { result ≡ size_of entry.now }
{
    entry.metadata.len().unwrap_or(0)
}

/// Returns the key by which greater sizes come first.
fn greater_first(entry: &WalkEntry) -> Reverse<u64>
    ensures { result ≡ record { 0 = size_of entry.now } }
{
    Reverse(size_of(entry))
}
