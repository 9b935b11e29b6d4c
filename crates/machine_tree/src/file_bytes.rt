//! The bytes of a file.
ghost use Rattle.std.specs.Prelude.{◌≡◌, List, ℕ, ◌+◌, ◌≤◌, ◌<◌, ◌^◌, [], length, slice_index_or, slice_set, OnOk, OnErr};
ghost use Rattle.machine_model.specs.FileTree.{written_at as put_by, resized_bytes};

use ssh_encoding::OutOfMemory;
use std::alloc::Global;
use std::marker::Model;

/// The bytes of a file, which grow and are truncated in place. A contract sees them as their list.
///
/// Used in `crates/machine_answers/src/commit.rt`.
#[derive(Drop)]
pub struct FileBytes {
    bytes: Vec<u8>,
}

impl Model for FileBytes {
    ghost use Rattle.std.specs.Prelude.{List, ℕ};

    ghost Value = { List ℕ };

    ghost view = { λ b. b.bytes.items };
}

impl FileBytes {
    /// Creates it from the bytes of a vector. Does not allocate.
    pub fn new(bytes: Vec<u8>) -> FileBytes
        ensures { result ≡ bytes.items }
    {
        FileBytes { bytes }
    }

    /// Returns the bytes.
    pub fn as_slice(&self) -> &[u8]
        ensures { result.now ≡ self.now }
    {
        self.bytes.as_slice()
    }

    /// Truncates the bytes to a size, or fills them up with zeros.
    ///
    /// # Errors
    ///
    /// `OutOfMemory` if an allocation fails; the bytes are unchanged.
    pub fn resize(&mut self, size: usize) -> Result<(), OutOfMemory>
        ensures ok { OnOk result (self.new ≡ resized_bytes size self.old) }
        ensures unchanged { OnErr result (self.new ≡ self.old) }
    {
        self.bytes.resize(size, 0)?;
        Ok(())
    }

    /// Writes a piece at an offset; zeros fill a gap.
    ///
    /// # Errors
    ///
    /// `OutOfMemory` if an allocation fails; the bytes are unchanged.
    pub fn put(&mut self, offset: usize, piece: &[u8]) -> Result<(), OutOfMemory>
        requires { offset + length piece.now < 2 ^ 63 }
        ensures ok { OnOk result (self.new ≡ put_by self.old offset piece.now) }
        ensures unchanged { OnErr result (self.new ≡ self.old) }
    {
        let end = offset + piece.len();
        if end <= self.bytes.len() {
            overwrite(&mut self.bytes, offset, piece);
            return Ok(());
        }
        self.bytes.reserve(end - self.bytes.len())?;
        self.bytes.resize(offset, 0).unwrap();
        self.bytes.extend_from_slice(piece).unwrap();
        Ok(())
    }
}

/// Writes a piece over existing bytes.
fn overwrite(bytes: &mut Vec<u8>, offset: usize, piece: &[u8])
    requires { offset + length piece.now ≤ length bytes.old.items }
    ensures { bytes.new.items ≡ put_by bytes.old.items offset piece.now }
{
    bytes[offset..offset + piece.len()].copy_from_slice(piece);
}

/// Writes a piece to the file of a number, at an offset; zeros fill a gap. If there is no such file, nothing changes.
///
/// # Errors
///
/// `OutOfMemory` if an allocation fails; `files` is unchanged.
#[tactic(auto, using(crate::proofs::FileLaws::set_past))]
pub fn put_in(
    files: &mut Vec<FileBytes>,
    file: u64,
    offset: u64,
    piece: &[u8],
) -> Result<(), OutOfMemory>
    requires { offset + length piece.now < 2 ^ 63 }
    ensures left { OnOk result (files.new.items ≡ slice_set files.old.items file
        (put_by (slice_index_or files.old.items file []) offset piece.now)) }
    ensures unchanged { OnErr result (files.new.items ≡ files.old.items) }
{
    if file >= files.len() as u64 {
        return Ok(());
    }
    files[file as usize].put(offset as usize, piece)
}

/// Truncates the file of a number to a size, or fills it up with zeros. If there is no such file, nothing changes.
///
/// # Errors
///
/// `OutOfMemory` if an allocation fails; `files` is unchanged.
#[tactic(auto, using(crate::proofs::FileLaws::set_past))]
pub fn resize_in(files: &mut Vec<FileBytes>, file: u64, size: u64) -> Result<(), OutOfMemory>
    ensures left { OnOk result (files.new.items ≡ slice_set files.old.items file
        (resized_bytes size (slice_index_or files.old.items file []))) }
    ensures unchanged { OnErr result (files.new.items ≡ files.old.items) }
{
    if file >= files.len() as u64 {
        return Ok(());
    }
    files[file as usize].resize(size as usize)
}

/// Truncates the file of a number to no bytes. If there is no such file, nothing changes.
#[tactic(auto, using(crate::proofs::FileLaws::set_past))]
pub fn empty_in(alloc: Global, files: &mut Vec<FileBytes>, file: u64)
    ensures { files.new.items ≡ slice_set files.old.items file [] }
{
    if file < files.len() as u64 {
        files[file as usize] = FileBytes::new(Vec::new(alloc));
    }
}
