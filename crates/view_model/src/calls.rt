//! The calls of operations.
ghost use Rattle.std.specs.Prelude.{◌≡◌, IfOk};
ghost use Rattle.view_model.specs.Viewed.{close_file_call, makes_and_writes, open_call, read_call, reads_only, seek_call, write_file_call};

use plan_model::Call;
use sftp_model::{OpenOptions, TryCopy};
use sftp_values::ByteText;
use ssh_encoding::OutOfMemory;
use std::alloc::Global;
use std::io::SeekFrom;

/// The slot of all calls.
const SLOT: u8 = 0;

/// Returns the call that opens a file for reading.
///
/// # Errors
///
/// `OutOfMemory` if an allocation fails.
pub fn open_to_read(alloc: Global, path: &ByteText) -> Result<Call, OutOfMemory>
    ensures { IfOk result (λ call. call ≡ open_call reads_only path.now) }
{
    let mut flags = OpenOptions::new();
    flags.read(true);
    Ok(Call::OpenFile {
        slot: SLOT,
        flags,
        path: path.try_copy(alloc)?,
    })
}

/// Returns the call that opens a file for writing, and creates it if it doesn't exist.
///
/// # Errors
///
/// `OutOfMemory` if an allocation fails.
pub fn open_to_write(alloc: Global, path: &ByteText) -> Result<Call, OutOfMemory>
    ensures { IfOk result (λ call. call ≡ open_call makes_and_writes path.now) }
{
    let mut flags = OpenOptions::new();
    flags.write(true);
    flags.create(true);
    Ok(Call::OpenFile {
        slot: SLOT,
        flags,
        path: path.try_copy(alloc)?,
    })
}

/// Returns the call that seeks to an offset.
pub fn seek_to(offset: u64) -> Call
    ensures { result ≡ seek_call offset }
{
    Call::Seek {
        slot: SLOT,
        position: SeekFrom::Start(offset),
    }
}

/// Returns the call that reads at most `n` bytes.
pub fn read_up_to(n: u32) -> Call
    ensures { result ≡ read_call n }
{
    Call::Read { slot: SLOT, n }
}

/// Returns the call that writes bytes.
///
/// # Errors
///
/// `OutOfMemory` if an allocation fails.
pub fn write_all(alloc: Global, bytes: &ByteText) -> Result<Call, OutOfMemory>
    ensures { IfOk result (λ call. call ≡ write_file_call bytes.now) }
{
    Ok(Call::WriteAll {
        slot: SLOT,
        bytes: bytes.try_copy(alloc)?,
    })
}

/// Returns the call that closes the file.
pub fn close() -> Call
    ensures { result ≡ close_file_call }
{
    Call::Close { slot: SLOT }
}
