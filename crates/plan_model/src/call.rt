//! The calls of lanes.
ghost use Rattle.std.specs.Prelude.{◌≡◌, ◌+◌, ◌^◌, length, min};
ghost use Rattle.plan_model.specs.Lanes.{fits_u64, is_short, is_within, weight};

use sftp_model::{OpenOptions, TryCopy};
use sftp_values::{ByteText, Items};
use ssh_encoding::OutOfMemory;
use std::alloc::Global;
use std::io::SeekFrom;

/// One call of a lane. A slot is a number from 0 to 15. Offsets and lengths are in bytes. A path that does not begin
/// with `/` is joined to the lane's working directory.
///
/// Example: `crates/example_threads/src/receipts.rt`.
#[derive(Debug, Drop, PartialEq, Eq)]
pub enum Call {
    /// Opens the file at a path, and puts it into a slot.
    OpenFile {
        slot: u8,
        flags: OpenOptions,
        path: ByteText,
    },
    /// Reads at most `n` bytes of the file in a slot, at its offset.
    Read {
        slot: u8,
        n: u32,
    },
    /// Reads exactly `n` bytes of the file in a slot, starting at its offset.
    ReadAll {
        slot: u8,
        n: u32,
    },
    /// Writes bytes to the file in a slot, at its offset: at most as many as one request may carry.
    Write {
        slot: u8,
        bytes: ByteText,
    },
    /// Writes all of the bytes to the file in a slot, starting at its offset.
    WriteAll {
        slot: u8,
        bytes: ByteText,
    },
    /// Writes the bytes of all parts, one part after another, to the file in a slot, starting at its offset.
    WriteParts {
        slot: u8,
        parts: Items<ByteText>,
    },
    /// Sets the offset of the file in a slot.
    Seek {
        slot: u8,
        position: SeekFrom,
    },
    /// Sets the size of the file in a slot.
    SetLen {
        slot: u8,
        n: u64,
    },
    /// Sets the mode of the file in a slot. Only the twelve low bits count.
    SetPerm {
        slot: u8,
        perm: u16,
    },
    /// Asks for the attributes of the file in a slot.
    Meta {
        slot: u8,
    },
    /// Requests that the server writes the file in a slot to its disk.
    Sync {
        slot: u8,
    },
    /// Requests that the server copies `n` bytes from the file in one slot to that in another, or all bytes up to its
    /// end if `n` is 0.
    Copy {
        from: u8,
        to: u8,
        n: u64,
    },
    /// Puts the file in one slot into another as well.
    CloneFile {
        from: u8,
        to: u8,
    },
    /// Clears a slot, and closes its file if no other slot has it.
    Close {
        slot: u8,
    },
    /// Makes the file in a slot a buffered one, which reads at least `len` bytes at once.
    Buffer {
        slot: u8,
        len: u32,
    },
    /// Makes the buffered file in a slot a plain one: the buffered bytes are dropped, and no status is awaited.
    Unbuffer {
        slot: u8,
    },
    /// Reads at most `n` bytes of the buffered file in a slot: those that are buffered, or otherwise those of a READ.
    BufRead {
        slot: u8,
        n: u64,
    },
    /// Writes bytes to the buffered file in a slot, at most as many as one request may carry, and does not await its
    /// status.
    BufWrite {
        slot: u8,
        bytes: ByteText,
    },
    /// Writes all of the bytes to the buffered file in a slot, and awaits a status only if too many bytes are in
    /// flight.
    BufWriteAll {
        slot: u8,
        bytes: ByteText,
    },
    /// Awaits the statuses of the writes to the buffered file in a slot, up to the first refusal.
    BufFlush {
        slot: u8,
    },
    /// Sets the offset of the buffered file in a slot.
    BufSeek {
        slot: u8,
        position: SeekFrom,
    },
    /// Reads the file at a path, all of it, by at most `bound` READs that bring bytes.
    FsRead {
        path: ByteText,
        bound: u32,
    },
    /// Creates or truncates the file at a path, and writes all of the bytes to it.
    FsWrite {
        path: ByteText,
        bytes: ByteText,
    },
    /// Lists the directory at a path, by at most `bound` requests.
    List {
        path: ByteText,
        bound: u32,
    },
    /// Asks for the attributes of a path; for a link, those of its target.
    Stat {
        path: ByteText,
    },
    /// Asks for the attributes of a path; for a link, those of the link itself.
    Lstat {
        path: ByteText,
    },
    /// Sets the size and the mode of a path, if they are given.
    SetStat {
        path: ByteText,
        size: Option<u64>,
        perm: Option<u16>,
    },
    /// Removes the file at a path.
    Remove {
        path: ByteText,
    },
    /// Creates a directory.
    Mkdir {
        path: ByteText,
    },
    /// Removes a directory.
    Rmdir {
        path: ByteText,
    },
    /// Renames a file or directory. An existing file with the new name is replaced if the server offers `posix-rename`.
    Rename {
        old: ByteText,
        to: ByteText,
    },
    /// Gives a file a second name.
    HardLink {
        old: ByteText,
        to: ByteText,
    },
    /// Creates a symbolic link at `dst` whose target is `src`.
    Symlink {
        src: ByteText,
        dst: ByteText,
    },
    /// Asks for the target of a symbolic link.
    ReadLink {
        path: ByteText,
    },
    /// Asks for the absolute form of a path.
    Canonicalize {
        path: ByteText,
    },
    /// Sets the lane's working directory, to the path as it is.
    Cwd {
        path: ByteText,
    },
}

impl TryCopy for Call {
    fn try_copy(&self, alloc: Global) -> Result<Call, OutOfMemory> {
        match self {
            Call::OpenFile { slot, flags, path } => Ok(Call::OpenFile {
                slot: *slot,
                flags: *flags,
                path: path.try_copy(alloc)?,
            }),
            Call::Read { slot, n } => Ok(Call::Read { slot: *slot, n: *n }),
            Call::ReadAll { slot, n } => Ok(Call::ReadAll { slot: *slot, n: *n }),
            Call::Write { slot, bytes } => Ok(Call::Write {
                slot: *slot,
                bytes: bytes.try_copy(alloc)?,
            }),
            Call::WriteAll { slot, bytes } => Ok(Call::WriteAll {
                slot: *slot,
                bytes: bytes.try_copy(alloc)?,
            }),
            Call::WriteParts { slot, parts } => Ok(Call::WriteParts {
                slot: *slot,
                parts: parts.try_copy(alloc)?,
            }),
            Call::Seek { slot, position } => Ok(Call::Seek {
                slot: *slot,
                position: *position,
            }),
            Call::SetLen { slot, n } => Ok(Call::SetLen { slot: *slot, n: *n }),
            Call::SetPerm { slot, perm } => Ok(Call::SetPerm {
                slot: *slot,
                perm: *perm,
            }),
            Call::Meta { slot } => Ok(Call::Meta { slot: *slot }),
            Call::Sync { slot } => Ok(Call::Sync { slot: *slot }),
            Call::Copy { from, to, n } => Ok(Call::Copy {
                from: *from,
                to: *to,
                n: *n,
            }),
            Call::CloneFile { from, to } => Ok(Call::CloneFile {
                from: *from,
                to: *to,
            }),
            Call::Close { slot } => Ok(Call::Close { slot: *slot }),
            Call::Buffer { slot, len } => Ok(Call::Buffer {
                slot: *slot,
                len: *len,
            }),
            Call::Unbuffer { slot } => Ok(Call::Unbuffer { slot: *slot }),
            Call::BufRead { slot, n } => Ok(Call::BufRead { slot: *slot, n: *n }),
            Call::BufWrite { slot, bytes } => Ok(Call::BufWrite {
                slot: *slot,
                bytes: bytes.try_copy(alloc)?,
            }),
            Call::BufWriteAll { slot, bytes } => Ok(Call::BufWriteAll {
                slot: *slot,
                bytes: bytes.try_copy(alloc)?,
            }),
            Call::BufFlush { slot } => Ok(Call::BufFlush { slot: *slot }),
            Call::BufSeek { slot, position } => Ok(Call::BufSeek {
                slot: *slot,
                position: *position,
            }),
            Call::FsRead { path, bound } => Ok(Call::FsRead {
                path: path.try_copy(alloc)?,
                bound: *bound,
            }),
            Call::FsWrite { path, bytes } => Ok(Call::FsWrite {
                path: path.try_copy(alloc)?,
                bytes: bytes.try_copy(alloc)?,
            }),
            Call::List { path, bound } => Ok(Call::List {
                path: path.try_copy(alloc)?,
                bound: *bound,
            }),
            Call::Stat { path } => Ok(Call::Stat {
                path: path.try_copy(alloc)?,
            }),
            Call::Lstat { path } => Ok(Call::Lstat {
                path: path.try_copy(alloc)?,
            }),
            Call::SetStat { path, size, perm } => Ok(Call::SetStat {
                path: path.try_copy(alloc)?,
                size: *size,
                perm: *perm,
            }),
            Call::Remove { path } => Ok(Call::Remove {
                path: path.try_copy(alloc)?,
            }),
            Call::Mkdir { path } => Ok(Call::Mkdir {
                path: path.try_copy(alloc)?,
            }),
            Call::Rmdir { path } => Ok(Call::Rmdir {
                path: path.try_copy(alloc)?,
            }),
            Call::Rename { old, to } => Ok(Call::Rename {
                old: old.try_copy(alloc)?,
                to: to.try_copy(alloc)?,
            }),
            Call::HardLink { old, to } => Ok(Call::HardLink {
                old: old.try_copy(alloc)?,
                to: to.try_copy(alloc)?,
            }),
            Call::Symlink { src, dst } => Ok(Call::Symlink {
                src: src.try_copy(alloc)?,
                dst: dst.try_copy(alloc)?,
            }),
            Call::ReadLink { path } => Ok(Call::ReadLink {
                path: path.try_copy(alloc)?,
            }),
            Call::Canonicalize { path } => Ok(Call::Canonicalize {
                path: path.try_copy(alloc)?,
            }),
            Call::Cwd { path } => Ok(Call::Cwd {
                path: path.try_copy(alloc)?,
            }),
        }
    }
}

/// Returns true if a size is one of 64 bits, which every `u64` is.
fn fits_u64(_n: u64) -> bool
    ensures { result ≡ fits_u64 _n }
{
    true
}

/// Returns true if a bound is one of 32 bits, which every `u32` is.
fn is_short(_n: u32) -> bool
    ensures { result ≡ is_short _n }
{
    true
}

/// Returns the weight of a call of these bytes, or 2147483648 if it is more.
fn weight_of_bytes(bytes: &[u8]) -> u32
    ensures { result ≡ min (2 + length bytes.now) (2 ^ 31) }
{
    (bytes.len() as u64).saturating_add(2).min(0x8000_0000) as u32
}

impl Call {
    /// Returns true if the slots that the call names exist, and no bound or length is 0.
    pub fn is_within(&self) -> bool
        ensures { result ≡ is_within self.now }
    {
        match self {
            Call::OpenFile { slot, .. } => *slot < 16,
            Call::Read { slot, .. } => *slot < 16,
            Call::ReadAll { slot, .. } => *slot < 16,
            Call::Write { slot, .. } => *slot < 16,
            Call::WriteAll { slot, .. } => *slot < 16,
            Call::WriteParts { slot, .. } => *slot < 16,
            Call::Seek { slot, .. } => *slot < 16,
            Call::SetLen { slot, n } => *slot < 16 && fits_u64(*n),
            Call::SetPerm { slot, .. } => *slot < 16,
            Call::Meta { slot } => *slot < 16,
            Call::Sync { slot } => *slot < 16,
            Call::Copy { from, to, .. } => *from < 16 && *to < 16,
            Call::CloneFile { from, to } => *from < 16 && *to < 16,
            Call::Close { slot } => *slot < 16,
            Call::Buffer { slot, len } => *slot < 16 && 1 <= *len,
            Call::Unbuffer { slot } => *slot < 16,
            Call::BufRead { slot, .. } => *slot < 16,
            Call::BufWrite { slot, .. } => *slot < 16,
            Call::BufWriteAll { slot, .. } => *slot < 16,
            Call::BufFlush { slot } => *slot < 16,
            Call::BufSeek { slot, .. } => *slot < 16,
            Call::FsRead { bound, .. } => 1 <= *bound && is_short(*bound),
            Call::List { bound, .. } => 1 <= *bound,
            Call::SetStat { size, .. } => size.is_none_or(fits_u64),
            _ => true,
        }
    }

    /// Returns its weight among the calls of a session, or 2147483648 if it is more: 65 for an `FsRead`, 2 and its
    /// bytes for a `BufWrite` and a `BufWriteAll`, and 2 for each other call.
    pub fn weight(&self) -> u32
        ensures { result ≡ min (weight self.now) (2 ^ 31) }
    {
        match self {
            Call::BufWrite { bytes, .. } => weight_of_bytes(bytes.as_slice()),
            Call::BufWriteAll { bytes, .. } => weight_of_bytes(bytes.as_slice()),
            Call::FsRead { .. } => 65,
            _ => 2,
        }
    }
}

/// Calls that are made one after another.
///
/// Example: `crates/example_threads/src/receipts.rt`.
#[derive(Debug, Drop, PartialEq, Eq)]
pub struct Lane {
    /// The calls, the first one first. A call is named by its number, counted from 0.
    pub calls: Items<Call>,
}

impl TryCopy for Lane {
    fn try_copy(&self, alloc: Global) -> Result<Lane, OutOfMemory> {
        Ok(Lane {
            calls: self.calls.try_copy(alloc)?,
        })
    }
}
