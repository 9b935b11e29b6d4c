//! The copy of a file, and the copy that reads it back.
ghost use Rattle.std.specs.Prelude.{◌≡◌, IfOk};
ghost use Rattle.std.specs.Option.{option_map};
ghost use Rattle.std.specs.String.{string_bytes};
ghost use Rattle.sftp_transfer.specs.Copies.{IsCopyOf, IsReadBackOf, attrs_given, folder_mode, kept_attrs, local_of, nine_bits, part_mode, remote_of, resumed_at};

use crate::transfer_error::{TransferError, no_text};
use sftp_model::FileAttrs;
use std::alloc::Global;
use std::str;
use transfer_args::{Direction, Options};
use transfer_plan::{Found, part_path};
use transfer_pool::CopyJob;

/// The attributes that a copy is given besides its bytes.
#[derive(Clone, Copy, Debug, PartialEq, Eq)]
pub(crate) enum Kept {
    /// None: its permissions are those that it was created with.
    Nothing,
    /// The times of its source.
    Times,
    /// The permissions and times of its source.
    All,
}

/// How a run copies files.
#[derive(Clone, Copy)]
pub(crate) struct Manner {
    /// The direction.
    pub(crate) way: Direction,
    /// The options of the command line.
    pub(crate) options: Options,
    /// The attributes that copies are given.
    pub(crate) kept: Kept,
}

/// Returns a path as text. Fails if it isn't UTF-8.
fn text_of(alloc: Global, path: &[u8]) -> Result<String, TransferError>
    ensures { IfOk result (λ text. string_bytes text ≡ path.now) }
{
    match str::from_utf8(path) {
        Ok(text) => match String::from_str(alloc, text) {
            Ok(text) => Ok(text),
            Err(_) => Err(TransferError::OutOfMemory),
        },
        Err(_) => Err(no_text()),
    }
}

/// Returns the permissions of owner, group and others.
fn nine_bits(permissions: Option<u32>) -> Option<u32>
    ensures { result ≡ option_map nine_bits permissions }
{
    match permissions {
        Some(mode) => Some(mode & 0o777),
        None => None,
    }
}

/// Returns the attributes that a copy of an entry with these attributes is given.
pub(crate) fn kept_attrs(kept: Kept, attrs: &FileAttrs) -> FileAttrs
    ensures { result ≡ kept_attrs kept attrs.now }
{
    FileAttrs {
        size: None,
        id: None,
        permissions: match kept {
            Kept::All => nine_bits(attrs.permissions),
            _ => None,
        },
        time: match kept {
            Kept::Nothing => None,
            _ => attrs.time,
        },
    }
}

/// Returns the attributes that a copy gives the file of the server before it is closed, or `None` if it gives none.
fn attrs_given(way: Direction, kept: Kept, attrs: &FileAttrs) -> Option<FileAttrs>
    ensures { result ≡ attrs_given way kept attrs.now }
{
    match (way, kept) {
        (Direction::Get, _) | (Direction::Put, Kept::Nothing) => None,
        (Direction::Put, _) => Some(kept_attrs(kept, attrs)),
    }
}

/// Returns the number of bytes of a part file after which a copy continues: all `had` bytes, if the file is known to
/// have at least that many. Otherwise the copy starts again, at 0.
pub(crate) fn resumed_at(size: Option<u64>, had: Option<u64>) -> u64
    ensures { result ≡ resumed_at size had }
{
    match (size, had) {
        (Some(size), Some(had)) => {
            if had <= size {
                return had;
            }
            0
        }
        _ => 0,
    }
}

/// Returns the permissions of a part file: those of its source, and its owner may write it.
fn part_mode(permissions: Option<u32>) -> Option<u32>
    ensures { result ≡ option_map part_mode permissions }
{
    match nine_bits(permissions) {
        Some(mode) => Some(mode | 0o200),
        None => None,
    }
}

/// Returns the permissions of a directory that is created: those of its source, and its owner may do anything in it.
pub(crate) fn folder_mode(permissions: Option<u32>) -> Option<u32>
    ensures { result ≡ option_map folder_mode permissions }
{
    match nine_bits(permissions) {
        Some(mode) => Some(mode | 0o700),
        None => None,
    }
}

/// Returns the copy of a file that was found. It is written as the part file of this run beside its target, after the
/// bytes that the part file has. The part file is created with the permissions of its source. The file of the server is
/// given the attributes that are kept. It is written through to the disk if that is asked for. Fails if a path isn't
/// UTF-8.
pub(crate) fn copy_of(
    alloc: Global,
    manner: Manner,
    begins_at: u64,
    run: &[u8],
    found: &Found,
) -> Result<CopyJob, TransferError>
    ensures { IfOk result (IsCopyOf manner begins_at run.now found.now) }
{
    let part = part_path(alloc, found.target.as_slice(), run)?;
    let from = text_of(alloc, found.source.as_slice())?;
    let part = text_of(alloc, part.as_slice())?;
    let to = text_of(alloc, found.target.as_slice())?;
    Ok(CopyJob {
        way: manner.way,
        from,
        part,
        to,
        begins_at,
        mode: part_mode(found.attrs.permissions),
        attrs: attrs_given(manner.way, manner.kept, &found.attrs),
        sync: manner.options.sync,
    })
}

/// Returns the path of a file on the server.
pub(crate) fn remote_of(way: Direction, found: &Found) -> &[u8]
    ensures { result.now ≡ remote_of way found.now }
{
    match way {
        Direction::Get => found.source.as_slice(),
        Direction::Put => found.target.as_slice(),
    }
}

/// Returns its path on the local side.
pub(crate) fn local_of(way: Direction, found: &Found) -> &[u8]
    ensures { result.now ≡ local_of way found.now }
{
    match way {
        Direction::Get => found.target.as_slice(),
        Direction::Put => found.source.as_slice(),
    }
}

/// Returns a copy from the server that reads back a file that was copied, from its start to its end. Its local file
/// compares it with the one on the local side. Fails if a path isn't UTF-8.
pub(crate) fn read_back_of(
    alloc: Global,
    way: Direction,
    found: &Found,
) -> Result<CopyJob, TransferError>
    ensures { IfOk result (IsReadBackOf way found.now) }
{
    let from = text_of(alloc, remote_of(way, found))?;
    let part = text_of(alloc, local_of(way, found))?;
    let to = text_of(alloc, local_of(way, found))?;
    Ok(CopyJob {
        way: Direction::Get,
        from,
        part,
        to,
        begins_at: 0,
        mode: None,
        attrs: None,
        sync: false,
    })
}
