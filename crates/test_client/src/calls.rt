//! Calls of a session that run to their end.
ghost use Rattle.std.specs.Prelude.{IsSome};
ghost use Rattle.sftp_core.specs.Core.{IsGrant};
ghost use Rattle.sftp_core.specs.Info.{info_of};

use crate::server::Session;
use bytes::Bytes;
use sftp_client::{DirEntry, Ended, Error, File, MetaData, MetaDataBuilder, Permissions};

/// A call of a session. Its operands are a path, and another path, a content, or an expected result.
#[derive(Clone, Copy)]
pub(crate) enum Call {
    /// A STATUS ends these.
    CreateDir,
    RemoveDir,
    RemoveFile,
    SetPermissions,
    /// The length becomes that of the other operand.
    SetMetadata,
    Rename,
    Symlink,
    HardLink,
    /// A file whole.
    WriteFile,
    ReadFile,
    /// A length.
    Metadata,
    SymlinkMetadata,
    /// A path.
    ReadLink,
    Canonicalize,
    /// Names of one byte, in their order.
    ReadDir,
    /// A file that is created, written and closed.
    Create,
    /// A file that is opened and closed, with its first byte, or with no byte.
    Open,
    /// A write to a file that was opened for reading, and a read of one that was created.
    WriteOpened,
    ReadCreated,
    /// The first five bytes of a file, or all of it, to another one.
    Copy,
    CopyAll,
}

/// Makes a call that returns nothing.
fn settle(
    sftp: &mut Session,
    call: Call,
    path: &[u8],
    other: &[u8],
    ended: Ended,
) -> Result<(), Error>
    requires { IsSome (info_of sftp.old.core.phase) }
{
    match call {
        Call::CreateDir => sftp.create_dir(path),
        Call::RemoveDir => sftp.remove_dir(path),
        Call::RemoveFile => sftp.remove_file(path),
        Call::SetPermissions => sftp.set_permissions(path, Permissions::from(0o755)),
        Call::SetMetadata => sftp.set_metadata(path, of_len(other.len() as u64)),
        Call::Rename => sftp.rename(path, other),
        Call::Symlink => sftp.symlink(path, other),
        Call::HardLink => sftp.hard_link(path, other),
        Call::WriteFile => sftp.write_file(path, other),
        Call::Create => create(sftp, path, other),
        Call::WriteOpened => write_opened(sftp, path),
        Call::Copy => copy(sftp, path, other, 5, ended),
        _ => copy(sftp, path, other, 0, ended),
    }
}

/// Returns metadata with this length alone.
fn of_len(len: u64) -> MetaData {
    let mut builder = MetaDataBuilder::new();
    builder.len(len);
    builder.create()
}

/// Creates a file of these bytes.
fn create(sftp: &mut Session, path: &[u8], content: &[u8]) -> Result<(), Error>
    requires { IsSome (info_of sftp.old.core.phase) }
{
    let mut file = sftp.create(path)?;
    match sftp.write_all(&mut file, content) {
        Ok(()) => sftp.close_file(file),
        Err(e) => {
            sftp.release_file(file);
            Err(e)
        }
    }
}

/// Returns true if a file begins with this byte, or is empty if there is none.
fn opens(sftp: &mut Session, path: &[u8], first: &[u8]) -> Result<bool, Error>
    requires { IsSome (info_of sftp.old.core.phase) }
{
    let mut file = sftp.open(path)?;
    match sftp.read(&mut file, 1) {
        Ok(part) => {
            let is_moved = file.offset() == first.len() as u64;
            sftp.close_file(file)?;
            Ok(is_moved && is_part(part, first))
        }
        Err(e) => {
            sftp.release_file(file);
            Err(e)
        }
    }
}

/// Returns true if a READ returned these bytes, or the end of the file if there are none.
fn is_part(part: Option<Bytes>, bytes: &[u8]) -> bool {
    match part {
        Some(part) => part.as_slice() == bytes,
        None => bytes.is_empty(),
    }
}

/// Writes to a file that was opened for reading.
fn write_opened(sftp: &mut Session, path: &[u8]) -> Result<(), Error>
    requires { IsSome (info_of sftp.old.core.phase) }
{
    let mut file = sftp.open(path)?;
    let answer = sftp.write_all(&mut file, b"x");
    sftp.release_file(file);
    answer
}

/// Reads a file that was created.
fn read_created(sftp: &mut Session, path: &[u8]) -> Result<bool, Error>
    requires { IsSome (info_of sftp.old.core.phase) }
{
    let mut file = sftp.create(path)?;
    let answer = sftp.read(&mut file, 1);
    sftp.release_file(file);
    Ok(is_part(answer?, b""))
}

/// Copies `n` bytes of a file to another path, or all of it if `n` is 0.
fn copy(sftp: &mut Session, from: &[u8], to: &[u8], n: u64, ended: Ended) -> Result<(), Error>
    requires { IsSome (info_of sftp.old.core.phase) }
{
    let mut source = sftp.open(from)?;
    let answer = copy_to(sftp, &mut source, to, n, ended);
    source.let_go(ended);
    answer
}

/// Copies `n` bytes of an open file to a path, or all of it if `n` is 0.
fn copy_to(
    sftp: &mut Session,
    source: &mut File,
    to: &[u8],
    n: u64,
    ended: Ended,
) -> Result<(), Error>
    requires opened { IsSome (info_of sftp.old.core.phase) }
    requires held { IsGrant sftp.old.core source.old.grant }
{
    let mut target = sftp.create(to)?;
    let answer = if n == 0 {
        sftp.copy_all(source, &mut target)
    } else {
        sftp.copy(source, &mut target, n)
    };
    target.let_go(ended);
    answer
}

/// Returns true if entries have these names, of one byte each.
fn are_named(entries: &[DirEntry], names: &[u8]) -> bool {
    let mut rest = names;
    for entry in entries {
        let Some((name, later)) = rest.split_first() else {
            return false;
        };
        if entry.filename().as_bytes() != [*name].as_slice() {
            return false;
        }
        rest = later;
    }
    rest.is_empty()
}

/// Makes a call. Returns true if its result is the expected one.
pub(crate) fn answer(
    sftp: &mut Session,
    call: Call,
    path: &[u8],
    other: &[u8],
    ended: Ended,
) -> Result<bool, Error>
    requires { IsSome (info_of sftp.old.core.phase) }
{
    match call {
        Call::ReadFile => Ok(sftp.read_file(path)?.as_slice() == other),
        Call::Metadata => Ok(sftp.metadata(path)?.len() == Some(other.len() as u64)),
        Call::SymlinkMetadata => {
            Ok(sftp.symlink_metadata(path)?.len() == Some(other.len() as u64))
        }
        Call::ReadLink => Ok(sftp.read_link(path)?.as_bytes() == other),
        Call::Canonicalize => Ok(sftp.canonicalize(path)?.as_bytes() == other),
        Call::ReadDir => Ok(are_named(&sftp.read_dir(path)?, other)),
        Call::Open => opens(sftp, path, other),
        Call::ReadCreated => read_created(sftp, path),
        _ => {
            settle(sftp, call, path, other, ended)?;
            Ok(true)
        }
    }
}
