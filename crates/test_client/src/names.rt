//! Calls on names and directories that are started first: what the calls in one don't have.
ghost use Rattle.std.specs.Prelude.{◌≡◌, IfOk, IsSome, OnOk, Some};
ghost use Rattle.sftp_core.specs.Core.{record_at};
ghost use Rattle.sftp_core.specs.Info.{info_of};
ghost use Rattle.sftp_core.specs.declared.id_record.IdRecord.TheVariants.{Granted};
ghost use Rattle.sftp_fs.specs.Listings.{IsListing};

use crate::server::Session;
use sftp_client::{Dir, DirEntry, Ended, Error, Permissions, ReadDir, RemotePath};
use std::alloc::Global;

/// Creates a directory with attributes, by a call that is kept until it has its result.
pub(crate) fn builds(alloc: Global, sftp: &mut Session, path: &[u8]) -> Result<bool, Error>
    requires { IsSome (info_of sftp.old.core.phase) }
{
    sftp.ready()?;
    let fs = sftp.fs();
    let mut builder = fs.dir_builder();
    builder
        .id((1, 2))
        .reset()
        .permissions(Permissions::from(0o755));
    let mut call = builder.start_create(alloc, sftp.core(), path)?;
    let answer = sftp.wait(&mut call);
    call.cancel(sftp.core());
    answer?;
    Ok(true)
}

/// Returns true if the file with a name in a directory has this length.
pub(crate) fn has_len_in(
    alloc: Global,
    sftp: &mut Session,
    directory: &'static [u8],
    name: &[u8],
    len: u64,
) -> Result<bool, Error>
    requires { IsSome (info_of sftp.old.core.phase) }
{
    let Ok(bytes) = Vec::from_slice(alloc, directory) else {
        return Err(Error::OutOfMemory);
    };
    let mut fs = sftp.fs();
    fs.set_cwd(RemotePath::new(bytes));
    if fs.cwd().as_bytes() != directory {
        return Ok(false);
    }
    sftp.ready()?;
    let call = fs.start_metadata(alloc, sftp.core(), name)?;
    Ok(sftp.finish(call)?.len() == Some(len))
}

/// Opens a directory by a call that is started first: it has one user.
fn open_dir(alloc: Global, sftp: &mut Session, path: &[u8]) -> Result<Dir, Error>
    requires { IsSome (info_of sftp.old.core.phase) }
    ensures opened { OnOk result (IsSome (info_of sftp.new.core.phase)) }
    ensures held { IfOk result (λ dir. record_at sftp.new.core dir.id ≡ Some (Granted dir.handle 1)) }
{
    sftp.ready()?;
    let call = sftp.fs().start_open_dir(alloc, sftp.core(), path)?;
    sftp.finish(call)
}

/// Shares a directory with another user, and releases it. Returns true if its listing isn't over then.
pub(crate) fn shares(
    alloc: Global,
    sftp: &mut Session,
    path: &[u8],
    ended: Ended,
) -> Result<bool, Error>
    requires { IsSome (info_of sftp.old.core.phase) }
{
    let dir = open_dir(alloc, sftp, path)?;
    let other = dir.clone_dir(sftp.core());
    other.let_go(ended);
    let listing = dir.read_dir(alloc);
    let is_over = listing.is_terminated();
    sftp.release_dir(listing);
    Ok(!is_over)
}

/// Returns true if an entry has this name, or if none comes for an empty one.
fn is_named(entry: Option<DirEntry>, name: &[u8]) -> bool {
    match entry {
        Some(entry) => {
            let mut entry = entry;
            entry.filename_mut().as_bytes() == name
        }
        None => name.is_empty(),
    }
}

/// Returns true if a listing has one entry, of this name.
fn is_one(sftp: &mut Session, listing: &mut ReadDir, name: &[u8]) -> Result<bool, Error>
    requires opened { IsSome (info_of sftp.old.core.phase) }
    requires listing { IsListing sftp.old.core listing.old }
    ensures opened { IsSome (info_of sftp.new.core.phase) }
    ensures listing { IsListing sftp.new.core listing.new }
{
    let first = sftp.next_entry(listing)?;
    let last = sftp.next_entry(listing)?;
    Ok(is_named(first, name) && is_named(last, b""))
}

/// Returns true if a directory has one entry, of this name.
pub(crate) fn lists(
    alloc: Global,
    sftp: &mut Session,
    path: &[u8],
    name: &[u8],
) -> Result<bool, Error>
    requires { IsSome (info_of sftp.old.core.phase) }
{
    let mut listing = sftp.open_dir(path)?.read_dir(alloc);
    let answer = is_one(sftp, &mut listing, name);
    let is_over = listing.is_terminated();
    let closed = sftp.close_dir(listing);
    Ok(answer? && is_over && closed.is_ok())
}
