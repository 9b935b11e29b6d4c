//! Lists a directory of the server.
ghost use Rattle.transfer_pool.specs.Sessions.{IsGoing};

use crate::connection::is_lost;
use crate::ended::{Reach, ended_by};
use crate::printable::printable;
use crate::transfer_error::{TransferError, is_starved, tell};
use sftp_client::Sftp;
use sftp_link::Link;
use sftp_model::FileAttrs;
use std::io;
use transfer_args::Listing;
use transfer_plan::{Found, Task, Walk, path_in};
use transfer_remote::list_remote;

/// Returns the letter of a file type, as `ls -l` writes it.
fn letter_of(task: Task) -> &'static str {
    match task {
        Task::CopyFile => "-",
        Task::MakeFolder | Task::RefuseDepth => "d",
        Task::CopyLink => "l",
        _ => "?",
    }
}

/// Writes a line for an entry: its name, and with `long` its type and size before it.
fn write_entry(rt: &HostRuntime, found: &Found, folder_len: usize, long: bool) -> io::Result<()> {
    let path = found.source.as_slice();
    let name = path.get(folder_len..).unwrap_or(path);
    let name = printable(rt.alloc(), name)?;
    if long {
        let size = found.attrs.size.unwrap_or(0);
        println!(rt; "{} {size:>12} {}", letter_of(found.task), name.as_str())
    } else {
        println!(rt; "{}", name.as_str())
    }
}

/// Writes the entries of a directory, one a line. They are those after the first, and their paths begin with its path.
fn write_entries(rt: &HostRuntime, walk: &Walk, folder_len: usize, long: bool) -> io::Result<()> {
    for entry in walk.found().iter().skip(1) {
        write_entry(rt, entry, folder_len, long)?;
    }
    Ok(())
}

/// Returns the result of a listing after its output failed, and reports the reason.
pub(crate) fn without_output(rt: &HostRuntime, error: io::Error) -> Reach {
    match TransferError::from(error) {
        TransferError::OutOfMemory => {
            tell(rt, "standard output", &TransferError::OutOfMemory);
            Reach::OutOfMemory
        }
        reason => {
            tell(rt, "standard output", &reason);
            Reach::NoOutput
        }
    }
}

/// Writes the names of a directory, one a line, and returns the result.
pub(crate) fn list<L: Link>(rt: &HostRuntime, sftp: &mut Sftp<L>, listing: &Listing<'_>) -> Reach
    requires { IsGoing L.LinkState.state sftp.old }
{
    match entries_of(rt, sftp, listing) {
        Ok((walk, folder_len)) => {
            match write_entries(rt, &walk, folder_len, listing.options.long) {
                Ok(()) => Reach::Done,
                Err(error) => without_output(rt, error),
            }
        }
        Err(reason) => {
            tell(rt, listing.path, &reason);
            ended_by(is_starved(&reason), is_lost(sftp), false, false)
        }
    }
}

/// Returns the walk of a directory whose entries were listed, which are those after the first, and the number of bytes
/// of its path in theirs.
fn entries_of<L: Link>(
    rt: &HostRuntime,
    sftp: &mut Sftp<L>,
    listing: &Listing<'_>,
) -> Result<(Walk, usize), TransferError>
    requires { IsGoing L.LinkState.state sftp.old }
{
    let alloc = rt.alloc();
    let none = FileAttrs {
        size: None,
        id: None,
        permissions: None,
        time: None,
    };
    let path = listing.path.as_bytes();
    let (Ok(mut walk), Ok(folder)) = (
        Walk::new(alloc, path, b"", none, false),
        path_in(alloc, path, b""),
    ) else {
        return Err(TransferError::OutOfMemory);
    };
    if let Err(e) = list_remote(alloc, sftp, &mut walk) {
        return Err(e.into());
    }
    Ok((walk, folder.len()))
}
