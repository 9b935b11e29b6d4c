//! Calls of one path or two. A relative path is joined to the working directory.
ghost use Rattle.std.specs.Prelude.{◌≡◌, IfOk};
ghost use Rattle.plan_model.specs.declared.call.Call.TheVariants as call;
ghost use Rattle.plan_model.specs.PathPlans.{canonical_request, rename_request};
ghost use Rattle.plan_runner.specs.Begun.{StartsAsPlanned};

use crate::next::{EndsBy, Next};
use crate::replies::unsupported;
use crate::single::{ask_path, attributes, offers};
use crate::turn::Turn;
use sftp_model::{Extensions, Facts, RemotePath, Request, Site};
use ssh_encoding::OutOfMemory;
use std::alloc::Global;

/// Asks for the attributes of a path; for a link, those of its target.
///
/// # Errors
///
/// `OutOfMemory` if an allocation fails.
pub fn begin_stat(
    alloc: Global,
    path: &[u8],
    place: u64,
    site: &Site,
    facts: &Facts,
) -> Result<Next, OutOfMemory>
    ensures { IfOk result (StartsAsPlanned (call.Stat path.now) place site.now site.now facts.now) }
{
    let path = site.directory.join(alloc, path)?;
    let request = Request::Stat { path };
    Ok(ask_path(request, EndsBy::Attributes, place, site, facts))
}

/// Asks for the attributes of a path; for a link, those of the link itself.
///
/// # Errors
///
/// `OutOfMemory` if an allocation fails.
pub fn begin_lstat(
    alloc: Global,
    path: &[u8],
    place: u64,
    site: &Site,
    facts: &Facts,
) -> Result<Next, OutOfMemory>
    ensures { IfOk result (StartsAsPlanned (call.Lstat path.now) place site.now site.now facts.now) }
{
    let path = site.directory.join(alloc, path)?;
    let request = Request::Lstat { path };
    Ok(ask_path(request, EndsBy::Attributes, place, site, facts))
}

/// Sets the size and the mode of a path, if they are given.
///
/// # Errors
///
/// `OutOfMemory` if an allocation fails.
pub fn begin_set_stat(
    turn: Turn,
    path: &[u8],
    size: Option<u64>,
    mode: Option<u32>,
    site: &Site,
) -> Result<Next, OutOfMemory>
    ensures { IfOk result (StartsAsPlanned (call.SetStat path.now size mode) turn.place site.now site.now turn.facts) }
{
    let path = site.directory.join(turn.alloc, path)?;
    let request = Request::Setstat {
        path,
        attrs: attributes(size, mode),
    };
    Ok(ask_path(request, EndsBy::Status, turn.place, site, &turn.facts))
}

/// Removes a file.
///
/// # Errors
///
/// `OutOfMemory` if an allocation fails.
pub fn begin_remove(
    alloc: Global,
    path: &[u8],
    place: u64,
    site: &Site,
    facts: &Facts,
) -> Result<Next, OutOfMemory>
    ensures { IfOk result (StartsAsPlanned (call.Remove path.now) place site.now site.now facts.now) }
{
    let path = site.directory.join(alloc, path)?;
    let request = Request::Remove { path };
    Ok(ask_path(request, EndsBy::Status, place, site, facts))
}

/// Creates a directory.
///
/// # Errors
///
/// `OutOfMemory` if an allocation fails.
pub fn begin_mkdir(
    alloc: Global,
    path: &[u8],
    place: u64,
    site: &Site,
    facts: &Facts,
) -> Result<Next, OutOfMemory>
    ensures { IfOk result (StartsAsPlanned (call.Mkdir path.now) place site.now site.now facts.now) }
{
    let path = site.directory.join(alloc, path)?;
    let request = Request::Mkdir {
        path,
        attrs: attributes(None, None),
    };
    Ok(ask_path(request, EndsBy::Status, place, site, facts))
}

/// Removes a directory.
///
/// # Errors
///
/// `OutOfMemory` if an allocation fails.
pub fn begin_rmdir(
    alloc: Global,
    path: &[u8],
    place: u64,
    site: &Site,
    facts: &Facts,
) -> Result<Next, OutOfMemory>
    ensures { IfOk result (StartsAsPlanned (call.Rmdir path.now) place site.now site.now facts.now) }
{
    let path = site.directory.join(alloc, path)?;
    let request = Request::Rmdir { path };
    Ok(ask_path(request, EndsBy::Status, place, site, facts))
}

/// Asks for the target of a link.
///
/// # Errors
///
/// `OutOfMemory` if an allocation fails.
pub fn begin_read_link(
    alloc: Global,
    path: &[u8],
    place: u64,
    site: &Site,
    facts: &Facts,
) -> Result<Next, OutOfMemory>
    ensures { IfOk result (StartsAsPlanned (call.ReadLink path.now) place site.now site.now facts.now) }
{
    let path = site.directory.join(alloc, path)?;
    let request = Request::Readlink { path };
    Ok(ask_path(request, EndsBy::FirstName, place, site, facts))
}

/// Returns the request for the absolute form of a path: by the extension that knows `~`, if it is offered.
fn canonical_request(path: RemotePath, facts: &Facts) -> Request
    ensures { result ≡ canonical_request facts.now path }
{
    if offers(facts, Extensions::EXPAND_PATH) {
        return Request::ExpandPath { path };
    }
    Request::Realpath { path }
}

/// Asks for the absolute form of a path.
///
/// # Errors
///
/// `OutOfMemory` if an allocation fails.
pub fn begin_canonicalize(
    alloc: Global,
    path: &[u8],
    place: u64,
    site: &Site,
    facts: &Facts,
) -> Result<Next, OutOfMemory>
    ensures { IfOk result (StartsAsPlanned (call.Canonicalize path.now) place site.now site.now facts.now) }
{
    let path = site.directory.join(alloc, path)?;
    let request = canonical_request(path, facts);
    Ok(ask_path(request, EndsBy::FirstName, place, site, facts))
}

/// Returns the request that renames: the one that replaces, if the server offers it.
fn rename_request(old: RemotePath, to: RemotePath, facts: &Facts) -> Request
    ensures { result ≡ rename_request facts.now old to }
{
    if offers(facts, Extensions::POSIX_RENAME) {
        return Request::PosixRename { old, to };
    }
    Request::Rename { old, to }
}

/// Renames a file or directory.
///
/// # Errors
///
/// `OutOfMemory` if an allocation fails.
pub fn begin_rename(
    alloc: Global,
    old: &[u8],
    to: &[u8],
    place: u64,
    site: &Site,
    facts: &Facts,
) -> Result<Next, OutOfMemory>
    ensures { IfOk result (StartsAsPlanned (call.Rename old.now to.now) place site.now site.now facts.now) }
{
    let old = site.directory.join(alloc, old)?;
    let to = site.directory.join(alloc, to)?;
    let request = rename_request(old, to, facts);
    Ok(ask_path(request, EndsBy::Status, place, site, facts))
}

/// Creates a symbolic link at `dst` whose target is `src`.
///
/// # Errors
///
/// `OutOfMemory` if an allocation fails.
pub fn begin_symlink(
    alloc: Global,
    src: &[u8],
    dst: &[u8],
    place: u64,
    site: &Site,
    facts: &Facts,
) -> Result<Next, OutOfMemory>
    ensures { IfOk result (StartsAsPlanned (call.Symlink src.now dst.now) place site.now site.now facts.now) }
{
    let src = site.directory.join(alloc, src)?;
    let dst = site.directory.join(alloc, dst)?;
    let request = Request::Symlink { src, dst };
    Ok(ask_path(request, EndsBy::Status, place, site, facts))
}

/// Gives a file a second name, if the server offers it.
///
/// # Errors
///
/// `OutOfMemory` if an allocation fails.
pub fn begin_hard_link(
    alloc: Global,
    old: &[u8],
    to: &[u8],
    place: u64,
    site: &Site,
    facts: &Facts,
) -> Result<Next, OutOfMemory>
    ensures { IfOk result (StartsAsPlanned (call.HardLink old.now to.now) place site.now site.now facts.now) }
{
    if !offers(facts, Extensions::HARDLINK) {
        return Ok(Next::Done(unsupported(Extensions::HARDLINK)));
    }
    let old = site.directory.join(alloc, old)?;
    let to = site.directory.join(alloc, to)?;
    let request = Request::Hardlink { old, to };
    Ok(ask_path(request, EndsBy::Status, place, site, facts))
}
