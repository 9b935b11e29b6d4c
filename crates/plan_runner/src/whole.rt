//! Calls that open a path, work on it and end: `fs_write` and `list`. No slot holds the files that they open.
ghost use Rattle.std.specs.Prelude.{◌≡◌, ◌++◌, [], List, ℕ, Some, None, IfOk};
ghost use Rattle.sftp_model.specs.declared.slot.Facts.{Facts as FactsValue};
ghost use Rattle.sftp_model.specs.declared.slot.Site.{Site as SiteValue};
ghost use Rattle.sftp_model.specs.declared.reply.Reply.TheVariants as reply;
ghost use Rattle.plan_model.specs.declared.call.Call.TheVariants as call;
ghost use Rattle.plan_model.specs.FilePlans.{opened_file};
ghost use Rattle.plan_model.specs.Moves.{handle_of};
ghost use Rattle.plan_model.specs.WholePlans.{entries_next, to_replace};
ghost use Rattle.plan_runner.specs.declared.next.Running.TheVariants as running;
ghost use Rattle.plan_runner.specs.Begun.{StartsAsPlanned};
ghost use Rattle.plan_runner.specs.Runners.{BeginsByPlan, RunsByPlan, after};
ghost use Rattle.plan_runner.specs.Cancelling.{BeginsLeaving, LeavesCancelled};
ghost use Rattle.plan_runner.specs.Sound.{KeepsRunningSound};
ghost use Rattle.plan_runner.specs.Pending.{PendsAfter, pends_after, pends_idle};
ghost use Rattle.plan_runner.specs.Asking.{AwaitsAsked, AsksOn, opened_after};

use crate::next::{Asked, Next, Running};
use crate::open_call::{open_request, opened_file};
use crate::replies::{refusal, refused, status_refusal};
use crate::single::is_too_long;
use crate::turn::Turn;
use crate::write_call::write_rest;
use bitflags::Flags;
use sftp_model::numbers::{SSH_FX_EOF, SSH_FXF_CREAT, SSH_FXF_TRUNC, SSH_FXF_WRITE};
use sftp_model::{
    Error, Facts, FileAt, IoKind, NameEntry, OpenFlags, Outcome, Reply, Request, Site,
};
use sftp_values::Items;
use ssh_encoding::OutOfMemory;
use std::alloc::Global;

/// A READDIR in flight: its place, which contracts alone read, the grant of the directory, and the number of READDIRs
/// that may be made, including this one.
///
/// Used in `names_replied`.
#[derive(Clone, Copy)]
pub(crate) struct Readdir {
    pub(crate) awaited: u64,
    pub(crate) grant: u64,
    pub(crate) bound: u32,
}

/// Returns the flags of a file that is created or truncated.
fn to_replace() -> OpenFlags
    ensures { result ≡ to_replace }
{
    OpenFlags::from_bits_retain(SSH_FXF_WRITE + SSH_FXF_CREAT + SSH_FXF_TRUNC)
}

/// Returns the file that the OPEN of a whole write at a place opened.
fn file_to_replace(grant: u64) -> FileAt
    ensures { result ≡ opened_file to_replace grant }
{
    opened_file(to_replace(), grant)
}

/// Creates or truncates a file, and writes all of the bytes.
///
/// # Errors
///
/// `OutOfMemory` if an allocation fails.
pub fn begin_fs_write(
    alloc: Global,
    path: &[u8],
    bytes: &[u8],
    place: u64,
    site: &Site,
    facts: &Facts,
) -> Result<Next, OutOfMemory>
    ensures { IfOk result (StartsAsPlanned (call.FsWrite path.now bytes.now) place site.now site.now facts.now) }
{
    let path = site.directory.join(alloc, path)?;
    let request = open_request(path, to_replace());
    if is_too_long(&request) {
        return Ok(Next::Done(refused(IoKind::PathTooLong)));
    }
    Ok(Next::Ask(Asked::Plain(request), Running::OpeningToWrite { place }))
}

/// Processes the reply to the OPEN of a whole write: after a HANDLE the bytes are written. Fails only if an allocation
/// fails.
pub(crate) fn whole_opened(
    turn: Turn,
    grant: u64,
    reply: Reply,
    bytes: &[u8],
    site: &Site,
) -> Result<Next, OutOfMemory>
    ensures goes { IfOk result (RunsByPlan
        (after (running.OpeningToWrite grant) bytes.now site.now turn.facts (Some reply))
        turn.place bytes.now site.now turn.facts) }
    ensures left { IfOk result (LeavesCancelled (λ own answers. site.now)
        turn.place bytes.now site.now turn.facts) }
    ensures sound { IfOk result (KeepsRunningSound bytes.now turn.facts site.now site.now) }
    ensures pends { IfOk result
        (PendsAfter (pends_after (running.OpeningToWrite grant) site.now (Some reply)) turn.place site.now) }
    ensures asks { IfOk result (AsksOn (opened_after (running.OpeningToWrite grant) (Some reply)) turn.place site.now) }
{
    match reply {
        Reply::Handle(_handle) => {
            let file = file_to_replace(grant);
            write_rest(turn, None, file, 0, bytes)
        }
        Reply::Status {
            code,
            message,
            language,
        } => Ok(Next::Done(status_refusal(code, message, language))),
        _ => Ok(Next::Done(Outcome::Refused(Error::InvalidResponse { id: None }))),
    }
}

/// Lists a directory by at most `bound` READDIRs.
///
/// # Errors
///
/// `OutOfMemory` if an allocation fails.
pub fn begin_list(
    alloc: Global,
    path: &[u8],
    bound: u32,
    place: u64,
    site: &Site,
    facts: &Facts,
) -> Result<Next, OutOfMemory>
    ensures { IfOk result (StartsAsPlanned (call.List path.now bound) place site.now site.now facts.now) }
{
    let path = site.directory.join(alloc, path)?;
    let request = Request::Opendir { path };
    if is_too_long(&request) {
        return Ok(Next::Done(refused(IoKind::PathTooLong)));
    }
    Ok(Next::Ask(
        Asked::Plain(request),
        Running::OpeningDirectory { place, bound },
    ))
}

/// Asks for further entries of a directory after those received; the site may be any.
fn list_rest(grant: u64, got: Items<NameEntry>, bound: u32, place: u64) -> Next
    ensures goes { (site : SiteValue) (facts : FactsValue) (bytes : List ℕ)
        → RunsByPlan (λ own answers. entries_next (handle_of (answers grant)) got bound site own answers) place bytes site facts result }
    ensures left { (site : SiteValue) (facts : FactsValue) (bytes : List ℕ)
        → LeavesCancelled (λ own answers. site) place bytes site facts result }
    ensures sound { (site : SiteValue) (facts : FactsValue) (bytes : List ℕ)
        → KeepsRunningSound bytes facts site site result }
    ensures pends { (site : SiteValue) → PendsAfter (pends_idle site) place site result }
    ensures asks { (site : SiteValue) → AsksOn (Some grant) place site result }
{
    if bound == 0 {
        return Next::Done(Outcome::GivenUp);
    }
    Next::Ask(
        Asked::Readdir { grant },
        Running::Listing {
            place,
            grant,
            got,
            bound,
        },
    )
}

/// Returns no entries.
fn no_entries(alloc: Global) -> Items<NameEntry>
    ensures { result ≡ [] }
{
    Items::new(Vec::new(alloc))
}

/// Processes the reply to an OPENDIR: after a HANDLE the entries are asked for.
pub(crate) fn directory_opened(
    turn: Turn,
    grant: u64,
    bound: u32,
    reply: Reply,
    site: &Site,
) -> Next
    ensures goes { (bytes : List ℕ)
        → RunsByPlan (after (running.OpeningDirectory grant bound) bytes site.now turn.facts (Some reply))
        turn.place bytes site.now turn.facts result }
    ensures left { (bytes : List ℕ) → LeavesCancelled (λ own answers. site.now)
        turn.place bytes site.now turn.facts result }
    ensures sound { (bytes : List ℕ) → KeepsRunningSound bytes turn.facts site.now site.now result }
    ensures pends { PendsAfter (pends_after (running.OpeningDirectory grant bound) site.now
        (Some reply)) turn.place site.now result }
    ensures asks { AsksOn (opened_after (running.OpeningDirectory grant bound) (Some reply))
        turn.place site.now result }
{
    match reply {
        Reply::Handle(_handle) => list_rest(grant, no_entries(turn.alloc), bound, turn.place),
        Reply::Status {
            code,
            message,
            language,
        } => Next::Done(status_refusal(code, message, language)),
        _ => Next::Done(Outcome::Refused(Error::InvalidResponse { id: None })),
    }
}

/// Returns the entries of both, in this order. Fails only if an allocation fails.
fn joined(got: Items<NameEntry>, more: Items<NameEntry>) -> Result<Items<NameEntry>, OutOfMemory>
    ensures { IfOk result (λ entries. entries ≡ got ++ more) }
{
    let mut entries = got.into_vec();
    let mut rest = more.into_vec();
    entries.append(&mut rest)?;
    Ok(Items::new(entries))
}

/// Processes a NAME: further entries are asked for, unless it has none. Fails only if an allocation fails.
fn names_came(
    turn: Turn,
    read: Readdir,
    got: Items<NameEntry>,
    names: Items<NameEntry>,
    site: &Site,
) -> Result<Next, OutOfMemory>
    ensures goes { (bytes : List ℕ)
        → IfOk result (RunsByPlan (after (running.Listing read.awaited read.grant got read.bound) bytes
        site.now turn.facts (Some (reply.Names names))) turn.place bytes site.now turn.facts) }
    ensures left { (bytes : List ℕ) → IfOk result (LeavesCancelled (λ own answers. site.now)
        turn.place bytes site.now turn.facts) }
    ensures sound { (bytes : List ℕ) → IfOk result (KeepsRunningSound bytes turn.facts site.now site.now) }
    ensures pends { IfOk result (PendsAfter (pends_after (running.Listing read.awaited read.grant got read.bound)
        site.now (Some (reply.Names names))) turn.place site.now) }
    ensures asks { IfOk result (AsksOn (Some read.grant) turn.place site.now) }
{
    if names.as_slice().is_empty() {
        return Ok(Next::Done(Outcome::Names(got)));
    }
    let entries = joined(got, names)?;
    let rest = read.bound.saturating_sub(1);
    Ok(list_rest(read.grant, entries, rest, turn.place))
}

/// Processes the reply to a READDIR: after a NAME with entries further ones are asked for. Fails only if an allocation
/// fails.
pub(crate) fn names_replied(
    turn: Turn,
    read: Readdir,
    got: Items<NameEntry>,
    reply: Reply,
    site: &Site,
) -> Result<Next, OutOfMemory>
    ensures goes { (bytes : List ℕ)
        → IfOk result (RunsByPlan (after (running.Listing read.awaited read.grant got read.bound) bytes
        site.now turn.facts (Some reply)) turn.place bytes site.now turn.facts) }
    ensures left { (bytes : List ℕ) → IfOk result (LeavesCancelled (λ own answers. site.now)
        turn.place bytes site.now turn.facts) }
    ensures sound { (bytes : List ℕ) → IfOk result (KeepsRunningSound bytes turn.facts site.now site.now) }
    ensures pends { IfOk result (PendsAfter (pends_after (running.Listing read.awaited read.grant got read.bound)
        site.now (Some reply)) turn.place site.now) }
    ensures asks { IfOk result (AsksOn (Some read.grant) turn.place site.now) }
{
    match reply {
        Reply::Names(names) => names_came(turn, read, got, names, site),
        Reply::Status {
            code,
            message,
            language,
        } => {
            if code == SSH_FX_EOF {
                return Ok(Next::Done(Outcome::Names(got)));
            }
            Ok(Next::Done(status_refusal(code, message, language)))
        }
        _ => Ok(Next::Done(Outcome::Refused(Error::InvalidResponse { id: None }))),
    }
}
