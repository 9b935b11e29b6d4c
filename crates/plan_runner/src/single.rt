//! Calls of one request that change no slot: the reply ends them.
ghost use Rattle.std.specs.Prelude.{◌≡◌, [], Some, None, IfOk};
ghost use Rattle.sftp_model.specs.declared.slot.Move.TheVariants.{Done};
ghost use Rattle.sftp_model.specs.declared.slot.Site.{Site as SiteValue};
ghost use Rattle.sftp_model.specs.Frames.{is_too_long};
ghost use Rattle.plan_model.specs.Moves.{ask_path, by_reply, offers, told_by, done_by};
ghost use Rattle.plan_model.specs.PathPlans.{named_by, set_attributes};
ghost use Rattle.plan_runner.specs.Runners.{RunsByPlan, ended_by};
ghost use Rattle.plan_runner.specs.Cancelling.{LeavesCancelled};
ghost use Rattle.plan_runner.specs.Sound.{KeepsRunningSound};
ghost use Rattle.plan_runner.specs.Pending.{PendsAfter, pends_idle};
ghost use Rattle.plan_runner.specs.Asking.{AwaitsAsked, IsPlain};

use crate::next::{Asked, EndsBy, Next, Running};
use crate::replies::{refused, status_refusal};
use bitflags::Flags;
use sftp_model::numbers::SSH_FX_OK;
use sftp_model::{
    Error, Extensions, Facts, FileAttrs, IoKind, Outcome, Reply, Request, Site, TryCopy,
};
use sftp_wire::request_len;
use ssh_encoding::OutOfMemory;
use std::alloc::Global;

/// Returns true if the body of a request is longer than the greatest length.
pub fn is_too_long(request: &Request) -> bool
    ensures { result ≡ is_too_long request.now }
{
    request_len(request).is_none()
}

/// Returns true if the server offers an extension.
pub fn offers(facts: &Facts, extension: Extensions) -> bool
    ensures { result ≡ offers facts.now extension.0 }
{
    facts.extensions.bits() & extension.bits() != 0
}

/// Returns the attributes that a call sets: a size, and the twelve low bits of a mode.
pub fn attributes(size: Option<u64>, mode: Option<u32>) -> FileAttrs
    ensures { result ≡ set_attributes size mode }
{
    FileAttrs {
        size,
        id: None,
        permissions: mode.map(|bits| bits & 0o7777),
        time: None,
    }
}

/// Asks a request of one path or two, if it fits a frame; its reply ends the call.
pub fn ask_path(request: Request, by: EndsBy, place: u64, site: &Site, facts: &Facts) -> Next
    ensures goes { RunsByPlan (by_reply (ask_path request site.now) (ended_by by site.now))
        place [] site.now facts.now result }
    ensures left { LeavesCancelled (λ own answers. site.now) place [] site.now facts.now result }
    ensures sound { KeepsRunningSound [] facts.now site.now site.now result }
    ensures pends { PendsAfter (pends_idle site.now) place site.now result }
    ensures asks { IsPlain request → AwaitsAsked None place site.now result }
{
    if is_too_long(&request) {
        return Next::Done(refused(IoKind::PathTooLong));
    }
    Next::Ask(Asked::Plain(request), Running::Ending { place, by })
}

/// Returns the outcome of a STATUS for a call that returns no value.
fn status_told(reply: Reply) -> Outcome
    ensures { (site : SiteValue) → done_by site reply ≡ Done result site }
{
    match reply {
        Reply::Status {
            code,
            message,
            language,
        } => {
            if code == SSH_FX_OK {
                return Outcome::Done;
            }
            status_refusal(code, message, language)
        }
        _ => Outcome::Refused(Error::InvalidResponse { id: None }),
    }
}

/// Returns the outcome of ATTRS.
fn attributes_told(reply: Reply) -> Outcome
    ensures { (site : SiteValue) → told_by site reply ≡ Done result site }
{
    match reply {
        Reply::Attrs(attrs) => Outcome::Meta(attrs),
        Reply::Status {
            code,
            message,
            language,
        } => status_refusal(code, message, language),
        _ => Outcome::Refused(Error::InvalidResponse { id: None }),
    }
}

/// Returns the outcome of the first name of a NAME. Fails only if an allocation fails.
fn first_name_told(alloc: Global, reply: Reply) -> Result<Outcome, OutOfMemory>
    ensures { (site : SiteValue) → IfOk result (λ o. named_by site reply ≡ Done o site) }
{
    match reply {
        Reply::Names(names) => match names.as_slice() {
            [first, ..] => Ok(Outcome::Path(first.filename.try_copy(alloc)?)),
            [] => Ok(Outcome::Refused(Error::InvalidResponse { id: None })),
        },
        Reply::Status {
            code,
            message,
            language,
        } => Ok(status_refusal(code, message, language)),
        _ => Ok(Outcome::Refused(Error::InvalidResponse { id: None })),
    }
}

/// Returns the outcome of the reply that ends a call.
///
/// # Errors
///
/// `OutOfMemory` if an allocation fails.
pub fn ending_told(alloc: Global, by: EndsBy, reply: Reply) -> Result<Outcome, OutOfMemory>
    ensures { (site : SiteValue) → IfOk result (λ o. ended_by by site reply ≡ Done o site) }
{
    match by {
        EndsBy::Status => Ok(status_told(reply)),
        EndsBy::Attributes => Ok(attributes_told(reply)),
        EndsBy::FirstName => first_name_told(alloc, reply),
    }
}
