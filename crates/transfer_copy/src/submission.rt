//! Submits the requests of a copy.
ghost use Rattle.std.specs.Prelude.{◌≡◌, [], ◌∷◌, true, IfErr, IfOk, OnErr, IsSome};
ghost use Rattle.sftp_core.specs.Core.{is_call};
ghost use Rattle.sftp_core.specs.Info.{info_of};
ghost use Rattle.plan_state.specs.Asked.{SubmitsAsking};
ghost use Rattle.plan_state.specs.declared.submission.Asking.TheVariants.{Whole, Parts};
ghost use Rattle.transfer_copy.specs.Refusals.{IsUnasked, unsubmitted_by};

use crate::copy_error::CopyError;
use bytes::Bytes;
use sftp_core::{Core, MAX_IDS, SubmitError, Ticket};
use sftp_model::{Error, Handle, IoKind, Request};
use std::slice;

/// Returns the failure of a copy whose request was not submitted.
fn unsubmitted(e: SubmitError) -> CopyError
    ensures { result ≡ unsubmitted_by e }
{
    match e {
        SubmitError::Failed(fault) => CopyError::Remote(Error::BackgroundTaskFailure(fault)),
        SubmitError::TooLong => CopyError::Remote(Error::IOError(IoKind::PathTooLong)),
        SubmitError::OutOfMemory => CopyError::OutOfMemory,
    }
}

/// Submits a request. If it is refused, nothing was submitted and the core is unchanged.
pub(crate) fn submit(core: &mut Core, request: &Request) -> Result<Ticket, CopyError>
    requires opened { IsSome (info_of core.old.phase) }
    requires call { is_call request.now ≡ true }
    ensures ok { IfOk result (λ ticket. SubmitsAsking core.old (Whole request.now) ticket core.new) }
    ensures unchanged { OnErr result (core.new ≡ core.old) }
    ensures refused { IfErr result (λ e. IsUnasked core.old request.now e) }
{
    if core.kept() >= MAX_IDS {
        return Err(CopyError::OutOfMemory);
    }
    match core.submit(request) {
        Ok(ticket) => Ok(ticket),
        Err(e) => Err(unsubmitted(e)),
    }
}

/// Submits the WRITE of these bytes, which are shared and not copied. If it is refused, nothing was submitted and the
/// core is unchanged.
pub(crate) fn submit_write(
    core: &mut Core,
    handle: &Handle,
    offset: u64,
    bytes: &Bytes,
) -> Result<Ticket, CopyError>
    requires opened { IsSome (info_of core.old.phase) }
    ensures ok { IfOk result (λ ticket. SubmitsAsking core.old (Parts handle.now offset (bytes.now ∷ [])) ticket core.new) }
    ensures unchanged { OnErr result (core.new ≡ core.old) }
{
    if core.kept() >= MAX_IDS {
        return Err(CopyError::OutOfMemory);
    }
    match core.submit_parts(handle, offset, slice::from_ref(bytes)) {
        Ok(ticket) => Ok(ticket),
        Err(e) => Err(unsubmitted(e)),
    }
}
