//! Requests of calls, as they are submitted.
ghost use Rattle.std.specs.Prelude.{◌≡◌, true, false, IfOk, IfErr};
ghost use Rattle.sftp_model.specs.Frames.{is_too_long};
ghost use Rattle.sftp_core.specs.Core.{is_call, write_of};
ghost use Rattle.plan_state.specs.declared.submission.Asking.TheVariants as asking;
ghost use Rattle.plan_state.specs.Asked.{IsReady, IsUnsubmitted, SubmitsAsking, refusal_of, request_of};

use bytes::Bytes;
use sftp_core::{Core, SubmitError, Ticket};
use sftp_model::{Error, Fault, Handle, Request};
use sftp_values::Items;

/// A request of a call, as it is to be submitted.
///
/// Example: `crates/plan_state/src/runner.rt`.
#[derive(Drop)]
pub enum Asking {
    /// This request.
    Whole(Request),
    /// The WRITE of these parts, joined, at an offset in bytes (draft-ietf-secsh-filexfer-02, section 6.4). They are
    /// shared and not copied.
    Parts {
        handle: Handle,
        offset: u64,
        parts: Items<Bytes>,
    },
}

/// The reason why a request was not submitted.
pub(crate) enum Unsubmitted {
    /// An allocation failed: the request is returned.
    Short(Asking),
    /// This fault is kept.
    Failed(Fault),
}

/// Submits a request that fits a frame. Fails if an allocation fails or a fault is kept; the core is then unchanged.
pub(crate) fn submit(core: &mut Core, asking: Asking) -> Result<Ticket, Unsubmitted>
    requires ready { IsReady core.old }
    requires call { is_call (request_of asking) ≡ true }
    requires short { is_too_long (request_of asking) ≡ false }
    ensures ok { IfOk result (λ ticket. SubmitsAsking core.old asking ticket core.new) }
    ensures err { IfErr result (IsUnsubmitted core.old core.new asking) }
{
    match asking {
        Asking::Whole(request) => submit_whole(core, request),
        Asking::Parts {
            handle,
            offset,
            parts,
        } => submit_parts(core, handle, offset, parts),
    }
}

/// Submits this request.
fn submit_whole(core: &mut Core, request: Request) -> Result<Ticket, Unsubmitted>
    requires ready { IsReady core.old }
    requires call { is_call request ≡ true }
    requires short { is_too_long request ≡ false }
    ensures ok { IfOk result (λ ticket. SubmitsAsking core.old (asking.Whole request) ticket core.new) }
    ensures err { IfErr result (IsUnsubmitted core.old core.new (asking.Whole request)) }
{
    match core.submit(&request) {
        Ok(ticket) => Ok(ticket),
        Err(SubmitError::Failed(fault)) => Err(Unsubmitted::Failed(fault)),
        Err(SubmitError::TooLong) => unreachable!(),
        Err(SubmitError::OutOfMemory) => Err(Unsubmitted::Short(Asking::Whole(request))),
    }
}

/// Submits the WRITE of these parts.
fn submit_parts(
    core: &mut Core,
    handle: Handle,
    offset: u64,
    parts: Items<Bytes>,
) -> Result<Ticket, Unsubmitted>
    requires ready { IsReady core.old }
    requires short { is_too_long (write_of handle offset parts) ≡ false }
    ensures ok { IfOk result (λ ticket. SubmitsAsking core.old (asking.Parts handle offset parts) ticket core.new) }
    ensures err { IfErr result (IsUnsubmitted core.old core.new (asking.Parts handle offset parts)) }
{
    match core.submit_parts(&handle, offset, parts.as_slice()) {
        Ok(ticket) => Ok(ticket),
        Err(SubmitError::Failed(fault)) => Err(Unsubmitted::Failed(fault)),
        Err(SubmitError::TooLong) => unreachable!(),
        Err(SubmitError::OutOfMemory) => Err(Unsubmitted::Short(Asking::Parts {
            handle,
            offset,
            parts,
        })),
    }
}

/// Returns the error of a start whose request was not submitted.
pub(crate) fn refusal(e: Unsubmitted) -> Error
    ensures { result ≡ refusal_of e }
{
    match e {
        Unsubmitted::Short(_asking) => Error::OutOfMemory,
        Unsubmitted::Failed(fault) => Error::BackgroundTaskFailure(fault),
    }
}
