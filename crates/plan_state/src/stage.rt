//! The stages of a call that is running.
ghost use Rattle.std.specs.Prelude.{◌≡◌, ℕ, true, Some, IsTrue};
ghost use Rattle.sftp_core.specs.Core.{core_after_abandon, record_at, is_ticket, core_after_release};
ghost use Rattle.sftp_core.specs.declared.id_record.IdRecord.TheVariants.{Granted};
ghost use Rattle.plan_state.specs.declared.stage.Stage.TheVariants.{Asked, Came};
ghost use Rattle.plan_state.specs.declared.told.Told.{Told as ToldValue};
ghost use Rattle.plan_state.specs.Calls.{CancelsAwaited, is_ended, ticket_of};
ghost use Rattle.plan_state.specs.Told.{IsCounted};

use crate::submission::Asking;
use crate::told::Told;
use sftp_core::{Core, Ended, Grant, Ticket};
use std::mem;

/// The stage of a call: what it awaits.
///
/// Example: `crates/sftp_file/src/short_calls.rt`.
#[must_use]
pub enum Stage {
    /// Nothing: the call has returned its result.
    Ended,
    /// Nothing: no request was needed, and the first poll returns the value.
    Ready,
    /// Memory to submit this request.
    Unsent(Asking),
    /// The reply to a request.
    Asked(Ticket),
    /// Memory to continue with the reply that came.
    Came(Told),
}

impl Stage {
    /// Takes the stage out, and leaves `Ended`.
    pub(crate) fn take(&mut self) -> Stage
        ensures was { result ≡ self.old }
        ensures now { self.new ≡ Stage.Ended }
    {
        mem::replace(self, Stage::Ended)
    }

    /// Replaces the stage `Ended`.
    pub(crate) fn put(&mut self, stage: Stage)
        requires { is_ended self.old ≡ true }
        ensures { self.new ≡ stage }
    {
        match mem::replace(self, stage) {
            Stage::Ended => {}
            Stage::Ready => unreachable!(),
            Stage::Unsent(_asking) => unreachable!(),
            Stage::Asked(_ticket) => unreachable!(),
            Stage::Came(_told) => unreachable!(),
        }
    }

    /// Returns the number of the awaited ticket.
    pub(crate) fn ticket_id(&self) -> Option<u32>
        ensures { result ≡ ticket_of self.now }
    {
        match self {
            Stage::Asked(ticket) => Some(ticket.id()),
            _ => None,
        }
    }

    /// Returns true if the call has returned its result.
    pub(crate) fn is_ended(&self) -> bool
        ensures { result ≡ is_ended self.now }
    {
        matches!(self, Stage::Ended)
    }

    /// Cancels the call: a reply that has come, or comes later, is dropped, and its handle is closed.
    #[tactic(auto, using(crate::proofs::OthersKept::cancels_by))]
    pub(crate) fn cancel(self, core: &mut Core)
        requires ticket { (ticket : ℕ) → self ≡ Asked ticket → IsTrue (is_ticket (record_at core.old ticket)) }
        requires counted { (told : ToldValue) → self ≡ Came told → IsCounted core.old told }
        ensures { CancelsAwaited core.old core.new self }
    {
        match self {
            Stage::Ended => {}
            Stage::Ready => {}
            Stage::Unsent(_asking) => {}
            Stage::Asked(ticket) => core.abandon(ticket),
            Stage::Came(Told::Reply(_reply)) => {}
            Stage::Came(Told::Granted(grant)) => close(core, grant),
        }
    }

    /// Releases the state of a call whose core was ended.
    pub(crate) fn let_go(self, core: Ended) {
        match self {
            Stage::Ended => {}
            Stage::Ready => {}
            Stage::Unsent(_asking) => {}
            Stage::Asked(ticket) => ticket.let_go(core),
            Stage::Came(Told::Reply(_reply)) => {}
            Stage::Came(Told::Granted(grant)) => grant.let_go(core),
        }
    }
}

/// Closes a grant with one user, whose CLOSE nobody awaits.
fn close(core: &mut Core, grant: Grant)
    requires { record_at core.old grant.id ≡ Some (Granted grant.handle 1) }
    ensures { core.new ≡ core_after_abandon (core_after_release core.old grant) grant.id }
{
    match core.release(grant) {
        Some(ticket) => core.abandon(ticket),
        None => unreachable!(),
    }
}
