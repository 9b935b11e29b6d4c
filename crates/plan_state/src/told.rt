//! The reply that a core has for an awaited request.
ghost use Rattle.std.specs.Prelude.{◌≡◌, ◌≤◌, IsTrue, IfOk, IfErr};
ghost use Rattle.std.specs.FinMap as fin;
ghost use Rattle.sftp_core.specs.Core.{after_poll, record_at, is_ticket};
ghost use Rattle.plan_state.specs.Told.{ReplyCame, IsUntold};

use sftp_core::{Core, Grant, Polled, Ticket};
use sftp_model::{Fault, Reply};

/// A reply that was taken.
///
/// Used in `crates/plan_state/src/runner.rt`.
pub enum Told {
    /// It was no HANDLE.
    Reply(Reply),
    /// The grant of a HANDLE, with one user.
    Granted(Grant),
}

/// The reason why no reply was taken.
///
/// Used in `crates/plan_state/src/call.rt`.
pub enum Untold {
    /// It was not taken, and no fault is kept.
    Missing(Ticket),
    /// It was not taken, and this fault is kept.
    Failed(Fault),
}

/// Takes the reply to a ticket, if it has come. The ticket is then consumed.
pub(crate) fn take_told(core: &mut Core, ticket: Ticket) -> Result<Told, Untold>
    requires { IsTrue (is_ticket (record_at core.old ticket)) }
    ensures came { IfOk result (ReplyCame core.old core.new ticket) }
    ensures missing { IfErr result (IsUntold core.old core.new ticket) }
    ensures core { core.new ≡ after_poll core.old ticket }
    ensures few { fin.len core.new.table ≤ fin.len core.old.table }
{
    match core.poll(ticket) {
        Ok(Polled::Reply(reply)) => Ok(Told::Reply(reply)),
        Ok(Polled::Granted(grant)) => Ok(Told::Granted(grant)),
        Ok(Polled::Failed(fault)) => Err(Untold::Failed(fault)),
        Err(ticket) => Err(Untold::Missing(ticket)),
    }
}
