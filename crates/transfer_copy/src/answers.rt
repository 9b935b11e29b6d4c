//! The answer of a core about a request.
ghost use Rattle.std.specs.Prelude.{◌≡◌, IsTrue};
ghost use Rattle.sftp_core.specs.Core.{after_poll, record_at, is_ticket};
ghost use Rattle.transfer_copy.specs.Answers.{AnswersTicket};

use sftp_core::{Core, Grant, Polled, Ticket};
use sftp_model::{Fault, Reply};

/// The answer of a core about a request. The ticket is spent unless the reply is missing.
pub(crate) enum TicketAnswer {
    /// The reply that was taken, which is no HANDLE.
    Came(Reply),
    /// The grant of a HANDLE.
    Granted(Grant),
    /// The reply was not taken, and no fault is kept.
    Missing(Ticket),
    /// The reply was not taken, and this fault is kept.
    Failed(Fault),
}

/// Returns the answer of the core about the request of a ticket.
pub(crate) fn answer_to(core: &mut Core, ticket: Ticket) -> TicketAnswer
    requires { IsTrue (is_ticket (record_at core.old ticket)) }
    ensures answer { AnswersTicket core.old ticket result }
    ensures after { core.new ≡ after_poll core.old ticket }
{
    match core.poll(ticket) {
        Ok(Polled::Reply(reply)) => TicketAnswer::Came(reply),
        Ok(Polled::Granted(grant)) => TicketAnswer::Granted(grant),
        Ok(Polled::Failed(fault)) => TicketAnswer::Failed(fault),
        Err(ticket) => TicketAnswer::Missing(ticket),
    }
}
