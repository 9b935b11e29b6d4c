//! Tickets of READs under way.
ghost use Rattle.std.specs.Prelude.{◌≡◌, IfErr, IfOk};
ghost use Rattle.sftp_model.specs.declared.answers.Expected.TheVariants as expected;
ghost use Rattle.sftp_model.specs.declared.request.Request.TheVariants as request;
ghost use Rattle.plan_state.specs.Asked.{HoldsTicket, IsReady, SubmitsAsking};
ghost use Rattle.plan_state.specs.declared.submission.Asking.TheVariants as asking;
ghost use Rattle.sftp_fs_read.specs.Tickets.{AreTickets, IsAnswer, IsUnasked, core_without_tickets};

use sftp_core::{Core, Polled, SubmitError, Ticket};
use sftp_model::{Fault, Handle, Reply, Request};
use std::collections::VecDeque;

/// The reason that a READ was not submitted.
///
/// Used in `crates/sftp_fs_read/src/fs_read.rt`.
pub enum Unasked {
    /// An allocation failed.
    Short,
    /// The core has recorded this fault.
    Failed(Fault),
}

/// The answer of a core to a READ.
///
/// Used in `crates/sftp_fs_read/src/replies.rt`.
pub enum Answer {
    /// The reply that was taken.
    Came(Reply),
    /// It was not taken, and the core has recorded no fault.
    Missing(Ticket),
    /// It was not taken, and the core has recorded this fault.
    Failed(Fault),
}

/// Takes the reply to a READ of at most `len` bytes, if it came. The ticket is consumed then, and also by a recorded
/// fault.
pub(crate) fn take_reply(core: &mut Core, ticket: Ticket, len: u32) -> Answer
    requires { HoldsTicket core.old ticket (expected.Content len) }
    ensures { IsAnswer core.old core.new ticket len result }
{
    match core.poll(ticket) {
        Ok(Polled::Reply(reply)) => Answer::Came(reply),
        Ok(Polled::Granted(_grant)) => unreachable!(),
        Ok(Polled::Failed(fault)) => Answer::Failed(fault),
        Err(ticket) => Answer::Missing(ticket),
    }
}

/// Submits a READ. Fails if an allocation fails or the core has recorded a fault; the core is unchanged then.
pub(crate) fn submit_read(
    core: &mut Core,
    handle: &Handle,
    offset: u64,
    len: u32,
) -> Result<Ticket, Unasked>
    requires { IsReady core.old }
    ensures ok { IfOk result (λ ticket. SubmitsAsking core.old (asking.Whole (request.Read handle.now offset len)) ticket core.new) }
    ensures err { IfErr result (λ e. IsUnasked core.old e × (core.new ≡ core.old)) }
{
    // For the contract: a handle has at most 256 bytes.
    let _short = handle.as_bytes();
    let request = Request::Read {
        handle: handle.copied(),
        offset,
        len,
    };
    match core.submit(&request) {
        Ok(ticket) => Ok(ticket),
        Err(SubmitError::Failed(fault)) => Err(Unasked::Failed(fault)),
        Err(SubmitError::TooLong) => unreachable!(),
        Err(SubmitError::OutOfMemory) => Err(Unasked::Short),
    }
}

/// Abandons these tickets, the first one first.
#[tactic(auto, using(crate::proofs::TicketLaws::abandons_first, crate::proofs::TicketLaws::abandons_ticket, crate::proofs::TicketLaws::abandons_next, crate::proofs::TicketLaws::abandons_all))]
pub(crate) fn abandon_all(core: &mut Core, tickets: VecDeque<Ticket>)
    requires { AreTickets core.old tickets.items }
    ensures { core.new ≡ core_without_tickets core.old tickets.items }
{
    let mut tickets = tickets;
    while let Some(ticket) = tickets.pop_front() {
        core.abandon(ticket);
    }
    tickets.destroy_empty();
}
