//! Requests of a stream that are under way.
ghost use Rattle.std.specs.Prelude.{◌≡◌, ℕ};
ghost use Rattle.sftp_model.specs.declared.answers.Expected.{Expected};
ghost use Rattle.sftp_streams.specs.Parts.{AreAwaited, AwaitsPlain, IsAnswer, KindOf, without_parts};

use sftp_core::{Core, Polled, Ticket};
use sftp_model::{Fault, Reply};
use std::collections::VecDeque;

/// A READ or WRITE under way: its ticket, and how many bytes it asks for or carries.
///
/// Used in `crates/sftp_streams/src/upload.rt`.
#[must_use]
pub struct Part {
    pub(crate) ticket: Ticket,
    pub(crate) len: u32,
}

/// The answer of a core to a part.
pub(crate) enum Answer {
    /// The reply that was taken.
    Came(Reply),
    /// It was not taken, and the core has recorded no fault.
    Missing(Ticket),
    /// It was not taken, and the core has recorded this fault.
    Failed(Fault),
}

/// The reason that a request was not submitted.
#[derive(Clone, Copy)]
pub(crate) enum Unasked {
    /// An allocation failed, or no id was free.
    Short,
    /// The core has recorded this fault.
    Failed(Fault),
}

/// Takes the reply to a request that is never answered by a HANDLE, if it came. The ticket is consumed then, and also
/// by a recorded fault.
pub(crate) fn take_reply(core: &mut Core, ticket: Ticket) -> Answer
    requires { AwaitsPlain core.old ticket }
    ensures { IsAnswer core.old core.new ticket result }
{
    match core.poll(ticket) {
        Ok(Polled::Reply(reply)) => Answer::Came(reply),
        Ok(Polled::Granted(_grant)) => unreachable!(),
        Ok(Polled::Failed(fault)) => Answer::Failed(fault),
        Err(ticket) => Answer::Missing(ticket),
    }
}

/// Abandons the tickets of parts, the first one first.
#[tactic(auto, using(crate::proofs::CancelLaws::abandons_first, crate::proofs::CancelLaws::abandons_ticket, crate::proofs::CancelLaws::abandons_next, crate::proofs::CancelLaws::abandons_all))]
pub(crate) fn abandon_parts(parts: VecDeque<Part>, core: &mut Core)
    requires { (kind : KindOf) × AreAwaited kind core.old parts.items }
    ensures { core.new ≡ without_parts core.old parts.items }
{
    let mut parts = parts;
    while let Some(part) = parts.pop_front() {
        let Part { ticket, len: _ } = part;
        core.abandon(ticket);
    }
    parts.destroy_empty();
}
