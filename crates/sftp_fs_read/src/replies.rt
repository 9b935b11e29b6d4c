//! Replies to the READs under way, in their order.
ghost use Rattle.std.specs.Prelude.{◌≡◌, ◌≢◌, None, Some};
ghost use Rattle.sftp_model.specs.declared.answers.Expected.TheVariants as expected;
ghost use Rattle.plan_window.specs.Windows.{first_of};
ghost use Rattle.plan_window.specs.declared.window.ReadAt.{ReadAt};
ghost use Rattle.plan_state.specs.Asked.{HoldsTicket, IsReady};
ghost use Rattle.sftp_fs_read.specs.Hearing.{HasHeard, IsFirst};
ghost use Rattle.sftp_fs_read.specs.Tickets.{AreUnderWay};

use crate::reads::Reads;
use crate::tickets::{Answer, take_reply};
use sftp_core::{Core, Ticket};
use sftp_model::Error;
use std::collections::VecDeque;

/// The state of the reply to the first READ under way.
///
/// Used by the functions of this module.
pub enum First {
    /// It was taken: these are the READs after it.
    Came(Reads),
    /// It is missing, and the core has recorded no fault.
    Missing(Ticket, Reads),
    /// The read is over.
    Over(Error),
}

/// The state of the replies to the READs under way.
///
/// Used in `crates/sftp_fs_read/src/fs_read.rt`.
pub enum Heard {
    /// The next one is missing, or no READ is under way.
    Missing(Reads, VecDeque<Ticket>),
    /// The read is over, and these tickets are left.
    Over(Error, VecDeque<Ticket>),
}

/// Takes the reply to the first READ under way.
fn hear_first(core: &mut Core, reads: Reads, ticket: Ticket) -> First
    requires some { first_of reads.window.waiting ≢ None }
    requires held { (r : ReadAt) → first_of reads.window.waiting ≡ Some r → HoldsTicket core.old ticket (expected.Content r.len) }
    ensures { IsFirst core.old core.new reads ticket result }
{
    let Some(len) = reads.first_len() else {
        unreachable!()
    };
    match take_reply(core, ticket, len) {
        Answer::Came(reply) => match reads.replied(reply) {
            Ok(next) => First::Came(next),
            Err(e) => First::Over(e),
        },
        Answer::Missing(ticket) => First::Missing(ticket, reads),
        Answer::Failed(fault) => First::Over(Error::BackgroundTaskFailure(fault)),
    }
}

/// Takes the replies to the READs under way, until one is missing or ends the read.
pub(crate) fn hear(core: &mut Core, reads: Reads, tickets: VecDeque<Ticket>) -> Heard
    requires under_way { AreUnderWay core.old reads.window.waiting tickets.items }
    requires ready { IsReady core.old }
    ensures { HasHeard core.old core.new reads tickets.items result }
{
    let (mut reads, mut tickets) = (reads, tickets);
    while let Some(ticket) = tickets.pop_front() {
        match hear_first(core, reads, ticket) {
            First::Came(next) => reads = next,
            First::Missing(ticket, same) => {
                tickets.push_front_reserved(ticket);
                return Heard::Missing(same, tickets);
            }
            First::Over(e) => return Heard::Over(e, tickets),
        }
    }
    Heard::Missing(reads, tickets)
}
