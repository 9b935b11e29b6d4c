//! Events of a session.
use sftp_model::{Outcome, Reply, Request};

/// The owner of a request, on whose behalf it is submitted.
///
/// Example: `crates/session_work/src/journal.rt`.
#[derive(Clone, Copy, Debug, PartialEq, Eq)]
pub enum Owner {
    /// A call of a lane, each by its number.
    Call { lane: u32, call: u32 },
    /// The session's opening, which asks for the server's limits.
    Setup,
    /// The session itself, which closes a handle that nothing holds any more.
    Close,
}

/// An event of a session.
///
/// Example: `crates/sftp_share/src/trace.rt`.
#[derive(Debug, Drop, PartialEq, Eq)]
pub enum Event {
    /// A request was put into the queue.
    Submit {
        owner: Owner,
        id: u32,
        request: Request,
    },
    /// All that was queued was handed out to be sent.
    Send,
    /// The reply to the request with this id was taken.
    Take {
        id: u32,
        reply: Reply,
    },
    /// The call of this lane was cancelled. Its end comes next.
    Cancel {
        lane: u32,
    },
    /// A call ended.
    End {
        lane: u32,
        call: u32,
        outcome: Outcome,
    },
}
