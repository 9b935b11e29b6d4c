//! The record that a core keeps under an id.
ghost use Rattle.std.specs.Prelude.{◌≡◌};
ghost use Rattle.sftp_core.specs.Table.{sent_record, tally, is_waiting, is_owing, asks_handle, handle_in_reply};

use sftp_model::{Expected, Handle, Reply};

/// The record that a core keeps under one id: a request without its reply, a reply whose ticket is out, or a grant.
///
/// Example: `crates/sftp_core/src/table.rt`.
#[derive(Debug, Drop)]
pub enum IdRecord {
    /// A request of this kind. `sent`: it was handed out. `wanted`: its ticket is out.
    Waiting {
        expected: Expected,
        sent: bool,
        wanted: bool,
    },
    /// The reply to a request of this kind, whose ticket is out.
    Answered {
        expected: Expected,
        reply: Reply,
    },
    /// The handle of a HANDLE reply, with this many users.
    Granted {
        handle: Handle,
        users: u32,
    },
}

impl IdRecord {
    /// Marks a waiting request as handed out.
    pub(crate) fn mark_sent(&mut self)
        ensures { self.new ≡ sent_record self.old }
    {
        if let IdRecord::Waiting { sent, .. } = self {
            *sent = true;
        }
    }

    /// Returns 1 for a request without its reply, otherwise 0.
    pub(crate) fn waiting(&self) -> usize
        ensures { result ≡ tally is_waiting self.now }
    {
        match self {
            IdRecord::Waiting { .. } => 1,
            _ => 0,
        }
    }

    /// Returns 1 if a CLOSE may still have to be queued, otherwise 0.
    pub(crate) fn owing(&self) -> usize
        ensures { result ≡ tally is_owing self.now }
    {
        match self {
            IdRecord::Waiting { expected, .. } | IdRecord::Answered { expected, .. } => {
                asks_handle(*expected) as usize
            }
            IdRecord::Granted { .. } => 1,
        }
    }
}

/// Returns true if a request of this kind is answered by a handle.
fn asks_handle(expected: Expected) -> bool
    ensures { result ≡ asks_handle expected }
{
    matches!(expected, Expected::Handle)
}

/// Returns the handle that a reply brings.
pub(crate) fn handle_in(reply: &Reply) -> Option<Handle>
    ensures { result ≡ handle_in_reply reply.now }
{
    match reply {
        Reply::Handle(handle) => Some(handle.copied()),
        _ => None,
    }
}
