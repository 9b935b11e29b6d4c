//! The tickets and grants that a core hands out and takes back. Neither can be created or copied elsewhere, nor dropped
//! without the `Ended` of its core.
ghost use Rattle.std.specs.Prelude.{◌≡◌};

use crate::pipeline::Ended;
use sftp_model::{Fault, Handle, Reply};
use std::marker::Model;

/// The name of one submitted request. A contract sees it as the request's id.
///
/// It does not distinguish two cores: the caller must pass it to the core that it came from.
///
/// Example: `crates/sftp_file/src/short_calls.rt`.
#[must_use]
pub struct Ticket {
    pub(crate) id: u32,
}

impl Model for Ticket {
    ghost use Rattle.std.specs.Prelude.{ℕ};

    ghost Value = { ℕ };

    ghost view = { λ t. t.id };
}

impl Ticket {
    /// Returns the id of the request.
    pub fn id(&self) -> u32
        ensures { result ≡ self.now }
    {
        self.id
    }

    /// Releases a ticket of a core that was ended.
    pub fn let_go(self, _core: Ended) {
        let Ticket { id: _ } = self;
    }
}

/// The name of one HANDLE reply, and one user of its handle. A contract sees it as the id and the handle.
///
/// Used in `crates/sftp_fs/src/grants.rt`.
#[must_use]
pub struct Grant {
    pub(crate) id: u32,
    pub(crate) handle: Handle,
}

impl Model for Grant {
    ghost use Rattle.sftp_core.specs.Grant.{GrantValue};

    ghost Value = { GrantValue };

    ghost view = { λ g. record { id = g.id; handle = g.handle } };
}

impl Grant {
    /// Returns the id of the OPEN or OPENDIR, under which the grant is kept.
    pub fn id(&self) -> u32
        ensures { result ≡ self.now.id }
    {
        self.id
    }

    /// Returns the handle, of at most 256 bytes.
    pub fn handle(&self) -> &Handle
        ensures { result.now ≡ self.now.handle }
    {
        &self.handle
    }

    /// Releases a grant of a core that was ended.
    pub fn let_go(self, _core: Ended) {
        let Grant { id: _, handle: _ } = self;
    }
}

/// The result of a poll.
///
/// Used in `crates/plan_state/src/told.rt`.
pub enum Polled {
    /// The reply, which was no HANDLE.
    Reply(Reply),
    /// The HANDLE, with one user.
    Granted(Grant),
    /// No reply had come, and this fault is kept.
    Failed(Fault),
}

/// The kind of frame that was taken.
///
/// Used in `crates/sftp_core/src/pipeline/replies.rt`.
#[derive(Debug, Drop, PartialEq, Eq)]
pub enum Taken {
    /// VERSION.
    Version(Reply),
    /// The reply to the core's query for limits.
    Limits { id: u32, reply: Reply },
    /// The reply to a submitted request.
    Answer { id: u32, reply: Reply },
}
