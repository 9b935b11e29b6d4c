//! The greeting of a session.
ghost use Rattle.std.specs.Prelude.{◌≡◌};
ghost use Rattle.sftp_core.specs.Info.{info_of, hello_of};

use crate::info::Info;
use sftp_model::Extensions;

/// The state of a session's greeting (draft-ietf-secsh-filexfer-02, section 4).
///
/// Used in `crates/sftp_core/src/pipeline/replies.rt`.
#[derive(Clone, Copy, Debug, PartialEq, Eq)]
pub enum Handshake {
    /// VERSION was not taken.
    Greeting,
    /// VERSION was taken, and the reply to the query for limits was not.
    Asking { extensions: Extensions },
    /// Calls may submit requests.
    Open(Info),
}

impl Handshake {
    /// Returns the facts known about the server, once the greeting is over.
    pub(crate) fn info(self) -> Option<Info>
        ensures { result ≡ info_of self }
    {
        match self {
            Handshake::Open(info) => Some(info),
            Handshake::Greeting | Handshake::Asking { .. } => None,
        }
    }

    /// Returns 1 for the hello while its VERSION was not taken.
    pub(crate) fn hello(self) -> u32
        ensures { result ≡ hello_of self }
    {
        match self {
            Handshake::Greeting => 1,
            Handshake::Asking { .. } | Handshake::Open(_) => 0,
        }
    }
}
