//! The server's reply to the request for the subsystem.

/// The server's reply to the request for the subsystem.
#[derive(Clone, Copy, Debug, PartialEq, Eq)]
pub(crate) enum SubsystemReply {
    /// It has not come yet.
    Awaited,
    /// The subsystem was started.
    Granted,
    /// The server has no such subsystem.
    Refused,
}
