//! The conditions that a call waits for.

/// A condition that a call waits for.
#[derive(Clone, Copy, Debug, PartialEq, Eq)]
pub(crate) enum Condition {
    /// Bytes are ahead, or no more come.
    Readable,
    /// Bytes may be sent, or the channel is closed.
    Writable,
    /// The reply to the request for the subsystem came, or the channel is closed.
    Answered,
    /// The channel is closed.
    Closed,
}
