//! The reasons why a channel cannot be used any more.
use thiserror::Error;

/// The reason why a channel cannot be used any more. Bytes that came before are still returned; then each call fails.
///
/// Example: `README.md` of this crate.
#[derive(Clone, Copy, Debug, PartialEq, Eq, Error)]
pub enum Refusal {
    /// A message is not one of RFC 4254, or has too few or too many bytes.
    #[error("the master sent a message that is not one of SSH's")]
    Malformed,
    /// A message is longer than 35000 bytes.
    #[error("the master sent a message of {0} bytes")]
    TooLong(u32),
    /// A message names another channel.
    #[error("the master sent a message for channel {0}")]
    OtherChannel(u32),
    /// The server sent more bytes than its window allows.
    #[error("the server sent more than its window")]
    OverWindow,
    /// The server granted a window of more than 4294967295 bytes.
    #[error("the server granted a window that is too large")]
    LargeGrant,
    /// A message is not allowed on an open channel, or bytes came after the end of the stream.
    #[error("the master sent a message that nobody asked for")]
    Unexpected,
    /// The connection to the master ended or failed before the channel was closed.
    #[error("the connection to the master was lost")]
    Lost,
    /// The server closed the channel, and bytes were to be sent.
    #[error("the server closed the channel")]
    Closed,
    /// 4294967295 messages came while one call waited, and none was what it waited for.
    #[error("the master sent only messages for other purposes")]
    Idle,
}
