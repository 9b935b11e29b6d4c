//! The numbers of RFC 4254 and of OpenSSH's PROTOCOL.mux under their names, and the bounds of this crate.
//!
//! Each number is stated again in `specs/Numbers.antt`: the proofs fail for a wrong one here.

// ---- types of messages (RFC 4254, section 9)

/// Asks for something that belongs to no channel (section 4).
pub(crate) const SSH_MSG_GLOBAL_REQUEST: u8 = 80;

/// Refuses such a request (section 4).
pub(crate) const SSH_MSG_REQUEST_FAILURE: u8 = 82;

/// Opens a channel (section 5.1).
pub(crate) const SSH_MSG_CHANNEL_OPEN: u8 = 90;

/// Confirms that a channel was opened (section 5.1).
pub(crate) const SSH_MSG_CHANNEL_OPEN_CONFIRMATION: u8 = 91;

/// Refuses to open a channel (section 5.1).
pub(crate) const SSH_MSG_CHANNEL_OPEN_FAILURE: u8 = 92;

/// Makes the window of the other side larger (section 5.2).
pub(crate) const SSH_MSG_CHANNEL_WINDOW_ADJUST: u8 = 93;

/// Carries bytes of the stream (section 5.2).
pub(crate) const SSH_MSG_CHANNEL_DATA: u8 = 94;

/// Carries bytes of another stream, such as standard error (section 5.2).
pub(crate) const SSH_MSG_CHANNEL_EXTENDED_DATA: u8 = 95;

/// Ends the stream (section 5.3).
pub(crate) const SSH_MSG_CHANNEL_EOF: u8 = 96;

/// Closes a channel (section 5.3).
pub(crate) const SSH_MSG_CHANNEL_CLOSE: u8 = 97;

/// Asks for something that belongs to a channel (section 5.4).
pub(crate) const SSH_MSG_CHANNEL_REQUEST: u8 = 98;

/// Grants such a request (section 5.4).
pub(crate) const SSH_MSG_CHANNEL_SUCCESS: u8 = 99;

/// Refuses such a request (section 5.4).
pub(crate) const SSH_MSG_CHANNEL_FAILURE: u8 = 100;

// ---- messages of OpenSSH's PROTOCOL.mux

/// The hello of each side, with its version.
pub(crate) const MUX_MSG_HELLO: u32 = 0x0000_0001;

/// Asks for proxy mode.
pub(crate) const MUX_C_PROXY: u32 = 0x1000_000f;

/// Grants proxy mode.
pub(crate) const MUX_S_PROXY: u32 = 0x8000_000f;

/// The version of the multiplexing protocol.
pub(crate) const MUX_VERSION: u32 = 4;

// ---- bounds of this crate

/// The number of the channel on this side. Each channel has a connection of its own to the master.
pub(crate) const CHANNEL: u32 = 0;

/// The window that the server gets: the most bytes that came and were not yet consumed, or not yet reported as
/// consumed.
pub(crate) const WINDOW: usize = 2_097_152;

/// The number of consumed bytes from which on the window is adjusted.
pub(crate) const ADJUST_AT: usize = 1_048_576;

/// The most payload bytes that the server may send in one message.
pub(crate) const MAX_PACKET: u32 = 32_768;

/// The most bytes of a message that is received, as RFC 4253, section 6.1, asks for.
pub(crate) const MAX_BODY: usize = 35_000;
