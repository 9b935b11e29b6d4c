//! The limits of a server, and the configuration of the server in memory.
use crate::flags::Extensions;

/// The reply to the query for limits, each number 0 if the server sets none (OpenSSH's PROTOCOL, section 4.8).
///
/// Example: `crates/test_wire/src/wire/replies.rt`.
#[derive(Clone, Copy, Debug, PartialEq, Eq)]
pub struct Limits {
    /// The most bytes of a frame.
    pub packet_len: u64,
    /// The most bytes of a READ.
    pub read_len: u64,
    /// The most bytes of a WRITE.
    pub write_len: u64,
    /// The most handles that are open at once.
    pub open_handles: u64,
}

/// The extensions and limits that a server offers. The extension for limits is advertised exactly if `limits` is Some,
/// whatever the set says.
///
/// Example: `crates/example_threads/src/receipts.rt`.
#[derive(Clone, Copy, Debug, PartialEq, Eq)]
pub struct ServerConfig {
    /// The extensions that it advertises.
    pub extensions: Extensions,
    /// The reply to the query for limits.
    pub limits: Option<Limits>,
    /// The most bytes that one send or receive moves; 0 is no limit.
    pub cut: u32,
}

/// The choice of the file machine for one request.
///
/// Example: `crates/test_client/src/server.rt`.
#[derive(Clone, Copy, Debug, PartialEq, Eq)]
pub struct Choice {
    /// The status code to refuse it with; 0 to process it.
    pub refuse: u32,
    /// The most bytes of a DATA; 0 is no limit.
    pub cap: u32,
}
