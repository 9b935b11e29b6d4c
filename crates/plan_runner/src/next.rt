//! The states and steps of runners.
use plan_window::Window;
use sftp_model::{Content, FileAt, FileAttrs, NameEntry, OpenFlags, Outcome, Request};
use sftp_values::{ByteText, Items};

/// A request whose handles are named by the places of their grants: of the OPENs that brought them.
///
/// Example: `crates/session_work/src/requests.rt`.
#[derive(Debug, Drop)]
pub enum Asked {
    /// A request without a handle.
    Plain(Request),
    /// CLOSE.
    Close {
        grant: u64,
    },
    /// READ of at most `len` bytes.
    Read {
        grant: u64,
        offset: u64,
        len: u32,
    },
    /// WRITE.
    Write {
        grant: u64,
        offset: u64,
        content: Content,
    },
    /// FSTAT.
    Fstat {
        grant: u64,
    },
    /// FSETSTAT.
    Fsetstat {
        grant: u64,
        attrs: FileAttrs,
    },
    /// READDIR.
    Readdir {
        grant: u64,
    },
    /// `fsync@openssh.com`.
    Fsync {
        grant: u64,
    },
    /// `copy-data`.
    CopyData {
        from: u64,
        from_offset: u64,
        len: u64,
        to: u64,
        to_offset: u64,
    },
}

/// The kind of reply that ends a call of one request that changes no slot.
///
/// Used in `crates/plan_runner/src/single.rt`.
#[derive(Clone, Copy, Debug, PartialEq, Eq)]
pub enum EndsBy {
    /// A STATUS of OK.
    Status,
    /// ATTRS, which the call returns.
    Attributes,
    /// A NAME, of which the call returns the first name.
    FirstName,
}

/// A started call. Its place is that of the request whose reply is awaited.
///
/// Example: `crates/session_work/src/lane.rt`.
#[derive(Debug, Drop)]
pub enum Running {
    /// The reply ends the call, and no slot changes.
    Ending {
        place: u64,
        by: EndsBy,
    },
    /// An OPEN awaits its reply.
    Opening {
        place: u64,
        slot: u8,
        flags: OpenFlags,
    },
    /// A READ of one `read` awaits its reply.
    Reading {
        place: u64,
        slot: u8,
        file: FileAt,
        len: u32,
    },
    /// A READ of a `read_all` awaits its reply: the bytes received so far, and the number of those left.
    Gathering {
        place: u64,
        slot: u8,
        file: FileAt,
        got: ByteText,
        left: u64,
        len: u32,
    },
    /// The WRITE of a `write` awaits its reply.
    Sending {
        place: u64,
        slot: u8,
        file: FileAt,
        len: u32,
    },
    /// The WRITE of a part awaits its reply: of the bytes from `done` on, to a file in a slot or in none.
    Writing {
        place: u64,
        slot: Option<u8>,
        file: FileAt,
        done: usize,
    },
    /// The OPEN of a whole write awaits its reply.
    OpeningToWrite {
        place: u64,
    },
    /// The OPEN of a whole read awaits its reply; this many DATA may come.
    OpeningToRead {
        place: u64,
        bound: u32,
    },
    /// A whole read continues by its window: the reply to the first READ in flight is awaited, and this many DATA may
    /// come.
    ReadingWhole {
        grant: u64,
        bound: u32,
        window: Window,
    },
    /// An OPENDIR awaits its reply; this many READDIRs may follow.
    OpeningDirectory {
        place: u64,
        bound: u32,
    },
    /// A READDIR awaits its reply: the entries received so far, and the number of READDIRs that may be made, including
    /// this one.
    Listing {
        place: u64,
        grant: u64,
        got: Items<NameEntry>,
        bound: u32,
    },
    /// A flush awaits the status of the oldest deferred write.
    Flushing {
        slot: u8,
    },
    /// At a full window a buffered write awaits the status of the oldest deferred write: one of the call's first bytes,
    /// or of those from `done` on.
    AwaitingRoom {
        slot: u8,
        done: Option<usize>,
    },
    /// The WRITE of a `buf_write` was deferred, and no reply is awaited.
    Deferred {
        slot: u8,
        count: u32,
    },
    /// A WRITE of a `buf_write_all` was deferred, and no reply is awaited: the bytes from `done` on are left.
    DeferringRest {
        slot: u8,
        done: usize,
    },
    /// A READ that fills the buffer from this offset on awaits its reply, for the first `n` of its bytes. It is the
    /// call's own, or was in flight before.
    FillingBuffer {
        slot: u8,
        n: u64,
        offset: u64,
        own: bool,
    },
    /// A `copy-data` awaits its reply.
    Copying {
        place: u64,
        from: u8,
        to: u8,
        source: FileAt,
        target: FileAt,
        len: u64,
    },
}

/// The next step of a call.
///
/// Example: `crates/session_work/src/call.rt`.
#[derive(Debug, Drop)]
pub enum Next {
    /// This request is asked, and the call continues with its reply.
    Ask(Asked, Running),
    /// The reply that the call awaits has not come.
    Wait(Running),
    /// The call ends.
    Done(Outcome),
}
