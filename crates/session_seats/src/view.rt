//! A seat's knowledge of the shared session. Except for `Receipt` no values of the types are made: they occur in
//! contracts.
use session_model::{Entry, Lane};
use sftp_model::{Reply, SftpOptions};
use std::collections::LinkedList;

/// An entry that a seat made, and its place in the journal, from 0 on.
///
/// Example: `crates/example_threads/src/receipts.rt`.
#[derive(Drop)]
pub struct Receipt {
    pub place: u64,
    pub entry: Entry,
}

/// Numbers of a shared session that never fall, the hello and VERSION included: the frames that were handed out, those
/// of them that were written whole, the frames that were taken, the stage of the end, and the number of the session's
/// phase. The stage is 0 while there are users, 1 once the last one has left, and 2 once that is settled. The phase is
/// 0 at first, and another number in each phase.
///
/// Used by the functions of this module.
pub struct Counts {
    pub handed: u64,
    pub written: u64,
    pub taken: u64,
    pub stage: u64,
    pub phase: u64,
}

/// An entry, and the number of the seat that made it.
///
/// Used by the functions of this module.
pub struct Stamp {
    pub by: u64,
    pub entry: Entry,
}

/// A seat: the one that gave it, and the lane that it names.
///
/// Used by the functions of this module.
pub struct SeatName {
    pub by: u64,
    pub lane: Option<u32>,
}

/// The sight of a session: the journal so far and the seats that were given, each with the newest first; what the
/// session was made of, VERSION once it was taken, and the counts.
///
/// Used by the functions of this module.
pub struct Sight {
    pub log: LinkedList<Stamp>,
    pub seats: LinkedList<SeatName>,
    pub lanes: LinkedList<Lane>,
    pub options: SftpOptions,
    pub version: Option<Reply>,
    pub counts: Counts,
}

/// A seat's number, its share among the users, how many frames it handed out and has not reported as written, and what
/// it has seen. All that the seat made and gave is in that.
///
/// Used by the functions of this module.
pub struct Claim {
    pub number: u64,
    pub share: u64,
    pub unwritten: u64,
    pub sight: Sight,
}

/// A seat's knowledge: its own claim first, and those of the seats that it has taken in. While it has the lock, also
/// how many users there were when it took it.
///
/// Used in `crates/session_seats/src/rule.rt`.
pub struct View {
    pub right: bool,
    pub users: u64,
    pub claims: LinkedList<Claim>,
}
