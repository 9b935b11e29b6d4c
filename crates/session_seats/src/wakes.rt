//! The threads that a hold of the shared value concerns.
ghost use Rattle.std.specs.Prelude.{◌≡◌, ◌≤◌, reverse, length, take, drop};
ghost use Rattle.session_seats.specs.Wakes.{concerns, entries_concern, lane_union, lanes_of, nobody, submits, submitter, wakes_reader, with_entry, with_tide};

use session_model::{Entry, Event, Owner};

/// A thread that waits, named by the changes that concern it.
///
/// Used in `crates/sftp_tasks/src/workers.rt`.
#[derive(Clone, Copy)]
pub enum Waiter {
    /// It waits for frames to send, and for the end.
    Sender,
    /// It waits for frames that were written whole, and for the last reply.
    Reader,
    /// It waits for replies to this lane's requests, and for the session to open.
    Lane(u32),
}

/// The numbers of a shared value by which a hold may concern threads that wait.
///
/// Used in `crates/sftp_tasks/src/locked.rt`.
#[derive(Clone, Copy)]
pub struct Tide {
    /// The frames that were written whole.
    pub written: u64,
    /// The stage of the end.
    pub stage: u64,
    /// The number of the session's phase.
    pub phase: u64,
}

/// A set of lanes.
///
/// Used by the functions of this module.
#[derive(Clone, Copy)]
pub enum LaneSet {
    /// No lane.
    Empty,
    /// One lane.
    One(u32),
    /// All lanes.
    All,
}

/// The threads that a change concerns.
///
/// Used in `crates/session_seats/src/waits.rt`.
#[derive(Clone, Copy)]
pub struct WakeSet {
    pub sender: bool,
    pub reader: bool,
    pub lanes: LaneSet,
}

impl WakeSet {
    /// Returns true if the set has the reader. A lane without a count of its own, if there are `count` counts, waits as
    /// the reader does.
    pub(crate) fn wakes_reader(&self, count: usize) -> bool
        ensures { result ≡ wakes_reader count self.now }
    {
        if self.reader {
            return true;
        }
        match self.lanes {
            LaneSet::Empty => false,
            LaneSet::One(lane) => count <= lane as usize,
            LaneSet::All => true,
        }
    }
}

/// Returns the set of no thread.
pub(crate) fn nobody() -> WakeSet
    ensures { result ≡ nobody }
{
    WakeSet {
        sender: false,
        reader: false,
        lanes: LaneSet::Empty,
    }
}

/// Returns the owner of the request with the id, if the entry submits it.
fn owner_in(entry: &Entry, id: u32) -> Option<Owner>
    ensures { result ≡ submits id entry.now }
{
    match entry {
        Entry::Event(
            Event::Submit {
                owner,
                id: submitted,
                ..
            },
        ) => { if *submitted == id { Some(*owner) } else { None } }
        _ => None,
    }
}

/// Returns the owner of the last request that was submitted with the id.
fn submitter(journal: &[Entry], id: u32) -> Option<Owner>
    ensures { result ≡ submitter id (reverse journal.now) }
{
    let mut left = journal;
    while let [earlier @ .., last] = left {
        if let Some(owner) = owner_in(last, id) {
            return Some(owner);
        }
        left = earlier;
    }
    None
}

/// Returns the lanes that wait for the reply to a request of this owner.
fn lanes_of(owner: Option<Owner>) -> LaneSet
    ensures { result ≡ lanes_of owner }
{
    match owner {
        Some(Owner::Call { lane, .. }) => LaneSet::One(lane),
        Some(_) => LaneSet::Empty,
        None => LaneSet::All,
    }
}

/// Returns the lanes of both sets, or all lanes.
fn lane_union(a: LaneSet, b: LaneSet) -> LaneSet
    ensures { result ≡ lane_union a b }
{
    match (a, b) {
        (LaneSet::Empty, b) => b,
        (LaneSet::One(a), LaneSet::Empty) => LaneSet::One(a),
        (LaneSet::One(a), LaneSet::One(b)) => {
            if a == b {
                LaneSet::One(a)
            } else {
                LaneSet::All
            }
        }
        _ => LaneSet::All,
    }
}

/// Returns the set with those whom the entry concerns, which came after the journal.
fn with_entry(entry: &Entry, journal: &[Entry], set: WakeSet) -> WakeSet
    ensures { result ≡ with_entry entry.now (reverse journal.now) set }
{
    match entry {
        Entry::Event(Event::Submit { .. }) => WakeSet {
            sender: true,
            reader: set.reader,
            lanes: set.lanes,
        },
        Entry::Event(Event::Take { id, .. }) => WakeSet {
            sender: set.sender,
            reader: true,
            lanes: lane_union(lanes_of(submitter(journal, *id)), set.lanes),
        },
        _ => set,
    }
}

/// Returns those whom the entries from the place on concern.
fn entries_concern(journal: &[Entry], from: usize) -> WakeSet
    requires { from ≤ length journal.now }
    ensures { result ≡ entries_concern (reverse (drop from journal.now)) (reverse (take from journal.now)) }
{
    let mut set = nobody();
    for place in from..journal.len() {
        set = with_entry(&journal[place], &journal[..place], set);
    }
    set
}

/// Returns the set with those whom the change of the numbers concerns.
pub(crate) fn with_tide(before: Tide, after: Tide, set: WakeSet) -> WakeSet
    ensures { result ≡ with_tide before after set }
{
    if after.phase != before.phase {
        return WakeSet {
            sender: true,
            reader: true,
            lanes: LaneSet::All,
        };
    }
    let mut set = set;
    if after.stage != before.stage {
        set.sender = true;
        set.reader = true;
    } else if after.written != before.written {
        set.reader = true;
    }
    set
}

/// Returns those whom a hold concerns that added to the journal the entries from the place on.
pub(crate) fn concerned(before: Tide, after: Tide, journal: &[Entry], from: usize) -> WakeSet
    requires { from ≤ length journal.now }
    ensures { result ≡ concerns before after (reverse (drop from journal.now)) (reverse (take from journal.now)) }
{
    with_tide(before, after, entries_concern(journal, from))
}
