//! Tests of whether a journal belongs to a run that has ended.
ghost use Rattle.std.specs.Prelude.{◌≡◌, ◌&&◌, ◌==◌, filter, length};
ghost use Rattle.std.specs.List.{list_all};
ghost use Rattle.session_threads.specs.RunEnds.{is_handed_in, is_let_go, is_submit, is_take};

use session_model::{Entry, Event};

/// Returns true if an entry adds no call and cancels none.
fn is_handed_in(entry: &Entry) -> bool
    ensures { result ≡ is_handed_in entry.now }
{
    match entry {
        Entry::Added { .. } => false,
        Entry::Event(Event::Cancel { .. }) => false,
        _ => true,
    }
}

fn is_submit(entry: &Entry) -> bool
    ensures { result ≡ is_submit entry.now }
{
    match entry {
        Entry::Event(Event::Submit { .. }) => true,
        _ => false,
    }
}

fn is_take(entry: &Entry) -> bool
    ensures { result ≡ is_take entry.now }
{
    match entry {
        Entry::Event(Event::Take { .. }) => true,
        _ => false,
    }
}

fn is_let_go(entry: &Entry) -> bool
    ensures { result ≡ is_let_go entry.now }
{
    match entry {
        Entry::LetGo { .. } => true,
        _ => false,
    }
}

/// Returns how many requests are submitted.
fn submits(journal: &[Entry]) -> u64
    ensures { result ≡ length (filter is_submit journal.now) }
{
    let mut count = 0u64;
    for entry in journal {
        if is_submit(entry) {
            count += 1;
        }
    }
    count
}

/// Returns how many replies are taken.
fn takes(journal: &[Entry]) -> u64
    ensures { result ≡ length (filter is_take journal.now) }
{
    let mut count = 0u64;
    for entry in journal {
        if is_take(entry) {
            count += 1;
        }
    }
    count
}

/// Returns how often a lane is released.
fn lanes_let_go(journal: &[Entry]) -> u64
    ensures { result ≡ length (filter is_let_go journal.now) }
{
    let mut count = 0u64;
    for entry in journal {
        if is_let_go(entry) {
            count += 1;
        }
    }
    count
}

/// Returns true if no call was added or cancelled.
fn all_handed_in(journal: &[Entry]) -> bool
    ensures { result ≡ list_all is_handed_in journal.now }
{
    journal.iter().all(
        |entry: &Entry| -> bool
            ensures { result ≡ is_handed_in entry.now }
        { is_handed_in(entry) },
    )
}

/// Returns true if this many lanes were released, each request has its reply, and no call was added or cancelled.
pub(crate) fn is_ended(journal: &[Entry], lanes: usize) -> bool
    ensures { result ≡ (list_all is_handed_in journal.now
        && (length (filter is_submit journal.now) == length (filter is_take journal.now))
        && (length (filter is_let_go journal.now) == lanes)) }
{
    all_handed_in(journal)
        && submits(journal) == takes(journal)
        && lanes_let_go(journal) == lanes as u64
}
