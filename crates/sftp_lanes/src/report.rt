//! Reports of a session's journal.
ghost use Rattle.std.specs.Prelude.{◌≡◌, ◌≤◌, [], length, reverse, vec_capacity};
ghost use Rattle.session_model.specs.Readings.{trace_of};

use session_model::{Entry, Event};
use sftp_values::Items;

/// Returns the events of a journal, the first one first, in an empty list that has room for them.
pub(crate) fn events_of(journal: Vec<Entry>, empty: Vec<Event>) -> Items<Event>
    requires empty { empty.items ≡ [] }
    requires room { length journal.items ≤ vec_capacity empty }
    ensures { result ≡ trace_of (reverse journal.items) }
{
    let mut events = empty;
    for entry in journal {
        if let Entry::Event(event) = entry {
            events.push_reserved(event);
        }
    }
    Items::new(events)
}
