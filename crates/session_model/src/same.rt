//! Comparisons of turns, owners, events and entries for equality.
ghost use Rattle.session_model.specs.Same.{turn_decides, owner_decides, event_decides, entry_decides};

use crate::entry::Entry;
use crate::event::{Event, Owner};
use crate::turn::Turn;
use sftp_values::Same;

impl Same for Turn {
    ghost decides = { turn_decides };
}

impl Same for Owner {
    ghost decides = { owner_decides };
}

impl Same for Event {
    ghost decides = { event_decides };
}

impl Same for Entry {
    ghost decides = { entry_decides };
}
