//! Copies of events and entries.
use crate::entry::Entry;
use crate::event::Event;
use sftp_model::TryCopy;
use ssh_encoding::OutOfMemory;
use std::alloc::Global;

impl TryCopy for Event {
    fn try_copy(&self, alloc: Global) -> Result<Event, OutOfMemory> {
        match self {
            Event::Submit { owner, id, request } => Ok(Event::Submit {
                owner: *owner,
                id: *id,
                request: request.try_copy(alloc)?,
            }),
            Event::Send => Ok(Event::Send),
            Event::Take { id, reply } => Ok(Event::Take {
                id: *id,
                reply: reply.try_copy(alloc)?,
            }),
            Event::Cancel { lane } => Ok(Event::Cancel { lane: *lane }),
            Event::End {
                lane,
                call,
                outcome,
            } => Ok(Event::End {
                lane: *lane,
                call: *call,
                outcome: outcome.try_copy(alloc)?,
            }),
        }
    }
}

impl TryCopy for Entry {
    fn try_copy(&self, alloc: Global) -> Result<Entry, OutOfMemory> {
        match self {
            Entry::Event(event) => Ok(Entry::Event(event.try_copy(alloc)?)),
            Entry::Added { lane, call } => Ok(Entry::Added {
                lane: *lane,
                call: call.try_copy(alloc)?,
            }),
            Entry::LetGo { lane } => Ok(Entry::LetGo { lane: *lane }),
            Entry::Kept(fault) => Ok(Entry::Kept(*fault)),
        }
    }
}
