//! Waits for a change of the shared value. The only guarantee is that a call which returns has changed nothing.
ghost use Rattle.std.specs.Prelude.{◌≡◌, map, IfOk};
ghost use Rattle.session_seats.specs.Wakes.{change_counts, count_of, counts_after, next_count, raised_at};

use crate::rule::Held;
use crate::shared::Shared;
use crate::wakes::{LaneSet, Waiter, WakeSet};
use ssh_encoding::OutOfMemory;
use std::alloc::Global;
use std::sync::{Condvar, Wait};

/// The numbers of changes that concerned the sender, the reader and each lane.
#[derive(Drop)]
pub(crate) struct Gate {
    sender: u64,
    reader: u64,
    lanes: Vec<u64>,
}

impl Gate {
    /// Returns the counts for this many lanes. Fails if an allocation fails.
    pub(crate) fn new(alloc: Global, lanes: usize) -> Result<Gate, OutOfMemory> {
        let mut counts = Vec::new(alloc);
        for _ in 0..lanes {
            counts.push(0)?;
        }
        Ok(Gate {
            sender: 0,
            reader: 0,
            lanes: counts,
        })
    }

    /// Returns the count at which the thread waits.
    fn count(&self, who: Waiter) -> u64
        ensures { result ≡ count_of who (change_counts self.now.sender self.now.reader self.now.lanes.items) }
    {
        match who {
            Waiter::Sender => self.sender,
            Waiter::Reader => self.reader,
            Waiter::Lane(lane) => match self.lanes.get(lane as usize) {
                Some(count) => *count,
                None => self.reader,
            },
        }
    }

    /// Counts a change for each thread that it concerns.
    pub(crate) fn note(&mut self, set: WakeSet)
        ensures { change_counts self.new.sender self.new.reader self.new.lanes.items
            ≡ counts_after set (change_counts self.old.sender self.old.reader self.old.lanes.items) }
    {
        if set.sender {
            self.sender = self.sender.wrapping_add(1);
        }
        if set.wakes_reader(self.lanes.len()) {
            self.reader = self.reader.wrapping_add(1);
        }
        match set.lanes {
            LaneSet::Empty => {}
            LaneSet::One(lane) => raise_at(&mut self.lanes, lane as usize),
            LaneSet::All => raise_all(&mut self.lanes),
        }
    }
}

/// Raises the count at the place, if there is one.
fn raise_at(counts: &mut [u64], place: usize)
    ensures { counts.new ≡ raised_at place counts.old }
{
    if place < counts.len() {
        counts[place] = counts[place].wrapping_add(1);
    }
}

/// Raises each count.
fn raise_all(counts: &mut [u64])
    ensures { counts.new ≡ map next_count counts.old }
{
    for place in 0..counts.len() {
        counts[place] = counts[place].wrapping_add(1);
    }
}

/// The condition variables at which threads wait: one for the sender, one for the reader, and one for each lane.
#[derive(Drop)]
pub(crate) struct Condvars {
    sender: Condvar,
    reader: Condvar,
    lanes: Vec<Condvar>,
}

impl Condvars {
    /// Returns the condition variables for this many lanes. Fails if an allocation fails.
    pub(crate) fn new(alloc: Global, lanes: usize) -> Result<Condvars, OutOfMemory> {
        let mut condvars = Vec::new(alloc);
        for _ in 0..lanes {
            condvars.push(Condvar::new())?;
        }
        Ok(Condvars {
            sender: Condvar::new(),
            reader: Condvar::new(),
            lanes: condvars,
        })
    }

    /// Returns the condition variable at which the thread waits. A lane that has none waits as the reader does.
    fn of(&self, who: Waiter) -> &Condvar {
        match who {
            Waiter::Sender => &self.sender,
            Waiter::Reader => &self.reader,
            Waiter::Lane(lane) => match self.lanes.get(lane as usize) {
                Some(condvar) => condvar,
                None => &self.reader,
            },
        }
    }

    /// Wakes the threads of the set. The counts must have changed before, and the mutex be free again.
    pub(crate) fn notify(&self, set: WakeSet) {
        if set.sender {
            self.sender.notify_all();
        }
        if set.wakes_reader(self.lanes.len()) {
            self.reader.notify_all();
        }
        match set.lanes {
            LaneSet::Empty => {}
            LaneSet::One(lane) => self.of(Waiter::Lane(lane)).notify_all(),
            LaneSet::All => {
                for condvar in &self.lanes {
                    condvar.notify_all();
                }
            }
        }
    }
}

impl<S: Held + Drop> Shared<S> {
    /// Returns how many changes concerned the thread so far, modulo 2^64. A change that comes later is not missed by a
    /// wait that is given this number.
    pub fn changes<R: Wait>(&self, rt: &R, who: Waiter) -> u64 {
        let gate = self.gate.lock(rt);
        let count = gate.count(who);
        drop(gate);
        count
    }

    /// Waits until another change after `seen` of them concerned the thread. Returns how many did so far, as `changes`
    /// does.
    pub fn wait<R: Wait>(&self, rt: &R, who: Waiter, seen: u64) -> u64 {
        let gate = self.gate.lock(rt);
        let condvar = self.condvars.of(who);
        let gate = condvar.wait_while(rt, gate, |gate| gate.count(who) == seen);
        let count = gate.count(who);
        drop(gate);
        count
    }
}
