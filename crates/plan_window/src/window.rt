//! The READs of a whole read, in the order in which they were asked.
ghost use Rattle.std.specs.Prelude.{◌≡◌, ◌≢◌, None, OnErr, OnOk};
ghost use Rattle.plan_window.specs.Windows.{IsAbsorbed, IsInRange, IsSound, Window as Reads, answered_more, asked_more, empty_window, first_of, FitsFirst};

use crate::tally::Tally;
use sftp_model::Reply;
use ssh_encoding::OutOfMemory;
use std::alloc::Global;
use std::marker::Model;

/// A READ: the place of its request, its offset and the number of bytes that it asks for.
///
/// Example: `crates/plan_runner/src/whole_read.rt`.
#[derive(Clone, Copy, Debug, PartialEq, Eq)]
pub struct ReadAt {
    pub place: u64,
    pub offset: u64,
    pub len: u32,
}

/// A READ that was answered, and its reply.
///
/// Used in `crates/plan_window/src/content.rt`.
#[derive(Debug, Drop)]
pub struct Answered {
    pub read: ReadAt,
    pub reply: Reply,
}

/// The READs of a whole read: those that were answered before any that was not, and the others. A move looks only at
/// those in flight: what it needs of the others is kept beside them. There is memory for the reply to each READ in
/// flight.
///
/// Example: `crates/plan_runner/src/whole_read.rt`.
#[derive(Debug, Drop)]
pub struct Window {
    pub(crate) answered: Vec<Answered>,
    pub(crate) waiting: Vec<ReadAt>,
    pub(crate) tally: Tally,
}

impl Model for Window {
    ghost use Rattle.std.specs.Prelude.{◌+◌, ◌≤◌, vec_capacity, vec_len};
    ghost use Rattle.plan_window.specs.Windows.{Window as Reads};
    ghost use Rattle.plan_window.specs.Tallies.{HasRoom, IsTally};

    ghost Value = { Reads };

    ghost view = { λ w. record { answered = w.answered.items; waiting = w.waiting.items } };

    ghost invariant = { λ w. IsTally w.tally w.answered.items
        × HasRoom w.tally (vec_len w.waiting)
        × (vec_len w.answered + vec_len w.waiting ≤ vec_capacity w.answered) };
}

impl Window {
    /// Creates a window without a READ.
    pub fn new(alloc: Global) -> Window
        ensures is { result ≡ empty_window }
        ensures sound { IsSound result }
    {
        Window {
            answered: Vec::new(alloc),
            waiting: Vec::new(alloc),
            tally: Tally::new(alloc),
        }
    }

    /// Returns the READs that were answered, each with its reply.
    pub fn answered(&self) -> &[Answered]
        ensures { result.now ≡ self.now.answered }
    {
        self.answered.as_slice()
    }

    /// Returns the READs in flight.
    pub fn waiting(&self) -> &[ReadAt]
        ensures { result.now ≡ self.now.waiting }
    {
        self.waiting.as_slice()
    }

    /// Returns the first READ that was not answered.
    pub fn first(&self) -> Option<ReadAt>
        ensures { result ≡ first_of self.now.waiting }
    {
        self.waiting.as_slice().first().copied()
    }

    /// Adds another READ in flight, and allocates memory for its reply.
    ///
    /// # Errors
    ///
    /// `OutOfMemory` if an allocation fails; the window is unchanged then.
    pub fn asked(&mut self, read: ReadAt) -> Result<(), OutOfMemory>
        requires sound { IsSound self.old }
        requires range { IsInRange read }
        ensures is { OnOk result (self.new ≡ asked_more self.old read) }
        ensures sound { OnOk result (IsSound self.new) }
        ensures unchanged { OnErr result (self.new ≡ self.old) }
    {
        self.waiting.reserve(1)?;
        let count = self.waiting.len() + 1;
        self.answered.reserve(count)?;
        self.tally.reserve(count)?;
        self.waiting.push_reserved(read);
        Ok(())
    }

    /// Removes the READ that was asked last, if it is still in flight: it was not sent.
    pub fn unasked(&mut self)
        ensures { (w : Reads) (r : ReadAt) → self.old ≡ asked_more w r → self.new ≡ w }
    {
        let _last = self.waiting.pop();
    }

    /// Takes the reply to the first READ that was not answered: a DATA, or the end of the file. Does not allocate.
    pub fn replied(&mut self, reply: Reply)
        requires sound { IsSound self.old }
        requires some { first_of self.old.waiting ≢ None }
        requires absorbed { IsAbsorbed reply }
        requires fits { FitsFirst self.old reply }
        ensures is { self.new ≡ answered_more self.old reply }
        ensures sound { IsSound self.new }
    {
        let read = self.waiting.remove(0);
        let answer = Answered { read, reply };
        self.tally.answered(&answer);
        self.answered.push_reserved(answer);
    }
}
