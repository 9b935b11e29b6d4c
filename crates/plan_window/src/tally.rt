//! The record that a window keeps of the READs that were answered.
ghost use Rattle.std.specs.Prelude.{◌≡◌, ◌≤◌, ◌+◌, ◌∷◌, ◌++◌, [], ℕ, List, OnOk, vec_capacity, vec_len};
ghost use Rattle.std.specs.List.Sorted.{IsNonDecreasing};
ghost use Rattle.plan_window.specs.declared.window.Answered.{Answered as Read};
ghost use Rattle.plan_window.specs.Windows.{FitsRead, IsInRange};
ghost use Rattle.plan_window.specs.Tallies.{HasRoom, HasSameReads, IsTally, free_end};

use crate::begins::{has_offset, insert_offset};
use crate::numbers::{data_end, end_at, is_content, least_of, reached_at};
use crate::window::Answered;
use ssh_encoding::OutOfMemory;
use std::alloc::Global;

/// The record of the READs that were answered.
///
/// Used in `crates/plan_window/src/window.rt`.
#[derive(Debug, Drop)]
pub struct Tally {
    /// The least end of the file that was reported.
    pub end: Option<u64>,
    /// The greatest offset that was reached.
    pub reached: u64,
    /// The number of DATA that came, or `u32::MAX` if more came.
    pub contents: u32,
    /// The offsets of the READs, ascending.
    pub begins: Vec<u64>,
    /// The ends of DATA at which none of the READs begins.
    pub free: Vec<u64>,
}

/// Adds the end of a DATA to these ends, if none of the READs that were answered begins there. Does not allocate.
fn add_end(free: &mut Vec<u64>, begins: &[u64], end: Option<u64>)
    requires ascending { IsNonDecreasing begins.now }
    requires room { vec_len free.old + 1 ≤ vec_capacity free.old }
    ensures items { free.new.items ≡ free.old.items ++ free_end begins.now end }
    ensures len { vec_len free.new ≤ vec_len free.old + 1 }
    ensures capacity { vec_capacity free.new ≡ vec_capacity free.old }
{
    let Some(end) = end else {
        return;
    };
    if !has_offset(begins, end) {
        free.push_reserved(end);
    }
}

impl Tally {
    /// Creates the tally of no READ.
    pub(crate) fn new(alloc: Global) -> Tally
        ensures tally { IsTally result [] }
        ensures room { HasRoom result 0 }
    {
        Tally {
            end: None,
            reached: 0,
            contents: 0,
            begins: Vec::new(alloc),
            free: Vec::new(alloc),
        }
    }

    /// Allocates memory for another `count` READs. Fails only if an allocation fails.
    pub(crate) fn reserve(&mut self, count: usize) -> Result<(), OutOfMemory>
        ensures same { HasSameReads self.old self.new }
        ensures room { OnOk result (HasRoom self.new count) }
        ensures kept { (n : ℕ) → HasRoom self.old n → HasRoom self.new n }
    {
        self.begins.reserve(count)?;
        self.free.reserve(count)?;
        Ok(())
    }

    /// Adds a READ that was answered. Does not allocate.
    pub(crate) fn answered(&mut self, answer: &Answered)
        requires ascending { IsNonDecreasing self.old.begins.items }
        requires range { IsInRange answer.now.read }
        requires fits { FitsRead answer.now.read answer.now.reply }
        requires room { HasRoom self.old 1 }
        ensures tally { (answered : List Read) → IsTally self.old answered
            → IsTally self.new (answered ++ answer.now ∷ []) }
        ensures room { (n : ℕ) → HasRoom self.old (n + 1) → HasRoom self.new n }
    {
        let offset = answer.read.offset;
        insert_offset(&mut self.begins, offset);
        self.free.retain(|p| offset != *p);
        add_end(&mut self.free, self.begins.as_slice(), data_end(answer));
        self.end = least_of(self.end, end_at(answer));
        self.reached = self.reached.max(reached_at(answer));
        self.contents = self
            .contents
            .saturating_add(u32::from(is_content(&answer.reply)));
    }
}
