//! The next move of a whole read if no further reply came.
ghost use Rattle.std.specs.Prelude.{◌≡◌, IfOk, Some, List, ℕ, min};
ghost use Rattle.sftp_model.specs.declared.slot.Site.{Site};
ghost use Rattle.plan_window.specs.Windows.{AsksInRange, IsMoveInRange, IsSound, move_by, window_move};
ghost use Rattle.plan_window.specs.PlainSteps.{AsksWithin, ask_next, gap_of, go_further, len_to_next, plain_move, reach_of, wait_first};

use crate::begins::next_above;
use crate::content::whole_content;
use crate::gap::least_gap;
use crate::numbers::{least_of, waiting_above, waiting_reach};
use crate::window::{ReadAt, Window};
use sftp_model::Facts;
use sftp_values::ByteText;
use ssh_encoding::OutOfMemory;
use std::alloc::Global;

/// The next move of a whole read.
///
/// Example: `crates/plan_runner/src/whole_read.rt`.
#[derive(Debug, Drop)]
pub enum WindowMove {
    /// A READ of `len` bytes from this offset on is asked.
    Ask { offset: u64, len: u32 },
    /// The reply to the READ at this place is awaited.
    Wait { place: u64 },
    /// These are all bytes of the file.
    Whole(ByteText),
    /// The bound on DATA is reached, and the end is not known.
    GivenUp,
}

/// Waits for the first READ in flight.
fn wait_first(waiting: &[ReadAt]) -> WindowMove
    ensures { result ≡ wait_first waiting.now }
{
    match waiting {
        [] => WindowMove::GivenUp,
        [first, ..] => WindowMove::Wait { place: first.place },
    }
}

impl Window {
    /// Returns the greatest offset that was reached or that a READ in flight asks for.
    fn reach(&self) -> u64
        requires { IsSound self.now }
        ensures { result ≡ reach_of self.now.answered self.now.waiting }
    {
        self.tally
            .reached
            .max(waiting_reach(self.waiting.as_slice()))
    }

    /// Returns the number of bytes up to the next offset at which a READ begins, or `most` if there are more.
    fn len_to_next(&self, p: u64, most: u32) -> u32
        ensures { result ≡ min (len_to_next self.now.answered self.now.waiting p) most }
    {
        let answered = next_above(self.tally.begins.as_slice(), p);
        let next = least_of(answered, waiting_above(self.waiting.as_slice(), p));
        next.unwrap_or(p).saturating_sub(p).min(most as u64) as u32
    }

    /// Asks a READ at the gap, or otherwise after all if no end is known.
    fn ask_next(&self, facts: &Facts, gap: Option<u64>, end: Option<u64>) -> WindowMove
        requires sound { IsSound self.now }
        requires within { AsksWithin facts.now (ask_next self.now facts.now gap end) }
        ensures { result ≡ ask_next self.now facts.now gap end }
    {
        if let Some(offset) = gap {
            return WindowMove::Ask {
                offset,
                len: self.len_to_next(offset, facts.read_len),
            };
        }
        if end.is_some() {
            return wait_first(self.waiting.as_slice());
        }
        WindowMove::Ask {
            offset: self.reach(),
            len: facts.read_len,
        }
    }

    /// Ends at the bound; otherwise asks a READ if fewer are in flight than the session allows.
    fn go_further(
        &self,
        bound: u32,
        facts: &Facts,
        gap: Option<u64>,
        end: Option<u64>,
    ) -> WindowMove
        requires sound { IsSound self.now }
        requires within { AsksWithin facts.now (go_further bound self.now facts.now gap end) }
        ensures { result ≡ go_further bound self.now facts.now gap end }
    {
        if bound <= self.tally.contents {
            return WindowMove::GivenUp;
        }
        let waiting = self.waiting.as_slice();
        if (waiting.len() as u64) < facts.read_window as u64 {
            return self.ask_next(facts, gap, end);
        }
        wait_first(waiting)
    }

    /// Returns the least end of bytes at which no READ begins, below the end of the file, or otherwise below the reach.
    fn gap_of(&self, end: Option<u64>) -> Option<u64>
        requires { IsSound self.now }
        ensures { result ≡ gap_of self.now.answered self.now.waiting end }
    {
        let limit = match end {
            Some(end) => end,
            None => self.reach(),
        };
        let free = self.tally.free.as_slice();
        let waiting = self.waiting.as_slice();
        least_gap(free, waiting, limit)
    }

    /// Returns the next move, by the READs alone. Fails only if an allocation fails.
    fn plain_move(
        &self,
        alloc: Global,
        bound: u32,
        facts: &Facts,
    ) -> Result<WindowMove, OutOfMemory>
        requires sound { IsSound self.now }
        requires within { AsksWithin facts.now (plain_move bound self.now facts.now) }
        ensures { IfOk result (λ m. m ≡ plain_move bound self.now facts.now) }
    {
        let end = self.tally.end;
        let gap = self.gap_of(end);
        if let Some(end) = end {
            if gap.is_none() && self.waiting.as_slice().is_empty() {
                let bytes = whole_content(alloc, self.answered.as_slice(), end)?;
                return Ok(WindowMove::Whole(bytes));
            }
        }
        Ok(self.go_further(bound, facts, gap, end))
    }

    /// Returns the next move of a whole read that at most `bound` DATA may answer, if the reply to the first READ in
    /// flight has not come.
    ///
    /// # Errors
    ///
    /// `OutOfMemory` if an allocation fails.
    pub fn next_move(
        &self,
        alloc: Global,
        bound: u32,
        facts: &Facts,
    ) -> Result<WindowMove, OutOfMemory>
        requires sound { IsSound self.now }
        requires range { AsksInRange bound self.now facts.now }
        ensures goes { IfOk result (λ m. (handle : List ℕ) (site : Site)
            → window_move handle (Some bound) self.now site facts.now ≡ move_by handle site m) }
        ensures range { IfOk result IsMoveInRange }
    {
        self.plain_move(alloc, bound, facts)
    }
}
