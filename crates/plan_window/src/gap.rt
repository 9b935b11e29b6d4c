//! The READs in flight that begin at an offset, and the least of some offsets.
ghost use Rattle.std.specs.Prelude.{◌≡◌, ◌==◌};
ghost use Rattle.std.specs.List.{list_any};
ghost use Rattle.plan_window.specs.PlainSteps.{least_by};
ghost use Rattle.plan_window.specs.Tallies.{gap_below};

use crate::numbers::least_of;
use crate::window::ReadAt;

/// Returns true if a READ in flight begins here.
fn waiting_begins(waiting: &[ReadAt], p: u64) -> bool
    ensures { result ≡ list_any (λ r. r.offset == p) waiting.now }
{
    waiting.iter().any(|r| r.offset == p)
}

/// Returns the offset if it is below the limit and no READ in flight begins here.
fn gap_below(waiting: &[ReadAt], limit: u64, p: u64) -> Option<u64>
    ensures { result ≡ gap_below waiting.now limit p }
{
    if p < limit && !waiting_begins(waiting, p) {
        Some(p)
    } else {
        None
    }
}

/// Returns the least of these offsets that is below the limit and at which no READ in flight begins.
#[tactic(auto, using(crate::proofs::StepLaws::least_of_none, crate::proofs::StepLaws::least_of_more))]
pub(crate) fn least_gap(free: &[u64], waiting: &[ReadAt], limit: u64) -> Option<u64>
    ensures { result ≡ least_by (gap_below waiting.now limit) free.now }
{
    let mut least = None;
    let mut rest = free;
    loop {
        match rest {
            [] => return least,
            [first, later @ ..] => {
                least = least_of(least, gap_below(waiting, limit, *first));
                rest = later;
            }
        }
    }
}
