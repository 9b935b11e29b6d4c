//! The run of a plan.
ghost use Rattle.std.specs.Prelude.{◌≡◌, true, IfOk};
ghost use Rattle.transfer_sync.specs.Runs.{DidPlan, RunsPlan};

use crate::jobs::{Roots, main_jobs, touch_jobs};
use crate::listing::Listing;
use crate::plan::Plan;
use ssh_encoding::OutOfMemory;
use std::alloc::Global;
use transfer_plan::{Hand, carry_out, keep_apart};

/// Carries out a plan for a source, and returns true if all of it was done:
///
/// 1. Entries of the target are removed, and directories are created, in the order of the plan.
/// 2. Files are copied, many at once, and then symbolic links are created.
/// 3. Permissions and times of entries that exist are set, those of the last one first.
///
/// Each is a job that the hand does by its task. One that can't be done does not keep the others from being done; after
/// one that ends in `Stop` nothing else is done. `run` is the number of the run, which names the parts of files.
///
/// # Errors
///
/// `OutOfMemory` if an allocation fails; no contract says which jobs were done then.
pub fn run_plan<H: Hand>(
    alloc: Global,
    hand: &mut H,
    roots: &Roots,
    source: &Listing,
    plan: &Plan,
    run: &[u8],
) -> Result<bool, OutOfMemory>
    requires { H.may hand.old }
    ensures may { H.may hand.new }
    ensures runs { IfOk result (λ all. RunsPlan H.done roots.now source.now.entries plan.now.actions.items run.now (H.history hand.old) (H.history hand.new) all) }
    ensures all_done { IfOk result (λ all. all ≡ true → DidPlan H.done roots.now source.now.entries plan.now.actions.items run.now (H.history hand.old) (H.history hand.new)) }
{
    let actions = plan.actions.as_slice();
    let jobs = keep_apart(alloc, main_jobs(alloc, roots, source, actions)?, run)?;
    let touches = keep_apart(alloc, touch_jobs(alloc, roots, source, actions)?, run)?;
    let made = carry_out(alloc, hand, &jobs, run, false)?;
    if made.stopped() {
        return Ok(false);
    }
    let touched = carry_out(alloc, hand, &touches, run, false)?;
    Ok(made.all_done() && touched.all_done())
}
