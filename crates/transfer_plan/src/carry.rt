//! The order in which jobs are carried out.
ghost use Rattle.std.specs.Prelude.{◌≡◌, true, IfOk, OnOk};
ghost use Rattle.transfer_plan.specs.Apart.{FilesAreApart};
ghost use Rattle.transfer_plan.specs.Jobs.{AreAllDone, CarriesOut, HasActed, HasCopied, HasKept, IsJob, IsKeep, MayWorkOne, WorksOne, of_kind, is_of, to_keep};

use crate::hand::Hand;
use crate::tally::Tally;
use crate::{Found, Task};
use ssh_encoding::OutOfMemory;
use std::alloc::Global;

/// A group of jobs that are done together.
#[derive(Clone, Copy, Debug, PartialEq, Eq)]
pub(crate) enum TaskKind {
    /// Creates directories, removes entries and sets permissions and times. Skipped and refused entries are reported
    /// here too.
    Folders,
    /// Reports the result of each file.
    Files,
    /// Creates symbolic links.
    Links,
}

/// Returns true if a task is of a kind.
fn is_of(kind: TaskKind, task: Task) -> bool
    ensures { result ≡ is_of kind task }
{
    match kind {
        TaskKind::Folders => task != Task::CopyFile && task != Task::CopyLink,
        TaskKind::Files => task == Task::CopyFile,
        TaskKind::Links => task == Task::CopyLink,
    }
}

/// Does the job at an index, or skips it if it lies in a directory that was not created. Fails only if an allocation
/// fails.
fn work_one<H: Hand>(
    alloc: Global,
    hand: &mut H,
    tally: &mut Tally,
    job: usize,
    found: &Found,
) -> Result<(), OutOfMemory>
    requires { H.may hand.old }
    ensures may { H.may hand.new }
    ensures works { OnOk result (WorksOne H.done IsJob found.now tally.old tally.new (H.history hand.old) (H.history hand.new)) }
{
    if tally.skips(found) {
        hand.skip(found);
        tally.note_skipped(found);
        return Ok(());
    }
    let verdict = hand.work(job, found);
    tally.note_worked(alloc, found, verdict)
}

/// Does the job at an index if it is of a kind, unless the transfer has stopped. Fails only if an allocation fails.
fn work_step<H: Hand>(
    alloc: Global,
    hand: &mut H,
    tally: &mut Tally,
    job: usize,
    found: &Found,
    kind: TaskKind,
) -> Result<(), OutOfMemory>
    requires { H.may hand.old }
    ensures may { H.may hand.new }
    ensures works { OnOk result (MayWorkOne H.done (of_kind kind) IsJob found.now tally.old tally.new (H.history hand.old) (H.history hand.new)) }
{
    if !is_of(kind, found.task) || tally.stopped() {
        return Ok(());
    }
    work_one(alloc, hand, tally, job, found)
}

/// Gives a directory its permissions and times if it was created, unless the transfer has stopped. Fails only if an
/// allocation fails.
fn keep_step<H: Hand>(
    alloc: Global,
    hand: &mut H,
    tally: &mut Tally,
    found: &Found,
) -> Result<(), OutOfMemory>
    requires { H.may hand.old }
    ensures may { H.may hand.new }
    ensures works { OnOk result (MayWorkOne H.done to_keep IsKeep found.now tally.old tally.new (H.history hand.old) (H.history hand.new)) }
{
    if found.task != Task::MakeFolder || tally.stopped() {
        return Ok(());
    }
    if tally.is_unmade(alloc, found)? {
        return Ok(());
    }
    let verdict = hand.keep(found);
    tally.note_kept(found, verdict);
    Ok(())
}

/// Does the jobs of a kind, in their order, until no other can be done. Fails only if an allocation fails.
fn work_all<H: Hand>(
    alloc: Global,
    hand: &mut H,
    tally: &mut Tally,
    jobs: &[Found],
    kind: TaskKind,
) -> Result<(), OutOfMemory>
    requires { H.may hand.old }
    ensures may { H.may hand.new }
    ensures acts { OnOk result (HasActed H.done (of_kind kind) IsJob jobs.now tally.old tally.new (H.history hand.old) (H.history hand.new)) }
{
    for job in 0..jobs.len() {
        work_step(alloc, hand, tally, job, &jobs[job], kind)?;
    }
    Ok(())
}

/// Copies all files that lie in no directory that was not created, unless the transfer has stopped.
fn copy_files<H: Hand>(hand: &mut H, tally: &Tally, jobs: &[Found], run: &[u8])
    requires may { H.may hand.old }
    requires apart { FilesAreApart jobs.now run.now }
    ensures may { H.may hand.new }
    ensures copies { HasCopied H.done jobs.now tally.now (H.history hand.old) (H.history hand.new) }
{
    if !tally.stopped() {
        hand.copy(jobs, run, tally);
    }
}

/// Gives each directory that was created its permissions and times, the last one first, until no other can be done.
/// Fails only if an allocation fails.
fn keep_all<H: Hand>(
    alloc: Global,
    hand: &mut H,
    tally: &mut Tally,
    jobs: &[Found],
) -> Result<(), OutOfMemory>
    requires { H.may hand.old }
    ensures may { H.may hand.new }
    ensures acts { OnOk result (HasKept H.done true jobs.now tally.old tally.new (H.history hand.old) (H.history hand.new)) }
{
    let mut left = jobs.len();
    while left > 0 {
        left -= 1;
        keep_step(alloc, hand, tally, &jobs[left])?;
    }
    Ok(())
}

/// Gives directories their permissions and times if that is asked for. Fails only if an allocation fails.
fn keep_where<H: Hand>(
    alloc: Global,
    hand: &mut H,
    tally: &mut Tally,
    jobs: &[Found],
    keeps: bool,
) -> Result<(), OutOfMemory>
    requires { H.may hand.old }
    ensures may { H.may hand.new }
    ensures acts { OnOk result (HasKept H.done keeps jobs.now tally.old tally.new (H.history hand.old) (H.history hand.new)) }
{
    if keeps {
        return keep_all(alloc, hand, tally, jobs);
    }
    Ok(())
}

/// Does all jobs in this order:
///
/// 1. Directories are created, entries are removed, and permissions and times are set, in their order.
/// 2. Files are copied, many at once, and the result of each is reported in their order.
/// 3. Symbolic links are created, after the files, so none of them is followed.
/// 4. With `keeps`, directories are given their permissions and times, the last one first.
///
/// Entries in a directory that was not created are skipped. After a job that ends in `Stop` nothing else is done. The
/// jobs must be those of `keep_apart` for this run, because files that were copied at once to one path would be mixed
/// there.
///
/// # Errors
///
/// `OutOfMemory` if an allocation fails; no contract says which jobs were done then.
pub fn carry_out<H: Hand>(
    alloc: Global,
    hand: &mut H,
    jobs: &[Found],
    run: &[u8],
    keeps: bool,
) -> Result<Tally, OutOfMemory>
    requires may { H.may hand.old }
    requires apart { FilesAreApart jobs.now run.now }
    ensures may { H.may hand.new }
    ensures carries_out { IfOk result (CarriesOut H.done keeps jobs.now (H.history hand.old) (H.history hand.new)) }
    ensures all_done { IfOk result (λ tally. tally.all_done ≡ true → AreAllDone H.done jobs.now (H.history hand.old) (H.history hand.new)) }
{
    let mut tally = Tally::new(alloc);
    work_all(alloc, hand, &mut tally, jobs, TaskKind::Folders)?;
    copy_files(hand, &tally, jobs, run);
    work_all(alloc, hand, &mut tally, jobs, TaskKind::Files)?;
    work_all(alloc, hand, &mut tally, jobs, TaskKind::Links)?;
    keep_where(alloc, hand, &mut tally, jobs, keeps)?;
    Ok(tally)
}
