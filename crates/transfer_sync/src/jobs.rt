//! The jobs that carry out a plan.
ghost use Rattle.std.specs.Prelude.{◌≡◌, ◌++◌, reverse, IfOk, OnOk};
ghost use Rattle.sftp_model.specs.Frames.{no_attributes};
ghost use Rattle.transfer_sync.specs.Jobs.{first_job, is_in_phase, job_of, job_where, jobs_of, main_jobs, task_of, touch_jobs};

use crate::action::{Action, Step};
use crate::listing::Listing;
use sftp_model::FileAttrs;
use sftp_values::ByteText;
use ssh_encoding::OutOfMemory;
use std::alloc::Global;
use transfer_plan::{Found, Task, path_in};

/// The directories that are made alike.
///
/// Example: `crates/sftp_transfer/src/mirror.rt`.
#[derive(Debug, Drop)]
pub struct Roots {
    /// The path of the source.
    pub from: ByteText,
    /// The path of the target.
    pub to: ByteText,
    /// The file attributes of the source.
    pub attrs: FileAttrs,
    /// True if nothing has the path of the target, so that the directory is created.
    pub is_new: bool,
}

/// A phase of a run.
#[derive(Clone, Copy, Debug, PartialEq, Eq)]
pub(crate) enum Phase {
    /// Entries are removed, created and copied.
    Main,
    /// Permissions and times of entries that exist are set.
    Touch,
}

/// Returns true if a step is done in a phase.
fn is_in_phase(phase: Phase, step: &Step) -> bool
    ensures { result ≡ is_in_phase phase step.now }
{
    match (phase, step) {
        (Phase::Main, Step::SetAttributes) => false,
        (Phase::Main, _) => true,
        (Phase::Touch, Step::SetAttributes) => true,
        (Phase::Touch, _) => false,
    }
}

/// Returns the task of the job for a step.
fn task_of(step: &Step) -> Task
    ensures { result ≡ task_of step.now }
{
    match step {
        Step::RemoveFile => Task::RemoveFile,
        Step::RemoveDirectory => Task::RemoveFolder,
        Step::MakeDirectory => Task::MakeFolder,
        Step::CopyFile => Task::CopyFile,
        Step::MakeLink(_) => Task::CopyLink,
        Step::SetAttributes => Task::SetAttributes,
    }
}

/// Returns file attributes of which none is known.
fn no_attributes() -> FileAttrs
    ensures { result ≡ no_attributes }
{
    FileAttrs {
        size: None,
        id: None,
        permissions: None,
        time: None,
    }
}

/// Returns the job for an action. Fails only if an allocation fails.
fn job_of(
    alloc: Global,
    roots: &Roots,
    source: &Listing,
    action: &Action,
) -> Result<Found, OutOfMemory>
    ensures { IfOk result (λ job. job ≡ job_of roots.now source.now.entries action.now) }
{
    let path = action.path.as_slice();
    let (depth, attrs) = match source.find(path) {
        Some(entry) => (entry.depth, entry.attrs),
        None => (1, no_attributes()),
    };
    Ok(Found {
        task: task_of(&action.step),
        depth,
        source: ByteText::new(path_in(alloc, roots.from.as_slice(), path)?),
        target: ByteText::new(path_in(alloc, roots.to.as_slice(), path)?),
        attrs,
    })
}

/// Adds the job for an action after others, if it is done in a phase. Fails only if an allocation fails.
fn add_job(
    alloc: Global,
    roots: &Roots,
    source: &Listing,
    phase: Phase,
    action: &Action,
    jobs: &mut Vec<Found>,
) -> Result<(), OutOfMemory>
    ensures { OnOk result (jobs.new.items ≡ jobs.old.items ++ job_where roots.now source.now.entries phase action.now) }
{
    if is_in_phase(phase, &action.step) {
        jobs.push(job_of(alloc, roots, source, action)?)?;
    }
    Ok(())
}

/// Returns the jobs of a phase, in the order of the actions, after these. Fails only if an allocation fails.
fn jobs_of(
    alloc: Global,
    roots: &Roots,
    source: &Listing,
    phase: Phase,
    actions: &[Action],
    first: Vec<Found>,
) -> Result<Vec<Found>, OutOfMemory>
    ensures { IfOk result (λ jobs. jobs.items ≡ first.items ++ jobs_of roots.now source.now.entries phase actions.now) }
{
    let mut jobs = first;
    for action in actions {
        add_job(alloc, roots, source, phase, action, &mut jobs)?;
    }
    Ok(jobs)
}

/// Returns the first jobs: the directory of the target, if it is created. Fails only if an allocation fails.
fn first_job(alloc: Global, roots: &Roots) -> Result<Vec<Found>, OutOfMemory>
    ensures { IfOk result (λ jobs. jobs.items ≡ first_job roots.now) }
{
    let mut jobs = Vec::new(alloc);
    if roots.is_new {
        jobs.push(Found::root(
            alloc,
            roots.from.as_slice(),
            roots.to.as_slice(),
            roots.attrs,
        )?)?;
    }
    Ok(jobs)
}

/// Returns the jobs of the main phase, in the order of the actions. Fails only if an allocation fails.
pub(crate) fn main_jobs(
    alloc: Global,
    roots: &Roots,
    source: &Listing,
    actions: &[Action],
) -> Result<Vec<Found>, OutOfMemory>
    ensures { IfOk result (λ jobs. jobs.items ≡ main_jobs roots.now source.now.entries actions.now) }
{
    let first = first_job(alloc, roots)?;
    jobs_of(alloc, roots, source, Phase::Main, actions, first)
}

/// Returns the jobs that set permissions and times, the last action's first. Fails only if an allocation fails.
pub(crate) fn touch_jobs(
    alloc: Global,
    roots: &Roots,
    source: &Listing,
    actions: &[Action],
) -> Result<Vec<Found>, OutOfMemory>
    ensures { IfOk result (λ jobs. jobs.items ≡ touch_jobs roots.now source.now.entries actions.now) }
{
    let mut jobs = jobs_of(alloc, roots, source, Phase::Touch, actions, Vec::new(alloc))?;
    jobs.reverse();
    Ok(jobs)
}
