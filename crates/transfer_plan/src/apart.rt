//! The check that each file is copied to a path of its own.
ghost use Rattle.std.specs.Prelude.{◌≡◌, ◌&&◌, ◌||◌, ℕ, List, IfOk, OnOk};
ghost use Rattle.std.specs.Str.{bytes_eq};
ghost use Rattle.transfer_plan.specs.Apart.{FilesAreApart, has_path, is_part, kept_apart, task_among};
ghost use Rattle.transfer_plan.specs.Jobs.{is_file};
ghost use Rattle.transfer_plan.specs.Cuts.{part_of};

use crate::path_set::PathSet;
use crate::{Found, Task, part_path};
use ssh_encoding::OutOfMemory;
use std::alloc::Global;

/// Adds the path of a file's part. Fails only if an allocation fails.
fn add_part(
    alloc: Global,
    run: &[u8],
    parts: &mut PathSet,
    found: &Found,
) -> Result<(), OutOfMemory>
    ensures { OnOk result ((p : List ℕ) → has_path parts.new p
        ≡ (has_path parts.old p || (is_file found.now.task && bytes_eq p (part_of found.now.target run.now)))) }
{
    if found.task == Task::CopyFile {
        let part = part_path(alloc, found.target.as_slice(), run)?;
        parts.insert(part)?;
    }
    Ok(())
}

/// Returns the paths of the parts of all files. Fails only if an allocation fails.
fn parts_of(alloc: Global, jobs: &[Found], run: &[u8]) -> Result<PathSet, OutOfMemory>
    ensures { IfOk result (λ parts. (p : List ℕ) → has_path parts p ≡ is_part jobs.now run.now p) }
{
    let mut parts = PathSet::new(alloc);
    for found in jobs {
        add_part(alloc, run, &mut parts, found)?;
    }
    Ok(parts)
}

/// Returns the task for a job, where `parts` are the paths of all parts, `taken` are the targets of the files before it
/// and `started` are the paths of their parts. A file adds its own to the last two. Fails only if an allocation fails.
fn task_among(
    alloc: Global,
    run: &[u8],
    parts: &PathSet,
    taken: &mut PathSet,
    started: &mut PathSet,
    found: &Found,
) -> Result<Task, OutOfMemory>
    ensures task { IfOk result (λ task. task ≡ task_among parts.now taken.old started.old run.now found.now) }
    ensures takes { OnOk result ((p : List ℕ) → has_path taken.new p
        ≡ (has_path taken.old p || (is_file found.now.task && bytes_eq p found.now.target))) }
    ensures starts { OnOk result ((p : List ℕ) → has_path started.new p
        ≡ (has_path started.old p || (is_file found.now.task && bytes_eq p (part_of found.now.target run.now)))) }
{
    if found.task != Task::CopyFile {
        return Ok(found.task);
    }
    let target = found.target.as_slice();
    let is_new = taken.insert(Vec::from_slice(alloc, target)?)?;
    let has_own = started.insert(part_path(alloc, target, run)?)?;
    if parts.has(target) {
        return Ok(Task::RefusePart);
    }
    if !is_new {
        return Ok(Task::RefuseTwice);
    }
    if has_own {
        return Ok(Task::CopyFile);
    }
    Ok(Task::RefusePart)
}

/// Returns the jobs with the conflicting files refused, where `parts` are the paths of the parts of all files. Fails
/// only if an allocation fails.
fn refuse_others(
    alloc: Global,
    jobs: Vec<Found>,
    run: &[u8],
    parts: &PathSet,
) -> Result<Vec<Found>, OutOfMemory>
    requires { (p : List ℕ) → has_path parts.now p ≡ is_part jobs.items run.now p }
    ensures { IfOk result (λ kept. kept.items ≡ kept_apart jobs.items run.now) }
{
    let mut taken = PathSet::new(alloc);
    let mut started = PathSet::new(alloc);
    let mut kept = Vec::with_capacity(alloc, jobs.len())?;
    for found in jobs {
        let task = task_among(alloc, run, parts, &mut taken, &mut started, &found)?;
        let mut job = found;
        job.task = task;
        kept.push(job)?;
    }
    Ok(kept)
}

/// Returns the jobs of a run, in which each file is copied to a path of its own and has a part of its own. All other
/// jobs are unchanged. A file is refused:
///
/// - if a file before it has the same path;
/// - if its path is that of a part, for example because a directory contains a part that was left there;
/// - if its part would have the path of the part of a file before it. Two names with more than 232 bytes whose last 232
///   are equal have such parts.
///
/// # Errors
///
/// `OutOfMemory` if an allocation fails.
pub fn keep_apart(alloc: Global, jobs: Vec<Found>, run: &[u8]) -> Result<Vec<Found>, OutOfMemory>
    ensures is { IfOk result (λ kept. kept.items ≡ kept_apart jobs.items run.now) }
    ensures apart { IfOk result (λ kept. FilesAreApart kept.items run.now) }
{
    let parts = parts_of(alloc, jobs.as_slice(), run)?;
    refuse_others(alloc, jobs, run, &parts)
}
