//! The results of files that were copied.
ghost use Rattle.std.specs.Prelude.{◌≡◌, ◌≤◌, [], IfOk, length, take, drop, slice_index_or};
ghost use Rattle.mirror_jobs.specs.JobLanes.{calls_of};
ghost use Rattle.mirror_jobs.specs.Verdicts.{first_refusal, gave_up, verdict_of, verdict_read, verdicts_of};

use crate::job::Job;
use crate::verdict::Verdict;
use sftp_model::{Error, Outcome, TryCopy};
use sftp_values::Items;
use ssh_encoding::OutOfMemory;
use std::alloc::Global;

/// Returns the first refusal.
fn first_refusal(alloc: Global, outcomes: &[Outcome]) -> Result<Option<Error>, OutOfMemory>
    ensures { IfOk result (λ why. why ≡ first_refusal outcomes.now) }
{
    let mut rest = outcomes;
    loop {
        match rest {
            [] => return Ok(None),
            [Outcome::Refused(why), ..] => {
                let why = why.try_copy(alloc)?;
                return Ok(Some(why));
            }
            [_, later @ ..] => rest = later,
        }
    }
}

/// Returns true if a call reached its bound.
fn gave_up(outcomes: &[Outcome]) -> bool
    ensures { result ≡ gave_up outcomes.now }
{
    let mut rest = outcomes;
    loop {
        match rest {
            [] => return false,
            [Outcome::GivenUp, ..] => return true,
            [_, later @ ..] => rest = later,
        }
    }
}

/// Returns the result if no call was refused, and none reached its bound.
fn verdict_read(alloc: Global, job: &Job, outcomes: &[Outcome]) -> Result<Verdict, OutOfMemory>
    ensures { IfOk result (λ verdict. verdict ≡ verdict_read job.now outcomes.now) }
{
    match job {
        Job::Up { content, .. } => match outcomes {
            [Outcome::Done, Outcome::Bytes(bytes), ..] => {
                if bytes == content {
                    return Ok(Verdict::Copied);
                }
                Ok(Verdict::Differs)
            }
            _ => Ok(Verdict::Differs),
        },
        Job::Down { .. } => match outcomes {
            [Outcome::Bytes(bytes), ..] => {
                let bytes = bytes.try_copy(alloc)?;
                Ok(Verdict::Got(bytes))
            }
            _ => Ok(Verdict::GivenUp),
        },
    }
}

/// Returns the result of a file, by the outcomes of its calls: the first refusal, or that a call reached its bound, or
/// that the bytes read back differ, or that it was copied, or the bytes that were read.
///
/// # Errors
///
/// `OutOfMemory` if an allocation fails.
pub fn verdict_of(alloc: Global, job: &Job, outcomes: &[Outcome]) -> Result<Verdict, OutOfMemory>
    ensures { IfOk result (λ verdict. verdict ≡ verdict_of job.now outcomes.now) }
{
    if let Some(why) = first_refusal(alloc, outcomes)? {
        return Ok(Verdict::Refused(why));
    }
    if gave_up(outcomes) {
        return Ok(Verdict::GivenUp);
    }
    verdict_read(alloc, job, outcomes)
}

/// Returns the number of calls that copy a file.
fn count_of(job: &Job) -> usize
    ensures value { result ≡ length (calls_of job.now) }
    ensures few { result ≤ 2 }
{
    match job {
        Job::Up { .. } => 2,
        Job::Down { .. } => 1,
    }
}

/// Returns `count` outcomes from a place on.
fn outcomes_at(outcomes: &[Outcome], place: usize, count: usize) -> &[Outcome]
    ensures { result.now ≡ take count (drop place outcomes.now) }
{
    if place >= outcomes.len() {
        return &[];
    }
    let rest = &outcomes[place..];
    if count >= rest.len() {
        return rest;
    }
    &rest[..count]
}

/// Returns the outcomes of a lane, or none if there is no such lane.
fn outcomes_in(outcomes: &[Items<Outcome>], lane: usize) -> &[Outcome]
    ensures { result.now ≡ slice_index_or outcomes.now lane [] }
{
    match outcomes.get(lane) {
        Some(items) => items.as_slice(),
        None => &[],
    }
}

/// Returns the result of each file, by the outcomes of the lanes. The first lane creates directories, and the others
/// copy the files that are dealt out to them.
///
/// # Errors
///
/// `OutOfMemory` if an allocation fails.
pub fn verdicts_of(
    alloc: Global,
    width: u32,
    jobs: &[Job],
    outcomes: &[Items<Outcome>],
) -> Result<Items<Verdict>, OutOfMemory>
    requires { 1 ≤ width }
    ensures { IfOk result (λ verdicts. verdicts ≡ verdicts_of width jobs.now outcomes.now) }
{
    // The place of the next file's first outcome in each lane.
    let mut places = Vec::from_elem(alloc, 0usize, width as usize)?;
    let mut verdicts = Vec::with_capacity(alloc, jobs.len())?;
    for (i, job) in jobs.iter().enumerate() {
        let lane = i % width as usize;
        let place = places[lane];
        let count = count_of(job);
        let own = outcomes_at(outcomes_in(outcomes, lane + 1), place, count);
        let verdict = verdict_of(alloc, job, own)?;
        verdicts.push(verdict)?;
        places[lane] = place + count;
    }
    Ok(Items::new(verdicts))
}
