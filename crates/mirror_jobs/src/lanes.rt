//! The lanes that copy files.
ghost use Rattle.std.specs.Prelude.{◌≡◌, ◌≤◌, ◌++◌, true, map, IfOk, OnOk};
ghost use Rattle.std.specs.List.{list_all};
ghost use Rattle.mirror_jobs.specs.Jobs.{is_bounded};
ghost use Rattle.mirror_jobs.specs.JobLanes.{calls_of, copy_lane, copy_lanes, lanes_of, mkdir_call};
ghost use Rattle.mirror_jobs.specs.Parents.{parents};

use crate::directory::Directory;
use crate::job::Job;
use session_model::{Call, Lane};
use sftp_model::TryCopy;
use sftp_values::Items;
use ssh_encoding::OutOfMemory;
use std::alloc::Global;

/// Returns the lane that creates directories.
fn mkdir_lane(alloc: Global, directories: &[Directory]) -> Result<Lane, OutOfMemory>
    ensures { IfOk result (λ lane. lane ≡ record { calls = map mkdir_call directories.now }) }
{
    let mut calls = Vec::with_capacity(alloc, directories.len())?;
    for directory in directories {
        let path = directory.path.try_copy(alloc)?;
        calls.push(Call::Mkdir { path })?;
    }
    Ok(Lane {
        calls: Items::new(calls),
    })
}

/// Appends the calls that copy a file.
fn push_calls(alloc: Global, job: &Job, calls: &mut Vec<Call>) -> Result<(), OutOfMemory>
    requires { is_bounded job.now ≡ true }
    ensures { OnOk result (calls.new.items ≡ calls.old.items ++ calls_of job.now) }
{
    match job {
        Job::Up { name, content } => {
            let path = name.try_copy(alloc)?;
            let bytes = content.try_copy(alloc)?;
            calls.push(Call::FsWrite { path, bytes })?;
            let path = name.try_copy(alloc)?;
            let bound = content.as_slice().len() as u32 + 1;
            calls.push(Call::FsRead { path, bound })?;
            Ok(())
        }
        Job::Down { name, bound } => {
            let path = name.try_copy(alloc)?;
            calls.push(Call::FsRead {
                path,
                bound: *bound,
            })?;
            Ok(())
        }
    }
}

/// Returns lane k of `width` lanes that copy.
fn copy_lane(alloc: Global, width: u32, jobs: &[Job], k: u32) -> Result<Lane, OutOfMemory>
    requires wide { 1 ≤ width }
    requires bounded { list_all is_bounded jobs.now ≡ true }
    ensures { IfOk result (λ lane. lane ≡ copy_lane width jobs.now k) }
{
    let mut calls = Vec::new(alloc);
    for (i, job) in jobs.iter().enumerate() {
        if i as u64 % u64::from(width) == u64::from(k) {
            push_calls(alloc, job, &mut calls)?;
        }
    }
    Ok(Lane {
        calls: Items::new(calls),
    })
}

/// Appends `width` lanes that copy, after the lane that creates directories.
fn push_copy_lanes(
    alloc: Global,
    width: u32,
    jobs: &[Job],
    lanes: &mut Vec<Lane>,
) -> Result<(), OutOfMemory>
    requires wide { 1 ≤ width }
    requires bounded { list_all is_bounded jobs.now ≡ true }
    ensures { OnOk result (lanes.new.items ≡ lanes.old.items ++ copy_lanes width jobs.now 0 width) }
{
    for k in 0..width {
        let lane = copy_lane(alloc, width, jobs, k)?;
        lanes.push(lane)?;
    }
    Ok(())
}

/// Returns the lanes that copy files. Lane 0 creates the directories that the files need, and the files are dealt out
/// to the lanes from 1 to `width`. An upload is written and then read back.
///
/// # Errors
///
/// `OutOfMemory` if an allocation fails.
pub fn lanes_of(
    alloc: Global,
    width: u32,
    directories: &[Directory],
    jobs: &[Job],
) -> Result<Items<Lane>, OutOfMemory>
    requires wide { 1 ≤ width }
    requires bounded { list_all is_bounded jobs.now ≡ true }
    requires made { directories.now ≡ parents jobs.now }
    ensures { IfOk result (λ lanes. lanes ≡ lanes_of width jobs.now) }
{
    let mut lanes = Vec::new(alloc);
    let lane = mkdir_lane(alloc, directories)?;
    lanes.push(lane)?;
    push_copy_lanes(alloc, width, jobs, &mut lanes)?;
    Ok(Items::new(lanes))
}
