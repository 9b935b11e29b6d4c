//! Copies files over a link.
ghost use Rattle.std.specs.Prelude.{◌≡◌, ◌≤◌, ◌<◌, ◌^◌, ◌-◌, true, IfOk, IfErr};
ghost use Rattle.std.specs.List.{list_all};
ghost use Rattle.sftp_link.specs.Told.{IfLogged};
ghost use Rattle.link_frames.specs.Causes.{IsCausedByLink};
ghost use Rattle.session_driver.specs.Logs.{EndsSession};
ghost use Rattle.sftp_lanes.specs.Complete.{StopsForMemory};
ghost use Rattle.sftp_lanes.specs.Seen.{session_inputs};
ghost use Rattle.mirror_jobs.specs.Jobs.{is_bounded};
ghost use Rattle.mirror_jobs.specs.JobLanes.{lanes_of, turns_of};
ghost use Rattle.sftp_mirror.specs.Copies.{IsCopyReport, MayCopy};

use mirror_jobs::{Job, Verdict, lanes_of, parents, turns_for, verdicts_of};
use session_model::{Lane, Report, Turn};
use sftp_lanes::run_lanes;
use sftp_link::Link;
use sftp_model::{Error, SftpOptions};
use sftp_values::Items;
use ssh_encoding::OutOfMemory;
use std::alloc::Global;

/// The report on copied files.
///
/// Used in `crates/sftp_mirror/src/printed.rt`.
#[derive(Debug, Drop)]
pub struct CopyReport {
    /// The run of the lanes that copied the files.
    pub report: Report,
    /// The result of each file.
    pub verdicts: Items<Verdict>,
}

/// The lanes that copy files, and the turns under which they run.
#[derive(Drop)]
struct CopyPlan {
    lanes: Items<Lane>,
    turns: Items<Turn>,
}

/// Returns the lanes and turns that copy files with `width` lanes, in this many rounds.
fn plan_copy(alloc: Global, jobs: &[Job], width: u32, rounds: u32) -> Result<CopyPlan, OutOfMemory>
    requires some { 1 ≤ width }
    requires most { width ≤ 64 }
    requires bounded { list_all is_bounded jobs.now ≡ true }
    ensures { IfOk result (λ plan. (plan.lanes ≡ lanes_of width jobs.now) × (plan.turns ≡ turns_of width rounds jobs.now)) }
{
    let directories = parents(alloc, jobs)?;
    let lanes = lanes_of(alloc, width, directories.as_slice(), jobs)?;
    let turns = turns_for(alloc, directories.as_slice().len(), width, rounds)?;
    Ok(CopyPlan { lanes, turns })
}

/// Copies files over a link. Lane 0 creates the directories that contain the uploads, one after another. Then `width`
/// lanes, to which the files are dealt out in turn, write the uploads and read them back, and read the downloads. They
/// do so in `rounds` rounds of a step of each lane, a flush and the same number of takes, and after that until
/// everything is done.
///
/// With `Ok` the report is that of a run of these lanes under these turns, as `run_lanes` states it, and each verdict
/// is that of its file's outcomes.
///
/// If the replies are those of a file machine, a file reported as copied holds its content at the end. The bytes
/// reported as read are those that the file had at first, if no choice feigns an end. If no choice refuses a request,
/// each good file is copied or read:
///
/// - An upload is good if its directories exist or may be created and no directory has its name. Its path must fit in a
///   frame, and there must be room for it beside all other uploads.
/// - A download is good if it exists, by a path that fits, and has fewer bytes than its bound.
///
/// # Errors
///
/// The errors of `run_lanes`, with its causes.
pub fn copy_jobs<L: Link>(
    alloc: Global,
    link: &mut L,
    jobs: &[Job],
    width: u32,
    rounds: u32,
    options: &SftpOptions,
) -> Result<CopyReport, Error>
    requires may { MayCopy width rounds jobs.now }
    requires count { (L.LinkState.state link.old).faults < 2 ^ 64 - 1 }
    ensures run { IfOk result (λ r. IsCopyReport width rounds jobs.now options.now (L.LinkState.state link.old).log (L.LinkState.state link.new).log r) }
    ensures stops { IfErr result (λ e. IfLogged (EndsSession (session_inputs (lanes_of width jobs.now) options.now) (turns_of width rounds jobs.now) (L.LinkState.state link.new).ended e) (L.LinkState.state link.old).log (L.LinkState.state link.new).log) }
    ensures caused { IsCausedByLink (L.LinkState.state link.old) (L.LinkState.state link.new) result }
    ensures complete { IfErr result (StopsForMemory (session_inputs (lanes_of width jobs.now) options.now) (L.LinkState.state link.old) (L.LinkState.state link.new)) }
{
    let plan = match plan_copy(alloc, jobs, width, rounds) {
        Ok(plan) => plan,
        Err(OutOfMemory) => return Err(Error::OutOfMemory),
    };
    let report = run_lanes(
        alloc,
        link,
        plan.lanes.as_slice(),
        plan.turns.as_slice(),
        options,
    )?;
    match verdicts_of(alloc, width, jobs, report.outcomes.as_slice()) {
        Ok(verdicts) => Ok(CopyReport { report, verdicts }),
        Err(OutOfMemory) => Err(Error::OutOfMemory),
    }
}
