//! Copies the files of a list over a server in memory, and makes the text of the results.
ghost use Rattle.std.specs.Prelude.{◌≡◌, [], IfErr, IfOk};
ghost use Rattle.sftp_model.specs.declared.error.Error.TheVariants as error;
ghost use Rattle.session_driver.specs.Logs.{EndsSession};
ghost use Rattle.sftp_lanes.specs.Seen.{session_inputs};
ghost use Rattle.mirror_jobs.specs.JobLanes.{lanes_of, turns_of};
ghost use Rattle.sftp_map_server.specs.Unopened.{IsUnopened};
ghost use Rattle.sftp_mirror.specs.Copies.{MayCopy};
ghost use Rattle.sftp_mirror.specs.Printed.{IsServedCopy, copy_text};

use crate::copy::{CopyReport, copy_jobs};
use crate::schedule::Schedule;
use mirror_jobs::{Job, Verdict, write_verdicts};
use program_shell::{out_of_memory_from, write_dirs, write_files};
use sftp_map_server::MapServer;
use sftp_model::SftpOptions;
use ssh_encoding::OutOfMemory;
use std::alloc::Global;

/// Copies files over a server to which nothing was sent.
#[tactic(auto, using(crate::proofs::Running::served_copy))]
pub(crate) fn copy_served(
    alloc: Global,
    server: &mut MapServer,
    schedule: Schedule,
    jobs: &[Job],
    options: &SftpOptions,
) -> Result<CopyReport, OutOfMemory>
    requires may { MayCopy schedule.width schedule.rounds jobs.now }
    requires unopened { IsUnopened server.old.first }
    requires quiet { server.old.log ≡ [] }
    ensures run { IfOk result (λ report. IsServedCopy schedule jobs.now options.now server.new report) }
    ensures stops { IfErr result (λ e. EndsSession (session_inputs (lanes_of schedule.width jobs.now) options.now)
        (turns_of schedule.width schedule.rounds jobs.now) server.new.ended error.OutOfMemory [] server.new.log) }
    ensures first { server.new.first ≡ server.old.first }
{
    let result = copy_jobs(
        alloc,
        server,
        jobs,
        schedule.width,
        schedule.rounds,
        options,
    );
    // For the contract: its log is that of a server.
    let _ended = server.is_ended();
    match result {
        Ok(report) => Ok(report),
        Err(error) => Err(out_of_memory_from(error)),
    }
}

/// Returns the text of the result of each file, and of the files and directories that a server has.
pub(crate) fn copy_text(
    alloc: Global,
    jobs: &[Job],
    verdicts: &[Verdict],
    server: &MapServer,
) -> Result<Vec<u8>, OutOfMemory>
    ensures { IfOk result (λ text. text.items ≡ copy_text jobs.now verdicts.now server.now.now.state.machine.tree) }
{
    let mut text = Vec::new(alloc);
    write_verdicts(alloc, jobs, verdicts, &mut text)?;
    write_files(alloc, server, &mut text)?;
    write_dirs(alloc, server, &mut text)?;
    Ok(text)
}
