//! Copies the files of a list by a schedule, over a server in memory or over a link, and returns the text.
ghost use Rattle.sftp_mirror.specs.CanCopy.{CanCopy};
ghost use Rattle.sftp_mirror.specs.Dialled.{RunsOver};
ghost use Rattle.sftp_mirror.specs.Left.{LeavesServer};
ghost use Rattle.sftp_mirror.specs.Lists.{list_of};
ghost use Rattle.sftp_mirror.specs.Printed.{IsCopied};
ghost use Rattle.sftp_mirror.specs.Words.{IsSchedule};

use crate::copy::copy_jobs;
use crate::list::{CopyList, read_list};
use crate::printed::{copy_served, copy_text};
use crate::schedule::Schedule;
use mirror_jobs::write_verdicts;
use program_shell::{Answered, LinkProgram, Printed, Program, stop_reply};
use script_grammar::{Script, ScriptError};
use sftp_link::{Link, Logged};
use sftp_map_server::MapServer;
use ssh_encoding::OutOfMemory;
use std::alloc::Global;

impl Program for Schedule {
    type Value = CopyList;

    ghost may = { IsSchedule };

    ghost reads = { λ schedule. list_of };

    ghost can = { λ schedule. CanCopy };

    ghost setup = { λ list. list.script };

    ghost leaves = { LeavesServer };

    ghost right = { IsCopied };

    #[tactic(auto, using(crate::proofs::Reading::long_refused))]
    fn read(&self, alloc: Global, bytes: &[u8]) -> Result<CopyList, ScriptError> {
        read_list(alloc, bytes)
    }

    fn setup_of<'a>(&self, list: &'a CopyList) -> &'a Script {
        &list.script
    }

    /// Copies the files, and returns the text of the result of each and of the files and directories that are left.
    /// Fails only if an allocation fails.
    #[tactic(auto, using(crate::proofs::Running::is_copied))]
    fn text_over(
        &self,
        alloc: Global,
        server: &mut MapServer,
        list: &CopyList,
    ) -> Result<Vec<u8>, OutOfMemory> {
        let jobs = list.jobs.as_slice();
        let report = copy_served(alloc, server, *self, jobs, &list.script.options)?;
        copy_text(alloc, jobs, report.verdicts.as_slice(), server)
    }
}

impl LinkProgram for Schedule {
    ghost over = { RunsOver };

    /// Copies the files, and returns the text of the result of each, or the line of the error that stopped the run. The
    /// list's files, server, choices and picks are ignored. Fails only if an allocation fails.
    #[tactic(auto, using(crate::proofs::Linked::is_shown))]
    fn reply_over<L: Link>(
        &self,
        alloc: Global,
        link: &mut Logged<L>,
        list: &CopyList,
    ) -> Result<Printed, OutOfMemory> {
        let jobs = list.jobs.as_slice();
        let options = &list.script.options;
        match copy_jobs(alloc, link, jobs, self.width, self.rounds, options) {
            Ok(report) => {
                let mut text = Vec::new(alloc);
                write_verdicts(alloc, jobs, report.verdicts.as_slice(), &mut text)?;
                Ok(Printed {
                    answered: Answered::Done,
                    text,
                })
            }
            Err(error) => stop_reply(alloc, &error),
        }
    }
}
