//! Runs a script over a server in memory or over a link, and returns its text.
ghost use Rattle.script_grammar.specs.CanRun.{CanRun};
ghost use Rattle.script_grammar.specs.Scripts.{script_of};
ghost use Rattle.sftp_cli.specs.Dialled.{RunsOver};
ghost use Rattle.sftp_cli.specs.Left.{LeavesServer};
ghost use Rattle.sftp_cli.specs.Printed.{IsPrinted};

use crate::printed::{Form, report_text, served_run};
use program_shell::{Answered, LinkProgram, Printed, Program, stop_reply};
use script_grammar::{Script, ScriptError, read_script};
use script_text::write_text;
use sftp_lanes::run_lanes;
use sftp_link::{Link, Logged};
use sftp_map_server::MapServer;
use ssh_encoding::OutOfMemory;
use std::alloc::Global;

impl Program for Form {
    type Value = Script;

    ghost may = { λ form. Unit {0} };

    ghost reads = { λ form. script_of };

    ghost can = { λ form. CanRun };

    ghost setup = { λ script. script };

    ghost leaves = { λ form. LeavesServer };

    ghost right = { IsPrinted };

    #[tactic(auto, using(crate::proofs::Reading::long_refused))]
    fn read(&self, alloc: Global, bytes: &[u8]) -> Result<Script, ScriptError> {
        read_script(alloc, bytes)
    }

    fn setup_of<'a>(&self, script: &'a Script) -> &'a Script {
        script
    }

    /// Runs the lanes, and returns the text of the run and of the files and directories that are left. Fails only if an
    /// allocation fails.
    #[tactic(auto, using(crate::proofs::Running::is_printed))]
    fn text_over(
        &self,
        alloc: Global,
        server: &mut MapServer,
        script: &Script,
    ) -> Result<Vec<u8>, OutOfMemory> {
        let lanes = script.lanes.as_slice();
        let turns = script.turns.as_slice();
        let report = served_run(alloc, server, lanes, turns, &script.options)?;
        report_text(alloc, *self, &report, server)
    }
}

impl LinkProgram for Form {
    ghost over = { λ form. RunsOver };

    /// Runs the lanes, and returns the text of the whole run, or the line of the error that stopped it. The script's
    /// files, server, choices and picks are ignored. Fails only if an allocation fails.
    #[tactic(auto, using(crate::proofs::Linked::is_shown))]
    fn reply_over<L: Link>(
        &self,
        alloc: Global,
        link: &mut Logged<L>,
        script: &Script,
    ) -> Result<Printed, OutOfMemory> {
        let lanes = script.lanes.as_slice();
        match run_lanes(alloc, link, lanes, script.turns.as_slice(), &script.options) {
            Ok(report) => {
                let mut text = Vec::new(alloc);
                write_text(alloc, &report, &mut text)?;
                Ok(Printed {
                    answered: Answered::Done,
                    text,
                })
            }
            Err(error) => stop_reply(alloc, &error),
        }
    }
}
