//! Does operations on remote files through a cache of their blocks, by a session of one lane.
#![tactic(auto)]

mod all;
mod answer;
mod blocks;
mod call;
mod close;
mod laws;
mod ops;
mod printed;
mod program;
mod puts;
mod reply;
mod run;

pub use laws::{statuses_have_causes, views_are_complete};
pub use program::view;
use program_shell::{Command, OUT_OF_MEMORY, Operand, exit_with, tell_refusal, words_given};
pub use run::{ViewReport, run_view};
use sftp_link::{ReadSource, WriteSink};
use ssh_encoding::OutOfMemory;
use std::process::ExitCode;

/// The status if the arguments or the list can't be used.
const REFUSED: u8 = 2;

/// The message if the arguments are right and the list is refused.
const LIST: &str = "the list on standard input is invalid; standard output names its line";

/// Reports why the arguments or the list are refused.
fn tell_refused(rt: &HostRuntime, words: &[String]) {
    let size = [
        Operand {
            name: "BLOCK",
            range: Some((1, 65536)),
        },
        Operand {
            name: "CAPACITY",
            range: Some((1, 4096)),
        },
    ];
    let none: [Operand; 0] = [];
    tell_by_operands(rt, words, &none, &size);
}

/// Reports the same, by the operands of the commands.
fn tell_by_operands<'a>(
    rt: &HostRuntime,
    words: &[String],
    none: &'a [Operand],
    size: &'a [Operand],
) {
    let commands = [
        Command {
            word: "view",
            operands: size,
            option: None,
        },
        Command {
            word: "--help",
            operands: none,
            option: None,
        },
        Command {
            word: "--version",
            operands: none,
            option: None,
        },
    ];
    tell_refusal(rt, "sftp_view", &commands, words, LIST);
}

fn main(rt: HostRuntime) -> ExitCode {
    let words = match words_given(&rt) {
        Ok(words) => words,
        Err(OutOfMemory) => return exit_with(&rt, "sftp_view", OUT_OF_MEMORY),
    };
    let mut source = ReadSource::new(rt.stdin());
    let mut sink = WriteSink::new(rt.stdout());
    let mut kept = None;
    let status = view(rt.alloc(), &words, &mut source, &mut sink, &mut kept);
    if status == REFUSED {
        tell_refused(&rt, &words);
    }
    exit_with(&rt, "sftp_view", status)
}
