//! Copies a list of files over an SFTP server, each by a write that is read back or by a read.
#![tactic(auto)]

mod answer;
mod copy;
mod laws;
mod list;
mod names;
mod printed;
mod program;
mod reply;
mod schedule;

pub use copy::{CopyReport, copy_jobs};
pub use laws::{copies_are_complete, statuses_have_causes};
use link_duplex::{DuplexDial, StandardStreams};
pub use list::{CopyList, read_list};
pub use program::mirror;
use program_shell::{
    Command, OUT_OF_MEMORY, Operand, TIMEOUT, exit_over, exit_with, tell_refusal, words_given,
};
use sftp_link::{ReadSource, WriteSink};
use ssh_encoding::OutOfMemory;
use std::process::ExitCode;

/// The status if the arguments or the list can't be used.
const REFUSED: u8 = 2;

/// The message if the arguments are right and the list is refused.
const LIST: &str = "the list on standard input is invalid; standard output names its line";

/// Reports why the arguments or the list are refused.
fn tell_refused(rt: &HostRuntime, words: &[String]) {
    let path = Operand {
        name: "PATH",
        range: None,
    };
    let width = Operand {
        name: "WIDTH",
        range: Some((1, 64)),
    };
    let rounds = Operand {
        name: "ROUNDS",
        range: Some((0, 4096)),
    };
    let none: [Operand; 0] = [];
    let copy = [width, rounds];
    let unix = [path, width, rounds];
    tell_by_operands(rt, words, &none, &copy, &unix);
}

/// Reports the same, by the operands of the commands.
fn tell_by_operands<'a>(
    rt: &HostRuntime,
    words: &[String],
    none: &'a [Operand],
    copy: &'a [Operand],
    unix: &'a [Operand],
) {
    let commands = [
        Command {
            word: "copy",
            operands: copy,
            option: None,
        },
        Command {
            word: "unix",
            operands: unix,
            option: Some(TIMEOUT),
        },
        Command {
            word: "--help",
            operands: none,
            option: None,
        },
        Command {
            word: "--version",
            operands: none,
            option: None,
        },
    ];
    tell_refusal(rt, "sftp_mirror", &commands, words, LIST);
}

fn main(rt: HostRuntime) -> ExitCode {
    let words = match words_given(&rt) {
        Ok(words) => words,
        Err(OutOfMemory) => return exit_with(&rt, "sftp_mirror", OUT_OF_MEMORY),
    };
    let server = match schedule::unix_schedule(&words) {
        Some((_, server)) => Some(server),
        None => None,
    };
    let timeout = match server {
        Some(server) => server.timeout(),
        None => None,
    };
    let _streams = StandardStreams::keep(&rt);
    let mut source = ReadSource::new(rt.stdin());
    let mut sink = WriteSink::new(rt.stdout());
    let mut dial = DuplexDial::new(&rt, rt.alloc(), timeout);
    let mut kept = None;
    let status = mirror(
        rt.alloc(),
        &words,
        &mut source,
        &mut sink,
        &mut dial,
        &mut kept,
    );
    if status == REFUSED {
        tell_refused(&rt, &words);
    }
    match server {
        Some(server) => exit_over(&rt, "sftp_mirror", status, server, dial.is_silent()),
        None => exit_with(&rt, "sftp_mirror", status),
    }
}
