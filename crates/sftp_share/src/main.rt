//! Runs the lanes of a script in threads over one session: one thread for each lane, one that sends and one that reads.
#![tactic(auto)]

mod answer;
mod laws;
mod left;
mod outcome;
mod replay_laws;
mod replayed;
mod share;
mod statuses;
mod threads;
mod trace;

pub use laws::{a_difference_is_told, runs_are_complete, statuses_have_causes};
pub use machine_answers::Machine;
use machine_halves::MapPair;
pub use outcome::Replay;
use program_shell::{Command, Operand, tell_refusal};
pub use replay_laws::replays_serve;
pub use script_grammar::Script;
pub use session_model::Event;
use sftp_link::{ReadSource, WriteSink};
pub use sftp_model::{Reply, Request};
pub use share::share;
pub use ssh_encoding::OutOfMemory;
use std::env;
use std::io::ErrorKind;
use std::process::ExitCode;
pub use trace::replay;

/// The status if the arguments or the script can't be used.
const REFUSED: u8 = 2;

/// The message if there are no arguments and the script is refused.
const SCRIPT: &str = "the script on standard input is invalid; standard output names its line";

/// Reports why the arguments are refused. The commands have no operands.
fn tell_refused<'a>(rt: &HostRuntime, words: &[String], none: &'a [Operand]) {
    let commands = [
        Command {
            word: "--help",
            operands: none,
            option: None,
        },
        Command {
            word: "--version",
            operands: none,
            option: None,
        },
    ];
    tell_refusal(
        rt,
        "sftp_share",
        &commands,
        words,
        "the arguments are invalid",
    );
}

/// Returns the exit code of a status. Standard error gets the reason for any status other than 0. If standard error
/// fails too, the message is lost.
fn exit_with(rt: &HostRuntime, words: &[String], unreadable: bool, status: u8) -> ExitCode {
    if status == REFUSED && (unreadable || !words.is_empty()) {
        let none: [Operand; 0] = [];
        tell_refused(rt, words, &none);
    } else if status == REFUSED {
        let _ = eprintln!(rt; "sftp_share: {SCRIPT}");
    } else if let Some(cause) = statuses::cause_of(status) {
        let _ = eprintln!(rt; "sftp_share: {cause}");
    }
    ExitCode::from(status)
}

fn main(rt: HostRuntime) -> ExitCode {
    let mut words = Vec::new(rt.alloc());
    let mut starved = false;
    let mut unreadable = false;
    match env::args(&rt) {
        Ok(args) => {
            for word in args.skip(1) {
                starved |= words.push(word).is_err();
            }
        }
        Err(error) if error.kind() == ErrorKind::OutOfMemory => starved = true,
        // An argument that is not UTF-8 is refused.
        Err(_) => unreadable = true,
    }
    let mut sink = WriteSink::new(rt.stdout());
    let status = if starved {
        statuses::OUT_OF_MEMORY
    } else if words.is_empty() && !unreadable {
        let mut source = ReadSource::new(rt.stdin());
        let mut pair = MapPair::new();
        share(&rt, rt.alloc(), &mut source, &mut sink, &mut pair)
    } else {
        answer::answer(&words, &mut sink)
    };
    exit_with(&rt, &words, unreadable, status)
}
