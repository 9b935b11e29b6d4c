//! Programs over `session_threads`, each proved: a script whose lanes run in threads over a server at a Unix socket,
//! threads of the program's own that submit and cancel calls, lanes over replies that are laid out beforehand, and many
//! runs over the server in memory whose receipts are compared with their journals.
#![tactic(auto)]

mod calls;
mod laid_out;
mod receipts;
mod sheet;
mod socket;

use machine_halves::MapPair;
use std::env;
use std::process::ExitCode;

/// The text that `--help` prints.
const USAGE: &str = "example_threads unix SOCKET\n\
    unix: runs the lanes of the script on standard input, each in a thread, over the server that listens at SOCKET\n\
    example_threads counts SOCKET\n\
    counts: the same, and prints how many lanes, entries, receipts and bytes that were read there are\n\
    example_threads calls SOCKET\n\
    calls: runs eight threads over the server at SOCKET that submit 200 calls each and cancel some\n\
    example_threads sheet\n\
    sheet: runs eight lanes of 200 calls over a link whose replies are laid out beforehand\n\
    example_threads runs COUNT\n\
    runs: as often runs eight lanes of 201 calls over the server in memory, and compares journals and receipts\n";

/// Runs one of the examples:
///
/// - `example_threads unix SOCKET` runs a script's lanes over a server and prints the frames and outcomes.
/// - `counts SOCKET` prints numbers in their place.
/// - `calls SOCKET` runs eight threads that submit and cancel calls.
/// - `sheet` runs eight lanes over replies that are laid out.
/// - `runs COUNT` runs eight lanes this many times over the server in memory.
fn main(rt: HostRuntime) -> ExitCode {
    // No `?`: `main` returns an exit status.
    let done = match words_of(&rt) {
        Ok(words) => match words.as_slice() {
            [word] if word.as_str() == "--help" => rt
                .print(USAGE)
                .map_err(|_| "standard output can't be written"),
            [word, path] if is_over_socket(word) => match socket::script_of(&rt) {
                Ok(script) => match socket::run_script(&rt, rt.alloc(), path, &script) {
                    Ok(report) => socket::print_run(&rt, word.as_str() == "counts", &report),
                    Err(why) => Err(why),
                },
                Err(why) => Err(why),
            },
            [word, path] if word.as_str() == "calls" => {
                match calls::run_calls(&rt, rt.alloc(), path) {
                    Ok(report) => calls::print_calls(&rt, &report),
                    Err(why) => Err(why),
                }
            }
            [word] if word.as_str() == "sheet" => match laid_out::run_sheet(&rt, rt.alloc()) {
                Ok(report) => socket::print_report(&rt, &report),
                Err(why) => Err(why),
            },
            [word, count] if word.as_str() == "runs" => {
                receipts::run_often(&rt, rt.alloc(), &mut MapPair::new(), count)
            }
            _ => Err("unix, counts or calls and a socket, sheet, or runs and a count are needed"),
        },
        Err(why) => Err(why),
    };
    match done {
        Ok(()) => ExitCode::from(0),
        Err(why) => {
            // If standard error fails too, the message is lost.
            let _ = eprintln!(rt; "example_threads: {why}");
            ExitCode::from(1)
        }
    }
}

/// Returns true if a word asks for a script over a socket.
fn is_over_socket(word: &str) -> bool {
    word == "unix" || word == "counts"
}

/// Returns the arguments of the command line, without the program's name.
fn words_of(rt: &HostRuntime) -> Result<Vec<String>, &'static str> {
    let mut words = Vec::new(rt.alloc());
    let args = env::args(rt).map_err(|_| "the arguments are not UTF-8")?;
    for word in args.skip(1) {
        words.push(word).map_err(|_| "no memory")?;
    }
    Ok(words)
}
