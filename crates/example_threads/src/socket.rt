//! Runs the lanes of a script in threads over the two halves of a connected socket.
ghost use Rattle.std.specs.Prelude.{◌≡◌, IfOk, true};
ghost use Rattle.plan_model.specs.Lanes.{are_ok};

use script_grammar::{Script, read_script};
use script_text::write_text;
use session_threads::{Halves, Stop, run_stoppable};
use sftp_link::{ReadSource, StreamLink, UnixLink, WriteSink, read_up_to, write_all};
use sftp_model::Outcome;
use sftp_tasks::{Error, Report, SharedReport};
use std::alloc::Global;
use std::net::{Net, Shutdown};
use std::os::unix::net::UnixStream;
use std::sync::Wait;
use std::thread::Threads;
use std::time::Clock;

/// The greatest length of a script in bytes.
const MAX_SCRIPT_LEN: usize = 16_777_216;

/// Returns the script on standard input.
pub(crate) fn script_of(rt: &HostRuntime) -> Result<Script, &'static str>
    ensures { IfOk result (λ script. are_ok script.lanes ≡ true) }
{
    let mut source = ReadSource::new(rt.stdin());
    let Ok(bytes) = read_up_to(rt.alloc(), &mut source, MAX_SCRIPT_LEN) else {
        return Err("standard input can't be read");
    };
    match read_script(rt.alloc(), &bytes) {
        Ok(script) => Ok(script),
        Err(_) => Err("standard input is not a valid script"),
    }
}

/// Prints the frames and outcomes of a report.
pub(crate) fn print_report(rt: &HostRuntime, report: &Report) -> Result<(), &'static str> {
    let mut text = Vec::new(rt.alloc());
    if write_text(rt.alloc(), report, &mut text).is_err() {
        return Err("no memory");
    }
    let mut sink = WriteSink::new(rt.stdout());
    match write_all(&mut sink, &text) {
        Ok(()) => Ok(()),
        Err(_) => Err("standard output can't be written"),
    }
}

/// Returns the reason why a run stopped.
pub(crate) fn reason(error: Error) -> &'static str {
    match error {
        Error::OutOfMemory => "out of memory, or the session was given up",
        Error::LinkFault => "the connection failed",
        Error::LinkEnded => "the server ended the connection",
        _ => "the server sent an invalid reply",
    }
}

/// Prints the report of a run, or only its numbers.
pub(crate) fn print_run(
    rt: &HostRuntime,
    counts: bool,
    report: &SharedReport,
) -> Result<(), &'static str> {
    if counts {
        print_counts(rt, report)
    } else {
        print_report(rt, &report.report)
    }
}

/// Prints the number of lanes, entries and receipts, and the number of bytes that the lanes' calls read.
fn print_counts(rt: &HostRuntime, report: &SharedReport) -> Result<(), &'static str> {
    let lanes = report.report.outcomes.as_slice();
    let mut bytes: u64 = 0;
    for outcomes in lanes {
        bytes = bytes.saturating_add(bytes_of(outcomes.as_slice()));
    }
    let mut receipts: usize = 0;
    for list in report.receipts.as_slice() {
        receipts = receipts.saturating_add(list.len());
    }
    let lanes = lanes.len();
    let entries = report.journal.len();
    println!(rt; "lanes {lanes} entries {entries} receipts {receipts} bytes {bytes}").map_err(
        |_| "standard output can't be written",
    )
}

/// Returns the number of bytes that reads returned.
fn bytes_of(outcomes: &[Outcome]) -> u64 {
    let mut sum: u64 = 0;
    for outcome in outcomes {
        if let Outcome::Bytes(bytes) = outcome {
            sum = sum.saturating_add(bytes.as_slice().len() as u64);
        }
    }
    sum
}

/// A connected socket whose shutdown ends the waits inside `recv` and `send` over its clones.
#[derive(Drop)]
pub(crate) struct Closing {
    stream: UnixStream,
}

impl Stop for Closing {
    /// Shuts the connection down in both directions.
    fn stop(&self) {
        // If that fails the connection has ended already.
        let _ = self.stream.shutdown(Shutdown::Both);
    }
}

/// Returns the halves of a connection to the server that listens at a socket.
pub(crate) fn connect<R: Net>(
    rt: &R,
    path: &str,
) -> Result<Halves<UnixLink, UnixLink, Closing>, &'static str>
    ensures { IfOk result (λ halves. (halves.out.faults ≡ 0) × (halves.input.faults ≡ 0)) }
{
    let Ok(stream) = UnixStream::connect(rt, path) else {
        return Err("no server listens on the socket");
    };
    let (Ok(input), Ok(other)) = (stream.try_clone(), stream.try_clone()) else {
        return Err("the connection failed");
    };
    Ok(Halves {
        out: StreamLink::new(stream),
        input: StreamLink::new(input),
        stop: Closing { stream: other },
    })
}

/// Runs the lanes of a script over the server that listens at a socket, and returns the report. The script's server,
/// files, choices, picks and turns are ignored.
pub(crate) fn run_script<R: Net + Threads + Wait + Clock + Sync>(
    rt: &R,
    alloc: Global,
    path: &str,
    script: &Script,
) -> Result<SharedReport, &'static str>
    requires { are_ok script.now.lanes ≡ true }
{
    let halves = connect(rt, path)?;
    let (result, _, _) = run_stoppable(rt, alloc, halves, script.lanes.as_slice(), &script.options);
    match result {
        Ok(report) => Ok(report),
        Err(error) => Err(reason(error)),
    }
}
