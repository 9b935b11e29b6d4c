//! Threads of a program's own over one session: each of eight submits calls to its lane, and cancels some. One more
//! sends and one reads, each over its half of a socket.
ghost use Rattle.std.specs.Prelude.{◌≡◌, ◌<◌, ◌-◌, ◌^◌, true};
ghost use Rattle.std.specs.Thread.{IsSync};
ghost use Rattle.plan_model.specs.Lanes.{are_ok};
ghost use Rattle.session_seats.specs.Closes.{AllOf};
ghost use Rattle.sftp_model.specs.declared.reply.Reply.{Reply};
ghost use Rattle.session_threads.specs.Crews.{IsCrew};
ghost use Rattle.session_threads.specs.Running.{AllReady, IsReady};

use crate::receipts::are_receipts_of;
use crate::socket::{connect, reason};
use session_threads::{
    Crew, Halves, SharedRun, Signals, Stop, open_session, run_home, run_reader, run_sender,
    spend_refused, start, stop,
};
use sftp_link::UnixLink;
use sftp_model::Outcome;
use sftp_tasks::{Call, Error, Lane, Seat, SftpOptions, SharedReport, SharedSftp, lanes_ok};
use sftp_values::{ByteText, Items};
use std::alloc::{AllocError, Global};
use std::net::Net;
use std::sync::Wait;
use std::thread;
use std::thread::Threads;
use std::time::Clock;

/// The number of lanes, each with a thread of its own.
const LANES: usize = 8;

/// The number of calls that a lane's thread submits.
const ROUNDS: u32 = 200;

/// Returns the call of this round: it asks for attributes, or reads a file.
fn call_of(alloc: Global, round: u32) -> Result<Call, AllocError> {
    if round % 2 == 0 {
        return Ok(Call::Stat {
            path: ByteText::new(Vec::from_slice(alloc, b"/")?),
        });
    }
    Ok(Call::FsRead {
        path: ByteText::new(Vec::from_slice(alloc, b"/etc/hosts")?),
        bound: 9,
    })
}

/// Submits a call to the seat's lane. Fails if the session does not take it.
fn submit<R: Wait>(rt: &R, shared: &SharedSftp, seat: &mut Seat, call: Call) -> Result<(), Error>
    requires { IsReady shared.now.shared.table.shared.table_id seat.old }
    ensures { IsReady shared.now.shared.table.shared.table_id seat.new }
{
    match shared.submit(rt, seat, call) {
        Ok(true) => Ok(()),
        Ok(false) => Err(Error::OutOfMemory),
        Err(e) => Err(e),
    }
}

/// Cancels the call that runs, in every fourth round.
fn cancel<R: Wait>(rt: &R, shared: &SharedSftp, seat: &mut Seat, round: u32) -> Result<(), Error>
    requires { IsReady shared.now.shared.table.shared.table_id seat.old }
    ensures { IsReady shared.now.shared.table.shared.table_id seat.new }
{
    if round % 4 != 1 {
        return Ok(());
    }
    match shared.cancel(rt, seat) {
        Ok(_) => Ok(()),
        Err(e) => Err(e),
    }
}

/// Waits until the calls of the seat's lane have ended.
fn wait<R: Wait>(rt: &R, shared: &SharedSftp, seat: &mut Seat) -> Result<(), Error>
    requires { IsReady shared.now.shared.table.shared.table_id seat.old }
    ensures { IsReady shared.now.shared.table.shared.table_id seat.new }
{
    match shared.poll_wait(rt, seat) {
        Ok(_) => Ok(()),
        Err(e) => Err(e),
    }
}

/// Submits the call of this round, and waits until it has ended.
fn make_round<R: Wait>(
    rt: &R,
    alloc: Global,
    shared: &SharedSftp,
    seat: &mut Seat,
    round: u32,
) -> Result<(), Error>
    requires { IsReady shared.now.shared.table.shared.table_id seat.old }
    ensures { IsReady shared.now.shared.table.shared.table_id seat.new }
{
    let Ok(call) = call_of(alloc, round) else {
        return Err(Error::OutOfMemory);
    };
    match submit(rt, shared, seat, call) {
        Ok(()) => {}
        Err(e) => return Err(e),
    }
    match cancel(rt, shared, seat, round) {
        Ok(()) => wait(rt, shared, seat),
        Err(e) => Err(e),
    }
}

/// Makes the rounds of a lane, and releases it.
fn make_rounds<R: Wait>(
    rt: &R,
    alloc: Global,
    shared: &SharedSftp,
    seat: &mut Seat,
) -> Result<(), Error>
    requires { IsReady shared.now.shared.table.shared.table_id seat.old }
    ensures { seat.new.inner.table_id ≡ shared.now.shared.table.shared.table_id }
{
    for round in 0..ROUNDS {
        match make_round(rt, alloc, shared, seat, round) {
            Ok(()) => {}
            Err(e) => return Err(e),
        }
    }
    match shared.release(rt, seat) {
        Ok(true) => Ok(()),
        Ok(false) => Err(Error::OutOfMemory),
        Err(e) => Err(e),
    }
}

/// Runs the thread of a lane. If it can't continue the session is given up.
fn run_lane<S: Stop, R: Wait>(rt: &R, alloc: Global, run: &SharedRun<S>, seat: &mut Seat)
    requires { IsReady run.now.shared.shared.table.shared.table_id seat.old }
    ensures { seat.new.inner.table_id ≡ run.now.shared.shared.table.shared.table_id }
{
    match make_rounds(rt, alloc, &run.shared, seat) {
        Ok(()) => return,
        Err(_) => {}
    }
    stop(rt, run, seat);
}

/// Runs the threads of the lanes; the home seat leaves first.
fn run_lanes<S: Stop + Sync, R: Threads + Wait + Clock + Sync>(
    rt: &R,
    run: &SharedRun<S>,
    home: &mut Seat,
    seats: &mut Vec<Seat>,
)
    requires home { IsReady run.now.shared.shared.table.shared.table_id home.old }
    requires seats { AllReady run.now.shared.shared.table.shared.table_id seats.old.items }
    ensures home { home.new.inner.table_id ≡ run.now.shared.shared.table.shared.table_id }
    ensures seats { AllOf run.now.shared.shared.table.shared.table_id seats.new.items }
{
    run_home(rt, run, home);
    let alloc = *seats.allocator();
    thread::for_each_mut(
        rt,
        seats.as_mut_slice(),
        usize::MAX, // a thread for each seat
        &|_: usize, seat: &mut Seat|
            requires { IsReady run.now.shared.shared.table.shared.table_id seat.now }
            ensures { seat.exit.now.inner.table_id ≡ run.entry.now.shared.shared.table.shared.table_id }
        { run_lane(rt, alloc, run, seat) },
    );
}

/// Runs the threads of the worker that reads and of the lanes. Returns the result of the worker.
fn run_others<S: Stop + Sync, R: Threads + Wait + Clock + Sync>(
    rt: &R,
    run: &SharedRun<S>,
    reader: &mut Seat,
    input: &mut UnixLink,
    home: &mut Seat,
    lanes: &mut Vec<Seat>,
) -> Result<(), Error>
    requires reader { (reader.old.inner.table_id ≡ run.now.shared.shared.table.shared.table_id) × (input.old.faults < 2 ^ 64 - 1) }
    requires lanes { IsReady run.now.shared.shared.table.shared.table_id home.old × AllReady run.now.shared.shared.table.shared.table_id lanes.old.items }
    ensures reader { reader.new.inner.table_id ≡ run.now.shared.shared.table.shared.table_id }
    ensures lanes { (home.new.inner.table_id ≡ run.now.shared.shared.table.shared.table_id) × AllOf run.now.shared.shared.table.shared.table_id lanes.new.items }
{
    let mut read = || -> Result<(), Error>
        requires { (reader.now.inner.table_id ≡ run.now.shared.shared.table.shared.table_id) × (input.now.faults < 2 ^ 64 - 1) }
        ensures { reader.exit.now.inner.table_id ≡ run.entry.now.shared.shared.table.shared.table_id }
    { run_reader(rt, run, reader, input) };
    let mut poll = ||
        requires { IsSync R.row × IsSync S.row × IsReady run.now.shared.shared.table.shared.table_id home.now × AllReady run.now.shared.shared.table.shared.table_id lanes.now.items }
        ensures { (home.exit.now.inner.table_id ≡ run.entry.now.shared.shared.table.shared.table_id) × AllOf run.entry.now.shared.shared.table.shared.table_id lanes.exit.now.items }
    { run_lanes(rt, run, home, lanes) };
    let (got, _) = thread::join_mut(rt, &mut read, &mut poll);
    got
}

/// Runs all threads. Returns true if both workers came to the end.
fn run_threads<S: Stop + Sync, R: Threads + Wait + Clock + Sync>(
    rt: &R,
    run: &SharedRun<S>,
    crew: &mut Crew,
    out: &mut UnixLink,
    input: &mut UnixLink,
) -> bool
    requires crew { (hello : Reply) × IsCrew hello run.now.shared.shared.table.shared.table_id crew.old }
    requires counts { (out.old.faults < 2 ^ 64 - 1) × (input.old.faults < 2 ^ 64 - 1) }
    ensures lanes { AllOf run.now.shared.shared.table.shared.table_id crew.new.lanes.items }
    ensures others { (crew.new.home.inner.table_id ≡ run.now.shared.shared.table.shared.table_id)
        × (crew.new.sender.inner.table_id ≡ run.now.shared.shared.table.shared.table_id)
        × (crew.new.reader.inner.table_id ≡ run.now.shared.shared.table.shared.table_id) }
{
    let Crew {
        home,
        lanes,
        sender,
        reader,
    } = crew;
    let mut send = || -> Result<(), Error>
        requires { (sender.now.inner.table_id ≡ run.now.shared.shared.table.shared.table_id) × (out.now.faults < 2 ^ 64 - 1) }
        ensures { sender.exit.now.inner.table_id ≡ run.entry.now.shared.shared.table.shared.table_id }
    { run_sender(rt, run, sender, out) };
    let mut others = || -> Result<(), Error>
        requires { IsSync R.row × IsSync S.row × (reader.now.inner.table_id ≡ run.now.shared.shared.table.shared.table_id) × (input.now.faults < 2 ^ 64 - 1)
            × IsReady run.now.shared.shared.table.shared.table_id home.now × AllReady run.now.shared.shared.table.shared.table_id lanes.now.items }
        ensures { (reader.exit.now.inner.table_id ≡ run.entry.now.shared.shared.table.shared.table_id)
            × (home.exit.now.inner.table_id ≡ run.entry.now.shared.shared.table.shared.table_id)
            × AllOf run.entry.now.shared.shared.table.shared.table_id lanes.exit.now.items }
    { run_others(rt, run, reader, input, home, lanes) };
    let (sent, got) = thread::join_mut(rt, &mut send, &mut others);
    sent.is_ok() && got.is_ok()
}

/// Ends the session, and returns its report.
fn close<R: Wait>(rt: &R, shared: SharedSftp, crew: Crew) -> Result<SharedReport, &'static str>
    requires lanes { AllOf shared.shared.table.shared.table_id crew.lanes.items }
    requires others { (crew.home.inner.table_id ≡ shared.shared.table.shared.table_id) × (crew.sender.inner.table_id ≡ shared.shared.table.shared.table_id)
        × (crew.reader.inner.table_id ≡ shared.shared.table.shared.table_id) }
{
    let Ok((first, others)) = crew.into_seats() else {
        return Err("no memory");
    };
    match shared.close(rt, first, others) {
        Ok(report) => Ok(report),
        Err(refused) => Err(reason(spend_refused(refused))),
    }
}

/// Returns lanes without calls.
fn empty_lanes(alloc: Global) -> Result<Vec<Lane>, AllocError> {
    let mut lanes = Vec::new(alloc);
    for _ in 0..LANES {
        lanes.push(Lane {
            calls: Items::new(Vec::new(alloc)),
        })?;
    }
    Ok(lanes)
}

/// Opens the session of lanes over a socket, and runs all threads to the end. Returns the report.
fn run_lanes_of<R: Net + Threads + Wait + Clock + Sync>(
    rt: &R,
    alloc: Global,
    path: &str,
    lanes: &[Lane],
) -> Result<SharedReport, &'static str>
    requires { are_ok lanes.now ≡ true }
{
    let Halves {
        mut out,
        mut input,
        stop,
    } = connect(rt, path)?;
    let options = SftpOptions::new();
    let (shared, home) = match open_session(rt, alloc, &mut out, &mut input, lanes, &options) {
        Ok(opened) => opened,
        Err(e) => return Err(reason(e)),
    };
    let Ok(mut crew) = start(rt, alloc, &shared, home, lanes.len()) else {
        return Err("no memory");
    };
    let run = SharedRun {
        shared,
        signals: Signals::new(stop),
    };
    let ended = run_threads(rt, &run, &mut crew, &mut out, &mut input);
    let SharedRun { shared, signals: _ } = run;
    let report = close(rt, shared, crew)?;
    if ended {
        Ok(report)
    } else {
        Err("a worker stopped")
    }
}

/// Returns how many calls have an outcome, and how many of them were cancelled.
fn counts_of(lanes: &[Items<Outcome>]) -> (usize, usize) {
    let mut calls: usize = 0;
    let mut cancelled: usize = 0;
    for outcomes in lanes {
        let outcomes = outcomes.as_slice();
        let some = outcomes
            .iter()
            .filter(|outcome| matches!(*outcome, Outcome::Cancelled));
        calls = calls.saturating_add(outcomes.len());
        cancelled = cancelled.saturating_add(some.count());
    }
    (calls, cancelled)
}

/// Runs the threads over the server that listens at a socket, and compares the receipts with the journal. Returns the
/// report.
pub(crate) fn run_calls<R: Net + Threads + Wait + Clock + Sync>(
    rt: &R,
    alloc: Global,
    path: &str,
) -> Result<SharedReport, &'static str> {
    let Ok(lanes) = empty_lanes(alloc) else {
        return Err("no memory");
    };
    if !lanes_ok(lanes.as_slice()) {
        return Err("a session can't be given the lanes");
    }
    let report = run_lanes_of(rt, alloc, path, lanes.as_slice())?;
    match are_receipts_of(alloc, report.journal.as_slice(), report.receipts.as_slice()) {
        Ok(true) => Ok(report),
        Ok(false) => Err("the receipts aren't those of the journal"),
        Err(_) => Err("no memory"),
    }
}

/// Prints how many calls of a report have an outcome, and how many of them were cancelled.
pub(crate) fn print_calls(rt: &HostRuntime, report: &SharedReport) -> Result<(), &'static str> {
    let (calls, cancelled) = counts_of(report.report.outcomes.as_slice());
    println!(rt; "calls {calls} cancelled {cancelled}").map_err(
        |_| "standard output can't be written",
    )
}
