//! The threads of a run, and its report.
ghost use Rattle.std.specs.Prelude.{◌≡◌, ◌≢◌, ◌<◌, ◌⊎◌, ◌-◌, ◌^◌, ◌&&◌, ◌∷◌, ◌++◌, [], true, is_some, length, map, reverse, Err, None, Ok, IfErr, IfOk, IfSome, MatchOption};
ghost use Rattle.std.specs.Thread.{IsSync};
ghost use Rattle.plan_model.specs.Lanes.{are_ok};
ghost use Rattle.session_seats.specs.Closes.{AllOf, claims_of};
ghost use Rattle.session_seats.specs.Covers.{HasAllSeats};
ghost use Rattle.session_seats.specs.Holds.{sight_by};
ghost use Rattle.sftp_model.specs.declared.reply.Reply.{Reply};
ghost use Rattle.sftp_model.specs.declared.error.Error.TheVariants as error;
ghost use Rattle.sftp_model.specs.declared.error.Fault.{Fault};
ghost use Rattle.sftp_tasks.specs.Reported.{EndedByFault, Reported, lane_named};
ghost use Rattle.sftp_tasks.specs.Rounds.{fault_for};
ghost use Rattle.sftp_tasks.specs.Workers.{FlushWorks, ReadWorks};
ghost use Rattle.session_threads.specs.Crews.{IsCrew, named_in_order};
ghost use Rattle.session_threads.specs.RunEnds.{IsEnded};
ghost use Rattle.session_threads.specs.Reports.{Ended, IsCause, RunsOf, RunsShared, StopsBy, WorkersEnd, WorkersStop, own_error};
ghost use Rattle.session_threads.specs.Running.{AllReady, AllRan, HasRun, IsReady, WorkedUntilEnd, moves_none, sends_none, takes_none};

use crate::crew::Crew;
use crate::ends::is_ended;
use crate::failure::{close_failed, spend_refused};
use crate::halves::{Halves, NoStop, Stop};
use crate::seats::{open_session, run_home, run_lane, run_reader, run_sender, start};
use crate::shared_run::{SharedRun, Signals};
use sftp_link::{LinkIn, LinkOut};
use sftp_tasks::{
    Error, Lane, OutOfMemory, Seat, SftpOptions, SharedReport, SharedSftp, fault_for,
};
use std::alloc::Global;
use std::sync::Wait;
use std::thread;
use std::thread::Threads;
use std::time::Clock;

/// Runs the threads of the lanes; the home seat leaves first.
fn run_lanes<S: Stop + Sync, R: Threads + Wait + Clock + Sync>(
    rt: &R,
    run: &SharedRun<S>,
    home: &mut Seat,
    seats: &mut Vec<Seat>,
)
    requires home { IsReady run.now.shared.shared.table.shared.table_id home.old }
    requires seats { AllReady run.now.shared.shared.table.shared.table_id seats.old.items }
    ensures home { HasRun moves_none run.now.shared.shared.table.shared.table_id home.old home.new }
    ensures lanes { AllRan moves_none run.now.shared.shared.table.shared.table_id seats.old.items seats.new.items }
{
    run_home(rt, run, home);
    thread::for_each_mut(
        rt,
        seats.as_mut_slice(),
        usize::MAX, // a thread for each seat
        &|_: usize, seat: &mut Seat|
            requires { IsReady run.now.shared.shared.table.shared.table_id seat.now }
            ensures { HasRun moves_none run.entry.now.shared.shared.table.shared.table_id seat.entry.now seat.exit.now }
        { run_lane(rt, run, seat) },
    );
}

/// Runs the threads of the worker that reads, of the home seat and of the lanes. Returns the result of the worker.
fn run_others<I: LinkIn + Send, S: Stop + Sync, R: Threads + Wait + Clock + Sync>(
    rt: &R,
    run: &SharedRun<S>,
    reader: &mut Seat,
    input: &mut I,
    home: &mut Seat,
    lanes: &mut Vec<Seat>,
) -> Result<(), Error>
    requires reader { (reader.old.inner.table_id ≡ run.now.shared.shared.table.shared.table_id) × ((I.LinkState.state input.old).faults < 2 ^ 64 - 1) }
    requires lanes { IsReady run.now.shared.shared.table.shared.table_id home.old × AllReady run.now.shared.shared.table.shared.table_id lanes.old.items }
    ensures reader { HasRun sends_none run.now.shared.shared.table.shared.table_id reader.old reader.new
        × WorkedUntilEnd ReadWorks result (reader.old.inner.me, I.LinkState.state input.old) (reader.new.inner.me, I.LinkState.state input.new) }
    ensures lanes { HasRun moves_none run.now.shared.shared.table.shared.table_id home.old home.new
        × AllRan moves_none run.now.shared.shared.table.shared.table_id lanes.old.items lanes.new.items }
{
    let mut read = || -> Result<(), Error>
        requires { (reader.now.inner.table_id ≡ run.now.shared.shared.table.shared.table_id) × ((I.LinkState.state input.now).faults < 2 ^ 64 - 1) }
        ensures { HasRun sends_none run.entry.now.shared.shared.table.shared.table_id reader.entry.now reader.exit.now
            × WorkedUntilEnd ReadWorks result (reader.entry.now.inner.me, I.LinkState.state input.entry.now) (reader.exit.now.inner.me, I.LinkState.state input.exit.now) }
    { run_reader(rt, run, reader, input) };
    let mut poll = ||
        requires { IsSync R.row × IsSync S.row × IsReady run.now.shared.shared.table.shared.table_id home.now × AllReady run.now.shared.shared.table.shared.table_id lanes.now.items }
        ensures { HasRun moves_none run.entry.now.shared.shared.table.shared.table_id home.entry.now home.exit.now
            × AllRan moves_none run.entry.now.shared.shared.table.shared.table_id lanes.entry.now.items lanes.exit.now.items }
    { run_lanes(rt, run, home, lanes) };
    let (got, _) = thread::join_mut(rt, &mut read, &mut poll);
    got
}

/// Runs all threads of a run. Returns the results of the worker that sends and of the one that reads.
fn run_threads<
    O: LinkOut + Send,
    I: LinkIn + Send,
    S: Stop + Sync,
    R: Threads + Wait + Clock + Sync,
>(
    rt: &R,
    run: &SharedRun<S>,
    crew: &mut Crew,
    out: &mut O,
    input: &mut I,
) -> (Result<(), Error>, Result<(), Error>)
    requires crew { (hello : Reply) × IsCrew hello run.now.shared.shared.table.shared.table_id crew.old }
    requires counts { ((O.LinkState.state out.old).faults < 2 ^ 64 - 1) × ((I.LinkState.state input.old).faults < 2 ^ 64 - 1) }
    ensures sender { HasRun takes_none run.now.shared.shared.table.shared.table_id crew.old.sender crew.new.sender
        × WorkedUntilEnd FlushWorks result.0 (crew.old.sender.inner.me, O.LinkState.state out.old) (crew.new.sender.inner.me, O.LinkState.state out.new) }
    ensures reader { HasRun sends_none run.now.shared.shared.table.shared.table_id crew.old.reader crew.new.reader
        × WorkedUntilEnd ReadWorks result.1 (crew.old.reader.inner.me, I.LinkState.state input.old) (crew.new.reader.inner.me, I.LinkState.state input.new) }
    ensures lanes { HasRun moves_none run.now.shared.shared.table.shared.table_id crew.old.home crew.new.home
        × AllRan moves_none run.now.shared.shared.table.shared.table_id crew.old.lanes.items crew.new.lanes.items }
{
    let Crew {
        home,
        lanes,
        sender,
        reader,
    } = crew;
    let mut send = || -> Result<(), Error>
        requires { (sender.now.inner.table_id ≡ run.now.shared.shared.table.shared.table_id) × ((O.LinkState.state out.now).faults < 2 ^ 64 - 1) }
        ensures { HasRun takes_none run.entry.now.shared.shared.table.shared.table_id sender.entry.now sender.exit.now
            × WorkedUntilEnd FlushWorks result (sender.entry.now.inner.me, O.LinkState.state out.entry.now) (sender.exit.now.inner.me, O.LinkState.state out.exit.now) }
    { run_sender(rt, run, sender, out) };
    let mut others = || -> Result<(), Error>
        requires { IsSync R.row × IsSync S.row × (reader.now.inner.table_id ≡ run.now.shared.shared.table.shared.table_id)
            × ((I.LinkState.state input.now).faults < 2 ^ 64 - 1)
            × IsReady run.now.shared.shared.table.shared.table_id home.now × AllReady run.now.shared.shared.table.shared.table_id lanes.now.items }
        ensures { HasRun sends_none run.entry.now.shared.shared.table.shared.table_id reader.entry.now reader.exit.now
            × WorkedUntilEnd ReadWorks result (reader.entry.now.inner.me, I.LinkState.state input.entry.now) (reader.exit.now.inner.me, I.LinkState.state input.exit.now)
            × HasRun moves_none run.entry.now.shared.shared.table.shared.table_id home.entry.now home.exit.now
            × AllRan moves_none run.entry.now.shared.shared.table.shared.table_id lanes.entry.now.items lanes.exit.now.items }
    { run_others(rt, run, reader, input, home, lanes) };
    thread::join_mut(rt, &mut send, &mut others)
}

/// Returns the error of a worker that found something wrong itself, which is the session's first fault. Returns `None`
/// if the worker came to its end, or was stopped by running out of memory or by a fault that was recorded before.
fn own_error(did: Result<(), Error>) -> Option<Error>
    ensures is { result ≡ own_error did }
    ensures own { IfSome result (λ e. (did ≡ Err e) × (fault_for e ≢ None)) }
{
    match did {
        Ok(()) => None,
        Err(e) => match fault_for(&e) {
            Some(_) => Some(e),
            None => None,
        },
    }
}

/// Returns the reason that a run stopped in which a worker returned an error.
fn cause_of(sent: Result<(), Error>, got: Result<(), Error>) -> Error
    ensures { IsCause sent got result }
{
    match own_error(sent) {
        Some(e) => return e,
        None => {}
    }
    match own_error(got) {
        Some(e) => e,
        None => Error::OutOfMemory,
    }
}

/// Returns the reason that a run ended in which the workers returned these results, or `None` if both came to the end.
fn first_error(sent: Result<(), Error>, got: Result<(), Error>) -> Option<Error>
    ensures { MatchOption result ((sent ≡ Ok tt) × (got ≡ Ok tt)) (IsCause sent got) }
{
    if sent.is_ok() && got.is_ok() {
        return None;
    }
    Some(cause_of(sent, got))
}

/// Returns true if the session took VERSION and was open.
fn was_open(report: &SharedReport) -> bool
    ensures { result ≡ (report.now.is_open && is_some report.now.report.hello) }
{
    report.is_open && report.report.hello.is_some()
}

/// Ends the session, and reports what it did, the receipts of the lanes first. Fails if an allocation fails, if the
/// session has stopped, and if it isn't open.
fn close_run<R: Wait>(rt: &R, shared: SharedSftp, crew: Crew) -> Result<SharedReport, OutOfMemory>
    requires own { AllOf shared.shared.table.shared.table_id (crew.lanes.items ++ crew.home ∷ crew.sender ∷ crew.reader ∷ []) }
    requires all { HasAllSeats (claims_of (crew.lanes.items ++ crew.home ∷ crew.sender ∷ crew.reader ∷ [])) }
    requires named { map lane_named (crew.lanes.items ++ crew.home ∷ crew.sender ∷ crew.reader ∷ []) ≡ named_in_order (length (sight_by crew.home.inner.me).lanes) }
    ensures runs { IfOk result (λ report. RunsOf (sight_by crew.home.inner.me) report) }
    ensures reported { IfOk result (Reported (crew.lanes.items ++ crew.home ∷ crew.sender ∷ crew.reader ∷ [])) }
{
    let Ok((first, others)) = crew.into_seats() else {
        return Err(OutOfMemory);
    };
    match shared.close(rt, first, others) {
        Ok(report) => {
            if !was_open(&report) {
                return Err(OutOfMemory);
            }
            Ok(report)
        }
        Err(refused) => {
            drop(spend_refused(refused));
            Err(OutOfMemory)
        }
    }
}

/// Ends a session that this error stopped, as `close_failed` does, with the seats of its run.
fn close_stopped<R: Wait>(rt: &R, shared: SharedSftp, crew: Crew, why: Error) -> Error
    requires own { AllOf shared.shared.table.shared.table_id (crew.lanes.items ++ crew.home ∷ crew.sender ∷ crew.reader ∷ []) }
    ensures { (result ≡ error.OutOfMemory)
        ⊎ ((result ≡ why) × ((fault : Fault) × EndedByFault (crew.lanes.items ++ crew.home ∷ crew.sender ∷ crew.reader ∷ []) fault)) }
{
    match crew.into_seats() {
        Ok((first, others)) => close_failed(rt, shared, first, others, why),
        Err(OutOfMemory) => Error::OutOfMemory,
    }
}

/// Runs the threads of an opened session, and ends it. The halves come back. Errors are those of `run_shared`.
fn run_crew<
    O: LinkOut + Send,
    I: LinkIn + Send,
    S: Stop + Sync + Drop,
    R: Threads + Wait + Clock + Sync,
>(
    rt: &R,
    shared: SharedSftp,
    crew: Crew,
    halves: Halves<O, I, S>,
    lanes: usize,
) -> (Result<SharedReport, Error>, O, I)
    requires crew { ((hello : Reply) × IsCrew hello shared.shared.table.shared.table_id crew) × (lanes ≡ length (sight_by crew.home.inner.me).lanes) }
    requires counts { ((O.LinkState.state halves.out).faults < 2 ^ 64 - 1) × ((I.LinkState.state halves.input).faults < 2 ^ 64 - 1) }
    ensures runs { IfOk result.0 (λ report. RunsOf (sight_by crew.home.inner.me) report) }
    ensures over { IfOk result.0 (λ report. IsEnded lanes (reverse report.journal.items)) }
    ensures ends { IfOk result.0 (WorkersEnd (O.LinkState.state halves.out) (O.LinkState.state result.1) (I.LinkState.state halves.input) (I.LinkState.state result.2) crew.sender.inner.me) }
    ensures stops { IfErr result.0 (WorkersStop (O.LinkState.state halves.out) (O.LinkState.state result.1) (I.LinkState.state halves.input) (I.LinkState.state result.2)
        (sight_by crew.home.inner.me).lanes (sight_by crew.home.inner.me).options) }
{
    let Halves { out, input, stop } = halves;
    let mut out = out;
    let mut input = input;
    let mut crew = crew;
    let run = SharedRun {
        shared,
        signals: Signals::new(stop),
    };
    let (sent, got) = run_threads(rt, &run, &mut crew, &mut out, &mut input);
    let SharedRun { shared, signals: _ } = run;
    match first_error(sent, got) {
        Some(e) => {
            let why = close_stopped(rt, shared, crew, e);
            return (Err(why), out, input);
        }
        None => {}
    }
    match close_run(rt, shared, crew) {
        Ok(report) => {
            if !is_ended(report.journal.as_slice(), lanes) {
                return (Err(Error::OutOfMemory), out, input);
            }
            (Ok(report), out, input)
        }
        Err(OutOfMemory) => (Err(Error::OutOfMemory), out, input),
    }
}

/// Runs lanes over the two halves of a link. The home seat sends the hello and takes VERSION. Then there is a thread
/// for each lane, one that sends, and one that reads. The halves come back.
///
/// With `Ok` the journal is a run so far of the lanes and of VERSION, which was taken, with no recorded fault and no
/// grant left to close. Each place of it is in one list of receipts, once. Those of the lanes come first, in lane
/// order, each with all entries of its lane. Then come those of the home seat, which sends and takes none, of the
/// worker that sends and of the one that reads. Both workers came to the end: each lane was released, each request has
/// its reply, each handle was closed exactly as often as it was granted, and no call was added or cancelled.
///
/// If the halves report it, the one was sent the hello's frame and then the frames of all Sends of the journal, in
/// order. From the other came a frame that reads as VERSION and then one for each Take, in order.
///
/// A thread that ends with an error gives the session up and then calls `stop`, so that a thread which waits inside a
/// call of a half ends as well.
///
/// # Errors
///
/// `OutOfMemory` if an allocation failed, if no thread could be created for a worker, and also for a run whose journal
/// isn't that of such an end. Any other error stopped the opening or one of the workers, and is the session's first
/// fault: its journal, a run so far of these lanes and options, ends by it. If the session was opened, the halves show
/// the journal's Sends and Takes, and what came after the frames of the Takes shows why the worker that reads stopped:
/// `InvalidResponseId`, for example, is returned only for a frame whose id no sent, unanswered request has.
pub fn run_stoppable<
    O: LinkOut + Send,
    I: LinkIn + Send,
    S: Stop + Sync + Drop,
    R: Threads + Wait + Clock + Sync,
>(
    rt: &R,
    alloc: Global,
    halves: Halves<O, I, S>,
    lanes: &[Lane],
    options: &SftpOptions,
) -> (Result<SharedReport, Error>, O, I)
    requires lanes { are_ok lanes.now ≡ true }
    requires counts { ((O.LinkState.state halves.out).faults < 2 ^ 64 - 1) × ((I.LinkState.state halves.input).faults < 2 ^ 64 - 1) }
    ensures runs { IfOk result.0 (λ report. RunsShared lanes.now options.now report) }
    ensures over { IfOk result.0 (λ report. IsEnded (length lanes.now) (reverse report.journal.items)) }
    ensures ends { IfOk result.0 (Ended (O.LinkState.state halves.out) (O.LinkState.state result.1) (I.LinkState.state halves.input) (I.LinkState.state result.2)) }
    ensures stops { IfErr result.0 (StopsBy lanes.now options.now (O.LinkState.state halves.out) (O.LinkState.state result.1) (I.LinkState.state halves.input) (I.LinkState.state result.2)) }
{
    let Halves { out, input, stop } = halves;
    let mut out = out;
    let mut input = input;
    let (shared, home) = match open_session(rt, alloc, &mut out, &mut input, lanes, options) {
        Ok(opened) => opened,
        Err(e) => return (Err(e), out, input),
    };
    let Ok(crew) = start(rt, alloc, &shared, home, lanes.len()) else {
        return (Err(Error::OutOfMemory), out, input);
    };
    run_crew(rt, shared, crew, Halves { out, input, stop }, lanes.len())
}

/// Runs lanes over the two halves of a link, as `run_stoppable` does. A thread that waits inside a call of a half is
/// not woken if another thread ends with an error: it waits for its peer.
///
/// # Errors
///
/// Those of `run_stoppable`.
pub fn run_shared<
    O: LinkOut + Send + Drop,
    I: LinkIn + Send + Drop,
    R: Threads + Wait + Clock + Sync,
>(
    rt: &R,
    alloc: Global,
    out: O,
    input: I,
    lanes: &[Lane],
    options: &SftpOptions,
) -> (Result<SharedReport, Error>, O, I)
    requires lanes { are_ok lanes.now ≡ true }
    requires counts { ((O.LinkState.state out).faults < 2 ^ 64 - 1) × ((I.LinkState.state input).faults < 2 ^ 64 - 1) }
    ensures runs { IfOk result.0 (λ report. RunsShared lanes.now options.now report) }
    ensures over { IfOk result.0 (λ report. IsEnded (length lanes.now) (reverse report.journal.items)) }
    ensures ends { IfOk result.0 (Ended (O.LinkState.state out) (O.LinkState.state result.1) (I.LinkState.state input) (I.LinkState.state result.2)) }
    ensures stops { IfErr result.0 (StopsBy lanes.now options.now (O.LinkState.state out) (O.LinkState.state result.1) (I.LinkState.state input) (I.LinkState.state result.2)) }
{
    let halves = Halves {
        out,
        input,
        stop: NoStop,
    };
    run_stoppable(rt, alloc, halves, lanes, options)
}
