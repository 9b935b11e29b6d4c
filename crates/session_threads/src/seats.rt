//! Seats of a run, and the work of each one's thread.
ghost use Rattle.std.specs.Prelude.{◌≡◌, ◌<◌, ◌-◌, ◌^◌, [], Some, true, IfErr, IfOk, length, map};
ghost use Rattle.plan_model.specs.Lanes.{are_ok};
ghost use Rattle.session_seats.specs.Closes.{claim_by, claims_of};
ghost use Rattle.session_seats.specs.Covers.{HomeGave};
ghost use Rattle.session_seats.specs.Holds.{AddsEntries, claim_of, fits_lane, sight_by};
ghost use Rattle.sftp_tasks.specs.Reported.{lane_named};
ghost use Rattle.sftp_tasks.specs.Workers.{FlushWorks, ReadWorks};
ghost use Rattle.sftp_model.specs.declared.reply.Reply.{Reply};
ghost use Rattle.sftp_tasks.specs.Sent.{SeesVersion};
ghost use Rattle.session_threads.specs.Reports.{OpeningStops, SendsHelloFirst};
ghost use Rattle.session_threads.specs.Running.{AllMadeNothing, AllReady, HasGiven, HasRun, IsReady, SameMade, StopsAfter, WorkedUntilEnd, adds_nothing, moves_none, sends_none, takes_none};
ghost use Rattle.session_threads.specs.Crews.{IsCrew, IsHome, lanes_below};
ghost use Rattle.session_threads.specs.Running.{IsOf};

use crate::crew::Crew;
use crate::failure::{close_failed, spend};
use crate::halves::Stop;
use crate::shared_run::SharedRun;
use sftp_link::{LinkIn, LinkOut};
use sftp_tasks::{
    Error, Lane, OutOfMemory, Seat, SftpOptions, SharedSftp, fault_for, flush_worker, read_worker,
};
use std::alloc::Global;
use std::sync::Wait;
use std::time::Clock;

/// Returns a session of these lanes, which its home seat opens: it sends the hello over the one half, and takes VERSION
/// from the other.
///
/// # Errors
///
/// `OutOfMemory` if an allocation fails. Any other error stopped the opening, and is the session's first fault: its
/// journal, a run so far of these lanes and options, ends by it.
pub fn open_session<O: LinkOut, I: LinkIn, R: Wait>(
    rt: &R,
    alloc: Global,
    out: &mut O,
    input: &mut I,
    lanes: &[Lane],
    options: &SftpOptions,
) -> Result<(SharedSftp, Seat), Error>
    requires lanes { are_ok lanes.now ≡ true }
    requires counts { ((O.LinkState.state out.old).faults < 2 ^ 64 - 1) × ((I.LinkState.state input.old).faults < 2 ^ 64 - 1) }
    ensures home { IfOk result (λ r. IsHome r.0.shared.table.shared.table_id r.1 × IsOf lanes.now options.now (sight_by r.1.inner.me)) }
    ensures opens { IfOk result (λ r. SendsHelloFirst r.1.inner.me (O.LinkState.state out.old) (O.LinkState.state out.new) (I.LinkState.state input.old) (I.LinkState.state input.new)) }
    ensures stops { IfErr result (OpeningStops lanes.now options.now (O.LinkState.state out.old) (O.LinkState.state out.new) (I.LinkState.state input.old) (I.LinkState.state input.new)) }
{
    let Ok((shared, home)) = SharedSftp::new(alloc, lanes, options) else {
        return Err(Error::OutOfMemory);
    };
    let mut home = home;
    match shared.greet(rt, &mut home, out, input) {
        Ok(true) => Ok((shared, home)),
        Ok(false) => {
            drop(home.into_receipts());
            Err(Error::OutOfMemory) // nobody else has a seat yet
        }
        Err(e) => match fault_for(&e) {
            Some(_) => {
                let others = Vec::new(alloc); // nobody else has a seat yet
                Err(close_failed(rt, shared, home, others, e))
            }
            None => {
                drop(home.into_receipts());
                Err(Error::OutOfMemory) // no fault was recorded before
            }
        },
    }
}

/// Returns the seats of a run of `count` lanes, which the home seat of an opened session gives.
///
/// # Errors
///
/// `OutOfMemory` if an allocation fails, and if the session has fewer lanes.
pub fn start<R: Wait>(
    rt: &R,
    alloc: Global,
    shared: &SharedSftp,
    home: Seat,
    count: usize,
) -> Result<Crew, OutOfMemory>
    requires home { IsHome shared.now.shared.table.shared.table_id home }
    requires count { count ≡ length (sight_by home.inner.me).lanes }
    ensures crew { IfOk result (λ crew. (hello : Reply) → SeesVersion hello (sight_by home.inner.me) → IsCrew hello shared.now.shared.table.shared.table_id crew) }
    ensures made { IfOk result (λ crew. SameMade (sight_by home.inner.me) (sight_by crew.home.inner.me)) }
{
    let mut home = home;
    let Ok(seats) = lane_seats(rt, alloc, shared, &mut home, count) else {
        drop(home.into_receipts());
        return Err(OutOfMemory);
    };
    let sender = shared.worker_seat(rt, &mut home);
    let reader = shared.worker_seat(rt, &mut home);
    Ok(Crew {
        home,
        lanes: seats,
        sender,
        reader,
    })
}

/// Returns true if the seat names the lane.
fn names(seat: &Seat, lane: usize) -> bool
    ensures { result ≡ fits_lane (Some lane) seat.now.lane }
{
    match seat.lane() {
        Some(named) => lane == named as usize,
        None => false,
    }
}

/// Returns the seats of `count` lanes, in lane order. Fails if an allocation fails, and if there are fewer lanes.
fn lane_seats<R: Wait>(
    rt: &R,
    alloc: Global,
    shared: &SharedSftp,
    home: &mut Seat,
    count: usize,
) -> Result<Vec<Seat>, OutOfMemory>
    requires home { IsReady shared.now.shared.table.shared.table_id home.old }
    requires first { HomeGave (claim_by home.old) [] }
    ensures home { HasGiven shared.now.shared.table.shared.table_id home.old home.new }
    ensures seats { IfOk result (λ seats. AllReady shared.now.shared.table.shared.table_id seats.items
        × HomeGave (claim_by home.new) (claims_of seats.items) × AllMadeNothing seats.items) }
    ensures named { IfOk result (λ seats. map lane_named seats.items ≡ lanes_below count) }
{
    let mut seats = Vec::new(alloc);
    for _ in 0..count {
        if seats.reserve(1).is_err() {
            spend(seats);
            return Err(OutOfMemory);
        }
        let Some(seat) = shared.seat(rt, home) else {
            spend(seats);
            return Err(OutOfMemory);
        };
        if !names(&seat, seats.len()) {
            drop(seat.into_receipts());
            spend(seats);
            return Err(OutOfMemory);
        }
        seats.push_reserved(seat);
    }
    Ok(seats)
}

/// Gives the session up, so that no other thread waits for this one, and ends the waits inside calls of the halves.
pub fn stop<S: Stop, R: Wait>(rt: &R, run: &SharedRun<S>, seat: &mut Seat)
    requires { seat.old.inner.table_id ≡ run.now.shared.shared.table.shared.table_id }
    ensures ran { HasRun moves_none run.now.shared.shared.table.shared.table_id seat.old seat.new }
    ensures adds { AddsEntries adds_nothing (claim_of seat.old.inner.me) (claim_of seat.new.inner.me) }
{
    run.shared.give_up(rt, seat);
    run.signals.stop_waits();
}

/// Polls a lane to its end, and releases its seat.
fn finish_lane<R: Wait>(rt: &R, shared: &SharedSftp, seat: &mut Seat) -> Result<(), Error>
    requires { IsReady shared.now.shared.table.shared.table_id seat.old }
    ensures { HasRun moves_none shared.now.shared.table.shared.table_id seat.old seat.new }
{
    // No `?`: each exit has an answer of its own, which is named by its arm.
    match shared.poll_wait(rt, seat) {
        Ok(_calls) => {}
        Err(e) => return Err(e),
    }
    match shared.release(rt, seat) {
        Ok(true) => Ok(()),
        Ok(false) => Err(Error::OutOfMemory),
        Err(e) => Err(e),
    }
}

/// Runs the thread of a lane. If it can't be finished the session is given up.
pub(crate) fn run_lane<S: Stop, R: Wait>(rt: &R, run: &SharedRun<S>, seat: &mut Seat)
    requires { IsReady run.now.shared.shared.table.shared.table_id seat.old }
    ensures { HasRun moves_none run.now.shared.shared.table.shared.table_id seat.old seat.new }
{
    match finish_lane(rt, &run.shared, seat) {
        Ok(()) => return,
        Err(_) => {}
    }
    stop(rt, run, seat);
}

/// Lets the home seat leave, once both workers have started. If one of them can't start the session is given up.
pub fn run_home<S: Stop, R: Wait + Clock>(rt: &R, run: &SharedRun<S>, home: &mut Seat)
    requires { IsReady run.now.shared.shared.table.shared.table_id home.old }
    ensures { HasRun moves_none run.now.shared.shared.table.shared.table_id home.old home.new }
{
    if run.signals.have_started(rt) {
        run_lane(rt, run, home);
        return;
    }
    stop(rt, run, home);
}

/// Gives the session up if a worker returned an error, and returns its result.
fn stop_after<S: Stop, R: Wait>(
    rt: &R,
    run: &SharedRun<S>,
    seat: &mut Seat,
    did: Result<(), Error>,
) -> Result<(), Error>
    requires { seat.old.inner.table_id ≡ run.now.shared.shared.table.shared.table_id }
    ensures same { result ≡ did }
    ensures stops { StopsAfter did run.now.shared.shared.table.shared.table_id seat.old seat.new }
{
    // No `?`: it converts the error, and `same` is an equation of the whole result.
    match did {
        Ok(()) => Ok(()),
        Err(e) => {
            stop(rt, run, seat);
            Err(e)
        }
    }
}

/// Runs the thread that sends. If it can't continue the session is given up.
///
/// # Errors
///
/// Those of `flush_worker` of `sftp_tasks`.
pub fn run_sender<O: LinkOut, S: Stop, R: Wait + Clock>(
    rt: &R,
    run: &SharedRun<S>,
    seat: &mut Seat,
    out: &mut O,
) -> Result<(), Error>
    requires own { seat.old.inner.table_id ≡ run.now.shared.shared.table.shared.table_id }
    requires count { (O.LinkState.state out.old).faults < 2 ^ 64 - 1 }
    ensures ran { HasRun takes_none run.now.shared.shared.table.shared.table_id seat.old seat.new }
    ensures works { WorkedUntilEnd FlushWorks result (seat.old.inner.me, O.LinkState.state out.old) (seat.new.inner.me, O.LinkState.state out.new) }
{
    run.signals.note_start(rt);
    let did = flush_worker(rt, &run.shared, seat, out);
    stop_after(rt, run, seat, did)
}

/// Runs the thread that reads. If it can't continue the session is given up.
///
/// # Errors
///
/// Those of `read_worker` of `sftp_tasks`.
pub fn run_reader<I: LinkIn, S: Stop, R: Wait>(
    rt: &R,
    run: &SharedRun<S>,
    seat: &mut Seat,
    input: &mut I,
) -> Result<(), Error>
    requires own { seat.old.inner.table_id ≡ run.now.shared.shared.table.shared.table_id }
    requires count { (I.LinkState.state input.old).faults < 2 ^ 64 - 1 }
    ensures ran { HasRun sends_none run.now.shared.shared.table.shared.table_id seat.old seat.new }
    ensures works { WorkedUntilEnd ReadWorks result (seat.old.inner.me, I.LinkState.state input.old) (seat.new.inner.me, I.LinkState.state input.new) }
{
    run.signals.note_start(rt);
    let did = read_worker(rt, &run.shared, seat, input);
    stop_after(rt, run, seat, did)
}
