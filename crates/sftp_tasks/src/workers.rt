//! Workers, which make rounds until the end, each over its half of the link.
ghost use Rattle.std.specs.Prelude.{◌≡◌, ◌<◌, ◌-◌, ◌^◌, OnOk};
ghost use Rattle.session_seats.specs.Holds.{AddsEntries, claim_of, sight_by};
ghost use Rattle.sftp_tasks.specs.Calls.{InOneHold};
ghost use Rattle.sftp_tasks.specs.Entries.{by_flush, by_nothing, by_read};
ghost use Rattle.sftp_tasks.specs.LockedEvents.{SettlesEnd, TellsStage};
ghost use Rattle.sftp_tasks.specs.Workers.{FlushShift, FlushWorks, ReadShift, ReadWorks, SeesAnswered, is_over, over_if};

use crate::events::{Finish, LookStage};
use crate::rounds::{flush_round, read_round};
use crate::shared_sftp::{Seat, SharedSftp, settle};
use session_seats::Waiter;
use sftp_link::{LinkIn, LinkOut};
use sftp_model::Error;
use std::sync::Wait;

/// The kind of one shift of a worker.
///
/// Used by `flush_worker` and `read_worker` in this file.
#[derive(Clone, Copy)]
pub enum Shift {
    /// It sent frames, or took one.
    Worked,
    /// There was nothing to do.
    Idle,
    /// There was nothing to do, and nothing will be.
    Over,
}

impl Shift {
    /// Returns true if it was the worker's last.
    fn is_over(&self) -> bool
        ensures { result ≡ is_over self.now }
    {
        matches!(self, Shift::Over)
    }
}

/// Returns a shift without work, the last one if there will be none.
fn over_if(over: bool) -> Shift
    ensures { result ≡ over_if over }
{
    if over { Shift::Over } else { Shift::Idle }
}

/// Looks at the stage of the end.
fn stage<R: Wait>(rt: &R, shared: &SharedSftp, seat: &mut Seat) -> Result<u64, Error>
    requires own { seat.old.inner.table_id ≡ shared.now.shared.table.shared.table_id }
    ensures own { (seat.new.inner.table_id ≡ seat.old.inner.table_id) × (seat.new.lane ≡ seat.old.lane) }
    ensures only { AddsEntries (by_nothing seat.old.lane) (claim_of seat.old.inner.me) (claim_of seat.new.inner.me) }
    ensures looks { InOneHold TellsStage result seat.old.inner.me seat.new.inner.me }
{
    let (did, copied) = seat.apply(rt, shared.alloc, &shared.shared, LookStage);
    settle(did, copied)
}

/// Settles the end, if it has started and each request of an open session has its reply.
fn finish<R: Wait>(rt: &R, shared: &SharedSftp, seat: &mut Seat) -> Result<bool, Error>
    requires own { seat.old.inner.table_id ≡ shared.now.shared.table.shared.table_id }
    ensures own { (seat.new.inner.table_id ≡ seat.old.inner.table_id) × (seat.new.lane ≡ seat.old.lane) }
    ensures only { AddsEntries (by_nothing seat.old.lane) (claim_of seat.old.inner.me) (claim_of seat.new.inner.me) }
    ensures looks { InOneHold SettlesEnd result seat.old.inner.me seat.new.inner.me }
{
    let (did, copied) = seat.apply(rt, shared.alloc, &shared.shared, Finish);
    settle(did, copied)
}

/// Makes a round that sends and, if nothing was unsent, looks at the stage. Errors are those of `flush_round`.
fn flush_shift<O: LinkOut, R: Wait>(
    rt: &R,
    shared: &SharedSftp,
    seat: &mut Seat,
    out: &mut O,
) -> Result<Shift, Error>
    requires own { seat.old.inner.table_id ≡ shared.now.shared.table.shared.table_id }
    requires count { (O.LinkState.state out.old).faults < 2 ^ 64 - 1 }
    ensures own { (seat.new.inner.table_id ≡ seat.old.inner.table_id) × (seat.new.lane ≡ seat.old.lane) }
    ensures only { AddsEntries (by_flush seat.old.lane) (claim_of seat.old.inner.me) (claim_of seat.new.inner.me) }
    ensures shift { FlushShift result (seat.old.inner.me, O.LinkState.state out.old) (seat.new.inner.me, O.LinkState.state out.new) }
{
    // No `?`: it converts the error, and `shift` is by cases on the result.
    match flush_round(rt, shared, seat, out) {
        Ok(true) => return Ok(Shift::Worked),
        Ok(false) => {}
        Err(e) => return Err(e),
    }
    match stage(rt, shared, seat) {
        Ok(stage) => Ok(over_if(stage >= 2)),
        Err(e) => Err(e),
    }
}

/// Makes a round that reads and, if no reply is awaited, settles the end if it can be. Errors are those of
/// `read_round`.
fn read_shift<I: LinkIn, R: Wait>(
    rt: &R,
    shared: &SharedSftp,
    seat: &mut Seat,
    input: &mut I,
) -> Result<Shift, Error>
    requires own { seat.old.inner.table_id ≡ shared.now.shared.table.shared.table_id }
    requires count { (I.LinkState.state input.old).faults < 2 ^ 64 - 1 }
    ensures own { (seat.new.inner.table_id ≡ seat.old.inner.table_id) × (seat.new.lane ≡ seat.old.lane) }
    ensures only { AddsEntries (by_read seat.old.lane) (claim_of seat.old.inner.me) (claim_of seat.new.inner.me) }
    ensures shift { ReadShift result (seat.old.inner.me, I.LinkState.state input.old) (seat.new.inner.me, I.LinkState.state input.new) }
{
    // No `?`: it converts the error, and `shift` is by cases on the result.
    match read_round(rt, shared, seat, input) {
        Ok(true) => return Ok(Shift::Worked),
        Ok(false) => {}
        Err(e) => return Err(e),
    }
    match finish(rt, shared, seat) {
        Ok(all) => Ok(over_if(all)),
        Err(e) => Err(e),
    }
}

/// Makes rounds that send until the stage of the end is 2. If nothing is unsent it waits for a request, or for the end.
///
/// # Errors
///
/// Those of `flush_round`.
pub fn flush_worker<O: LinkOut, R: Wait>(
    rt: &R,
    shared: &SharedSftp,
    seat: &mut Seat,
    out: &mut O,
) -> Result<(), Error>
    requires own { seat.old.inner.table_id ≡ shared.now.shared.table.shared.table_id }
    requires count { (O.LinkState.state out.old).faults < 2 ^ 64 - 1 }
    ensures own { (seat.new.inner.table_id ≡ seat.old.inner.table_id) × (seat.new.lane ≡ seat.old.lane) }
    ensures only { AddsEntries (by_flush seat.old.lane) (claim_of seat.old.inner.me) (claim_of seat.new.inner.me) }
    ensures rounds { FlushWorks result (seat.old.inner.me, O.LinkState.state out.old) (seat.new.inner.me, O.LinkState.state out.new) }
    ensures stage { OnOk result ((sight_by seat.new.inner.me).counts.stage ≡ 2) }
{
    let mut seen = shared.shared.changes(rt, Waiter::Sender);
    for _ in rt.forever() {
        // No `?`: it converts the error, and `rounds` is by cases on the result.
        let shift = match flush_shift(rt, shared, seat, out) {
            Ok(shift) => shift,
            Err(e) => return Err(e),
        };
        if shift.is_over() {
            return Ok(());
        }
        seen = shared.rest(rt, shift, Waiter::Sender, seen);
    }
    unreachable!()
}

/// Makes rounds that read, each only if fewer frames were taken than were written whole, until the end has started and
/// each request of an open session has its reply. It then raises the stage of the end to 2. If no reply is awaited it
/// waits for a change.
///
/// # Errors
///
/// Those of `read_round`.
pub fn read_worker<I: LinkIn, R: Wait>(
    rt: &R,
    shared: &SharedSftp,
    seat: &mut Seat,
    input: &mut I,
) -> Result<(), Error>
    requires own { seat.old.inner.table_id ≡ shared.now.shared.table.shared.table_id }
    requires count { (I.LinkState.state input.old).faults < 2 ^ 64 - 1 }
    ensures own { (seat.new.inner.table_id ≡ seat.old.inner.table_id) × (seat.new.lane ≡ seat.old.lane) }
    ensures only { AddsEntries (by_read seat.old.lane) (claim_of seat.old.inner.me) (claim_of seat.new.inner.me) }
    ensures rounds { ReadWorks result (seat.old.inner.me, I.LinkState.state input.old) (seat.new.inner.me, I.LinkState.state input.new) }
    ensures answered { OnOk result (SeesAnswered (sight_by seat.new.inner.me)) }
{
    let mut seen = shared.shared.changes(rt, Waiter::Reader);
    for _ in rt.forever() {
        // No `?`: it converts the error, and `rounds` is by cases on the result.
        let shift = match read_shift(rt, shared, seat, input) {
            Ok(shift) => shift,
            Err(e) => return Err(e),
        };
        if shift.is_over() {
            return Ok(());
        }
        seen = shared.rest(rt, shift, Waiter::Reader, seen);
    }
    unreachable!()
}

impl SharedSftp {
    /// Waits for a change that concerns the worker, after a shift without work. Returns how many did so far.
    fn rest<R: Wait>(&self, rt: &R, shift: Shift, who: Waiter, seen: u64) -> u64 {
        match shift {
            Shift::Idle => self.shared.wait(rt, who, seen),
            _ => self.shared.changes(rt, who),
        }
    }
}
