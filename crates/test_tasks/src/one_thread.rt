//! Tests of a shared session on one thread, over scripted links. Frames have the layout of
//! draft-ietf-secsh-filexfer-02, sections 3 to 7.
ghost use Rattle.std.specs.Prelude.{◌≡◌, true, IfOk, IfSome, OnOk};
ghost use Rattle.plan_model.specs.Lanes.{are_ok};

use crate::nested_half::NestedIn;
use sftp_link::{Scripted, ScriptedLink};
use sftp_tasks::*;
use sftp_values::{ByteText, Items};
use std::alloc::{AllocError, Global};
use std::sync::Wait;
use std::test::Fail;

const VERSION: &[u8] = b"\x00\x00\x00\x05\x02\x00\x00\x00\x03";

/// Returns a link that sends VERSION 3.
fn greeting(alloc: Global) -> Result<ScriptedLink, AllocError>
    ensures { IfOk result (λ link. link.calls.faults ≡ 0) }
{
    let mut items = Vec::new(alloc);
    items.push(Scripted::Raw(ByteText::new(Vec::from_slice(alloc, VERSION)?)))?;
    Ok(ScriptedLink::new(alloc, items, Vec::new(alloc), 0))
}

/// Returns two lanes without calls.
fn two_lanes(alloc: Global) -> Result<Vec<Lane>, AllocError> {
    let mut lanes = Vec::new(alloc);
    lanes.push(Lane {
        calls: Items::new(Vec::new(alloc)),
    })?;
    lanes.push(Lane {
        calls: Items::new(Vec::new(alloc)),
    })?;
    Ok(lanes)
}

fn stat(alloc: Global, name: &[u8]) -> Result<Call, AllocError> {
    Ok(Call::Stat {
        path: ByteText::new(Vec::from_slice(alloc, name)?),
    })
}

/// Sends what is unsent, and takes what comes. Returns true if both were done.
fn exchange<R: Wait>(
    rt: &R,
    shared: &SharedSftp,
    seat: &mut Seat,
    link: &mut ScriptedLink,
) -> Result<bool, Error>
    requires own { seat.old.inner.table_id ≡ shared.now.shared.table.shared.table_id }
    requires count { link.old.calls.faults ≡ 0 }
    ensures own { (seat.new.inner.table_id ≡ seat.old.inner.table_id) × (seat.new.lane ≡ seat.old.lane) }
    ensures count { OnOk result (link.new.calls.faults ≡ 0) }
{
    // A match, and no `?`: for true `flushes` says what was counted, which `read_round` requires.
    match flush_round(rt, shared, seat, link) {
        Ok(true) => {}
        Ok(false) => return Ok(false),
        Err(e) => return Err(e),
    }
    read_round(rt, shared, seat, link)
}

/// Returns the places in each list of receipts, and 99 after each list.
fn places(alloc: Global, lists: &[Vec<Receipt>]) -> Result<Vec<u64>, AllocError> {
    let mut places = Vec::new(alloc);
    for list in lists {
        for receipt in list.as_slice() {
            places.push(receipt.place)?;
        }
        places.push(99)?;
    }
    Ok(places)
}

/// Opens a session, and lets two lanes submit a call each, lane 1 first. The call of lane 0 is cancelled before it is
/// sent. Returns true if all this was done.
fn two_submit<R: Wait>(
    rt: &R,
    alloc: Global,
    shared: &SharedSftp,
    home: &mut Seat,
    zero: &mut Seat,
    one: &mut Seat,
) -> Result<bool, Fail>
    requires home { home.old.inner.table_id ≡ shared.now.shared.table.shared.table_id }
    requires zero { zero.old.inner.table_id ≡ shared.now.shared.table.shared.table_id }
    requires one { one.old.inner.table_id ≡ shared.now.shared.table.shared.table_id }
{
    let mut link = greeting(alloc)?;
    exchange(rt, shared, home, &mut link)?;
    shared.submit(rt, one, stat(alloc, b"b")?)?;
    shared.submit(rt, zero, stat(alloc, b"a")?)?;
    Ok(shared.cancel(rt, zero)?)
}

/// Returns a seat of the next lane.
fn seat_of<R: Wait>(rt: &R, shared: &SharedSftp, home: &mut Seat) -> Option<Seat>
    requires { home.old.inner.table_id ≡ shared.now.shared.table.shared.table_id }
    ensures own { home.new.inner.table_id ≡ home.old.inner.table_id }
    ensures given { IfSome result (λ s. s.inner.table_id ≡ home.old.inner.table_id) }
{
    if home.is_released() {
        return None;
    }
    shared.seat(rt, home)
}

/// A session of two lanes, its home seat, and the seats of the lanes.
struct Seated {
    shared: SharedSftp,
    home: Seat,
    zero: Seat,
    one: Seat,
    ghost is_home: { home.inner.table_id ≡ shared.shared.table.shared.table_id },
    ghost is_zero: { zero.inner.table_id ≡ shared.shared.table.shared.table_id },
    ghost is_one: { one.inner.table_id ≡ shared.shared.table.shared.table_id },
}

/// Returns a session of these lanes with a seat for each of two, or `None` if there are fewer.
fn open_seats<R: Wait>(rt: &R, alloc: Global, lanes: &[Lane]) -> Result<Option<Seated>, Fail>
    requires { are_ok lanes.now ≡ true }
{
    let (shared, mut home) = SharedSftp::new(alloc, lanes, &SftpOptions::new())?;
    let Some(zero) = seat_of(rt, &shared, &mut home) else {
        let _ = home.into_receipts();
        return Ok(None);
    };
    let Some(one) = seat_of(rt, &shared, &mut home) else {
        let _ = home.into_receipts();
        let _ = zero.into_receipts();
        return Ok(None);
    };
    Ok(Some(Seated {
        shared,
        home,
        zero,
        one,
    }))
}

/// Returns the places of the receipts of three seats, of which two lanes submit a call each.
fn submitted<R: Wait>(rt: &R, alloc: Global, lanes: &[Lane]) -> Result<Vec<u64>, Fail>
    requires { are_ok lanes.now ≡ true }
{
    let Some(seated) = open_seats(rt, alloc, lanes)? else {
        return Ok(Vec::new(alloc));
    };
    let Seated {
        shared,
        mut home,
        mut zero,
        mut one,
    } = seated;
    let went = two_submit(rt, alloc, &shared, &mut home, &mut zero, &mut one);
    let lists = [
        home.into_receipts(),
        zero.into_receipts(),
        one.into_receipts(),
    ];
    if !went? {
        return Ok(Vec::new(alloc));
    }
    Ok(places(alloc, &lists)?)
}

/// Lets a lane's request be sent, and another one be unsent. Then a round that reads and one that sends fail at once.
/// Returns their errors, that of the sending one first, whose fault is the session's first; or `None` if one did not
/// fail.
fn two_fail<R: Wait>(
    rt: &R,
    alloc: Global,
    shared: &SharedSftp,
    home: &mut Seat,
    zero: &mut Seat,
    one: &mut Seat,
) -> Result<Option<(Error, Error)>, Fail>
    requires home { home.old.inner.table_id ≡ shared.now.shared.table.shared.table_id }
    requires zero { zero.old.inner.table_id ≡ shared.now.shared.table.shared.table_id }
    requires one { one.old.inner.table_id ≡ shared.now.shared.table.shared.table_id }
{
    let mut link = greeting(alloc)?;
    exchange(rt, shared, home, &mut link)?;
    shared.submit(rt, one, stat(alloc, b"b")?)?;
    flush_round(rt, shared, home, &mut link)?;
    shared.submit(rt, zero, stat(alloc, b"a")?)?;
    let mut input = NestedIn {
        rt,
        alloc,
        shared,
        seat: shared.worker_seat(rt, home),
        error: None,
        ended: false,
    };
    let read = read_round(rt, shared, home, &mut input);
    let NestedIn {
        rt: _,
        alloc: _,
        shared: _,
        seat,
        error,
        ended: _,
    } = input;
    let _ = seat.into_receipts();
    match (error, read) {
        (Some(sent), Err(got)) => Ok(Some((sent, got))),
        _ => Ok(None),
    }
}

/// Returns the errors of two rounds that fail at once.
fn failed<R: Wait>(rt: &R, alloc: Global, lanes: &[Lane]) -> Result<Option<(Error, Error)>, Fail>
    requires { are_ok lanes.now ≡ true }
{
    let Some(seated) = open_seats(rt, alloc, lanes)? else {
        return Ok(None);
    };
    let Seated {
        shared,
        mut home,
        mut zero,
        mut one,
    } = seated;
    let errors = two_fail(rt, alloc, &shared, &mut home, &mut zero, &mut one);
    let _ = home.into_receipts();
    let _ = zero.into_receipts();
    let _ = one.into_receipts();
    errors
}

/// Tests that the entries of a call are next to each other, and that each seat has the receipts of its own: of a call and
/// its request, and of the cancel and the end of one.
#[test]
fn each_seat_has_its_receipts(rt: HostRuntime) -> Result<(), Fail> {
    let lanes = two_lanes(rt.alloc())?;
    assert!(rt; lanes_ok(lanes.as_slice()));
    let places = submitted(&rt, rt.alloc(), lanes.as_slice())?;
    assert!(rt; places.as_slice() == [99, 2, 3, 4, 5, 99, 0, 1, 99].as_slice());
    Ok(())
}

/// Tests that if two rounds fail at once, the second one returns the fault of the first.
#[test]
fn a_second_fault_returns_the_first(rt: HostRuntime) -> Result<(), Fail> {
    let lanes = two_lanes(rt.alloc())?;
    assert!(rt; lanes_ok(lanes.as_slice()));
    let errors = failed(&rt, rt.alloc(), lanes.as_slice())?;
    let first = Error::BackgroundTaskFailure(Fault::Link);
    assert!(rt; errors == Some((Error::LinkFault, first)));
    Ok(())
}
