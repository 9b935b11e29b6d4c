//! The calls of lanes: an appended call, and the current one.
ghost use Rattle.std.specs.Prelude.{◌≡◌, ◌<◌, ◌∷◌, ◌++◌, [], OnOk, OnErr, length, slice_get};
ghost use Rattle.session_driver.specs.Adding.{with_call};
ghost use Rattle.std.specs.Option.{option_copied};
ghost use Rattle.session_work.specs.Noting.{call_in};

use crate::LaneState;
use session_model::{Call, Lane};
use sftp_values::Items;
use ssh_encoding::OutOfMemory;
use std::alloc::Global;

/// Appends an item. Fails if an allocation fails; the items are unchanged then.
pub(crate) fn push_last<T: Drop>(items: &mut Vec<T>, item: T) -> Result<(), OutOfMemory>
    ensures last { OnOk result (items.new.items ≡ items.old.items ++ item ∷ []) }
    ensures unchanged { OnErr result (items.new.items ≡ items.old.items) }
{
    items.push(item)?;
    Ok(())
}

/// Appends a call to those of a lane. Fails if an allocation fails; the lanes are unchanged then.
pub(crate) fn add_call(
    alloc: Global,
    lanes: &mut Items<Lane>,
    lane: usize,
    call: Call,
) -> Result<(), OutOfMemory>
    requires { lane < length lanes.old }
    ensures added { OnOk result (lanes.new ≡ with_call lanes.old lane call) }
    ensures unchanged { OnErr result (lanes.new ≡ lanes.old) }
{
    let empty = Lane {
        calls: Items::new(Vec::new(alloc)),
    };
    let was = lanes.replace(lane, empty);
    let mut calls = was.calls.into_vec();
    let added = push_last(&mut calls, call);
    let now = Lane {
        calls: Items::new(calls),
    };
    lanes.set(lane, now);
    added
}

/// Returns the lane with a number.
fn lane_at(lanes: &[Lane], k: usize) -> Option<&Lane>
    ensures { option_copied result ≡ slice_get lanes.now k }
{
    lanes.get(k)
}

/// Returns the state with a number.
fn state_at(states: &[LaneState], k: usize) -> Option<&LaneState>
    ensures { option_copied result ≡ slice_get states.now k }
{
    states.get(k)
}

/// Returns the call with a number.
fn call_at(calls: &[Call], k: usize) -> Option<&Call>
    ensures { option_copied result ≡ slice_get calls.now k }
{
    calls.get(k)
}

/// Returns the current call of a lane.
pub(crate) fn current_call<'a>(
    lanes: &'a [Lane],
    states: &[LaneState],
    lane: u32,
) -> Option<&'a Call>
    ensures { option_copied result ≡ call_in lanes.now states.now lane }
{
    let calls = lane_at(lanes, lane as usize)?;
    let state = state_at(states, lane as usize)?;
    call_at(calls.calls.as_slice(), state.ended() as usize)
}
