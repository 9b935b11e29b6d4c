//! Checks of the lanes of a session.
ghost use Rattle.std.specs.Prelude.{◌≡◌, ◌+◌, ◌^◌, min};
ghost use Rattle.std.specs.List.{list_all, sum_by};
ghost use Rattle.plan_model.specs.Lanes.{is_within, lane_weight, are_ok};

use crate::call::Lane;

/// Returns true if a session accepts these lanes.
///
/// Each slot must be below 16, and each bound and each length of a buffer at least 1. The number of lanes, 65 for each
/// `FsRead` and 2 for each other call, and the bytes of each `BufWrite` and `BufWriteAll` must together be below
/// 2147483648.
#[tactic(auto, using(crate::proofs::Weights::limited_below))]
pub fn lanes_ok(lanes: &[Lane]) -> bool
    ensures { result ≡ are_ok lanes.now }
{
    each_is_within(lanes) && weight_of_lanes(lanes) < 0x8000_0000
}

/// Returns true if each call of each lane is within its ranges.
fn each_is_within(lanes: &[Lane]) -> bool
    ensures { result ≡ list_all (λ lane. list_all is_within lane.calls) lanes.now }
{
    lanes.iter().all(|lane| lane_is_within(lane))
}

/// Returns true if each call is within its ranges.
fn lane_is_within(lane: &Lane) -> bool
    ensures { result ≡ list_all is_within lane.now.calls }
{
    lane.calls.as_slice().iter().all(|call| call.is_within())
}

/// Returns a sum, or 2147483648 if it is more.
fn limited_sum(a: u32, b: u32) -> u32
    ensures { result ≡ min (a + b) (2 ^ 31) }
{
    a.saturating_add(b).min(0x8000_0000)
}

/// Returns the weight of a lane, or 2147483648 if it is more.
fn weight_of_lane(lane: &Lane) -> u32
    ensures { result ≡ min (lane_weight lane.now) (2 ^ 31) }
{
    let mut total = 1;
    for call in lane.calls.as_slice() {
        total = limited_sum(total, call.weight());
    }
    total
}

/// Returns the weight of lanes, or 2147483648 if it is more: 1 for each lane, and the weight of each of its calls.
pub fn weight_of_lanes(lanes: &[Lane]) -> u32
    ensures { result ≡ min (sum_by lane_weight lanes.now) (2 ^ 31) }
{
    let mut total = 0;
    for lane in lanes {
        total = limited_sum(total, weight_of_lane(lane));
    }
    total
}
