//! The calls of a session's lanes, with what they count.
ghost use Rattle.std.specs.Prelude.{◌≡◌, ◌<◌, ◌+◌, ◌^◌, ℕ, length, min, true, OnErr, OnOk};
ghost use Rattle.plan_model.specs.Lanes.{are_ok};
ghost use Rattle.session_driver.specs.Adding.{with_call};

use crate::calls::add_call;
use plan_model::weight_of_lanes;
use session_model::{Call, Lane};
use sftp_values::Items;
use ssh_encoding::OutOfMemory;
use std::alloc::Global;
use std::marker::Model;

/// The calls of each lane, and what they count together, so that a further call is checked alone. A contract sees the
/// lanes.
///
/// Used in `crates/session_work/src/lanes.rt`.
#[derive(Drop)]
pub struct WeighedLanes {
    lanes: Items<Lane>,
    // At most 2147483648, also if the weight is more.
    weight: u32,
}

impl Model for WeighedLanes {
    ghost use Rattle.std.specs.Prelude.{◌≡◌, ◌^◌, List, min};
    ghost use Rattle.std.specs.List.{sum_by};
    ghost use Rattle.plan_model.specs.Lanes.{lane_weight};
    ghost use Rattle.plan_model.specs.declared.call.Lane.{Lane as LaneValue};

    ghost Value = { List LaneValue };

    ghost view = { λ w. w.lanes };

    ghost invariant = { λ w. w.weight ≡ min (sum_by lane_weight w.lanes) (2 ^ 31) };
}

/// Returns a sum, or 2147483648 if it is more.
fn limited_sum(a: u32, b: u32) -> u32
    ensures { result ≡ min (a + b) (2 ^ 31) }
{
    a.saturating_add(b).min(0x8000_0000)
}

impl WeighedLanes {
    /// Returns these lanes with what they count.
    pub(crate) fn new(lanes: Items<Lane>) -> WeighedLanes
        ensures { result ≡ lanes }
    {
        let weight = weight_of_lanes(lanes.as_slice());
        WeighedLanes { lanes, weight }
    }

    /// Returns the lanes.
    pub fn as_items(&self) -> &Items<Lane>
        ensures { result.now ≡ self.now }
    {
        &self.lanes
    }

    /// Returns the lanes, as a slice.
    pub fn as_slice(&self) -> &[Lane]
        ensures { result.now ≡ self.now }
    {
        self.lanes.as_slice()
    }

    /// Returns true if a session that may be given these lanes may also be given them with the call appended to one of
    /// them, as `lanes_ok` decides for the lanes with the call. Nothing is copied.
    pub fn may_have(&self, call: &Call) -> bool
        requires ok { are_ok self.now ≡ true }
        ensures { (lane : ℕ) → lane < length self.now → result ≡ are_ok (with_call self.now lane call.now) }
    {
        call.is_within() && limited_sum(self.weight, call.weight()) < 0x8000_0000
    }

    /// Appends a call to those of a lane. Fails if an allocation fails; the lanes are unchanged then.
    pub(crate) fn push_call(
        &mut self,
        alloc: Global,
        lane: usize,
        call: Call,
    ) -> Result<(), OutOfMemory>
        requires { lane < length self.old }
        ensures added { OnOk result (self.new ≡ with_call self.old lane call) }
        ensures unchanged { OnErr result (self.new ≡ self.old) }
    {
        let weight = limited_sum(self.weight, call.weight());
        add_call(alloc, &mut self.lanes, lane, call)?;
        self.weight = weight;
        Ok(())
    }
}
