//! The lanes that a session was given.
ghost use Rattle.std.specs.Prelude.{◌≡◌, ◌<◌, ◌^◌, length};

use session_model::Lane;
use sftp_values::Items;
use std::marker::Model;
use std::snapshot::Snapshot;

/// The lanes that a session was given. Only their count is kept; a contract sees the lanes themselves.
///
/// Used in `crates/sftp_lanes/src/session.rt`.
#[derive(Drop)]
pub struct GivenLanes {
    count: u32,
    // Read by clauses alone.
    lanes: Snapshot<Items<Lane>>,
}

impl Model for GivenLanes {
    ghost use Rattle.std.specs.Prelude.{◌≡◌, List, length};
    ghost use Rattle.plan_model.specs.declared.call.Lane.{Lane as LaneValue};

    ghost Value = { List LaneValue };

    ghost view = { λ g. g.lanes.value };

    ghost invariant = { λ g. g.count ≡ length g.lanes.value };
}

impl GivenLanes {
    /// Returns the record of these lanes.
    pub fn of(lanes: &Items<Lane>) -> GivenLanes
        requires { length lanes.now < 2 ^ 32 }
        ensures { result ≡ lanes.now }
    {
        GivenLanes {
            count: lanes.as_slice().len() as u32,
            lanes: Snapshot::of(lanes),
        }
    }

    /// Returns how many lanes there are.
    pub fn count(&self) -> u32
        ensures { result ≡ length self.now }
    {
        self.count
    }
}
