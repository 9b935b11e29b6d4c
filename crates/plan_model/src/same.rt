//! Equality of calls and lanes.
ghost use Rattle.plan_model.specs.Same.{call_decides, lane_decides};

use crate::call::{Call, Lane};
use sftp_values::Same;

impl Same for Call {
    ghost decides = { call_decides };
}

impl Same for Lane {
    ghost decides = { lane_decides };
}
