//! The calls of lanes, and the plans of all calls: the next move of each, by the lane's site at its start, by its own
//! requests and by the replies so far. The definitions are in `specs/`, beside worked examples of each.
#![tactic(auto)]

mod call;
mod lanes;
mod laws;
mod rows;
mod same;

pub use call::{Call, Lane};
pub use lanes::{lanes_ok, weight_of_lanes};
pub use laws::{
    buffers_keep_their_limit, calls_make_so_many_requests, cancelled_calls_leave_held_grants,
    ends_leave_held_grants, moves_are_good, plans_wait_for_missing_replies,
    reads_stand_at_their_files, requests_fit_frames, requests_may_be_asked,
    unbounded_reads_keep_within_range,
};
pub use rows::calls_as_worked_out;
