//! Runs of a session over a server of files in memory.
#![tactic(auto)]

mod laws;

pub use laws::{links_that_serve_end_well, runs_are_served};
