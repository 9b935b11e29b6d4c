//! The model of an SFTP session's lanes: calls and turns, the entries of a journal, and the definitions of `specs/`
//! that say which journals are runs, which logs show them and which servers of files served them.
#![tactic(auto)]

mod copy;
mod entry;
mod event;
mod laws;
mod report;
mod same;
mod turn;

pub use entry::Entry;
pub use event::{Event, Owner};
pub use laws::{
    calls_go_by_their_plans, grants_are_closed_once, handles_are_closed, ids_are_read,
    ids_name_requests, letting_go_settles, reads_under_way_fit, replies_stay, runs_are_journals,
};
pub use plan_model::{Call, Lane, lanes_ok};
pub use report::Report;
pub use sftp_model::Outcome;
pub use ssh_encoding::OutOfMemory;
pub use turn::Turn;
