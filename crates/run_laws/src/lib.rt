//! Laws of whole runs, regardless of the calls of others between: the bytes that calls read back and leave in files,
//! the entries that directories list, and that a script fixes the text of its run.
//!
//! This crate has only laws; the definitions are in `specs/`.
#![tactic(auto)]

mod journals;
mod read_laws;
mod sessions;
mod texts;
mod whole_runs;

pub use journals::{
    closes_stand_after_all_uses, handles_are_those_of_grants, requests_bear_held_handles,
    requests_of_whole_runs_were_sent, served_requests_use_grants,
};
pub use read_laws::{
    deferred_writes_are_joined, ended_calls_went_by_their_plans, flushed_writes_are_in_the_file,
    listings_give_directories, reads_give_what_was_there, served_journals_are_runs,
    spared_names_stay, whole_reads_give_the_file, whole_writes_leave_their_bytes,
    writes_are_read_back,
};
pub use sessions::{
    lanes_read_what_they_wrote, lanes_read_what_was_there, lanes_that_keep_off_pass_by,
    runs_hold_what_they_flushed, runs_leave_what_they_flushed, runs_leave_what_they_wrote,
    runs_list_directories, runs_read_what_they_wrote, runs_read_what_was_there,
    served_journals_are_runs_on_names, served_reads_give_what_was_there,
    served_writes_are_read_back,
};
pub use texts::texts_are_fixed;
pub use whole_runs::{
    lanes_of_other_names_keep_off, lanes_read_back_what_they_wrote, lanes_read_back_what_was_there,
    runs_keep_files,
};
