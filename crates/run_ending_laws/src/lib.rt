//! Laws of whole runs of calls that create directories and read and write files as a whole: the outcomes of the calls,
//! and the calls that end well if the server refuses nothing by choice.
#![tactic(auto)]

mod laws;

pub use laws::{
    calls_end_by_their_kind, directories_come_first, files_stay_within_their_bounds, names_stay,
    reads_give_what_was_there, reads_give_what_was_written, writes_end_well,
};
