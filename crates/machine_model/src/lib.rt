//! Files and directories in memory, as an SFTP version 3 server serves them (draft-ietf-secsh-filexfer-02, sections 6
//! and 7): the reply to each request, and the tree after it. The definitions are in `specs/`, beside worked examples.
//! This crate has no code except two enums.
#![tactic(auto)]

mod laws;
pub mod limits;
mod node;
mod opened;

pub use laws::{
    answers_leave_changes, files_open_by_opens, first_trees_are_fit, first_trees_are_trees,
    first_trees_are_well_formed, handles_open_where_granted, listings_name_each_once,
    prefixes_are_directories, replies_fit_frames, replies_may_answer, replies_of_any_length,
    trees_stay_fit, trees_stay_trees, trees_stay_well_formed,
};
pub use node::Node;
pub use opened::{Held, Opened};
