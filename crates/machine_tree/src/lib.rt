//! The files and directories of a server in memory, by their names, with their bytes and the handles that are open,
//! without requests. The lists are defined in `machine_model`.
#![tactic(auto)]

mod conditions;
mod file_bytes;
mod first_tree;
mod handles;
mod lookups;
mod moves;
mod names;
mod order;
mod tree_name;

pub use conditions::may_begin;
pub use file_bytes::{FileBytes, empty_in, put_in, resize_in};
pub use first_tree::{first_contents, first_names};
pub use handles::{Handles, numbered_handle};
pub use lookups::{
    all_bytes, has_child, is_before, is_child, is_directory, is_long, is_named, is_within,
};
pub use moves::{moved_names, names_but};
pub use names::Names;
pub use order::{count_directories, count_files, nth_of_kind};
pub use tree_name::{TreeName, components};
