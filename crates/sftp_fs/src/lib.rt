//! Calls on paths and directories of an SFTP server, for programs, over a core.
#![tactic(auto)]

mod asks;
mod dir_entry;
mod directory;
mod directory_builder;
mod fs;
mod fs_write;
mod grants;
mod laws;
mod parts;
mod path_call;
mod read_dir;

pub use asks::{ask, facts};
pub use dir_entry::DirEntry;
pub use directory::{Dir, DirCall, OpeningDir};
pub use directory_builder::DirBuilder;
pub use fs::Fs;
pub use fs_write::{FsWriteCall, close};
pub use grants::Granting;
pub use laws::listings_are_planned;
pub use parts::WritingParts;
pub use path_call::{Naming, PathCall};
pub use read_dir::ReadDir;
