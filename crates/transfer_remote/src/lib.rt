//! The requests by path that a transfer of trees makes to a server, over a session that others use before and after.
#![tactic(auto)]

mod listing;
mod listing_stage;
mod listings;
mod paths;
mod remote_error;

pub use listing::{add_entries, list_remote};
pub use listing_stage::{Listing, Stage};
pub use listings::{Listed, Listings};
pub use paths::{
    make_remote_folder, make_remote_link, read_remote_link, remote_link_metadata, remote_metadata,
    remove_remote, remove_remote_folder, rename_remote, set_remote_attrs,
};
pub use remote_error::RemoteError;
