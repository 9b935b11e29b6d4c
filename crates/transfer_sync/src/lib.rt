//! The plan of a synchronization, without files and without a server: from what two walks found, the list of actions
//! that makes the target tree like the source tree, in an order in which they can be carried out; and its run, as jobs
//! of a `Hand` of `transfer_plan`.
#![tactic(auto)]

mod action;
mod entry;
mod jobs;
mod listing;
mod paths;
mod plan;
mod rules;
mod run;
mod sweep;
mod verdict;

pub use action::{Action, Step};
pub use entry::{Entry, FileFacts, Kind};
pub use jobs::Roots;
pub use listing::{Listing, ListingError};
pub use plan::{Plan, PlanError, make_plan};
pub use rules::{Changed, Rules};
pub use run::run_plan;
pub use ssh_encoding::OutOfMemory;
