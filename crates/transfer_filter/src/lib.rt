//! Leaves out entries of a tree by patterns.
#![tactic(auto)]

mod effect;
mod filter;
mod filter_error;
mod matcher;
mod pattern;
mod rule;
mod shard;

pub use effect::Effect;
pub use filter::Filter;
pub use filter_error::FilterError;
pub use pattern::is_pattern;
pub use shard::Shard;
