//! A view of remote files through a cache of their blocks: its operations, its answers, the blocks that it keeps, and
//! the calls that it makes; the definitions are in `specs/`, beside worked examples.
#![tactic(auto)]

mod answer;
mod cache;
mod cache_size;
pub mod calls;
mod found;
mod key;
mod length;
mod list;
mod op;
mod part;
mod text;

pub use answer::Answer;
pub use cache::BlockCache;
pub use cache_size::{CacheSize, view_size};
pub use found::found_in;
pub use key::BlockKey;
pub use length::passes_length;
pub use list::{ViewList, read_list};
pub use op::ViewOp;
pub use part::cut;
pub use text::write_view;
