//! Vectors that contracts see as lists, and equality tests that decide equality.
#![tactic(auto)]

mod byte_text;
mod items;
mod same;

pub use byte_text::ByteText;
pub use items::Items;
pub use same::{Same, is_same};
