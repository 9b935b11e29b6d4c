//! The rules of a filter.
use crate::effect::Effect;

/// A rule of a filter.
///
/// Used in `crates/transfer_filter/src/filter.rt`.
#[derive(Drop)]
pub struct Rule {
    /// The effect on the entries that its pattern matches.
    pub effect: Effect,
    /// The bytes of the pattern.
    pub pattern: Vec<u8>,
}
