//! The effects of rules.

/// The effect of a rule on the entries that its pattern matches.
///
/// Example: `crates/sftp_transfer/src/patterns.rt`.
#[derive(Clone, Copy, Debug, PartialEq, Eq)]
pub enum Effect {
    /// Leaves them out.
    Exclude,
    /// Keeps them.
    Include,
}
