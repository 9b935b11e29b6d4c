//! The errors of adding a rule.
ghost use Rattle.std.specs.Prelude.{◌≡◌};
ghost use Rattle.transfer_filter.specs.declared.filter_error.FilterError.TheVariants as error;

use std::alloc::AllocError;
use thiserror::Error;

/// The reason why a rule was not added.
///
/// Example: `crates/sftp_transfer/src/patterns.rt`.
#[derive(Clone, Copy, Debug, PartialEq, Eq, Error)]
pub enum FilterError {
    /// The text is no pattern, as [`crate::is_pattern`] reports.
    #[error("not a pattern")]
    BadPattern,
    /// An allocation failed.
    #[error("out of memory")]
    OutOfMemory,
}

impl From<AllocError> for FilterError {
    ghost from_gives = { λ _ e. e ≡ error.OutOfMemory };

    fn from(_: AllocError) -> FilterError {
        FilterError::OutOfMemory
    }
}
