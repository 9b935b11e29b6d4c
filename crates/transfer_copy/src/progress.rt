//! The result of a step of a copy.
use crate::copy_error::CopyError;

/// The result of a step of a copy.
///
/// Used in `crates/transfer_pool/src/copier.rt`.
#[derive(Drop)]
pub enum Progress {
    /// Nothing happened: the reply that the copy awaits was not taken, and no fault is kept.
    Waits,
    /// The copy advanced by one step.
    Moved,
    /// The copy ended: with the number of bytes copied, or with a failure.
    Ended(Result<u64, CopyError>),
}
