//! The reason why a command line gives no request.
ghost use Rattle.std.specs.Prelude.{◌≡◌};
ghost use Rattle.transfer_args.specs.declared.args_error.ArgsError.TheVariants as args_error;

use std::alloc::AllocFailed;

/// The reason why a command line gives no request.
///
/// Used in `crates/sftp_transfer/src/run.rt`.
#[derive(Clone, Copy, Debug, PartialEq, Eq)]
pub enum ArgsError {
    /// It can't be used; `misfit_of` returns the reason.
    Refused,
    /// An allocation failed.
    OutOfMemory,
}

impl<T: Drop> From<AllocFailed<T>> for ArgsError {
    ghost from_gives = { λ refused e. e ≡ args_error.OutOfMemory };

    fn from(_refused: AllocFailed<T>) -> ArgsError {
        ArgsError::OutOfMemory
    }
}
