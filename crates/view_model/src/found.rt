//! The results of calls.
ghost use Rattle.std.specs.Prelude.{◌≡◌, IfOk};
ghost use Rattle.view_model.specs.Viewed.{code_of, found_in};

use sftp_model::numbers::SSH_FX_FAILURE;
use sftp_model::{Error, Outcome, TryCopy};
use sftp_values::ByteText;
use ssh_encoding::OutOfMemory;
use std::alloc::Global;

/// Returns the status of a refusal.
fn code_of(error: &Error) -> u32
    ensures { result ≡ code_of error.now }
{
    match error {
        Error::SftpError { code, .. } => *code,
        _ => SSH_FX_FAILURE,
    }
}

/// Returns the result of a call with this outcome: bytes, or nothing, or the status of its refusal.
///
/// # Errors
///
/// `OutOfMemory` if an allocation fails.
pub fn found_in(alloc: Global, outcome: &Outcome) -> Result<Result<ByteText, u32>, OutOfMemory>
    ensures { IfOk result (λ found. found ≡ found_in outcome.now) }
{
    match outcome {
        Outcome::Bytes(bytes) => Ok(Ok(bytes.try_copy(alloc)?)),
        Outcome::Refused(error) => Ok(Err(code_of(error))),
        _ => Ok(Ok(ByteText::new(Vec::new(alloc)))),
    }
}
