//! The failure of a copy, by the reply of the server or the fault of the session.
ghost use Rattle.std.specs.Prelude.{◌≡◌, true, false, IfErr, OnOk, OnErr};
ghost use Rattle.sftp_model.specs.declared.error.Error.TheVariants as error;
ghost use Rattle.transfer_copy.specs.declared.copy_error.CopyError.TheVariants as copy_error;
ghost use Rattle.transfer_copy.specs.Refusals.{IsOkStatus, faulted_by, is_failure, refusal_of};

use crate::copy_error::CopyError;
use sftp_model::numbers::{SSH_FX_FAILURE, SSH_FX_OK};
use sftp_model::{Error, Fault, Reply};
use sftp_values::ByteText;

/// Returns the failure for a fault that the session keeps.
pub(crate) fn faulted(fault: Fault) -> CopyError
    ensures { result ≡ faulted_by fault }
{
    CopyError::Remote(Error::BackgroundTaskFailure(fault))
}

/// Returns the failure for an unexpected status.
pub(crate) fn status_failure(code: u32, message: ByteText, language: ByteText) -> CopyError
    ensures { result ≡ copy_error.Remote (error.SftpError code message language) }
{
    CopyError::Remote(Error::SftpError {
        code,
        message,
        language,
    })
}

/// Returns the failure for a reply that a request of the file had in place of the expected one.
pub(crate) fn refused(reply: Reply) -> CopyError
    ensures { result ≡ refusal_of reply }
{
    match reply {
        Reply::Status {
            code,
            message,
            language,
        } => status_failure(code, message, language),
        _ => CopyError::TooLong,
    }
}

/// Returns `Ok` exactly if the reply is the status OK.
pub(crate) fn settled(reply: Reply) -> Result<(), CopyError>
    ensures ok { OnOk result (IsOkStatus reply) }
    ensures err { OnErr result (IsOkStatus reply → ⊥) }
    ensures why { IfErr result (λ e. e ≡ refusal_of reply) }
{
    match reply {
        Reply::Status {
            code,
            message,
            language,
        } => {
            if code == SSH_FX_OK {
                return Ok(());
            }
            Err(status_failure(code, message, language))
        }
        other => Err(refused(other)),
    }
}

/// Returns true if the server answered with the status FAILURE, which names no cause.
pub(crate) fn is_failure(e: &CopyError) -> bool
    ensures { result ≡ is_failure e.now }
{
    match e {
        CopyError::Remote(Error::SftpError { code, .. }) => *code == SSH_FX_FAILURE,
        _ => false,
    }
}
