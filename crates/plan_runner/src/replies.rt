//! The outcomes of replies and refusals.
ghost use Rattle.std.specs.Prelude.{◌≡◌, Some};
ghost use Rattle.sftp_model.specs.declared.outcome.Outcome.TheVariants as outcome;
ghost use Rattle.sftp_model.specs.declared.error.Error.TheVariants as error;
ghost use Rattle.plan_model.specs.BufferPlans.{is_good};
ghost use Rattle.plan_runner.specs.Runners.{refusal_of, failure_of};

use sftp_model::numbers::SSH_FX_OK;
use sftp_model::{Error, Extensions, IoKind, Outcome, Reply};
use sftp_values::ByteText;

/// Returns the outcome of a call that is wrong by itself: no request is made for it.
pub fn refused(why: IoKind) -> Outcome
    ensures { result ≡ outcome.Refused (error.IOError why) }
{
    Outcome::Refused(Error::IOError(why))
}

/// Returns the outcome of a call that needs an extension that the server does not offer.
pub fn unsupported(extension: Extensions) -> Outcome
    ensures { result ≡ outcome.Refused (error.UnsupportedExtension extension) }
{
    Outcome::Refused(Error::UnsupportedExtension(extension))
}

/// Returns the outcome of a refusal by a STATUS.
pub fn status_refusal(code: u32, message: ByteText, language: ByteText) -> Outcome
    ensures { result ≡ outcome.Refused (error.SftpError code message language) }
{
    Outcome::Refused(Error::SftpError {
        code,
        message,
        language,
    })
}

/// Returns the outcome of a reply that refuses.
pub fn refusal(reply: Reply) -> Outcome
    ensures { result ≡ refusal_of reply }
{
    match reply {
        Reply::Status {
            code,
            message,
            language,
        } => status_refusal(code, message, language),
        _ => Outcome::Refused(Error::InvalidResponse { id: None }),
    }
}

/// Returns true if a reply is a STATUS of OK.
pub fn is_good(reply: &Reply) -> bool
    ensures { result ≡ is_good (Some reply.now) }
{
    match reply {
        Reply::Status { code, .. } => *code == SSH_FX_OK,
        _ => false,
    }
}

/// Returns `None` if the call continues after a STATUS of OK; otherwise the outcome of the refusal.
pub fn failure(reply: Reply) -> Option<Outcome>
    ensures { result ≡ failure_of reply }
{
    match reply {
        Reply::Status {
            code,
            message,
            language,
        } => {
            if code == SSH_FX_OK {
                return None;
            }
            Some(status_refusal(code, message, language))
        }
        _ => Some(Outcome::Refused(Error::InvalidResponse { id: None })),
    }
}
