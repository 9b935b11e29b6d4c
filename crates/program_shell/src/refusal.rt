//! The lines that report why a source is refused, and the error that stopped a run.
ghost use Rattle.std.specs.Prelude.{◌≡◌, IfOk};
ghost use Rattle.std.specs.Option.{option_copied};
ghost use Rattle.sftp_model.specs.declared.error.Error.TheVariants as errors;
ghost use Rattle.program_shell.specs.declared.ending.Answered.TheVariants.{Stopped};
ghost use Rattle.program_shell.specs.Texts.{IsErrorLine, error_line, error_name, reason_word, refusal_line};

use crate::ending::Answered;
use crate::printed::Printed;
use itoa::Buffer;
use script_grammar::Reason;
use sftp_model::Error;
use ssh_encoding::OutOfMemory;
use std::alloc::Global;

/// Returns the word of a reason.
pub(crate) fn reason_word(why: Reason) -> &'static str
    ensures { result.now ≡ reason_word why }
{
    match why {
        Reason::Size => "size",
        Reason::Words => "words",
        Reason::Word => "word",
        Reason::Lane => "lane",
        Reason::Count => "count",
        Reason::Number => "number",
        Reason::Hex => "hex",
        Reason::Mode => "mode",
        Reason::Range => "range",
        Reason::Repeat => "repeat",
    }
}

/// Returns the line that reports the refused line, and the reason: `line N REASON`.
///
/// # Errors
///
/// `OutOfMemory` if an allocation fails.
#[tactic(auto, using(sftp_wire::proofs::Puts::puts, script_text::proofs::TextLaws::number_decimal))]
pub fn refusal_line(alloc: Global, number: u64, why: Reason) -> Result<Vec<u8>, OutOfMemory>
    ensures { IfOk result (λ text. text.items ≡ refusal_line number why) }
{
    let mut digits = Buffer::new();
    let mut text = Vec::from_slice(alloc, b"line ")?;
    text.extend_from_slice(digits.format(number).as_bytes())?;
    text.extend_from_slice(b" ")?;
    text.extend_from_slice(reason_word(why).as_bytes())?;
    text.push(b'\n')?;
    Ok(text)
}

/// Returns the name of an error that stops a run; `None` for out of memory, which has a status of its own.
pub fn error_name(error: &Error) -> Option<&'static str>
    ensures { option_copied result ≡ error_name error.now }
{
    match error {
        Error::OutOfMemory => None,
        Error::LinkFault => Some("LinkFault"),
        Error::LinkEnded => Some("LinkEnded"),
        Error::UnsupportedSftpProtocol { .. } => Some("UnsupportedSftpProtocol"),
        Error::FormatError(_) => Some("FormatError"),
        Error::HandleTooLong { .. } => Some("HandleTooLong"),
        Error::InvalidResponseId { .. } => Some("InvalidResponseId"),
        Error::InvalidResponse { .. } => Some("InvalidResponse"),
        Error::SftpError { .. } => Some("SftpError"),
        Error::UnsupportedExtension(_) => Some("UnsupportedExtension"),
        Error::IOError(_) => Some("IOError"),
        Error::BackgroundTaskFailure(_) => Some("BackgroundTaskFailure"),
    }
}

/// Returns out of memory, which is the only error that remains possible for a run over a server in memory.
pub fn out_of_memory_from(error: Error) -> OutOfMemory
    requires { error ≡ errors.OutOfMemory }
{
    match error {
        Error::OutOfMemory => OutOfMemory,
        _ => unreachable!(),
    }
}

/// Returns the line that names the error with which a run stopped: `error NAME`.
///
/// # Errors
///
/// `OutOfMemory` if an allocation fails.
#[tactic(auto, using(sftp_wire::proofs::Puts::puts))]
pub fn error_line(alloc: Global, name: &str) -> Result<Vec<u8>, OutOfMemory>
    ensures { IfOk result (λ text. text.items ≡ error_line name.now) }
{
    let mut text = Vec::from_slice(alloc, b"error ")?;
    text.extend_from_slice(name.as_bytes())?;
    text.push(b'\n')?;
    Ok(text)
}

/// Returns the answer to a run that an error stopped, which is the line that names it.
///
/// # Errors
///
/// `OutOfMemory` if an allocation fails, or if that is the error, which has no line.
pub fn stop_reply(alloc: Global, error: &Error) -> Result<Printed, OutOfMemory>
    ensures { IfOk result (λ reply. (reply.answered ≡ Stopped) × IsErrorLine error.now reply.text.items) }
{
    match error_name(error) {
        Some(name) => {
            let text = error_line(alloc, name)?;
            Ok(Printed {
                answered: Answered::Stopped,
                text,
            })
        }
        None => Err(OutOfMemory),
    }
}
