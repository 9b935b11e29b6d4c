//! Reads the bytes of a source, and writes an answer.
ghost use Rattle.std.specs.Prelude.{◌≡◌, ◌<◌, ◌-◌, ◌^◌, IfOk};
ghost use Rattle.program_shell.specs.declared.ending.Answered.TheVariants.{Refused};
ghost use Rattle.program_shell.specs.Ended.{EndsAtSink, IsOnlyAnswer};
ghost use Rattle.program_shell.specs.Texts.{refusal_line};
ghost use Rattle.program_shell.specs.Replies.{GivesBytes};

use crate::ending::{Answered, ProgramFailure};
use crate::refusal::refusal_line;
use script_grammar::Reason;
use sftp_link::{DeviceError, Sink, Source, read_up_to, write_all};
use ssh_encoding::OutOfMemory;
use std::alloc::Global;

/// The greatest length of a source plus one, in bytes.
const READ_LIMIT: usize = 16777217;

/// A text to write, and its meaning.
///
/// Used in `crates/sftp_cli/src/script.rt`.
#[derive(Drop)]
pub struct Printed {
    /// The meaning of the text.
    pub answered: Answered,
    /// The text.
    pub text: Vec<u8>,
}

/// Returns the bytes of a source: all that it has, or 16777217, one more than it may have.
///
/// # Errors
///
/// `SourceFailed` if the source failed, or `OutOfMemory` if an allocation fails.
pub fn read_bytes<S: Source>(alloc: Global, source: &mut S) -> Result<Vec<u8>, ProgramFailure>
    requires { (S.state source.old).faults < 2 ^ 64 - 1 }
    ensures { GivesBytes result (S.state source.old) (S.state source.new) }
{
    match read_up_to(alloc, source, READ_LIMIT) {
        Ok(bytes) => Ok(bytes),
        Err(DeviceError::Failed) => Err(ProgramFailure::SourceFailed),
        Err(DeviceError::OutOfMemory) => Err(ProgramFailure::OutOfMemory),
    }
}

/// Returns the answer to a source that is refused for one of its lines.
///
/// # Errors
///
/// `OutOfMemory` if an allocation fails.
pub fn refuse(alloc: Global, line: u64, reason: Reason) -> Result<Printed, OutOfMemory>
    ensures { IfOk result (λ reply. (reply.answered ≡ Refused) × (reply.text.items ≡ refusal_line line reason)) }
{
    let text = refusal_line(alloc, line, reason)?;
    Ok(Printed {
        answered: Answered::Refused,
        text,
    })
}

/// Writes an answer whole.
///
/// # Errors
///
/// `SinkFailed` if the sink failed, or `OutOfMemory` if an allocation fails; a prefix was written then, or nothing.
pub fn write_answer<K: Sink>(
    sink: &mut K,
    answered: Answered,
    text: &[u8],
) -> Result<Answered, ProgramFailure>
    requires { (K.state sink.old).faults < 2 ^ 64 - 1 }
    ensures { EndsAtSink (IsOnlyAnswer answered text.now) result (K.state sink.old) (K.state sink.new) }
{
    match write_all(sink, text) {
        Ok(()) => Ok(answered),
        Err(DeviceError::Failed) => Err(ProgramFailure::SinkFailed),
        Err(DeviceError::OutOfMemory) => Err(ProgramFailure::OutOfMemory),
    }
}
