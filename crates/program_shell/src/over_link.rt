//! Reads a value, runs it over a link from a dial or refuses it, and writes the answer.
ghost use Rattle.std.specs.Prelude.{◌<◌, ◌-◌, ◌^◌};
ghost use Rattle.program_shell.specs.Ended.{EndsOverLink};
ghost use Rattle.program_shell.specs.Outside.{MayFail};
ghost use Rattle.program_shell.specs.Replies.{DialsFor, RepliesAt};

use crate::ending::{Answered, ProgramFailure};
use crate::printed::{Printed, read_bytes, refuse, write_answer};
use crate::program::LinkProgram;
use script_grammar::ScriptError;
use sftp_link::{DeviceError, Dial, Logged, Sink, Source};
use ssh_encoding::OutOfMemory;
use std::alloc::Global;

/// Runs a value over a link to the server at a path. The link is put back whether or not the run succeeded.
fn reply_dialled<P: LinkProgram, D: Dial>(
    alloc: Global,
    program: &P,
    dial: &mut D,
    path: &str,
    value: &P::Value,
) -> Result<Printed, ProgramFailure>
    requires may { P.may program.now }
    requires can { P.can program.now value.now }
    requires dial { (D.state dial.old).faults < 2 ^ 64 - 1 }
    ensures { DialsFor (P.over program.now) D.dialled path.now value.now result (D.state dial.old) (D.state dial.new) }
{
    let link = match dial.dial(path) {
        Ok(link) => link,
        Err(DeviceError::Failed) => return Err(ProgramFailure::DialFailed),
        Err(DeviceError::OutOfMemory) => return Err(ProgramFailure::OutOfMemory),
    };
    let mut link = Logged::new(alloc, link);
    let reply = program.reply_over(alloc, &mut link, value);
    dial.put_back(link);
    match reply {
        Ok(reply) => Ok(reply),
        Err(OutOfMemory) => Err(ProgramFailure::OutOfMemory),
    }
}

/// Returns the answer to bytes, over a link to the server at a path, which is dialled if they read as a value.
fn reply_at<P: LinkProgram, D: Dial>(
    alloc: Global,
    program: &P,
    bytes: &[u8],
    dial: &mut D,
    path: &str,
) -> Result<Printed, ProgramFailure>
    requires may { P.may program.now }
    requires dial { (D.state dial.old).faults < 2 ^ 64 - 1 }
    ensures { RepliesAt (P.reads program.now) (P.over program.now) D.dialled path.now bytes.now result
        (D.state dial.old) (D.state dial.new) }
{
    match program.read(alloc, bytes) {
        Ok(value) => reply_dialled(alloc, program, dial, path, &value),
        Err(ScriptError::OutOfMemory) => Err(ProgramFailure::OutOfMemory),
        Err(ScriptError::Line { line, reason }) => match refuse(alloc, line, reason) {
            Ok(reply) => Ok(reply),
            Err(OutOfMemory) => Err(ProgramFailure::OutOfMemory),
        },
    }
}

/// Reads a value and runs it over a link to the server at a path. Writes the text of the run, or the line of the error
/// that stopped it. If the bytes are refused, writes the reason instead, and nothing is dialled.
///
/// # Errors
///
/// `SourceFailed` if the source failed, `SinkFailed` if the sink failed, `DialFailed` if the dial returned no link, or
/// `OutOfMemory` if an allocation fails.
pub fn answer_over_link<P: LinkProgram, S: Source, K: Sink, D: Dial>(
    alloc: Global,
    program: &P,
    path: &str,
    source: &mut S,
    sink: &mut K,
    dial: &mut D,
) -> Result<Answered, ProgramFailure>
    requires program { P.may program.now }
    requires outside { MayFail (record { source = S.state source.old; sink = K.state sink.old; dial = D.state dial.old }) }
    ensures { EndsOverLink (P.reads program.now) (P.over program.now) D.dialled path.now result
        (record { source = S.state source.old; sink = K.state sink.old; dial = D.state dial.old })
        (record { source = S.state source.new; sink = K.state sink.new; dial = D.state dial.new }) }
{
    let bytes = read_bytes(alloc, source)?;
    let reply = reply_at(alloc, program, &bytes, dial, path)?;
    write_answer(sink, reply.answered, &reply.text)
}
