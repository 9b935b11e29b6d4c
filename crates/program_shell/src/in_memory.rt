//! Reads a value, runs it over a server in memory or refuses it, and writes the answer.
ghost use Rattle.std.specs.Prelude.{◌≡◌, ◌<◌, ◌-◌, ◌^◌, None, IfOk, IfSome, IsSome};
ghost use Rattle.script_grammar.specs.CanRun.{CanBegin};
ghost use Rattle.program_shell.specs.Ended.{EndsInMemory, IsNewServer};
ghost use Rattle.program_shell.specs.Replies.{RepliesInMemory};

use crate::ending::{Answered, ProgramFailure};
use crate::printed::{Printed, read_bytes, refuse, write_answer};
use crate::program::Program;
use script_grammar::{Script, ScriptError};
use sftp_link::{Sink, Source};
use sftp_map_server::{MapServer, new_server};
use sftp_values::Items;
use ssh_encoding::OutOfMemory;
use std::alloc::Global;

/// Returns a server of a script's files and directories, with its choices and picks.
///
/// # Errors
///
/// `OutOfMemory` if an allocation fails.
pub fn new_server_of(alloc: Global, script: &Script) -> Result<MapServer, OutOfMemory>
    requires { CanBegin script.now }
    ensures { IfOk result (IsNewServer script.now) }
{
    let choices = Vec::from_slice(alloc, script.choices.as_slice())?;
    let picks = Vec::from_slice(alloc, script.picks.as_slice())?;
    new_server(
        alloc,
        script.files.as_slice(),
        script.dirs.as_slice(),
        script.server,
        Items::new(choices),
        Items::new(picks),
    )
}

/// Runs a value over a new server in memory, and returns the text of the run. The server is left in `kept` whether or
/// not the run succeeded. Fails only if an allocation fails.
fn text_kept<P: Program>(
    alloc: Global,
    program: &P,
    value: &P::Value,
    server: MapServer,
    kept: &mut Option<MapServer>,
) -> Result<Vec<u8>, OutOfMemory>
    requires may { P.may program.now }
    requires can { P.can program.now value.now }
    requires new { IsNewServer (P.setup value.now) server }
    ensures text { IfOk result (λ text. P.right program.now kept.new value.now text.items) }
    ensures kept { IsSome kept.new }
    ensures left { IfSome kept.new (P.leaves program.now value.now) }
{
    let mut server = server;
    let text = program.text_over(alloc, &mut server, value);
    *kept = Some(server);
    text
}

/// Runs a value over a server of its own in memory, and returns the text of the run. If the server could be made, it is
/// left in `kept` whether or not the run succeeded.
///
/// # Errors
///
/// `OutOfMemory` if an allocation fails.
pub fn text_in_memory<P: Program>(
    alloc: Global,
    program: &P,
    value: &P::Value,
    kept: &mut Option<MapServer>,
) -> Result<Vec<u8>, OutOfMemory>
    requires may { P.may program.now }
    requires can { P.can program.now value.now }
    requires none { kept.old ≡ None }
    ensures text { IfOk result (λ text. P.right program.now kept.new value.now text.items) }
    ensures left { IfSome kept.new (P.leaves program.now value.now) }
{
    let server = new_server_of(alloc, program.setup_of(value))?;
    text_kept(alloc, program, value, server, kept)
}

/// Returns the answer to bytes, over a server in memory, which is left in `kept` if they read as a value. Fails only if
/// an allocation fails.
fn reply_in_memory<P: Program>(
    alloc: Global,
    program: &P,
    bytes: &[u8],
    kept: &mut Option<MapServer>,
) -> Result<Printed, OutOfMemory>
    requires may { P.may program.now }
    requires none { kept.old ≡ None }
    ensures { RepliesInMemory (P.reads program.now) (P.leaves program.now) (P.right program.now) bytes.now result kept.new }
{
    match program.read(alloc, bytes) {
        Ok(value) => {
            let text = text_in_memory(alloc, program, &value, kept)?;
            Ok(Printed {
                answered: Answered::Done,
                text,
            })
        }
        Err(ScriptError::OutOfMemory) => Err(OutOfMemory),
        Err(ScriptError::Line { line, reason }) => refuse(alloc, line, reason),
    }
}

/// Reads a value, runs it over a server in memory and writes the text of the run. If the bytes are refused, writes the
/// reason instead. The server is left in `kept`.
///
/// # Errors
///
/// `SourceFailed` if the source failed, `SinkFailed` if the sink failed, or `OutOfMemory` if an allocation fails.
pub fn answer_in_memory<P: Program, S: Source, K: Sink>(
    alloc: Global,
    program: &P,
    source: &mut S,
    sink: &mut K,
    kept: &mut Option<MapServer>,
) -> Result<Answered, ProgramFailure>
    requires may { P.may program.now }
    requires source { (S.state source.old).faults < 2 ^ 64 - 1 }
    requires sink { (K.state sink.old).faults < 2 ^ 64 - 1 }
    requires none { kept.old ≡ None }
    ensures { EndsInMemory (P.reads program.now) (P.leaves program.now) (P.right program.now) result kept.new
        (S.state source.old) (S.state source.new) (K.state sink.old) (K.state sink.new) }
{
    let bytes = read_bytes(alloc, source)?;
    let reply = reply_in_memory(alloc, program, &bytes, kept)?;
    write_answer(sink, reply.answered, &reply.text)
}
