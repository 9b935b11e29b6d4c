//! The whole run of the program for a script.
ghost use Rattle.std.specs.Prelude.{◌≡◌, ◌⊎◌, ◌<◌, ◌-◌, ◌^◌, IfOk, Ok, OnErr};
ghost use Rattle.script_grammar.specs.CanRun.{CanRun};
ghost use Rattle.script_grammar.specs.Scripts.{script_of};
ghost use Rattle.sftp_share.specs.Ended.{ShareEnds};
ghost use Rattle.sftp_share.specs.Shared.{HasBack, RightFor, RightShared, RunsOutOfMemory};

use crate::replayed::text_of_run;
use crate::statuses::share_status;
use crate::threads::run_lanes;
use machine_halves::Pair;
use program_shell::{
    Answered, Printed, ProgramFailure, read_bytes, refuse, stop_reply, write_answer,
};
use script_grammar::{Script, ScriptError, read_script};
use sftp_link::{Sink, Source};
use ssh_encoding::OutOfMemory;
use std::alloc::Global;
use std::sync::Wait;
use std::thread::Threads;
use std::time::Clock;

/// A text to write, its meaning, and a flag that is true if a replay differs.
#[derive(Drop)]
pub(crate) struct Replayed {
    pub(crate) printed: Printed,
    pub(crate) differs: bool,
}

/// Returns the answer to a script: the text of the run of its lanes and of its replay, or the line of the error that
/// stopped it. Fails only if an allocation fails: the pair is unchanged, or has the halves of the run back.
fn reply_to_script<P: Pair<R>, R: Threads + Wait + Clock + Sync>(
    rt: &R,
    alloc: Global,
    script: &Script,
    pair: &mut P,
) -> Result<Replayed, OutOfMemory>
    requires { CanRun script.now }
    ensures right { IfOk result (λ reply. RightFor (P.Out.LinkState.Service) (P.In.LinkState.Service) (P.last pair.new) script.now
        reply.differs reply.printed.answered reply.printed.text.items) }
    ensures starved { OnErr result ((P.last pair.new ≡ P.last pair.old)
        ⊎ HasBack (P.Out.LinkState.Service) (P.In.LinkState.Service) (P.last pair.new) script.now) }
{
    match run_lanes(rt, alloc, script, pair) {
        Ok(report) => {
            let (differs, text) = text_of_run(alloc, script, &report.report)?;
            Ok(Replayed {
                printed: Printed {
                    answered: Answered::Done,
                    text,
                },
                differs,
            })
        }
        Err(error) => {
            let printed = stop_reply(alloc, &error)?;
            Ok(Replayed {
                printed,
                differs: false,
            })
        }
    }
}

/// Returns the answer to the bytes of a script. Bytes that are no script are refused, and the pair is untouched. Fails
/// as `reply_to_script` does.
fn reply_to<P: Pair<R>, R: Threads + Wait + Clock + Sync>(
    rt: &R,
    alloc: Global,
    bytes: &[u8],
    pair: &mut P,
) -> Result<Replayed, OutOfMemory>
    ensures right { IfOk result (λ reply. RightShared (P.Out.LinkState.Service) (P.In.LinkState.Service) (P.last pair.old) (P.last pair.new)
        reply.differs (script_of bytes.now) reply.printed.answered reply.printed.text.items) }
    ensures starved { OnErr result (RunsOutOfMemory (P.Out.LinkState.Service) (P.In.LinkState.Service) (λ script. script_of bytes.now ≡ Ok script)
        (P.last pair.old) (P.last pair.new)) }
{
    match read_script(alloc, bytes) {
        Ok(script) => reply_to_script(rt, alloc, &script, pair),
        Err(ScriptError::OutOfMemory) => Err(OutOfMemory),
        Err(ScriptError::Line { line, reason }) => {
            let printed = refuse(alloc, line, reason)?;
            Ok(Replayed {
                printed,
                differs: false,
            })
        }
    }
}

/// Reads a script to the end of the source, and runs its lanes in threads. Its turns are ignored. The lanes run over
/// the halves that the pair returns for a server of the script's files and directories in memory, with its choices and
/// picks. There is a thread for each lane, one that sends, and one that reads. The halves are put back, whether or not
/// the run succeeded. Then a machine answers the requests again, one after another, and the text of the run is written
/// with the machine's files and directories.
///
/// The status is:
///
/// - 0: the whole text was written.
/// - 1: an error stopped the run, and the line that names it was written.
/// - 2: the bytes are no script, and the line with the reason was written.
/// - 3: the source failed.
/// - 4: the sink failed; a prefix of the text was written, or nothing.
/// - 5: an allocation failed; a prefix of the text was written, or nothing. The pair is unchanged, or has the halves
///   back after a run of the script from the source.
/// - 7: a reply that was taken is not the machine's, and the whole text was written. Its last line shows the machine's
///   reply in place of the files.
pub fn share<S: Source, K: Sink, P: Pair<R>, R: Threads + Wait + Clock + Sync>(
    rt: &R,
    alloc: Global,
    source: &mut S,
    sink: &mut K,
    pair: &mut P,
) -> u8
    requires source { (S.state source.old).faults < 2 ^ 64 - 1 }
    requires sink { (K.state sink.old).faults < 2 ^ 64 - 1 }
    ensures { ShareEnds (P.Out.LinkState.Service) (P.In.LinkState.Service) (P.last pair.old) (P.last pair.new) result
        (S.state source.old) (S.state source.new) (K.state sink.old) (K.state sink.new) }
{
    let bytes = match read_bytes(alloc, source) {
        Ok(bytes) => bytes,
        Err(why) => return share_status(false, Err(why)),
    };
    match reply_to(rt, alloc, &bytes, pair) {
        Ok(Replayed { printed, differs }) => {
            let end = write_answer(sink, printed.answered, &printed.text);
            share_status(differs, end)
        }
        Err(OutOfMemory) => share_status(false, Err(ProgramFailure::OutOfMemory)),
    }
}
