//! The whole run of the program.
ghost use Rattle.std.specs.Prelude.{map};
ghost use Rattle.std.specs.String.{string_bytes};
ghost use Rattle.sftp_cli.specs.Ended.{ProgramEnds};
ghost use Rattle.program_shell.specs.Outside.{MayFail};
ghost use Rattle.sftp_cli.specs.Words.{asked_by};

use crate::answer::{help_text, is_script, server_of};
use crate::bulk::{bulk_numbers, run_bulk};
use crate::printed::Form;
use program_shell::{answer_in_memory, answer_over_link, answer_to, status_of, write_answer};
use sftp_link::{Dial, Sink, Source};
use sftp_map_server::MapServer;
use std::alloc::Global;

/// Runs the program with the arguments of its command line, without its name, and returns the exit status.
///
/// With the single argument `script` it reads the source to its end and runs it as a script over a server in memory.
/// The server has the script's files and directories, and follows its choices and picks. It is left in `kept`, and its
/// log shows the frames of the run. If there was no run, nothing is left there.
///
/// With `unix` and a path it runs the script's lanes over a link to the server that listens there. The link is dialled
/// once, after the script was read. The script's files, server, choices and picks are ignored. The link is given back
/// to the dial, whether or not the run succeeded. The time limit after the path is that of the links of the dial.
///
/// With `bulk` and three numbers it runs the script that these make over a server in memory, reads nothing, and writes
/// the numbers of the run. The server is left in `kept`.
///
/// `--help` and `--version` are answered with their texts.
///
/// The status is:
///
/// - 0: the whole text was written.
/// - 1, only with `unix`: an error stopped the run, and the line that names it was written.
/// - 2: the bytes are no script or the arguments are not known, and the line with the reason was written.
/// - 3: the source failed.
/// - 4: the sink failed; a prefix of the text was written, or nothing.
/// - 5: an allocation failed; a prefix of the text was written, or nothing.
/// - 6: the dial failed.
pub fn run<S: Source, K: Sink, D: Dial>(
    alloc: Global,
    words: &[String],
    source: &mut S,
    sink: &mut K,
    dial: &mut D,
    kept: &mut Option<MapServer>,
) -> u8
    requires { MayFail (record { source = S.state source.old; sink = K.state sink.old; dial = D.state dial.old }) }
    ensures { ProgramEnds D.dialled (asked_by (map string_bytes words.now)) result kept.new
        (record { source = S.state source.old; sink = K.state sink.old; dial = D.state dial.old })
        (record { source = S.state source.new; sink = K.state sink.new; dial = D.state dial.new }) }
{
    *kept = None;
    if is_script(words) {
        status_of(answer_in_memory(alloc, &Form::Whole, source, sink, kept))
    } else if let Some(server) = server_of(words) {
        status_of(answer_over_link(alloc, &Form::Whole, server.path, source, sink, dial))
    } else if let Some(numbers) = bulk_numbers(words) {
        status_of(run_bulk(alloc, numbers, sink, kept))
    } else {
        let answer = answer_to(words, help_text());
        status_of(write_answer(sink, answer.answered, answer.text.as_bytes()))
    }
}
