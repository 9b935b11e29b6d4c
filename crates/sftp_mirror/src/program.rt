//! The whole run of the program.
ghost use Rattle.std.specs.Prelude.{map};
ghost use Rattle.std.specs.String.{string_bytes};
ghost use Rattle.sftp_mirror.specs.Ended.{ProgramEnds};
ghost use Rattle.program_shell.specs.Outside.{MayFail};
ghost use Rattle.sftp_mirror.specs.Words.{asked_by};

use crate::answer::help_text;
use crate::schedule::{copy_schedule, unix_schedule};
use program_shell::{answer_in_memory, answer_over_link, answer_to, status_of, write_answer};
use sftp_link::{Dial, Sink, Source};
use sftp_map_server::MapServer;
use std::alloc::Global;

/// Runs the program with the arguments of its command line, without its name, and returns the exit status.
///
/// With `copy` and two numbers it reads the source to its end and copies the files that it lists over a server in
/// memory. The server has the list's files and directories, and follows its choices and picks. It is left in `kept`,
/// and its log shows the frames of the run. If there was no run, nothing is left there.
///
/// With `unix`, a path and two numbers it copies them over a link to the server that listens there. The link is dialled
/// once, after the list was read. The list's files, server, choices and picks are ignored. The link is given back to
/// the dial, whether or not the run succeeded. The time limit after the numbers is that of the links of the dial.
///
/// `--help` and `--version` are answered with their texts.
///
/// The status is:
///
/// - 0: the whole text was written.
/// - 1, only with `unix`: an error stopped the run, and the line that names it was written.
/// - 2: the bytes are no list or the arguments are not known, and the line with the reason was written.
/// - 3: the source failed.
/// - 4: the sink failed; a prefix of the text was written, or nothing.
/// - 5: an allocation failed; a prefix of the text was written, or nothing.
/// - 6: the dial failed.
pub fn mirror<S: Source, K: Sink, D: Dial>(
    alloc: Global,
    words: &[String],
    source: &mut S,
    sink: &mut K,
    dial: &mut D,
    kept: &mut Option<MapServer>,
) -> u8
    requires { MayFail (record { source = S.state source.old; sink = K.state sink.old; dial = D.state dial.old }) }
    ensures { ProgramEnds D.dialled (asked_by (map string_bytes words.now)) result kept.new
        (record { source = S.state source.old; sink = K.state sink.old; dial = D.state dial.old })
        (record { source = S.state source.new; sink = K.state sink.new; dial = D.state dial.new }) }
{
    *kept = None;
    if let Some(schedule) = copy_schedule(words) {
        status_of(answer_in_memory(alloc, &schedule, source, sink, kept))
    } else if let Some((schedule, server)) = unix_schedule(words) {
        status_of(answer_over_link(alloc, &schedule, server.path, source, sink, dial))
    } else {
        let answer = answer_to(words, help_text());
        status_of(write_answer(sink, answer.answered, answer.text.as_bytes()))
    }
}
