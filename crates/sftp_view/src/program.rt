//! The whole run of the program.
ghost use Rattle.std.specs.Prelude.{map};
ghost use Rattle.std.specs.String.{string_bytes};
ghost use Rattle.sftp_view.specs.Ended.{MayFail, ProgramEnds};
ghost use Rattle.sftp_view.specs.Words.{asked_by};

use crate::answer::help_text;
use crate::reply::CachedView;
use program_shell::{answer_in_memory, answer_to, status_of, write_answer};
use sftp_link::{Sink, Source};
use sftp_map_server::MapServer;
use std::alloc::Global;
use view_model::view_size;

/// Runs the program with the arguments of its command line, without its name, and returns the exit status.
///
/// With `view` and two numbers it reads the source to its end and does the operations that it lists over a server in
/// memory. They go through a cache with that length and number of blocks. The server has the list's files and
/// directories. It is left in `kept`, and its log shows the frames of the session. If there was no session, nothing is
/// left there. `--help` and `--version` are answered with their texts.
///
/// The status is:
///
/// - 0: the whole text was written.
/// - 2: the bytes are no list or the arguments are not known, and the line with the reason was written.
/// - 3: the source failed.
/// - 4: the sink failed; a prefix of the text was written, or nothing.
/// - 5: an allocation failed; a prefix of the text was written, or nothing.
pub fn view<S: Source, K: Sink>(
    alloc: Global,
    words: &[String],
    source: &mut S,
    sink: &mut K,
    kept: &mut Option<MapServer>,
) -> u8
    requires { MayFail (record { source = S.state source.old; sink = K.state sink.old }) }
    ensures { ProgramEnds (asked_by (map string_bytes words.now)) result kept.new
        (record { source = S.state source.old; sink = K.state sink.old })
        (record { source = S.state source.new; sink = K.state sink.new }) }
{
    *kept = None;
    if let Some(size) = view_size(words) {
        let view = CachedView { size };
        status_of(answer_in_memory(alloc, &view, source, sink, kept))
    } else {
        let answer = answer_to(words, help_text());
        status_of(write_answer(sink, answer.answered, answer.text.as_bytes()))
    }
}
