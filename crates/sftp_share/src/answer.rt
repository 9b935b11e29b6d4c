//! The texts for arguments; a script is run without arguments.
ghost use Rattle.std.specs.Prelude.{◌≡◌, ◌<◌, ◌-◌, ◌^◌, map};
ghost use Rattle.std.specs.String.{string_bytes};
ghost use Rattle.program_shell.specs.Ended.{EndsAtSink, IsOnlyAnswer};
ghost use Rattle.program_shell.specs.Texts.{answered_of, text_of};
ghost use Rattle.sftp_share.specs.Ended.{AnswersWords, help_text};

use program_shell::{answer_to, status_of, write_answer};
use sftp_link::Sink;

/// Returns the text of `--help`.
#[tactic(auto, unfolding(crate::specs::Ended::help_text))]
fn help_text() -> &'static str
    ensures { result.now ≡ help_text }
{
    "\
Usage: sftp_share [--help | --version]

  --help       print this help
  --version    print the version

Without arguments the program runs the script on standard input over a server of its files in
memory, as sftp_cli script does, but with one thread for each lane, one that sends and one that
receives; the turns of the script are ignored. Then a machine with the files of the script
answers the requests again, one after another, and its replies are compared with those received.

The program writes to standard output the frames sent and received, the outcome of each call,
and the files that the machine is left with. If a reply differs, the last line is the machine's
reply in place of the files.

Exit status:
  0  everything was done
  1  the session failed
  2  the script or the arguments are invalid
  3  standard input failed
  4  standard output failed
  5  out of memory
  7  a reply differs from the machine's
"
}

/// Writes the answer to the arguments, and returns the exit status.
pub(crate) fn answer<K: Sink>(words: &[String], sink: &mut K) -> u8
    requires { (K.state sink.old).faults < 2 ^ 64 - 1 }
    ensures { AnswersWords (map string_bytes words.now) result (K.state sink.old) (K.state sink.new) }
{
    let answer = answer_to(words, help_text());
    status_of(write_answer(sink, answer.answered, answer.text.as_bytes()))
}
