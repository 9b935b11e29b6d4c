//! Everything that the program does.
ghost use Rattle.std.specs.Prelude.{◌≡◌, map};
ghost use Rattle.std.specs.String.{string_bytes};
ghost use Rattle.transfer_args.specs.Words.{asked_seen, tries_again, work_seen};
ghost use Rattle.sftp_transfer.specs.Ended.{EndsAsked, TriesLink, Looked, OutsideAct, Paused, ProgramEnds, Refused, Went, Wrote};

use crate::ended::{
    LOCAL, OUT_OF_MEMORY, Reach, Text, WORDS, may_try_again, next_pause, status_of, text_of,
};
use std::alloc::Global;
use transfer_args::{ArgsError, Asked, Work, read_words};

/// The program's environment: standard output, local files and the network.
///
/// Used in `crates/sftp_transfer/src/terminal.rt`.
pub trait Outside {
    // Records the operations that were done with it.
    ghost History: { Type 0 };

    // The history after another operation. Generic code has no other way to build it. So an equation with it says that
    // there was exactly one operation, and which.
    ghost done: { OutsideAct → History → History };

    ghost history: { Self → History };

    /// Writes a text of the program to standard output, and returns true if that succeeded.
    fn write(&mut self, text: Text) -> bool
        ensures { Self.history self.new ≡ Self.done (Wrote text result) (Self.history self.old) };

    /// Reports why the command line gives no request.
    fn refuse(&mut self, why: ArgsError)
        ensures { Self.history self.new ≡ Self.done (Refused why) (Self.history self.old) };

    /// Returns true if the local side lets the work start; otherwise the reason is reported.
    fn look(&mut self, work: &Work<'_>) -> bool
        ensures { Self.history self.new ≡ Self.done (Looked (work_seen work.now) result) (Self.history self.old) };

    /// Does the requested work over the requested link.
    fn go(&mut self, asked: &Asked<'_>) -> Reach
        ensures { Self.history self.new ≡ Self.done (Went (asked_seen asked.now) result) (Self.history self.old) };

    /// Reports that another try follows, and waits for this number of seconds.
    fn pause(&mut self, seconds: u32)
        ensures { Self.history self.new ≡ Self.done (Paused seconds) (Self.history self.old) };
}

/// Does the requested work over the requested link, and does it again after a pause if the connection was lost, as
/// often as is asked for. The first pause is a second, and each other one is twice as long, up to a minute.
fn go_on<O: Outside>(outside: &mut O, asked: &Asked<'_>) -> Reach
    ensures { TriesLink O.done (asked_seen asked.now) (tries_again (work_seen asked.now.work)) 1 result (O.history outside.old) (O.history outside.new) }
{
    let mut left = asked.work.tries_again();
    let mut pause = 1;
    while left > 0 {
        let reach = outside.go(asked);
        if !may_try_again(reach) {
            return reach;
        }
        outside.pause(pause);
        pause = next_pause(pause);
        left -= 1;
    }
    outside.go(asked)
}

/// Does the requested work, and returns the exit status.
fn run_asked<O: Outside>(outside: &mut O, asked: &Asked<'_>) -> u8
    ensures { EndsAsked O.done (asked_seen asked.now) result (O.history outside.old) (O.history outside.new) }
{
    if !outside.look(&asked.work) {
        return LOCAL;
    }
    status_of(go_on(outside, asked))
}

/// Runs the program with these arguments, and returns the exit status:
///
/// - 0: a text was written, or everything that was asked for was done.
/// - 1: something was not done.
/// - 2: the command line is refused.
/// - 3: a text or a listing could not be written, or the local side didn't let the work start.
/// - 5: an allocation failed.
/// - 6: the command line asks for a link at which no server could be reached.
/// - 7: something was not done, because the connection to the server failed or ended.
pub fn run<O: Outside>(outside: &mut O, alloc: Global, words: &[String]) -> u8
    ensures { ProgramEnds O.done (map string_bytes words.now) result (O.history outside.old) (O.history outside.new) }
{
    if let Some(text) = text_of(words) {
        return if outside.write(text) { 0 } else { LOCAL };
    }
    match read_words(alloc, words) {
        Ok(asked) => run_asked(outside, &asked),
        Err(why) => {
            outside.refuse(why);
            match why {
                ArgsError::Refused => WORDS,
                ArgsError::OutOfMemory => OUT_OF_MEMORY,
            }
        }
    }
}
