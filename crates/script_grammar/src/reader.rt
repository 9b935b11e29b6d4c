//! Reads texts line by line.
ghost use Rattle.std.specs.Prelude.{◌≡◌, ◌≤◌, Ok, OnOk, IfOk, IfErr};
ghost use Rattle.script_words.specs.Lines.{is_comment, lines_of, read_by, read_line, words_of};
ghost use Rattle.script_grammar.specs.Scripts.{script_of};
ghost use Rattle.script_grammar.specs.CanRun.{CanRun};
ghost use Rattle.script_words.specs.Refusals.{RefusesLine, RefusesScript, at_line};

use crate::draft::Draft;
use crate::script::Script;
use script_words::{LineError, Reason, ScriptError, split_line, split_word};
use std::alloc::Global;

/// The greatest length of a script in bytes.
const MAX_SCRIPT_LEN: usize = 16777216;

/// A value into which the lines of a text are read, one after another.
///
/// Used in `crates/sftp_mirror/src/list.rt`.
pub trait LineReader {
    ghost use Rattle.std.specs.Prelude.{ℕ, List, Result};
    ghost use Rattle.script_words.specs.declared.reason.Reason.{Reason};

    // The value after a line, by the line's first word and the words after it.
    ghost line_by: { Self → List ℕ → List (List ℕ) → Result Self Reason };

    /// Reads a line by its first word and the text after it.
    ///
    /// # Errors
    ///
    /// `Refused` with the reason if the line is refused, or `OutOfMemory` if an allocation fails.
    fn read_words(&mut self, alloc: Global, word: &[u8], line: &[u8]) -> Result<(), LineError>
        ensures ok { OnOk result (line_by self.old word.now (words_of line.now) ≡ Ok self.new) }
        ensures refused { IfErr result (λ e. RefusesLine (line_by self.old word.now (words_of line.now)) e) };
}

/// Reads a script.
///
/// # Errors
///
/// `Line` with the number of the first line that is no line of a script, counted from 1, and the reason. A script of
/// more than 16777216 bytes is refused at line 0. `OutOfMemory` if an allocation fails; it may come in place of any
/// other result.
#[tactic(auto, using(crate::proofs::Steps::script_read, crate::proofs::Steps::script_refused))]
pub fn read_script(alloc: Global, text: &[u8]) -> Result<Script, ScriptError>
    ensures ok { IfOk result (λ script. script_of text.now ≡ Ok script) }
    ensures runs { IfOk result (λ script. CanRun script) }
    ensures refused { IfErr result (λ e. RefusesScript (script_of text.now) e) }
{
    if text.len() > MAX_SCRIPT_LEN {
        return Err(ScriptError::Line {
            line: 0,
            reason: Reason::Size,
        });
    }
    let draft = read_lines(alloc, text, Draft::new(alloc))?;
    Ok(draft.into_script())
}

/// Returns the error of a line, with its number.
fn at_line(line: u64, e: LineError) -> ScriptError
    ensures { result ≡ at_line line e }
{
    match e {
        LineError::OutOfMemory => ScriptError::OutOfMemory,
        LineError::Refused(reason) => ScriptError::Line { line, reason },
    }
}

/// Returns true if a line begins with `#`.
fn is_comment(line: &[u8]) -> bool
    ensures { result ≡ is_comment line.now }
{
    match line {
        [b, ..] => *b == b'#',
        [] => false,
    }
}

/// Reads a line, which is skipped if it has no words or begins with `#`.
fn read_line<R: LineReader>(alloc: Global, reader: &mut R, line: &[u8]) -> Result<(), LineError>
    ensures ok { OnOk result (read_line R.line_by reader.old line.now ≡ Ok reader.new) }
    ensures refused { IfErr result (λ e. RefusesLine (read_line R.line_by reader.old line.now) e) }
{
    if is_comment(line) {
        return Ok(());
    }
    match split_word(line) {
        Some((word, rest)) => reader.read_words(alloc, word, rest),
        None => Ok(()),
    }
}

/// Reads the lines of a text into a value, which is returned. A line without words and one that begins with `#` are
/// skipped.
///
/// # Errors
///
/// `Line` with the number of the first line that is refused, counted from 1, and the reason; or `OutOfMemory` if an
/// allocation fails.
#[tactic(auto, using(crate::proofs::Steps::line_read, crate::proofs::Steps::line_refused, crate::proofs::Steps::lines_end))]
pub fn read_lines<R: LineReader + Drop>(
    alloc: Global,
    text: &[u8],
    start: R,
) -> Result<R, ScriptError>
    ensures ok { IfOk result (λ read. read_by R.line_by 1 start (lines_of text.now) ≡ Ok read) }
    ensures refused { IfErr result (λ e. RefusesScript (read_by R.line_by 1 start (lines_of text.now)) e) }
{
    let mut reader = start;
    let mut number = 1;
    let mut rest = text;
    while !rest.is_empty() {
        let (line, after) = split_line(rest);
        if let Err(e) = read_line(alloc, &mut reader, line) {
            return Err(at_line(number, e));
        }
        number += 1;
        rest = after;
    }
    Ok(reader)
}
