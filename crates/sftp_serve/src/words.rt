//! The texts of the command line, its refused arguments, and the messages on standard error.
ghost use Rattle.std.specs.Prelude.{◌≡◌, map, Err, IfOk, IsOk, MatchOption};
ghost use Rattle.std.specs.Option.{option_copied};
ghost use Rattle.std.specs.String.{string_bytes};
ghost use Rattle.script_grammar.specs.ServerWords.{server_of};
ghost use Rattle.sftp_serve.specs.Words.{IsRefusedWord, cause_of, help_text, is_long, server_lines, text_for, version_text};

use script_grammar::{LineError, Reason, read_server_words};
use ssh_encoding::OutOfMemory;
use std::alloc::Global;

/// Returns the text of `--help`.
#[tactic(auto, unfolding(crate::specs::Words::help_text))]
fn help_text() -> &'static str
    ensures { result.now ≡ help_text }
{
    "\
Usage: sftp_serve [--long] [WORD ..] | --help | --version

Serves files and directories in memory by SFTP version 3 on standard input and output,
to one client and until its stream ends. Each WORD is one of

  'file NAME CONTENT'       a file that exists at the start
  'dir NAME'                a directory that exists at the start
  'server ext NAME'         posix-rename, hardlink, fsync, expand-path or copy-data
  'server limits P R W H'   the limits that limits@openssh.com reports: the most bytes of
                            a packet, of a READ and of a WRITE, and the most handles

With --long files have all attributes, and the entries of listings have long names; modes,
owners and times are always the same.

NAME of a file or a directory, and CONTENT, are hexadecimal, or - for no bytes. OpenSSH's
client can start the server itself:

  sftp -D \"sftp_serve --long 'dir 64' 'server ext posix-rename'\"

Exit status:
  0  the stream ended after a frame
  1  the stream ended within a frame, or contained an invalid request
  2  a WORD is invalid
  3  the connection failed
  5  out of memory
  7  18446744073709551615 frames were served
"
}

/// Returns the text of `--version`.
#[tactic(auto, unfolding(crate::specs::Words::version_text))]
fn version_text() -> &'static str
    ensures { result.now ≡ version_text }
{
    "tilfrjon 0.1.0\n"
}

/// Returns the text of the single argument `--help` or `--version`, or `None` if the arguments are a server's.
pub(crate) fn text_for(words: &[String]) -> Option<&'static str>
    ensures { option_copied result ≡ text_for (map string_bytes words.now) }
{
    match words {
        [word] => {
            if word.as_str() == "--help" {
                Some(help_text())
            } else if word.as_str() == "--version" {
                Some(version_text())
            } else {
                None
            }
        }
        _ => None,
    }
}

/// Returns true if the first argument is `--long`.
pub(crate) fn is_long(words: &[String]) -> bool
    ensures { result ≡ is_long (map string_bytes words.now) }
{
    match words {
        [word, ..] => word.as_str() == "--long",
        [] => false,
    }
}

/// Returns the arguments that are lines: those after `--long`, or all.
pub(crate) fn server_lines(words: &[String]) -> &[String]
    ensures { map string_bytes result.now ≡ server_lines (map string_bytes words.now) }
{
    if is_long(words) { &words[1..] } else { words }
}

/// Returns the message on standard error for a status; `None` for 0.
pub(crate) fn cause_of(status: u8) -> Option<&'static str>
    ensures { option_copied result ≡ cause_of status }
{
    match status {
        1 => Some("the stream ended within a frame, or contained an invalid request"),
        2 => Some("an argument is invalid"),
        3 => Some("the connection failed"),
        5 => Some("out of memory"),
        7 => Some("the limit of frames was reached"),
        _ => None,
    }
}

/// Returns the reason why arguments are refused, or `None` if they are read. Fails only if an allocation fails.
fn refusal(alloc: Global, words: &[String]) -> Result<Option<Reason>, OutOfMemory>
    ensures { IfOk result (λ why. MatchOption why (IsOk (server_of (map string_bytes words.now)))
        (λ why. server_of (map string_bytes words.now) ≡ Err why)) }
{
    match read_server_words(alloc, words) {
        Ok(_) => Ok(None),
        Err(LineError::OutOfMemory) => Err(OutOfMemory),
        Err(LineError::Refused(why)) => Ok(Some(why)),
    }
}

/// Returns the first argument that is refused, counted from 1, and the reason; `None` if all are read. Fails only if an
/// allocation fails.
#[tactic(auto, using(crate::proofs::RefusedWords::all_read, crate::proofs::RefusedWords::one_more))]
pub(crate) fn refused_word(
    alloc: Global,
    words: &[String],
) -> Result<Option<(usize, Reason)>, OutOfMemory>
    ensures { IfOk result (λ found. MatchOption found (IsOk (server_of (map string_bytes words.now)))
        (λ at. IsRefusedWord (map string_bytes words.now) at.0 at.1)) }
{
    for read in 0..words.len() {
        if let Some(why) = refusal(alloc, &words[..read + 1])? {
            return Ok(Some((read + 1, why)));
        }
    }
    Ok(None)
}
