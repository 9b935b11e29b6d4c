//! Arguments of a command line on the first content of a server and on its offers.
ghost use Rattle.std.specs.Prelude.{◌≡◌, ◌∷◌, [], Ok, OnOk, IfOk, IfErr, map, true};
ghost use Rattle.std.specs.String.{string_bytes};
ghost use Rattle.script_words.specs.Lines.{words_of};
ghost use Rattle.script_grammar.specs.Scripts.{empty_script};
ghost use Rattle.machine_model.specs.FirstTree.{may_begin};
ghost use Rattle.script_grammar.specs.CanRun.{CanRun};
ghost use Rattle.script_words.specs.Refusals.{RefusesLine};
ghost use Rattle.script_grammar.specs.ServerWords.{first_line, first_line_by, offer_line, read_first, server_of};

use crate::draft::Draft;
use crate::script::Script;
use crate::server::server_line;
use crate::setup::{dir_line, file_line};
use script_words::{LineError, Reason, split_word};
use std::alloc::Global;

const SERVER: &[u8] = b"server";

const FILE: &[u8] = b"file";

const DIR: &[u8] = b"dir";

const CUT: &[u8] = b"cut";

/// Reads an offer of the server, by the words after `server`.
fn offer_line(draft: &mut Draft, line: &[u8]) -> Result<(), LineError>
    ensures ok { OnOk result (offer_line draft.old (words_of line.now) ≡ Ok draft.new) }
    ensures refused { IfErr result (λ e. RefusesLine (offer_line draft.old (words_of line.now)) e) }
{
    if let Some((kind, _)) = split_word(line) {
        if kind == CUT {
            return Err(LineError::Refused(Reason::Mode));
        }
    }
    server_line(draft, line)?;
    Ok(())
}

/// Reads a line by its first word.
fn line_by(alloc: Global, draft: &mut Draft, word: &[u8], line: &[u8]) -> Result<(), LineError>
    ensures ok { OnOk result (first_line_by draft.old word.now (words_of line.now) ≡ Ok draft.new) }
    ensures refused { IfErr result (λ e. RefusesLine (first_line_by draft.old word.now (words_of line.now)) e) }
{
    if word == SERVER {
        offer_line(draft, line)
    } else if word == FILE {
        file_line(alloc, draft, line)
    } else if word == DIR {
        dir_line(alloc, draft, line)
    } else {
        Err(LineError::Refused(Reason::Word))
    }
}

/// Reads a line that has at least one word.
fn first_line(alloc: Global, draft: &mut Draft, line: &[u8]) -> Result<(), LineError>
    ensures ok { OnOk result (first_line draft.old (words_of line.now) ≡ Ok draft.new) }
    ensures refused { IfErr result (λ e. RefusesLine (first_line draft.old (words_of line.now)) e) }
{
    match split_word(line) {
        Some((word, rest)) => line_by(alloc, draft, word, rest),
        None => Err(LineError::Refused(Reason::Word)),
    }
}

/// Reads arguments each of which is one line `file`, `dir`, `server ext` or `server limits` of a script.
///
/// # Errors
///
/// `Refused` with the reason of the first argument that is no such line. `OutOfMemory` if an allocation fails; it may
/// come in place of any other result.
#[tactic(auto, using(crate::proofs::ServerWordLaws::word_read, crate::proofs::ServerWordLaws::words_end, crate::proofs::ServerWordLaws::word_refused))]
pub fn read_server_words(alloc: Global, words: &[String]) -> Result<Script, LineError>
    ensures ok { IfOk result (λ script. server_of (map string_bytes words.now) ≡ Ok script) }
    ensures runs { IfOk result (λ script. CanRun script) }
    ensures refused { IfErr result (λ e. RefusesLine (server_of (map string_bytes words.now)) e) }

    // A field of `runs`.
    ensures begins { IfOk result (λ script. may_begin script.files script.dirs ≡ true) }
{
    let mut draft = Draft::new(alloc);
    let mut rest = words;
    while let [word, later @ ..] = rest {
        if let Err(e) = first_line(alloc, &mut draft, word.as_bytes()) {
            return Err(e);
        }
        rest = later;
    }
    Ok(draft.into_script())
}
