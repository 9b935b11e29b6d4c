//! The lines on the first content of a server and on the options of a session.
ghost use Rattle.std.specs.Prelude.{◌≡◌, Some, None, Ok, IfOk, OnOk, IfErr, MatchBool, true};
ghost use Rattle.script_words.specs.Lines.{words_of, one_word, two_words};
ghost use Rattle.script_grammar.specs.Setup.{path_in, content_in, may_add, file_line, dir_line, refusal_in, choice_line, pick_line, server_line, setup_line};
ghost use Rattle.machine_model.specs.Components.{components};
ghost use Rattle.script_words.specs.Refusals.{RefusesLine, RefusesIn};

use crate::draft::Draft;
use crate::names::may_be_named;
use crate::options::option_line;
use crate::server::server_line;
use machine_answers::components;
use script_words::{LineError, Reason, bytes_in, number_from, one_word, two_words};
use sftp_model::Choice;
use sftp_values::{ByteText, Items};
use std::alloc::Global;

const OPTION: &[u8] = b"option";

const SERVER: &[u8] = b"server";

const FILE: &[u8] = b"file";

const DIR: &[u8] = b"dir";

const CHOICE: &[u8] = b"choice";

const PICK: &[u8] = b"pick";

/// Returns a path of a permitted name, and the name.
fn path_in(alloc: Global, word: &[u8]) -> Result<(ByteText, Items<ByteText>), LineError>
    ensures ok { IfOk result (λ p. (path_in word.now ≡ Ok p.0) × (p.1 ≡ components p.0)) }
    ensures refused { IfErr result (λ e. RefusesLine (path_in word.now) e) }
{
    let path = bytes_in(alloc, word)?;
    let name = components(alloc, path.as_slice())?;
    if !may_be_named(name.as_slice()) {
        return Err(LineError::Refused(Reason::Range));
    }
    Ok((path, name))
}

/// Returns the bytes of another file.
fn content_in(alloc: Global, draft: &Draft, word: &[u8]) -> Result<ByteText, LineError>
    ensures ok { IfOk result (λ content. (content_in draft.now.script.files word.now ≡ Ok content)
        × (may_add draft.now.script.files content ≡ true)) }
    ensures refused { IfErr result (λ e. RefusesLine (content_in draft.now.script.files word.now) e) }
{
    let content = bytes_in(alloc, word)?;
    if !draft.may_add(content.as_slice()) {
        return Err(LineError::Refused(Reason::Range));
    }
    Ok(content)
}

/// Adds a file at this path, with this content, to the server.
fn add_file(alloc: Global, draft: &mut Draft, path: &[u8], content: &[u8]) -> Result<(), LineError>
    ensures ok { OnOk result (file_line draft.old path.now content.now ≡ Ok draft.new) }
    ensures refused { IfErr result (λ e. RefusesLine (file_line draft.old path.now content.now) e) }
{
    let (path, name) = path_in(alloc, path)?;
    let content = content_in(alloc, draft, content)?;
    draft.add_file(path, name, content)
}

/// Adds a directory at this path to the server.
fn add_dir(alloc: Global, draft: &mut Draft, path: &[u8]) -> Result<(), LineError>
    ensures ok { OnOk result (dir_line draft.old path.now ≡ Ok draft.new) }
    ensures refused { IfErr result (λ e. RefusesLine (dir_line draft.old path.now) e) }
{
    let (path, name) = path_in(alloc, path)?;
    draft.add_dir(path, name)
}

/// Reads the words after `file`.
#[tactic(auto, using(script_words::proofs::Counts::not_two))]
pub(crate) fn file_line(alloc: Global, draft: &mut Draft, line: &[u8]) -> Result<(), LineError>
    ensures ok { OnOk result (two_words (file_line draft.old) (words_of line.now) ≡ Ok draft.new) }
    ensures refused { IfErr result (λ e. RefusesLine (two_words (file_line draft.old) (words_of line.now)) e) }
{
    let (name, content) = two_words(line)?;
    add_file(alloc, draft, name, content)
}

/// Reads the word after `dir`.
#[tactic(auto, using(script_words::proofs::Counts::not_one))]
pub(crate) fn dir_line(alloc: Global, draft: &mut Draft, line: &[u8]) -> Result<(), LineError>
    ensures ok { OnOk result (one_word (dir_line draft.old) (words_of line.now) ≡ Ok draft.new) }
    ensures refused { IfErr result (λ e. RefusesLine (one_word (dir_line draft.old) (words_of line.now)) e) }
{
    let path = one_word(line)?;
    add_dir(alloc, draft, path)
}

/// Returns the code by which a request is refused, or 0.
fn refusal_in(word: &[u8]) -> Result<u32, Reason>
    ensures { result ≡ refusal_in word.now }
{
    let code = number_from(0, word)?;
    if code == 1 {
        Err(Reason::Range)
    } else {
        Ok(code)
    }
}

/// Adds the choice of the server for one request.
fn add_choice(draft: &mut Draft, refuse: &[u8], cap: &[u8]) -> Result<(), LineError>
    ensures ok { OnOk result (choice_line draft.old refuse.now cap.now ≡ Ok draft.new) }
    ensures refused { IfErr result (λ e. RefusesLine (choice_line draft.old refuse.now cap.now) e) }
{
    let refuse = refusal_in(refuse)?;
    let cap = number_from(0, cap)?;
    draft.add_choice(Choice { refuse, cap })?;
    Ok(())
}

/// Reads the words after `choice`.
#[tactic(auto, using(script_words::proofs::Counts::not_two))]
fn choice_line(draft: &mut Draft, line: &[u8]) -> Result<(), LineError>
    ensures ok { OnOk result (two_words (choice_line draft.old) (words_of line.now) ≡ Ok draft.new) }
    ensures refused { IfErr result (λ e. RefusesLine (two_words (choice_line draft.old) (words_of line.now)) e) }
{
    let (refuse, cap) = two_words(line)?;
    add_choice(draft, refuse, cap)
}

/// Reads the word after `pick`.
#[tactic(auto, using(script_words::proofs::Counts::not_one))]
fn pick_line(draft: &mut Draft, line: &[u8]) -> Result<(), LineError>
    ensures ok { OnOk result (one_word (pick_line draft.old) (words_of line.now) ≡ Ok draft.new) }
    ensures refused { IfErr result (λ e. RefusesLine (one_word (pick_line draft.old) (words_of line.now)) e) }
{
    let word = one_word(line)?;
    let pick = number_from(0, word)?;
    draft.add_pick(pick)?;
    Ok(())
}

/// Reads the words after `server`.
fn server_words(draft: &mut Draft, line: &[u8]) -> Result<(), LineError>
    ensures ok { OnOk result (server_line draft.old (words_of line.now) ≡ Ok draft.new) }
    ensures refused { IfErr result (λ e. RefusesLine (server_line draft.old (words_of line.now)) e) }
{
    server_line(draft, line)?;
    Ok(())
}

/// Reads a line by its first word. Returns `false` for a word of other lines, and nothing changes then.
pub(crate) fn setup_line(
    alloc: Global,
    draft: &mut Draft,
    word: &[u8],
    line: &[u8],
) -> Result<bool, LineError>
    ensures ok { IfOk result (λ is. MatchBool is
        (setup_line draft.old word.now (words_of line.now) ≡ Some (Ok draft.new))
        ((setup_line draft.old word.now (words_of line.now) ≡ None) × (draft.new ≡ draft.old))) }
    ensures refused { IfErr result (λ e. RefusesIn (setup_line draft.old word.now (words_of line.now)) e) }
{
    if word == OPTION {
        option_line(draft, line)?;
        Ok(true)
    } else if word == SERVER {
        server_words(draft, line)?;
        Ok(true)
    } else if word == FILE {
        file_line(alloc, draft, line)?;
        Ok(true)
    } else if word == DIR {
        dir_line(alloc, draft, line)?;
        Ok(true)
    } else if word == CHOICE {
        choice_line(draft, line)?;
        Ok(true)
    } else if word == PICK {
        pick_line(draft, line)?;
        Ok(true)
    } else {
        Ok(false)
    }
}
