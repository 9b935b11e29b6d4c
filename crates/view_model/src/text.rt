//! The lines of the answers to operations.
ghost use Rattle.std.specs.Prelude.{◌≡◌, ◌++◌, codes, OnErr, OnOk};
ghost use Rattle.script_text.specs.Texts.{line, number_text};
ghost use Rattle.sftp_wire.specs.Body.{AppendsBytes};
ghost use Rattle.view_model.specs.AnswerText.{answer_lines, answer_text, view_lines};

use crate::answer::Answer;
use script_text::{put_bytes, put_number, put_word};
use ssh_encoding::OutOfMemory;
use std::alloc::Global;

/// Appends the words of an answer.
#[tactic(auto, using(sftp_wire::proofs::Puts::puts))]
fn put_answer(alloc: Global, answer: &Answer, out: &mut Vec<u8>) -> Result<(), OutOfMemory>
    ensures ok { OnOk result (out.new.items ≡ out.old.items ++ answer_text answer.now) }
    ensures grows { AppendsBytes out.old.items out.new.items }
{
    match answer {
        Answer::Got(bytes) => {
            put_word("got ", out)?;
            put_bytes(alloc, bytes.as_slice(), out)
        }
        Answer::Put => put_word("put", out),
        Answer::Refused { code } => {
            put_word("refused ", out)?;
            put_number(u64::from(*code), out)
        }
        Answer::TooLong => put_word("toolong", out),
    }
}

/// Appends the line of an answer.
#[tactic(auto, using(sftp_wire::proofs::Puts::puts))]
fn put_answer_line(alloc: Global, answer: &Answer, out: &mut Vec<u8>) -> Result<(), OutOfMemory>
    ensures ok { OnOk result (out.new.items ≡ out.old.items ++ line (answer_text answer.now)) }
    ensures grows { AppendsBytes out.old.items out.new.items }
{
    put_answer(alloc, answer, out)?;
    put_word("\n", out)
}

/// Appends the lines of answers.
#[tactic(auto, using(sftp_wire::proofs::Puts::puts))]
fn put_answers(alloc: Global, answers: &[Answer], out: &mut Vec<u8>) -> Result<(), OutOfMemory>
    ensures ok { OnOk result (out.new.items ≡ out.old.items ++ answer_lines answers.now) }
    ensures grows { AppendsBytes out.old.items out.new.items }
{
    let mut rest = answers;
    loop {
        match rest {
            [] => return Ok(()),
            [answer, later @ ..] => {
                put_answer_line(alloc, answer, out)?;
                rest = later;
            }
        }
    }
}

/// Appends the line of a count.
#[tactic(auto, using(sftp_wire::proofs::Puts::puts))]
fn put_count(word: &str, n: u64, out: &mut Vec<u8>) -> Result<(), OutOfMemory>
    ensures ok { OnOk result (out.new.items ≡ out.old.items ++ line (word.now ++ number_text n)) }
    ensures grows { AppendsBytes out.old.items out.new.items }
{
    put_word(word, out)?;
    put_number(n, out)?;
    put_word("\n", out)
}

/// Appends the lines of answers, and then the counts.
#[tactic(auto, using(sftp_wire::proofs::Puts::puts))]
fn put_view(
    alloc: Global,
    answers: &[Answer],
    hits: u64,
    misses: u64,
    out: &mut Vec<u8>,
) -> Result<(), OutOfMemory>
    ensures ok { OnOk result (out.new.items ≡ out.old.items ++ view_lines answers.now hits misses) }
    ensures grows { AppendsBytes out.old.items out.new.items }
{
    put_answers(alloc, answers, out)?;
    put_count("hits ", hits, out)?;
    put_count("misses ", misses, out)
}

/// Appends a line for each answer: `got` with the bytes, `put`, `refused` with the status, or `toolong`; and then a
/// line for the hits and one for the misses.
///
/// # Errors
///
/// `OutOfMemory` if an allocation fails; `out` is unchanged.
pub fn write_view(
    alloc: Global,
    answers: &[Answer],
    hits: u64,
    misses: u64,
    out: &mut Vec<u8>,
) -> Result<(), OutOfMemory>
    ensures ok { OnOk result (out.new.items ≡ out.old.items ++ view_lines answers.now hits misses) }
    ensures unchanged { OnErr result (out.new.items ≡ out.old.items) }
{
    let before = out.len();
    match put_view(alloc, answers, hits, misses, out) {
        Ok(()) => Ok(()),
        Err(OutOfMemory) => {
            out.truncate(before);
            Err(OutOfMemory)
        }
    }
}
