//! The parts of a write: one word or more, each of which spells bytes.
ghost use Rattle.std.specs.Prelude.{◌≡◌, Ok, IfOk, IfErr};
ghost use Rattle.script_words.specs.Lines.{bytes_in, words_of};
ghost use Rattle.script_words.specs.Fields.{each_in, parts_in};
ghost use Rattle.script_words.specs.Refusals.{RefusesLine};

use crate::error::LineError;
use crate::hex_word::bytes_in;
use crate::number::slot_in;
use crate::words::{split_word, word_and_more};
use sftp_values::{ByteText, Items};
use std::alloc::Global;

/// Returns the bytes that each word of a line spells.
fn each_in(alloc: Global, line: &[u8]) -> Result<Vec<ByteText>, LineError>
    ensures ok { IfOk result (λ parts. each_in bytes_in (words_of line.now) ≡ Ok parts.items) }
    ensures refused { IfErr result (λ e. RefusesLine (each_in bytes_in (words_of line.now)) e) }
{
    let mut parts = Vec::new(alloc);
    let mut rest = line;
    while let Some((word, later)) = split_word(rest) {
        parts.push(bytes_in(alloc, word)?)?;
        rest = later;
    }
    Ok(parts)
}

/// Returns a slot, and one part or more.
///
/// # Errors
///
/// `Refused` with `Count` if there are fewer than two words, otherwise with the reason of the first word that is
/// refused; or `OutOfMemory` if an allocation fails.
#[tactic(auto, using(crate::proofs::PartLaws::too_few, crate::proofs::PartLaws::slot_refused, crate::proofs::PartLaws::parts_refused, crate::proofs::PartLaws::parts_read))]
pub fn slot_and_parts(alloc: Global, line: &[u8]) -> Result<(u8, Items<ByteText>), LineError>
    ensures ok { IfOk result (λ p. parts_in (words_of line.now) ≡ Ok p) }
    ensures refused { IfErr result (λ e. RefusesLine (parts_in (words_of line.now)) e) }
{
    let (slot, rest) = word_and_more(line)?;
    let slot = slot_in(slot)?;
    let parts = each_in(alloc, rest)?;
    Ok((slot, Items::new(parts)))
}
