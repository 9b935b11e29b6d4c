//! Bytes in hexadecimal digits.
ghost use Rattle.std.specs.Prelude.{◌≡◌, Ok, IfOk, IfErr};
ghost use Rattle.script_words.specs.Lines.{bytes_in};
ghost use Rattle.script_words.specs.Refusals.{RefusesLine};

use crate::error::LineError;
use sftp_values::ByteText;
use std::alloc::Global;

/// The word of an empty field.
pub(crate) const NOTHING: &[u8] = b"-";

/// Returns no bytes, written as `-`, or the bytes of pairs of hexadecimal digits of either case.
///
/// # Errors
///
/// `Refused` with `Hex` if the digits are misspelled, or `OutOfMemory` if an allocation fails.
#[tactic(auto, using(crate::proofs::HexLaws::digits_refused))]
pub fn bytes_in(alloc: Global, word: &[u8]) -> Result<ByteText, LineError>
    ensures ok { IfOk result (λ bytes. bytes_in word.now ≡ Ok bytes) }
    ensures refused { IfErr result (λ e. RefusesLine (bytes_in word.now) e) }
{
    if word == NOTHING {
        return Ok(ByteText::new(Vec::new(alloc)));
    }
    let bytes = hex::decode(alloc, word)?;
    Ok(ByteText::new(bytes))
}
