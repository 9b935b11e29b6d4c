//! The target of a seek.
ghost use Rattle.std.specs.Prelude.{◌≡◌};
ghost use Rattle.script_words.specs.Fields.{position_in};

use crate::number::{number_in, signed_in};
use crate::reason::Reason;
use std::io::SeekFrom;

const START: &[u8] = b"start";

const CUR: &[u8] = b"cur";

const END: &[u8] = b"end";

/// Returns the target of a seek, by its kind and its number.
pub(crate) fn position_in(kind: &[u8], word: &[u8]) -> Result<SeekFrom, Reason>
    ensures { result ≡ position_in kind.now word.now }
{
    if kind == START {
        Ok(SeekFrom::Start(number_in(0, u64::MAX, word)?))
    } else if kind == CUR {
        Ok(SeekFrom::Current(signed_in(word)?))
    } else if kind == END {
        Ok(SeekFrom::End(signed_in(word)?))
    } else {
        Err(Reason::Mode)
    }
}
