//! Names out of a set, such as those of algorithms.
ghost use Rattle.std.specs.Prelude.{◌≡◌, List, ℕ, Result};
ghost use Rattle.ssh_encoding.specs.declared.error.Error.{Error};
ghost use Rattle.ssh_encoding.specs.Reading.{NamesValue, label_at};
ghost use Rattle.ssh_encoding.specs.Spelling.{IsLabel};
ghost use Rattle.ssh_encoding.specs.Exact.{label_exact};
ghost use Rattle.ssh_encoding.specs.Writing.{string, string_refusal};

use crate::decode::Decode;
use crate::encode::Encode;
use crate::error::Error;
use crate::reader::Reader;
use crate::writer::Writer;
use std::alloc::Global;

/// The most bytes that a label has on the wire.
const MAX_LABEL_LEN: usize = 48;

/// A name out of a set, such as that of an algorithm. It is read from and written as a string.
///
/// Example: `crates/test_wire/src/encoding/labels.rt`.
pub trait Label: Sized {
    /// The form in which a contract sees a label.
    ghost LabelSeen: { Type 0 };

    ghost label_seen: { Self → LabelSeen };

    /// The label that a text names, or the error.
    ghost meaning: { List ℕ → Result LabelSeen Error };

    /// The text that is written.
    ghost name_of: { Self → List ℕ };

    /// Returns the text of the label.
    fn as_str(&self) -> &str
        ensures { result.now ≡ name_of self.now };

    /// Returns the label that a text names.
    ///
    /// # Errors
    ///
    /// `Label` if it names none, and `OutOfMemory` if an allocation fails.
    fn from_label(alloc: Global, text: &str) -> Result<Self, Error>
        ensures { NamesValue label_seen result (meaning text.now) };
}

/// A string that names a label. The errors are those of a string; then `Length` over 48 bytes, `CharacterEncoding` if
/// it is not UTF-8, and the errors of `from_label`.
impl<L: Label> Decode for L {
    type Error = Error;

    ghost Seen = { L.LabelSeen };

    ghost seen = { L.label_seen };

    ghost reading = { label_at L.meaning };

    ghost spells = { IsLabel L.meaning };

    #[tactic(auto, unfolding(crate::specs::Reading::label_at), using(crate::proofs::Text::utf8_tests))]
    fn decode<R: Reader>(alloc: Global, reader: &mut R) -> Result<L, Error> {
        let bytes = Vec::<u8>::decode(alloc, reader)?;
        if bytes.len() > MAX_LABEL_LEN {
            return Err(Error::Length);
        }
        match str::from_utf8(&bytes) {
            Ok(text) => L::from_label(alloc, text),
            Err(_) => Err(Error::CharacterEncoding),
        }
    }

    ghost exact = { label_exact L.meaning };
}

/// The text of `as_str` as a string.
impl<L: Label> Encode for L {
    ghost written = { λ label. string (L.name_of label) };

    ghost refusal = { λ label. string_refusal (L.name_of label) };

    fn encoded_len(&self) -> Result<usize, Error> {
        self.as_str().encoded_len()
    }

    fn encode<W: Writer>(&self, writer: &mut W) -> Result<(), Error> {
        self.as_str().encode(writer)
    }
}
