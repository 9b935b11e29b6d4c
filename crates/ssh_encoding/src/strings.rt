//! Strings: a length and that many bytes.
ghost use Rattle.std.specs.Prelude.{◌≡◌, ℕ, List};
ghost use Rattle.std.specs.Str.{is_utf8};
ghost use Rattle.std.specs.String.{string_bytes};
ghost use Rattle.ssh_encoding.specs.declared.error.Error.TheVariants.{OutOfMemory};
ghost use Rattle.ssh_encoding.specs.Reading.{DecodesAs, IsSuffix, string_at, all_at, text_at, prefixed_value, texts_at, texts_of};
ghost use Rattle.ssh_encoding.specs.Spelling.{IsString, IsText, IsTextList};
ghost use Rattle.ssh_encoding.specs.Exact.{string_exact, text_exact, text_list_exact};

use crate::decode::Decode;
use crate::error::Error;
use crate::reader::Reader;
use bytes::Bytes;
use std::alloc::Global;

/// string: a length and that many bytes. The errors are those of [`Reader::read_prefixed`].
impl Decode for Vec<u8> {
    type Error = Error;

    ghost Seen = { List ℕ };

    ghost seen = { λ v. v.items };

    ghost reading = { string_at };

    ghost spells = { IsString };

    fn decode<R: Reader>(alloc: Global, reader: &mut R) -> Result<Vec<u8>, Error> {
        reader.read_prefixed(
            |r: &mut R| -> Result<Vec<u8>, Error>
                ensures { DecodesAs (λ v. v.items) (λ e. e ≡ OutOfMemory) (R.left r.new) result (all_at (R.left r.old)) }
            { take_all(alloc, r) },
        )
    }

    ghost exact = { string_exact };
}

/// Returns all bytes that are left.
fn take_all<R: Reader>(alloc: Global, reader: &mut R) -> Result<Vec<u8>, Error>
    ensures { DecodesAs (λ v. v.items) (λ e. e ≡ OutOfMemory) (R.left reader.new) result (all_at (R.left reader.old)) }
{
    let mut bytes = vec![in alloc; 0u8; reader.remaining_len()]?;
    reader.fill(&mut bytes)?;
    Ok(bytes)
}

/// string: a length and that many bytes. The errors are those of [`Reader::read_prefixed`].
impl Decode for Bytes {
    type Error = Error;

    ghost Seen = { List ℕ };

    ghost seen = { λ b. b };

    ghost reading = { string_at };

    ghost spells = { IsString };

    fn decode<R: Reader>(alloc: Global, reader: &mut R) -> Result<Bytes, Error> {
        let bytes = Vec::<u8>::decode(alloc, reader)?;
        Ok(Bytes::from_vec(bytes)?)
    }

    ghost exact = { string_exact };
}

/// A string in UTF-8. The errors are those of a string, and `CharacterEncoding` if its bytes are not UTF-8.
impl Decode for String {
    type Error = Error;

    ghost Seen = { List ℕ };

    ghost seen = { λ s. string_bytes s };

    ghost reading = { text_at };

    ghost spells = { IsText };

    #[tactic(auto, unfolding(crate::specs::Reading::text_at), using(crate::proofs::Text::utf8_tests))]
    fn decode<R: Reader>(alloc: Global, reader: &mut R) -> Result<String, Error> {
        let bytes = Vec::<u8>::decode(alloc, reader)?;
        if !is_text(&bytes) {
            return Err(Error::CharacterEncoding);
        }
        Ok(String::from_utf8(bytes)?)
    }

    ghost exact = { text_exact };
}

#[tactic(auto, using(crate::proofs::Text::utf8_tests))]
fn is_text(bytes: &[u8]) -> bool
    ensures { result ≡ is_utf8 bytes.now }
{
    str::from_utf8(bytes).is_ok()
}

/// A string that holds texts to its end. The errors are those of a text, also inside it.
impl Decode for Vec<String> {
    type Error = Error;

    ghost Seen = { List (List ℕ) };

    ghost seen = { λ v. texts_of v.items };

    ghost reading = { prefixed_value texts_at };

    ghost spells = { IsTextList };

    fn decode<R: Reader>(alloc: Global, reader: &mut R) -> Result<Vec<String>, Error> {
        reader.read_prefixed(
            |r: &mut R| -> Result<Vec<String>, Error>
                ensures { DecodesAs (λ v. texts_of v.items) (λ e. e ≡ OutOfMemory) (R.left r.new) result (texts_at (R.left r.old)) }
            { take_texts(alloc, r) },
        )
    }

    ghost exact = { text_list_exact };
}

/// Reads texts until no bytes are left.
#[tactic(auto, using(crate::proofs::Texts::texts))]
fn take_texts<R: Reader>(alloc: Global, reader: &mut R) -> Result<Vec<String>, Error>
    ensures { DecodesAs (λ v. texts_of v.items) (λ e. e ≡ OutOfMemory) (R.left reader.new) result (texts_at (R.left reader.old)) }
{
    let mut texts = Vec::new(alloc);
    let most = reader.remaining_len();
    for i in 0..most {
        if reader.is_finished() {
            break;
        }
        let text = String::decode(alloc, reader)?;
        texts.push(text)?;
    }
    Ok(texts)
}
