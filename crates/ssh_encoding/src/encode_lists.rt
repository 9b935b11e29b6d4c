//! Lists of strings: a string that holds strings to its end.
ghost use Rattle.std.specs.Prelude.{◌≡◌, ◌++◌, ◌≤◌, ℕ, List, length, None, OnOk, IfErr};
ghost use Rattle.std.specs.List.{flat_map};
ghost use Rattle.ssh_encoding.specs.Writing.{WritesValue, CountsBytes, IsPart, string, prefixed_refusal};

use crate::encode::Encode;
use crate::encode_strings::Rfc4251String;
use crate::error::Error;
use crate::sums::add_lens;
use crate::writer::Writer;

/// Returns the number of bytes that the strings of a list take.
fn strings_len<T: Rfc4251String>(items: &[T]) -> Result<usize, Error>
    ensures { CountsBytes result (length (flat_map T.Encode.written items.now)) }
{
    let mut total: usize = 0;
    for item in items {
        total = add_lens(total, item.encoded_len()?)?;
    }
    Ok(total)
}

/// Writes the strings of a list, each of which has a length of at most `u32::MAX`. Fails only if an allocation fails.
fn write_strings<T: Rfc4251String, W: Writer>(items: &[T], writer: &mut W) -> Result<(), Error>
    requires { length (flat_map T.Encode.written items.now) ≤ 4294967295 }
    ensures ok { OnOk result (W.wrote writer.new ≡ W.wrote writer.old ++ flat_map T.Encode.written items.now) }
    ensures err { IfErr result (λ e. (e ≡ Error.OutOfMemory) × IsPart (W.wrote writer.old) (W.wrote writer.new) (flat_map T.Encode.written items.now)) }
    ensures same { W.goes_to writer.old writer.new }
{
    for item in items {
        item.encode(writer)?;
    }
    Ok(())
}

/// Writes a list of strings as a string that holds them.
fn write_list<T: Rfc4251String, W: Writer>(items: &[T], writer: &mut W) -> Result<(), Error>
    ensures writes { WritesValue (W.wrote writer.old) (W.wrote writer.new) result (string (flat_map T.Encode.written items.now)) (prefixed_refusal (length (flat_map T.Encode.written items.now)) None) }
    ensures same { W.goes_to writer.old writer.new }
{
    strings_len(items)?.encode(writer)?;
    write_strings(items, writer)
}

/// A string that holds the strings of the list.
impl<T: Rfc4251String> Encode for &[T] {
    ghost written = { λ s. string (flat_map T.Encode.written s.now) };

    ghost refusal = { λ s. prefixed_refusal (length (flat_map T.Encode.written s.now)) None };

    #[tactic(auto, unfolding(crate::specs::Writing::uint32, crate::specs::Writing::string))]
    fn encoded_len(&self) -> Result<usize, Error> {
        add_lens(4, strings_len(*self)?)
    }

    fn encode<W: Writer>(&self, writer: &mut W) -> Result<(), Error> {
        write_list(*self, writer)
    }
}

/// A string that holds the strings of the list.
impl<T: Rfc4251String> Encode for Vec<T> {
    ghost written = { λ v. string (flat_map T.Encode.written v.items) };

    ghost refusal = { λ v. prefixed_refusal (length (flat_map T.Encode.written v.items)) None };

    #[tactic(auto, unfolding(crate::specs::Writing::uint32, crate::specs::Writing::string))]
    fn encoded_len(&self) -> Result<usize, Error> {
        add_lens(4, strings_len(self.as_slice())?)
    }

    fn encode<W: Writer>(&self, writer: &mut W) -> Result<(), Error> {
        write_list(self.as_slice(), writer)
    }
}
