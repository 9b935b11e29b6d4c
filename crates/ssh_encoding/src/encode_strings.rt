//! Strings: a length and that many bytes.
ghost use Rattle.std.specs.Prelude.{◌≡◌, ◌+◌, ℕ, List, length, refl};
ghost use Rattle.std.specs.String.{string_bytes};
ghost use Rattle.ssh_encoding.specs.Writing.{WritesValue, CountsBytes, string, string_refusal};

use crate::encode::Encode;
use crate::error::Error;
use crate::sums::add_lens;
use crate::writer::Writer;
use bytes::Bytes;

/// A type that is written as one string, as the entries of a list are.
///
/// Example: `crates/test_wire/src/encoding/lists.rt`.
pub trait Rfc4251String: Encode {
    /// The bytes of the string.
    ghost content: { Self → List ℕ };

    /// It is written as a string of these bytes.
    ghost is_string: { (x : Self) → Self.Encode.written x ≡ string (content x) };

    /// Its error is that of a string of these bytes.
    ghost is_refused: { (x : Self) → Self.Encode.refusal x ≡ string_refusal (content x) };
}

/// Returns the number of bytes that a string takes.
#[tactic(auto, unfolding(crate::specs::Writing::uint32, crate::specs::Writing::string))]
fn string_len(bytes: &[u8]) -> Result<usize, Error>
    ensures { CountsBytes result (length (string bytes.now)) }
{
    add_lens(4, bytes.len())
}

/// Writes bytes as a string.
#[tactic(auto, using(crate::proofs::Parts::parts), unfolding(crate::specs::Writing::string))]
fn write_string<W: Writer>(bytes: &[u8], writer: &mut W) -> Result<(), Error>
    ensures writes { WritesValue (W.wrote writer.old) (W.wrote writer.new) result (string bytes.now) (string_refusal bytes.now) }
    ensures same { W.goes_to writer.old writer.new }
{
    bytes.len().encode(writer)?;
    writer.write(bytes)
}

impl Encode for &[u8] {
    ghost written = { λ s. string s.now };

    ghost refusal = { λ s. string_refusal s.now };

    fn encoded_len(&self) -> Result<usize, Error> {
        string_len(*self)
    }

    fn encode<W: Writer>(&self, writer: &mut W) -> Result<(), Error> {
        write_string(*self, writer)
    }
}

impl Rfc4251String for &[u8] {
    ghost content = { λ s. s.now };

    ghost is_string = { λ x. refl };

    ghost is_refused = { λ x. refl };
}

impl Encode for &str {
    ghost written = { λ s. string s.now };

    ghost refusal = { λ s. string_refusal s.now };

    fn encoded_len(&self) -> Result<usize, Error> {
        string_len(self.as_bytes())
    }

    fn encode<W: Writer>(&self, writer: &mut W) -> Result<(), Error> {
        write_string(self.as_bytes(), writer)
    }
}

impl Rfc4251String for &str {
    ghost content = { λ s. s.now };

    ghost is_string = { λ x. refl };

    ghost is_refused = { λ x. refl };
}

impl Encode for Vec<u8> {
    ghost written = { λ v. string v.items };

    ghost refusal = { λ v. string_refusal v.items };

    fn encoded_len(&self) -> Result<usize, Error> {
        string_len(self.as_slice())
    }

    fn encode<W: Writer>(&self, writer: &mut W) -> Result<(), Error> {
        write_string(self.as_slice(), writer)
    }
}

impl Rfc4251String for Vec<u8> {
    ghost content = { λ v. v.items };

    ghost is_string = { λ x. refl };

    ghost is_refused = { λ x. refl };
}

impl Encode for &Vec<u8> {
    ghost written = { λ v. string v.now.items };

    ghost refusal = { λ v. string_refusal v.now.items };

    fn encoded_len(&self) -> Result<usize, Error> {
        string_len(self.as_slice())
    }

    fn encode<W: Writer>(&self, writer: &mut W) -> Result<(), Error> {
        write_string(self.as_slice(), writer)
    }
}

impl Rfc4251String for &Vec<u8> {
    ghost content = { λ v. v.now.items };

    ghost is_string = { λ x. refl };

    ghost is_refused = { λ x. refl };
}

impl Encode for String {
    ghost written = { λ s. string (string_bytes s) };

    ghost refusal = { λ s. string_refusal (string_bytes s) };

    fn encoded_len(&self) -> Result<usize, Error> {
        string_len(self.as_bytes())
    }

    fn encode<W: Writer>(&self, writer: &mut W) -> Result<(), Error> {
        write_string(self.as_bytes(), writer)
    }
}

impl Rfc4251String for String {
    ghost content = { λ s. string_bytes s };

    ghost is_string = { λ x. refl };

    ghost is_refused = { λ x. refl };
}

impl Encode for &String {
    ghost written = { λ s. string (string_bytes s.now) };

    ghost refusal = { λ s. string_refusal (string_bytes s.now) };

    fn encoded_len(&self) -> Result<usize, Error> {
        string_len(self.as_bytes())
    }

    fn encode<W: Writer>(&self, writer: &mut W) -> Result<(), Error> {
        write_string(self.as_bytes(), writer)
    }
}

impl Rfc4251String for &String {
    ghost content = { λ s. string_bytes s.now };

    ghost is_string = { λ x. refl };

    ghost is_refused = { λ x. refl };
}

impl Encode for Bytes {
    ghost written = { λ b. string b };

    ghost refusal = { λ b. string_refusal b };

    fn encoded_len(&self) -> Result<usize, Error> {
        string_len(self.as_slice())
    }

    fn encode<W: Writer>(&self, writer: &mut W) -> Result<(), Error> {
        write_string(self.as_slice(), writer)
    }
}

impl Rfc4251String for Bytes {
    ghost content = { λ b. b };

    ghost is_string = { λ x. refl };

    ghost is_refused = { λ x. refl };
}

impl Encode for &Bytes {
    ghost written = { λ b. string b.now };

    ghost refusal = { λ b. string_refusal b.now };

    fn encoded_len(&self) -> Result<usize, Error> {
        string_len(self.as_slice())
    }

    fn encode<W: Writer>(&self, writer: &mut W) -> Result<(), Error> {
        write_string(self.as_slice(), writer)
    }
}

impl Rfc4251String for &Bytes {
    ghost content = { λ b. b.now };

    ghost is_string = { λ x. refl };

    ghost is_refused = { λ x. refl };
}
