//! Values that are written as bytes.
ghost use Rattle.std.specs.Prelude.{◌≡◌, ◌∷◌, [], ◌+◌, ℕ, List, Option, None, length, IfOk, IfErr};
ghost use Rattle.ssh_encoding.specs.declared.error.Error.{Error};
ghost use Rattle.ssh_encoding.specs.Writing.{WritesValue, CountsBytes, RefusesBuffer, uint32, uint64, flag, string, len_refusal, prefixed_refusal};

use crate::error::Error;
use crate::sums::add_lens;
use crate::writer::Writer;
use bytes::BytesMut;
use std::alloc::Global;

/// A type that is written as bytes.
///
/// Example: `crates/example_encoding/src/values.rt`.
pub trait Encode {
    /// The list that is written.
    ghost written: { Self → List ℕ };

    /// The error if it cannot be written, or None. Running out of memory is the writer's error.
    ghost refusal: { Self → Option Error };

    /// Returns the number of bytes that [`Encode::encode`] appends.
    ///
    /// # Errors
    ///
    /// `Length` if it is over `usize::MAX`.
    fn encoded_len(&self) -> Result<usize, Error>
        ensures { CountsBytes result (length (written self.now)) };

    /// Appends the value's bytes.
    ///
    /// # Errors
    ///
    /// `Length` if a sum of lengths passes `usize::MAX`, `Overflow` if a length that is written passes `u32::MAX`, and
    /// `OutOfMemory` from the writer. The writer then holds what it held and a prefix of the value's bytes.
    fn encode<W: Writer>(&self, writer: &mut W) -> Result<(), Error>
        ensures writes { WritesValue (W.wrote writer.old) (W.wrote writer.new) result (written self.now) (refusal self.now) }
        ensures same { W.goes_to writer.old writer.new };

    /// Returns the number of bytes that [`Encode::encode_prefixed`] appends.
    ///
    /// # Errors
    ///
    /// `Length` if it is over `usize::MAX`.
    final fn encoded_len_prefixed(&self) -> Result<usize, Error>
        ensures { CountsBytes result (4 + length (written self.now)) }
    {
        add_lens(4, self.encoded_len()?)
    }

    /// Appends the length of the value's bytes, a uint32, and then the bytes.
    ///
    /// # Errors
    ///
    /// The errors of [`Encode::encode`], and `Overflow` if that length passes `u32::MAX`. The writer then holds what it
    /// held and a prefix of these bytes.
    final fn encode_prefixed<W: Writer>(&self, writer: &mut W) -> Result<(), Error>
        ensures writes { WritesValue (W.wrote writer.old) (W.wrote writer.new) result (string (written self.now)) (prefixed_refusal (length (written self.now)) (refusal self.now)) }
        ensures same { W.goes_to writer.old writer.new }
    {
        self.encoded_len()?.encode(writer)?;
        self.encode(writer)
    }

    /// Returns the value's bytes in a vector of their own.
    ///
    /// # Errors
    ///
    /// The errors of [`Encode::encoded_len`] and [`Encode::encode`].
    final fn encode_vec(&self, alloc: Global) -> Result<Vec<u8>, Error>
        ensures ok { IfOk result (λ v. (v.items ≡ written self.now) × (refusal self.now ≡ None)) }
        ensures err { IfErr result (λ e. RefusesBuffer e (length (written self.now)) (refusal self.now)) }
    {
        let mut bytes = Vec::with_capacity(alloc, self.encoded_len()?)?;
        self.encode(&mut bytes)?;
        Ok(bytes)
    }

    /// Returns the value's bytes in a buffer of their own.
    ///
    /// # Errors
    ///
    /// The errors of [`Encode::encoded_len`] and [`Encode::encode`].
    final fn encode_bytes(&self, alloc: Global) -> Result<BytesMut, Error>
        ensures ok { IfOk result (λ b. (b.items ≡ written self.now) × (refusal self.now ≡ None)) }
        ensures err { IfErr result (λ e. RefusesBuffer e (length (written self.now)) (refusal self.now)) }
    {
        let mut bytes = BytesMut::with_capacity(alloc, self.encoded_len()?)?;
        self.encode(&mut bytes)?;
        Ok(bytes)
    }
}

/// byte.
impl Encode for u8 {
    ghost written = { λ n. n ∷ [] };

    ghost refusal = { λ _. None };

    fn encoded_len(&self) -> Result<usize, Error> {
        Ok(1)
    }

    fn encode<W: Writer>(&self, writer: &mut W) -> Result<(), Error> {
        writer.write(&[*self])
    }
}

/// boolean: 1 for true, 0 for false.
impl Encode for bool {
    ghost written = { flag };

    ghost refusal = { λ _. None };

    #[tactic(auto, unfolding(crate::specs::Writing::flag))]
    fn encoded_len(&self) -> Result<usize, Error> {
        Ok(1)
    }

    #[tactic(auto, unfolding(crate::specs::Writing::flag))]
    fn encode<W: Writer>(&self, writer: &mut W) -> Result<(), Error> {
        writer.write(&[*self as u8])
    }
}

/// uint32: four bytes, most significant first.
impl Encode for u32 {
    ghost written = { λ n. uint32 n };

    ghost refusal = { λ _. None };

    #[tactic(auto, unfolding(crate::specs::Writing::uint32))]
    fn encoded_len(&self) -> Result<usize, Error> {
        Ok(4)
    }

    #[tactic(auto, unfolding(crate::specs::Writing::uint32))]
    fn encode<W: Writer>(&self, writer: &mut W) -> Result<(), Error> {
        writer.write(&self.to_be_bytes())
    }
}

/// uint64: eight bytes, most significant first.
impl Encode for u64 {
    ghost written = { λ n. uint64 n };

    ghost refusal = { λ _. None };

    #[tactic(auto, unfolding(crate::specs::Writing::uint64))]
    fn encoded_len(&self) -> Result<usize, Error> {
        Ok(8)
    }

    #[tactic(auto, unfolding(crate::specs::Writing::uint64))]
    fn encode<W: Writer>(&self, writer: &mut W) -> Result<(), Error> {
        writer.write(&self.to_be_bytes())
    }
}

/// A length as a uint32. `Overflow` over `u32::MAX`.
impl Encode for usize {
    ghost written = { λ n. uint32 n };

    ghost refusal = { λ n. len_refusal n };

    #[tactic(auto, unfolding(crate::specs::Writing::uint32))]
    fn encoded_len(&self) -> Result<usize, Error> {
        Ok(4)
    }

    #[tactic(auto, unfolding(crate::specs::Writing::len_refusal), using(crate::proofs::Parts::parts))]
    fn encode<W: Writer>(&self, writer: &mut W) -> Result<(), Error> {
        u32::try_from(*self)?.encode(writer)
    }
}

/// byte\[n\]: the bytes as they are.
impl<const N: usize> Encode for [u8; N] {
    ghost written = { λ a. a };

    ghost refusal = { λ _. None };

    fn encoded_len(&self) -> Result<usize, Error> {
        Ok(N)
    }

    fn encode<W: Writer>(&self, writer: &mut W) -> Result<(), Error> {
        writer.write(self)
    }
}
