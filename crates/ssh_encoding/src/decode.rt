//! Values that are read from bytes.
ghost use Rattle.std.specs.Prelude.{◌≡◌, ℕ, List, Bool, Result, IfOk};
ghost use Rattle.std.specs.Int.{w32, w64};
ghost use Rattle.ssh_encoding.specs.declared.error.Error.TheVariants.{OutOfMemory};
ghost use Rattle.ssh_encoding.specs.Reading.{DecodesAs, ReadsPlain, IsSuffix, number_at, byte_at, bool_at, len_at, bytes_at};
ghost use Rattle.ssh_encoding.specs.Spelling.{BeginsWithText, IsExact, IsByte, IsArray, IsFlag, IsNumber, IsLen};
ghost use Rattle.ssh_encoding.specs.Exact.{byte_exact, array_exact, flag_exact, number_exact, len_exact};

use crate::error::Error;
use crate::reader::{MAX_LEN, Reader};
use std::alloc::Global;

/// A type that is read from bytes.
///
/// After an error the reader holds a suffix of the bytes that it held.
///
/// Example: `crates/test_wire/src/encoding/values.rt`.
pub trait Decode: Sized {
    /// The error if a value cannot be read.
    type Error: From<Error>;

    /// The form in which a contract sees a value: a number, a list, a record.
    ghost Seen: { Type 0 };

    ghost seen: { Self → Seen };

    /// The value that the bytes begin with, and the bytes after it; or the error.
    ghost reading: { List ℕ → Result (Seen × List ℕ) Self.Error };

    /// The list spells the value.
    ghost spells: { Seen → List ℕ → Type 0 };

    /// Reads a value. It allocates memory for the contents of the value, and never for a count that has only been read.
    ///
    /// # Errors
    ///
    /// The error of `reading`, or the error made from `OutOfMemory`. The reader then holds a suffix of the bytes that
    /// it held.
    fn decode<R: Reader>(alloc: Global, reader: &mut R) -> Result<Self, Self::Error>
        ensures read { DecodesAs seen (Self.Error.from_gives OutOfMemory) (R.left reader.new) result (reading (R.left reader.old)) }
        ensures rest { IsSuffix (R.left reader.new) (R.left reader.old) };

    /// A reading takes only spellings of the value, and it takes every spelling.
    ghost exact: { (bytes rest : List ℕ) (v : Seen) → IsExact spells reading bytes rest v };
}

/// Reads a value. It returns `v` and leaves the rest exactly if the bytes begin with a spelling of `v` and the rest
/// follows it. An allocation may fail.
///
/// # Errors
///
/// The errors of `decode`. The reader then holds a suffix of the bytes that it held.
pub fn decode_exact<T: Decode, R: Reader>(alloc: Global, reader: &mut R) -> Result<T, T::Error>
    ensures found { IfOk result (λ v. BeginsWithText (T.spells (T.seen v)) (R.left reader.old) (R.left reader.new)) }
    ensures only { (v : T.Seen) (rest : List ℕ) → BeginsWithText (T.spells v) (R.left reader.old) rest → DecodesAs T.seen (T.Error.from_gives OutOfMemory) (R.left reader.new) result (Ok (v, rest)) }
    ensures rest { IsSuffix (R.left reader.new) (R.left reader.old) }
{
    T::decode(alloc, reader)
}

/// byte: one byte. `Length` if no bytes are left.
impl Decode for u8 {
    type Error = Error;

    ghost Seen = { ℕ };

    ghost seen = { λ n. n };

    ghost reading = { byte_at };

    ghost spells = { IsByte };

    #[tactic(auto, unfolding(crate::specs::Reading::byte_at), using(crate::proofs::Suffix::suffixes))]
    fn decode<R: Reader>(_alloc: Global, reader: &mut R) -> Result<u8, Error>
        ensures read { ReadsPlain (λ (n : ℕ). n) (R.left reader.new) result (byte_at (R.left reader.old)) }
        ensures rest { IsSuffix (R.left reader.new) (R.left reader.old) }
    {
        let mut buf = [0u8; 1];
        reader.fill(&mut buf)?;
        Ok(buf[0])
    }

    ghost exact = { byte_exact };
}

/// boolean: one byte, 0 for false and any other for true. `Length` if no bytes are left.
impl Decode for bool {
    type Error = Error;

    ghost Seen = { Bool };

    ghost seen = { λ b. b };

    ghost reading = { bool_at };

    ghost spells = { IsFlag };

    #[tactic(auto, unfolding(crate::specs::Reading::bool_at))]
    fn decode<R: Reader>(alloc: Global, reader: &mut R) -> Result<bool, Error>
        ensures read { ReadsPlain (λ (b : Bool). b) (R.left reader.new) result (bool_at (R.left reader.old)) }
        ensures rest { IsSuffix (R.left reader.new) (R.left reader.old) }
    {
        let byte = u8::decode(alloc, reader)?;
        Ok(byte != 0)
    }

    ghost exact = { flag_exact };
}

/// uint32: four bytes, most significant first. `Length` if fewer are left.
impl Decode for u32 {
    type Error = Error;

    ghost Seen = { ℕ };

    ghost seen = { λ n. n };

    ghost reading = { number_at w32 };

    ghost spells = { IsNumber w32 };

    #[tactic(auto, using(crate::proofs::Suffix::suffixes))]
    fn decode<R: Reader>(_alloc: Global, reader: &mut R) -> Result<u32, Error>
        ensures read { ReadsPlain (λ (n : ℕ). n) (R.left reader.new) result (number_at w32 (R.left reader.old)) }
        ensures rest { IsSuffix (R.left reader.new) (R.left reader.old) }
    {
        let mut buf = [0u8; 4];
        reader.fill(&mut buf)?;
        Ok(u32::from_be_bytes(buf))
    }

    ghost exact = { number_exact w32 };
}

/// uint64: eight bytes, most significant first. `Length` if fewer are left.
impl Decode for u64 {
    type Error = Error;

    ghost Seen = { ℕ };

    ghost seen = { λ n. n };

    ghost reading = { number_at w64 };

    ghost spells = { IsNumber w64 };

    #[tactic(auto, using(crate::proofs::Suffix::suffixes))]
    fn decode<R: Reader>(_alloc: Global, reader: &mut R) -> Result<u64, Error>
        ensures read { ReadsPlain (λ (n : ℕ). n) (R.left reader.new) result (number_at w64 (R.left reader.old)) }
        ensures rest { IsSuffix (R.left reader.new) (R.left reader.old) }
    {
        let mut buf = [0u8; 8];
        reader.fill(&mut buf)?;
        Ok(u64::from_be_bytes(buf))
    }

    ghost exact = { number_exact w64 };
}

/// byte\[n\]: `N` bytes as they are. `Length` if fewer are left.
impl<const N: usize> Decode for [u8; N] {
    type Error = Error;

    ghost Seen = { List ℕ };

    ghost seen = { λ a. a };

    ghost reading = { bytes_at N };

    ghost spells = { IsArray N };

    #[tactic(auto, using(crate::proofs::Suffix::suffixes))]
    fn decode<R: Reader>(_alloc: Global, reader: &mut R) -> Result<[u8; N], Error>
        ensures read { DecodesAs (λ (a : List ℕ). a) (λ e. e ≡ OutOfMemory) (R.left reader.new) result (bytes_at N (R.left reader.old)) }
        ensures plain { ReadsPlain (λ (a : List ℕ). a) (R.left reader.new) result (bytes_at N (R.left reader.old)) }
        ensures rest { IsSuffix (R.left reader.new) (R.left reader.old) }
    {
        let mut buf = [0u8; N];
        reader.fill(&mut buf)?;
        Ok(buf)
    }

    ghost exact = { array_exact N };
}

/// A length: a uint32. `Length` if fewer than four bytes are left, `Overflow` over 1048575 (`MAX_LEN`).
impl Decode for usize {
    type Error = Error;

    ghost Seen = { ℕ };

    ghost seen = { λ n. n };

    ghost reading = { len_at };

    ghost spells = { IsLen };

    #[tactic(auto, unfolding(crate::specs::Reading::len_at))]
    fn decode<R: Reader>(alloc: Global, reader: &mut R) -> Result<usize, Error>
        ensures read { ReadsPlain (λ (n : ℕ). n) (R.left reader.new) result (len_at (R.left reader.old)) }
        ensures rest { IsSuffix (R.left reader.new) (R.left reader.old) }
    {
        let n = u32::decode(alloc, reader)? as usize;
        if n > MAX_LEN {
            return Err(Error::Overflow);
        }
        Ok(n)
    }

    ghost exact = { len_exact };
}
