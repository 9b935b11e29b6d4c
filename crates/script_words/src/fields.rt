//! The fields of a line, by their kinds and their number.
ghost use Rattle.std.specs.Prelude.{◌≡◌, Ok, IfOk, IfErr};
ghost use Rattle.script_words.specs.Lines.{words_of, bytes_in, flags_in, number_in, greatest_u32, one_word, three_words};
ghost use Rattle.script_words.specs.Fields.{buffer_len, mode_in, number_u32, number_u64, pair, seek_in, slot_in, some_in, triple};
ghost use Rattle.script_words.specs.Refusals.{RefusesLine};

use crate::error::LineError;
use crate::flags::flags_in;
use crate::hex_word::bytes_in;
use crate::number::{
    buffer_len, mode_in, number_from, number_in, slot_in, some_mode_in, some_size_in,
};
use crate::position::position_in;
use crate::words::{one_word, three_words, two_words};
use sftp_model::OpenOptions;
use sftp_values::ByteText;
use std::alloc::Global;
use std::io::SeekFrom;

/// A kind of field, which is one word of a line.
///
/// Used by the functions of this module.
pub trait Field {
    ghost use Rattle.std.specs.Prelude.{ℕ, List, Result};
    ghost use Rattle.script_words.specs.declared.reason.Reason.{Reason};

    /// The value of a field of this kind.
    type Value: Drop;

    // The value of a word.
    ghost reads: { List ℕ → Result Self.Value Reason };

    /// Reads a word.
    ///
    /// # Errors
    ///
    /// `Refused` with the reason if the word is no field of this kind, or `OutOfMemory` if an allocation fails.
    fn read(alloc: Global, word: &[u8]) -> Result<Self::Value, LineError>
        ensures ok { IfOk result (λ value. reads word.now ≡ Ok value) }
        ensures refused { IfErr result (λ e. RefusesLine (reads word.now) e) };
}

/// The number of a slot, from 0 to 15.
///
/// Example: `crates/script_grammar/src/calls.rt`.
pub struct Slot;

impl Field for Slot {
    type Value = u8;

    ghost reads = { slot_in };

    fn read(_alloc: Global, word: &[u8]) -> Result<u8, LineError> {
        Ok(slot_in(word)?)
    }
}

/// A number of 32 bits.
///
/// Used in `crates/script_words/src/reason.rt`.
pub struct Number;

impl Field for Number {
    type Value = u32;

    ghost reads = { number_u32 };

    fn read(_alloc: Global, word: &[u8]) -> Result<u32, LineError> {
        Ok(number_from(0, word)?)
    }
}

/// A number of 64 bits.
///
/// Example: `crates/script_grammar/src/calls.rt`.
pub struct Long;

impl Field for Long {
    type Value = u64;

    ghost reads = { number_u64 };

    fn read(_alloc: Global, word: &[u8]) -> Result<u64, LineError> {
        Ok(number_in(0, u64::MAX, word)?)
    }
}

/// A bound, which is a number of 32 bits and at least 1.
///
/// Used in `crates/script_grammar/src/calls.rt`.
pub struct Bound;

impl Field for Bound {
    type Value = u32;

    ghost reads = { number_in 1 greatest_u32 };

    fn read(_alloc: Global, word: &[u8]) -> Result<u32, LineError> {
        Ok(number_from(1, word)?)
    }
}

/// The length of a buffer in bytes, from 1 to 1048576.
///
/// Used in `crates/script_grammar/src/calls.rt`.
pub struct Len;

impl Field for Len {
    type Value = u32;

    ghost reads = { buffer_len };

    fn read(_alloc: Global, word: &[u8]) -> Result<u32, LineError> {
        Ok(buffer_len(word)?)
    }
}

/// The bits of a mode, which are a number of 16 bits.
///
/// Example: `crates/script_grammar/src/calls.rt`.
pub struct Mode;

impl Field for Mode {
    type Value = u16;

    ghost reads = { mode_in };

    fn read(_alloc: Global, word: &[u8]) -> Result<u16, LineError> {
        Ok(mode_in(word)?)
    }
}

/// A size in bytes, which is a number of 64 bits, or `-` if it is left out.
///
/// Used in `crates/script_grammar/src/calls.rt`.
pub struct SomeSize;

impl Field for SomeSize {
    type Value = Option<u64>;

    ghost reads = { some_in number_u64 };

    fn read(_alloc: Global, word: &[u8]) -> Result<Option<u64>, LineError> {
        Ok(some_size_in(word)?)
    }
}

/// The bits of a mode, or `-` if they are left out.
///
/// Used in `crates/script_grammar/src/calls.rt`.
pub struct SomeMode;

impl Field for SomeMode {
    type Value = Option<u16>;

    ghost reads = { some_in mode_in };

    fn read(_alloc: Global, word: &[u8]) -> Result<Option<u16>, LineError> {
        Ok(some_mode_in(word)?)
    }
}

/// Bytes in hexadecimal digits, which are a path or a content.
///
/// Used in `crates/script_grammar/src/calls.rt`.
pub struct Bytes;

impl Field for Bytes {
    type Value = ByteText;

    ghost reads = { bytes_in };

    fn read(alloc: Global, word: &[u8]) -> Result<ByteText, LineError> {
        bytes_in(alloc, word)
    }
}

/// The letters of the options with which a file is opened.
///
/// Used in `crates/script_grammar/src/calls.rt`.
pub struct Flags;

impl Field for Flags {
    type Value = OpenOptions;

    ghost reads = { flags_in };

    fn read(_alloc: Global, word: &[u8]) -> Result<OpenOptions, LineError> {
        Ok(flags_in(word)?)
    }
}

/// Reads a line of one field.
///
/// # Errors
///
/// `Refused` with `Count` if the line has more or fewer words; otherwise the error of the field.
#[tactic(auto, using(crate::proofs::Counts::not_one))]
pub fn one<A: Field>(alloc: Global, line: &[u8]) -> Result<A::Value, LineError>
    ensures ok { IfOk result (λ x. one_word A.reads (words_of line.now) ≡ Ok x) }
    ensures refused { IfErr result (λ e. RefusesLine (one_word A.reads (words_of line.now)) e) }
{
    let a = one_word(line)?;
    A::read(alloc, a)
}

/// Reads a line of two fields.
///
/// # Errors
///
/// `Refused` with `Count` if the line has more or fewer words; otherwise the error of the first field that is refused.
#[tactic(auto, using(crate::proofs::Counts::not_two))]
pub fn pair<A: Field, B: Field>(
    alloc: Global,
    line: &[u8],
) -> Result<(A::Value, B::Value), LineError>
    ensures ok { IfOk result (λ p. pair A.reads B.reads (words_of line.now) ≡ Ok p) }
    ensures refused { IfErr result (λ e. RefusesLine (pair A.reads B.reads (words_of line.now)) e) }
{
    let (a, b) = two_words(line)?;
    let a = A::read(alloc, a)?;
    let b = B::read(alloc, b)?;
    Ok((a, b))
}

/// Reads a line of three fields.
///
/// # Errors
///
/// `Refused` with `Count` if the line has more or fewer words; otherwise the error of the first field that is refused.
#[tactic(auto, using(crate::proofs::Counts::not_three))]
pub fn triple<A: Field, B: Field, C: Field>(
    alloc: Global,
    line: &[u8],
) -> Result<(A::Value, B::Value, C::Value), LineError>
    ensures ok { IfOk result (λ p. triple A.reads B.reads C.reads (words_of line.now) ≡ Ok p) }
    ensures refused { IfErr result (λ e. RefusesLine (triple A.reads B.reads C.reads (words_of line.now)) e) }
{
    let (a, b, c) = three_words(line)?;
    let a = A::read(alloc, a)?;
    let b = B::read(alloc, b)?;
    let c = C::read(alloc, c)?;
    Ok((a, b, c))
}

/// Reads a slot and the target of a seek from a line of three words.
///
/// # Errors
///
/// `Refused` with `Count` if the line has more or fewer words; otherwise with the reason of the slot, or with that of
/// the target if the slot is read.
#[tactic(auto, using(crate::proofs::Counts::not_three))]
pub fn slot_and_position(line: &[u8]) -> Result<(u8, SeekFrom), LineError>
    ensures ok { IfOk result (λ p. three_words seek_in (words_of line.now) ≡ Ok p) }
    ensures refused { IfErr result (λ e. RefusesLine (three_words seek_in (words_of line.now)) e) }
{
    let (slot, kind, n) = three_words(line)?;
    let slot = slot_in(slot)?;
    let position = position_in(kind, n)?;
    Ok((slot, position))
}
