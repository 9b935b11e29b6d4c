//! Whole numbers of any size (mpint).
ghost use Rattle.std.specs.Prelude.{◌≡◌, ◌==◌, ◌∷◌, [], List, ℕ, ℤ, pos, true, IfOk, IfErr, IsTrue, ◌↔◌, option_map, false, ◌⊎◌, MatchOption, MatchResult, negsuc};
ghost use Rattle.std.proofs.Common.{rules};
ghost use Rattle.std.specs.Cmp.Lexicographic.{pointwise};
ghost use Rattle.std.specs.Cmp.Rules.{comparing};
ghost use Rattle.ssh_encoding.specs.declared.error.Error.TheVariants.{MpintEncoding};
ghost use Rattle.ssh_encoding.specs.Canonical.{is_canonical, positive, positive_bytes, strip, unsigned_value, signed_value, is_above_zero};
ghost use Rattle.ssh_encoding.specs.Exact.{mpint_exact};
ghost use Rattle.ssh_encoding.specs.Reading.{mpint_at};
ghost use Rattle.ssh_encoding.specs.Spelling.{AreBytes, IsMpint};
ghost use Rattle.ssh_encoding.specs.Writing.{string, string_refusal};

use crate::decode::Decode;
use crate::encode::Encode;
use crate::error::Error;
use crate::reader::Reader;
use crate::writer::Writer;
use std::alloc::Global;
use std::boxed::BoxedSlice;
use std::convert::AsSlice;
use std::marker::Model;

/// mpint: a whole number of any size, by its canonical bytes in two's complement, most significant first.
///
/// Zero has no bytes. Otherwise the first bit is the sign, and there is no first byte that is not needed for it. A
/// contract sees a number as its bytes.
///
/// Example: `crates/test_wire/src/encoding/numbers.rt`.
#[derive(Drop)]
pub struct Mpint {
    bytes: Vec<u8>,
}

impl Model for Mpint {
    ghost Value = { List ℕ };

    ghost view = { λ m. m.bytes.items };

    ghost invariant = { λ m. is_canonical m.bytes.items ≡ true };
}

/// Returns true if no first byte is unnecessary.
fn is_canonical_form(bytes: &[u8]) -> bool
    ensures { result ≡ is_canonical bytes.now }
{
    match bytes {
        [] => true,
        [first] => *first != 0,
        [first, second, ..] => {
            !(*first == 0 && *second < 128) && !(*first == 255 && 127 < *second)
        }
    }
}

/// Returns true if canonical bytes are the same, which they are exactly if their numbers are equal.
fn is_same_number(a: &[u8], b: &[u8]) -> bool
    requires bytes { AreBytes a.now × AreBytes b.now }
    requires canonical { (is_canonical a.now ≡ true) × (is_canonical b.now ≡ true) }
    ensures value { result ≡ pointwise ◌==◌ a.now b.now }
    ensures number { IsTrue result ↔ (signed_value a.now ≡ signed_value b.now) }
{
    a == b
}

/// Returns the bytes without leading zeros.
fn stripped(bytes: &[u8]) -> &[u8]
    ensures { result.now ≡ strip bytes.now }
{
    let mut rest = bytes;
    while let [0, tail @ ..] = rest {
        rest = tail;
    }
    rest
}

/// Returns the canonical bytes of the number that the bytes spell without a sign. Fails only if an allocation fails.
fn positive_of(alloc: Global, bytes: &[u8]) -> Result<Vec<u8>, Error>
    ensures ok { IfOk result (λ v. v.items ≡ positive bytes.now) }
    ensures err { IfErr result (λ e. e ≡ Error.OutOfMemory) }
{
    let digits = stripped(bytes);
    let mut held = Vec::new(alloc);
    if let [first, ..] = digits {
        if *first > 127 {
            held.push(0)?;
        }
    }
    held.extend_from_slice(digits)?;
    Ok(held)
}

impl Mpint {
    /// Creates the number with these canonical bytes.
    ///
    /// # Errors
    ///
    /// `MpintEncoding` only if they are not canonical, and `OutOfMemory` if an allocation fails.
    pub fn from_bytes(alloc: Global, bytes: &[u8]) -> Result<Mpint, Error>
        ensures ok { IfOk result (λ m. (m ≡ bytes.now) × (is_canonical bytes.now ≡ true)) }
        ensures err { IfErr result (λ e. (e ≡ Error.OutOfMemory) ⊎ ((e ≡ Error.MpintEncoding) × (is_canonical bytes.now ≡ false))) }
    {
        if !is_canonical_form(bytes) {
            return Err(Error::MpintEncoding);
        }
        Ok(Mpint {
            bytes: Vec::from_slice(alloc, bytes)?,
        })
    }

    /// Creates the number as [`Mpint::from_bytes`] does, under the name of a conversion from a slice.
    ///
    /// # Errors
    ///
    /// `MpintEncoding` only if the bytes are not canonical, and `OutOfMemory` if an allocation fails.
    pub fn try_from_slice(alloc: Global, bytes: &[u8]) -> Result<Mpint, Error>
        ensures ok { IfOk result (λ m. (m ≡ bytes.now) × (is_canonical bytes.now ≡ true)) }
        ensures err { IfErr result (λ e. (e ≡ Error.OutOfMemory) ⊎ ((e ≡ Error.MpintEncoding) × (is_canonical bytes.now ≡ false))) }
    {
        Mpint::from_bytes(alloc, bytes)
    }

    /// Creates the number that the bytes spell without a sign. Leading zeros are allowed.
    ///
    /// # Errors
    ///
    /// `OutOfMemory` if an allocation fails.
    #[tactic(auto, using(crate::proofs::Numbers::positives))]
    pub fn from_positive_bytes(alloc: Global, bytes: &[u8]) -> Result<Mpint, Error>
        ensures ok { IfOk result (λ m. m ≡ positive bytes.now) }
        ensures number { IfOk result (λ m. signed_value m ≡ pos (unsigned_value bytes.now)) }
        ensures err { IfErr result (λ e. e ≡ Error.OutOfMemory) }
    {
        Ok(Mpint {
            bytes: positive_of(alloc, bytes)?,
        })
    }

    /// Returns the canonical bytes.
    pub fn as_bytes(&self) -> &[u8]
        ensures value { result.now ≡ self.now }
        ensures canonical { is_canonical self.now ≡ true }
    {
        self.bytes.as_slice()
    }

    /// Returns the bytes of the number without a sign and without a leading 00. Returns `None` exactly for a number
    /// below zero.
    pub fn as_positive_bytes(&self) -> Option<&[u8]>
        ensures bytes { option_map (λ s. s.now) result ≡ positive_bytes self.now }
        ensures number { MatchOption result ((n : ℕ) × (signed_value self.now ≡ negsuc n)) (λ s. signed_value self.now ≡ pos (unsigned_value s.now)) }
    {
        match self.bytes.as_slice() {
            [] => Some(&[]),
            [first, rest @ ..] => {
                if *first > 127 {
                    None
                } else if *first == 0 {
                    Some(rest)
                } else {
                    Some(self.bytes.as_slice())
                }
            }
        }
    }

    /// Returns true if the number is above zero.
    pub fn is_positive(&self) -> bool
        ensures { result ≡ is_above_zero (signed_value self.now) }
    {
        match self.bytes.as_slice() {
            [] => false,
            [first, ..] => *first < 128,
        }
    }
}

impl AsSlice<u8> for Mpint {
    ghost items = { λ m. m };

    fn as_slice(&self) -> &[u8] {
        self.bytes.as_slice()
    }
}

/// Numbers are equal exactly if their bytes are equal.
impl PartialEq for Mpint {
    ghost eq = { pointwise ◌==◌ };

    ghost laws = { Prim.search (comparing, rules) };

    fn eq(&self, other: &Mpint) -> bool
        ensures value { result ≡ pointwise ◌==◌ self.now other.now }
        ensures number { IsTrue result ↔ (signed_value self.now ≡ signed_value other.now) }
    {
        let mine = self.as_bytes();
        let theirs = other.as_bytes();
        is_same_number(mine, theirs)
    }
}

impl Eq for Mpint {
    ghost laws = { Prim.search (comparing, rules) };
}

/// A string that is a canonical number. The errors are those of a string, and `MpintEncoding` if it is not canonical.
impl Decode for Mpint {
    type Error = Error;

    ghost Seen = { List ℕ };

    ghost seen = { λ m. m };

    ghost reading = { mpint_at };

    ghost spells = { IsMpint };

    #[tactic(auto, unfolding(crate::specs::Reading::mpint_at))]
    fn decode<R: Reader>(alloc: Global, reader: &mut R) -> Result<Mpint, Error> {
        let bytes = Vec::<u8>::decode(alloc, reader)?;
        if !is_canonical_form(&bytes) {
            return Err(Error::MpintEncoding);
        }
        Ok(Mpint { bytes })
    }

    ghost exact = { mpint_exact };
}

/// The canonical bytes as a string.
impl Encode for Mpint {
    ghost written = { λ m. string m };

    ghost refusal = { λ m. string_refusal m };

    fn encoded_len(&self) -> Result<usize, Error> {
        self.as_bytes().encoded_len()
    }

    fn encode<W: Writer>(&self, writer: &mut W) -> Result<(), Error> {
        self.as_bytes().encode(writer)
    }
}

impl TryFrom<BoxedSlice<u8>> for Mpint {
    type Error = Error;

    ghost try_from_gives = { λ bytes r. MatchResult r (λ m. (m ≡ bytes.items.items) × (is_canonical bytes.items.items ≡ true)) (λ e. (e ≡ MpintEncoding) × (is_canonical bytes.items.items ≡ false)) };

    /// Creates the number with these canonical bytes, which are not copied. `MpintEncoding` exactly if they are not
    /// canonical.
    fn try_from(bytes: BoxedSlice<u8>) -> Result<Mpint, Error> {
        if !is_canonical_form(&bytes) {
            return Err(Error::MpintEncoding);
        }
        Ok(Mpint {
            bytes: Vec::from(bytes),
        })
    }
}
