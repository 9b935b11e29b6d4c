//! Laws of reading and writing.
ghost use Rattle.std.specs.Prelude.{◌≡◌, ℕ, List, Ok, ◌++◌, ◌<◌, ◌≤◌, ◌^◌, true, length, ⊤};
ghost use Rattle.std.specs.String.{string_bytes};
ghost use Rattle.std.specs.Str.{is_utf8};
ghost use Rattle.std.specs.List.{flat_map};
ghost use Rattle.ssh_encoding.specs.Reading.{MAX_LEN, MAX_LABEL_LEN};
ghost use Rattle.ssh_encoding.specs.Spelling.{AreBytes};
ghost use Rattle.ssh_encoding.specs.Again.{byte_again, flag_again, number_again, long_number_again, len_again, array_again, string_again, text_again, text_list_again, mpint_again, label_again};
ghost use Rattle.ssh_encoding.specs.Once.{byte_once, number_once, long_number_once, len_once, array_once, string_once, text_once, text_list_once, mpint_once};

use crate::decode::Decode;
use crate::encode::Encode;
use crate::label::Label;
use crate::mpint::Mpint;
use bytes::Bytes;

/// A type whose values are read back as they were written.
///
/// Used in `crates/ssh_encoding/src/lib.rt`.
pub trait Codec: Encode + Decode {
    /// The values whose lengths are within the limits of reading.
    ghost fits: { Self → Type 0 };

    /// The bytes that are written spell the value.
    ghost again: { (x : Self) → fits x → Self.Decode.spells (Self.Decode.seen x) (Self.Encode.written x) };
}

/// Reading the bytes that were written returns the value, and leaves the bytes after them.
pub fn round_trip<T: Codec>()
    ensures { (x : T) (rest : List ℕ) → T.fits x → T.Decode.reading (T.Encode.written x ++ rest) ≡ Ok (T.Decode.seen x, rest) }
{}

/// A type whose values have one spelling each.
///
/// Used in `crates/ssh_encoding/src/lib.rt`.
pub trait OneSpelling: Decode {
    /// Two lists of bytes that spell one value are equal.
    ghost once: { (v : Self.Decode.Seen) (a b : List ℕ) → AreBytes a → AreBytes b → Self.Decode.spells v a → Self.Decode.spells v b → a ≡ b };
}

/// One value has one spelling.
pub fn one_spelling<T: OneSpelling>()
    ensures { (v : T.Decode.Seen) (a b : List ℕ) → AreBytes a → AreBytes b → T.Decode.spells v a → T.Decode.spells v b → a ≡ b }
{}

impl Codec for u8 {
    ghost fits = { λ _. ⊤ };

    ghost again = { λ n h. byte_again n };
}

impl OneSpelling for u8 {
    ghost once = { byte_once };
}

impl Codec for bool {
    ghost fits = { λ _. ⊤ };

    ghost again = { λ b h. flag_again b };
}

impl Codec for u32 {
    ghost fits = { λ n. n < 2 ^ 32 };

    ghost again = { number_again };
}

impl OneSpelling for u32 {
    ghost once = { number_once };
}

impl Codec for u64 {
    ghost fits = { λ n. n < 2 ^ 64 };

    ghost again = { long_number_again };
}

impl OneSpelling for u64 {
    ghost once = { long_number_once };
}

impl Codec for usize {
    ghost fits = { λ n. n ≤ MAX_LEN };

    ghost again = { len_again };
}

impl OneSpelling for usize {
    ghost once = { len_once };
}

impl<const N: usize> Codec for [u8; N] {
    ghost fits = { λ a. length a ≡ N };

    ghost again = { array_again N };
}

impl<const N: usize> OneSpelling for [u8; N] {
    ghost once = { array_once N };
}

impl Codec for Vec<u8> {
    ghost fits = { λ v. length v.items ≤ MAX_LEN };

    ghost again = { λ v h. string_again v.items h };
}

impl OneSpelling for Vec<u8> {
    ghost once = { string_once };
}

impl Codec for Bytes {
    ghost fits = { λ b. length b ≤ MAX_LEN };

    ghost again = { λ b h. string_again b h };
}

impl OneSpelling for Bytes {
    ghost once = { string_once };
}

impl Codec for String {
    ghost fits = { λ s. (length (string_bytes s) ≤ MAX_LEN) × (is_utf8 (string_bytes s) ≡ true) };

    ghost again = { λ s h. text_again (string_bytes s) h.0 h.1 };
}

impl OneSpelling for String {
    ghost once = { text_once };
}

impl Codec for Mpint {
    ghost use Rattle.ssh_encoding.specs.Canonical.{is_canonical};

    ghost fits = { λ m. (length m ≤ MAX_LEN) × (is_canonical m ≡ true) };

    ghost again = { λ m h. mpint_again m h.0 h.1 };
}

impl OneSpelling for Mpint {
    ghost once = { mpint_once };
}

impl<L: Label> Codec for L {
    ghost fits = { λ label. (length (L.name_of label) ≤ MAX_LABEL_LEN) × (is_utf8 (L.name_of label) ≡ true) × (L.meaning (L.name_of label) ≡ Ok (L.label_seen label)) };

    ghost again = { λ label h. label_again L.meaning (L.label_seen label) (L.name_of label) h.0 h.1 h.2 };
}

impl Codec for Vec<String> {
    ghost use Rattle.ssh_encoding.specs.Again.{AreUtf8, texts_written};
    ghost use Rattle.ssh_encoding.specs.Reading.{texts_of};

    ghost fits = { λ v. (length (texts_written (texts_of v.items)) ≤ MAX_LEN) × AreUtf8 (texts_of v.items) };

    ghost again = { λ v h. text_list_again v.items h.0 h.1 };
}

impl OneSpelling for Vec<String> {
    ghost once = { text_list_once };
}
