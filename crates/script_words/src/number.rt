//! Numbers in decimal digits.
ghost use Rattle.std.specs.Prelude.{◌≡◌, ◌≤◌, ◌^◌, min, IfOk};
ghost use Rattle.std.specs.Option.{option_map};
ghost use Rattle.script_words.specs.Lines.{minus, number_of, number_in, signed_in, greatest_u32};
ghost use Rattle.script_words.specs.Fields.{buffer_len, mode_in, number_u64, slot_in, some_in};

use crate::hex_word::NOTHING;
use crate::reason::Reason;

/// A number above each range of 64 bits, which represents all numbers that are equal or greater.
const TOO_GREAT: u128 = 18446744073709551616;

/// Returns the number that digits spell; 2^64 for all numbers from 2^64 on.
#[tactic(auto, using(crate::proofs::Numbers::digit_more, crate::proofs::Numbers::digit_none))]
fn number_of(word: &[u8]) -> Option<u128>
    ensures { result ≡ option_map (λ n. min n (2 ^ 64)) (number_of word.now) }
{
    if word.is_empty() {
        return None;
    }
    let mut n: u128 = 0;
    for b in word {
        if !b.is_ascii_digit() {
            return None;
        }
        n = (n * 10 + u128::from(*b - b'0')).min(TOO_GREAT);
    }
    Some(n)
}

/// Returns a number of any number of digits, from `least` to `most`.
///
/// # Errors
///
/// `Number` if the word is not made of digits, or `Range` if the number is less or greater.
#[tactic(auto, using(crate::proofs::Numbers::within_capped))]
pub fn number_in(least: u64, most: u64, word: &[u8]) -> Result<u64, Reason>
    ensures value { result ≡ number_in least most word.now }
    ensures range { IfOk result (λ n. (least ≤ n) × (n ≤ most)) }
{
    match number_of(word) {
        Some(n) => {
            if u128::from(least) <= n && n <= u128::from(most) {
                Ok(n as u64)
            } else {
                Err(Reason::Range)
            }
        }
        None => Err(Reason::Number),
    }
}

/// Returns a number of any number of digits, from `least` to 2^32 - 1.
///
/// # Errors
///
/// `Number` if the word is not made of digits, or `Range` if the number is less or greater.
pub fn number_from(least: u32, word: &[u8]) -> Result<u32, Reason>
    ensures value { result ≡ number_in least greatest_u32 word.now }
    ensures range { IfOk result (λ n. least ≤ n) }
{
    let n = number_in(u64::from(least), u64::from(u32::MAX), word)?;
    Ok(n as u32)
}

/// Returns the number of a slot.
pub(crate) fn slot_in(word: &[u8]) -> Result<u8, Reason>
    ensures { result ≡ slot_in word.now }
{
    let n = number_in(0, 15, word)?;
    Ok(n as u8)
}

/// Returns the bits of a mode.
pub(crate) fn mode_in(word: &[u8]) -> Result<u16, Reason>
    ensures { result ≡ mode_in word.now }
{
    let n = number_in(0, u64::from(u16::MAX), word)?;
    Ok(n as u16)
}

/// Returns the length of a buffer.
pub(crate) fn buffer_len(word: &[u8]) -> Result<u32, Reason>
    ensures { result ≡ buffer_len word.now }
{
    let n = number_in(1, 1 << 20, word)?;
    Ok(n as u32)
}

/// Returns the negative of a number, or 0.
fn minus(n: u64) -> i64
    requires { n ≤ 2 ^ 63 }
    ensures { result ≡ minus n }
{
    if n == 0 { 0 } else { -((n - 1) as i64) - 1 }
}

/// Returns a number of 64 bits that may have a leading `-`.
pub(crate) fn signed_in(word: &[u8]) -> Result<i64, Reason>
    ensures { result ≡ signed_in word.now }
{
    match word {
        [] => Err(Reason::Number),
        [b'-', digits @ ..] => {
            let n = number_in(0, 1 << 63, digits)?;
            Ok(minus(n))
        }
        _ => {
            let n = number_in(0, i64::MAX as u64, word)?;
            Ok(n as i64)
        }
    }
}

/// Returns a size, or none.
pub(crate) fn some_size_in(word: &[u8]) -> Result<Option<u64>, Reason>
    ensures { result ≡ some_in number_u64 word.now }
{
    if word == NOTHING {
        return Ok(None);
    }
    Ok(Some(number_in(0, u64::MAX, word)?))
}

/// Returns the bits of a mode, or none.
pub(crate) fn some_mode_in(word: &[u8]) -> Result<Option<u16>, Reason>
    ensures { result ≡ some_in mode_in word.now }
{
    if word == NOTHING {
        return Ok(None);
    }
    Ok(Some(mode_in(word)?))
}
