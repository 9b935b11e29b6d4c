//! The numbers that follow options.
ghost use Rattle.std.specs.Prelude.{◌≡◌, ◌≤◌};
ghost use Rattle.transfer_args.specs.Numbers.{digits_in, mode_in, number_in, product_at_most, shard_in, size_behind, size_in, unit_of};

use transfer_filter::Shard;

/// Returns the number that digits of this base write, or `None` if it is more than `most`.
fn number(base: u8, most: u32, digits: &[u8]) -> Option<u32>
    requires { base ≤ 10 }
    ensures { result ≡ digits_in base most 0 digits.now }
{
    let mut number: u64 = 0;
    for digit in digits {
        let digit = *digit;
        if !(b'0'..b'0' + base).contains(&digit) {
            return None;
        }
        number = number * u64::from(base) + u64::from(digit - b'0');
        if number > u64::from(most) {
            return None;
        }
    }
    Some(number as u32)
}

/// Returns the number that a word writes in decimal digits, if it is from `least` to `most`.
pub(crate) fn number_in(least: u32, most: u32, word: &[u8]) -> Option<u32>
    ensures { result ≡ number_in least most word.now }
{
    if word.is_empty() {
        return None;
    }
    match number(10, most, word) {
        Some(number) if number >= least => Some(number),
        _ => None,
    }
}

/// Returns the permissions that a word writes in one to four octal digits.
pub(crate) fn mode_in(word: &[u8]) -> Option<u32>
    ensures { result ≡ mode_in word.now }
{
    if word.is_empty() || word.len() > 4 {
        return None;
    }
    number(8, 4095, word)
}

/// Returns the factor of a unit of bytes, or `None` if the letter is none.
fn unit_of(letter: u8) -> Option<u64>
    ensures { result ≡ unit_of letter }
{
    match letter {
        b'K' => Some(1024),
        b'M' => Some(1048576),
        b'G' => Some(1073741824),
        _ => None,
    }
}

/// Returns a number of a unit in bytes, or `None` if it is more than `most` or the letter is no unit.
fn in_bytes(most: u32, number: u64, letter: u8) -> Option<u32>
    requires { number ≤ most }
    ensures { result ≡ product_at_most most number (unit_of letter) }
{
    let size = number * unit_of(letter)?;
    if size > u64::from(most) {
        return None;
    }
    Some(size as u32)
}

/// Returns the number of bytes that decimal digits write, after which a unit may come, or `None` if it is more than
/// `most`.
fn size(most: u32, word: &[u8]) -> Option<u32>
    ensures { result ≡ size_behind most 0 word.now }
{
    let mut number: u64 = 0;
    let mut rest = word;
    while let [byte, later @ ..] = rest {
        if !(b'0'..=b'9').contains(byte) {
            return if later.is_empty() {
                in_bytes(most, number, *byte)
            } else {
                None
            };
        }
        number = number * 10 + u64::from(*byte - b'0');
        if number > u64::from(most) {
            return None;
        }
        rest = later;
    }
    Some(number as u32)
}

/// Returns the number of bytes that a word writes in decimal digits, with a unit after them or none, if it is from
/// `least` to `most`.
pub(crate) fn size_in(least: u32, most: u32, word: &[u8]) -> Option<u32>
    ensures { result ≡ size_in least most word.now }
{
    if word.is_empty() {
        return None;
    }
    match size(most, word) {
        Some(size) if size >= least => Some(size),
        _ => None,
    }
}

/// The most shares of the files of a tree.
pub(crate) const MAX_SHARES: u32 = 65536;

/// Returns the share of files that a word writes: its number, a slash, and the number of shares.
pub(crate) fn shard_in(word: &str) -> Option<Shard>
    ensures { result ≡ shard_in word.now }
{
    let (index, count) = word.split_once('/')?;
    let index = number_in(1, MAX_SHARES, index.as_bytes())?;
    let count = number_in(1, MAX_SHARES, count.as_bytes())?;
    if index > count {
        return None;
    }
    Some(Shard { index, count })
}
