//! Part files, in which files are written until all their bytes are there.
ghost use Rattle.std.specs.Prelude.{◌≡◌, ◌≢◌, ◌≤◌, ℕ, List, IfOk, MatchOption, length};
ghost use Rattle.std.specs.List.{list_all};
ghost use Rattle.transfer_plan.specs.Cuts.{HasShortName, continues_character, dotted, from_character, is_hex_digit, is_part_name, is_run, part_of, stem_of};

use crate::cut::folder_len;
use ssh_encoding::OutOfMemory;
use std::alloc::Global;

/// The most bytes of a file's name in the name of its part. With the number of a run, a part's name has at most 255.
const MAX_STEM_LEN: usize = 232;

/// The number of digits in the number of a run.
const RUN_LEN: usize = 16;

/// Returns true for a byte that continues a character of UTF-8.
fn continues_character(byte: u8) -> bool
    ensures { result ≡ continues_character byte }
{
    byte >= 128 && byte < 192
}

/// Returns bytes without those at their start that continue a character.
fn from_character(bytes: &[u8]) -> &[u8]
    ensures { result.now ≡ from_character bytes.now }
{
    let mut rest = bytes;
    loop {
        match rest {
            [] => return rest,
            [byte, later @ ..] => {
                if !continues_character(*byte) {
                    return rest;
                }
                rest = later;
            }
        }
    }
}

/// Returns the bytes of a file's name that the name of its part has: all of them, or the last ones of a long name.
#[tactic(auto, unfolding(crate::specs::Cuts::stem_of))]
fn stem_of(name: &[u8]) -> &[u8]
    ensures { result.now ≡ stem_of name.now }
{
    if name.len() > MAX_STEM_LEN {
        let (_, end) = name.split_at(name.len() - MAX_STEM_LEN);
        return from_character(end);
    }
    name
}

/// Returns the path of a file's part, beside the file: `.NAME.RUN.part` for the file NAME in the run RUN. Of a name
/// with more than 232 bytes only the last 232 are used, and no character of UTF-8 is cut. If RUN has at most 16 bytes,
/// the last component of the path has at most 255.
///
/// # Errors
///
/// `OutOfMemory` if an allocation fails.
pub fn part_path(alloc: Global, path: &[u8], run: &[u8]) -> Result<Vec<u8>, OutOfMemory>
    ensures is { IfOk result (λ part. part.items ≡ part_of path.now run.now) }
    ensures fits { IfOk result (λ part. length run.now ≤ 16 → HasShortName part.items) }
{
    let (folder, name) = path.split_at(folder_len(path));
    let mut part = Vec::from_slice(alloc, folder)?;
    part.push(b'.')?;
    part.extend_from_slice(stem_of(name))?;
    part.push(b'.')?;
    part.extend_from_slice(run)?;
    part.extend_from_slice(b".part")?;
    Ok(part)
}

/// Returns true for a digit of a run's number.
fn is_hex_digit(byte: u8) -> bool
    ensures { result ≡ is_hex_digit byte }
{
    (byte >= b'0' && byte <= b'9') || (byte >= b'a' && byte <= b'f')
}

/// Returns true if all bytes are digits of a run's number.
fn are_digits(run: &[u8]) -> bool
    ensures { result ≡ list_all is_hex_digit run.now }
{
    run.iter().all(|byte| is_hex_digit(*byte))
}

/// Returns true for the number of a run: 16 digits 0-9 or a-f.
fn is_run(run: &[u8]) -> bool
    ensures { result ≡ is_run run.now }
{
    run.len() == RUN_LEN && are_digits(run)
}

/// Returns RUN if an entry is named `.NAME.RUN.part` for this NAME.
fn run_between<'a>(name: &[u8], entry: &'a [u8]) -> Option<&'a [u8]>
    ensures { MatchOption result ((run : List ℕ) → entry.now ≢ dotted name.now run)
        (λ run. entry.now ≡ dotted name.now run.now) }
{
    let Some(dotted) = entry.strip_prefix(b".") else {
        return None;
    };
    let Some(named) = dotted.strip_prefix(name) else {
        return None;
    };
    let Some(ended) = named.strip_prefix(b".") else {
        return None;
    };
    ended.strip_suffix(b".part")
}

/// Returns true if an entry of a directory has the name of a part of the file NAME there: `.NAME.RUN.part`, where RUN
/// is 16 digits 0-9 or a-f. The parts of a name with more than 232 bytes are never recognized.
pub fn is_part_of(name: &[u8], entry: &[u8]) -> bool
    ensures { result ≡ is_part_name name.now entry.now }
{
    if name.len() > MAX_STEM_LEN {
        return false;
    }
    match run_between(name, entry) {
        Some(number) => is_run(number),
        None => false,
    }
}
