//! The words of a line, one after another, and the lines of a script.
ghost use Rattle.std.specs.Prelude.{◌≡◌, ◌≢◌, ◌==◌, ◌<◌, ◌≤◌, ◌∷◌, [], ℕ, List, false, length, OnOk, IfOk, IfErr, MatchOption};
ghost use Rattle.std.specs.List.{position, position_or_len};
ghost use Rattle.script_words.specs.Lines.{lines_of, words_of};
ghost use Rattle.script_words.specs.declared.reason.Reason.TheVariants as reason;

use crate::reason::Reason;

/// Returns the position of the first occurrence of the byte.
fn position_of(byte: u8, text: &[u8]) -> Option<usize>
    ensures { result ≡ position (λ b. b == byte) text.now }
{
    text.iter().position(|b| *b == byte)
}

/// Returns the number of bytes before the byte, or the length of the text if the byte does not occur.
#[tactic(auto, using(crate::proofs::Splits::place_Some, crate::proofs::Splits::place_None, crate::proofs::Splits::place_within))]
fn length_before(byte: u8, text: &[u8]) -> usize
    ensures value { result ≡ position_or_len (λ b. b == byte) text.now }
    ensures within { result ≤ length text.now }
{
    match position_of(byte, text) {
        Some(end) => end,
        None => text.len(),
    }
}

/// Returns the first line without its line feed, and the bytes after that. A text without a line feed is one line.
#[tactic(auto, using(crate::proofs::Splits::first_line, crate::proofs::Splits::only_line))]
pub fn split_line(text: &[u8]) -> (&[u8], &[u8])
    requires { text.now ≢ [] }
    ensures lines { lines_of text.now ≡ result.0.now ∷ lines_of result.1.now }
    ensures shorter { length result.1.now < length text.now }
{
    let end = length_before(b'\n', text);
    if end < text.len() {
        (&text[..end], &text[end + 1..])
    } else {
        (text, &[])
    }
}

/// Returns the text after the leading spaces.
fn skip_spaces(mut line: &[u8]) -> &[u8]
    ensures same_words { words_of result.now ≡ words_of line.now }
    ensures begins { (b : ℕ) (bytes : List ℕ) → result.now ≡ b ∷ bytes → (b == 32) ≡ false }
{
    while let [b' ', rest @ ..] = line {
        line = rest;
    }
    line
}

/// Returns the first word and the text after it, or `None` if the line has no word.
#[tactic(auto, using(crate::proofs::Splits::first_word))]
pub fn split_word(line: &[u8]) -> Option<(&[u8], &[u8])>
    ensures { MatchOption result (words_of line.now ≡ []) (λ p. words_of line.now ≡ p.0.now ∷ words_of p.1.now) }
{
    let line = skip_spaces(line);
    if line.is_empty() {
        return None;
    }
    let end = length_before(b' ', line);
    Some((&line[..end], &line[end..]))
}

/// Returns a required word and the text after it. Fails with `Count` if the line has no word.
fn next_word(line: &[u8]) -> Result<(&[u8], &[u8]), Reason>
    ensures ok { IfOk result (λ p. words_of line.now ≡ p.0.now ∷ words_of p.1.now) }
    ensures refused { IfErr result (λ e. (e ≡ reason.Count) × (words_of line.now ≡ [])) }
{
    match split_word(line) {
        Some(split) => Ok(split),
        None => Err(Reason::Count),
    }
}

/// Returns the first word and the text after it, if there is at least another word. Otherwise fails with `Count`.
pub(crate) fn word_and_more(line: &[u8]) -> Result<(&[u8], &[u8]), Reason>
    ensures ok { IfOk result (λ p. (words_of line.now ≡ p.0.now ∷ words_of p.1.now) × (words_of p.1.now ≢ [])) }
    ensures refused { IfErr result (λ e. (e ≡ reason.Count) × (length (words_of line.now) < 2)) }
{
    let (word, rest) = next_word(line)?;
    match split_word(rest) {
        Some(_) => Ok((word, rest)),
        None => Err(Reason::Count),
    }
}

/// Checks that a line has no word.
///
/// # Errors
///
/// `Count` if there is one.
pub fn no_word(line: &[u8]) -> Result<(), Reason>
    ensures ok { OnOk result (words_of line.now ≡ []) }
    ensures refused { IfErr result (λ e. (e ≡ reason.Count) × (length (words_of line.now) ≢ 0)) }
{
    match split_word(line) {
        Some(_) => Err(Reason::Count),
        None => Ok(()),
    }
}

/// Returns the one word of a line.
///
/// # Errors
///
/// `Count` if there are more or fewer.
pub fn one_word(line: &[u8]) -> Result<&[u8], Reason>
    ensures ok { IfOk result (λ a. words_of line.now ≡ a.now ∷ []) }
    ensures refused { IfErr result (λ e. (e ≡ reason.Count) × (length (words_of line.now) ≢ 1)) }
{
    let (a, rest) = next_word(line)?;
    no_word(rest)?;
    Ok(a)
}

/// Returns the two words of a line.
///
/// # Errors
///
/// `Count` if there are more or fewer.
pub fn two_words(line: &[u8]) -> Result<(&[u8], &[u8]), Reason>
    ensures ok { IfOk result (λ p. words_of line.now ≡ p.0.now ∷ p.1.now ∷ []) }
    ensures refused { IfErr result (λ e. (e ≡ reason.Count) × (length (words_of line.now) ≢ 2)) }
{
    let (a, rest) = next_word(line)?;
    let b = one_word(rest)?;
    Ok((a, b))
}

/// Returns the three words of a line.
///
/// # Errors
///
/// `Count` if there are more or fewer.
pub fn three_words(line: &[u8]) -> Result<(&[u8], &[u8], &[u8]), Reason>
    ensures ok { IfOk result (λ p. words_of line.now ≡ p.0.now ∷ p.1.now ∷ p.2.now ∷ []) }
    ensures refused { IfErr result (λ e. (e ≡ reason.Count) × (length (words_of line.now) ≢ 3)) }
{
    let (a, rest) = next_word(line)?;
    let (b, c) = two_words(rest)?;
    Ok((a, b, c))
}

/// Returns the four words of a line.
///
/// # Errors
///
/// `Count` if there are more or fewer.
pub fn four_words(line: &[u8]) -> Result<(&[u8], &[u8], &[u8], &[u8]), Reason>
    ensures ok { IfOk result (λ p. words_of line.now ≡ p.0.now ∷ p.1.now ∷ p.2.now ∷ p.3.now ∷ []) }
    ensures refused { IfErr result (λ e. (e ≡ reason.Count) × (length (words_of line.now) ≢ 4)) }
{
    let (a, rest) = next_word(line)?;
    let (b, c, d) = three_words(rest)?;
    Ok((a, b, c, d))
}
