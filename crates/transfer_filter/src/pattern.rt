//! The patterns of a filter.
ghost use Rattle.std.specs.Prelude.{◌≡◌};
ghost use Rattle.std.specs.List.{list_all, list_any};
ghost use Rattle.transfer_filter.specs.Patterns.{has_three_stars, is_pattern, is_refused_byte, is_slash};

/// Three stars, to which rsync gives a meaning of their own.
const THREE_STARS: &[u8] = b"***";

/// Returns true if all bytes are slashes.
fn are_slashes(bytes: &[u8]) -> bool
    ensures { result ≡ list_all is_slash bytes.now }
{
    bytes.iter().all(|byte| *byte == b'/')
}

/// Returns true if a byte is `[` or a backslash, to which rsync gives a meaning that patterns do not have here.
fn has_refused_byte(bytes: &[u8]) -> bool
    ensures { result ≡ list_any is_refused_byte bytes.now }
{
    bytes.iter().any(|byte| *byte == b'[' || *byte == b'\\')
}

/// Returns true if three stars follow each other.
fn has_three_stars(bytes: &[u8]) -> bool
    ensures { result ≡ has_three_stars bytes.now }
{
    let mut rest = bytes;
    while let [_, later @ ..] = rest {
        if rest.starts_with(THREE_STARS) {
            return true;
        }
        rest = later;
    }
    false
}

/// Returns true if a text is a pattern: it has a byte other than `/`, and neither `[`, `\` nor `***`.
pub fn is_pattern(text: &str) -> bool
    ensures { result ≡ is_pattern text.now }
{
    let bytes = text.as_bytes();
    !are_slashes(bytes) && !has_refused_byte(bytes) && !has_three_stars(bytes)
}
