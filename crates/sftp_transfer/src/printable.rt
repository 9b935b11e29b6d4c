//! Names as they are shown on a terminal.
use std::alloc::{AllocError, Global};

/// Returns a name as it is written for people. Bytes that are no UTF-8 are replaced, and so is everything that moves
/// the cursor of a terminal or changes its colours.
pub(crate) fn printable(alloc: Global, bytes: &[u8]) -> Result<String, AllocError> {
    let text = String::from_utf8_lossy(alloc, bytes)?;
    let mut shown = String::new(alloc);
    for letter in text.as_str().chars() {
        shown.push(if letter.is_control() { '?' } else { letter })?;
    }
    Ok(shown)
}
