//! The reasons for which a line can be refused.

/// The reason why a line of a script is refused.
///
/// Example: `crates/test_tasks/src/texts.rt`.
#[derive(Clone, Copy, Debug, PartialEq, Eq, thiserror::Error)]
pub enum Reason {
    /// The script has more than 16777216 bytes.
    #[error("size")]
    Size,
    /// The program does not know the arguments of the command line.
    #[error("words")]
    Words,
    /// The first word is no word of a script.
    #[error("word")]
    Word,
    /// A call comes before the first lane.
    #[error("lane")]
    Lane,
    /// The line has too few words or too many.
    #[error("count")]
    Count,
    /// A number is misspelled.
    #[error("number")]
    Number,
    /// Bytes in hexadecimal digits are misspelled.
    #[error("hex")]
    Hex,
    /// A fixed word is none of its list.
    #[error("mode")]
    Mode,
    /// A value is out of its range.
    #[error("range")]
    Range,
    /// The same was given before.
    #[error("repeat")]
    Repeat,
}
