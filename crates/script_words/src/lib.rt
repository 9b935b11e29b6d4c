//! The lines of a script, their words, and the values of the words: numbers, bytes, modes, open flags and seek targets.
#![tactic(auto)]

mod error;
pub mod fields;
mod flags;
mod hex_word;
mod number;
mod parts;
mod position;
mod reason;
mod words;

pub use error::{LineError, ScriptError};
pub use hex_word::bytes_in;
pub use number::{number_from, number_in};
pub use parts::slot_and_parts;
pub use reason::Reason;
pub use words::{four_words, no_word, one_word, split_line, split_word, three_words, two_words};
