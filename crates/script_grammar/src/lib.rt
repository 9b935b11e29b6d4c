//! Reads the bytes of a script, or returns the first line that is refused, and the reason.
#![tactic(auto)]

mod calls;
mod draft;
mod first;
mod lines;
mod names;
mod options;
mod reader;
mod script;
mod server;
mod server_words;
mod setup;

pub use draft::Draft;
pub use reader::{LineReader, read_lines, read_script};
pub use script::Script;
pub use script_words::{
    LineError, Reason, ScriptError, bytes_in, no_word, number_in, one_word, three_words, two_words,
};
pub use server_words::read_server_words;
