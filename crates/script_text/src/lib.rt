//! Writes the text of a session: a line for each frame that was sent or taken, one for the outcome of each call, and
//! one for each file and each directory that is left.
#![tactic(auto)]

mod frames;
mod laws;
mod outcomes;
mod put;
mod text;
mod words;

pub use laws::traces_keep_texts;
pub use outcomes::put_refusal;
pub use put::{put_bytes, put_hex, put_number, put_word};
pub use session_model::Report;
pub use ssh_encoding::OutOfMemory;
pub use text::{write_dir, write_file, write_text};
