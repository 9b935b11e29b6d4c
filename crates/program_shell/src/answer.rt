//! The texts for arguments that run nothing.
ghost use Rattle.std.specs.Prelude.{◌≡◌, map};
ghost use Rattle.std.specs.String.{string_bytes};
ghost use Rattle.program_shell.specs.Texts.{answered_of, faulty_text, text_of, version_text};

use crate::ending::Answered;

/// Returns the text of `--version`.
#[tactic(auto, unfolding(crate::specs::Texts::version_text))]
fn version_text() -> &'static str
    ensures { result.now ≡ version_text }
{
    "tilfrjon 0.1.0\n"
}

/// Returns the text for a faulty command line.
#[tactic(auto, unfolding(crate::specs::Texts::faulty_text))]
fn faulty_text() -> &'static str
    ensures { result.now ≡ faulty_text }
{
    "line 0 words\n"
}

/// A text to write, and its meaning.
///
/// Used in `crates/sftp_view/src/all.rt`.
#[derive(Clone, Copy)]
pub struct Answer {
    /// The meaning of the text.
    pub answered: Answered,
    /// The text.
    pub text: &'static str,
}

/// Returns the answer to arguments that run nothing, without the program's name. `--help` is answered with this text,
/// `--version` with the version, and everything else is refused.
pub fn answer_to(words: &[String], help: &'static str) -> Answer
    ensures answered { result.answered ≡ answered_of (map string_bytes words.now) }
    ensures text { result.text.now ≡ text_of help.now (map string_bytes words.now) }
{
    if let [word] = words {
        if word.as_str() == "--help" {
            return Answer {
                answered: Answered::Done,
                text: help,
            };
        }
        if word.as_str() == "--version" {
            return Answer {
                answered: Answered::Done,
                text: version_text(),
            };
        }
    }
    Answer {
        answered: Answered::Refused,
        text: faulty_text(),
    }
}
