//! The letters of the options with which a file is opened.
ghost use Rattle.std.specs.Prelude.{◌≡◌, Some};
ghost use Rattle.sftp_model.specs.OpenOptions.{nothing_chosen};
ghost use Rattle.script_words.specs.Lines.{with_letter, with_letters, flags_in};

use crate::hex_word::NOTHING;
use crate::reason::Reason;
use sftp_model::OpenOptions;
use std::marker::Model;

/// The letters that occurred so far. A contract sees the options that they choose.
#[derive(Drop)]
struct Letters {
    read: bool,
    write: bool,
    append: bool,
    truncate: bool,
    create: bool,
    create_new: bool,
}

impl Model for Letters {
    ghost use Rattle.sftp_model.specs.declared.open_options.OpenOptions.{OpenOptions};

    ghost Value = { OpenOptions };

    ghost view = { λ l. record {
      read = l.read;
      write = l.write;
      append = l.append;
      truncate = l.truncate;
      create = l.create;
      create_new = l.create_new;
    } };
}

impl Letters {
    fn none() -> Letters
        ensures { result ≡ nothing_chosen }
    {
        Letters {
            read: false,
            write: false,
            append: false,
            truncate: false,
            create: false,
            create_new: false,
        }
    }

    /// Returns the letters with another one, or `None` if it is no option or occurred before.
    fn with_letter(self, letter: u8) -> Option<Letters>
        ensures { result ≡ with_letter letter self }
    {
        match letter {
            b'r' if !self.read => Some(Letters { read: true, ..self }),
            b'w' if !self.write => Some(Letters {
                write: true,
                ..self
            }),
            b'a' if !self.append => Some(Letters {
                append: true,
                ..self
            }),
            b't' if !self.truncate => Some(Letters {
                truncate: true,
                ..self
            }),
            b'c' if !self.create => Some(Letters {
                create: true,
                ..self
            }),
            b'n' if !self.create_new => Some(Letters {
                create_new: true,
                ..self
            }),
            _ => None,
        }
    }

    /// Returns the letters of a word.
    #[tactic(auto, using(crate::proofs::Letters::letter_more))]
    fn of_word(word: &[u8]) -> Option<Letters>
        ensures { result ≡ with_letters (Some nothing_chosen) word.now }
    {
        let mut letters = Letters::none();
        for letter in word {
            letters = letters.with_letter(*letter)?;
        }
        Some(letters)
    }

    fn options(self) -> OpenOptions
        ensures { result ≡ self }
    {
        let mut options = OpenOptions::new();
        options.read(self.read);
        options.write(self.write);
        options.append(self.append);
        options.truncate(self.truncate);
        options.create(self.create);
        options.create_new(self.create_new);
        options
    }
}

/// Returns no option, written as `-`, or the options of letters in any order, each at most once.
pub(crate) fn flags_in(word: &[u8]) -> Result<OpenOptions, Reason>
    ensures { result ≡ flags_in word.now }
{
    if word == NOTHING {
        return Ok(OpenOptions::new());
    }
    match Letters::of_word(word) {
        Some(letters) => Ok(letters.options()),
        None => Err(Reason::Mode),
    }
}
