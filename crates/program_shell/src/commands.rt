//! The commands of a program, and the reason why a command line is none of them.
ghost use Rattle.std.specs.Prelude.{◌≡◌, map};
ghost use Rattle.std.specs.Option.{option_map};
ghost use Rattle.std.specs.String.{string_bytes};
ghost use Rattle.program_shell.specs.Commands.{command_of, command_seen, fits, misfit_of, misfit_seen, operand_seen, operands_misfit, option_misfit};

use script_grammar::number_in;
use std::env::{self, Env};
use std::fmt;
use std::io::{Eprint, ErrorKind};

/// An operand of a command.
///
/// Used in `crates/sftp_view/src/main.rt`.
#[derive(Clone, Copy)]
pub struct Operand {
    /// Its name.
    pub name: &'static str,
    /// The least and the greatest number that it may be; `None` if it is any text.
    pub range: Option<(u64, u64)>,
}

/// An option of a command.
///
/// Used in `crates/program_shell/src/server.rt`.
#[derive(Clone, Copy)]
pub struct CommandOption {
    /// The argument that begins it.
    pub word: &'static str,
    /// The argument after it.
    pub value: Operand,
}

/// A command of a program.
///
/// Used in `crates/sftp_view/src/main.rt`.
#[derive(Clone, Copy)]
pub struct Command<'a> {
    /// The first argument.
    pub word: &'static str,
    /// The arguments after it.
    pub operands: &'a [Operand],
    /// The option that may follow the operands.
    pub option: Option<CommandOption>,
}

/// The reason why a command line is no command of a program.
///
/// Used in `crates/sftp_view/src/main.rt`.
#[derive(Clone, Copy)]
pub enum Misfit<'a> {
    /// There is no argument.
    Missing,
    /// No command begins with this argument.
    Unknown(&'a str),
    /// The command has more operands.
    TooFew(Command<'a>),
    /// The command has fewer operands: this argument is the first after them.
    TooMany(Command<'a>, &'a str),
    /// Nothing follows the option, which needs a value.
    NoValue(CommandOption),
    /// The operand's number is not made of digits, or is out of its range.
    OutOfRange(Operand, &'a str),
}

/// Returns true if an argument may be an operand.
fn fits(operand: Operand, word: &str) -> bool
    ensures { result ≡ fits (operand_seen operand) word.now }
{
    match operand.range {
        None => true,
        Some((least, most)) => number_in(least, most, word.as_bytes()).is_ok(),
    }
}

/// Returns the command that begins with a word.
fn command_of<'a>(commands: &[Command<'a>], word: &str) -> Option<Command<'a>>
    ensures { option_map command_seen result ≡ command_of (map command_seen commands.now) word.now }
{
    let mut rest = commands;
    loop {
        match rest {
            [] => return None,
            [command, later @ ..] => {
                if command.word == word {
                    return Some(*command);
                }
                rest = later;
            }
        }
    }
}

/// Returns the reason why the arguments after the operands of a command are not its option.
fn option_misfit<'a>(command: Command<'a>, words: &'a [String]) -> Option<Misfit<'a>>
    ensures { option_map misfit_seen result ≡ option_misfit (command_seen command.entry) (map string_bytes words.now) }
{
    let [word, values @ ..] = words else {
        return None;
    };
    let word = word.as_str();
    let Some(option) = command.option else {
        return Some(Misfit::TooMany(command, word));
    };
    if option.word != word {
        return Some(Misfit::TooMany(command, word));
    }
    let [value, rest @ ..] = values else {
        return Some(Misfit::NoValue(option));
    };
    let value = value.as_str();
    if !fits(option.value, value) {
        return Some(Misfit::OutOfRange(option.value, value));
    }
    match rest {
        [] => None,
        [word, ..] => Some(Misfit::TooMany(command, word.as_str())),
    }
}

/// Returns the reason why arguments are not the operands of a command, and its option.
fn operands_misfit<'a>(command: Command<'a>, words: &'a [String]) -> Option<Misfit<'a>>
    ensures { option_map misfit_seen result ≡ operands_misfit (command_seen command.entry) (map operand_seen command.entry.operands.now) (map string_bytes words.now) }
{
    let mut operands = command.operands;
    let mut rest = words;
    loop {
        match rest {
            [] => {
                return match operands {
                    [] => None,
                    [_, ..] => Some(Misfit::TooFew(command)),
                };
            }
            [word, later @ ..] => {
                let word = word.as_str();
                match operands {
                    [] => return option_misfit(command, rest),
                    [operand, more @ ..] => {
                        if !fits(*operand, word) {
                            return Some(Misfit::OutOfRange(*operand, word));
                        }
                        operands = more;
                    }
                }
                rest = later;
            }
        }
    }
}

/// Returns the reason why a command line is none of these commands, or `None` if it is one.
pub fn misfit_of<'a>(commands: &[Command<'a>], words: &'a [String]) -> Option<Misfit<'a>>
    ensures { option_map misfit_seen result ≡ misfit_of (map command_seen commands.now) (map string_bytes words.now) }
{
    match words {
        [] => Some(Misfit::Missing),
        [first, rest @ ..] => {
            let first = first.as_str();
            match command_of(commands, first) {
                None => Some(Misfit::Unknown(first)),
                Some(command) => operands_misfit(command, rest),
            }
        }
    }
}

/// Writes which operands a command needs.
fn write_needed<W: fmt::Write>(command: &Command<'_>, f: &mut fmt::Formatter<W>) -> fmt::Result {
    let word = command.word;
    match command.operands {
        [one] => write!(f, "'{word}' needs an argument, {}", one.name),
        [one, two] => write!(
            f,
            "'{word}' needs 2 arguments, {} and {}",
            one.name, two.name
        ),
        [one, two, three] => write!(
            f,
            "'{word}' needs 3 arguments, {}, {} and {}",
            one.name, two.name, three.name
        ),
        operands => write!(f, "'{word}' needs {} arguments", operands.len()),
    }
}

impl fmt::Display for Misfit<'_> {
    fn fmt<W: fmt::Write>(&self, f: &mut fmt::Formatter<W>) -> fmt::Result {
        match self {
            Misfit::Missing => write!(f, "missing argument"),
            Misfit::Unknown(word) => write!(f, "unknown argument '{word}'"),
            Misfit::TooFew(command) => write_needed(command, f),
            Misfit::TooMany(command, word) => {
                write!(f, "'{}' takes no argument '{word}'", command.word)
            }
            Misfit::NoValue(option) => write!(f, "option '{}' needs a number", option.word),
            Misfit::OutOfRange(operand, word) => match operand.range {
                Some((least, most)) => write!(
                    f,
                    "{} is a number from {least} to {most}, not '{word}'",
                    operand.name
                ),
                None => write!(f, "{} can't be '{word}'", operand.name),
            },
        }
    }
}

/// Returns true if an argument of the command line is not UTF-8.
fn has_other_bytes<R: Env + AllocGlobal>(rt: &R) -> bool {
    match env::args(rt) {
        Ok(_) => false,
        Err(error) => error.kind() != ErrorKind::OutOfMemory,
    }
}

/// Reports on standard error why a program refused its command line: it is none of the commands. If it is one, the
/// message is `input`, the reason why the program refused what it read. If standard error fails too, the message is
/// lost.
pub fn tell_refusal<R: Env + Eprint + AllocGlobal>(
    rt: &R,
    program: &str,
    commands: &[Command<'_>],
    words: &[String],
    input: &str,
) {
    let _ = match misfit_of(commands, words) {
        None => eprintln!(rt; "{program}: {input}"),
        Some(Misfit::Missing) if has_other_bytes(rt) => {
            eprintln!(rt; "{program}: an argument is not UTF-8 (try --help)")
        }
        Some(misfit) => eprintln!(rt; "{program}: {misfit} (try --help)"),
    };
}
