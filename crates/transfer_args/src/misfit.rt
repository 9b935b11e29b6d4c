//! The reason why a command line can't be used.
use crate::acts::{act_verb_of, are_filled};
use crate::flags::{plain_settings, with_flags};
use crate::links::link_at;
use crate::numbers::{MAX_SHARES, mode_in};
use crate::options::{ActVerb, Setting, Valued, Verb};
use crate::parser::{options_by, removes_by_shares};
use crate::values::{pattern_of, valued_by, with_setting};
use std::alloc::Global;
use std::fmt;

/// The addresses of a server.
const LINKS: &str = "ssh:PATH, unix:PATH, tcp:HOST:PORT, files:IN:OUT or stdio";

/// The verbs.
const VERBS: &str = "get, put, pull, push, list, remove, mkdir, move, link or chmod";

/// The operands of a copy.
const TWO_FILES: &str = "a source and a target";

/// The rule of patterns.
const PATTERN_RULE: &str = "it needs a name, and '[', '\\' and '***' have no meaning here";

/// The reason why a command line can't be used.
///
/// Used in `crates/sftp_transfer/src/terminal.rt`.
#[derive(Clone, Copy)]
pub enum Misfit<'a> {
    /// There is no argument.
    Missing,
    /// The first argument is no address of a server.
    UnknownLink(&'a str),
    /// Nothing follows this address.
    NoVerb(&'a str),
    /// The second argument is no verb.
    UnknownVerb(&'a str),
    /// An argument begins with `-`, and is no option.
    UnknownOption(&'a str),
    /// Nothing follows this option, which a value has to follow.
    NoValue(&'a str),
    /// What follows this option is not a number in this range.
    BadNumber(&'a str, (u32, u32), &'a str),
    /// What follows this option is not `as-is`.
    BadLinks(&'a str),
    /// What follows `--shard` is no share of files.
    BadShard(&'a str),
    /// `--delete` is given with `--shard`.
    SharedDelete,
    /// What follows this option is not a pattern that is understood.
    BadPattern(&'a str, &'a str),
    /// Fewer operands than these follow this verb, besides its options.
    FewOperands(&'a str, &'static str),
    /// This argument follows the operands of this verb.
    ManyOperands(&'a str, &'a str),
    /// This argument follows the target of this verb.
    AfterTarget(&'a str, &'a str),
    /// The first operand of `chmod` is not 1 to 4 octal digits.
    BadMode(&'a str),
    /// The text of a link is empty.
    EmptyText,
    /// A path of this verb is empty.
    EmptyPath(&'a str),
    /// This is to write to standard output, which is the connection.
    WritesStdio(&'static str),
}

/// Returns true if a word is a value of an option.
fn is_value(valued: Valued, word: &str) -> bool {
    match valued {
        Valued::Setting(setting) => with_setting(plain_settings(), setting, word).is_some(),
        Valued::Pattern(option) => pattern_of(option, word).is_some(),
    }
}

/// Returns the reason why a word is no value of an option.
fn bad_value<'a>(option: &'a str, valued: Valued, word: &'a str) -> Misfit<'a> {
    let setting = match valued {
        Valued::Setting(setting) => setting,
        Valued::Pattern(_) => return Misfit::BadPattern(option, word),
    };
    let range = match setting {
        Setting::Links => return Misfit::BadLinks(word),
        Setting::Window => (1, 1024),
        Setting::Files => (1, 256),
        Setting::Limit => (1, 1073741824),
        Setting::Timeout => (0, 86400),
        Setting::DeleteAtMost => (0, 1000000),
        Setting::Rate => (0, 1073741824),
        Setting::Again => (0, 1000),
        Setting::Shard => return Misfit::BadShard(word),
    };
    Misfit::BadNumber(option, range, word)
}

/// Returns the reason why a word that begins with `-` can't be used, or `None` if it can.
fn bad_word(verb: Verb, word: &str) -> Option<Misfit<'_>> {
    if let Some((name, value)) = word.split_once('=') {
        return match valued_by(verb, name) {
            Some(valued) if is_value(valued, value) => None,
            Some(valued) => Some(bad_value(name, valued, value)),
            None => Some(Misfit::UnknownOption(word)),
        };
    }
    match with_flags(verb, plain_settings(), word) {
        Some(_) => None,
        None => Some(Misfit::UnknownOption(word)),
    }
}

/// Returns the reason why the options among these words can't be used, if it is one of them.
fn bad_option(verb: Verb, words: &[String]) -> Option<Misfit<'_>> {
    let mut awaited = None;
    for word in words {
        let word = word.as_str();
        if let Some((option, valued)) = awaited {
            if !is_value(valued, word) {
                return Some(bad_value(option, valued, word));
            }
            awaited = None;
        } else if let Some(valued) = valued_by(verb, word) {
            awaited = Some((word, valued));
        } else if word == "--" {
            return None;
        } else if word.starts_with('-') {
            if let Some(found) = bad_word(verb, word) {
                return Some(found);
            }
        }
    }
    match awaited {
        Some((option, _)) => Some(Misfit::NoValue(option)),
        None => None,
    }
}

/// Returns the reason why the arguments after the verb of a copy can't be used, or `None` if they can.
fn copy_misfit<'a>(alloc: Global, verb: &'a str, words: &'a [String]) -> Option<Misfit<'a>> {
    if let Some(found) = bad_option(Verb::Copy, words) {
        return Some(found);
    }
    let Ok((_choices, operands)) = options_by(alloc, Verb::Copy, words) else {
        return None;
    };
    if operands.len() < 2 {
        return Some(Misfit::FewOperands(verb, TWO_FILES));
    }
    None
}

/// Returns the reason why the arguments after `push` or `pull` can't be used, or `None` if they can.
fn mirror_misfit<'a>(
    alloc: Global,
    link: &str,
    verb: &'a str,
    words: &'a [String],
) -> Option<Misfit<'a>> {
    if let Some(found) = bad_option(Verb::Mirror, words) {
        return Some(found);
    }
    let Ok((choices, operands)) = options_by(alloc, Verb::Mirror, words) else {
        return None;
    };
    match operands.as_slice() {
        [] | [_] => Some(Misfit::FewOperands(verb, TWO_FILES)),
        [_, _, word, ..] => Some(Misfit::AfterTarget(verb, *word)),
        _ if removes_by_shares(choices.settings.rules) => Some(Misfit::SharedDelete),
        _ if choices.settings.rules.dry_run && link == "stdio" => Some(Misfit::WritesStdio(
            "a dry run",
        )),
        _ => None,
    }
}

/// Returns the reason why the arguments after `list` can't be used, or `None` if they can.
fn list_misfit<'a>(alloc: Global, link: &str, words: &'a [String]) -> Option<Misfit<'a>> {
    if let Some(found) = bad_option(Verb::List, words) {
        return Some(found);
    }
    if let Ok((_, operands)) = options_by(alloc, Verb::List, words) {
        if let [_, word, ..] = operands.as_slice() {
            return Some(Misfit::ManyOperands("list", *word));
        }
    }
    if link == "stdio" {
        return Some(Misfit::WritesStdio("'list'"));
    }
    None
}

/// Returns the operands that a verb of one operation needs.
fn operands_of(act: ActVerb) -> &'static str {
    match act {
        ActVerb::Remove | ActVerb::MakeDirectories => "a path",
        ActVerb::Move => "two paths",
        ActVerb::Link => "a text and a path",
        ActVerb::SetMode => "a mode and a path",
    }
}

/// Returns the reason why a verb of one operation can't be used on these operands, or `None` if it can.
fn operand_misfit<'a>(act: ActVerb, verb: &'a str, operands: &[&'a str]) -> Option<Misfit<'a>> {
    match (act, operands) {
        (ActVerb::SetMode, [mode, ..]) if mode_in(mode.as_bytes()).is_none() => {
            Some(Misfit::BadMode(*mode))
        }
        (ActVerb::Link, [text, ..]) if text.is_empty() => Some(Misfit::EmptyText),
        (ActVerb::Move | ActVerb::Link, [_, _, word, ..]) => Some(Misfit::ManyOperands(
            verb, *word,
        )),
        _ if !are_filled(operands) => Some(Misfit::EmptyPath(verb)),
        (ActVerb::Remove | ActVerb::MakeDirectories, [_, ..]) | (_, [_, _, ..]) => None,
        _ => Some(Misfit::FewOperands(verb, operands_of(act))),
    }
}

/// Returns the reason why the arguments after a verb of one operation can't be used, or `None` if they can.
fn act_misfit<'a>(
    alloc: Global,
    act: ActVerb,
    verb: &'a str,
    words: &'a [String],
) -> Option<Misfit<'a>> {
    if let Some(found) = bad_option(Verb::Act(act), words) {
        return Some(found);
    }
    let Ok((_choices, operands)) = options_by(alloc, Verb::Act(act), words) else {
        return None;
    };
    operand_misfit(act, verb, operands.as_slice())
}

/// Returns the reason why a command line can't be used, or `None` if it can or an allocation fails.
pub fn misfit_of(alloc: Global, words: &[String]) -> Option<Misfit<'_>> {
    let [link, later @ ..] = words else {
        return Some(Misfit::Missing);
    };
    let link = link.as_str();
    if link_at(link).is_none() {
        return Some(Misfit::UnknownLink(link));
    }
    let [verb, rest @ ..] = later else {
        return Some(Misfit::NoVerb(link));
    };
    let verb = verb.as_str();
    if verb == "get" || verb == "put" {
        copy_misfit(alloc, verb, rest)
    } else if verb == "push" || verb == "pull" {
        mirror_misfit(alloc, link, verb, rest)
    } else if verb == "list" {
        list_misfit(alloc, link, rest)
    } else if let Some(act) = act_verb_of(verb) {
        act_misfit(alloc, act, verb, rest)
    } else {
        Some(Misfit::UnknownVerb(verb))
    }
}

impl fmt::Display for Misfit<'_> {
    fn fmt<W: fmt::Write>(&self, f: &mut fmt::Formatter<W>) -> fmt::Result {
        match self {
            Misfit::Missing => write!(f, "missing argument"),
            Misfit::UnknownLink(word) => {
                write!(f, "unknown link '{word}', which is not {LINKS}")
            }
            Misfit::NoVerb(link) => write!(f, "{VERBS} is missing after '{link}'"),
            Misfit::UnknownVerb(word) => {
                write!(f, "unknown command '{word}', which is not {VERBS}")
            }
            Misfit::UnknownOption(word) => write!(f, "unknown option '{word}'"),
            Misfit::NoValue(option) => write!(f, "option '{option}' needs a value"),
            Misfit::BadNumber(option, range, word) => write!(
                f,
                "the number of '{option}' is from {} to {}, not '{word}'",
                range.0, range.1
            ),
            Misfit::BadLinks(word) => { write!(f, "the value of '--links' is as-is, not '{word}'") }
            Misfit::BadShard(word) => write!(
                f,
                "the value of '--shard' is I/N, from 1/1 to {MAX_SHARES}/{MAX_SHARES}, not '{word}'"
            ),
            Misfit::SharedDelete => write!(
                f,
                "'--delete' can't be used with '--shard', since each run copies a share of the files alone"
            ),
            Misfit::BadPattern(option, word) => {
                write!(
                    f,
                    "the pattern of '{option}' can't be used: '{word}' ({PATTERN_RULE})"
                )
            }
            Misfit::FewOperands(verb, operands) => write!(f, "'{verb}' needs {operands}"),
            Misfit::ManyOperands(verb, word) => write!(f, "'{verb}' takes no argument '{word}'"),
            Misfit::AfterTarget(verb, word) => {
                write!(f, "'{verb}' takes no argument '{word}' after its target")
            }
            Misfit::BadMode(word) => {
                write!(
                    f,
                    "the mode of 'chmod' is 1 to 4 octal digits, not '{word}'"
                )
            }
            Misfit::EmptyText => write!(f, "the text of 'link' is empty"),
            Misfit::EmptyPath(verb) => write!(f, "a path of '{verb}' is empty"),
            Misfit::WritesStdio(writer) => write!(
                f,
                "{writer} can't be used with stdio, since standard output is the connection"
            ),
        }
    }
}
