//! The parser of a transfer's command line.
ghost use Rattle.std.specs.Prelude.{◌≡◌, ◌++◌, [], None, Some, map};
ghost use Rattle.std.specs.String.{string_bytes};
ghost use Rattle.transfer_args.specs.Links.{link_seen};
ghost use Rattle.transfer_args.specs.Words.{Reads, act_by, asked_at, asked_by, asked_seen, choices_seen, copy_by, copy_of, list_at, list_by, mirror_at, mirror_by, mirror_of, operands_seen, options_by, plain_choices, read_seen, removes_by_shares, work_by, work_seen, writes_names};

use crate::acts::{act_at, act_verb_of};
use crate::args_error::ArgsError;
use crate::asked::{Asked, Direction, LinkAt, Listing, Mirror, Transfer, Work};
use crate::links::link_at;
use crate::options::{ActVerb, MirrorRules, Options, Verb};
use crate::values::{Choices, plain_choices, valued_by, with_option, with_value};
use std::alloc::Global;

/// Returns these operands and then the words.
///
/// # Errors
///
/// `OutOfMemory` if an allocation fails.
#[tactic(auto, using(crate::proofs::LastLaws::map_push))]
fn with_rest<'a>(operands: Vec<&'a str>, words: &'a [String]) -> Result<Vec<&'a str>, ArgsError>
    ensures { Reads operands_seen result (Some (operands_seen operands.entry ++ map string_bytes words.now)) }
{
    let mut all = operands;
    let mut rest = words;
    while let [word, later @ ..] = rest {
        all.push(word.as_str())?;
        rest = later;
    }
    Ok(all)
}

/// Returns the choices of the options among the words, and the other words.
///
/// # Errors
///
/// An `ArgsError` if an option can't be used or an allocation fails.
#[tactic(auto, using(crate::proofs::LastLaws::map_push))]
pub(crate) fn options_by<'a>(
    alloc: Global,
    verb: Verb,
    words: &'a [String],
) -> Result<(Choices<'a>, Vec<&'a str>), ArgsError>
    ensures { Reads read_seen result (options_by verb plain_choices None [] (map string_bytes words.now)) }
{
    let mut choices = plain_choices(alloc);
    let mut awaited = None;
    let mut operands = Vec::new(alloc);
    let mut rest = words;
    while let [word, later @ ..] = rest {
        let word = word.as_str();
        if let Some(valued) = awaited {
            choices = with_value(choices, valued, word)?;
            awaited = None;
        } else if word == "--" {
            return Ok((choices, with_rest(operands, later)?));
        } else if let Some(valued) = valued_by(verb, word) {
            awaited = Some(valued);
        } else if word.starts_with('-') {
            choices = with_option(verb, choices, word)?;
        } else {
            operands.push(word)?;
        }
        rest = later;
    }
    if awaited.is_some() {
        return Err(ArgsError::Refused);
    }
    Ok((choices, operands))
}

/// Returns the copy of the files before the last one to the last one.
///
/// # Errors
///
/// `Refused` if there are fewer than two.
fn copy_of<'a>(
    way: Direction,
    options: Options,
    operands: Vec<&'a str>,
) -> Result<Work<'a>, ArgsError>
    ensures { Reads work_seen result (copy_of way options (operands_seen operands.entry)) }
{
    let mut sources = operands;
    match sources.pop() {
        Some(target) if !sources.is_empty() => Ok(Work::Copy(Transfer {
            way,
            options,
            sources,
            target,
        })),
        _ => Err(ArgsError::Refused),
    }
}

/// Returns the copy that the words after the verb ask for.
///
/// # Errors
///
/// An `ArgsError` if they can't be used or an allocation fails.
fn copy_by(alloc: Global, way: Direction, words: &[String]) -> Result<Work<'_>, ArgsError>
    ensures { Reads work_seen result (copy_by way (map string_bytes words.now)) }
{
    let (choices, operands) = options_by(alloc, Verb::Copy, words)?;
    copy_of(way, choices.settings.options, operands)
}

/// Returns the listing of the directory that is the one operand, or of the one in which the session starts.
///
/// # Errors
///
/// `Refused` if there is more than one operand.
fn list_at<'a>(options: Options, operands: &[&'a str]) -> Result<Work<'a>, ArgsError>
    ensures { Reads work_seen result (list_at options (map (λ w. w.now) operands.now)) }
{
    match operands {
        [] => Ok(Work::List(Listing { options, path: "." })),
        [path] => Ok(Work::List(Listing { options, path })),
        _ => Err(ArgsError::Refused),
    }
}

/// Returns the listing that the words after the verb ask for.
///
/// # Errors
///
/// An `ArgsError` if they can't be used or an allocation fails.
fn list_by(alloc: Global, words: &[String]) -> Result<Work<'_>, ArgsError>
    ensures { Reads work_seen result (list_by (map string_bytes words.now)) }
{
    let (choices, operands) = options_by(alloc, Verb::List, words)?;
    list_at(choices.settings.options, operands.as_slice())
}

/// Returns true if entries are to be removed by a run that copies a share of the files alone.
pub(crate) fn removes_by_shares(rules: MirrorRules) -> bool
    ensures { result ≡ removes_by_shares rules }
{
    rules.delete && rules.shard.count > 1
}

/// Returns the mirroring of a directory by another one.
///
/// # Errors
///
/// `Refused` if a run that copies a share of the files is to remove entries.
fn mirror_of<'a>(
    way: Direction,
    choices: Choices<'a>,
    from: &'a str,
    to: &'a str,
) -> Result<Work<'a>, ArgsError>
    ensures { Reads work_seen result (mirror_of way (choices_seen choices.entry) from.now to.now) }
{
    let Choices { settings, patterns } = choices;
    if removes_by_shares(settings.rules) {
        return Err(ArgsError::Refused);
    }
    Ok(Work::Mirror(Mirror {
        way,
        options: settings.options,
        rules: settings.rules,
        patterns,
        from,
        to,
    }))
}

/// Returns the mirroring of the first operand by the second one.
///
/// # Errors
///
/// `Refused` if there are fewer or more than two operands, or a run that copies a share of the files is to remove
/// entries.
fn mirror_at<'a>(
    way: Direction,
    choices: Choices<'a>,
    operands: &[&'a str],
) -> Result<Work<'a>, ArgsError>
    ensures { Reads work_seen result (mirror_at way (choices_seen choices.entry) (map (λ w. w.now) operands.now)) }
{
    match operands {
        [from, to] => mirror_of(way, choices, from, to),
        _ => Err(ArgsError::Refused),
    }
}

/// Returns the mirroring that the words after the verb ask for.
///
/// # Errors
///
/// An `ArgsError` if they can't be used or an allocation fails.
fn mirror_by(alloc: Global, way: Direction, words: &[String]) -> Result<Work<'_>, ArgsError>
    ensures { Reads work_seen result (mirror_by way (map string_bytes words.now)) }
{
    let (choices, operands) = options_by(alloc, Verb::Mirror, words)?;
    mirror_at(way, choices, operands.as_slice())
}

/// Returns the operation that the words after the verb ask for.
///
/// # Errors
///
/// An `ArgsError` if they can't be used or an allocation fails.
fn act_by(alloc: Global, verb: ActVerb, words: &[String]) -> Result<Work<'_>, ArgsError>
    ensures { Reads work_seen result (act_by verb (map string_bytes words.now)) }
{
    let (choices, operands) = options_by(alloc, Verb::Act(verb), words)?;
    act_at(verb, choices.settings, operands)
}

/// Returns the work that a verb and the words after it ask for.
///
/// # Errors
///
/// An `ArgsError` if they can't be used or an allocation fails.
fn work_by<'a>(alloc: Global, verb: &str, words: &'a [String]) -> Result<Work<'a>, ArgsError>
    ensures { Reads work_seen result (work_by verb.now (map string_bytes words.now)) }
{
    if verb == "get" {
        copy_by(alloc, Direction::Get, words)
    } else if verb == "put" {
        copy_by(alloc, Direction::Put, words)
    } else if verb == "push" {
        mirror_by(alloc, Direction::Put, words)
    } else if verb == "pull" {
        mirror_by(alloc, Direction::Get, words)
    } else if verb == "list" {
        list_by(alloc, words)
    } else {
        act_by(alloc, act_verb_of(verb).ok_or(ArgsError::Refused)?, words)
    }
}

/// Returns true if the names of entries are written to standard output.
fn writes_names(work: &Work) -> bool
    ensures { result ≡ writes_names (work_seen work.now) }
{
    match work {
        Work::Copy(_) | Work::Act(_) => false,
        Work::List(_) => true,
        Work::Mirror(mirror) => mirror.rules.dry_run,
    }
}

/// Returns the request.
///
/// # Errors
///
/// `Refused` if names are to be written and standard output is the connection.
fn asked_at<'a>(link: LinkAt<'a>, work: Work<'a>) -> Result<Asked<'a>, ArgsError>
    ensures { Reads asked_seen result (asked_at (link_seen link.entry) (work_seen work.entry)) }
{
    if link == LinkAt::Stdio && writes_names(&work) {
        return Err(ArgsError::Refused);
    }
    Ok(Asked { link, work })
}

/// Returns the request that a command line makes.
///
/// # Errors
///
/// `Refused` if the command line can't be used, and `OutOfMemory` if an allocation fails.
pub fn read_words(alloc: Global, words: &[String]) -> Result<Asked<'_>, ArgsError>
    ensures { Reads asked_seen result (asked_by (map string_bytes words.now)) }
{
    match words {
        [link, verb, rest @ ..] => {
            let link = link_at(link.as_str()).ok_or(ArgsError::Refused)?;
            let work = work_by(alloc, verb.as_str(), rest)?;
            asked_at(link, work)
        }
        _ => Err(ArgsError::Refused),
    }
}
