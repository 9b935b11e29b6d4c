//! The verbs of one operation on the server.
ghost use Rattle.std.specs.Prelude.{◌≡◌, map};
ghost use Rattle.std.specs.List.{list_all};
ghost use Rattle.transfer_args.specs.Acts.{Moves, MakesLink, act_of, act_verb_of, by_two, is_filled, mode_of, paths_of};
ghost use Rattle.transfer_args.specs.Words.{Reads, act_at, act_seen, operands_seen, work_seen};

use crate::args_error::ArgsError;
use crate::asked::{Act, Job, Work};
use crate::numbers::mode_in;
use crate::options::{ActVerb, Settings};

/// Returns the verb that a word is, if it is one of these.
pub(crate) fn act_verb_of(word: &str) -> Option<ActVerb>
    ensures { result ≡ act_verb_of word.now }
{
    if word == "remove" {
        Some(ActVerb::Remove)
    } else if word == "mkdir" {
        Some(ActVerb::MakeDirectories)
    } else if word == "move" {
        Some(ActVerb::Move)
    } else if word == "link" {
        Some(ActVerb::Link)
    } else if word == "chmod" {
        Some(ActVerb::SetMode)
    } else {
        None
    }
}

/// Returns true if none of the operands is empty.
pub(crate) fn are_filled(operands: &[&str]) -> bool
    ensures { result ≡ list_all (λ w. is_filled w.now) operands.now }
{
    operands.iter().all(|operand| !operand.is_empty())
}

/// Returns the operands as paths.
///
/// # Errors
///
/// `Refused` if there is none.
fn paths_of<'a>(operands: Vec<&'a str>) -> Result<Vec<&'a str>, ArgsError>
    ensures { Reads operands_seen result (paths_of (operands_seen operands.entry)) }
{
    if operands.is_empty() {
        return Err(ArgsError::Refused);
    }
    Ok(operands)
}

/// Returns the renaming of the first operand to the second one.
///
/// # Errors
///
/// `Refused` if there are fewer or more than two operands.
fn move_of<'a>(operands: &[&'a str]) -> Result<Act<'a>, ArgsError>
    ensures { Reads act_seen result (by_two Moves (map (λ w. w.now) operands.now)) }
{
    match operands {
        [from, to] => Ok(Act::Move { from, to }),
        _ => Err(ArgsError::Refused),
    }
}

/// Returns the link with the first operand as its text at the second one.
///
/// # Errors
///
/// `Refused` if there are fewer or more than two operands.
fn link_of<'a>(operands: &[&'a str]) -> Result<Act<'a>, ArgsError>
    ensures { Reads act_seen result (by_two MakesLink (map (λ w. w.now) operands.now)) }
{
    match operands {
        [text, path] => Ok(Act::Link { text, path }),
        _ => Err(ArgsError::Refused),
    }
}

/// Returns the permissions that the first operand writes, for the other operands.
///
/// # Errors
///
/// `Refused` if the first operand is not 1 to 4 octal digits, or there is no other one.
fn mode_of<'a>(operands: Vec<&'a str>) -> Result<Act<'a>, ArgsError>
    ensures { Reads act_seen result (mode_of (operands_seen operands.entry)) }
{
    if operands.is_empty() {
        return Err(ArgsError::Refused);
    }
    let mut paths = operands;
    let mode = mode_in(paths.remove(0).as_bytes()).ok_or(ArgsError::Refused)?;
    let paths = paths_of(paths)?;
    Ok(Act::SetMode { mode, paths })
}

/// Returns the operation of a verb on these operands.
///
/// # Errors
///
/// `Refused` if the verb takes fewer or more operands, or the mode can't be used.
fn act_of<'a>(
    verb: ActVerb,
    settings: Settings,
    operands: Vec<&'a str>,
) -> Result<Act<'a>, ArgsError>
    ensures { Reads act_seen result (act_of verb settings (operands_seen operands.entry)) }
{
    match verb {
        ActVerb::Remove => Ok(Act::Remove {
            recursive: settings.options.recursive,
            paths: paths_of(operands)?,
        }),
        ActVerb::MakeDirectories => Ok(Act::MakeDirectories {
            parents: settings.parents,
            paths: paths_of(operands)?,
        }),
        ActVerb::Move => move_of(operands.as_slice()),
        ActVerb::Link => link_of(operands.as_slice()),
        ActVerb::SetMode => mode_of(operands),
    }
}

/// Returns the operation of a verb on these operands, with its options.
///
/// # Errors
///
/// `Refused` if an operand is empty, or the verb can't be used on the operands.
#[tactic(auto, using(crate::proofs::FilledLaws::filled_map))]
pub(crate) fn act_at<'a>(
    verb: ActVerb,
    settings: Settings,
    operands: Vec<&'a str>,
) -> Result<Work<'a>, ArgsError>
    ensures { Reads work_seen result (act_at verb settings (operands_seen operands.entry)) }
{
    if !are_filled(operands.as_slice()) {
        return Err(ArgsError::Refused);
    }
    let act = act_of(verb, settings, operands)?;
    Ok(Work::Act(Job {
        act,
        options: settings.options,
    }))
}
