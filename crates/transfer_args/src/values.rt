//! The options that a value follows.
ghost use Rattle.std.specs.Prelude.{◌≡◌, ◌∷◌, [], ◌++◌, map};
ghost use Rattle.std.specs.Option.{option_map};
ghost use Rattle.transfer_args.specs.Words.{Reads, choices_seen, copying_valued_by, mirror_valued_by, pattern_of, pattern_seen, plain_choices, valued_by, with_option, with_setting, with_value};

use crate::args_error::ArgsError;
use crate::asked::Pattern;
use crate::flags::{plain_settings, with_flags};
use crate::numbers::{number_in, shard_in, size_in};
use crate::options::{PatternOption, Setting, Settings, Valued, Verb};
use std::alloc::Global;
use transfer_filter::is_pattern;

/// The choices that the options of a command line make.
#[derive(Drop)]
pub(crate) struct Choices<'a> {
    /// The options and rules.
    pub settings: Settings,
    /// The patterns, in the order of the command line.
    pub patterns: Vec<Pattern<'a>>,
}

/// Returns the choices of a command line without options.
pub(crate) fn plain_choices<'a>(alloc: Global) -> Choices<'a>
    ensures { choices_seen result ≡ plain_choices }
{
    Choices {
        settings: plain_settings(),
        patterns: Vec::new(alloc),
    }
}

/// Returns the option of all verbs that copy that a word is, if it is one that a value follows.
fn copying_valued_by(word: &str) -> Option<Valued>
    ensures { result ≡ copying_valued_by word.now }
{
    if word == "--window" {
        Some(Valued::Setting(Setting::Window))
    } else if word == "--files" {
        Some(Valued::Setting(Setting::Files))
    } else if word == "--in-flight" || word == "--limit" {
        Some(Valued::Setting(Setting::Limit))
    } else if word == "--links" {
        Some(Valued::Setting(Setting::Links))
    } else if word == "--rate" {
        Some(Valued::Setting(Setting::Rate))
    } else {
        None
    }
}

/// Returns the option of `push` and `pull` that a word is, if it is one that a value follows.
fn mirror_valued_by(word: &str) -> Option<Valued>
    ensures { result ≡ mirror_valued_by word.now }
{
    if word == "--exclude" {
        Some(Valued::Pattern(PatternOption::Exclude))
    } else if word == "--include" {
        Some(Valued::Pattern(PatternOption::Include))
    } else if word == "--exclude-from" {
        Some(Valued::Pattern(PatternOption::ExcludeFrom))
    } else if word == "--delete-at-most" {
        Some(Valued::Setting(Setting::DeleteAtMost))
    } else if word == "--shard" {
        Some(Valued::Setting(Setting::Shard))
    } else if word == "--again" {
        Some(Valued::Setting(Setting::Again))
    } else {
        copying_valued_by(word)
    }
}

/// Returns the option of a verb that a word is, if it is one that a value follows.
pub(crate) fn valued_by(verb: Verb, word: &str) -> Option<Valued>
    ensures { result ≡ valued_by verb word.now }
{
    if word == "--timeout" {
        return Some(Valued::Setting(Setting::Timeout));
    }
    match verb {
        Verb::Copy => copying_valued_by(word),
        Verb::Mirror => mirror_valued_by(word),
        Verb::List | Verb::Act(_) => None,
    }
}

/// Returns the settings with the value that a word writes, or `None` if the option has no such value.
pub(crate) fn with_setting(settings: Settings, setting: Setting, word: &str) -> Option<Settings>
    ensures { result ≡ with_setting settings setting word.now }
{
    let bytes = word.as_bytes();
    let mut settings = settings;
    match setting {
        Setting::Links => {
            if word != "as-is" {
                return None;
            }
            settings.options.links_as_is = true;
        }
        Setting::Window => settings.options.window = number_in(1, 1024, bytes)?,
        Setting::Files => settings.options.files = number_in(1, 256, bytes)?,
        Setting::Limit => settings.options.limit = size_in(1, 1073741824, bytes)?,
        Setting::Timeout => settings.options.timeout = number_in(0, 86400, bytes)?,
        Setting::DeleteAtMost => settings.rules.delete_at_most = number_in(0, 1000000, bytes)?,
        Setting::Rate => settings.options.rate = size_in(0, 1073741824, bytes)?,
        Setting::Shard => settings.rules.shard = shard_in(word)?,
        Setting::Again => settings.rules.again = number_in(0, 1000, bytes)?,
    }
    Some(settings)
}

/// Returns the pattern that a word writes, or `None` if it can't be understood.
pub(crate) fn pattern_of(option: PatternOption, word: &str) -> Option<Pattern<'_>>
    ensures { option_map pattern_seen result ≡ pattern_of option word.now }
{
    match option {
        PatternOption::Exclude if is_pattern(word) => Some(Pattern::Exclude(word)),
        PatternOption::Include if is_pattern(word) => Some(Pattern::Include(word)),
        PatternOption::ExcludeFrom => Some(Pattern::ExcludeFrom(word)),
        _ => None,
    }
}

/// Returns the choices with the value that a word writes.
///
/// # Errors
///
/// `Refused` if the option has no such value, and `OutOfMemory` if an allocation fails.
pub(crate) fn with_value<'a>(
    choices: Choices<'a>,
    valued: Valued,
    word: &'a str,
) -> Result<Choices<'a>, ArgsError>
    ensures { Reads choices_seen result (with_value (choices_seen choices.entry) valued word.now) }
{
    let mut choices = choices;
    match valued {
        Valued::Setting(setting) => {
            let settings = with_setting(choices.settings, setting, word);
            choices.settings = settings.ok_or(ArgsError::Refused)?;
        }
        Valued::Pattern(option) => {
            let pattern = pattern_of(option, word).ok_or(ArgsError::Refused)?;
            choices.patterns.push(pattern)?;
        }
    }
    Ok(choices)
}

/// Returns the choices after an option that is one word.
///
/// # Errors
///
/// `Refused` if the verb has no such option or the option has no such value, and `OutOfMemory` if an allocation fails.
pub(crate) fn with_option<'a>(
    verb: Verb,
    choices: Choices<'a>,
    word: &'a str,
) -> Result<Choices<'a>, ArgsError>
    ensures { Reads choices_seen result (with_option verb (choices_seen choices.entry) word.now) }
{
    if let Some((name, value)) = word.split_once('=') {
        let valued = valued_by(verb, name).ok_or(ArgsError::Refused)?;
        return with_value(choices, valued, value);
    }
    let settings = with_flags(verb, choices.settings, word).ok_or(ArgsError::Refused)?;
    Ok(Choices {
        settings,
        ..choices
    })
}
