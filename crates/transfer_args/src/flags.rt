//! The options without a value.
ghost use Rattle.std.specs.Prelude.{◌≡◌};
ghost use Rattle.transfer_args.specs.Words.{copying_flag_of_word, flag_of_letter, flag_of_word, mirror_flag_of_word, plain_settings, with_flag, with_flags, with_letters};

use crate::options::{ActVerb, Changed, Flag, MirrorRules, Options, Settings, Verb};
use transfer_filter::Shard;

/// Returns the settings of a command line without options.
pub(crate) fn plain_settings() -> Settings
    ensures { result ≡ plain_settings }
{
    let options = Options {
        long: false,
        recursive: false,
        preserve: false,
        quiet: false,
        progress: false,
        resume: false,
        verify: false,
        sync: false,
        links_as_is: false,
        window: 64,
        files: 32,
        limit: 16777216,
        rate: 0,
        timeout: 60,
    };
    let rules = MirrorRules {
        changed: Changed::SizeOrTime,
        update: false,
        delete: false,
        delete_at_most: 100,
        dry_run: false,
        shard: Shard { index: 1, count: 1 },
        again: 0,
    };
    Settings {
        options,
        rules,
        parents: false,
    }
}

/// Returns the settings with this option.
fn with_flag(settings: Settings, flag: Flag) -> Settings
    ensures { result ≡ with_flag settings flag }
{
    let mut settings = settings;
    match flag {
        Flag::Long => settings.options.long = true,
        Flag::Recursive => settings.options.recursive = true,
        Flag::Preserve => settings.options.preserve = true,
        Flag::Quiet => settings.options.quiet = true,
        Flag::Progress => settings.options.progress = true,
        Flag::Resume => settings.options.resume = true,
        Flag::Verify => settings.options.verify = true,
        Flag::Sync => settings.options.sync = true,
        Flag::Changed(changed) => settings.rules.changed = changed,
        Flag::Update => settings.rules.update = true,
        Flag::Delete => settings.rules.delete = true,
        Flag::DryRun => settings.rules.dry_run = true,
        Flag::Parents => settings.parents = true,
    }
    settings
}

/// Returns the option of a verb that a letter is.
fn flag_of_letter(verb: Verb, letter: u8) -> Option<Flag>
    ensures { result ≡ flag_of_letter verb letter }
{
    match (verb, letter) {
        (Verb::List, b'l') => Some(Flag::Long),
        (Verb::Copy | Verb::Act(ActVerb::Remove), b'r') => Some(Flag::Recursive),
        (Verb::Act(ActVerb::MakeDirectories), b'p') => Some(Flag::Parents),
        (Verb::Mirror, b'n') => Some(Flag::DryRun),
        (Verb::Copy | Verb::Mirror, b'p') => Some(Flag::Preserve),
        (Verb::Copy | Verb::Mirror, b'q') => Some(Flag::Quiet),
        _ => None,
    }
}

/// Returns the settings after the letters of one word, or `None` if one of them is no option of the verb.
fn with_letters(verb: Verb, settings: Settings, letters: &[u8]) -> Option<Settings>
    ensures { result ≡ with_letters verb settings letters.now }
{
    let mut settings = settings;
    let mut rest = letters;
    while let [letter, later @ ..] = rest {
        settings = with_flag(settings, flag_of_letter(verb, *letter)?);
        rest = later;
    }
    Some(settings)
}

/// Returns the option of all verbs that copy that a word is.
fn copying_flag_of_word(word: &str) -> Option<Flag>
    ensures { result ≡ copying_flag_of_word word.now }
{
    if word == "--progress" {
        Some(Flag::Progress)
    } else if word == "--resume" {
        Some(Flag::Resume)
    } else if word == "--verify" {
        Some(Flag::Verify)
    } else if word == "--sync" {
        Some(Flag::Sync)
    } else {
        None
    }
}

/// Returns the option of `push` and `pull` that a word is.
fn mirror_flag_of_word(word: &str) -> Option<Flag>
    ensures { result ≡ mirror_flag_of_word word.now }
{
    if word == "--size-only" {
        Some(Flag::Changed(Changed::Size))
    } else if word == "--always" {
        Some(Flag::Changed(Changed::Always))
    } else if word == "--update" {
        Some(Flag::Update)
    } else if word == "--delete" {
        Some(Flag::Delete)
    } else if word == "--dry-run" {
        Some(Flag::DryRun)
    } else {
        copying_flag_of_word(word)
    }
}

/// Returns the option of a verb that a word is.
fn flag_of_word(verb: Verb, word: &str) -> Option<Flag>
    ensures { result ≡ flag_of_word verb word.now }
{
    match verb {
        Verb::Copy => copying_flag_of_word(word),
        Verb::Mirror => mirror_flag_of_word(word),
        Verb::List | Verb::Act(_) => None,
    }
}

/// Returns the settings after a word of letters or a name, or `None` if the verb has no such option.
pub(crate) fn with_flags(verb: Verb, settings: Settings, word: &str) -> Option<Settings>
    ensures { result ≡ with_flags verb settings word.now }
{
    match word.as_bytes() {
        [_, b'-', ..] => Some(with_flag(settings, flag_of_word(verb, word)?)),
        [_, letters @ ..] if !letters.is_empty() => with_letters(verb, settings, letters),
        _ => None,
    }
}
