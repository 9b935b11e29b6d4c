//! The result of a run, and its exit status.
ghost use Rattle.std.specs.Prelude.{◌≡◌, ◌≤◌};
ghost use Rattle.sftp_transfer.specs.Ended.{ended_by, may_try_again, next_pause, status_of, text_of};
ghost use Rattle.std.specs.Prelude.{map};
ghost use Rattle.std.specs.String.{string_bytes};

/// The result of work over a link.
///
/// Used in `crates/sftp_transfer/src/terminal.rt`.
#[derive(Clone, Copy, Debug, PartialEq, Eq)]
pub enum Reach {
    /// Everything was done.
    Done,
    /// Something was not done, or the session failed.
    NotDone,
    /// Something was not done, because the connection to the server failed or ended.
    Lost,
    /// Out of memory.
    OutOfMemory,
    /// Nothing answers at the address.
    NoLink,
    /// Standard output failed.
    NoOutput,
}

/// A text that the program writes about itself.
///
/// Used in `crates/sftp_transfer/src/run.rt`.
#[derive(Clone, Copy, Debug, PartialEq, Eq)]
pub enum Text {
    /// Its usage.
    Help,
    /// Its version.
    Version,
}

/// The status if the command line can't be used.
pub(crate) const WORDS: u8 = 2;

/// The status if the local side failed before anything was done, or standard output failed.
pub(crate) const LOCAL: u8 = 3;

/// The status if an allocation failed.
pub(crate) const OUT_OF_MEMORY: u8 = 5;

/// The status if the connection to the server was lost.
const LOST: u8 = 7;

/// Returns the status of work over a link.
pub(crate) fn status_of(reach: Reach) -> u8
    ensures { result ≡ status_of reach }
{
    match reach {
        Reach::Done => 0,
        Reach::NotDone => 1,
        Reach::Lost => LOST,
        Reach::OutOfMemory => OUT_OF_MEMORY,
        Reach::NoLink => 6,
        Reach::NoOutput => LOCAL,
    }
}

/// Returns true if another try may succeed: the connection was lost, or no server could be reached.
pub(crate) fn may_try_again(reach: Reach) -> bool
    ensures { result ≡ may_try_again reach }
{
    match reach {
        Reach::Lost | Reach::NoLink => true,
        Reach::Done | Reach::NotDone | Reach::OutOfMemory | Reach::NoOutput => false,
    }
}

/// Returns the seconds of the pause after one of `seconds` seconds, at most 60.
pub(crate) fn next_pause(seconds: u32) -> u32
    requires { seconds ≤ 60 }
    ensures is { result ≡ next_pause seconds }
    ensures most { result ≤ 60 }
{
    if seconds <= 30 { seconds * 2 } else { 60 }
}

/// Returns the result of the jobs, where `starved` is true if an allocation failed, `lost` if the connection was lost,
/// `complete` if each source contributed all its jobs, and `all_done` if all jobs were done.
pub(crate) fn ended_by(starved: bool, lost: bool, complete: bool, all_done: bool) -> Reach
    ensures { result ≡ ended_by starved lost complete all_done }
{
    if starved {
        Reach::OutOfMemory
    } else if complete && all_done {
        Reach::Done
    } else if lost {
        Reach::Lost
    } else {
        Reach::NotDone
    }
}

/// Returns the text that the single argument `--help`, `-h`, `--version` or `-V` asks for.
pub(crate) fn text_of(words: &[String]) -> Option<Text>
    ensures { result ≡ text_of (map string_bytes words.now) }
{
    match words {
        [word] => {
            if word.as_str() == "--help" || word.as_str() == "-h" {
                Some(Text::Help)
            } else if word.as_str() == "--version" || word.as_str() == "-V" {
                Some(Text::Version)
            } else {
                None
            }
        }
        _ => None,
    }
}
