//! The schedule of the lanes and rounds that copy files, by the arguments of the command line.
ghost use Rattle.std.specs.Prelude.{◌≡◌, map, IfOk, IfSome};
ghost use Rattle.std.specs.Option.{option_map};
ghost use Rattle.std.specs.String.{string_bytes};
ghost use Rattle.program_shell.specs.Servers.{server_seen};
ghost use Rattle.sftp_mirror.specs.Words.{IsSchedule, copy_of, schedule_in, unix_of};

use program_shell::{ServerAt, server_at};
use script_grammar::{Reason, number_in};

/// The most lanes that copy.
const MAX_WIDTH: u64 = 64;

/// The most rounds.
const MAX_ROUNDS: u64 = 4096;

/// The number of lanes over which files are spread, and the number of rounds of turns before the rest is done.
///
/// Used in `crates/sftp_mirror/src/reply.rt`.
#[derive(Clone, Copy, Debug, PartialEq, Eq)]
pub struct Schedule {
    /// The number of lanes that copy, from 1 to 64.
    pub width: u32,
    /// The number of rounds, up to 4096.
    pub rounds: u32,
}

/// Returns two numbers, each within its range.
fn schedule_in(width: &[u8], rounds: &[u8]) -> Result<Schedule, Reason>
    ensures value { result ≡ schedule_in width.now rounds.now }
    ensures ranges { IfOk result IsSchedule }
{
    let width = number_in(1, MAX_WIDTH, width)?;
    let rounds = number_in(0, MAX_ROUNDS, rounds)?;
    Ok(Schedule {
        width: width as u32,
        rounds: rounds as u32,
    })
}

/// Returns the schedule, if the arguments are `copy` and two permitted numbers.
pub(crate) fn copy_schedule(words: &[String]) -> Option<Schedule>
    ensures value { result ≡ copy_of (map string_bytes words.now) }
    ensures ranges { IfSome result IsSchedule }
{
    match words {
        [word, width, rounds] => {
            if word.as_str() == "copy" {
                schedule_in(width.as_bytes(), rounds.as_bytes()).ok()
            } else {
                None
            }
        }
        _ => None,
    }
}

/// Returns the schedule and the server, if the arguments are `unix`, a path, two permitted numbers, and possibly
/// `--timeout` with a permitted number.
pub(crate) fn unix_schedule(words: &[String]) -> Option<(Schedule, ServerAt<'_>)>
    ensures value { option_map (λ unix. (unix.0, server_seen unix.1)) result ≡ unix_of (map string_bytes words.now) }
    ensures ranges { IfSome result (λ unix. IsSchedule unix.0) }
{
    match words {
        [word, path, width, rounds, rest @ ..] => {
            if word.as_str() != "unix" {
                return None;
            }
            let schedule = schedule_in(width.as_bytes(), rounds.as_bytes()).ok()?;
            let server = server_at(path.as_str(), rest)?;
            Some((schedule, server))
        }
        _ => None,
    }
}
