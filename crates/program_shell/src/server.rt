//! The server that a command line names, and the time limit of the link to it.
ghost use Rattle.std.specs.Prelude.{◌≡◌, map};
ghost use Rattle.std.specs.Duration.{as_nanos};
ghost use Rattle.std.specs.Option.{option_map};
ghost use Rattle.std.specs.String.{string_bytes};
ghost use Rattle.program_shell.specs.Servers.{nanos_in, seconds_in, server_at, server_seen};

use crate::commands::{CommandOption, Operand};
use script_grammar::number_in;
use std::time::Duration;

/// The time limit of a link if none is given, in seconds.
const DEFAULT_SECONDS: u32 = 60;

/// The greatest time limit of a link, in seconds: one day.
const MAX_SECONDS: u64 = 86400;

/// The option that sets the time limit of a link.
pub const TIMEOUT: CommandOption = CommandOption {
    word: "--timeout",
    value: Operand {
        name: "SECONDS",
        range: Some((0, MAX_SECONDS)),
    },
};

/// A server that listens on a Unix socket, and the time limit of the link to it.
///
/// Used in `crates/sftp_cli/src/main.rt`.
#[derive(Clone, Copy)]
pub struct ServerAt<'a> {
    /// The path of the socket.
    pub path: &'a str,
    /// The number of seconds after which a silent server is given up; 0 if it never is.
    pub seconds: u32,
}

impl<'a> ServerAt<'a> {
    /// Returns the time limit, or `None` if there is none.
    pub fn timeout(&self) -> Option<Duration>
        ensures { option_map as_nanos result ≡ nanos_in self.now.seconds }
    {
        if self.seconds == 0 {
            None
        } else {
            Some(Duration::from_secs(u64::from(self.seconds)))
        }
    }
}

/// Returns the time limit that the arguments after the operands of a command set.
fn seconds_in(words: &[String]) -> Option<u32>
    ensures { result ≡ seconds_in (map string_bytes words.now) }
{
    match words {
        [] => Some(DEFAULT_SECONDS),
        [word, seconds] => {
            if word.as_str() == "--timeout" {
                match number_in(0, MAX_SECONDS, seconds.as_bytes()) {
                    Ok(seconds) => Some(seconds as u32),
                    Err(_) => None,
                }
            } else {
                None
            }
        }
        _ => None,
    }
}

/// Returns the server at a path, with the time limit that the arguments after the operands of a command set: 60 seconds
/// if there are none, or the number after `--timeout`. Returns `None` if the arguments are neither.
pub fn server_at<'a>(path: &'a str, words: &[String]) -> Option<ServerAt<'a>>
    ensures { option_map server_seen result ≡ server_at path.now (map string_bytes words.now) }
{
    match seconds_in(words) {
        Some(seconds) => Some(ServerAt { path, seconds }),
        None => None,
    }
}
