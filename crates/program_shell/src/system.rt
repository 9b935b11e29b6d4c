//! The arguments that the system gives a program, and the program's exit.

ghost use Rattle.std.specs.Prelude.{◌≡◌};
ghost use Rattle.std.specs.Process.{exit_status};

use crate::ending::{NO_LINK, STOPPED, cause_of};
use crate::server::ServerAt;
use ssh_encoding::OutOfMemory;
use std::env::{self, Env};
use std::io::{Eprint, ErrorKind};
use std::process::ExitCode;

/// Returns the arguments of the command line without the program's name; none if one of them is not UTF-8.
///
/// # Errors
///
/// `OutOfMemory` if an allocation fails.
pub fn words_given<R: Env + AllocGlobal>(rt: &R) -> Result<Vec<String>, OutOfMemory> {
    let mut words = Vec::new(rt.alloc());
    match env::args(rt) {
        Ok(args) => {
            for word in args.skip(1) {
                words.push(word)?;
            }
        }
        Err(error) => {
            if error.kind() == ErrorKind::OutOfMemory {
                return Err(OutOfMemory);
            }
        }
    }
    Ok(words)
}

/// Returns the exit code of a program with a status. If no answer was written whole, standard error gets the program's
/// name and the reason. If standard error fails too, the message is lost.
pub fn exit_with<R: Eprint>(rt: &R, program: &str, status: u8) -> ExitCode
    ensures { exit_status result ≡ status }
{
    if let Some(cause) = cause_of(status) {
        let _ = eprintln!(rt; "{program}: {cause}");
    }
    ExitCode::from(status)
}

/// Returns the exit code of a program whose link was to a server, and writes the reason as `exit_with` does. It names
/// the path at which no server listens. If the session failed because the server was silent, it says for how long.
pub fn exit_over<R: Eprint>(
    rt: &R,
    program: &str,
    status: u8,
    server: ServerAt<'_>,
    is_silent: bool,
) -> ExitCode
    ensures { exit_status result ≡ status }
{
    match status {
        NO_LINK => {
            let _ = eprintln!(rt; "{program}: {}: no server listens", server.path);
            ExitCode::from(status)
        }
        STOPPED if is_silent => {
            let _ = eprintln!(rt;
                "{program}: the server was silent for {} seconds",
                server.seconds
            );
            ExitCode::from(status)
        }
        _ => exit_with(rt, program, status),
    }
}
