//! The arguments of the command line, and the text of `--help`.
ghost use Rattle.std.specs.Prelude.{◌≡◌, map};
ghost use Rattle.std.specs.Option.{option_map};
ghost use Rattle.std.specs.String.{string_bytes};
ghost use Rattle.program_shell.specs.Servers.{server_seen};
ghost use Rattle.sftp_cli.specs.Words.{help_text, is_script, server_of};

use program_shell::{ServerAt, server_at};

/// Returns the text of `--help`.
#[tactic(auto, unfolding(crate::specs::Words::help_text))]
pub(crate) fn help_text() -> &'static str
    ensures { result.now ≡ help_text }
{
    "\
Usage: sftp_cli script
       sftp_cli unix PATH [--timeout SECONDS]
       sftp_cli bulk START LANES CALLS
       sftp_cli --help | --version

  script       run the script on standard input over a server of its files in memory
  unix PATH    run it over the SFTP server that listens on the Unix socket PATH; give up
               after SECONDS seconds without any progress, 0 to 86400; the default is 60,
               and 0 is no limit
  bulk START LANES CALLS
               run a script that is generated from three numbers, and write a summary
  --help       print this help
  --version    print the version

The program writes to standard output the frames sent and received, the outcome of each
call and, with script, the files left on the server.

Exit status:
  0  everything was done
  1  the session failed
  2  the script or the arguments are invalid
  3  standard input failed
  4  standard output failed
  5  out of memory
  6  no server listens at PATH

A script has one command per line. The command lane starts a list of calls that run one
after another; all lanes run at once. Paths and bytes are hexadecimal, or - for none.
These lines write a file and read it back:

  lane
  fs_write 61 68656c6c6f
  open 0 r 61
  read_all 0 5
  close 0

docs/sftp_cli.1 lists all commands, and docs/SPEC.md says what each of them means.
"
}

/// Returns true if the arguments are the single argument `script`.
pub(crate) fn is_script(words: &[String]) -> bool
    ensures { result ≡ is_script (map string_bytes words.now) }
{
    match words {
        [word] => word.as_str() == "script",
        _ => false,
    }
}

/// Returns the server, if the arguments are `unix`, a path, and possibly `--timeout` with a permitted number.
pub(crate) fn server_of(words: &[String]) -> Option<ServerAt<'_>>
    ensures { option_map server_seen result ≡ server_of (map string_bytes words.now) }
{
    match words {
        [word, path, rest @ ..] => {
            if word.as_str() == "unix" {
                server_at(path.as_str(), rest)
            } else {
                None
            }
        }
        _ => None,
    }
}
