//! The text of `--help`.
ghost use Rattle.std.specs.Prelude.{◌≡◌};
ghost use Rattle.sftp_mirror.specs.Words.{help_text};

/// Returns the text of `--help`.
#[tactic(auto, unfolding(crate::specs::Words::help_text))]
pub(crate) fn help_text() -> &'static str
    ensures { result.now ≡ help_text }
{
    "\
Usage: sftp_mirror copy WIDTH ROUNDS
       sftp_mirror unix PATH WIDTH ROUNDS [--timeout SECONDS]
       sftp_mirror --help | --version

  copy WIDTH ROUNDS
               copy the files listed on standard input, over a server in memory
  unix PATH WIDTH ROUNDS
               copy them over the SFTP server that listens on the Unix socket PATH; give
               up after SECONDS seconds without any progress, 0 to 86400; the default is
               60, and 0 is no limit
  --help       print this help
  --version    print the version

WIDTH is the number of files copied at once, 1 to 64. ROUNDS, 0 to 4096, is the number of
turns that all of them get before the rest is copied file by file. A line of the list is

  up NAME CONTENT    write a file on the server, and read it back
  down NAME BOUND    read a file with at most BOUND requests that return bytes

or a line option, server, file, dir, choice or pick of docs/SPEC.md. NAME and CONTENT are
hexadecimal, or - for no bytes.

The program writes a line copied, got, differs, givenup or refused for each file, and then,
with copy, the files and directories left on the server.

Exit status:
  0  everything was done
  1  the session failed
  2  the list or the arguments are invalid
  3  standard input failed
  4  standard output failed
  5  out of memory
  6  no server listens at PATH
"
}
