//! The text of `--help`.
ghost use Rattle.std.specs.Prelude.{◌≡◌};
ghost use Rattle.sftp_view.specs.Words.{help_text};

/// Returns the text of `--help`.
#[tactic(auto, unfolding(crate::specs::Words::help_text))]
pub(crate) fn help_text() -> &'static str
    ensures { result.now ≡ help_text }
{
    "\
Usage: sftp_view view BLOCK CAPACITY | --help | --version

  view BLOCK CAPACITY
               run the operations listed on standard input, over a server in memory
  --help       print this help
  --version    print the version

Files are read in blocks of BLOCK bytes, 1 to 65536. The CAPACITY blocks, 1 to 4096, that
were used last are kept. A line of the list is

  get NAME OFFSET LEN        read at most LEN bytes of a file, from OFFSET on
  put NAME OFFSET CONTENT    write bytes to a file at OFFSET, and create it if necessary

or a line option, server, file, dir, choice or pick of docs/SPEC.md; a choice may refuse
nothing. NAME and CONTENT are hexadecimal, or - for no bytes.

The program writes a line got, put, refused or toolong for each operation, then the number
of blocks found in the cache, hits, and not found, misses, and then the files and
directories left on the server.

Exit status:
  0  everything was done
  2  the list or the arguments are invalid
  3  standard input failed
  4  standard output failed
  5  out of memory
"
}
