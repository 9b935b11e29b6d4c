//! The texts that the program writes about itself.
use crate::ended::Text;

/// Returns the text of `--help`.
fn help_text() -> &'static str {
    "\
Usage: sftp_transfer LINK get [OPTIONS] REMOTE.. LOCAL
       sftp_transfer LINK put [OPTIONS] LOCAL.. REMOTE
       sftp_transfer LINK pull [OPTIONS] REMOTE LOCAL
       sftp_transfer LINK push [OPTIONS] LOCAL REMOTE
       sftp_transfer LINK list [-l] [--timeout SECONDS] [PATH]
       sftp_transfer LINK remove [-r] | mkdir [-p] | chmod MODE [--timeout SECONDS] PATH..
       sftp_transfer LINK move FROM TO | link TEXT PATH [--timeout SECONDS]
       sftp_transfer --help | --version

Copies files and directory trees from or to an SFTP server, many files at once and with
many requests in flight for each (get, put); makes one directory like another, and copies
only what changed (pull, push); or lists, removes, creates, renames and changes entries of
the server.

LINK is one of

  ssh:PATH       the control socket of an ssh connection (ssh -fNM -S PATH HOST)
  unix:PATH      a Unix socket on which an SFTP server listens
  tcp:HOST:PORT  an SFTP server without ssh
  files:IN:OUT   two named pipes: IN carries the replies, and OUT the requests
  stdio          standard input and output

The command tilfrjon starts the ssh connection itself: tilfrjon get -r HOST:/etc/ssh copies

Options of get, put, pull and push:

  -r           copy directories with their contents; symbolic links are copied as links
               (get, put; pull and push always do)
  --links as-is  copy links of the server that lead out of the tree, too
  -p           keep permissions exactly, whatever the umask, and times
  --resume     continue files from the bytes that an earlier run left in their part files, and
               keep the part files of copies that fail
  --verify     read copied files back from the server, and compare them
  -q           report only what was not done
  --progress   report the progress on standard error
  --files N    copy N files at once, 1 to 256; the default is 32
  --window N   keep N requests in flight for each file, 1 to 1024; the default is 64
  --in-flight N  keep at most N bytes in flight for all files together, such as 64M; the
               default is 16M (also called --limit)
  --rate N     let at most N bytes pass over the connection in a second, such as 2M
  --sync       write files and their directories through to the disk
  --timeout N  give up after N seconds without any progress, 0 to 86400; the default is 60,
               and 0 is no limit
  -l           list types and sizes (list)

Options of pull and push:

  --delete     remove what only the target has
  --delete-at-most N  do nothing if more than N entries would be removed; the default is 100
  --exclude PATTERN, --include PATTERN  leave entries out, or not; the first pattern that
               matches decides, by the rules of rsync for / * ** and ?
  --exclude-from FILE  leave out what the patterns in a file match, one a line
  --size-only  copy files only if their sizes differ
  --always     copy every file
  --update     copy no file over one that is as new or newer
  --again N    if the connection is lost, try again up to N times, and continue
  --shard I/N  copy share I of N of the files; N runs share the work
  -n, --dry-run  write what would be done, and do nothing

remove -r removes directories with everything in them. mkdir -p creates the directories above,
too. move replaces a file that has the new name. MODE is an octal number, such as 755.

Options may come before and after files. Options of one letter may share a word, as in -rp,
and values may follow as in --files=8.

With get and put, if the target is a directory, or if there are several sources, each source
is copied into the target. With pull and push the entries of one directory become those of
the other, and files get the times of their sources. A file NAME is written as .NAME.RUN.part
beside it, where RUN is the number of the run, and gets its name once all its bytes have
arrived; it replaces a file of that name. Failures are reported on standard error.

Exit status:
  0  everything was done
  1  something was not done
  2  the arguments are invalid
  3  the local side failed before anything was done
  5  out of memory
  6  no server could be reached at LINK
  7  something was not done, because the connection to the server was lost
"
}

/// Returns the text of `--version`.
fn version_text() -> &'static str {
    "tilfrjon 0.1.0\n"
}

/// Returns the content of a text.
pub(crate) fn written(text: Text) -> &'static str {
    match text {
        Text::Help => help_text(),
        Text::Version => version_text(),
    }
}
