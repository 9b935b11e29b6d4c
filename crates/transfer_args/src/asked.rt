//! The request that a command line makes.
ghost use Rattle.std.specs.Prelude.{◌≡◌};
ghost use Rattle.transfer_args.specs.Words.{tries_again, work_seen};

use crate::options::{MirrorRules, Options};

/// The direction in which files are copied.
///
/// Example: `crates/sftp_transfer/src/work.rt`.
#[derive(Clone, Copy, Debug, PartialEq, Eq)]
pub enum Direction {
    /// From the server.
    Get,
    /// To the server.
    Put,
}

/// The address of the server.
///
/// Used in `crates/sftp_transfer/src/terminal.rt`.
#[derive(Clone, Copy, Debug, PartialEq, Eq)]
pub enum LinkAt<'a> {
    /// A channel of the ssh connection whose control socket is at this path.
    Ssh(&'a str),
    /// The Unix socket at this path.
    Unix(&'a str),
    /// This host and port, separated by a colon.
    Tcp(&'a str),
    /// Two files, such as named pipes: the first carries the replies, and the second the requests.
    Files(&'a str, &'a str),
    /// Standard input, which carries its replies, and standard output, which carries the requests.
    Stdio,
}

/// Files to copy.
///
/// Used in `crates/transfer_args/src/parser.rt`.
#[derive(Drop)]
pub struct Transfer<'a> {
    /// The direction.
    pub way: Direction,
    /// The options of the copy.
    pub options: Options,
    /// The files to copy; with `-r` also directories.
    pub sources: Vec<&'a str>,
    /// The file or directory to copy to.
    pub target: &'a str,
}

/// A directory of the server whose names are to be written.
///
/// Used in `crates/transfer_args/src/parser.rt`.
#[derive(Clone, Copy)]
pub struct Listing<'a> {
    /// The options of the listing.
    pub options: Options,
    /// The path of the directory.
    pub path: &'a str,
}

/// A choice of entries that `push` and `pull` leave out. The first one that an entry matches decides.
///
/// Used in `crates/transfer_args/src/values.rt`.
#[derive(Clone, Copy, Debug, PartialEq, Eq)]
pub enum Pattern<'a> {
    /// `--exclude PATTERN`: leaves out the entries that match this pattern.
    Exclude(&'a str),
    /// `--include PATTERN`: keeps the entries that match this pattern.
    Include(&'a str),
    /// `--exclude-from FILE`: uses the patterns of this local file.
    ExcludeFrom(&'a str),
}

/// A tree to make like another one.
///
/// Used in `crates/transfer_args/src/parser.rt`.
#[derive(Drop)]
pub struct Mirror<'a> {
    /// The direction: `Put` is `push`, and `Get` is `pull`.
    pub way: Direction,
    /// The options of the copy.
    pub options: Options,
    /// The rules by which files are copied and removed.
    pub rules: MirrorRules,
    /// The patterns, in the order of the command line.
    pub patterns: Vec<Pattern<'a>>,
    /// The directory to read.
    pub from: &'a str,
    /// The directory to change.
    pub to: &'a str,
}

/// A single operation on the server.
///
/// Used in `crates/transfer_args/src/acts.rt`.
#[derive(Drop)]
pub enum Act<'a> {
    /// Removes files and links, and directories if `recursive` is true.
    Remove {
        /// True if directories are removed, too, with all their contents.
        recursive: bool,
        /// The paths to remove, at least one.
        paths: Vec<&'a str>,
    },
    /// Creates directories.
    MakeDirectories {
        /// True if the directories above are created, too, and existing ones are accepted.
        parents: bool,
        /// The paths of the directories, at least one.
        paths: Vec<&'a str>,
    },
    /// Renames a file or directory.
    Move {
        /// The path that exists.
        from: &'a str,
        /// The path that it gets.
        to: &'a str,
    },
    /// Creates a symbolic link.
    Link {
        /// The text of the link.
        text: &'a str,
        /// The path of the link.
        path: &'a str,
    },
    /// Sets permissions.
    SetMode {
        /// The permissions, at most 4095.
        mode: u32,
        /// The paths of the files and directories, at least one.
        paths: Vec<&'a str>,
    },
}

/// An operation on the server, with its options. No path in it is empty.
///
/// Used in `crates/transfer_args/src/acts.rt`.
#[derive(Drop)]
pub struct Job<'a> {
    /// The operation.
    pub act: Act<'a>,
    /// The options, of which only the time limit matters to all operations.
    pub options: Options,
}

/// The work that a command line asks for.
///
/// Used in `crates/sftp_transfer/src/terminal.rt`.
#[derive(Drop)]
pub enum Work<'a> {
    /// Copies files.
    Copy(Transfer<'a>),
    /// Writes the names of a directory.
    List(Listing<'a>),
    /// Makes one tree like another one.
    Mirror(Mirror<'a>),
    /// Carries out one operation on the server.
    Act(Job<'a>),
}

impl<'a> Work<'a> {
    /// Returns the seconds after which a silent server is given up; 0 if it never is.
    pub fn timeout(&self) -> u32 {
        match self {
            Work::Copy(transfer) => transfer.options.timeout,
            Work::List(listing) => listing.options.timeout,
            Work::Mirror(mirror) => mirror.options.timeout,
            Work::Act(job) => job.options.timeout,
        }
    }

    /// Returns how often a lost connection is made again.
    pub fn tries_again(&self) -> u32
        ensures { result ≡ tries_again (work_seen self.now) }
    {
        match self {
            Work::Mirror(mirror) => mirror.rules.again,
            Work::Copy(_) | Work::List(_) | Work::Act(_) => 0,
        }
    }

    /// Returns the most bytes that pass over the connection in a second; 0 if there is no limit.
    pub fn rate(&self) -> u32 {
        match self {
            Work::Copy(transfer) => transfer.options.rate,
            Work::Mirror(mirror) => mirror.options.rate,
            Work::List(_) | Work::Act(_) => 0,
        }
    }
}

/// The request of a command line: a server and the work to do there.
///
/// Used in `crates/transfer_args/src/parser.rt`.
#[derive(Drop)]
pub struct Asked<'a> {
    /// The address of the server.
    pub link: LinkAt<'a>,
    /// The work to do.
    pub work: Work<'a>,
}
