//! The options of a command line.
use transfer_filter::Shard;

/// The options of a transfer, a listing or an act.
///
/// Used in `crates/sftp_transfer/src/batch.rt`.
#[derive(Clone, Copy, Debug, PartialEq, Eq)]
pub struct Options {
    /// `-l`: lists types and sizes, too.
    pub long: bool,
    /// `-r`: also copies or removes directories, with all their contents.
    pub recursive: bool,
    /// `-p` of a copy: preserves permissions and times.
    pub preserve: bool,
    /// `-q`: reports only the entries that were not copied.
    pub quiet: bool,
    /// `--progress`: reports the progress of the transfer while it runs.
    pub progress: bool,
    /// `--resume`: continues files after the bytes that an earlier run has left of them.
    pub resume: bool,
    /// `--verify`: reads files back from the server and compares them.
    pub verify: bool,
    /// `--sync`: writes files and directories through to the disk before they count as copied.
    pub sync: bool,
    /// `--links as-is`: also copies symbolic links that lead out of the tree that is copied.
    pub links_as_is: bool,
    /// `--window N`: the requests in flight for one file, from 1 to 1024.
    pub window: u32,
    /// `--files N`: the files copied at the same time, from 1 to 256.
    pub files: u32,
    /// `--in-flight BYTES`, also `--limit BYTES`: the bytes in flight for all files together, from 1 to 1073741824.
    pub limit: u32,
    /// `--rate BYTES`: the most bytes that pass over the connection in a second, up to 1073741824; 0 if there is no
    /// limit.
    pub rate: u32,
    /// `--timeout SECONDS`: the seconds after which a silent server is given up, up to 86400; 0 if it never is.
    pub timeout: u32,
}

/// The files that count as changed.
///
/// Used in `crates/transfer_args/src/flags.rt`.
#[derive(Clone, Copy, Debug, PartialEq, Eq)]
pub enum Changed {
    /// Files whose size or time is another one.
    SizeOrTime,
    /// `--size-only`: files whose size is another one.
    Size,
    /// `--always`: all files.
    Always,
}

/// The rules by which one tree is made like another one.
///
/// Used in `crates/transfer_args/src/flags.rt`.
#[derive(Clone, Copy, Debug, PartialEq, Eq)]
pub struct MirrorRules {
    /// `--size-only` or `--always`, the last one given: the files that count as changed.
    pub changed: Changed,
    /// `--update`: copies no file over one that was changed at the same time or later.
    pub update: bool,
    /// `--delete`: removes the entries of the target that the source does not have.
    pub delete: bool,
    /// `--delete-at-most N`: the most entries that may be removed, from 0 to 1000000.
    pub delete_at_most: u32,
    /// `-n` or `--dry-run`: reports the changes, and makes none.
    pub dry_run: bool,
    /// `--shard I/N`: the share of the files that is copied.
    pub shard: Shard,
    /// `--again N`: how often a lost connection is made again, from 0 to 1000.
    pub again: u32,
}

/// The options and rules of a command line.
#[derive(Clone, Copy, Debug, PartialEq, Eq)]
pub(crate) struct Settings {
    /// The options.
    pub options: Options,
    /// The rules of `push` and `pull`.
    pub rules: MirrorRules,
    /// `-p` of `mkdir`: creates the directories above, too, and accepts existing ones.
    pub parents: bool,
}

/// The verbs with options of their own.
#[derive(Clone, Copy, Debug, PartialEq, Eq)]
pub(crate) enum Verb {
    /// `get` and `put`.
    Copy,
    /// `push` and `pull`.
    Mirror,
    /// `list`.
    List,
    /// A verb of one act.
    Act(ActVerb),
}

/// The verbs of one act on the server.
#[derive(Clone, Copy, Debug, PartialEq, Eq)]
pub(crate) enum ActVerb {
    /// `remove`.
    Remove,
    /// `mkdir`.
    MakeDirectories,
    /// `move`.
    Move,
    /// `link`.
    Link,
    /// `chmod`.
    SetMode,
}

/// An option without a value.
#[derive(Clone, Copy, Debug, PartialEq, Eq)]
pub(crate) enum Flag {
    /// `-l`.
    Long,
    /// `-r`.
    Recursive,
    /// `-p` of a copy.
    Preserve,
    /// `-p` of `mkdir`.
    Parents,
    /// `-q`.
    Quiet,
    /// `--progress`.
    Progress,
    /// `--resume`.
    Resume,
    /// `--verify`.
    Verify,
    /// `--sync`.
    Sync,
    /// `--size-only` or `--always`.
    Changed(Changed),
    /// `--update`.
    Update,
    /// `--delete`.
    Delete,
    /// `-n` or `--dry-run`.
    DryRun,
}

/// An option that a value follows.
#[derive(Clone, Copy, Debug, PartialEq, Eq)]
pub(crate) enum Valued {
    /// An option of which the last value counts.
    Setting(Setting),
    /// An option of which each value counts.
    Pattern(PatternOption),
}

/// An option of which the last value counts: a number, except for `--links` and `--shard`.
#[derive(Clone, Copy, Debug, PartialEq, Eq)]
pub(crate) enum Setting {
    /// `--links`.
    Links,
    /// `--window`.
    Window,
    /// `--files`.
    Files,
    /// `--in-flight` or `--limit`.
    Limit,
    /// `--timeout`.
    Timeout,
    /// `--delete-at-most`.
    DeleteAtMost,
    /// `--rate`.
    Rate,
    /// `--shard`.
    Shard,
    /// `--again`.
    Again,
}

/// An option whose values choose entries of a tree.
#[derive(Clone, Copy, Debug, PartialEq, Eq)]
pub(crate) enum PatternOption {
    /// `--exclude`.
    Exclude,
    /// `--include`.
    Include,
    /// `--exclude-from`.
    ExcludeFrom,
}
