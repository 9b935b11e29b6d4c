//! Removes, creates, renames and changes entries of the server.
ghost use Rattle.std.specs.Prelude.{◌≡◌};
ghost use Rattle.transfer_pool.specs.Sessions.{IsGoing};

use crate::connection::is_lost;
use crate::ended::{Reach, ended_by};
use crate::transfer_error::{TransferError, ends_all, is_starved, tell_of};
use sftp_client::Sftp;
use sftp_link::Link;
use sftp_model::FileAttrs;
use transfer_args::Act;
use transfer_plan::{Found, MAX_ENTRIES, Task, Walk, last_component};
use transfer_remote::{
    RemoteError, list_remote, make_remote_folder, make_remote_link, remote_link_metadata,
    remote_metadata, remove_remote, remove_remote_folder, rename_remote, set_remote_attrs,
};

/// A session, and how far a job over it has come.
#[derive(Drop)]
pub(crate) struct Worker<'a, L> {
    rt: &'a HostRuntime,
    pub(crate) sftp: Sftp<L>,
    /// True if everything was done so far.
    all_done: bool,
    /// True if an allocation failed.
    starved: bool,
}

/// Returns the attributes of these permissions alone.
fn only_mode(permissions: Option<u32>) -> FileAttrs {
    FileAttrs {
        size: None,
        id: None,
        permissions,
        time: None,
    }
}

/// Returns the result of a request.
fn settled(done: Result<(), RemoteError>) -> Result<(), TransferError> {
    match done {
        Ok(()) => Ok(()),
        Err(e) => Err(e.into()),
    }
}

impl<'a, L: Link> Worker<'a, L> {
    /// Returns a worker that has done nothing.
    pub(crate) fn new(rt: &'a HostRuntime, sftp: Sftp<L>) -> Worker<'a, L>
        ensures { result.sftp ≡ sftp }
    {
        Worker {
            rt,
            sftp,
            all_done: true,
            starved: false,
        }
    }

    /// Records the result of a step. A failure is reported. Returns false if nothing else can be done.
    fn record(&mut self, path: &[u8], done: Result<(), TransferError>) -> bool
        ensures { self.new.sftp ≡ self.old.sftp }
    {
        let Err(reason) = done else {
            return true;
        };
        tell_of(self.rt, path, &reason);
        self.all_done = false;
        self.starved = self.starved || is_starved(&reason);
        !ends_all(&reason) && self.sftp.core().fault().is_none()
    }

    /// Returns what is in a directory of the server, the directory first, and each directory before its entries. A
    /// directory that can't be listed is reported.
    fn entries_of(&mut self, path: &[u8]) -> Result<Vec<Found>, TransferError>
        requires { IsGoing L.LinkState.state self.old.sftp }
        ensures { IsGoing L.LinkState.state self.new.sftp }
    {
        let alloc = self.rt.alloc();
        let mut walk = Walk::new(alloc, path, b"", only_mode(None), false)?;
        for _ in 0..MAX_ENTRIES {
            if let Err(e) = list_remote(alloc, &mut self.sftp, &mut walk) {
                let reason = TransferError::from(e);
                if !self.record(walk.folder().source.as_slice(), Err(reason)) {
                    break;
                }
            }
            if !walk.go_on() {
                break;
            }
        }
        Ok(walk.into_found())
    }

    /// Removes an entry that a walk found.
    fn remove_found(&mut self, found: &Found) -> Result<(), TransferError>
        requires { IsGoing L.LinkState.state self.old.sftp }
        ensures { IsGoing L.LinkState.state self.new.sftp }
    {
        let alloc = self.rt.alloc();
        let path = found.source.as_slice();
        settled(match found.task {
            Task::MakeFolder | Task::RefuseDepth => {
                remove_remote_folder(alloc, &mut self.sftp, path)
            }
            Task::RefuseName => {
                return Err(TransferError::Refused("the name leads out of its directory"));
            }
            _ => remove_remote(alloc, &mut self.sftp, path),
        })
    }

    /// Removes a directory with everything in it. Each failure is reported. Returns false if nothing else can be done.
    fn remove_tree(&mut self, path: &[u8]) -> bool
        requires { IsGoing L.LinkState.state self.old.sftp }
        ensures { IsGoing L.LinkState.state self.new.sftp }
    {
        let entries = match self.entries_of(path) {
            Ok(entries) => entries,
            Err(reason) => return self.record(path, Err(reason)),
        };
        for found in entries.iter().rev() {
            let removed = self.remove_found(found);
            if !self.record(found.source.as_slice(), removed) {
                return false;
            }
        }
        true
    }

    /// Removes a file, a symbolic link or, with `recursive`, a directory with everything in it. Returns false if
    /// nothing else can be done.
    fn remove(&mut self, path: &[u8], recursive: bool) -> bool
        requires { IsGoing L.LinkState.state self.old.sftp }
        ensures { IsGoing L.LinkState.state self.new.sftp }
    {
        let alloc = self.rt.alloc();
        let is_directory = match remote_link_metadata(alloc, &mut self.sftp, path) {
            Ok(metadata) => metadata.file_type().is_some_and(|kind| kind.is_dir()),
            Err(e) => return self.record(path, Err(e.into())),
        };
        if !is_directory {
            let removed = settled(remove_remote(alloc, &mut self.sftp, path));
            return self.record(path, removed);
        }
        let refusal = if !recursive {
            "is a directory (use -r to remove it)"
        } else if last_component(path).is_none() {
            "not removed: the path has to end with the directory's name"
        } else {
            return self.remove_tree(path);
        };
        self.record(path, Err(TransferError::Refused(refusal)))
    }

    /// Creates a directory, or with `accepts` accepts an existing one.
    fn make_directory(&mut self, path: &[u8], accepts: bool) -> Result<(), TransferError>
        requires { IsGoing L.LinkState.state self.old.sftp }
        ensures { IsGoing L.LinkState.state self.new.sftp }
    {
        let alloc = self.rt.alloc();
        let Err(e) = make_remote_folder(alloc, &mut self.sftp, path, None) else {
            return Ok(());
        };
        if accepts {
            if let Ok(metadata) = remote_metadata(alloc, &mut self.sftp, path) {
                if metadata.file_type().is_some_and(|kind| kind.is_dir()) {
                    return Ok(());
                }
            }
        }
        Err(e.into())
    }

    /// Creates a directory, and with `parents` also those above it that are missing. Returns false if nothing else can
    /// be done.
    fn make_directories(&mut self, path: &[u8], parents: bool) -> bool
        requires { IsGoing L.LinkState.state self.old.sftp }
        ensures { IsGoing L.LinkState.state self.new.sftp }
    {
        if parents {
            for end in 1..path.len() {
                let (above, rest) = path.split_at(end);
                if rest.starts_with(b"/") && !above.ends_with(b"/") {
                    // If it can't be created, the directory itself can't either, and that is reported.
                    let _ = self.make_directory(above, true);
                }
            }
        }
        let made = self.make_directory(path, parents);
        self.record(path, made)
    }

    /// Does the work on each of these paths. Returns false if nothing else can be done.
    fn for_each(&mut self, paths: &[&str], work: Each) -> bool
        requires { IsGoing L.LinkState.state self.old.sftp }
        ensures { IsGoing L.LinkState.state self.new.sftp }
    {
        for path in paths {
            let path = path.as_bytes();
            let may_go_on = match work {
                Each::Remove { recursive } => self.remove(path, recursive),
                Each::MakeDirectories { parents } => self.make_directories(path, parents),
                Each::SetMode { mode } => {
                    let attrs = only_mode(Some(mode));
                    let set = set_remote_attrs(self.rt.alloc(), &mut self.sftp, path, attrs);
                    self.record(path, settled(set))
                }
            };
            if !may_go_on {
                return false;
            }
        }
        true
    }

    /// Does a job, and returns the result. Each failure is reported, and the other paths are worked on.
    pub(crate) fn act(&mut self, act: &Act<'_>) -> Reach
        requires { IsGoing L.LinkState.state self.old.sftp }
    {
        let alloc = self.rt.alloc();
        let done = match act {
            Act::Remove { recursive, paths } => {
                let recursive = *recursive;
                self.for_each(paths, Each::Remove { recursive })
            }
            Act::MakeDirectories { parents, paths } => {
                let parents = *parents;
                self.for_each(paths, Each::MakeDirectories { parents })
            }
            Act::SetMode { mode, paths } => {
                let mode = *mode;
                self.for_each(paths, Each::SetMode { mode })
            }
            Act::Move { from, to } => {
                let moved = rename_remote(alloc, &mut self.sftp, from.as_bytes(), to.as_bytes());
                self.record(from.as_bytes(), settled(moved))
            }
            Act::Link { text, path } => {
                let made = make_remote_link(
                    alloc,
                    &mut self.sftp,
                    text.as_bytes(),
                    path.as_bytes(),
                );
                self.record(path.as_bytes(), settled(made))
            }
        };
        let is_lost = is_lost(&mut self.sftp);
        ended_by(self.starved, is_lost, true, done && self.all_done)
    }
}

/// The work on each path of a job.
#[derive(Clone, Copy)]
enum Each {
    Remove { recursive: bool },
    MakeDirectories { parents: bool },
    SetMode { mode: u32 },
}
