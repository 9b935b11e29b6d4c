//! The sources of a transfer, and the paths that they are copied to.
ghost use Rattle.std.specs.Prelude.{◌≡◌};
ghost use Rattle.transfer_pool.specs.Sessions.{IsGoing};

use crate::courier::Courier;
use crate::local_side::{attrs_of, kind_of};
use crate::transfer_error::{TransferError, is_starved, tell_of};
use crate::tree::{Side, Untouched};
use sftp_link::Link;
use sftp_meta::FileType;
use sftp_model::FileAttrs;
use sftp_values::ByteText;
use std::alloc::Global;
use std::fs;
use transfer_args::Direction;
use transfer_filter::{Filter, Shard};
use transfer_plan::{EntryKind, Found, Task, Walk, last_component, path_in};
use transfer_remote::remote_metadata;

/// The jobs of a transfer, and a flag that is true if each source contributed all of its own.
#[derive(Drop)]
pub(crate) struct Gathered {
    pub(crate) jobs: Vec<Found>,
    pub(crate) complete: bool,
}

/// A source, as it was found.
#[derive(Clone, Copy)]
struct Source<'a> {
    path: &'a str,
    kind: EntryKind,
    attrs: FileAttrs,
}

/// Returns the path that a source is copied to: the target, or with `into` the source's last component in it.
fn target_of(
    alloc: Global,
    source: &Source<'_>,
    target: &str,
    into: bool,
) -> Result<Vec<u8>, TransferError> {
    let name = match last_component(source.path.as_bytes()) {
        Some(name) if into => name,
        None if into && source.kind == EntryKind::File => {
            return Err(TransferError::Refused("it has no name to copy it under"));
        }
        _ => return copied(alloc, target.as_bytes()),
    };
    Ok(path_in(alloc, target.as_bytes(), name)?)
}

/// Returns a copy of a path.
pub(crate) fn copied(alloc: Global, path: &[u8]) -> Result<Vec<u8>, TransferError> {
    match Vec::from_slice(alloc, path) {
        Ok(copy) => Ok(copy),
        Err(_) => Err(TransferError::OutOfMemory),
    }
}

/// Returns the kind of a remote source, by its type; a file if the server doesn't report the type.
fn remote_kind(kind: Option<FileType>) -> EntryKind {
    match kind {
        Some(kind) if kind.is_dir() => EntryKind::Folder,
        Some(kind) if !kind.is_file() => EntryKind::Other,
        _ => EntryKind::File,
    }
}

impl<'a, L: Link> Courier<'a, L> {
    /// Looks up a source; a symbolic link is followed.
    fn look<'b>(&mut self, path: &'b str) -> Result<Source<'b>, TransferError>
        requires { IsGoing L.LinkState.state self.old.sftp }
        ensures { IsGoing L.LinkState.state self.new.sftp }
    {
        match self.manner.way {
            Direction::Get => {
                match remote_metadata(self.rt.alloc(), &mut self.sftp, path.as_bytes()) {
                    Ok(metadata) => Ok(Source {
                        path,
                        kind: remote_kind(metadata.file_type()),
                        attrs: metadata.into_inner(),
                    }),
                    Err(e) => Err(e.into()),
                }
            }
            Direction::Put => {
                let metadata = fs::metadata(self.rt, path)?;
                Ok(Source {
                    path,
                    kind: kind_of(&metadata),
                    attrs: attrs_of(&metadata),
                })
            }
        }
    }

    /// Adds the jobs of a source.
    fn gather_source(
        &mut self,
        path: &str,
        target: &str,
        into: bool,
        gathered: &mut Gathered,
    ) -> Result<(), TransferError>
        requires { IsGoing L.LinkState.state self.old.sftp }
        ensures { IsGoing L.LinkState.state self.new.sftp }
    {
        let source = self.look(path)?;
        let target = target_of(self.rt.alloc(), &source, target, into)?;
        match source.kind {
            EntryKind::File => {
                let found = Found {
                    task: Task::CopyFile,
                    depth: 0,
                    source: ByteText::new(copied(self.rt.alloc(), path.as_bytes())?),
                    target: ByteText::new(target),
                    attrs: source.attrs,
                };
                add_job(&mut gathered.jobs, found)
            }
            EntryKind::Folder if self.manner.options.recursive => {
                let alloc = self.rt.alloc();
                let texts = self.manner.way == Direction::Get;
                let walk = Walk::new(alloc, path.as_bytes(), &target, source.attrs, texts)?;
                let side = Side::source_of(self.manner.way);
                let mut filter = Filter::new(alloc);
                let whole = Shard { index: 1, count: 1 };
                let mut all = Untouched::by(&mut filter, whole);
                let tree = self.walk_tree(side, walk, &mut all, &mut gathered.complete)?;
                for found in tree {
                    add_job(&mut gathered.jobs, found)?;
                }
                Ok(())
            }
            EntryKind::Folder => Err(TransferError::Refused("is a directory (use -r to copy it)")),
            _ => Err(TransferError::Refused("not a file or a directory")),
        }
    }

    /// Returns the jobs of all sources. Returns `None` if they can't be gathered, and reports the reason.
    pub(crate) fn gather(&mut self, sources: &[&str], target: &str, into: bool) -> Option<Gathered>
        requires { IsGoing L.LinkState.state self.old.sftp }
        ensures { IsGoing L.LinkState.state self.new.sftp }
    {
        let mut gathered = Gathered {
            jobs: Vec::new(self.rt.alloc()),
            complete: true,
        };
        for path in sources {
            let path = *path;
            if let Err(reason) = self.gather_source(path, target, into, &mut gathered) {
                tell_of(self.rt, path.as_bytes(), &reason);
                gathered.complete = false;
                self.totals.starved = self.totals.starved || is_starved(&reason);
                if ends_walk(&reason) || self.sftp.core().fault().is_some() {
                    return None;
                }
            }
        }
        Some(gathered)
    }
}

/// Returns true if a walk can't continue.
pub(crate) fn ends_walk(reason: &TransferError) -> bool {
    match reason {
        TransferError::TooManyEntries => true,
        _ => is_starved(reason),
    }
}

/// Adds a job after others.
pub(crate) fn add_job(jobs: &mut Vec<Found>, found: Found) -> Result<(), TransferError> {
    match jobs.push(found) {
        Ok(()) => Ok(()),
        Err(_) => Err(TransferError::OutOfMemory),
    }
}
