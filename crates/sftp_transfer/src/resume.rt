//! The parts of earlier runs, and the offsets at which interrupted copies continue.
ghost use Rattle.transfer_pool.specs.Sessions.{IsGoing};

use crate::copy::resumed_at;
use crate::courier::Courier;
use sftp_link::Link;
use sftp_model::FileAttrs;
use ssh_encoding::OutOfMemory;
use std::alloc::Global;
use std::{fs, str};
use transfer_args::Direction;
use transfer_plan::{Found, Tally, Task, Walk, is_part_of, part_path, path_in};
use transfer_remote::{list_remote, remote_link_metadata, remove_remote, rename_remote};

/// A file that an earlier run may have left in a directory.
#[derive(Drop)]
struct Leftover {
    name: Vec<u8>,
    len: u64,
}

/// The files of one directory that earlier runs may have left there.
#[derive(Drop)]
struct Leftovers {
    folder: Vec<u8>,
    files: Vec<Leftover>,
}

/// Splits a path after its last slash.
fn split_name(path: &[u8]) -> (&[u8], &[u8]) {
    match path.iter().rposition(|byte| *byte == b'/') {
        Some(slash) => path.split_at(slash.saturating_add(1)),
        None => (b"", path),
    }
}

/// Returns true if an entry of a directory is a part of the file NAME in it: `.NAME.RUN.part` with the number of a run,
/// or `.NAME.part`, as earlier versions of this program named parts.
fn is_leftover(name: &[u8], entry: &[u8]) -> bool {
    let plain = match entry.strip_prefix(b".") {
        Some(rest) => rest.strip_suffix(b".part"),
        None => None,
    };
    plain == Some(name) || is_part_of(name, entry)
}

/// Returns true if a name has the form of a part's.
pub(crate) fn may_be_part(name: &[u8]) -> bool {
    name.starts_with(b".") && name.ends_with(b".part")
}

impl Leftovers {
    /// Returns the longest part of a file that has at most `size` bytes.
    fn longest(&self, name: &[u8], size: u64) -> Option<&Leftover> {
        let mut longest: Option<&Leftover> = None;
        for file in &self.files {
            if file.len <= size && is_leftover(name, &file.name) {
                match longest {
                    Some(other) if other.len >= file.len => {}
                    _ => longest = Some(file),
                }
            }
        }
        longest
    }
}

/// Adds the parts in a local directory. What can't be read is passed over.
fn list_here(rt: &HostRuntime, folder: &str, files: &mut Vec<Leftover>) {
    let Ok(entries) = fs::read_dir(rt, folder) else {
        return;
    };
    for entry in entries {
        let Ok(entry) = entry else {
            continue;
        };
        let name = entry.file_name().as_bytes();
        if !may_be_part(name) {
            continue;
        }
        let (Ok(metadata), Ok(name)) = (entry.metadata(), Vec::from_slice(rt.alloc(), name)) else {
            continue;
        };
        if metadata.is_file() {
            let len = metadata.len();
            let _ = files.push(Leftover { name, len });
        }
    }
}

/// Adds the parts among what a walk found in a directory. What there is no memory for is passed over.
fn add_parts(alloc: Global, folder_len: usize, found: &[Found], files: &mut Vec<Leftover>) {
    for entry in found {
        let path = entry.source.as_slice();
        let name = path.get(folder_len..).unwrap_or(path);
        if let (Task::CopyFile, true, Some(len)) = (
            entry.task,
            may_be_part(name),
            entry.attrs.size,
        ) {
            if let Ok(name) = Vec::from_slice(alloc, name) {
                let _ = files.push(Leftover { name, len });
            }
        }
    }
}

impl<'a, L: Link> Courier<'a, L> {
    /// Adds the parts in a directory of the server. A directory that can't be listed has none.
    fn list_there(&mut self, folder: &[u8], files: &mut Vec<Leftover>)
        requires { IsGoing L.LinkState.state self.old.sftp }
        ensures { IsGoing L.LinkState.state self.new.sftp }
    {
        let alloc = self.rt.alloc();
        let none = FileAttrs {
            size: None,
            id: None,
            permissions: None,
            time: None,
        };
        let (Ok(mut walk), Ok(prefix)) = (
            Walk::new(alloc, folder, b"", none, false),
            path_in(alloc, folder, b""),
        ) else {
            return;
        };
        if list_remote(alloc, &mut self.sftp, &mut walk).is_ok() {
            add_parts(alloc, prefix.len(), walk.found(), files);
        }
    }

    /// Returns the parts in a directory.
    fn leftovers(&mut self, folder: &[u8]) -> Result<Leftovers, OutOfMemory>
        requires { IsGoing L.LinkState.state self.old.sftp }
        ensures { IsGoing L.LinkState.state self.new.sftp }
    {
        let alloc = self.rt.alloc();
        let path: &[u8] = if folder.is_empty() { b"." } else { folder };
        let mut files = Vec::new(alloc);
        match (self.manner.way, str::from_utf8(path)) {
            (Direction::Get, Ok(path)) => list_here(self.rt, path, &mut files),
            (Direction::Get, Err(_)) => {}
            (Direction::Put, _) => self.list_there(path, &mut files),
        }
        Ok(Leftovers {
            folder: Vec::from_slice(alloc, folder)?,
            files,
        })
    }

    /// Renames a local part of an earlier run to that of this run, and returns its size. A part that is no regular file
    /// any more is removed.
    fn claim_here(&self, left: &str, part: &str) -> Option<u64> {
        fs::rename(self.rt, left, part).ok()?;
        match fs::symlink_metadata(self.rt, part) {
            Ok(metadata) if metadata.is_file() => Some(metadata.len()),
            _ => {
                let _ = fs::remove_file(self.rt, part);
                None
            }
        }
    }

    /// Renames a part of an earlier run on the server to that of this run, and returns its size. A part that is no
    /// regular file any more is removed.
    fn claim_there(&mut self, left: &[u8], part: &[u8]) -> Option<u64>
        requires { IsGoing L.LinkState.state self.old.sftp }
        ensures { IsGoing L.LinkState.state self.new.sftp }
    {
        let alloc = self.rt.alloc();
        if rename_remote(alloc, &mut self.sftp, left, part).is_err() {
            return None;
        }
        match remote_link_metadata(alloc, &mut self.sftp, part) {
            Ok(metadata) if metadata.file_type().is_some_and(|kind| kind.is_file()) => {
                metadata.len()
            }
            _ => {
                let _ = remove_remote(alloc, &mut self.sftp, part);
                None
            }
        }
    }

    /// Makes a part of an earlier run that of this run, and returns its size.
    fn claim(&mut self, left: &[u8], part: &[u8]) -> Option<u64>
        requires { IsGoing L.LinkState.state self.old.sftp }
        ensures { IsGoing L.LinkState.state self.new.sftp }
    {
        match (self.manner.way, str::from_utf8(left), str::from_utf8(part)) {
            (Direction::Put, _, _) => self.claim_there(left, part),
            (Direction::Get, Ok(left), Ok(part)) => self.claim_here(left, part),
            _ => None,
        }
    }

    /// Returns the number of bytes of its part file after which the copy of a file continues. A part file that has more
    /// bytes than the file is removed.
    fn start_of(&mut self, found: &Found, leftovers: &Leftovers) -> Result<u64, OutOfMemory>
        requires { IsGoing L.LinkState.state self.old.sftp }
        ensures { IsGoing L.LinkState.state self.new.sftp }
    {
        let alloc = self.rt.alloc();
        let target = found.target.as_slice();
        let (folder, name) = split_name(target);
        let Some(size) = found.attrs.size else {
            return Ok(0);
        };
        let Some(left) = leftovers.longest(name, size) else {
            return Ok(0);
        };
        let left = path_in(alloc, folder, &left.name)?;
        let part = part_path(alloc, target, self.run.as_bytes())?;
        let had = self.claim(&left, &part);
        let start = resumed_at(found.attrs.size, had);
        if had.is_some() && start == 0 {
            self.remove_part(&part);
        }
        Ok(start)
    }

    /// Returns the number of bytes of its part file after which each file among the jobs continues, if that is asked
    /// for. The directories of the targets are listed, and the part files of earlier runs are renamed to those of this
    /// run. Files after the last of these numbers start at 0.
    pub(crate) fn starts(&mut self, jobs: &[Found], tally: &Tally) -> Vec<u64>
        requires { IsGoing L.LinkState.state self.old.sftp }
        ensures { IsGoing L.LinkState.state self.new.sftp }
    {
        let mut starts = Vec::new(self.rt.alloc());
        if !self.manner.options.resume {
            return starts;
        }
        let mut leftovers: Option<Leftovers> = None;
        for found in jobs {
            let start = if found.task == Task::CopyFile && !tally.skips(found) {
                self.next_start(found, &mut leftovers)
            } else {
                Ok(0)
            };
            match start {
                Ok(start) if starts.push(start).is_ok() => {}
                _ => return starts,
            }
        }
        starts
    }

    /// Returns the number of bytes after which the copy of a file continues. `leftovers` are those of the directory of
    /// the file before it.
    fn next_start(
        &mut self,
        found: &Found,
        leftovers: &mut Option<Leftovers>,
    ) -> Result<u64, OutOfMemory>
        requires { IsGoing L.LinkState.state self.old.sftp }
        ensures { IsGoing L.LinkState.state self.new.sftp }
    {
        let (folder, _) = split_name(found.target.as_slice());
        let known = match leftovers {
            Some(known) => known.folder.as_slice() == folder,
            None => false,
        };
        if !known {
            *leftovers = Some(self.leftovers(folder)?);
        }
        match leftovers {
            Some(known) => self.start_of(found, known),
            None => Ok(0),
        }
    }
}
