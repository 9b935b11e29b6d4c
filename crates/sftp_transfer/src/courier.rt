//! Runs the jobs of a transfer over one session.
ghost use Rattle.std.specs.Prelude.{◌≡◌};
ghost use Rattle.transfer_pool.specs.Sessions.{IsGoing};

use crate::batch::{Batch, BatchEnd, Files, Totals};
use crate::copy::{Kept, Manner, folder_mode, kept_attrs};
use crate::local_side::{is_local_link, keep_local, make_local_folder, make_local_link};
use crate::run_number::RunNumber;
use crate::transfer_error::{
    TransferError, ends_all, is_starved, no_text, refusal_of, tell, tell_of,
};
use crate::verdicts::Verdicts;
use crate::verify::Checks;
use crate::window::{count_files, window_for};
use sftp_client::Sftp;
use sftp_link::Link;
use sftp_model::{Error, FileAttrs};
use std::{fs, mem, str};
use transfer_args::Direction;
use transfer_plan::{Found, Hand, JobVerdict, Tally, Task, leads_out, part_path};
use transfer_pool::{CopyError, copy_all};
use transfer_remote::{
    RemoteError, make_remote_folder, make_remote_link, read_remote_link, remote_link_metadata,
    remote_metadata, remove_remote, remove_remote_folder, rename_remote, set_remote_attrs,
};

/// The status of a request that failed for a reason that no other status says (draft-ietf-secsh-filexfer-02, section
/// 7).
const FAILURE: u32 = 4;

/// A session, and the results of the copies over it.
#[derive(Drop)]
pub(crate) struct Courier<'a, L> {
    pub(crate) rt: &'a HostRuntime,
    pub(crate) sftp: Sftp<L>,
    pub(crate) run: RunNumber,
    pub(crate) manner: Manner,
    /// True if the root of a tree is the target of the command line, so that a local symbolic link there is followed.
    pub(crate) is_root_followed: bool,
    /// True if a symbolic link replaces another one that has its name.
    pub(crate) replaces_links: bool,
    pub(crate) totals: Totals,
    pub(crate) verdicts: Verdicts,
}

/// Returns a local path as text.
pub(crate) fn text_of(path: &[u8]) -> Result<&str, TransferError> {
    match str::from_utf8(path) {
        Ok(text) => Ok(text),
        Err(_) => Err(no_text()),
    }
}

/// Returns true if the server refused a request with FAILURE.
fn is_failure(done: &Result<(), RemoteError>) -> bool {
    match done {
        Err(RemoteError::Remote(Error::SftpError { code, .. })) => *code == FAILURE,
        _ => false,
    }
}

/// Returns the path that a message on a job names: that of the entry which is changed, or that of the source.
fn at_fault(found: &Found) -> &[u8] {
    match found.task {
        Task::RemoveFile | Task::RemoveFolder | Task::SetAttributes => found.target.as_slice(),
        _ => found.source.as_slice(),
    }
}

impl<'a, L: Link> Courier<'a, L> {
    /// Creates a directory, or accepts an existing one.
    fn make_folder(&mut self, found: &Found) -> Result<(), TransferError>
        requires { IsGoing L.LinkState.state self.old.sftp }
        ensures { IsGoing L.LinkState.state self.new.sftp }
    {
        let target = found.target.as_slice();
        let mode = folder_mode(found.attrs.permissions);
        match self.manner.way {
            Direction::Get => {
                let is_followed = found.depth == 0 && self.is_root_followed;
                Ok(make_local_folder(self.rt, text_of(target)?, mode, is_followed)?)
            }
            Direction::Put => {
                let alloc = self.rt.alloc();
                let Err(e) = make_remote_folder(alloc, &mut self.sftp, target, mode) else {
                    return Ok(());
                };
                match remote_metadata(alloc, &mut self.sftp, target) {
                    Ok(metadata) if metadata.file_type().is_some_and(|kind| kind.is_dir()) => Ok(
                        (),
                    ),
                    _ => Err(e.into()),
                }
            }
        }
    }

    /// Returns the number of requests for bytes that are in flight for each of this many files.
    fn window(&mut self, files: u32) -> u32
        ensures { self.new.sftp ≡ self.old.sftp }
    {
        let len = match self.sftp.core().info() {
            Some(info) => info.read_len.max(info.write_len),
            None => 1,
        };
        window_for(
            self.manner.options.window,
            self.manner.options.limit,
            files,
            len,
        )
    }

    /// Removes a part file of this run. If that fails, it stays.
    pub(crate) fn remove_part(&mut self, part: &[u8])
        requires { IsGoing L.LinkState.state self.old.sftp }
        ensures { IsGoing L.LinkState.state self.new.sftp }
    {
        match self.manner.way {
            Direction::Get => {
                if let Ok(part) = str::from_utf8(part) {
                    let _ = fs::remove_file(self.rt, part);
                }
            }
            Direction::Put => {
                let _ = remove_remote(self.rt.alloc(), &mut self.sftp, part);
            }
        }
    }

    /// Removes the part files of the copies that were started and failed, unless a later run may continue them.
    fn remove_parts(&mut self, files: Files<'_>, started: usize)
        requires { IsGoing L.LinkState.state self.old.sftp }
        ensures { IsGoing L.LinkState.state self.new.sftp }
    {
        if self.manner.options.resume {
            return;
        }
        for job in 0..started {
            if self.manner.way == Direction::Put && self.sftp.core().fault().is_some() {
                return;
            }
            if let (Some(found), true) = (
                files.get(job),
                self.verdicts.of(job) != JobVerdict::Done,
            ) {
                if let Ok(part) = part_path(self.rt.alloc(), found.target.as_slice(), files.run) {
                    self.remove_part(&part);
                }
            }
        }
    }

    /// Reports how many of the files were not started.
    fn tell_rest(&mut self, files: Files<'_>, started: usize)
        ensures { self.new ≡ self.old }
    {
        let left = files.count_from(started);
        if left > 0 {
            let _ = eprintln!(self.rt; "sftp_transfer: {left} more files were not copied");
        }
    }

    /// Reports that files are not written through to the disk of the server, if that is asked for and it offers no way.
    fn tell_unsynced(&mut self)
        requires { IsGoing L.LinkState.state self.old.sftp }
        ensures { self.new ≡ self.old }
    {
        let manner = self.manner;
        if manner.options.sync && manner.way == Direction::Put && !self.sftp.support_fsync() {
            let _ = eprintln!(self.rt;
                "sftp_transfer: --sync: the server does not offer fsync@openssh.com: its files may not be on its disk"
            );
        }
    }

    /// Copies the files among the jobs except those that the tally skips, many at once, and keeps the result of each.
    fn copy_files(&mut self, jobs: &[Found], run: &[u8], tally: &Tally)
        requires { IsGoing L.LinkState.state self.old.sftp }
        ensures { IsGoing L.LinkState.state self.new.sftp }
    {
        let alloc = self.rt.alloc();
        let Ok(verdicts) = Verdicts::new(alloc, jobs.len()) else {
            self.tell_stop(Err(CopyError::OutOfMemory));
            return;
        };
        let count = count_files(jobs, self.manner.options.files);
        let window = self.window(count);
        let starts = self.starts(jobs, tally);
        let files = Files {
            jobs,
            run,
            tally,
            starts: starts.as_slice(),
        };
        let mut batch = Batch::new(self.rt, self.manner, files, self.totals, verdicts);
        let copied = copy_all(alloc, &mut self.sftp, &mut batch, count as usize, window);
        let BatchEnd {
            totals,
            verdicts,
            next,
        } = batch.into_end();
        self.totals = totals;
        self.verdicts = verdicts;
        self.tell_stop(copied);
        self.tell_rest(files, next);
        self.remove_parts(files, next);
        if self.manner.options.verify {
            self.verify_files(jobs, count as usize, window);
        }
    }

    /// Reads back from the server the files that were copied, many at once, compares them, and keeps the result of
    /// each.
    fn verify_files(&mut self, jobs: &[Found], files: usize, window: u32)
        requires { IsGoing L.LinkState.state self.old.sftp }
        ensures { IsGoing L.LinkState.state self.new.sftp }
    {
        let alloc = self.rt.alloc();
        let verdicts = mem::replace(&mut self.verdicts, Verdicts::none(alloc));
        let mut checks = Checks::new(self.rt, self.manner, jobs, verdicts);
        let compared = copy_all(alloc, &mut self.sftp, &mut checks, files, window);
        let (starved, verdicts) = checks.into_parts();
        self.totals.starved = self.totals.starved || starved;
        self.verdicts = verdicts;
        self.tell_stop(compared);
    }

    /// Reports that the copies stopped because an allocation failed.
    fn tell_stop(&mut self, copied: Result<(), CopyError>)
        ensures { self.new.sftp ≡ self.old.sftp }
    {
        if let Err(e) = copied {
            self.totals.starved = true;
            tell(self.rt, "the session", &TransferError::from(e));
        }
    }

    /// Creates a local symbolic link with the target of the server's, or accepts an existing one. A link that leads out
    /// of the tree is refused, unless links are copied as they are.
    fn link_down(&mut self, found: &Found) -> Result<(), TransferError>
        requires { IsGoing L.LinkState.state self.old.sftp }
        ensures { IsGoing L.LinkState.state self.new.sftp }
    {
        let names = match read_remote_link(
            self.rt.alloc(),
            &mut self.sftp,
            found.source.as_slice(),
        ) {
            Ok(names) => names,
            Err(e) => return Err(e.into()),
        };
        if !self.manner.options.links_as_is
            && leads_out(found.depth.saturating_sub(1) as usize, names.as_bytes())
        {
            return Err(TransferError::Refused(
                "skipped: the link leads out of the tree (--links as-is copies it)",
            ));
        }
        self.link_here(names.as_bytes(), found.target.as_slice())
    }

    /// Creates a local symbolic link, accepts an existing one with the same target, or replaces another link.
    fn link_here(&self, names: &[u8], path: &[u8]) -> Result<(), TransferError> {
        let (names, path) = (text_of(names)?, text_of(path)?);
        let Err(e) = make_local_link(self.rt, names, path) else {
            return Ok(());
        };
        if !self.replaces_links || !is_local_link(self.rt, path) {
            return Err(e.into());
        }
        let part = part_path(self.rt.alloc(), path.as_bytes(), self.run.as_bytes())?;
        let part = text_of(&part)?;
        make_local_link(self.rt, names, part)?;
        if let Err(e) = fs::rename(self.rt, part, path) {
            let _ = fs::remove_file(self.rt, part);
            return Err(e.into());
        }
        Ok(())
    }

    /// Returns true if the server has a symbolic link at a path with this target.
    fn has_link(&mut self, names: &[u8], path: &[u8]) -> bool
        requires { IsGoing L.LinkState.state self.old.sftp }
        ensures { IsGoing L.LinkState.state self.new.sftp }
    {
        match read_remote_link(self.rt.alloc(), &mut self.sftp, path) {
            Ok(there) => there.as_bytes() == names,
            Err(_) => false,
        }
    }

    /// Returns true if the server has a symbolic link at a path.
    fn is_remote_link(&mut self, path: &[u8]) -> bool
        requires { IsGoing L.LinkState.state self.old.sftp }
        ensures { IsGoing L.LinkState.state self.new.sftp }
    {
        match remote_link_metadata(self.rt.alloc(), &mut self.sftp, path) {
            Ok(metadata) => metadata.file_type().is_some_and(|kind| kind.is_symlink()),
            Err(_) => false,
        }
    }

    /// Replaces a symbolic link on the server by one with another target, which is created beside it and renamed. If
    /// the server refuses the rename with FAILURE, as one does that replaces nothing, the link is removed first.
    fn replace_link(&mut self, names: &[u8], path: &[u8]) -> Result<(), TransferError>
        requires { IsGoing L.LinkState.state self.old.sftp }
        ensures { IsGoing L.LinkState.state self.new.sftp }
    {
        let alloc = self.rt.alloc();
        let part = part_path(alloc, path, self.run.as_bytes())?;
        if let Err(e) = make_remote_link(alloc, &mut self.sftp, names, &part) {
            return Err(e.into());
        }
        let mut renamed = rename_remote(alloc, &mut self.sftp, &part, path);
        if is_failure(&renamed) && remove_remote(alloc, &mut self.sftp, path).is_ok() {
            renamed = rename_remote(alloc, &mut self.sftp, &part, path);
        }
        match renamed {
            Ok(()) => Ok(()),
            Err(e) => {
                let _ = remove_remote(alloc, &mut self.sftp, &part);
                Err(e.into())
            }
        }
    }

    /// Creates a symbolic link on the server with the target of the local one, accepts an existing one, or replaces
    /// another link.
    fn link_up(&mut self, found: &Found) -> Result<(), TransferError>
        requires { IsGoing L.LinkState.state self.old.sftp }
        ensures { IsGoing L.LinkState.state self.new.sftp }
    {
        let names = fs::read_link(self.rt, text_of(found.source.as_slice())?)?;
        let names = names.as_path().as_str().as_bytes();
        let target = found.target.as_slice();
        match make_remote_link(self.rt.alloc(), &mut self.sftp, names, target) {
            Ok(()) => Ok(()),
            Err(e) => {
                if self.has_link(names, target) {
                    return Ok(());
                }
                if self.replaces_links && self.is_remote_link(target) {
                    return self.replace_link(names, target);
                }
                Err(e.into())
            }
        }
    }

    /// Creates a symbolic link with the target of the one that was found, or accepts an existing one.
    fn copy_link(&mut self, found: &Found) -> Result<(), TransferError>
        requires { IsGoing L.LinkState.state self.old.sftp }
        ensures { IsGoing L.LinkState.state self.new.sftp }
    {
        match self.manner.way {
            Direction::Get => self.link_down(found),
            Direction::Put => self.link_up(found),
        }
    }

    /// Gives an entry of the target the permissions and times of the one that it was copied from.
    fn keep_attrs(&mut self, target: &[u8], attrs: &FileAttrs) -> Result<(), TransferError>
        requires { IsGoing L.LinkState.state self.old.sftp }
        ensures { IsGoing L.LinkState.state self.new.sftp }
    {
        match self.manner.way {
            Direction::Get => Ok(keep_local(
                self.rt,
                text_of(target)?,
                &kept_attrs(Kept::All, attrs),
            )?),
            Direction::Put => {
                let attrs = kept_attrs(Kept::All, attrs);
                match set_remote_attrs(self.rt.alloc(), &mut self.sftp, target, attrs) {
                    Ok(()) => Ok(()),
                    Err(e) => Err(e.into()),
                }
            }
        }
    }

    /// Removes an entry of the target, an empty directory or anything else, and counts it.
    fn remove_entry(&mut self, path: &[u8], is_directory: bool) -> Result<(), TransferError>
        requires { IsGoing L.LinkState.state self.old.sftp }
        ensures { IsGoing L.LinkState.state self.new.sftp }
    {
        let alloc = self.rt.alloc();
        match (self.manner.way, is_directory) {
            (Direction::Get, false) => fs::remove_file(self.rt, text_of(path)?)?,
            (Direction::Get, true) => fs::remove_dir(self.rt, text_of(path)?)?,
            (Direction::Put, false) => remove_remote(alloc, &mut self.sftp, path)?,
            (Direction::Put, true) => remove_remote_folder(alloc, &mut self.sftp, path)?,
        }
        self.totals.removed = self.totals.removed.saturating_add(1);
        Ok(())
    }

    /// Does a job by its task, except the copy of a file.
    fn do_task(&mut self, found: &Found) -> Result<(), TransferError>
        requires { IsGoing L.LinkState.state self.old.sftp }
        ensures { IsGoing L.LinkState.state self.new.sftp }
    {
        let target = found.target.as_slice();
        match found.task {
            Task::MakeFolder => self.make_folder(found),
            Task::CopyLink => self.copy_link(found),
            Task::RemoveFile => self.remove_entry(target, false),
            Task::RemoveFolder => self.remove_entry(target, true),
            Task::SetAttributes => self.keep_attrs(target, &found.attrs),
            _ => Err(TransferError::Refused(refusal_of(found))),
        }
    }

    /// Returns the verdict on a job, and reports the reason if it was not done.
    fn verdict_of(&mut self, path: &[u8], done: Result<(), TransferError>) -> JobVerdict
        ensures { self.new.sftp ≡ self.old.sftp }
    {
        let Err(reason) = done else {
            return JobVerdict::Done;
        };
        tell_of(self.rt, path, &reason);
        self.totals.starved = self.totals.starved || is_starved(&reason);
        if ends_all(&reason) || self.sftp.core().fault().is_some() {
            return JobVerdict::Stop;
        }
        JobVerdict::NotDone
    }

    /// Reports at the end how much was copied, if there was more than one job or the progress was reported.
    pub(crate) fn tell_end(&mut self, several: bool)
        ensures { self.new ≡ self.old }
    {
        if self.manner.options.quiet {
            return;
        }
        if self.manner.options.progress {
            let _ = eprintln!(self.rt; "");
        } else if several {
            let Totals {
                files,
                bytes,
                removed,
                ..
            } = self.totals;
            let _ = if removed > 0 {
                eprintln!(self.rt; "{files} files, {bytes} bytes, {removed} removed")
            } else {
                eprintln!(self.rt; "{files} files, {bytes} bytes")
            };
        }
    }
}

impl<'a, L: Link> Hand for Courier<'a, L> {
    ghost History = { Unit {0} };

    ghost done = { λ act history. history };

    ghost history = { λ courier. tt };

    ghost may = { λ courier. IsGoing L.LinkState.state courier.sftp };

    fn copy(&mut self, jobs: &[Found], run: &[u8], tally: &Tally) {
        if jobs.iter().any(|found| found.task == Task::CopyFile) {
            self.tell_unsynced();
            self.copy_files(jobs, run, tally);
        }
    }

    fn work(&mut self, job: usize, found: &Found) -> JobVerdict {
        if found.task == Task::CopyFile {
            return self.verdicts.of(job);
        }
        let done = self.do_task(found);
        self.verdict_of(at_fault(found), done)
    }

    fn keep(&mut self, found: &Found) -> JobVerdict {
        let done = self.keep_attrs(found.target.as_slice(), &found.attrs);
        self.verdict_of(found.target.as_slice(), done)
    }

    fn skip(&mut self, found: &Found) {
        let reason = TransferError::Refused("not copied: its directory could not be created");
        tell_of(self.rt, found.source.as_slice(), &reason);
    }
}
