//! A queue of files that are copied many at once.
ghost use Rattle.std.specs.Prelude.{◌≡◌};
ghost use Rattle.transfer_pool.specs.Jobs.{NotesOver};

use crate::copy::{Kept, Manner, copy_of, kept_attrs};
use crate::local_side::{keep_local, may_be_replaced};
use crate::system::SystemFile;
use crate::transfer_error::{
    TransferError, is_full, is_session_failure, is_starved, no_text, tell, tell_of,
};
use crate::verdicts::Verdicts;
use std::str;
use transfer_args::Direction;
use transfer_plan::{Found, JobVerdict, Tally, Task};
use transfer_pool::{Copied, CopyError, CopyJob, CopyJobs, LocalError, Wanted};

/// The number of files and bytes copied and of entries removed, and a flag that is true if an allocation failed.
#[derive(Clone, Copy)]
pub(crate) struct Totals {
    pub(crate) files: u64,
    pub(crate) bytes: u64,
    /// The entries of the target that were removed.
    pub(crate) removed: u64,
    pub(crate) starved: bool,
}

/// The files that a run is to copy: those among the jobs except the ones that the tally skips. The copy of a file
/// continues after the number of bytes at the index of its job in `starts`, and starts at 0 if there is none.
#[derive(Clone, Copy)]
pub(crate) struct Files<'a> {
    pub(crate) jobs: &'a [Found],
    pub(crate) run: &'a [u8],
    pub(crate) tally: &'a Tally,
    pub(crate) starts: &'a [u64],
}

impl<'a> Files<'a> {
    /// Returns the file that the job at an index copies, or `None` if it copies none.
    pub(crate) fn get(&self, job: usize) -> Option<&'a Found> {
        let jobs = self.jobs;
        match jobs.get(job) {
            Some(found) if found.task == Task::CopyFile && !self.tally.skips(found) => Some(found),
            _ => None,
        }
    }

    /// Returns the number of files whose jobs are at this index or after it.
    pub(crate) fn count_from(&self, first: usize) -> usize {
        let mut count: usize = 0;
        for job in first..self.jobs.len() {
            if self.get(job).is_some() {
                count = count.saturating_add(1);
            }
        }
        count
    }

    /// Returns the number of bytes after which the copy of a job continues.
    fn start(&self, job: usize) -> u64 {
        match self.starts.get(job) {
            Some(start) => *start,
            None => 0,
        }
    }
}

/// The files whose copies were not started yet, and the verdicts on those whose copies were.
#[derive(Drop)]
pub(crate) struct Batch<'a> {
    rt: &'a HostRuntime,
    manner: Manner,
    files: Files<'a>,
    /// The index of the next job.
    next: usize,
    /// True if no further copy is started.
    ended: bool,
    /// True if the failure of the session was reported.
    lost: bool,
    /// True if the progress is on a line of standard error that has no end yet.
    line: bool,
    totals: Totals,
    verdicts: Verdicts,
}

/// What a `Batch` leaves.
#[derive(Drop)]
pub(crate) struct BatchEnd {
    pub(crate) totals: Totals,
    pub(crate) verdicts: Verdicts,
    /// The index of the first job whose copy was not started.
    pub(crate) next: usize,
}

/// Gives a local file that was copied the attributes that are kept.
pub(crate) fn keep_file(
    rt: &HostRuntime,
    manner: Manner,
    found: &Found,
) -> Result<(), TransferError> {
    if manner.kept == Kept::Nothing || manner.way == Direction::Put {
        return Ok(());
    }
    match str::from_utf8(found.target.as_slice()) {
        Ok(path) => Ok(keep_local(rt, path, &kept_attrs(manner.kept, &found.attrs))?),
        Err(_) => Err(no_text()),
    }
}

/// Returns the path of the side on which a copy failed.
fn failed_path<'b>(copy: &'b CopyJob, error: &CopyError) -> &'b str {
    match (copy.way, error) {
        (Direction::Get, CopyError::Local(LocalError::Failed(_)))
        | (Direction::Put, CopyError::Remote(_)) => copy.to.as_str(),
        _ => copy.from.as_str(),
    }
}

impl<'a> Batch<'a> {
    /// Returns a queue of these files. `verdicts` has a place for each of their jobs.
    pub(crate) fn new(
        rt: &'a HostRuntime,
        manner: Manner,
        files: Files<'a>,
        totals: Totals,
        verdicts: Verdicts,
    ) -> Batch<'a> {
        Batch {
            rt,
            manner,
            files,
            next: 0,
            ended: false,
            lost: false,
            line: false,
            totals,
            verdicts,
        }
    }

    /// Returns what is left.
    pub(crate) fn into_end(self) -> BatchEnd {
        let Batch {
            totals,
            verdicts,
            next,
            ..
        } = self;
        BatchEnd {
            totals,
            verdicts,
            next,
        }
    }

    /// Ends the line of the progress, so that a message is on a line of its own.
    fn end_line(&mut self) {
        if self.line {
            let _ = eprintln!(self.rt; "");
            self.line = false;
        }
    }

    /// Reports why an entry was not done, and returns its verdict. The failure of the session is reported once. If a
    /// disk is full, no further copy is started.
    fn refuse(&mut self, path: &[u8], reason: &TransferError) -> JobVerdict {
        self.end_line();
        if is_session_failure(reason) {
            if !self.lost {
                tell(self.rt, "the session", reason);
            }
            self.lost = true;
            self.ended = true;
            return JobVerdict::Stop;
        }
        tell_of(self.rt, path, reason);
        if is_starved(reason) {
            self.totals.starved = true;
            self.ended = true;
            return JobVerdict::Stop;
        }
        self.ended = self.ended || is_full(reason);
        JobVerdict::NotDone
    }

    /// Returns the copy of a file.
    ///
    /// # Errors
    ///
    /// A `TransferError` if a path can't be used, or if what has the local target can't be replaced.
    fn job_of(&self, job: usize, found: &Found) -> Result<CopyJob, TransferError> {
        let begins_at = self.files.start(job);
        let copy = copy_of(
            self.rt.alloc(),
            self.manner,
            begins_at,
            self.files.run,
            found,
        )?;
        if self.manner.way == Direction::Get && !may_be_replaced(self.rt, copy.to.as_str()) {
            return Err(TransferError::Refused(
                "not copied: its target is neither a file nor a link to one",
            ));
        }
        Ok(copy)
    }

    /// Returns the copy of a job's file, or `None` if it can't be started; the reason is reported then.
    fn begin(&mut self, job: usize, found: &Found) -> Option<Wanted<SystemFile<'a>>> {
        match self.job_of(job, found) {
            Ok(copy) => Some(Wanted {
                local: SystemFile::new(self.rt, job, copy.mode),
                job: copy,
            }),
            Err(reason) => {
                let verdict = self.refuse(found.source.as_slice(), &reason);
                self.verdicts.set(job, verdict);
                None
            }
        }
    }

    /// Records that a file was copied, `len` bytes of it by this run. A local file is given its permissions and times
    /// if that is asked for, unless it is to be read back first.
    fn finish(&mut self, found: &Found, len: u64) -> JobVerdict {
        self.totals.files = self.totals.files.saturating_add(1);
        self.totals.bytes = self.totals.bytes.saturating_add(len);
        self.show_progress();
        if self.manner.options.verify {
            return JobVerdict::Done;
        }
        match keep_file(self.rt, self.manner, found) {
            Ok(()) => JobVerdict::Done,
            Err(reason) => self.refuse(found.source.as_slice(), &reason),
        }
    }

    /// Reports the progress of the transfer, on a line that the next report replaces.
    fn show_progress(&mut self) {
        if self.manner.options.progress && !self.manner.options.quiet {
            self.line = true;
            let _ = eprint!(self.rt;
                "\r{} files, {} bytes",
                self.totals.files, self.totals.bytes
            );
        }
    }
}

impl<'a> CopyJobs for Batch<'a> {
    type File = SystemFile<'a>;

    ghost History = { Unit {0} };

    ghost noted = { λ note history. history };

    ghost history = { λ jobs. tt };

    fn next_job(&mut self) -> Option<Wanted<SystemFile<'a>>> {
        for job in self.next..self.files.jobs.len() {
            if self.ended {
                return None;
            }
            self.next = job.saturating_add(1);
            if let Some(found) = self.files.get(job) {
                let begun = self.begin(job, found);
                if begun.is_some() {
                    return begun;
                }
            }
        }
        None
    }

    fn tell(&mut self, copied: Copied<SystemFile<'a>>)
        ensures { NotesOver {N = Unit {0}} (λ note history. history) copied.entry tt tt }
    {
        let Copied {
            job: copy,
            local,
            result,
        } = copied;
        let job = local.job();
        let jobs = self.files.jobs;
        let Some(found) = jobs.get(job) else {
            return;
        };
        let verdict = match result {
            Ok(len) => self.finish(found, len.saturating_sub(copy.begins_at)),
            Err(e) => {
                let path = failed_path(&copy, &e);
                self.refuse(path.as_bytes(), &TransferError::from(e))
            }
        };
        self.verdicts.set(job, verdict);
    }
}
