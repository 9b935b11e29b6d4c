//! Reads copied files back from the server, many at once, and compares them.
ghost use Rattle.std.specs.Prelude.{◌≡◌};
ghost use Rattle.transfer_pool.specs.Jobs.{NotesOver};

use crate::batch::keep_file;
use crate::compared::ComparedFile;
use crate::copy::{Manner, read_back_of};
use crate::transfer_error::{TransferError, is_session_failure, is_starved, tell, tell_of};
use crate::verdicts::Verdicts;
use transfer_plan::{Found, JobVerdict};
use transfer_pool::{Copied, CopyJobs, Wanted};

/// The copied files that were not read back yet, and the verdict on each.
#[derive(Drop)]
pub(crate) struct Checks<'a> {
    rt: &'a HostRuntime,
    manner: Manner,
    jobs: &'a [Found],
    next: usize,
    ended: bool,
    starved: bool,
    verdicts: Verdicts,
}

impl<'a> Checks<'a> {
    /// Returns the checks of all files that were copied.
    pub(crate) fn new(
        rt: &'a HostRuntime,
        manner: Manner,
        jobs: &'a [Found],
        verdicts: Verdicts,
    ) -> Checks<'a> {
        Checks {
            rt,
            manner,
            jobs,
            next: 0,
            ended: false,
            starved: false,
            verdicts,
        }
    }

    /// Returns true if an allocation failed, and the verdict on each file: `Done` only if it was read back and is the
    /// same.
    pub(crate) fn into_parts(self) -> (bool, Verdicts) {
        let Checks {
            starved,
            verdicts,
            ..
        } = self;
        (starved, verdicts)
    }

    /// Reports why a file was not compared, or that it differs, and returns its verdict. The failure of the session is
    /// reported once.
    fn refuse(&mut self, found: &Found, reason: &TransferError) -> JobVerdict {
        if is_session_failure(reason) {
            if !self.ended {
                tell(self.rt, "the session", reason);
            }
            self.ended = true;
            return JobVerdict::Stop;
        }
        tell_of(self.rt, found.source.as_slice(), reason);
        self.starved = self.starved || is_starved(reason);
        if is_starved(reason) {
            self.ended = true;
            return JobVerdict::Stop;
        }
        JobVerdict::NotDone
    }

    /// Returns the file of a job if it was copied; it isn't done as long as it isn't compared.
    fn copied(&mut self, job: usize) -> Option<&'a Found> {
        if self.verdicts.of(job) != JobVerdict::Done {
            return None;
        }
        self.verdicts.set(job, JobVerdict::Stop);
        let jobs = self.jobs;
        jobs.get(job)
    }

    /// Returns the copy that reads a job's file back, or `None` if it can't be started; the reason is reported then.
    fn begin(&mut self, job: usize, found: &Found) -> Option<Wanted<ComparedFile<'a>>> {
        match read_back_of(self.rt.alloc(), self.manner.way, found) {
            Ok(copy) => Some(Wanted {
                job: copy,
                local: ComparedFile::new(self.rt, job),
            }),
            Err(reason) => {
                let verdict = self.refuse(found, &reason);
                self.verdicts.set(job, verdict);
                None
            }
        }
    }

    /// Records that a file is the same on both sides. A local file is given its permissions and times if that is asked
    /// for.
    fn finish(&mut self, found: &Found) -> JobVerdict {
        match keep_file(self.rt, self.manner, found) {
            Ok(()) => JobVerdict::Done,
            Err(reason) => self.refuse(found, &reason),
        }
    }
}

impl<'a> CopyJobs for Checks<'a> {
    type File = ComparedFile<'a>;

    ghost History = { Unit {0} };

    ghost noted = { λ note history. history };

    ghost history = { λ jobs. tt };

    fn next_job(&mut self) -> Option<Wanted<ComparedFile<'a>>> {
        for job in self.next..self.jobs.len() {
            self.next = job.saturating_add(1);
            if let Some(found) = self.copied(job) {
                if !self.ended {
                    let begun = self.begin(job, found);
                    if begun.is_some() {
                        return begun;
                    }
                }
            }
        }
        None
    }

    fn tell(&mut self, copied: Copied<ComparedFile<'a>>)
        ensures { NotesOver {N = Unit {0}} (λ note history. history) copied.entry tt tt }
    {
        let Copied {
            job: _,
            local,
            result,
        } = copied;
        let job = local.job();
        let jobs = self.jobs;
        let Some(found) = jobs.get(job) else {
            return;
        };
        let verdict = match result {
            Ok(_) => self.finish(found),
            Err(e) => self.refuse(found, &TransferError::from(e)),
        };
        self.verdicts.set(job, verdict);
    }
}
