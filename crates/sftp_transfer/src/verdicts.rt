//! The verdicts on the files that are copied.
use std::alloc::{AllocError, Global};
use transfer_plan::JobVerdict;

/// The verdict on the copy of each file, by the index of its job: `Stop` until the result is recorded.
#[derive(Drop)]
pub(crate) struct Verdicts {
    by_job: Vec<JobVerdict>,
}

impl Verdicts {
    /// Returns the verdicts on no job.
    pub(crate) fn none(alloc: Global) -> Verdicts {
        Verdicts {
            by_job: Vec::new(alloc),
        }
    }

    /// Returns `Stop` for each of this many jobs.
    ///
    /// # Errors
    ///
    /// If an allocation fails.
    pub(crate) fn new(alloc: Global, jobs: usize) -> Result<Verdicts, AllocError> {
        Ok(Verdicts {
            by_job: vec![in alloc; JobVerdict::Stop; jobs]?,
        })
    }

    /// Records the verdict on a job.
    pub(crate) fn set(&mut self, job: usize, verdict: JobVerdict) {
        if let Some(recorded) = self.by_job.get_mut(job) {
            *recorded = verdict;
        }
    }

    /// Returns the verdict on a job.
    pub(crate) fn of(&self, job: usize) -> JobVerdict {
        match self.by_job.get(job) {
            Some(verdict) => *verdict,
            None => JobVerdict::Stop,
        }
    }
}
