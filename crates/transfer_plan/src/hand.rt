//! The interface by which jobs are carried out.
ghost use Rattle.std.specs.Prelude.{◌≡◌};
ghost use Rattle.transfer_plan.specs.Apart.{FilesAreApart};
ghost use Rattle.transfer_plan.specs.Jobs.{Copied, JobAct, Kept, Skipped, Worked, files_in};

use crate::Found;
use crate::tally::Tally;

/// The result of a job.
///
/// Example: `crates/sftp_transfer/src/courier.rt`.
#[derive(Clone, Copy, Debug, PartialEq, Eq)]
pub enum JobVerdict {
    /// The job was done.
    Done,
    /// The job was not done, and the reason was reported.
    NotDone,
    /// The job was not done, and no other job can be done.
    Stop,
}

/// Carries out the jobs of a transfer, each by its task, and reports why one was not done.
///
/// Example: `crates/sftp_transfer/src/courier.rt`.
pub trait Hand {
    // Records the jobs that were carried out.
    ghost History: { Type 0 };

    // The history after another job. Code that is generic in this trait has no other way to build it. So an equation
    // with it says that there was exactly one job, and which.
    ghost done: { JobAct → History → History };

    ghost history: { Self → History };

    // The condition that each job requires and ensures.
    ghost may: { Self → Type 0 };

    /// Copies all files among the jobs that lie in no directory that was not created, many at once, in any order. The
    /// parts of the files are those of the run.
    fn copy(&mut self, jobs: &[Found], run: &[u8], tally: &Tally)
        requires may { Self.may self.old }
        requires apart { FilesAreApart jobs.now run.now }
        ensures may { Self.may self.new }
        ensures did { Self.history self.new ≡ Self.done (Copied (files_in tally.now jobs.now)) (Self.history self.old) };

    /// Does the job at an index by its task; for a file, returns the result of its copy. Skipped and refused entries are
    /// not done.
    fn work(&mut self, job: usize, found: &Found) -> JobVerdict
        requires { Self.may self.old }
        ensures may { Self.may self.new }
        ensures did { Self.history self.new ≡ Self.done (Worked found.now result) (Self.history self.old) };

    /// Gives a directory its permissions and times, after all jobs in it are done, if that is asked for.
    fn keep(&mut self, found: &Found) -> JobVerdict
        requires { Self.may self.old }
        ensures may { Self.may self.new }
        ensures did { Self.history self.new ≡ Self.done (Kept found.now result) (Self.history self.old) };

    /// Reports that a job isn't done, because a directory above it was not created.
    fn skip(&mut self, found: &Found)
        requires { Self.may self.old }
        ensures may { Self.may self.new }
        ensures did { Self.history self.new ≡ Self.done (Skipped found.now) (Self.history self.old) };
}
