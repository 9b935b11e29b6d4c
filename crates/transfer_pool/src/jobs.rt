//! A list of files that are copied, several at once.
ghost use Rattle.std.specs.Prelude.{max};
ghost use Rattle.transfer_pool.specs.Copies.{AreTogether};
ghost use Rattle.transfer_pool.specs.Jobs.{BeginsJob, JobNote, JobTurned, JobsDone, NotesJob, NotesOver, TellsNext, jobs_at};
ghost use Rattle.transfer_pool.specs.Sessions.{IsGoing};
ghost use Rattle.transfer_pool.specs.Told.{CopiesAll};

use crate::copier::Copier;
use crate::copy_job::{Copied, CopyJob};
use sftp_client::Sftp;
use sftp_link::Link;
use ssh_encoding::OutOfMemory;
use std::alloc::Global;
use transfer_copy::{CopyError, LocalFile};

/// A file to copy, and its local file, on which nothing was done.
///
/// Example: `crates/sftp_transfer/src/batch.rt`.
#[derive(Drop)]
pub struct Wanted<F> {
    pub job: CopyJob,
    pub local: F,
}

/// The files to copy, and the receiver of their results.
///
/// Example: `crates/sftp_transfer/src/batch.rt`.
pub trait CopyJobs {
    /// The local files.
    type File: LocalFile + Drop;

    // Records the jobs that were given and the results that were reported.
    ghost History: { Type 0 };

    // The history after another record. Code that is generic in the jobs has no other way to build it. So an equation
    // with it says that there was exactly one record, and which.
    ghost noted: { JobNote Self.File → History → History };

    ghost history: { Self → History };

    /// Returns the next file to copy, or `None` if none is left.
    fn next_job(&mut self) -> Option<Wanted<Self::File>>
        ensures { NotesJob Self.noted result (Self.history self.old) (Self.history self.new) };

    /// Reports that a file was copied, or that its copy failed.
    fn tell(&mut self, copied: Copied<Self::File>)
        ensures { NotesOver Self.noted copied (Self.history self.old) (Self.history self.new) };
}

/// The result of starting the next copy.
#[derive(Clone, Copy)]
pub(crate) enum Beginning {
    /// A copy was started.
    Begun,
    /// No job is left.
    NoJob,
    /// Out of memory.
    Short,
}

/// The result of waiting for the next copy to end.
#[derive(Drop)]
pub(crate) enum Telling {
    /// Its result was reported.
    Told,
    /// No copy is in progress.
    NoCopy,
    /// Out of memory.
    Failed(CopyError),
}

/// The progress of the jobs.
#[derive(Drop)]
pub(crate) enum JobTurn {
    /// They continue; true if there may be more of them.
    On(bool),
    /// No copy is in progress.
    Over,
    /// Out of memory.
    Stopped(CopyError),
}

/// Starts the copy of the next job.
fn begin_next<J: CopyJobs>(copier: &mut Copier<J::File>, jobs: &mut J, window: u32) -> Beginning
    ensures { BeginsJob J.noted window copier.old copier.new (J.history jobs.old) (J.history jobs.new) result }
{
    match jobs.next_job() {
        Some(wanted) => {
            let Wanted { job, local } = wanted;
            match copier.begin(job, local, window) {
                Ok(()) => Beginning::Begun,
                Err(OutOfMemory) => Beginning::Short,
            }
        }
        None => Beginning::NoJob,
    }
}

/// Copies all files, at most `files` at once and at least one, each with at most `window` requests in flight for its
/// bytes. Reports the result of each as it ends.
///
/// # Errors
///
/// A `CopyError` if an allocation fails when a copy is to start or while the session runs, or if 18446744073709551615
/// steps were not enough; the copies in progress are cancelled then.
pub fn copy_all<L: Link, J: CopyJobs>(
    alloc: Global,
    sftp: &mut Sftp<L>,
    jobs: &mut J,
    files: usize,
    window: u32,
) -> Result<(), CopyError>
    requires { IsGoing L.LinkState.state sftp.old }
    ensures going { IsGoing L.LinkState.state sftp.new }
    ensures copies { CopiesAll L.LinkState.state J.File.LocalFile.done J.File.LocalFile.history J.noted window (max files 1) sftp.old (J.history jobs.old) (J.history jobs.new) result }
{
    let mut copier = Copier::new(alloc);
    let done = run(&mut copier, sftp, jobs, files, window);
    copier.cancel(sftp.core());
    done
}

/// Reports the result of the next copy that ends.
fn tell_next<L: Link, J: CopyJobs>(
    copier: &mut Copier<J::File>,
    sftp: &mut Sftp<L>,
    jobs: &mut J,
) -> Telling
    requires going { IsGoing L.LinkState.state sftp.old }
    requires together { AreTogether sftp.old.core copier.old.running }
    ensures { TellsNext L.LinkState.state J.File.LocalFile.done J.File.LocalFile.history J.noted (record { session = sftp.old; running = copier.old.running }) (record { session = sftp.new; running = copier.new.running }) (J.history jobs.old) (J.history jobs.new) result }
{
    match copier.next_ended(sftp) {
        Ok(next) => match next {
            Some(copied) => {
                jobs.tell(copied);
                Telling::Told
            }
            None => Telling::NoCopy,
        },
        Err(e) => Telling::Failed(e),
    }
}

/// Starts copies while there is room for them, and reports the result of each, until all jobs are done. Fails only if
/// an allocation fails.
fn run<L: Link, J: CopyJobs>(
    copier: &mut Copier<J::File>,
    sftp: &mut Sftp<L>,
    jobs: &mut J,
    files: usize,
    window: u32,
) -> Result<(), CopyError>
    requires going { IsGoing L.LinkState.state sftp.old }
    requires together { AreTogether sftp.old.core copier.old.running }
    ensures going { IsGoing L.LinkState.state sftp.new }
    ensures together { AreTogether sftp.new.core copier.new.running }
    ensures done { JobsDone L.LinkState.state J.File.LocalFile.done J.File.LocalFile.history J.noted window (max files 1) (jobs_at sftp.old copier.old.running (J.history jobs.old)) sftp.new copier.new.running (J.history jobs.new) result }
{
    let most = files.max(1);
    let mut more = true;
    for _ in 0..u64::MAX {
        match job_turn(copier, sftp, jobs, more, most, window) {
            JobTurn::On(now) => more = now,
            JobTurn::Over => return Ok(()),
            JobTurn::Stopped(e) => return Err(e),
        }
    }
    Err(CopyError::TooLong)
}

/// Starts the copy of the next job if there may be one and fewer copies than `most` are in progress. Otherwise reports
/// the result of the next copy that ends.
fn job_turn<L: Link, J: CopyJobs>(
    copier: &mut Copier<J::File>,
    sftp: &mut Sftp<L>,
    jobs: &mut J,
    more: bool,
    most: usize,
    window: u32,
) -> JobTurn
    requires going { IsGoing L.LinkState.state sftp.old }
    requires together { AreTogether sftp.old.core copier.old.running }
    ensures { JobTurned L.LinkState.state J.File.LocalFile.done J.File.LocalFile.history J.noted window most (record { session = sftp.old; running = copier.old.running; more = more; notes = J.history jobs.old }) sftp.new copier.new.running (J.history jobs.new) result }
{
    if !more {
        return match tell_next(copier, sftp, jobs) {
            Telling::Told => JobTurn::On(false),
            Telling::NoCopy => JobTurn::Over,
            Telling::Failed(e) => JobTurn::Stopped(e),
        };
    }
    if copier.len() < most {
        return match begin_next(copier, jobs, window) {
            Beginning::Begun => JobTurn::On(true),
            Beginning::NoJob => JobTurn::On(false),
            Beginning::Short => JobTurn::Stopped(CopyError::OutOfMemory),
        };
    }
    match tell_next(copier, sftp, jobs) {
        Telling::Told => JobTurn::On(true),
        Telling::NoCopy => JobTurn::Over,
        Telling::Failed(e) => JobTurn::Stopped(e),
    }
}
