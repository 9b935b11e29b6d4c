//! The tally of the jobs so far.
ghost use Rattle.std.specs.Prelude.{◌≡◌, ◌==◌, IfOk, OnOk};
ghost use Rattle.std.specs.List.{list_any, starts_with};
ghost use Rattle.transfer_plan.specs.Jobs.{Kept, Skipped, Worked, after_job, is_skipped, is_unmade, no_job};

use crate::hand::JobVerdict;
use crate::{Found, Task, path_in};
use sftp_values::ByteText;
use ssh_encoding::OutOfMemory;
use std::alloc::Global;
use std::marker::Model;

/// The tally of the jobs so far. A contract sees two flags and a list. The flags are true if all jobs were done, and if
/// no other can be done. The list has the directories that were not created.
///
/// Example: `crates/sftp_transfer/src/courier.rt`.
#[derive(Drop)]
pub struct Tally {
    all_done: bool,
    stopped: bool,
    unmade: Vec<ByteText>,
}

impl Model for Tally {
    ghost use Rattle.transfer_plan.specs.Jobs.{TallyValue};

    ghost Value = { TallyValue };

    ghost view = { λ t. record { all_done = t.all_done; stopped = t.stopped; unmade = t.unmade.items } };
}

/// Returns true if a path begins with one of these.
fn begins_with_any(path: &[u8], folders: &[ByteText]) -> bool
    ensures { result ≡ list_any (λ folder. starts_with ◌==◌ path.now folder) folders.now }
{
    folders
        .iter()
        .any(|folder| path.starts_with(folder.as_slice()))
}

impl Tally {
    /// Returns the tally of no job.
    pub(crate) fn new(alloc: Global) -> Tally
        ensures { result ≡ no_job }
    {
        Tally {
            all_done: true,
            stopped: false,
            unmade: Vec::new(alloc),
        }
    }

    /// Returns true if all jobs were done.
    pub fn all_done(&self) -> bool
        ensures { result ≡ self.now.all_done }
    {
        self.all_done
    }

    /// Returns true if a job ended after which no other can be done.
    pub fn stopped(&self) -> bool
        ensures { result ≡ self.now.stopped }
    {
        self.stopped
    }

    /// Returns true if an entry lies in a directory that was not created.
    pub fn skips(&self, found: &Found) -> bool
        ensures { result ≡ is_skipped self.now found.now }
    {
        begins_with_any(found.target.as_slice(), self.unmade.as_slice())
    }

    /// Returns true if a directory was not created, or lies in one that was not. Fails only if an allocation fails.
    pub(crate) fn is_unmade(&self, alloc: Global, found: &Found) -> Result<bool, OutOfMemory>
        ensures { IfOk result (λ unmade. unmade ≡ is_unmade self.now found.now) }
    {
        let folder = path_in(alloc, found.target.as_slice(), b"")?;
        Ok(begins_with_any(folder.as_slice(), self.unmade.as_slice()))
    }

    /// Records that a job was skipped.
    pub(crate) fn note_skipped(&mut self, found: &Found)
        ensures { self.new ≡ after_job (Skipped found.now) self.old }
    {
        self.all_done = false;
    }

    /// Records that a directory was given its permissions and times, or was not.
    pub(crate) fn note_kept(&mut self, found: &Found, verdict: JobVerdict)
        ensures { self.new ≡ after_job (Kept found.now verdict) self.old }
    {
        self.all_done = self.all_done && verdict == JobVerdict::Done;
        self.stopped = self.stopped || verdict == JobVerdict::Stop;
    }

    /// Records the verdict on a job. Fails only if an allocation fails: the directory that was not created isn't
    /// recorded then, and nothing is said of the tally.
    pub(crate) fn note_worked(
        &mut self,
        alloc: Global,
        found: &Found,
        verdict: JobVerdict,
    ) -> Result<(), OutOfMemory>
        ensures { OnOk result (self.new ≡ after_job (Worked found.now verdict) self.old) }
    {
        if found.task == Task::MakeFolder && verdict != JobVerdict::Done {
            let folder = path_in(alloc, found.target.as_slice(), b"")?;
            self.unmade.push(ByteText::new(folder))?;
        }
        self.all_done = self.all_done && verdict == JobVerdict::Done;
        self.stopped = self.stopped || verdict == JobVerdict::Stop;
        Ok(())
    }
}
