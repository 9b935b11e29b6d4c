//! One copy among others.
ghost use Rattle.std.specs.Prelude.{◌≡◌, IsSome};
ghost use Rattle.sftp_core.specs.Core.{Core as CoreValue};
ghost use Rattle.sftp_core.specs.Info.{info_of};
ghost use Rattle.transfer_copy.specs.Holdings.{SparesIds, nothing_held};
ghost use Rattle.transfer_pool.specs.Copies.{StepsCopy, IsEndedAs, MayCancel, MayStepCopy, holding_of, job_begun};

use sftp_core::Core;
use sftp_model::FileAttrs;
use std::alloc::Global;
use transfer_args::Direction;
use transfer_copy::{CopyError, FileGet, FilePut, LocalFile, Progress};

/// A file to copy: it is written as `part`, and renamed to `to` when all its bytes are there.
///
/// Example: `crates/sftp_transfer/src/copy.rt`.
#[derive(Drop)]
pub struct CopyJob {
    pub way: Direction,
    pub from: String,
    pub part: String,
    pub to: String,
    /// The number of bytes that the part file has already; the copy continues after them. With 0 the part file is
    /// created, and must not exist before.
    pub begins_at: u64,
    /// The permissions with which the part file is created, if they are known; the umask of its side may remove some.
    pub mode: Option<u32>,
    /// The attributes that a file of the server is given before it is closed, if the copy is one to the server.
    pub attrs: Option<FileAttrs>,
    /// Whether the part file is written through to the disk before it is renamed; on the local side its directory is
    /// too after the rename. A server that does not offer the fsync is not asked for it.
    pub sync: bool,
}

/// The state of a copy.
///
/// Used in `crates/transfer_pool/src/copier.rt`.
#[must_use]
pub enum CopyState {
    /// A copy from the server.
    Get(FileGet),
    /// A copy to the server.
    Put(FilePut),
}

/// A copy that has not ended.
///
/// Used in `crates/transfer_pool/src/copier.rt`.
#[must_use]
pub struct Running<F> {
    pub(crate) job: CopyJob,
    pub(crate) local: F,
    pub(crate) state: CopyState,
}

/// A copy that has ended: with the number of bytes, or the reason why it failed.
///
/// Example: `crates/sftp_transfer/src/batch.rt`.
#[derive(Drop)]
pub struct Copied<F> {
    pub job: CopyJob,
    pub local: F,
    pub result: Result<u64, CopyError>,
}

impl CopyState {
    /// Returns the copy of a job, which has asked for nothing. A copy to the server creates the part file with the
    /// permissions of the job, and gives it its attributes.
    pub(crate) fn new(alloc: Global, job: &CopyJob, window: u32) -> CopyState
        ensures new { result ≡ job_begun job.now window }
        ensures may { (core : CoreValue) → IsSome (info_of core.phase) → MayStepCopy core result }
    {
        let from = job.begins_at;
        match job.way {
            Direction::Get => CopyState::Get(FileGet::new(alloc, window, from, job.sync)),
            Direction::Put => {
                CopyState::Put(FilePut::new(alloc, window, from, job.mode, job.attrs, job.sync))
            }
        }
    }

    /// Cancels the copy, or spends it after its end.
    pub(crate) fn cancel(self, core: &mut Core)
        requires { MayCancel core.old self }
        ensures { SparesIds (holding_of self) nothing_held core.old core.new }
    {
        match self {
            CopyState::Get(get) => get.cancel(core),
            CopyState::Put(put) => put.cancel(core),
        }
    }
}

impl<F: LocalFile> Running<F> {
    /// Takes one step of the copy.
    pub(crate) fn step(&mut self, core: &mut Core) -> Progress
        requires { MayStepCopy core.old self.old.state }
        ensures { StepsCopy F.done F.history core.old self.old core.new self.new result }
    {
        let from = self.job.from.as_str();
        let part = self.job.part.as_str();
        let to = self.job.to.as_str();
        match &mut self.state {
            CopyState::Get(get) => get.step(core, &mut self.local, from, part, to),
            CopyState::Put(put) => put.step(core, &mut self.local, from, part, to),
        }
    }

    /// Cancels the copy.
    pub(crate) fn cancel(self, core: &mut Core)
    where
        F: Drop,
        requires { MayStepCopy core.old self.state }
        ensures { SparesIds (holding_of self.state) nothing_held core.old core.new }
    {
        let Running {
            job: _,
            local: _,
            state,
        } = self;
        state.cancel(core);
    }

    /// Returns the result of a copy that has ended.
    pub(crate) fn end(self, core: &mut Core, outcome: Result<u64, CopyError>) -> Copied<F>
        requires { MayCancel core.old self.state }
        ensures is { IsEndedAs self outcome result }
        ensures spares { SparesIds (holding_of self.state) nothing_held core.old core.new }
    {
        let Running { job, local, state } = self;
        state.cancel(core);
        Copied {
            job,
            local,
            result: outcome,
        }
    }
}
