//! Copies of many files over one session.
ghost use Rattle.std.specs.Prelude.{◌≡◌, [], ◌∷◌, ◌++◌, length, OnOk, OnErr, IsSome};
ghost use Rattle.sftp_core.specs.Core.{Core as CoreValue};
ghost use Rattle.sftp_core.specs.Info.{info_of};
ghost use Rattle.transfer_pool.specs.Copies.{AdvancesCopies, AreTogether, CopierSteps, NextEnded, SparesAll, job_begun};
ghost use Rattle.transfer_pool.specs.Sessions.{IsGoing};

use crate::copy_job::{Copied, CopyJob, CopyState, Running};
use crate::round::turn_on;
use sftp_client::Sftp;
use sftp_core::Core;
use sftp_link::Link;
use ssh_encoding::OutOfMemory;
use std::alloc::Global;
use std::collections::VecDeque;
use std::marker::Model;
use transfer_copy::{CopyError, LocalFile, Progress};

/// The result of a step of the first copy.
///
/// Used by the functions of this module.
#[derive(Drop)]
pub enum CopierStep<F> {
    /// No copy is in progress.
    Idle,
    /// Nothing happened: the reply that the copy awaits was not taken. The copy is last now.
    Waits,
    /// The copy advanced by one step, and is last now.
    Moved,
    /// The copy has ended, and is no longer in progress.
    Ended(Copied<F>),
}

/// The progress of copies and session.
pub(crate) enum Advance<F> {
    /// They continue.
    On,
    /// A copy has ended, or none was in progress.
    Over(Option<Copied<F>>),
    /// The session was out of memory.
    Stopped(CopyError),
}

/// Copies of many files over one session, which take turns. It isn't droppable: `cancel` spends it, also after all
/// copies have ended.
///
/// Used in `crates/transfer_pool/src/jobs.rt`.
#[must_use]
pub struct Copier<F> {
    alloc: Global,
    running: VecDeque<Running<F>>,
}

impl<F> Model for Copier<F> {
    ghost use Rattle.transfer_pool.specs.Copies.{CopierValue};

    ghost Value = { CopierValue F };

    ghost view = { λ c. record { running = c.running.items } };
}

impl<F: LocalFile + Drop> Copier<F> {
    /// Returns a copier without copies.
    pub fn new(alloc: Global) -> Copier<F>
        ensures { result ≡ record { running = [] } }
    {
        Copier {
            alloc,
            running: VecDeque::new(alloc),
        }
    }

    /// Returns the number of copies in progress.
    pub fn len(&self) -> usize
        ensures { result ≡ length self.now.running }
    {
        self.running.len()
    }

    /// Starts a copy, which is the last, with at most `window` requests in flight for its bytes, and at least one.
    /// Nothing is asked yet.
    ///
    /// # Errors
    ///
    /// `OutOfMemory` if an allocation fails; the copies are unchanged, and job and file are dropped.
    pub fn begin(&mut self, job: CopyJob, local: F, window: u32) -> Result<(), OutOfMemory>
        ensures ok { OnOk result (self.new ≡ record self.old { running = self.old.running ++ record { job = job; local = local; state = job_begun job window } ∷ [] }) }
        ensures together { OnOk result ((core : CoreValue) → IsSome (info_of core.phase) → AreTogether core self.old.running → AreTogether core self.new.running) }
        ensures unchanged { OnErr result (self.new ≡ self.old) }
    {
        if self.running.reserve(1).is_err() {
            return Err(OutOfMemory);
        }
        let state = CopyState::new(self.alloc, &job, window);
        self.running
            .push_back_reserved(Running { job, local, state });
        Ok(())
    }

    /// Takes one step of the first copy, which then is last or has ended. It never waits.
    pub fn step(&mut self, core: &mut Core) -> CopierStep<F>
        requires { AreTogether core.old self.old.running }
        ensures did { CopierSteps F.LocalFile.done F.LocalFile.history core.old self.old.running core.new self.new.running result }
        ensures together { AreTogether core.new self.new.running }
    {
        let Some(first) = self.running.pop_front() else {
            return CopierStep::Idle;
        };
        let mut running = first;
        match running.step(core) {
            Progress::Waits => {
                self.running.push_back_reserved(running);
                CopierStep::Waits
            }
            Progress::Moved => {
                self.running.push_back_reserved(running);
                CopierStep::Moved
            }
            Progress::Ended(result) => CopierStep::Ended(running.end(core, result)),
        }
    }
}

impl<F: LocalFile + Drop> Copier<F> {
    /// Returns the next copy that has ended, or `None` if none is in progress. Each copy takes its turns. When each of
    /// them waits, the session sends the queued frames and takes one frame. A fault of the session ends each copy by
    /// its own step.
    ///
    /// # Errors
    ///
    /// `OutOfMemory` if the session is out of memory; the call may be repeated. `TooLong` if 18446744073709551615 steps
    /// were not enough.
    pub fn next_ended<L: Link>(
        &mut self,
        sftp: &mut Sftp<L>,
    ) -> Result<Option<Copied<F>>, CopyError>
        requires going { IsGoing L.LinkState.state sftp.old }
        requires together { AreTogether sftp.old.core self.old.running }
        ensures going { IsGoing L.LinkState.state sftp.new }
        ensures together { AreTogether sftp.new.core self.new.running }
        ensures ended { NextEnded L.LinkState.state F.LocalFile.done F.LocalFile.history (record { session = sftp.old; running = self.old.running }) (record { session = sftp.new; running = self.new.running }) result }
    {
        let mut still: usize = 0;
        for _ in 0..u64::MAX {
            match self.advance(sftp, &mut still) {
                Advance::On => {}
                Advance::Over(copied) => return Ok(copied),
                Advance::Stopped(e) => return Err(e),
            }
        }
        Err(CopyError::TooLong)
    }

    /// Takes one step of the first copy. If the number of consecutive waits equals the number of copies, the session
    /// takes a turn.
    fn advance<L: Link>(&mut self, sftp: &mut Sftp<L>, still: &mut usize) -> Advance<F>
        requires going { IsGoing L.LinkState.state sftp.old }
        requires together { AreTogether sftp.old.core self.old.running }
        ensures { AdvancesCopies L.LinkState.state F.LocalFile.done F.LocalFile.history (record { session = sftp.old; running = self.old.running }) (record { session = sftp.new; running = self.new.running }) result }
    {
        match self.step(sftp.core()) {
            CopierStep::Idle => Advance::Over(None),
            CopierStep::Ended(copied) => Advance::Over(Some(copied)),
            CopierStep::Moved => {
                *still = 0;
                Advance::On
            }
            CopierStep::Waits => {
                *still = still.saturating_add(1);
                if *still < self.len() {
                    return Advance::On;
                }
                *still = 0;
                match turn_on(sftp) {
                    Ok(()) => Advance::On,
                    Err(e) => Advance::Stopped(e),
                }
            }
        }
    }

    /// Cancels all copies in progress: replies, received or still to come, are dropped, and the handles that came or
    /// come are closed.
    pub fn cancel(self, core: &mut Core)
        requires { AreTogether core.old self.running }
        ensures { SparesAll self.running core.old core.new }
    {
        let Copier {
            alloc: _alloc,
            mut running,
        } = self;
        while let Some(copy) = running.pop_front() {
            copy.cancel(core);
        }
        running.destroy_empty();
    }
}
