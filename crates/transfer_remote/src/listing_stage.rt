//! The progress of one listing among others.
ghost use Rattle.std.specs.Prelude.{◌≡◌, false};
ghost use Rattle.plan_state.specs.Calls.{IsHeld as IsCallHeld};
ghost use Rattle.plan_state.specs.declared.poll.Poll.TheVariants.{Ready};
ghost use Rattle.sftp_fs.specs.Directories.{opening_dir};
ghost use Rattle.sftp_fs.specs.Listings.{IsListing};
ghost use Rattle.transfer_remote.specs.ListingSteps.{DropsListing, IsHeld, IsOver, LeavesStage, MayStep, OpensAs, PushesEntry, RunsListing, StepsGiven, StepsOpen, StepsRead, StepsStage, listing_on};
ghost use Rattle.transfer_remote.specs.declared.listing_stage.Stage.TheVariants as stage;

use crate::remote_error::RemoteError;
use sftp_client::{Dir, DirCall, DirEntry, Poll, ReadDir};
use sftp_core::{Core, MAX_IDS};
use sftp_model::Error;
use std::alloc::Global;
use transfer_plan::MAX_ENTRIES;

/// The most entries of a listing: as many as a walk may have, and the directory itself and its parent.
const MAX_LISTED: usize = MAX_ENTRIES + 2;

/// The number of entries at which a listing that is not the first one pauses.
const MAX_AHEAD: usize = 4096;

/// The progress of a listing.
///
/// Used by the functions of this module.
#[must_use]
pub enum Stage {
    /// The OPENDIR is in flight.
    Opening(DirCall),
    /// The directory is open, and its entries come.
    Reading(ReadDir),
    /// All entries came, and the CLOSE was queued.
    Complete,
    /// It failed for this reason. If the directory was open, its CLOSE was queued.
    Failed(RemoteError),
}

/// A listing that was begun: its progress, and the entries that have come.
///
/// Used in `crates/transfer_remote/src/listings.rt`.
#[must_use]
pub struct Listing {
    pub(crate) stage: Stage,
    pub(crate) entries: Vec<DirEntry>,
}

/// The progress of a listing after a step, and whether it may take another step at once.
#[must_use]
pub(crate) struct Step {
    stage: Stage,
    moved: bool,
}

/// Releases a listing and its directory without waiting: the CLOSE is queued, and its reply is dropped.
fn drop_listing(core: &mut Core, dir: ReadDir)
    requires { IsListing core.old dir }
    ensures { DropsListing dir core.old core.new }
{
    dir.start_close(core).cancel(core);
}

/// Ends a listing whose directory is open.
fn end_reading(core: &mut Core, dir: ReadDir, ended: Stage) -> Step
    requires listing { IsListing core.old dir }
    requires over { IsOver ended }
    ensures drops { DropsListing dir core.old core.new }
    ensures leaves { LeavesStage core.old (stage.Reading dir) core.new result.stage }
    ensures is { result ≡ record { stage = ended; moved = false } }
{
    drop_listing(core, dir);
    Step {
        stage: ended,
        moved: false,
    }
}

/// Appends an entry, if there are fewer than 1000002.
pub(crate) fn push_entry(entries: &mut Vec<DirEntry>, entry: DirEntry) -> Result<(), RemoteError>
    ensures { PushesEntry entry entries.old.items entries.new.items result }
{
    if entries.len() >= MAX_LISTED {
        return Err(RemoteError::TooManyEntries);
    }
    match entries.push(entry) {
        Ok(()) => Ok(()),
        Err(_) => Err(RemoteError::OutOfMemory),
    }
}

/// Continues with the reply to an OPENDIR: the directory is open, or the listing fails.
fn end_open(alloc: Global, core: &mut Core, call: DirCall, answer: Result<Dir, Error>) -> Step
    requires { IsCallHeld opening_dir core.old call }
    ensures { OpensAs core.old call (Ready answer) core.new result.stage result.moved }
{
    call.cancel(core);
    match answer {
        Ok(dir) => Step {
            stage: Stage::Reading(dir.read_dir(alloc)),
            moved: true,
        },
        Err(e) => Step {
            stage: Stage::Failed(e.into()),
            moved: false,
        },
    }
}

/// Polls an OPENDIR once.
fn step_open(alloc: Global, core: &mut Core, call: DirCall) -> Step
    requires { IsHeld core.old (stage.Opening call) }
    ensures { StepsOpen core.old call core.new result.stage result.moved }
{
    let mut call = call;
    match call.poll(core) {
        Poll::Pending => Step {
            stage: Stage::Opening(call),
            moved: false,
        },
        Poll::Ready(answer) => end_open(alloc, core, call, answer),
    }
}

/// Continues with the result of a poll of an open directory. An entry is appended; after the end or an error the
/// directory is closed.
fn step_given(
    core: &mut Core,
    dir: ReadDir,
    given: Option<Result<DirEntry, Error>>,
    entries: &mut Vec<DirEntry>,
) -> Step
    requires { IsListing core.old dir }
    ensures { StepsGiven core.old dir (Ready given) entries.old.items core.new result.stage entries.new.items
        result.moved }
{
    match given {
        None => end_reading(core, dir, Stage::Complete),
        Some(Ok(entry)) => match push_entry(entries, entry) {
            Ok(()) => Step {
                stage: Stage::Reading(dir),
                moved: true,
            },
            Err(e) => end_reading(core, dir, Stage::Failed(e)),
        },
        Some(Err(e)) => end_reading(core, dir, Stage::Failed(e.into())),
    }
}

/// Polls an open directory once.
fn step_read(core: &mut Core, dir: ReadDir, entries: &mut Vec<DirEntry>) -> Step
    requires { MayStep core.old (stage.Reading dir) }
    ensures { StepsRead core.old dir entries.old.items core.new result.stage entries.new.items result.moved }
{
    if core.kept() >= MAX_IDS {
        return end_reading(core, dir, Stage::Failed(RemoteError::OutOfMemory));
    }
    let mut dir = dir;
    match dir.poll_next(core) {
        Poll::Pending => Step {
            stage: Stage::Reading(dir),
            moved: false,
        },
        Poll::Ready(given) => step_given(core, dir, given, entries),
    }
}

impl Stage {
    /// Takes one step. A listing that has ended is unchanged.
    fn step(self, alloc: Global, core: &mut Core, entries: &mut Vec<DirEntry>) -> Step
        requires { MayStep core.old self }
        ensures { StepsStage core.old self entries.old.items core.new result.stage entries.new.items result.moved }
    {
        match self {
            Stage::Opening(call) => step_open(alloc, core, call),
            Stage::Reading(dir) => step_read(core, dir, entries),
            Stage::Complete => Step {
                stage: Stage::Complete,
                moved: false,
            },
            Stage::Failed(e) => Step {
                stage: Stage::Failed(e),
                moved: false,
            },
        }
    }

    /// Gives the listing up: replies that still come are dropped, and a handle that came or comes is closed.
    pub(crate) fn cancel(self, core: &mut Core)
        requires { IsHeld core.old self }
        ensures { LeavesStage core.old self core.new stage.Complete }
    {
        match self {
            Stage::Opening(call) => call.cancel(core),
            Stage::Reading(dir) => drop_listing(core, dir),
            Stage::Complete => {}
            Stage::Failed(_e) => {}
        }
    }
}

impl Listing {
    /// Takes steps until a reply is awaited or the listing has ended.
    pub(crate) fn run(self, alloc: Global, core: &mut Core) -> Listing
        requires { MayStep core.old self.stage }
        ensures { RunsListing (listing_on core.old self) (listing_on core.new result) }
    {
        let Listing { stage, entries } = self;
        let mut stage = stage;
        let mut entries = entries;
        for _ in 0..u64::MAX {
            let Step { stage: next, moved } = stage.step(alloc, core, &mut entries);
            stage = next;
            if !moved {
                return Listing { stage, entries };
            }
        }
        Listing { stage, entries }
    }

    /// Takes steps as `run` does. If the listing is not the first one, it takes none once it has 4096 entries, so that
    /// listings which are read ahead of the first one hold few.
    #[tactic(auto, using(crate::proofs::ListingLeaves::runs_none))]
    pub(crate) fn run_within(self, alloc: Global, core: &mut Core, is_first: bool) -> Listing
        requires { MayStep core.old self.stage }
        ensures { RunsListing (listing_on core.old self) (listing_on core.new result) }
    {
        if !is_first && self.entries.len() >= MAX_AHEAD {
            return self;
        }
        self.run(alloc, core)
    }

    /// Gives the listing up: replies that still come are dropped, and a handle that came or comes is closed.
    pub(crate) fn cancel(self, core: &mut Core)
        requires { IsHeld core.old self.stage }
        ensures { LeavesStage core.old self.stage core.new stage.Complete }
    {
        let Listing {
            stage,
            entries: _entries,
        } = self;
        stage.cancel(core);
    }
}
