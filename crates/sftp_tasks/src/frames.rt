//! Frames that go out and come in, and their counts.
ghost use Rattle.std.specs.Prelude.{◌≡◌, ◌≤◌, ◌+◌, ◌-◌, ◌^◌, min, nat_lt, None, IfOk, IfErr, OnOk, MatchOption};
ghost use Rattle.std.specs.Option.{option_map};
ghost use Rattle.sftp_core.specs.Pieces.{chunk_bytes};
ghost use Rattle.sftp_lanes.specs.Events.{HandsOutIn, TakesIn};
ghost use Rattle.sftp_tasks.specs.SessionEvents.{HandsUnsent, MayTakeCalls, RefusesCall, TakeStops};

use crate::locked::Locked;
use link_frames::refused;
use sftp_core::Chunk;
use sftp_model::{Error, Fault, FrameError, Reply};
use ssh_encoding::OutOfMemory;

/// The frames that were handed out, and how many they are.
///
/// Used in `crates/sftp_tasks/src/hello.rt`.
#[derive(Drop)]
pub struct Handed {
    pub chunk: Chunk,
    pub frames: u64,
}

impl Locked {
    /// Returns the frames to send next, the hello first, or `None` if nothing is unsent, and while a reply of the
    /// opening is awaited. They are counted as handed out.
    ///
    /// # Errors
    ///
    /// Those of `step`.
    pub fn hand_out(&mut self) -> Result<Option<Handed>, Error>
        ensures rest { self.new ≡ record self.old { session = self.new.session; counts = record self.old.counts { handed = self.new.counts.handed } } }
        ensures hands_out { IfOk result (λ handed. HandsOutIn self.old.session.phase self.old.session self.new.session (option_map (λ h. chunk_bytes h.chunk) handed)) }
        ensures counts { IfOk result (λ handed. MatchOption handed (self.new.counts.handed ≡ self.old.counts.handed)
            (λ h. self.new.counts.handed ≡ self.old.counts.handed + h.frames)) }
        ensures frames { IfOk result (λ handed. MatchOption handed (Unit {0})
            (λ h. HandsUnsent self.old.session h.chunk h.frames)) }
        ensures unfailed { OnOk result (MayTakeCalls self.old.session) }
        ensures refused { IfErr result (λ e. RefusesCall e self.old.session self.new.session × (self.new.counts.handed ≡ self.old.counts.handed)) }
    {
        // No `?`: it converts the error, and `refused` is about the error itself.
        match self.check() {
            Ok(()) => {}
            Err(e) => return Err(e),
        }
        let frames = u64::from(self.session.unsent());
        let Some(handed) = self.counts.handed.checked_add(frames) else {
            return Err(Error::OutOfMemory);
        };
        match self.session.hand_out() {
            Ok(Some(chunk)) => {
                self.counts.handed = handed;
                Ok(Some(Handed { chunk, frames }))
            }
            Ok(None) => Ok(None),
            Err(OutOfMemory) => Err(Error::OutOfMemory),
        }
    }

    /// Records that this many of the frames that were handed out were written whole.
    pub fn written(&mut self, frames: u64)
        ensures is { self.new ≡ record self.old { counts = record self.old.counts { written = min (self.old.counts.written + frames) (2 ^ 64 - 1) } } }
        ensures rises { self.old.counts.written ≤ self.new.counts.written }
    {
        self.counts.written = self.counts.written.saturating_add(frames);
    }

    /// Takes what was read of a frame, and counts it.
    ///
    /// # Errors
    ///
    /// The first thing that is wrong with the frame, which the session records as its fault, or `OutOfMemory` if an
    /// allocation fails or failed while the frame was read. A frame that comes before the hello was handed out is
    /// `InvalidResponse`.
    pub fn take(&mut self, read: Result<(Option<u32>, Reply), FrameError>) -> Result<(), Error>
        ensures rest { self.new ≡ record self.old { session = self.new.session; counts = record self.old.counts { taken = self.new.counts.taken } } }
        ensures takes { OnOk result (TakesIn self.old.session.phase read self.old.session self.new.session) }
        ensures counts { OnOk result ((self.new.counts.taken ≡ min (self.old.counts.taken + 1) (2 ^ 64 - 1)) × (self.old.counts.taken ≤ self.new.counts.taken)) }
        ensures unfailed { OnOk result (MayTakeCalls self.old.session) }
        ensures stops { IfErr result (λ e. TakeStops read e self.old.session self.new.session × (self.new.counts.taken ≡ self.old.counts.taken)) }
    {
        if let Some(fault) = self.session.fault() {
            return Err(Error::BackgroundTaskFailure(fault));
        }
        if !self.session.takes_frames() {
            self.session.fail(Fault::Response { id: None });
            return Err(Error::InvalidResponse { id: None });
        }
        match self.session.take_read(read) {
            Ok(()) => {
                self.counts.taken = self.counts.taken.saturating_add(1);
                Ok(())
            }
            Err(e) => Err(refused(e)),
        }
    }

    /// Returns true if fewer frames were taken than were written whole, so that one is awaited.
    ///
    /// # Errors
    ///
    /// Those of `step`.
    pub fn may_read(&self) -> Result<bool, Error>
        ensures may { IfOk result (λ may. may ≡ nat_lt self.now.counts.taken self.now.counts.written) }
        ensures unfailed { OnOk result (MayTakeCalls self.now.session) }
        ensures refused { IfErr result (λ e. RefusesCall e self.now.session self.now.session) }
    {
        // No `?`: it converts the error, and `refused` is about the error itself.
        match self.check() {
            Ok(()) => Ok(self.counts.taken < self.counts.written),
            Err(e) => Err(e),
        }
    }
}
