//! The opening of the session by a seat, over both halves of the link, before other seats are given: it sends the
//! hello, and takes VERSION.
ghost use Rattle.std.specs.Prelude.{◌≡◌, ◌<◌, ◌≤◌, ◌-◌, ◌^◌, IfErr, IfOk, OnOk};
ghost use Rattle.session_seats.specs.Holds.{AddsEntries, claim_of};
ghost use Rattle.sftp_tasks.specs.Opening.{GetsSomeVersion, SendsHelloOnce, GreetStops, HandingHello, HelloStops, SendsHelloOrNot, TakingVersion, VersionStops, by_opening};
ghost use Rattle.sftp_tasks.specs.SessionEvents.{MayTakeCalls};

use crate::events::Written;
use crate::frames::Handed;
use crate::locked::Locked;
use crate::rounds::{read_body, stop};
use crate::shared_sftp::{Seat, SharedSftp, settle};
use link_frames::{read_frame, send_pieces};
use session_driver::Phase;
use session_seats::Event;
use sftp_link::{LinkIn, LinkOut};
use sftp_model::{Error, Fault, FrameError, Reply};
use std::sync::Wait;

impl Locked {
    /// Returns the hello if it was not handed out yet, or `None` if it was; nothing has changed then. It is counted as
    /// handed out.
    ///
    /// # Errors
    ///
    /// Those of `step`.
    pub fn hand_hello(&mut self) -> Result<Option<Handed>, Error>
        ensures rest { self.new ≡ record self.old { session = self.new.session; counts = record self.old.counts { handed = self.new.counts.handed } } }
        ensures hands { HandingHello self.old self.new result }
        ensures unfailed { OnOk result (MayTakeCalls self.old.session) }
    {
        // No `?`: it converts the error, and `hands` is by cases on the result.
        match self.session.phase() {
            Phase::Fresh => self.hand_out(),
            _ => match self.check() {
                Ok(()) => Ok(None),
                Err(e) => Err(e),
            },
        }
    }

    /// Takes what was read of VERSION, and counts it.
    ///
    /// # Errors
    ///
    /// `InvalidResponse` for a frame that comes while no VERSION is awaited; the session records that. Otherwise those
    /// of `take`.
    pub fn take_version(
        &mut self,
        read: Result<(Option<u32>, Reply), FrameError>,
    ) -> Result<(), Error>
        ensures rest { self.new ≡ record self.old { session = self.new.session; counts = record self.old.counts { taken = self.new.counts.taken } } }
        ensures takes { TakingVersion read self.old self.new result }
        ensures unfailed { OnOk result (MayTakeCalls self.old.session) }
        ensures rises { self.old.counts.taken ≤ self.new.counts.taken }
    {
        // No `?`: it converts the error, and `takes` is by cases on the result.
        match self.check() {
            Ok(()) => {}
            Err(e) => return Err(e),
        }
        match self.session.phase() {
            Phase::Greeted => self.take(read),
            _ => match self.fail(Fault::Response { id: None }) {
                Ok(()) => Err(Error::InvalidResponse { id: None }),
                Err(e) => Err(e),
            },
        }
    }
}

/// Hands the hello out, if it was not handed out yet.
///
/// Used by the functions of this module.
#[derive(Drop)]
pub struct HandHello;

impl Event<Locked, Result<Option<Handed>, Error>> for HandHello {
    ghost use Rattle.session_seats.specs.Holds.{no_allowance};
    ghost use Rattle.sftp_tasks.specs.Entries.{by_nothing};
    ghost use Rattle.sftp_tasks.specs.LockedEvents.{UnlessFault};
    ghost use Rattle.sftp_tasks.specs.Opening.{HandingHello};

    ghost only = { λ _. by_nothing };

    ghost needs = { λ _. no_allowance };

    ghost does = { λ _ lane. UnlessFault HandingHello };

    fn act(self, value: &mut Locked, lane: Option<u32>) -> Result<Option<Handed>, Error> {
        let _ = lane;
        value.hand_hello()
    }
}

/// Takes what was read of a frame, if VERSION is awaited.
///
/// Used by the functions of this module.
#[derive(Drop)]
pub struct TakeVersion {
    pub read: Result<(Option<u32>, Reply), FrameError>,
}

impl Event<Locked, Result<(), Error>> for TakeVersion {
    ghost use Rattle.session_seats.specs.Holds.{no_allowance};
    ghost use Rattle.sftp_tasks.specs.LockedEvents.{UnlessFault};
    ghost use Rattle.sftp_tasks.specs.Opening.{TakingVersion, by_opening};

    ghost only = { λ _. by_opening };

    ghost needs = { λ _. no_allowance };

    ghost does = { λ e lane. UnlessFault (TakingVersion e.read) };

    fn act(self, value: &mut Locked, lane: Option<u32>) -> Result<(), Error> {
        let _ = lane;
        let TakeVersion { read } = self;
        value.take_version(read)
    }
}

/// Sends the hello if it was not handed out yet. Returns false if it was; nothing is sent then. Errors are those of
/// `flush_round`.
fn send_hello<O: LinkOut, R: Wait>(
    rt: &R,
    shared: &SharedSftp,
    seat: &mut Seat,
    out: &mut O,
) -> Result<bool, Error>
    requires own { seat.old.inner.table_id ≡ shared.now.shared.table.shared.table_id }
    requires count { (O.LinkState.state out.old).faults < 2 ^ 64 - 1 }
    ensures own { (seat.new.inner.table_id ≡ seat.old.inner.table_id) × (seat.new.lane ≡ seat.old.lane)
        × OnOk result ((claim_of seat.old.inner.me).share ≤ (claim_of seat.new.inner.me).share) }
    ensures only { AddsEntries (by_opening seat.old.lane) (claim_of seat.old.inner.me) (claim_of seat.new.inner.me) }
    ensures sends { IfOk result (λ did. SendsHelloOrNot did seat.old.inner.me seat.new.inner.me (O.LinkState.state out.old) (O.LinkState.state out.new)) }
    ensures stops { IfErr result (λ e. HelloStops e seat.old.inner.me seat.new.inner.me (O.LinkState.state out.old) (O.LinkState.state out.new)) }
{
    // The hello is no entry of the journal, so no receipt is missing.
    let (did, _) = seat.apply(rt, shared.alloc, &shared.shared, HandHello);
    // No `?`: it converts the error, and `stops` is about the error itself.
    let Handed { chunk, frames } = match did {
        Ok(Some(handed)) => handed,
        Ok(None) => return Ok(false),
        Err(e) => return Err(e),
    };
    match send_pieces(out, chunk.pieces()) {
        Ok(()) => {}
        Err(e) => return Err(stop(rt, shared, seat, e)),
    }
    let _ = seat.apply(rt, shared.alloc, &shared.shared, Written { frames });
    Ok(true)
}

/// Receives and reads one frame without the lock, and takes it as VERSION while holding the lock. Errors are those of `read_round`.
fn take_version<I: LinkIn, R: Wait>(
    rt: &R,
    shared: &SharedSftp,
    seat: &mut Seat,
    input: &mut I,
) -> Result<(), Error>
    requires own { seat.old.inner.table_id ≡ shared.now.shared.table.shared.table_id }
    requires count { (I.LinkState.state input.old).faults < 2 ^ 64 - 1 }
    ensures own { (seat.new.inner.table_id ≡ seat.old.inner.table_id) × (seat.new.lane ≡ seat.old.lane)
        × OnOk result ((claim_of seat.old.inner.me).share ≤ (claim_of seat.new.inner.me).share) }
    ensures only { AddsEntries (by_opening seat.old.lane) (claim_of seat.old.inner.me) (claim_of seat.new.inner.me) }
    ensures gets { OnOk result (GetsSomeVersion seat.old.inner.me seat.new.inner.me (I.LinkState.state input.old) (I.LinkState.state input.new)) }
    ensures stops { IfErr result (λ e. VersionStops e seat.old.inner.me seat.new.inner.me (I.LinkState.state input.old) (I.LinkState.state input.new)) }
{
    let frame = match read_frame(shared.alloc, input) {
        Ok(frame) => frame,
        Err(e) => return Err(stop(rt, shared, seat, e)),
    };
    let read = read_body(shared.alloc, frame);
    let (did, copied) = seat.apply(rt, shared.alloc, &shared.shared, TakeVersion { read });
    settle(did, copied)
}

impl SharedSftp {
    /// Sends the hello over the one half of the link, and takes VERSION from the other, if nobody has handed the hello
    /// out. Returns true exactly if this call did both. Returns false if the hello was handed out before; nothing is
    /// sent or read then.
    ///
    /// # Errors
    ///
    /// Those of a round: the session records the fault, or is given up if an allocation failed.
    pub fn greet<O: LinkOut, I: LinkIn, R: Wait>(
        &self,
        rt: &R,
        seat: &mut Seat,
        out: &mut O,
        input: &mut I,
    ) -> Result<bool, Error>
        requires own { seat.old.inner.table_id ≡ self.now.shared.table.shared.table_id }
        requires counts { ((O.LinkState.state out.old).faults < 2 ^ 64 - 1) × ((I.LinkState.state input.old).faults < 2 ^ 64 - 1) }
        ensures own { (seat.new.inner.table_id ≡ seat.old.inner.table_id) × (seat.new.lane ≡ seat.old.lane)
            × OnOk result ((claim_of seat.old.inner.me).share ≤ (claim_of seat.new.inner.me).share) }
        ensures only { AddsEntries (by_opening seat.old.lane) (claim_of seat.old.inner.me) (claim_of seat.new.inner.me) }
        ensures greets { IfOk result (λ did. SendsHelloOnce did seat.old.inner.me seat.new.inner.me
            (O.LinkState.state out.old) (O.LinkState.state out.new) (I.LinkState.state input.old) (I.LinkState.state input.new)) }
        ensures stops { IfErr result (λ e. GreetStops e seat.old.inner.me seat.new.inner.me
            (O.LinkState.state out.old) (O.LinkState.state out.new) (I.LinkState.state input.old) (I.LinkState.state input.new)) }
    {
        // No `?`: it converts the error, and `stops` is about the error itself.
        match send_hello(rt, self, seat, out) {
            Ok(true) => {}
            Ok(false) => return Ok(false),
            Err(e) => return Err(e),
        }
        match take_version(rt, self, seat, input) {
            Ok(()) => Ok(true),
            Err(e) => Err(e),
        }
    }
}
