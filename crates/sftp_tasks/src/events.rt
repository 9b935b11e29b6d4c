//! Events of the locked value; a hold of the lock does one of them.
use crate::frames::Handed;
use crate::locked::Locked;
use crate::polls::Polled;
use session_model::Call;
use session_seats::Event;
use sftp_model::{Error, Fault, FrameError, Reply};

/// Cancels the call of the seat's lane, if it was started.
///
/// Used in `crates/sftp_tasks/src/shared_sftp.rt`.
#[derive(Drop)]
pub struct CancelCall;

impl Event<Locked, Result<bool, Error>> for CancelCall {
    ghost use Rattle.std.specs.Prelude.{false};
    ghost use Rattle.session_seats.specs.Holds.{no_allowance};
    ghost use Rattle.sftp_tasks.specs.Entries.{by_cancel};
    ghost use Rattle.sftp_tasks.specs.LockedEvents.{OfLane, CancelsLaneCall, UnlessFault};

    ghost only = { λ _. by_cancel };

    ghost needs = { λ _. no_allowance };

    ghost does = { λ _ lane. UnlessFault (OfLane CancelsLaneCall false lane) };

    fn act(self, value: &mut Locked, lane: Option<u32>) -> Result<bool, Error> {
        let Some(lane) = lane else {
            return value.idle(false);
        };
        value.cancel(lane)
    }
}

/// Hands out the unsent frames.
///
/// Used in `crates/sftp_tasks/src/rounds.rt`.
#[derive(Drop)]
pub struct HandOut;

impl Event<Locked, Result<Option<Handed>, Error>> for HandOut {
    ghost use Rattle.session_seats.specs.Holds.{no_allowance};
    ghost use Rattle.sftp_tasks.specs.Entries.{by_flush};
    ghost use Rattle.sftp_tasks.specs.LockedEvents.{HandingOut, UnlessFault};

    ghost only = { λ _. by_flush };

    ghost needs = { λ _. no_allowance };

    ghost does = { λ _ lane. UnlessFault HandingOut };

    fn act(self, value: &mut Locked, lane: Option<u32>) -> Result<Option<Handed>, Error> {
        let _ = lane;
        value.hand_out()
    }
}

/// Records that this many frames were written whole.
///
/// Used in `crates/sftp_tasks/src/rounds.rt`.
#[derive(Drop)]
pub struct Written {
    pub frames: u64,
}

impl Event<Locked, ()> for Written {
    ghost use Rattle.sftp_tasks.specs.Entries.{by_nothing};
    ghost use Rattle.sftp_tasks.specs.LockedEvents.{NotesWritten, tells_written};

    ghost only = { λ _. by_nothing };

    ghost needs = { λ e. tells_written e.frames };

    ghost does = { λ e lane y z a. NotesWritten e.frames y z };

    fn act(self, value: &mut Locked, lane: Option<u32>) {
        let _ = lane;
        value.written(self.frames);
    }
}

/// Records a fault, unless one is recorded.
///
/// Used in `crates/sftp_tasks/src/rounds.rt`.
#[derive(Drop)]
pub struct Fail {
    pub fault: Fault,
}

impl Event<Locked, Result<(), Error>> for Fail {
    ghost use Rattle.session_seats.specs.Holds.{no_allowance};
    ghost use Rattle.sftp_tasks.specs.Entries.{by_failing};
    ghost use Rattle.sftp_tasks.specs.LockedEvents.{KeepsFirstFault};

    ghost only = { λ _. by_failing };

    ghost needs = { λ _. no_allowance };

    ghost does = { λ e lane. KeepsFirstFault e.fault };

    fn act(self, value: &mut Locked, lane: Option<u32>) -> Result<(), Error> {
        let _ = lane;
        value.fail(self.fault)
    }
}

/// Takes what was read of a frame.
///
/// Used in `crates/sftp_tasks/src/rounds.rt`.
#[derive(Drop)]
pub struct TakeFrame {
    pub read: Result<(Option<u32>, Reply), FrameError>,
}

impl Event<Locked, Result<(), Error>> for TakeFrame {
    ghost use Rattle.session_seats.specs.Holds.{no_allowance};
    ghost use Rattle.sftp_tasks.specs.Entries.{by_read};
    ghost use Rattle.sftp_tasks.specs.LockedEvents.{CountsTakenFrame, UnlessFault};

    ghost only = { λ _. by_read };

    ghost needs = { λ _. no_allowance };

    ghost does = { λ e lane. UnlessFault (CountsTakenFrame e.read) };

    fn act(self, value: &mut Locked, lane: Option<u32>) -> Result<(), Error> {
        let _ = lane;
        let TakeFrame { read } = self;
        value.take(read)
    }
}

/// Adds a call to the seat's lane, and steps the lane once.
///
/// Used in `crates/sftp_tasks/src/shared_sftp.rt`.
#[derive(Drop)]
pub struct Submit {
    pub call: Call,
}

impl Event<Locked, Result<bool, Error>> for Submit {
    ghost use Rattle.std.specs.Prelude.{false};
    ghost use Rattle.session_seats.specs.Holds.{no_allowance};
    ghost use Rattle.sftp_tasks.specs.Entries.{by_submit};
    ghost use Rattle.sftp_tasks.specs.LockedEvents.{OfLane, SubmitsLaneCall, UnlessFault};

    ghost only = { λ _. by_submit };

    ghost needs = { λ _. no_allowance };

    ghost does = { λ e lane. UnlessFault (OfLane (SubmitsLaneCall e.call) false lane) };

    fn act(self, value: &mut Locked, lane: Option<u32>) -> Result<bool, Error> {
        let Submit { call } = self;
        let Some(lane) = lane else {
            return value.idle(false);
        };
        value.submit(lane, call)
    }
}

/// Gives the session up, for lack of memory.
///
/// Used in `crates/sftp_tasks/src/rounds.rt`.
#[derive(Drop)]
pub struct GiveUp;

impl Event<Locked, ()> for GiveUp {
    ghost use Rattle.session_seats.specs.Holds.{no_allowance};
    ghost use Rattle.sftp_tasks.specs.Entries.{by_nothing};
    ghost use Rattle.sftp_tasks.specs.LockedEvents.{GivingUp};

    ghost only = { λ _. by_nothing };

    ghost needs = { λ _. no_allowance };

    ghost does = { λ e lane y z a. GivingUp y z };

    fn act(self, value: &mut Locked, lane: Option<u32>) {
        let _ = lane;
        value.give_up();
    }
}

/// Checks whether a frame may be read.
///
/// Used in `crates/sftp_tasks/src/rounds.rt`.
#[derive(Drop)]
pub struct MayRead;

impl Event<Locked, Result<bool, Error>> for MayRead {
    ghost use Rattle.session_seats.specs.Holds.{no_allowance};
    ghost use Rattle.sftp_tasks.specs.Entries.{by_nothing};
    ghost use Rattle.sftp_tasks.specs.LockedEvents.{LooksForFrame, UnlessFault};

    ghost only = { λ _. by_nothing };

    ghost needs = { λ _. no_allowance };

    ghost does = { λ _ lane. UnlessFault LooksForFrame };

    fn act(self, value: &mut Locked, lane: Option<u32>) -> Result<bool, Error> {
        let _ = lane;
        value.may_read()
    }
}

/// One step of the seat's lane, unless all of its calls have ended. A seat that names no lane has none.
///
/// Used in `crates/sftp_tasks/src/polls.rt`.
#[derive(Drop)]
pub struct Poll;

impl Event<Locked, Result<Polled, Error>> for Poll {
    ghost use Rattle.session_seats.specs.Holds.{no_allowance};
    ghost use Rattle.sftp_tasks.specs.Calls.{PollsSeat};
    ghost use Rattle.sftp_tasks.specs.Entries.{by_step};
    ghost use Rattle.sftp_tasks.specs.LockedEvents.{UnlessFault};

    ghost only = { λ _. by_step };

    ghost needs = { λ _. no_allowance };

    ghost does = { λ _ lane. UnlessFault (PollsSeat lane) };

    fn act(self, value: &mut Locked, lane: Option<u32>) -> Result<Polled, Error> {
        let Some(lane) = lane else {
            return value.idle(Polled::Ended(0));
        };
        value.poll(lane)
    }
}

/// Releases the seat's lane, if its calls have ended. A seat that names no lane has nothing to release.
///
/// Used in `crates/sftp_tasks/src/shared_sftp.rt`.
#[derive(Drop)]
pub struct Release;

impl Event<Locked, Result<bool, Error>> for Release {
    ghost use Rattle.session_seats.specs.Holds.{no_allowance};
    ghost use Rattle.sftp_tasks.specs.Entries.{by_let_go};
    ghost use Rattle.sftp_tasks.specs.LockedEvents.{ReleasesLane, UnlessFault};

    ghost only = { λ _. by_let_go };

    ghost needs = { λ _. no_allowance };

    ghost does = { λ _ lane. UnlessFault (ReleasesLane lane) };

    fn act(self, value: &mut Locked, lane: Option<u32>) -> Result<bool, Error> {
        let Some(lane) = lane else {
            return value.idle(true);
        };
        value.let_go(lane)
    }
}

/// Looks at the stage of the end.
///
/// Used in `crates/sftp_tasks/src/workers.rt`.
#[derive(Drop)]
pub struct LookStage;

impl Event<Locked, Result<u64, Error>> for LookStage {
    ghost use Rattle.session_seats.specs.Holds.{no_allowance};
    ghost use Rattle.sftp_tasks.specs.Entries.{by_nothing};
    ghost use Rattle.sftp_tasks.specs.LockedEvents.{TellsStage, UnlessFault};

    ghost only = { λ _. by_nothing };

    ghost needs = { λ _. no_allowance };

    ghost does = { λ _ lane. UnlessFault TellsStage };

    fn act(self, value: &mut Locked, lane: Option<u32>) -> Result<u64, Error> {
        let _ = lane;
        value.stage()
    }
}

/// Settles the end, if it has started and each request of an open session has its reply.
///
/// Used in `crates/sftp_tasks/src/workers.rt`.
#[derive(Drop)]
pub struct Finish;

impl Event<Locked, Result<bool, Error>> for Finish {
    ghost use Rattle.session_seats.specs.Holds.{no_allowance};
    ghost use Rattle.sftp_tasks.specs.Entries.{by_nothing};
    ghost use Rattle.sftp_tasks.specs.LockedEvents.{SettlesEnd, UnlessFault};

    ghost only = { λ _. by_nothing };

    ghost needs = { λ _. no_allowance };

    ghost does = { λ _ lane. UnlessFault SettlesEnd };

    fn act(self, value: &mut Locked, lane: Option<u32>) -> Result<bool, Error> {
        let _ = lane;
        value.finish()
    }
}
