//! Laws of the definitions. The functions do nothing: their postconditions hold of all values.
ghost use Rattle.std.specs.Prelude.{◌≡◌, ℕ, Bool, false, List, Option, Ok, Result};
ghost use Rattle.plan_model.specs.declared.call.Call.{Call};
ghost use Rattle.session_seats.specs.declared.view.Receipt.{Receipt};
ghost use Rattle.session_seats.specs.Holds.{sight_by};
ghost use Rattle.sftp_link.specs.Views.{LinkView};
ghost use Rattle.sftp_model.specs.declared.error.Error.{Error};
ghost use Rattle.sftp_model.specs.declared.reply.Reply.{Reply};
ghost use Rattle.sftp_tasks.specs.declared.polls.Polled.{Polled};
ghost use Rattle.sftp_tasks.specs.Calls.{AnswersSeat, InOneHold, PollsSeat, ReleasesSeat};
ghost use Rattle.sftp_tasks.specs.LockedEvents.{CancelsLaneCall, GivingUp, OfLane, SubmitsLaneCall};
ghost use Rattle.sftp_tasks.specs.Rounds.{FlushesRound, HoldsOnce, ReadsRound, SeesFailed, SeesUnfailed, Token};
ghost use Rattle.sftp_tasks.specs.Sent.{GotTakes, SeesVersion, WroteSends};
ghost use Rattle.sftp_tasks.specs.Workers.{FlushWorks, WorkerState, ReadWorks};

use sftp_link::LinkState;

/// The contents of a worker's half of the link, by the list of its rounds, if its seat had seen VERSION before them.
/// The half that sends was sent the frames of the Sends that the seat made in them, in order; after an error a prefix
/// of what was handed out. From the half that reads came a frame for each Take that the seat made in them, in order,
/// that reads as its id and reply; after an error also bytes of at most another frame.
pub fn workers_show_their_seats<L: LinkState>()
    ensures sends { (r : Result (Unit {0}) Error) (hello : Reply) (a b : WorkerState L.Service) → SeesVersion hello (sight_by a.0)
        → FlushWorks r a b → WroteSends r a.0 b.0 a.1 b.1 }
    ensures takes { (r : Result (Unit {0}) Error) (hello : Reply) (a b : WorkerState L.Service) → SeesVersion hello (sight_by a.0)
        → ReadWorks r a b → GotTakes r a.0 b.0 a.1 b.1 }
{}

/// A session that has failed stays so. A seat whose call returns `Ok` had not seen a failure before, so once it has seen
/// one, each of its later calls returns an error.
pub fn failed_sessions_refuse<L: LinkState>()
    ensures submits { (call : Call) (lane : Option ℕ) (old new : List Receipt) (did : Bool) (m n : Token)
        → AnswersSeat (OfLane (SubmitsLaneCall call) false lane) old new (Ok did) m n → SeesUnfailed (sight_by m) }
    ensures cancels { (lane : Option ℕ) (old new : List Receipt) (did : Bool) (m n : Token)
        → AnswersSeat (OfLane CancelsLaneCall false lane) old new (Ok did) m n → SeesUnfailed (sight_by m) }
    ensures releases { (lane : Option ℕ) (old new : List Receipt) (did : Bool) (m n : Token)
        → ReleasesSeat lane old new (Ok did) m n → SeesUnfailed (sight_by m) }
    ensures polls { (lane : Option ℕ) (polled : Polled) (m n : Token)
        → InOneHold (PollsSeat lane) (Ok polled) m n → SeesUnfailed (sight_by m) }
    ensures sends { (did : Bool) (m n : Token) (before now : LinkView L.Service)
        → FlushesRound did m n before now → SeesUnfailed (sight_by m) }
    ensures reads { (did : Bool) (m n : Token) (before now : LinkView L.Service)
        → ReadsRound did m n before now → SeesUnfailed (sight_by m) }
{}

/// A seat that gives the session up has seen that it failed.
pub fn given_up_is_seen()
    ensures { (m n : Token) → HoldsOnce (λ y z more. GivingUp y z) m n → SeesFailed (sight_by n) }
{}
