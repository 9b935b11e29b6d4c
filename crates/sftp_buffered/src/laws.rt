//! Laws of the definitions. The functions do nothing: their postconditions hold of all values.
ghost use Rattle.sftp_core.specs.Core.{Core, IsGrant, core_after_abandon, after_poll, core_after_release, core_after_retain};
ghost use Rattle.sftp_core.specs.Grant.{GrantValue};
ghost use Rattle.std.specs.Prelude.{ℕ, List, Result};
ghost use Rattle.std.specs.declared.io.traits.SeekFrom.{SeekFrom};
ghost use Rattle.sftp_model.specs.declared.answers.Expected.{Expected};
ghost use Rattle.sftp_model.specs.declared.error.Error.{Error};
ghost use Rattle.sftp_model.specs.declared.outcome.Outcome.{Outcome};
ghost use Rattle.plan_state.specs.Asked.{HoldsTicket};
ghost use Rattle.plan_state.specs.declared.poll.Poll.{Poll};
ghost use Rattle.sftp_buffered.specs.Flushes.{FlushesTo};
ghost use Rattle.sftp_buffered.specs.Reads.{ReadsTo};
ghost use Rattle.sftp_buffered.specs.Seeks.{SeeksTo};
ghost use Rattle.sftp_buffered.specs.Writes.{IsCutOut, IsOnePart, WritesBuffered};
ghost use Rattle.plan_state.specs.Keeping.{KeepsHeld};
ghost use Rattle.plan_model.specs.Moves.{Answers, Plan};
ghost use Rattle.sftp_buffered.specs.Buffered.{CompatValue, DefersWrites, IsApart, IsSound, LeavesOthers, ShareNoTicket};

/// A buffered file stays sound over what others do on its core. These are: a call that keeps all that is held (a
/// submit, a hand-out or a take of `calls_keep_what_is_held` in `plan_state`), a poll and a cancel of another request,
/// a file that is released or shared, and a call on another buffered file, if no request belongs to both.
pub fn others_leave_it_sound()
    ensures kept { (old new : Core) (c : CompatValue) → KeepsHeld old new → IsSound old c → IsSound new c }
    ensures polled { (core : Core) (ticket : ℕ) (c : CompatValue) → IsApart ticket c → IsSound core c
        → IsSound (after_poll core ticket) c }
    ensures cancelled { (core : Core) (ticket : ℕ) (c : CompatValue) → IsApart ticket c → IsSound core c
        → IsSound (core_after_abandon core ticket) c }
    ensures released { (core : Core) (grant : GrantValue) (c : CompatValue) → IsGrant core grant → IsSound core c
        → IsSound (core_after_release core grant) c }
    ensures retained { (core : Core) (grant : GrantValue) (c : CompatValue) → IsGrant core grant → IsSound core c
        → IsSound (core_after_retain core grant) c }
    ensures left { (old new : Core) (other c : CompatValue) → LeavesOthers old new other → ShareNoTicket other c
        → IsSound old c → IsSound new c }
{}

/// The replies that the contracts of polls mention exist: a core has some for each sound file.
pub fn replies_can_be_told()
    ensures { (core : Core) (c : CompatValue) → IsSound core c → (answers : Answers) × DefersWrites core c answers }
{}

/// A ticket that others hold, and that is none of a buffered file's, is none of it after a poll or a seek either.
pub fn tickets_stay_apart()
    ensures writes { (bytes : List ℕ) (old new : Core) (p q : CompatValue) (result : Poll (Result ℕ Error)) (ticket : ℕ)
        (kind : Expected) → IsSound old p → HoldsTicket old ticket kind → IsApart ticket p
        → WritesBuffered (IsOnePart bytes p) bytes old new p q result → IsApart ticket q }
    ensures vectored { (pieces : List (List ℕ)) (bytes : List ℕ) (old new : Core) (p q : CompatValue)
        (result : Poll (Result ℕ Error)) (ticket : ℕ) (kind : Expected) → IsSound old p → HoldsTicket old ticket kind
        → IsApart ticket p → WritesBuffered (IsCutOut pieces p) bytes old new p q result → IsApart ticket q }
    ensures flushes { (old new : Core) (p q : CompatValue) (result : Poll (Result (Unit {0}) Error)) (ticket : ℕ)
        (kind : Expected) → IsSound old p → HoldsTicket old ticket kind → IsApart ticket p
        → FlushesTo old new p q result → IsApart ticket q }
    ensures fills { (plan : Plan) (o : Unit {0} → Outcome) (old new : Core) (p q : CompatValue)
        (result : Poll (Result (Unit {0}) Error)) (ticket : ℕ) (kind : Expected) → IsSound old p
        → HoldsTicket old ticket kind → IsApart ticket p → ReadsTo plan o old new p q result → IsApart ticket q }
    ensures reads { (plan : Plan) (o : ℕ → Outcome) (old new : Core) (p q : CompatValue)
        (result : Poll (Result ℕ Error)) (ticket : ℕ) (kind : Expected) → IsSound old p → HoldsTicket old ticket kind
        → IsApart ticket p → ReadsTo plan o old new p q result → IsApart ticket q }
    ensures seeks { (position : SeekFrom) (old new : Core) (p q : CompatValue) (result : Result (Unit {0}) Error)
        (ticket : ℕ) → IsApart ticket p → SeeksTo position old new p q result → IsApart ticket q }
{}
