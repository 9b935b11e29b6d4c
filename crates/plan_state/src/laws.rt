//! Laws of the definitions. The functions do nothing: what they ensure holds for all values.
ghost use Rattle.std.specs.Prelude.{◌≡◌, ◌≢◌, ℕ, List, None, Some, false, Result, IsSome, IsTrue};
ghost use Rattle.sftp_model.specs.declared.answers.Expected.{Expected};
ghost use Rattle.sftp_model.specs.declared.answers.Expected.TheVariants as expected;
ghost use Rattle.sftp_model.specs.declared.frame_error.FrameError.{FrameError};
ghost use Rattle.sftp_model.specs.declared.reply.Reply.TheVariants as reply;
ghost use Rattle.sftp_model.specs.declared.request.Request.TheVariants as request;
ghost use Rattle.sftp_core.specs.Core.{Core, core_after_abandon, after_poll, record_at, handed_out, is_ticket, queued_last, core_after_release, reply_in, core_after_retain, IsGrant};
ghost use Rattle.sftp_core.specs.Grant.{GrantValue};
ghost use Rattle.sftp_core.specs.Info.{info_of};
ghost use Rattle.sftp_core.specs.Take.{Read, TakenFrom, take_leaves, take_refusal};
ghost use Rattle.sftp_core.specs.declared.tokens.Taken.{Taken};
ghost use Rattle.plan_state.specs.declared.submission.Asking.{Asking};
ghost use Rattle.plan_state.specs.declared.stage.Stage.TheVariants.{Asked};
ghost use Rattle.plan_state.specs.Asked.{HoldsTicket, queued_by};
ghost use Rattle.plan_state.specs.Calls.{core_after_cancel};
ghost use Rattle.plan_state.specs.Keeping.{IsDropped, KeepsHeld, KeepsGrants};

/// The handle of a cancelled open is closed. If its HANDLE was taken, it is closed at once. Otherwise the request is
/// marked as dropped, and taking a HANDLE then queues the CLOSE.
pub fn cancelled_opens_are_closed()
    ensures taken { (core : Core) (ticket : ℕ) (handle : List ℕ)
        → reply_in (record_at core ticket) ≡ Some (reply.Handle handle)
        → core_after_cancel core (Asked ticket) ≡ queued_last core ticket (request.Close handle) false }
    ensures to_come { (core : Core) (ticket : ℕ) → HoldsTicket core ticket expected.Handle
        → reply_in (record_at core ticket) ≡ None
        → IsDropped (record_at (core_after_cancel core (Asked ticket)) ticket) expected.Handle }
    ensures closed { (core : Core) (ticket : ℕ) (handle : List ℕ) → IsDropped (record_at core ticket) expected.Handle
        → take_leaves core ticket (reply.Handle handle) (record_at core ticket)
        ≡ queued_last core ticket (request.Close handle) false }
{}

/// The replies that states await and the grants of files stay over each call of a core by others: a request that is
/// submitted, a hand-out, and a frame that is taken, including their own replies.
pub fn calls_keep_what_is_held()
    ensures submitted { (core : Core) (ticket : ℕ) (asking : Asking) → record_at core ticket ≡ None
        → KeepsHeld core (queued_by core ticket asking) }
    ensures handed_out { (core : Core) → KeepsHeld core (handed_out core) }
    ensures taken { (old new : Core) (read : Result Read FrameError) (told : Taken) → IsSome (info_of old.phase)
        → take_refusal old read ≡ None → TakenFrom read told old new → KeepsHeld old new }
{}

/// The poll and the cancel of a state leave every grant and every other ticket. A file that is shared or released
/// leaves every ticket.
pub fn others_keep_what_they_hold()
    ensures polled { (core : Core) (ticket : ℕ) → IsTrue (is_ticket (record_at core ticket))
        → KeepsGrants core (after_poll core ticket) }
    ensures cancelled { (core : Core) (ticket : ℕ) → IsTrue (is_ticket (record_at core ticket))
        → KeepsGrants core (core_after_abandon core ticket) }
    ensures polled_on { (core : Core) (ticket other : ℕ) (kind : Expected) → other ≢ ticket
        → HoldsTicket core other kind → HoldsTicket (after_poll core ticket) other kind }
    ensures cancelled_on { (core : Core) (ticket other : ℕ) (kind : Expected) → other ≢ ticket
        → HoldsTicket core other kind → HoldsTicket (core_after_abandon core ticket) other kind }
    ensures released { (core : Core) (grant : GrantValue) (ticket : ℕ) (kind : Expected)
        → IsGrant core grant → HoldsTicket core ticket kind → HoldsTicket (core_after_release core grant) ticket kind }
    ensures retained { (core : Core) (grant : GrantValue) (ticket : ℕ) (kind : Expected)
        → IsGrant core grant → HoldsTicket core ticket kind → HoldsTicket (core_after_retain core grant) ticket kind }
{}
