//! Laws of the definitions. The functions do nothing: their postconditions hold of all values.
ghost use Rattle.std.specs.Prelude.{◌≡◌, ◌≢◌, ◌<◌, ◌≤◌, ◌-◌, ◌^◌, ℕ, true, false, List, [], ◌∷◌, length, Some, None};
ghost use Rattle.sftp_model.specs.declared.reply.Reply.{Reply};
ghost use Rattle.sftp_model.specs.declared.reply.Reply.TheVariants.{Content};
ghost use Rattle.sftp_model.specs.declared.slot.FileAt.{FileAt};
ghost use Rattle.sftp_model.specs.declared.slot.Buffer.{Buffer};
ghost use Rattle.sftp_model.specs.declared.slot.Slot.TheVariants.{Buffered};
ghost use Rattle.sftp_model.specs.Answers.{may_answer};
ghost use Rattle.sftp_model.specs.Slots.{slot_at};
ghost use Rattle.plan_model.specs.ReadsUnderWay.{ReadsStand};
ghost use Rattle.plan_model.specs.declared.call.Call.{Call};
ghost use Rattle.session_model.specs.declared.entry.Entry.{Entry};
ghost use Rattle.session_model.specs.declared.entry.Entry.TheVariants as entry;
ghost use Rattle.session_model.specs.declared.event.Event.TheVariants.{Take};
ghost use Rattle.session_model.specs.Readings.{AskedRequest, answer, asked_at, bearer};
ghost use Rattle.session_model.specs.Calls.{Setting, current, GoesByPlan, site_of};
ghost use Rattle.session_model.specs.Ids.{id_state, ReadsId};
ghost use Rattle.session_model.specs.Journals.{IsJournal, IsOver, MayTake};
ghost use Rattle.session_model.specs.Grants.{IsSettled};
ghost use Rattle.session_model.specs.Grants.{next_due, is_grant, is_held, is_one_of, closed_grants};
ghost use Rattle.session_model.specs.Closes.{granted_handles, closed_handles, times, AreClosed, closes_of};
ghost use Rattle.session_model.specs.Submitted.{submitted_at};
ghost use Rattle.session_model.specs.Runs.{IsRun};
ghost use Rattle.session_model.specs.Turns.{RunProgress, ClosesTo};
ghost use Rattle.session_model.specs.declared.turn.Turn.{Turn};

/// A reply that was taken stays, whichever replies are taken after it.
pub fn replies_stay()
    ensures { (past : List Entry) (id : ℕ) (r q : Reply) (place : ℕ) → MayTake past id r
        → answer past place ≡ Some q → answer (entry.Event (Take id r) ∷ past) place ≡ Some q }
{}

/// No two ids name one request. In a run so far an unanswered request is the last with its id, and so no other
/// unanswered one has it.
pub fn ids_name_requests()
    ensures one_id { (past : List Entry) (i j place : ℕ) → bearer past i ≡ Some place
        → bearer past j ≡ Some place → i ≡ j }
    ensures borne { (s : Setting) (past : List Entry) (place : ℕ) (a : AskedRequest) → IsJournal s past
        → asked_at past place ≡ Some a → answer past place ≡ None → bearer past a.id ≡ Some place }
    ensures apart { (s : Setting) (past : List Entry) (p q : ℕ) (a b : AskedRequest) → IsJournal s past
        → asked_at past p ≡ Some a → answer past p ≡ None → asked_at past q ≡ Some b
        → answer past q ≡ None → a.id ≡ b.id → p ≡ q }
{}

/// The recursion over a journal and the journal's readings agree for each id.
pub fn ids_are_read()
    ensures { (past : List Entry) (id : ℕ) → ReadsId past id (id_state past id) }
{}

/// In a run so far the current call of a lane follows its plan. Each of its requests was the one that the plan asked,
/// when no reply to it had come, by replies that are still in the journal; and each reply to one may answer it.
pub fn calls_go_by_their_plans()
    ensures { (s : Setting) (past : List Entry) (lane : ℕ) (c : Call) → IsJournal s past
        → current s past lane ≡ Some c → GoesByPlan s past lane c }
{}

/// A whole run is a run so far. After it each lane was released, nothing is to be closed and nothing is unanswered.
pub fn runs_are_journals()
    ensures so_far { (s : Setting) (turns : List Turn) (past : List Entry) → IsRun s turns past → IsJournal s past }
    ensures over { (s : Setting) (turns : List Turn) (past : List Entry) → IsRun s turns past → IsOver s past }
{}

/// If a lane was released and its grants are closed in the order of its slots, no grant at all is to be closed.
pub fn letting_go_settles()
    ensures { (s : Setting) (past now : List Entry) (lane : ℕ) → IsSettled s past
        → current s past lane ≡ None → ClosesTo s (entry.LetGo lane ∷ past) now → next_due s now ≡ None
        → IsSettled s now }
{}

/// Each grant has at most one CLOSE. If it has one, the grant came by a HANDLE and nothing holds it any more. Once a
/// session is over, and so after a whole run, each grant has one.
pub fn grants_are_closed_once()
    ensures once { (s : Setting) (past : List Entry) (g : ℕ) → IsJournal s past → closes_of s past g ≤ 1 }
    ensures granted { (s : Setting) (past : List Entry) (g : ℕ) → IsJournal s past
        → is_one_of (closed_grants s past) g ≡ true → (is_grant past g ≡ true) × (is_held s past g ≡ false) }
    ensures over { (s : Setting) (past : List Entry) (g : ℕ) → IsJournal s past → IsOver s past
        → is_grant past g ≡ true → closes_of s past g ≡ 1 }
    ensures all { (s : Setting) (turns : List Turn) (past : List Entry) (g : ℕ) → IsRun s turns past
        → is_grant past g ≡ true → closes_of s past g ≡ 1 }
{}

/// No handle was closed more often than it was granted. Once a session is over, and so after a whole run, each was
/// closed exactly as often.
pub fn handles_are_closed()
    ensures so_far { (s : Setting) (past : List Entry) (handle : List ℕ) → IsJournal s past
        → times handle (closed_handles past) ≤ times handle (granted_handles past) }
    ensures over { (s : Setting) (past : List Entry) → IsJournal s past → IsOver s past → AreClosed past }
    ensures all { (s : Setting) (turns : List Turn) (past : List Entry) → IsRun s turns past → AreClosed past }
{}

/// In a run so far the buffer has no bytes if a READ is under way for a lane's buffered file, and the request is a READ
/// at the file's offset. So the bytes of a DATA that may answer it end within the range of offsets.
pub fn reads_under_way_fit()
    ensures stand { (s : Setting) (past : List Entry) (lane : ℕ) → IsJournal s past
        → ReadsStand (submitted_at past) (site_of s past lane) }
    ensures fits { (s : Setting) (past : List Entry) (lane k p : ℕ) (file : FileAt) (buffer : Buffer) (a : AskedRequest)
        (bytes : List ℕ) → IsJournal s past → slot_at (site_of s past lane) k ≡ Buffered file buffer
        → buffer.reading ≡ Some p → asked_at past p ≡ Some a → may_answer a.request (Content bytes) ≡ true
        → length bytes ≤ (2 ^ 64 - 1) - file.offset }
{}
