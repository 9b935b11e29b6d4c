//! Laws of journals: the grants of the handles of requests; the functions do nothing, and their clauses hold for all
//! values.
ghost use Rattle.std.specs.Prelude.{◌≡◌, ◌≤◌, ℕ, List, [], ◌∷◌, Some};
ghost use Rattle.sftp_model.specs.declared.config.Choice.{Choice};
ghost use Rattle.sftp_model.specs.declared.config.ServerConfig.{ServerConfig};
ghost use Rattle.sftp_model.specs.declared.request.Request.{Request};
ghost use Rattle.machine_model.specs.FileTree.{FileTree};
ghost use Rattle.session_model.specs.declared.entry.Entry.{Entry};
ghost use Rattle.session_model.specs.declared.entry.Entry.TheVariants as entry;
ghost use Rattle.session_model.specs.declared.event.Event.TheVariants.{Submit};
ghost use Rattle.session_model.specs.declared.event.Owner.{Owner};
ghost use Rattle.session_model.specs.Calls.{Setting};
ghost use Rattle.session_model.specs.Journals.{IsJournal};
ghost use Rattle.session_model.specs.Readings.{AskedRequest, answer, asked_at, count_sent, count_unanswered, own};
ghost use Rattle.session_model.specs.Runs.{IsRun};
ghost use Rattle.session_model.specs.declared.turn.Turn.{Turn};
ghost use Rattle.run_laws.specs.InJournals.{AreBelow};
ghost use Rattle.run_laws.specs.Bearing.{BearsHandle, BearsGrant, ClosesAt, UsesAt, UsesGrant, grant_at};
ghost use Rattle.run_laws.specs.GrantUses.{UseGrants};
ghost use Rattle.run_laws.specs.Steps.{RunOf};

/// In a run so far each request with a handle has that of a grant without a CLOSE, which its lane holds when it asks.
/// The session itself uses a handle only in the CLOSE of the grant that is to be closed next.
pub fn requests_bear_held_handles()
    ensures { (s : Setting) (past : List Entry) (by : Owner) (id : ℕ) (r : Request) (handle : List ℕ)
        → IsJournal s (entry.Event (Submit by id r) ∷ past) → BearsHandle r handle → BearsGrant s past by r handle }
{}

/// In a run so far each request with a handle has that of an earlier request. This HANDLE answered the earlier request,
/// and a call of the same lane asked it.
pub fn handles_are_those_of_grants()
    ensures { (s : Setting) (past : List Entry) (place : ℕ) (a : AskedRequest) (handle : List ℕ) → IsJournal s past
        → asked_at past place ≡ Some a → BearsHandle a.request handle → UsesGrant s past place a.by handle }
{}

/// A CLOSE comes after all uses of its handle: no request that has the handle of a grant is submitted after the grant's
/// CLOSE.
pub fn closes_stand_after_all_uses()
    ensures { (s : Setting) (past : List Entry) (use_at close_at grant : ℕ) → IsJournal s past
        → UsesAt s past use_at grant → ClosesAt s past close_at grant → use_at ≤ close_at }
{}

/// If a file machine serves a journal that is a run so far, its steps have handles by grants: each that of a grant that
/// a HANDLE answered before, and none after the grant's CLOSE.
pub fn served_requests_use_grants()
    ensures { (s : Setting) (config : ServerConfig) (choices : List Choice) (first : FileTree) (past : List Entry)
        (now : FileTree) (run : RunOf config choices first past now) → IsJournal s past
        → UseGrants (answer past) (grant_at s past) [] run.steps }
{}

/// In a run so far where each request has its reply, and so after a whole run, each request of a call was sent.
pub fn requests_of_whole_runs_were_sent()
    ensures answered { (s : Setting) (past : List Entry) (lane call : ℕ) → IsJournal s past
        → count_unanswered past ≡ 0 → AreBelow (count_sent past) (own past lane call) }
    ensures whole { (s : Setting) (turns : List Turn) (past : List Entry) (lane call : ℕ) → IsRun s turns past
        → AreBelow (count_sent past) (own past lane call) }
{}
