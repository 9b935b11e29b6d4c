//! Laws of journals that a file machine serves; the functions do nothing, and their clauses hold for all values.
ghost use Rattle.std.specs.Prelude.{◌≡◌, ◌<◌, ℕ, true, List, [], ◌∷◌, length};
ghost use Rattle.sftp_model.specs.declared.config.Choice.{Choice};
ghost use Rattle.sftp_model.specs.declared.config.ServerConfig.{ServerConfig};
ghost use Rattle.sftp_model.specs.declared.error.Error.TheVariants as error;
ghost use Rattle.sftp_model.specs.declared.outcome.Outcome.{Outcome};
ghost use Rattle.sftp_model.specs.declared.outcome.Outcome.TheVariants as outcome;
ghost use Rattle.sftp_model.specs.declared.reply.NameEntry.{NameEntry};
ghost use Rattle.sftp_model.specs.declared.request.Request.{Request};
ghost use Rattle.machine_model.specs.Changes.{IsWellFormed};
ghost use Rattle.machine_model.specs.Components.{Name};
ghost use Rattle.machine_model.specs.FileTree.{FileTree, node_at};
ghost use Rattle.plan_model.specs.declared.call.Call.TheVariants as call;
ghost use Rattle.plan_model.specs.Moves.{Own};
ghost use Rattle.session_model.specs.declared.entry.Entry.{Entry};
ghost use Rattle.session_model.specs.Calls.{Setting};
ghost use Rattle.session_model.specs.Journals.{IsJournal};
ghost use Rattle.session_model.specs.Readings.{answer, own, count_sent};
ghost use Rattle.session_model.specs.Runs.{IsRun};
ghost use Rattle.session_model.specs.Served.{ServesJournal};
ghost use Rattle.session_model.specs.declared.turn.Turn.{Turn};
ghost use Rattle.run_laws.specs.Bearing.{grant_at};
ghost use Rattle.run_laws.specs.CallsAmong.{GivesContent, HasEnded, HasNoFile, refusal_of};
ghost use Rattle.run_laws.specs.DeferredWrites.{AllWriteBy, ArePut, IsFlushedWrite, WritesAlone};
ghost use Rattle.run_laws.specs.FilesLeft.{IsUntouched, LaneAnew, LaneLast, LaneNever};
ghost use Rattle.run_laws.specs.GrantUses.{IsRunOn};
ghost use Rattle.run_laws.specs.InJournals.{AloneOn, AreBelow, ComeByOpens, InTurn, KeepsOff, LaneFirst, LaneInTurn, PassesAt, is_elsewhere, is_of_call};
ghost use Rattle.run_laws.specs.Listings.{IsListed, site_at};
ghost use Rattle.run_laws.specs.WholeCalls.{IsWholeRead, IsWholeWrite, ServesUnrefused};
ghost use Rattle.run_laws.specs.Steps.{HasBytes, RefuseNone, RunOf};

/// A file machine serves a journal that is a run so far, and its requests reach a name by OPENs of it. Then the
/// machine's run is one whose requests have handles by grants and reach the name in this way.
pub fn served_journals_are_runs_on_names()
    ensures { (s : Setting) (config : ServerConfig) (choices : List Choice) (first : FileTree) (past : List Entry)
        (now : FileTree) (name : Name) (run : RunOf config choices first past now) → IsJournal s past
        → ComeByOpens past name (count_sent past)
        → IsRunOn config (answer past) (grant_at s past) (is_elsewhere past name) name first run.steps }
{}

/// Bytes that were written are read back.
///
/// In a journal that a file machine serves whose choices refuse nothing, a call wrote a file as a whole and ended well.
/// A later call read the name as a whole and ended. From the first request of the write on, each request of others
/// passes the name by. Then the read ended with the bytes of the write, or has reached its bound.
pub fn served_writes_are_read_back()
    ensures { (s : Setting) (config : ServerConfig) (choices : List Choice) (first now : FileTree) (past : List Entry)
        (name : Name) (n : ℕ) (writer reader : ℕ × ℕ) (w r : ℕ × Request) (written read : Own) (bytes : List ℕ)
        (ended : Outcome) → IsJournal s past → ServesUnrefused config choices first past now
        → InTurn s past name n writer w written reader r read → IsWholeWrite past name (w ∷ written) bytes
        → IsWholeRead past name (r ∷ read) ended → GivesContent ended bytes }
{}

/// In a journal that a file machine serves whose choices refuse nothing, a call read a name as a whole. Each request of
/// others passes the name by. Then the read ended with what the name had at first: the bytes of its file, unless it has
/// reached its bound, or the refusal of its OPEN if the name has no file.
pub fn served_reads_give_what_was_there()
    ensures gives { (s : Setting) (config : ServerConfig) (choices : List Choice) (first now : FileTree)
        (past : List Entry) (name : Name) (n : ℕ) (reader : ℕ × ℕ) (r : ℕ × Request) (read : Own) (bytes : List ℕ)
        (ended : Outcome) → IsJournal s past → ServesUnrefused config choices first past now
        → HasBytes first name bytes → AloneOn s past name n reader r read → IsWholeRead past name (r ∷ read) ended
        → GivesContent ended bytes }
    ensures refused { (s : Setting) (config : ServerConfig) (choices : List Choice) (first now : FileTree)
        (past : List Entry) (name : Name) (n : ℕ) (reader : ℕ × ℕ) (r : ℕ × Request) (read : Own) (ended : Outcome)
        → IsJournal s past → ServesUnrefused config choices first past now → HasNoFile (node_at first name)
        → AloneOn s past name n reader r read → IsWholeRead past name (r ∷ read) ended
        → ended ≡ outcome.Refused (error.SftpError (refusal_of (node_at first name)) [] []) }
{}

/// Each request of a lane whose calls never open a name, and whose requests avoid it, passes the name by, even if it
/// writes by a handle.
pub fn lanes_that_keep_off_pass_by()
    ensures { (s : Setting) (past : List Entry) (name : Name) (lane call_number place : ℕ) → IsJournal s past
        → KeepsOff past name lane → is_of_call past (lane, call_number) place ≡ true → PassesAt s past name place }
{}

/// A lane reads the bytes that it wrote.
///
/// In a journal that a file machine serves whose choices refuse nothing, a call of a lane wrote a file as a whole and
/// ended well. A later call of the lane read the name as a whole, all its requests were sent, and it ended. The other
/// lanes keep off the name, and the lane's calls between the two pass it by. Then the read ended with the bytes of the
/// write, or has reached its bound.
pub fn lanes_read_what_they_wrote()
    ensures { (s : Setting) (config : ServerConfig) (choices : List Choice) (first now : FileTree) (past : List Entry)
        (name : Name) (lane writer reader : ℕ) (w r : ℕ × Request) (written read : Own) (bytes : List ℕ)
        (ended : Outcome) → IsJournal s past → ServesUnrefused config choices first past now
        → LaneInTurn s past name lane writer w written reader r read → AreBelow (count_sent past) (r ∷ read)
        → IsWholeWrite past name (w ∷ written) bytes → IsWholeRead past name (r ∷ read) ended → GivesContent ended bytes }
{}

/// A lane reads the bytes that existed before.
///
/// In a journal that a file machine serves whose choices refuse nothing, a call of a lane read a name as a whole. All
/// its requests were sent, and it ended. The other lanes keep off the name, and the lane's earlier calls pass it by.
/// Then the read ended with what the name had at first.
pub fn lanes_read_what_was_there()
    ensures gives { (s : Setting) (config : ServerConfig) (choices : List Choice) (first now : FileTree)
        (past : List Entry) (name : Name) (lane reader : ℕ) (r : ℕ × Request) (read : Own) (bytes : List ℕ)
        (ended : Outcome) → IsJournal s past → ServesUnrefused config choices first past now
        → HasBytes first name bytes → LaneFirst s past name lane reader r read → AreBelow (count_sent past) (r ∷ read)
        → IsWholeRead past name (r ∷ read) ended → GivesContent ended bytes }
    ensures refused { (s : Setting) (config : ServerConfig) (choices : List Choice) (first now : FileTree)
        (past : List Entry) (name : Name) (lane reader : ℕ) (r : ℕ × Request) (read : Own) (ended : Outcome)
        → IsJournal s past → ServesUnrefused config choices first past now → HasNoFile (node_at first name)
        → LaneFirst s past name lane reader r read → AreBelow (count_sent past) (r ∷ read)
        → IsWholeRead past name (r ∷ read) ended
        → ended ≡ outcome.Refused (error.SftpError (refusal_of (node_at first name)) [] []) }
{}

/// In a whole run that a file machine serves whose choices refuse nothing, a call of a lane wrote a file as a whole and
/// ended well. A later call of the lane read the name as a whole and ended. The other lanes keep off the name, and the
/// lane's calls between the two pass it by. Then the read ended with the bytes of the write, or has reached its bound.
pub fn runs_read_what_they_wrote()
    ensures { (s : Setting) (config : ServerConfig) (choices : List Choice) (first now : FileTree) (turns : List Turn)
        (past : List Entry) (name : Name) (lane writer reader : ℕ) (w r : ℕ × Request) (written read : Own)
        (bytes : List ℕ) (ended : Outcome) → IsRun s turns past → ServesUnrefused config choices first past now
        → LaneInTurn s past name lane writer w written reader r read → IsWholeWrite past name (w ∷ written) bytes
        → IsWholeRead past name (r ∷ read) ended → GivesContent ended bytes }
{}

/// In a whole run that a file machine serves whose choices refuse nothing, a call of a lane read a name as a whole and
/// ended. The other lanes keep off the name, and the lane's earlier calls pass it by. Then the read ended with what the
/// name had before the run: the bytes of its file, unless it has reached its bound, or the refusal of its OPEN if the
/// name has no file.
pub fn runs_read_what_was_there()
    ensures gives { (s : Setting) (config : ServerConfig) (choices : List Choice) (first now : FileTree)
        (turns : List Turn) (past : List Entry) (name : Name) (lane reader : ℕ) (r : ℕ × Request) (read : Own)
        (bytes : List ℕ) (ended : Outcome) → IsRun s turns past → ServesUnrefused config choices first past now
        → HasBytes first name bytes → LaneFirst s past name lane reader r read
        → IsWholeRead past name (r ∷ read) ended → GivesContent ended bytes }
    ensures refused { (s : Setting) (config : ServerConfig) (choices : List Choice) (first now : FileTree)
        (turns : List Turn) (past : List Entry) (name : Name) (lane reader : ℕ) (r : ℕ × Request) (read : Own)
        (ended : Outcome) → IsRun s turns past → ServesUnrefused config choices first past now
        → HasNoFile (node_at first name) → LaneFirst s past name lane reader r read
        → IsWholeRead past name (r ∷ read) ended
        → ended ≡ outcome.Refused (error.SftpError (refusal_of (node_at first name)) [] []) }
{}

/// In a whole run that a file machine serves whose choices refuse nothing, a call of a lane wrote a file as a whole and
/// ended well. The other lanes keep off the name, and the lane's later calls pass it by. Then the run leaves the file
/// with the bytes of the write. If all calls of the lane pass the name by, it leaves what the name had.
pub fn runs_leave_what_they_wrote()
    ensures written { (s : Setting) (config : ServerConfig) (choices : List Choice) (first now : FileTree)
        (turns : List Turn) (past : List Entry) (name : Name) (lane writer : ℕ) (w : ℕ × Request) (written : Own)
        (bytes : List ℕ) → IsRun s turns past → ServesUnrefused config choices first past now
        → LaneLast s past name lane writer w written → IsWholeWrite past name (w ∷ written) bytes
        → HasBytes now name bytes }
    ensures untouched { (s : Setting) (config : ServerConfig) (choices : List Choice) (first now : FileTree)
        (turns : List Turn) (past : List Entry) (name : Name) (lane : ℕ) → IsRun s turns past
        → ServesUnrefused config choices first past now → LaneNever s past name lane → IsUntouched first now name }
{}

/// Bytes that were written to a buffer and flushed are left in the file.
///
/// In a whole run that a file machine serves whose choices refuse nothing, the lane that owns a name opened it with
/// create and truncate. By a later call it wrote bytes to the opened file, from its start on, and flushed them, and all
/// ended well. The other lanes keep off the name, and the lane's other calls after the first pass it by. Then the run
/// leaves the file with the bytes.
pub fn runs_leave_what_they_flushed()
    ensures { (s : Setting) (config : ServerConfig) (choices : List Choice) (first now : FileTree) (turns : List Turn)
        (past : List Entry) (name : Name) (lane opener writer : ℕ) (w : ℕ × Request) (written : Own) (bytes : List ℕ)
        → IsRun s turns past → ServesUnrefused config choices first past now
        → LaneAnew s past name lane opener writer w written → IsFlushedWrite past written 0 bytes
        → HasBytes now name bytes }
{}

/// Calls list the entries that directories had.
///
/// In a whole run that a file machine serves, a call of a lane ended with names. They are the first of the entries that
/// its directory had when the call's OPENDIR came, in their order, and all of them if no choice feigns an end. This
/// holds regardless of the other lanes.
pub fn runs_list_directories()
    ensures { (s : Setting) (config : ServerConfig) (choices : List Choice) (first now : FileTree) (turns : List Turn)
        (past : List Entry) (lane k : ℕ) (path : List ℕ) (bound : ℕ) (names : List NameEntry)
        → IsRun s turns past → ServesJournal config choices first past now
        → HasEnded (call.List path bound) (site_at s past lane k) s.facts (own past lane k) (answer past)
        (outcome.Names names) → IsListed s config choices first past lane k path names }
{}

/// Bytes that were written to a buffered file and flushed are in the file.
///
/// In a whole run that a file machine serves, a call of a lane wrote bytes to a buffered file by a handle. A flush of
/// what it left ended well. Up to the last of the call's WRITEs each request of others leaves the file's bytes
/// unchanged. Then the file has the bytes that it had when the first of them came, with these bytes at the file's
/// offset.
pub fn runs_hold_what_they_flushed()
    ensures { (s : Setting) (config : ServerConfig) (choices : List Choice) (first now : FileTree) (turns : List Turn)
        (past : List Entry) (lane k offset : ℕ) (bytes handle : List ℕ) (run : RunOf config choices first past now)
        → IsRun s turns past → IsWellFormed first → 0 < length bytes
        → IsFlushedWrite past (own past lane k) offset bytes → AllWriteBy past lane k handle
        → (t : WritesAlone config first past run.steps lane k handle)
        → ArePut config first past run.steps lane k handle t offset bytes }
{}
