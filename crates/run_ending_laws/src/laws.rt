//! Laws of whole runs; the functions do nothing, and their clauses hold for all values.
ghost use Rattle.std.specs.Prelude.{◌≡◌, ◌≤◌, ◌+◌, ℕ, List, Some, true};
ghost use Rattle.sftp_model.specs.declared.config.Choice.{Choice};
ghost use Rattle.sftp_model.specs.declared.config.ServerConfig.{ServerConfig};
ghost use Rattle.sftp_model.specs.declared.outcome.Outcome.{Outcome};
ghost use Rattle.sftp_model.specs.declared.outcome.Outcome.TheVariants as outcome;
ghost use Rattle.machine_model.specs.Components.{Name, components};
ghost use Rattle.machine_model.specs.FileTree.{FileTree, all_bytes, node_at};
ghost use Rattle.machine_model.specs.declared.node.Node.{Node};
ghost use Rattle.plan_model.specs.declared.call.Call.{Call};
ghost use Rattle.session_model.specs.declared.entry.Entry.{Entry};
ghost use Rattle.session_model.specs.declared.turn.Turn.{Turn};
ghost use Rattle.session_model.specs.Calls.{Setting};
ghost use Rattle.run_laws.specs.ReadsBack.{call_in};
ghost use Rattle.run_laws.specs.RoundTrips.{outcome_at};
ghost use Rattle.run_laws.specs.Steps.{HasBytes, RefuseNone};
ghost use Rattle.run_ending_laws.specs.Claims.{AreClaimed, NameClaims, claims_sum};
ghost use Rattle.run_ending_laws.specs.EndsWell.{ReadsThere, ReadsWell, WritesWell};
ghost use Rattle.run_ending_laws.specs.FirstMkdirs.{ComeFirst, MakesFirst};
ghost use Rattle.run_ending_laws.specs.PlainCalls.{IsPlainRun, IsServedPlainly, may_end};

/// Each call of a whole run of plain calls has an outcome, which is one of its kind, and none is cancelled. Whichever
/// server serves the run, a whole write is done or refused, and a whole read returns bytes, is refused or has reached
/// its bound.
pub fn calls_end_by_their_kind()
    ensures { (s : Setting) (turns : List Turn) (past : List Entry) → IsPlainRun s turns past
        → (lane k : ℕ) (c : Call) → call_in s.lanes lane k ≡ Some c
        → (o : Outcome) × ((outcome_at past lane k ≡ Some o) × (may_end c o ≡ true)) }
{}

/// A lane that creates directories runs alone at first, by a turn, a flush, a take and a turn for each. Then its MKDIRs
/// are the first requests that were sent, except those whose frame would be too long.
pub fn directories_come_first()
    ensures { (s : Setting) (turns : List Turn) (past : List Entry) (paths : List (List ℕ)) → IsPlainRun s turns past
        → MakesFirst s turns paths → ComeFirst past paths }
{}

/// A file or directory that a name has at first, it also has at the end, for any refusals of the choices.
pub fn names_stay()
    ensures { (s : Setting) (turns : List Turn) (past : List Entry) (config : ServerConfig) (choices : List Choice)
        (tree left : FileTree) (name : Name) (n : Node) → IsServedPlainly s turns past config choices tree left
        → node_at tree name ≡ Some n → node_at left name ≡ Some n }
{}

/// All files together have at most the bytes that they had at first and the bytes that the lanes write, for any
/// refusals of the choices.
pub fn files_stay_within_their_bounds()
    ensures { (s : Setting) (turns : List Turn) (past : List Entry) (config : ServerConfig) (choices : List Choice)
        (tree left : FileTree) (claims : NameClaims) → IsServedPlainly s turns past config choices tree left
        → AreClaimed s.lanes claims → all_bytes left ≤ all_bytes tree + claims_sum claims }
{}

/// If no request is refused by choice, a whole write ends well under three conditions: its path fits a frame, its bytes
/// have room, and its name lies below directories that exist or are created first.
pub fn writes_end_well()
    ensures { (s : Setting) (turns : List Turn) (past : List Entry) (config : ServerConfig) (choices : List Choice)
        (tree left : FileTree) (claims : NameClaims) (paths : List (List ℕ)) (lane k : ℕ) (path content : List ℕ)
        → IsServedPlainly s turns past config choices tree left → MakesFirst s turns paths
        → AreClaimed s.lanes claims → RefuseNone choices
        → WritesWell s.lanes tree claims paths lane k path content → outcome_at past lane k ≡ Some outcome.Done }
{}

/// In that case a whole read of the name by a later call of the lane, whose bound is more than the bytes that were
/// written, returns these bytes.
pub fn reads_give_what_was_written()
    ensures { (s : Setting) (turns : List Turn) (past : List Entry) (config : ServerConfig) (choices : List Choice)
        (tree left : FileTree) (claims : NameClaims) (paths : List (List ℕ)) (lane k n : ℕ) (path content : List ℕ)
        → IsServedPlainly s turns past config choices tree left → MakesFirst s turns paths
        → AreClaimed s.lanes claims → RefuseNone choices
        → WritesWell s.lanes tree claims paths lane k path content → ReadsWell s lane k n path content
        → outcome_at past lane n ≡ Some (outcome.Bytes content) }
{}

/// In that case the same holds for a whole read of a name that belongs to its lane alone and that no lane writes. If
/// its bound is more than the bytes that its file has at first, it returns these bytes.
pub fn reads_give_what_was_there()
    ensures { (s : Setting) (turns : List Turn) (past : List Entry) (config : ServerConfig) (choices : List Choice)
        (tree left : FileTree) (claims : NameClaims) (lane n : ℕ) (path bytes : List ℕ)
        → IsServedPlainly s turns past config choices tree left → AreClaimed s.lanes claims → RefuseNone choices
        → HasBytes tree (components path) bytes → ReadsThere s claims lane n path bytes
        → outcome_at past lane n ≡ Some (outcome.Bytes bytes) }
{}
