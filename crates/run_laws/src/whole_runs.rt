//! Laws of whole runs over a file machine; the functions do nothing, and their clauses hold for all values.
ghost use Rattle.std.specs.Prelude.{◌≡◌, ◌≤◌, ℕ, true, List, [], length};
ghost use Rattle.sftp_model.specs.declared.options.SftpOptions.{SftpOptions};
ghost use Rattle.sftp_model.specs.declared.config.Choice.{Choice};
ghost use Rattle.sftp_model.specs.declared.config.ServerConfig.{ServerConfig};
ghost use Rattle.sftp_model.specs.declared.error.Error.TheVariants as error;
ghost use Rattle.sftp_model.specs.declared.flags.Extensions.{Extensions};
ghost use Rattle.sftp_model.specs.declared.outcome.Outcome.{Outcome};
ghost use Rattle.sftp_model.specs.declared.outcome.Outcome.TheVariants as outcome;
ghost use Rattle.machine_model.specs.Changes.{IsWellFormed};
ghost use Rattle.machine_model.specs.Components.{Name};
ghost use Rattle.machine_model.specs.FileTree.{FileTree, node_at};
ghost use Rattle.plan_model.specs.declared.call.Lane.{Lane};
ghost use Rattle.session_model.specs.declared.entry.Entry.{Entry};
ghost use Rattle.session_model.specs.declared.turn.Turn.{Turn};
ghost use Rattle.session_model.specs.Calls.{Setting, lane_calls};
ghost use Rattle.session_model.specs.Readings.{outcomes_below};
ghost use Rattle.session_model.specs.Runs.{IsRun};
ghost use Rattle.session_model.specs.Served.{ServesJournal};
ghost use Rattle.session_model.specs.Settings.{setting_of};
ghost use Rattle.run_laws.specs.CallsAmong.{GivesContent, HasNoFile, refusal_of};
ghost use Rattle.run_laws.specs.InJournals.{KeepsOff};
ghost use Rattle.run_laws.specs.Steps.{HasBytes, RefuseNone};
ghost use Rattle.run_laws.specs.KeepsFiles.{KeepsFiles};
ghost use Rattle.run_laws.specs.NameCalls.{all_keep_off};
ghost use Rattle.run_laws.specs.RoundTrips.{HasRead, HasWritten, IsOneLanes, NoneWrites};

/// The laws hold for each whole run of lanes whose replies are those of a file machine. Bytes that were written are
/// read back and left, listings return the entries that directories had, and flushed writes are in their files. This is
/// stated by the lanes that were passed in, the reported outcomes of their calls, and the files and directories that
/// the machine is left with.
pub fn runs_keep_files()
    ensures { (lanes : List Lane) (options : SftpOptions) (extensions : Extensions) (turns : List Turn)
        (past : List Entry) (config : ServerConfig) (choices : List Choice) (tree left : FileTree)
        → IsRun (setting_of lanes options extensions past) turns past → IsWellFormed tree → ServesJournal config choices tree past left
        → KeepsFiles lanes config choices tree (setting_of lanes options extensions past) past left (outcomes_below past (length lanes)) }
{}

/// Bytes that were written are read back.
///
/// In a run that a file machine serves whose choices refuse nothing, each call of a lane writes or reads a file as a
/// whole or keeps off a name on paths. The other lanes keep off the name. A call of the lane wrote the name's file and
/// ended well, and is the last that did so before a later call. This later call read the file and was not cancelled.
/// Then the read ended with the bytes of the write, or has reached its bound.
pub fn lanes_read_back_what_they_wrote()
    ensures { (s : Setting) (turns : List Turn) (past : List Entry)
        (config : ServerConfig) (choices : List Choice) (tree left : FileTree) (name : Name) (lane writer reader : ℕ) (bytes : List ℕ) (ended : Outcome)
        → IsRun s turns past → 1 ≤ s.facts.read_len → IsWellFormed tree → ServesJournal config choices tree past left
        → RefuseNone choices → IsOneLanes s past name lane
        → HasWritten s past name lane writer reader bytes → HasRead s past name lane reader ended → GivesContent ended bytes }
{}

/// In such a run, a read of the lane before which no call of it wrote the name's file ended with what the name had
/// before the run: the bytes of its file, unless it has reached its bound, or the refusal of its OPEN if there was
/// none.
pub fn lanes_read_back_what_was_there()
    ensures gives { (s : Setting) (turns : List Turn) (past : List Entry)
        (config : ServerConfig) (choices : List Choice) (tree left : FileTree) (name : Name) (lane reader : ℕ) (bytes : List ℕ) (ended : Outcome)
        → IsRun s turns past → 1 ≤ s.facts.read_len → IsWellFormed tree → ServesJournal config choices tree past left
        → RefuseNone choices → IsOneLanes s past name lane → NoneWrites s past name lane reader
        → HasBytes tree name bytes → HasRead s past name lane reader ended → GivesContent ended bytes }
    ensures refused { (s : Setting) (turns : List Turn) (past : List Entry)
        (config : ServerConfig) (choices : List Choice) (tree left : FileTree) (name : Name) (lane reader : ℕ) (ended : Outcome)
        → IsRun s turns past → 1 ≤ s.facts.read_len → IsWellFormed tree → ServesJournal config choices tree past left
        → RefuseNone choices → IsOneLanes s past name lane → NoneWrites s past name lane reader
        → HasNoFile (node_at tree name) → HasRead s past name lane reader ended
        → ended ≡ outcome.Refused (error.SftpError (refusal_of (node_at tree name)) [] []) }
{}

/// In a run, a lane each of whose calls keeps off a name keeps off it. So lanes that each have their own names are such
/// lanes.
pub fn lanes_of_other_names_keep_off()
    ensures { (s : Setting) (turns : List Turn) (past : List Entry) (name : Name) (lane : ℕ) → IsRun s turns past
        → all_keep_off name [] (lane_calls s past lane) ≡ true → KeepsOff past name lane }
{}
