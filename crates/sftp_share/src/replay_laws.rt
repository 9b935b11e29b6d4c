//! Laws of the definitions; the functions do nothing, and their ensures clauses hold for all values.
ghost use Rattle.std.specs.Prelude.{◌≡◌, ◌<◌, ℕ, List};
ghost use Rattle.machine_model.specs.FirstTree.{first_tree};
ghost use Rattle.machine_answers.specs.MachineState.{MAX_HANDLES, MachineState};
ghost use Rattle.session_model.specs.declared.entry.Entry.{Entry};
ghost use Rattle.session_model.specs.Calls.{Setting};
ghost use Rattle.session_model.specs.Journals.{IsJournal};
ghost use Rattle.session_model.specs.Readings.{trace_of, count_unanswered};
ghost use Rattle.session_model.specs.Served.{ServesJournal};
ghost use Rattle.script_grammar.specs.declared.script.Script.{Script};
ghost use Rattle.sftp_share.specs.declared.outcome.Replay.TheVariants as replay;
ghost use Rattle.sftp_share.specs.Replays.{NoHello, replay_of};

/// States that the trace of a session's journal can be replayed: no request of it is the hello. If the machine of a
/// script serves it and has granted fewer handles than exist, and nothing is unanswered, the replies are those of one
/// sequential run of the file machine. The run goes from the script's files and directories to those that the machine
/// is left with.
pub fn replays_serve()
    ensures hello { (s : Setting) (past : List Entry) → IsJournal s past → NoHello (trace_of past) }
    ensures serves { (script : Script) (s : Setting) (past : List Entry) (machine : MachineState) → IsJournal s past
        → replay_of script (trace_of past) ≡ replay.Serves machine → machine.grants < MAX_HANDLES → count_unanswered past ≡ 0
        → ServesJournal script.server script.choices (first_tree script.files script.dirs) past machine.tree }
{}
