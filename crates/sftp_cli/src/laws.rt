//! Laws of the definitions; the functions do nothing, and their ensures clauses hold for all values.
ghost use Rattle.std.specs.Prelude.{◌≡◌, ℕ, true, List, [], Option};
ghost use Rattle.sftp_model.specs.declared.options.SftpOptions.{SftpOptions};
ghost use Rattle.plan_model.specs.declared.call.Lane.{Lane};
ghost use Rattle.script_grammar.specs.declared.script.Script.{Script};
ghost use Rattle.plan_model.specs.Lanes.{are_ok};
ghost use Rattle.sftp_map_server.specs.Serving.{IsServing, Serving};
ghost use Rattle.sftp_map_server.specs.Unopened.{IsUnopened};
ghost use Rattle.sftp_lanes.specs.ServesFiles.{ServesFiles};
ghost use Rattle.sftp_cli.specs.declared.printed.Form.{Form};
ghost use Rattle.program_shell.specs.Completed.{HasCauses};
ghost use Rattle.program_shell.specs.Outside.{Outside};
ghost use Rattle.sftp_cli.specs.Completed.{CompletesProgram};
ghost use Rattle.sftp_cli.specs.Ended.{ProgramEnds};
ghost use Rattle.sftp_cli.specs.Printed.{IsPrinted};
ghost use Rattle.sftp_cli.specs.Words.{Asked};

use sftp_link::Dial;

/// States that a script fixes its text, whole or as a summary: two texts that are right for it are the same, whichever
/// server was kept.
pub fn scripts_fix_texts()
    ensures { (form : Form) (script : Script) (one other : Option Serving) (text same : List ℕ) → IsPrinted form one script text
        → IsPrinted form other script same → text ≡ same }
{}

/// States the status of the program if neither the source nor the sink failed and no allocation failed. It is 0 for a
/// script in memory, and 0, 1 or 6 over a link. It is 2 for bytes that are no script, and 0 for a summary. Other
/// arguments have their own status.
pub fn runs_are_complete<D: Dial>()
    ensures { (asked : Asked) (status : ℕ) (kept : Option Serving) (before now : Outside D.History)
        → ProgramEnds D.dialled asked status kept before now
        → now.source.faults ≡ before.source.faults → now.sink.faults ≡ before.sink.faults
        → CompletesProgram asked status before.source.left }
{}

/// States that a status names the true cause. The count of faults rose for the source if the status is 3, for the sink
/// if it is 4, and for the dial if it is 6. Otherwise each count is unchanged.
pub fn statuses_have_causes<D: Dial>()
    ensures { (asked : Asked) (status : ℕ) (kept : Option Serving) (before now : Outside D.History)
        → ProgramEnds D.dialled asked status kept before now → HasCauses status before now }
{}

/// States that a server in memory to which nothing was sent serves files over its link, for all lanes that a session
/// can be given. So every statement of `run_lanes` on such links holds for this one.
pub fn servers_in_memory_serve_files()
    ensures { (lanes : List Lane) (options : SftpOptions) (server : Serving) → are_ok lanes ≡ true → IsUnopened server.first
        → IsServing server.first server.now server.log server.ended
        → ServesFiles lanes options server.first.state.machine.config server.first.state.choices server.first.state.machine.tree server.now.state.machine.tree [] server.log }
{}
