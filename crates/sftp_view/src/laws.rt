//! Laws of the definitions; the functions do nothing, and their ensures clauses hold for all values.
ghost use Rattle.std.specs.Prelude.{◌≡◌, ℕ, Option};
ghost use Rattle.sftp_map_server.specs.Serving.{Serving};
ghost use Rattle.program_shell.specs.Completed.{HasCause};
ghost use Rattle.sftp_view.specs.Completed.{CompletesProgram};
ghost use Rattle.sftp_view.specs.Ended.{ProgramEnds, Streams};
ghost use Rattle.sftp_view.specs.Words.{Asked};

/// States the status of the program if neither the source nor the sink failed and no allocation failed. It is 0 for a
/// list and 2 for bytes that are no list. Other arguments have their own status.
pub fn views_are_complete()
    ensures { (asked : Asked) (status : ℕ) (kept : Option Serving) (before now : Streams)
        → ProgramEnds asked status kept before now
        → now.source.faults ≡ before.source.faults → now.sink.faults ≡ before.sink.faults
        → CompletesProgram asked status before.source.left }
{}

/// States that a status names the true cause. The count of faults of the source rose if the status is 3, and that of
/// the sink if it is 4. Otherwise each count is unchanged.
pub fn statuses_have_causes()
    ensures { (asked : Asked) (status : ℕ) (kept : Option Serving) (before now : Streams)
        → ProgramEnds asked status kept before now
        → HasCause 3 status before.source.faults now.source.faults
        × HasCause 4 status before.sink.faults now.sink.faults }
{}
