//! Laws of the definitions; the functions do nothing, and their ensures clauses hold for all values.
ghost use Rattle.std.specs.Prelude.{◌≡◌, ℕ, Option};
ghost use Rattle.sftp_map_server.specs.Serving.{Serving};
ghost use Rattle.program_shell.specs.Completed.{HasCauses};
ghost use Rattle.program_shell.specs.Outside.{Outside};
ghost use Rattle.sftp_mirror.specs.Completed.{CompletesProgram};
ghost use Rattle.sftp_mirror.specs.Ended.{ProgramEnds};
ghost use Rattle.sftp_mirror.specs.Words.{Asked};

use sftp_link::Dial;

/// States the status of the program if neither the source nor the sink failed and no allocation failed. It is 0 for a
/// list in memory, 0, 1 or 6 over a link, and 2 for bytes that are no list. Other arguments have their own status.
pub fn copies_are_complete<D: Dial>()
    ensures { (asked : Asked) (status : ℕ) (kept : Option Serving) (before now : Outside D.History)
        → ProgramEnds D.dialled asked status kept before now
        → now.source.faults ≡ before.source.faults → now.sink.faults ≡ before.sink.faults
        → CompletesProgram asked status before.source.left }
{}

/// States that a status names the true cause. The count of faults rose for the source if the status is 3, for the sink
/// if it is 4, and for the dial if it is 6. Otherwise each count is unchanged.
pub fn statuses_have_causes<D: Dial>()
    ensures { (asked : Asked) (status : ℕ) (kept : Option Serving) (before now : Outside D.History)
        → ProgramEnds D.dialled asked status kept before now → HasCauses status before now }
{}
