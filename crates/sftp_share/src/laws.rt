//! Laws of the definitions; the functions do nothing, and their ensures clauses hold for all values.
ghost use Rattle.std.specs.Prelude.{◌≡◌, ◌⊎◌, ℕ, false, true, Ok, Option};
ghost use Rattle.program_shell.specs.declared.ending.Answered.TheVariants.{Done};
ghost use Rattle.program_shell.specs.Completed.{CompletesSource, HasCause};
ghost use Rattle.sftp_link.specs.Views.{SinkView, SourceView};
ghost use Rattle.script_grammar.specs.Scripts.{script_of};
ghost use Rattle.machine_halves.specs.Halves.{Halves};
ghost use Rattle.sftp_share.specs.Completed.{IsSharedStatus, WroteRun};
ghost use Rattle.sftp_share.specs.Ended.{ShareEnds};

use machine_halves::Pair;

/// States that a status names the true cause. The count of faults of the source rose if the status is 3, and that of
/// the sink if it is 4. Otherwise each count is unchanged.
pub fn statuses_have_causes<P: Pair<R>, R>()
    ensures { (before last : Option Halves) (status : ℕ) (from from_now : SourceView) (to to_now : SinkView)
        → ShareEnds (P.Out.LinkState.Service) (P.In.LinkState.Service) before last status from from_now to to_now
        → HasCause 3 status from.faults from_now.faults × HasCause 4 status to.faults to_now.faults }
{}

/// States the status of the program if neither the source nor the sink failed and no allocation failed. It is 0, 1 or 7
/// for bytes that read as a script, and 2 for other bytes.
pub fn runs_are_complete<P: Pair<R>, R>()
    ensures { (before last : Option Halves) (status : ℕ) (from from_now : SourceView) (to to_now : SinkView)
        → ShareEnds (P.Out.LinkState.Service) (P.In.LinkState.Service) before last status from from_now to to_now
        → from_now.faults ≡ from.faults → to_now.faults ≡ to.faults
        → CompletesSource script_of IsSharedStatus status from.left }
{}

/// States that the status shows if a replay differs. With 7 the whole text was written for a run whose replay differs,
/// and with 0 for one whose replay serves. If the whole text of a run was written, the status is one of these.
pub fn a_difference_is_told<P: Pair<R>, R>()
    ensures differs { (before last : Option Halves) (from from_now : SourceView) (to to_now : SinkView)
        → ShareEnds (P.Out.LinkState.Service) (P.In.LinkState.Service) before last 7 from from_now to to_now
        → WroteRun (P.Out.LinkState.Service) (P.In.LinkState.Service) last true from from_now to to_now }
    ensures serves { (before last : Option Halves) (from from_now : SourceView) (to to_now : SinkView)
        → ShareEnds (P.Out.LinkState.Service) (P.In.LinkState.Service) before last 0 from from_now to to_now
        → WroteRun (P.Out.LinkState.Service) (P.In.LinkState.Service) last false from from_now to to_now }
    ensures only { (before last : Option Halves) (status : ℕ) (from from_now : SourceView) (to to_now : SinkView)
        → (h : ShareEnds (P.Out.LinkState.Service) (P.In.LinkState.Service) before last status from from_now to to_now)
        → h.end ≡ Ok Done → (status ≡ 0) ⊎ (status ≡ 7) }
{}
