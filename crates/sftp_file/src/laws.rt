//! Laws of the definitions. The functions do nothing: their postconditions hold of all values.
ghost use Rattle.std.specs.Prelude.{◌≡◌, ℕ, Ok};
ghost use Rattle.plan_model.specs.Moves.{Answers, handle_of};
ghost use Rattle.sftp_core.specs.Core.{Core};
ghost use Rattle.plan_state.specs.Calls.{CallValue, StepsByPlan, TellsReply};
ghost use Rattle.plan_state.specs.declared.poll.Poll.TheVariants as poll;
ghost use Rattle.plan_state.specs.declared.stage.Stage.TheVariants as stage;
ghost use Rattle.sftp_file.specs.Files.{IsHandleOfFile, FileValue};
ghost use Rattle.sftp_file.specs.Opens.{open_meaning};
ghost use Rattle.sftp_file.specs.declared.opens.Opening.{Opening};

/// The file that the poll of an open returns has the number of the open's ticket, and the handle of the HANDLE that
/// answered it. So a later call of the same lane, with that reply at place 0, finds the file brought.
pub fn opened_files_are_brought()
    ensures number { (old new : Core) (p q : CallValue Opening) (f : FileValue) (ticket : ℕ)
        → StepsByPlan open_meaning old new p q (poll.Ready (Ok f)) → p.stage ≡ stage.Asked ticket → f.grant.id ≡ ticket }
    ensures handle { (old new : Core) (p q : CallValue Opening) (f : FileValue) (answers : Answers)
        → StepsByPlan open_meaning old new p q (poll.Ready (Ok f)) → TellsReply open_meaning old p answers
        → handle_of (answers 1) ≡ f.grant.handle }
    ensures brought { (old new : Core) (p q : CallValue Opening) (f : FileValue) (answers later : Answers)
        → StepsByPlan open_meaning old new p q (poll.Ready (Ok f)) → TellsReply open_meaning old p answers
        → later 0 ≡ answers 1 → IsHandleOfFile f later }
{}
