//! Laws of the definitions. The functions do nothing: their postconditions hold of all values.
ghost use Rattle.std.specs.Prelude.{◌≡◌, ◌<◌, ◌⊎◌, ℕ, List, None};
ghost use Rattle.plan_model.specs.declared.call.Lane.{Lane};
ghost use Rattle.sftp_link.specs.Views.{LinkView};
ghost use Rattle.sftp_model.specs.declared.error.Error.TheVariants as error;
ghost use Rattle.sftp_model.specs.declared.options.SftpOptions.{SftpOptions};
ghost use Rattle.session_driver.specs.Refusals.{awaited_at};
ghost use Rattle.session_model.specs.declared.entry.Entry.{Entry};
ghost use Rattle.session_threads.specs.Failures.{IsWrongFrame};
ghost use Rattle.session_threads.specs.Reports.{StopsBy};

use sftp_link::LinkState;

/// A run is stopped by `LinkFault` only if the count of faults of one of its halves rose: never over halves that count
/// none, such as those of the server in memory.
pub fn link_faults_are_counted<O: LinkState, I: LinkState>()
    ensures { (lanes : List Lane) (options : SftpOptions) (out out_now : LinkView O.Service) (input input_now : LinkView I.Service)
        → StopsBy lanes options out out_now input input_now error.LinkFault
        → (out.faults < out_now.faults) ⊎ (input.faults < input_now.faults) }
{}

/// A frame that stops a run by `InvalidResponseId` has an id that no sent, unanswered request of the journal has.
pub fn invalid_ids_are_unawaited()
    ensures { (id : ℕ) (past : List Entry) (bytes : List ℕ)
        → IsWrongFrame (error.InvalidResponseId id) past bytes → awaited_at past id ≡ None }
{}
