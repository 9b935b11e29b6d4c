//! Polls of calls that move a file.
ghost use Rattle.std.specs.Prelude.{◌≡◌, Result as ResultValue};
ghost use Rattle.sftp_model.specs.declared.error.Error.{Error as ErrorValue};
ghost use Rattle.sftp_model.specs.declared.slot.FileAt.{FileAt as FileAtValue};
ghost use Rattle.sftp_core.specs.Core.{Core as CoreValue};
ghost use Rattle.plan_state.specs.Calls.{CallValue};
ghost use Rattle.plan_state.specs.declared.poll.Poll.{Poll as PollValue};
ghost use Rattle.sftp_file.specs.Files.{FileValue};
ghost use Rattle.sftp_file.specs.OnFiles.{MayPollOn, PolledOn};

use crate::file::File;
use plan_state::{PendingCall, PlanRunner, Poll};
use sftp_core::Core;
use sftp_model::Error;

/// A runner that moves a file.
///
/// Example: `crates/sftp_client/src/sftp/calls.rt`.
pub trait OnFile: PlanRunner {
    // The file, at the offset that the call has reached.
    ghost file: { Self → FileAtValue };

    /// Returns the offset that the call has reached, in bytes.
    fn offset(&self) -> u64
        ensures { result ≡ (file self.now).offset };

    // Only the offset changes as the runner continues.
    ghost moves: { (m next : Self) → Self.PlanRunner.meaning.stays m next
        → file next ≡ record (file m) { offset = (file next).offset } };
}

/// Polls of a call that moves a file.
///
/// Example: `crates/test_client/src/polls.rt`.
pub trait PollFile {
    /// The value that the call returns.
    type Value;

    // The precondition of a poll.
    ghost may: { CoreValue → Self → FileValue → Type 0 };

    // The effect of a poll.
    ghost did: { CoreValue → CoreValue → Self → Self → FileValue → FileValue
        → PollValue (ResultValue Self.Value ErrorValue) → Type 0 };

    /// Polls for the reply that the call awaits, and continues the call.
    ///
    /// The file must be the one that the call was started on, at the offset that the start or the last poll left.
    /// Afterwards it is at the offset that the call has reached. Returns `Pending` exactly if the reply was not taken
    /// and the core has recorded no fault, or if another request was submitted.
    ///
    /// # Errors
    ///
    /// `BackgroundTaskFailure` if the core has recorded a fault and the reply was not taken or another request is to be
    /// asked; `OutOfMemory` if an allocation fails, after which the call may be polled again; `SftpError` if the server
    /// refused; `IOError` if the call's next request is refused before it is sent.
    fn poll(&mut self, core: &mut Core, file: &mut File) -> Poll<Result<Self::Value, Error>>
        requires { may core.old self.old file.old }
        ensures { did core.old core.new self.old self.new file.old file.new result };
}

impl<M: OnFile> PollFile for PendingCall<M> {
    type Value = M::Value;

    ghost may = { MayPollOn M.PlanRunner.meaning M.file };

    ghost did = { PolledOn M.PlanRunner.meaning M.file };

    fn poll(&mut self, core: &mut Core, file: &mut File) -> Poll<Result<M::Value, Error>> {
        let polled = self.step(core);
        file.stand(self.runner().offset());
        polled
    }
}
