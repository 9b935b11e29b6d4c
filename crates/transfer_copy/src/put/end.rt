//! The end of a copy to the server: the CLOSE, and the requests that give the part file its name.
ghost use Rattle.std.specs.Prelude.{◌≡◌, None, IsSome};
ghost use Rattle.transfer_copy.specs.declared.put.PutStage.TheVariants as stage;
ghost use Rattle.transfer_copy.specs.PutEnds.{AsksNaming, ChecksOrFails, EndsRefused, EndsWriting, FindsFile, IsAside, IsClosedAt, NamedAgain, NamedOrChecks, OldRemoved, OldRestored, PutNamed, RemovesOld, rename_stage};
ghost use Rattle.transfer_copy.specs.PutRequests.{offers_rename};
ghost use Rattle.transfer_copy.specs.Puts.{IsBetween, IsNaming, MayPut, PutHasEnded, PutLeaves};

use super::{FilePut, PutStage};
use crate::aside::is_directory;
use crate::copy_error::CopyError;
use crate::holding::{AttrsAnswer, StatusAnswer};
use crate::paths::{naming_request, offers};
use crate::progress::Progress;
use crate::refusals::is_failure;
use sftp_core::Core;
use sftp_model::Extensions;
use ssh_encoding::OutOfMemory;

impl FilePut {
    /// Continues with the status of the CLOSE.
    pub(super) fn close(&mut self, core: &mut Core, part: &str, remote: &str) -> Progress
        requires { MayPut core.old self.old × (self.old.stage ≡ stage.Closing) }
        ensures did { EndsWriting part.now remote.now core.old self.old core.new self.new result }
        ensures leaves { PutLeaves core.old self.old core.new self.new }
        ensures ended { PutHasEnded self.new.stage result }
    {
        match self.holding.settle_status(core) {
            StatusAnswer::Missing => Progress::Waits,
            StatusAnswer::Done => self.closed(core, part, remote),
            StatusAnswer::NotDone(e) => {
                self.stage = PutStage::Ended;
                match self.failure.take() {
                    Some(first) => Progress::Ended(Err(first)),
                    None => Progress::Ended(Err(e)),
                }
            }
        }
    }

    /// Continues after the file is closed: if nothing failed, the part file is renamed.
    fn closed(&mut self, core: &mut Core, part: &str, remote: &str) -> Progress
        requires { IsBetween core.old self.old }
        ensures did { IsClosedAt part.now remote.now core.old self.old core.new self.new result }
        ensures leaves { PutLeaves core.old self.old core.new self.new }
        ensures ended { PutHasEnded self.new.stage result }
    {
        match self.failure.take() {
            Some(first) => {
                self.stage = PutStage::Ended;
                Progress::Ended(Err(first))
            }
            None => self.name(core, part, remote),
        }
    }

    /// Asks for the part file to be renamed. The rename replaces a file that has the name, if the server can do that.
    fn name(&mut self, core: &mut Core, part: &str, remote: &str) -> Progress
        requires { IsBetween core.old self.old }
        ensures did { AsksNaming part.now remote.now (rename_stage (offers_rename core.old)) core.old self.old core.new self.new result }
        ensures leaves { PutLeaves core.old self.old core.new self.new }
        ensures ended { PutHasEnded self.new.stage result }
    {
        if offers(core, Extensions::POSIX_RENAME) {
            return self.ask(core, part, remote, PutStage::Replacing);
        }
        self.ask(core, part, remote, PutStage::Renaming)
    }

    /// Submits the request of a stage, which is awaited there. If that fails, the copy has ended.
    fn ask(&mut self, core: &mut Core, part: &str, remote: &str, to: PutStage) -> Progress
        requires between { IsBetween core.old self.old }
        requires stage { IsNaming to self.old.failure }
        ensures did { AsksNaming part.now remote.now to core.old self.old core.new self.new result }
        ensures leaves { PutLeaves core.old self.old core.new self.new }
        ensures ended { PutHasEnded self.new.stage result }
    {
        let request = match naming_request(core.alloc(), part, remote, to) {
            Ok(request) => request,
            Err(OutOfMemory) => {
                self.stage = PutStage::Ended;
                return Progress::Ended(Err(CopyError::OutOfMemory));
            }
        };
        match self.holding.ask(core, &request) {
            Ok(()) => {
                self.stage = to;
                Progress::Moved
            }
            Err(e) => {
                self.stage = PutStage::Ended;
                Progress::Ended(Err(e))
            }
        }
    }

    /// Ends the copy with the refusal that is kept.
    fn end_refused(&mut self) -> Progress
        requires { IsSome self.old.failure }
        ensures { EndsRefused self.old self.new result }
    {
        self.stage = PutStage::Ended;
        match self.failure.take() {
            Some(first) => Progress::Ended(Err(first)),
            None => unreachable!(),
        }
    }

    /// Continues with the status of the rename that replaces a file.
    pub(super) fn replace(&mut self, core: &mut Core) -> Progress
        requires { MayPut core.old self.old × (self.old.stage ≡ stage.Replacing) }
        ensures did { PutNamed core.old self.old core.new self.new result }
        ensures leaves { PutLeaves core.old self.old core.new self.new }
        ensures ended { PutHasEnded self.new.stage result }
    {
        match self.holding.settle_status(core) {
            StatusAnswer::Missing => Progress::Waits,
            StatusAnswer::Done => {
                self.stage = PutStage::Ended;
                Progress::Ended(Ok(self.offset))
            }
            StatusAnswer::NotDone(e) => {
                self.stage = PutStage::Ended;
                Progress::Ended(Err(e))
            }
        }
    }

    /// Continues with the status of a plain RENAME.
    pub(super) fn rename(&mut self, core: &mut Core, part: &str, remote: &str) -> Progress
        requires { MayPut core.old self.old × (self.old.stage ≡ stage.Renaming) }
        ensures did { NamedOrChecks part.now remote.now core.old self.old core.new self.new result }
        ensures leaves { PutLeaves core.old self.old core.new self.new }
        ensures ended { PutHasEnded self.new.stage result }
    {
        match self.holding.settle_status(core) {
            StatusAnswer::Missing => Progress::Waits,
            StatusAnswer::Done => {
                self.stage = PutStage::Ended;
                Progress::Ended(Ok(self.offset))
            }
            StatusAnswer::NotDone(e) => self.check_or_fail(core, part, remote, e),
        }
    }

    /// Continues after a plain RENAME was refused. If the refusal is FAILURE, which names no cause, a file may have the
    /// name: the entry that has it is looked for, without following a link. Otherwise the copy ends.
    fn check_or_fail(&mut self, core: &mut Core, part: &str, remote: &str, e: CopyError) -> Progress
        requires { IsBetween core.old self.old }
        ensures did { ChecksOrFails e part.now remote.now core.old self.old core.new self.new result }
        ensures leaves { PutLeaves core.old self.old core.new self.new }
        ensures ended { PutHasEnded self.new.stage result }
    {
        if is_failure(&e) {
            self.failure = Some(e);
            return self.ask(core, part, remote, PutStage::Checking);
        }
        self.stage = PutStage::Ended;
        Progress::Ended(Err(e))
    }

    /// Continues with the attributes of the entry that has the name. If it is no directory, it is renamed aside.
    /// Otherwise, and if there is none, the copy ends with the refusal of the RENAME.
    pub(super) fn check(&mut self, core: &mut Core, part: &str, remote: &str) -> Progress
        requires { MayPut core.old self.old × (self.old.stage ≡ stage.Checking) }
        ensures did { FindsFile part.now remote.now core.old self.old core.new self.new result }
        ensures leaves { PutLeaves core.old self.old core.new self.new }
        ensures ended { PutHasEnded self.new.stage result }
    {
        match self.holding.settle_attrs(core) {
            AttrsAnswer::Missing => Progress::Waits,
            AttrsAnswer::NotFound => self.end_refused(),
            AttrsAnswer::Found(attrs) => {
                if is_directory(&attrs) {
                    return self.end_refused();
                }
                self.ask(core, part, remote, PutStage::SettingAside)
            }
        }
    }

    /// Continues after the rename of the old file aside: the part file is renamed again. If the old file was not
    /// renamed, the copy ends with the refusal of the first RENAME.
    pub(super) fn set_aside(&mut self, core: &mut Core, part: &str, remote: &str) -> Progress
        requires { MayPut core.old self.old × (self.old.stage ≡ stage.SettingAside) }
        ensures did { IsAside part.now remote.now core.old self.old core.new self.new result }
        ensures leaves { PutLeaves core.old self.old core.new self.new }
        ensures ended { PutHasEnded self.new.stage result }
    {
        match self.holding.settle_status(core) {
            StatusAnswer::Missing => Progress::Waits,
            StatusAnswer::Done => self.ask(core, part, remote, PutStage::RenamingAgain),
            StatusAnswer::NotDone(_e) => self.end_refused(),
        }
    }

    /// Continues with the status of the second RENAME. If the part file has the name, the old file is removed;
    /// otherwise the old file is renamed back.
    pub(super) fn name_again(&mut self, core: &mut Core, part: &str, remote: &str) -> Progress
        requires { MayPut core.old self.old × (self.old.stage ≡ stage.RenamingAgain) }
        ensures did { NamedAgain part.now remote.now core.old self.old core.new self.new result }
        ensures leaves { PutLeaves core.old self.old core.new self.new }
        ensures ended { PutHasEnded self.new.stage result }
    {
        match self.holding.settle_status(core) {
            StatusAnswer::Missing => Progress::Waits,
            StatusAnswer::Done => self.ask_removal(core, part, remote),
            StatusAnswer::NotDone(e) => {
                self.failure = Some(e);
                self.ask(core, part, remote, PutStage::RestoringOld)
            }
        }
    }

    /// Asks for the old file to be removed, after the part file got the name. If that can't be submitted, the old file
    /// stays aside, and the copy has ended all the same.
    fn ask_removal(&mut self, core: &mut Core, part: &str, remote: &str) -> Progress
        requires { IsBetween core.old self.old }
        ensures did { RemovesOld part.now remote.now core.old self.old core.new self.new result }
        ensures leaves { PutLeaves core.old self.old core.new self.new }
        ensures ended { PutHasEnded self.new.stage result }
    {
        match self.ask(core, part, remote, PutStage::RemovingOld) {
            Progress::Waits => unreachable!(),
            Progress::Moved => Progress::Moved,
            Progress::Ended(_unasked) => Progress::Ended(Ok(self.offset)),
        }
    }

    /// Ends the copy after the old file was removed. If it was not, it stays aside, and the copy has its count all the
    /// same.
    pub(super) fn remove_old(&mut self, core: &mut Core) -> Progress
        requires { MayPut core.old self.old × (self.old.stage ≡ stage.RemovingOld) }
        ensures did { OldRemoved core.old self.old core.new self.new result }
        ensures leaves { PutLeaves core.old self.old core.new self.new }
        ensures ended { PutHasEnded self.new.stage result }
    {
        match self.holding.settle_status(core) {
            StatusAnswer::Missing => Progress::Waits,
            StatusAnswer::Done => {
                self.stage = PutStage::Ended;
                Progress::Ended(Ok(self.offset))
            }
            StatusAnswer::NotDone(_e) => {
                self.stage = PutStage::Ended;
                Progress::Ended(Ok(self.offset))
            }
        }
    }

    /// Ends the copy with the refusal of the second RENAME, after the old file was renamed back. If it was not, it
    /// stays aside.
    pub(super) fn restore_old(&mut self, core: &mut Core) -> Progress
        requires { MayPut core.old self.old × (self.old.stage ≡ stage.RestoringOld) }
        ensures did { OldRestored core.old self.old core.new self.new result }
        ensures leaves { PutLeaves core.old self.old core.new self.new }
        ensures ended { PutHasEnded self.new.stage result }
    {
        match self.holding.settle_status(core) {
            StatusAnswer::Missing => Progress::Waits,
            StatusAnswer::Done => self.end_refused(),
            StatusAnswer::NotDone(_e) => self.end_refused(),
        }
    }
}
