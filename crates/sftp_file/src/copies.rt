//! `copy_to`: copies bytes of one file to another, on the server.
ghost use Rattle.std.specs.Prelude.{◌≡◌, ◌<◌, false, refl, Result as ResultValue};
ghost use Rattle.sftp_core.specs.Core.{Core as CoreValue};
ghost use Rattle.sftp_model.specs.declared.error.Error.{Error as ErrorValue};
ghost use Rattle.plan_state.specs.declared.poll.Poll.{Poll as PollValue};
ghost use Rattle.sftp_file.specs.Files.{FileValue};
ghost use Rattle.sftp_model.specs.Frames.{is_too_long};
ghost use Rattle.sftp_model.specs.declared.request.Request.TheVariants as request;
ghost use Rattle.plan_state.specs.Asked.{IsReady, request_of};
ghost use Rattle.plan_state.specs.declared.submission.Asking.TheVariants as asking;
ghost use Rattle.sftp_file.specs.Copies.{CopiesBetween, CopyStarts, CopyValue, MayCopy, copies_wait, copy_meaning};

use crate::facts::facts;
use crate::file::File;
use crate::looks::{offers, overflows};
use crate::short_calls::settled;
use plan_state::{Asking, PendingCall, PlanRunner, Poll, Then, Told};
use sftp_core::Core;
use sftp_model::numbers::SSH_FX_OK;
use sftp_model::{Error, Extensions, FileAt, IoKind, Reply, Request};
use std::marker::Model;

/// A `copy-data` request under way, between the offsets of two files.
///
/// Used by the functions of this module.
#[derive(Drop)]
pub struct Copying {
    source: FileAt,
    target: FileAt,
    len: u64,
}

impl Model for Copying {
    ghost use Rattle.std.specs.Prelude.{◌+◌, ◌<◌, ◌^◌};
    ghost use Rattle.sftp_file.specs.Copies.{CopyValue};

    ghost Value = { CopyValue };

    ghost view = { λ m. record { source = m.source; target = m.target; len = m.len } };

    ghost invariant = { λ m. (m.source.offset + m.len < 2 ^ 64) × (m.target.offset + m.len < 2 ^ 64) };
}

/// A copy under way.
pub type CopyCall = PendingCall<Copying>;

impl PlanRunner for Copying {
    type Value = ();

    ghost World = { Unit {0} };

    ghost meaning = { copy_meaning };

    ghost waits = { copies_wait };

    ghost stays = { λ (m : CopyValue). (refl, refl) };

    fn at_once(&mut self) -> Option<()> {
        None
    }

    fn on(&mut self, told: Told) -> Then<()> {
        match told {
            Told::Reply(
                Reply::Status {
                    code,
                    message,
                    language,
                },
            ) => {
                if code == SSH_FX_OK {
                    self.source.offset += self.len;
                    self.target.offset += self.len;
                    self.len = 0;
                }
                Then::Done(settled(code, message, language))
            }
            Told::Reply(_) => unreachable!(),
            Told::Granted(_grant) => unreachable!(),
        }
    }
}

impl Copying {
    /// Returns the offsets that the call has reached, in bytes: of the source file, and of the target file.
    pub fn offsets(&self) -> (u64, u64)
        ensures { (result.0 ≡ self.now.source.offset) × (result.1 ≡ self.now.target.offset) }
    {
        (self.source.offset, self.target.offset)
    }
}

/// Polls of a copy.
///
/// Example: `crates/test_client/src/polls.rt`.
pub trait PollCopy {
    // The precondition of a poll.
    ghost may: { CoreValue → Self → FileValue → FileValue → Type 0 };

    // The effect of a poll.
    ghost did: { CoreValue → CoreValue → Self → Self → FileValue → FileValue → FileValue → FileValue
        → PollValue (ResultValue (Unit {0}) ErrorValue) → Type 0 };

    /// Polls for the status of the copy.
    ///
    /// The files must be those that the copy was started on, at the offsets that the start left. Once the copy is done
    /// both are after the bytes that were asked for. Returns `Pending` exactly if the status was not taken and the core
    /// has recorded no fault.
    ///
    /// # Errors
    ///
    /// `SftpError` if the server refused the copy; `BackgroundTaskFailure` if the status was not taken and the core has
    /// recorded a fault.
    fn poll(&mut self, core: &mut Core, from: &mut File, to: &mut File) -> Poll<Result<(), Error>>
        requires { may core.old self.old from.old to.old }
        ensures { did core.old core.new self.old self.new from.old from.new to.old to.new result };
}

impl PollCopy for PendingCall<Copying> {
    ghost may = { MayCopy };

    ghost did = { CopiesBetween };

    fn poll(&mut self, core: &mut Core, from: &mut File, to: &mut File) -> Poll<Result<(), Error>> {
        let polled = self.step(core);
        let (source, target) = self.runner().offsets();
        from.stand(source);
        to.stand(target);
        polled
    }
}

impl File {
    /// Asks the server to copy `n` bytes at the offset of this file to the offset of the other (`copy-data`,
    /// draft-ietf-secsh-filexfer-extensions-00, section 7). `n` is at least 1.
    ///
    /// # Errors
    ///
    /// Checked in this order: `UnsupportedExtension`; `IOError(NotWritable)` of the other file; `IOError(NotReadable)`
    /// of this file; `IOError(OffsetOverflow)` if an offset and `n` together are over 18446744073709551615;
    /// `BackgroundTaskFailure` if the core has recorded a fault. `OutOfMemory` may come in place of any result. After
    /// an error nothing was submitted, and core and files are unchanged.
    pub fn start_copy_to(&mut self, core: &mut Core, to: &File, n: u64) -> Result<CopyCall, Error>
        requires ready { IsReady core.old }
        requires some { 0 < n }
        ensures starts { CopyStarts self.old to.now n core.old core.new result }
        ensures left { self.new ≡ self.old }
    {
        self.copy(core, to, n)
    }

    /// Asks the server to copy this file, from its offset to its end, to the offset of the other file, as
    /// `start_copy_to` does. Both offsets stay.
    ///
    /// # Errors
    ///
    /// Those of `start_copy_to`; nothing was submitted then, and core and files are unchanged.
    pub fn start_copy_all_to(&mut self, core: &mut Core, to: &File) -> Result<CopyCall, Error>
        requires ready { IsReady core.old }
        ensures starts { CopyStarts self.old to.now 0 core.old core.new result }
        ensures left { self.new ≡ self.old }
    {
        self.copy(core, to, 0)
    }

    /// Asks for a copy; 0 bytes means all.
    fn copy(&self, core: &mut Core, to: &File, n: u64) -> Result<CopyCall, Error>
        requires { IsReady core.old }
        ensures { CopyStarts self.now to.now n core.old core.new result }
    {
        if !offers(&facts(core), Extensions::COPY_DATA) {
            return Err(Error::UnsupportedExtension(Extensions::COPY_DATA));
        }
        if !to.is_writable() {
            return Err(Error::IOError(IoKind::NotWritable));
        }
        if !self.is_readable() {
            return Err(Error::IOError(IoKind::NotReadable));
        }
        let source = self.at();
        let target = FileAt {
            grant: 1,
            ..to.at()
        };
        if overflows(source.offset, n) {
            return Err(Error::IOError(IoKind::OffsetOverflow));
        }
        if overflows(target.offset, n) {
            return Err(Error::IOError(IoKind::OffsetOverflow));
        }
        let runner = Copying {
            source,
            target,
            len: n,
        };
        PendingCall::ask(core, self.copy_request(to, n), runner)
    }

    /// Returns the request for a copy. It fits a frame, since a handle has at most 256 bytes.
    fn copy_request(&self, to: &File, n: u64) -> Asking
        ensures is { result ≡ asking.Whole
            (request.CopyData self.now.grant.handle self.now.offset n to.now.grant.handle to.now.offset) }
        ensures short { is_too_long (request_of result) ≡ false }
    {
        let (from, target) = (self.grant().handle(), to.grant().handle());
        let _short = from.as_bytes();
        let _also = target.as_bytes();
        Asking::Whole(Request::CopyData {
            from: from.copied(),
            from_offset: self.offset(),
            len: n,
            to: target.copied(),
            to_offset: to.offset(),
        })
    }
}
