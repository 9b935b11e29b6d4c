//! `read`: reads at most `n` bytes at the file's offset.
ghost use Rattle.std.specs.Prelude.{◌≡◌, false, refl, IfOk};
ghost use Rattle.sftp_model.specs.Frames.{is_too_long};
ghost use Rattle.sftp_model.specs.declared.request.Request.TheVariants as request;
ghost use Rattle.plan_model.specs.TransferPlans.{read_next};
ghost use Rattle.plan_state.specs.Asked.{IsReady, request_of};
ghost use Rattle.plan_state.specs.declared.submission.Asking.TheVariants as asking;
ghost use Rattle.sftp_file.specs.Files.{StartsOnFile, file_at};
ghost use Rattle.sftp_file.specs.Outcomes.{read_answer};
ghost use Rattle.sftp_file.specs.Reads.{ReadValue, read_waits, read_meaning};

use crate::facts::facts;
use crate::file::File;
use crate::looks::may_read;
use crate::on_file::OnFile;
use bytes::Bytes;
use plan_state::{Asking, PendingCall, PlanRunner, Then, Told};
use sftp_core::Core;
use sftp_model::numbers::SSH_FX_EOF;
use sftp_model::{Error, FileAt, Handle, Reply, Request};
use sftp_values::ByteText;
use std::marker::Model;

/// A READ of a file under way, or a read of no bytes.
///
/// Used by the functions of this module.
#[derive(Drop)]
pub struct Reading {
    /// The file, at the offset of the READ.
    file: FileAt,
    /// The most bytes that may come.
    len: u32,
}

impl Model for Reading {
    ghost use Rattle.std.specs.Prelude.{◌+◌, ◌<◌, ◌^◌};
    ghost use Rattle.sftp_file.specs.Reads.{ReadValue};

    ghost Value = { ReadValue };

    ghost view = { λ m. record { file = m.file; len = m.len } };

    ghost invariant = { λ m. m.file.offset + m.len < 2 ^ 64 };
}

/// A read of a file under way. It returns the bytes, 1 or more; `None` at the end of the file, and for a read of no
/// bytes.
pub type ReadCall = PendingCall<Reading>;

impl PlanRunner for Reading {
    type Value = Option<Bytes>;

    ghost World = { Unit {0} };

    ghost meaning = { read_meaning };

    ghost waits = { read_waits };

    ghost stays = { λ (m : ReadValue). refl };

    fn at_once(&mut self) -> Option<Option<Bytes>> {
        Some(None)
    }

    fn on(&mut self, told: Told) -> Then<Option<Bytes>> {
        match told {
            Told::Reply(Reply::Content(bytes)) => {
                self.file.offset += bytes.len() as u64;
                self.len -= bytes.len() as u32;
                Then::Done(Ok(Some(bytes)))
            }
            Told::Reply(
                Reply::Status {
                    code,
                    message,
                    language,
                },
            ) => Then::Done(status_read(code, message, language)),
            Told::Reply(_) => unreachable!(),
            Told::Granted(_grant) => unreachable!(),
        }
    }
}

impl OnFile for Reading {
    ghost file = { λ (m : ReadValue). m.file };

    ghost moves = { λ (m next : ReadValue) same. same };

    fn offset(&self) -> u64 {
        self.file.offset
    }
}

/// Returns the answer that a STATUS is to a read.
fn status_read(code: u32, message: ByteText, language: ByteText) -> Result<Option<Bytes>, Error>
    ensures { result ≡ read_answer code message language }
{
    if code == SSH_FX_EOF {
        return Ok(None);
    }
    Err(Error::SftpError {
        code,
        message,
        language,
    })
}

impl File {
    /// Asks for at most `n` bytes at the offset, up to the limit of one READ (draft-ietf-secsh-filexfer-02, section
    /// 6.4). For no bytes nothing is asked, and the first poll returns `None`. The file stays as it is until the reply
    /// is polled.
    ///
    /// # Errors
    ///
    /// Checked in this order: `IOError(NotReadable)`; `IOError(OffsetOverflow)` if the offset and the length of the
    /// READ together are over 18446744073709551615; `BackgroundTaskFailure` if the core has recorded a fault.
    /// `OutOfMemory` may come in place of any result. After an error nothing was submitted, and core and file are
    /// unchanged.
    pub fn start_read(&mut self, core: &mut Core, n: u32) -> Result<ReadCall, Error>
        requires { IsReady core.old }
        ensures starts { StartsOnFile read_meaning tt (read_next 0 n) self.old core.old core.new result }
        ensures file { IfOk result (λ call. call.runner.file ≡ file_at self.old) }
        ensures left { self.new ≡ self.old }
    {
        let file = self.at();
        if n == 0 {
            return Ok(PendingCall::ready(Reading { file, len: 0 }));
        }
        let len = n.min(facts(core).read_len);
        if let Err(why) = may_read(&file, len) {
            return Err(Error::IOError(why));
        }
        let asking = read_request(self.grant().handle(), self.offset(), len);
        PendingCall::ask(core, asking, Reading { file, len })
    }
}

/// Returns the READ of `len` bytes at an offset. It fits a frame, since a handle has at most 256 bytes.
pub(crate) fn read_request(handle: &Handle, offset: u64, len: u32) -> Asking
    ensures is { result ≡ asking.Whole (request.Read handle.now offset len) }
    ensures short { is_too_long (request_of result) ≡ false }
{
    let _short = handle.as_bytes();
    Asking::Whole(Request::Read {
        handle: handle.copied(),
        offset,
        len,
    })
}
