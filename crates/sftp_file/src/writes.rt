//! `write`: writes the first bytes, up to the limit of one WRITE.
ghost use Rattle.std.specs.Prelude.{◌≡◌, ◌∷◌, [], ℕ, ◌≤◌, refl, length, IfOk, false};
ghost use Rattle.sftp_model.specs.Numbers.{MAX_TRANSFER_LEN};
ghost use Rattle.sftp_model.specs.Pieces.{joined_pieces};
ghost use Rattle.plan_model.specs.TransferPlans.{next_part, write_next};
ghost use Rattle.sftp_core.specs.Core.{queued_parts};
ghost use Rattle.plan_state.specs.Asked.{IsReady, request_of};
ghost use Rattle.plan_state.specs.declared.stage.Stage.TheVariants as stage;
ghost use Rattle.sftp_file.specs.Files.{StartsOnFile, facts_of, file_at};
ghost use Rattle.sftp_file.specs.Parts.{cut_at};
ghost use Rattle.sftp_file.specs.Writes.{WriteValue, WritesParts, write_waits, write_meaning};
ghost use Rattle.sftp_model.specs.Frames.{is_too_long};
ghost use Rattle.plan_state.specs.declared.submission.Asking.TheVariants as asking;

use crate::facts::facts;
use crate::file::File;
use crate::looks::may_write;
use crate::on_file::OnFile;
use crate::parts::{cut, one_piece};
use bytes::Bytes;
use plan_state::{Asking, PendingCall, PlanRunner, Then, Told};
use sftp_core::Core;
use sftp_model::numbers::SSH_FX_OK;
use sftp_model::{Error, FileAt, Handle, Reply};
use sftp_values::Items;
use ssh_encoding::OutOfMemory;
use std::marker::Model;

/// A WRITE of a file under way, or a write of no bytes.
///
/// Used by the functions of this module.
#[derive(Drop)]
pub struct Sending {
    /// The file, at the offset of the WRITE.
    file: FileAt,
    /// The number of bytes that the WRITE carries.
    len: u32,
}

impl Model for Sending {
    ghost use Rattle.std.specs.Prelude.{◌+◌, ◌<◌, ◌^◌};
    ghost use Rattle.sftp_file.specs.Writes.{WriteValue};

    ghost Value = { WriteValue };

    ghost view = { λ m. record { file = m.file; len = m.len } };

    ghost invariant = { λ m. m.file.offset + m.len < 2 ^ 64 };
}

/// A write of a file under way. It returns how many bytes were written.
pub type WriteCall = PendingCall<Sending>;

impl PlanRunner for Sending {
    type Value = usize;

    ghost World = { Unit {0} };

    ghost meaning = { write_meaning };

    ghost waits = { write_waits };

    ghost stays = { λ (m : WriteValue). refl };

    fn at_once(&mut self) -> Option<usize> {
        Some(0)
    }

    fn on(&mut self, told: Told) -> Then<usize> {
        match told {
            Told::Reply(
                Reply::Status {
                    code,
                    message,
                    language,
                },
            ) => {
                if code != SSH_FX_OK {
                    return Then::Done(Err(Error::SftpError {
                        code,
                        message,
                        language,
                    }));
                }
                let len = self.len;
                self.file.offset += len as u64;
                self.len = 0;
                Then::Done(Ok(len as usize))
            }
            Told::Reply(_) => unreachable!(),
            Told::Granted(_grant) => unreachable!(),
        }
    }
}

impl OnFile for Sending {
    ghost file = { λ (m : WriteValue). m.file };

    ghost moves = { λ (m next : WriteValue) same. same };

    fn offset(&self) -> u64 {
        self.file.offset
    }
}

impl File {
    /// Writes the first of these bytes at the offset, up to the limit of one WRITE of the session
    /// (draft-ietf-secsh-filexfer-02, section 6.4). For no bytes nothing is asked, and the first poll returns 0. The
    /// bytes are copied once.
    ///
    /// # Errors
    ///
    /// Checked in this order: `IOError(NotWritable)`; `IOError(OffsetOverflow)` if the offset and the length of the
    /// WRITE together are over 18446744073709551615; `BackgroundTaskFailure` if the core has recorded a fault.
    /// `OutOfMemory` may come in place of any result. After an error nothing was submitted, and core and file are
    /// unchanged.
    pub fn start_write(&mut self, core: &mut Core, buf: &[u8]) -> Result<WriteCall, Error>
        requires { IsReady core.old }
        ensures starts { StartsOnFile write_meaning tt (write_next 0 buf.now) self.old core.old core.new result }
        ensures shared { IfOk result (λ call. (ticket : ℕ) → call.stage ≡ stage.Asked ticket → core.new
            ≡ queued_parts core.old ticket self.old.grant.handle self.old.offset
            (next_part (facts_of core.old) buf.now ∷ [])) }
        ensures file { IfOk result (λ call. call.runner.file ≡ file_at self.old) }
        ensures left { self.new ≡ self.old }
    {
        let len = buf.len().min(facts(core).write_len as usize);
        match one_piece(core.alloc(), &buf[..len]) {
            Ok(piece) => self.write_parts(core, piece, len),
            Err(OutOfMemory) => Err(Error::OutOfMemory),
        }
    }

    /// Writes the first bytes of these pieces, joined, as `start_write` does. No byte is copied: the bytes that are
    /// sent are cut out of the pieces.
    ///
    /// # Errors
    ///
    /// Those of `start_write`.
    pub fn start_write_vectorized(
        &mut self,
        core: &mut Core,
        bufs: &[Bytes],
    ) -> Result<WriteCall, Error>
        requires { IsReady core.old }
        ensures starts { StartsOnFile write_meaning tt (write_next 0 (joined_pieces bufs.now)) self.old core.old core.new result }
        ensures shared { IfOk result (λ call. (ticket : ℕ) → call.stage ≡ stage.Asked ticket → core.new
            ≡ queued_parts core.old ticket self.old.grant.handle self.old.offset
            (cut_at 0 (facts_of core.old).write_len bufs.now)) }
        ensures file { IfOk result (λ call. call.runner.file ≡ file_at self.old) }
        ensures left { self.new ≡ self.old }
    {
        let limit = facts(core).write_len as usize;
        match cut(core.alloc(), bufs, 0, limit) {
            Ok((parts, len)) => self.write_parts(core, parts, len),
            Err(OutOfMemory) => Err(Error::OutOfMemory),
        }
    }

    /// Does the same as `start_write_vectorized`, under another name.
    ///
    /// # Errors
    ///
    /// Those of `start_write_vectorized`.
    pub fn start_write_zero_copy(
        &mut self,
        core: &mut Core,
        bufs: &[Bytes],
    ) -> Result<WriteCall, Error>
        requires { IsReady core.old }
        ensures starts { StartsOnFile write_meaning tt (write_next 0 (joined_pieces bufs.now)) self.old core.old core.new result }
        ensures shared { IfOk result (λ call. (ticket : ℕ) → call.stage ≡ stage.Asked ticket → core.new
            ≡ queued_parts core.old ticket self.old.grant.handle self.old.offset
            (cut_at 0 (facts_of core.old).write_len bufs.now)) }
        ensures file { IfOk result (λ call. call.runner.file ≡ file_at self.old) }
        ensures left { self.new ≡ self.old }
    {
        self.start_write_vectorized(core, bufs)
    }

    /// Writes these parts in one WRITE.
    fn write_parts(
        &self,
        core: &mut Core,
        parts: Vec<Bytes>,
        len: usize,
    ) -> Result<WriteCall, Error>
        requires ready { IsReady core.old }
        requires len { len ≡ length (joined_pieces parts.items) }
        requires most { (len ≤ (facts_of core.old).write_len)
            × (1 ≤ (facts_of core.old).write_len)
            × ((facts_of core.old).write_len ≤ MAX_TRANSFER_LEN) }
        ensures { WritesParts self.now parts.items core.old core.new result }
    {
        let file = self.at();
        if len == 0 {
            return Ok(PendingCall::ready(Sending { file, len: 0 }));
        }
        if let Err(why) = may_write(&file, len) {
            return Err(Error::IOError(why));
        }
        let asking = write_request(self.grant().handle(), file.offset, parts);
        PendingCall::ask(
            core,
            asking,
            Sending {
                file,
                len: len as u32,
            },
        )
    }
}

/// Returns the WRITE of these parts at an offset.
pub(crate) fn write_request(handle: &Handle, offset: u64, parts: Vec<Bytes>) -> Asking
    requires { length (joined_pieces parts.items) ≤ MAX_TRANSFER_LEN }
    ensures is { result ≡ asking.Parts handle.now offset parts.items }
    ensures short { is_too_long (request_of result) ≡ false }
{
    let _short = handle.as_bytes();
    Asking::Parts {
        handle: handle.copied(),
        offset,
        parts: Items::new(parts),
    }
}
