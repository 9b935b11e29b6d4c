//! Bytes that are written one after another.
ghost use Rattle.std.specs.Prelude.{◌≡◌, ◌≤◌, ◌<◌, ◌+◌, ◌-◌, ◌^◌, [], ◌∷◌, None, true, false, length, IfErr, OnOk, IfOk, IsSome};
ghost use Rattle.sftp_model.specs.Answers.{allows_reply};
ghost use Rattle.sftp_model.specs.Numbers.{MAX_TRANSFER_LEN};
ghost use Rattle.sftp_model.specs.declared.answers.Expected.TheVariants as expected;
ghost use Rattle.sftp_core.specs.Core.{Core as CoreValue};
ghost use Rattle.sftp_core.specs.Info.{info_of};
ghost use Rattle.plan_state.specs.Asked.{SubmitsAsking};
ghost use Rattle.plan_state.specs.declared.submission.Asking.TheVariants as asking;
ghost use Rattle.sftp_streams.specs.Parts.{AreAwaited, IsUnasked, KeepsOthersHeld, without_parts};
ghost use Rattle.sftp_streams.specs.Uploads.{AsksWrite, BeginsUpload, IsAccepted, IsRefusedPush, IsWriting, MayPush, MayWrite, PollsUpload, room_of, status_kind};

use crate::parts::{Answer, Part, Unasked, abandon_parts, take_reply};
use bytes::Bytes;
use sftp_core::{Core, MAX_IDS, SubmitError, Ticket};
use sftp_file::{File, Poll};
use sftp_model::numbers::SSH_FX_OK;
use sftp_model::{Error, Handle, IoKind, Reply};
use std::collections::VecDeque;
use std::marker::Model;
use std::slice;

/// Bytes written to an open file one after another from an offset on, with a window of WRITEs under way
/// (draft-ietf-secsh-filexfer-02, section 6.4). It isn't droppable: `cancel` consumes it, also after it has ended.
///
/// Example: `crates/test_client/src/streams.rt`.
#[must_use]
pub struct Upload {
    handle: Handle,
    write_len: u32,
    window: usize,
    offset: u64,
    next: u64,
    parts: VecDeque<Part>,
    ended: bool,
}

impl Model for Upload {
    ghost use Rattle.sftp_streams.specs.Uploads.{UploadValue};

    ghost Value = { UploadValue };

    ghost view = { λ u. record { handle = u.handle; write_len = u.write_len; window = u.window; offset = u.offset; next = u.next; parts = u.parts.items; ended = u.ended } };
}

impl Upload {
    /// Returns an upload to a file from its offset on, with at most `window` WRITEs under way. Each WRITE has at most
    /// as many bytes as one WRITE of the session carries. The file must stay open until the upload has ended: it is
    /// written by its handle.
    ///
    /// # Errors
    ///
    /// `IOError(NotWritable)` if the file was not opened to write.
    pub fn new(core: &Core, file: &File, window: usize) -> Result<Upload, Error>
        requires opened { IsSome (info_of core.now.phase) }
        requires wide { 1 ≤ window }
        ensures begins { BeginsUpload core.now file.now window result }
        ensures held { IfOk result (λ u. (any : CoreValue) → IsWriting any u) }
    {
        let Some(info) = core.info() else {
            unreachable!()
        };
        if !file.is_writable() {
            return Err(Error::IOError(IoKind::NotWritable));
        }
        let offset = file.offset();
        Ok(Upload {
            handle: file.grant().handle().copied(),
            write_len: info.write_len,
            window,
            offset,
            next: offset,
            parts: VecDeque::new(core.alloc()),
            ended: false,
        })
    }

    /// Returns the offset of the first byte whose WRITE the server has not said OK to.
    pub fn offset(&self) -> u64
        ensures { result ≡ self.now.offset }
    {
        self.offset
    }

    /// Returns the offset at which the next bytes are written.
    pub fn next(&self) -> u64
        ensures { result ≡ self.now.next }
    {
        self.next
    }

    /// Returns true if a poll has returned an error. The upload can't be polled then.
    pub fn is_ended(&self) -> bool
        ensures { result ≡ self.now.ended }
    {
        self.ended
    }

    /// Returns how many bytes `push` takes now: those of one WRITE; 0 if the window is full, and at the greatest
    /// offset.
    pub fn room(&self) -> u32
        ensures { result ≡ room_of self.now }
    {
        if self.parts.len() >= self.window {
            return 0;
        }
        let next = self.next;
        (self.write_len as u64).min(u64::MAX - next) as u32
    }

    /// Writes these bytes after the ones before, in one WRITE. They are shared and not copied.
    ///
    /// # Errors
    ///
    /// `OutOfMemory` if an allocation fails or no id is free: the push may be repeated. `BackgroundTaskFailure` if the
    /// core has recorded a fault. After an error nothing was submitted, and core and upload are unchanged.
    pub fn push(&mut self, core: &mut Core, bytes: &Bytes) -> Result<(), Error>
        requires { MayPush core.old self.old bytes.now }
        ensures ok { OnOk result (AsksWrite core.old self.old bytes.now core.new self.new) }
        ensures err { IfErr result (λ e. IsRefusedPush core.old e × (core.new ≡ core.old) × (self.new ≡ self.old)) }
    {
        match self.ask(core, bytes) {
            Ok(()) => Ok(()),
            Err(Unasked::Short) => Err(Error::OutOfMemory),
            Err(Unasked::Failed(fault)) => Err(Error::BackgroundTaskFailure(fault)),
        }
    }

    /// Asks for a WRITE of these bytes after the others.
    fn ask(&mut self, core: &mut Core, bytes: &Bytes) -> Result<(), Unasked>
        requires { MayPush core.old self.old bytes.now }
        ensures ok { OnOk result (AsksWrite core.old self.old bytes.now core.new self.new) }
        ensures err { IfErr result (λ e. IsUnasked core.old e × (core.new ≡ core.old) × (self.new ≡ self.old)) }
    {
        if self.parts.reserve(1).is_err() {
            return Err(Unasked::Short);
        }
        let (offset, len) = (self.next, bytes.len() as u32);
        let ticket = submit_write(core, &self.handle, offset, bytes)?;
        self.parts.push_back_reserved(Part { ticket, len });
        self.next = offset + len as u64;
        Ok(())
    }

    /// Continues with the status of the first WRITE, which carried `len` bytes.
    fn accept(&mut self, reply: Reply, len: u32) -> Result<Option<u32>, Error>
        requires allowed { allows_reply expected.Status reply ≡ true }
        requires small { self.old.offset + len < 2 ^ 64 }
        ensures { IsAccepted self.old len reply self.new result }
    {
        match reply {
            Reply::Status {
                code,
                message,
                language,
            } => {
                if code == SSH_FX_OK {
                    self.offset += len as u64;
                    return Ok(Some(len));
                }
                self.ended = true;
                Err(Error::SftpError {
                    code,
                    message,
                    language,
                })
            }
            _ => unreachable!(),
        }
    }

    /// Returns how many bytes the server has said OK to next, which are those of one WRITE, or `None` if none is under
    /// way. Returns `Pending` if the status of the first WRITE was not taken and the core has recorded no fault.
    ///
    /// # Errors
    ///
    /// An error ends the upload: `SftpError` if the server refused the first WRITE; `BackgroundTaskFailure` if its
    /// status was not taken and the core has recorded a fault. It isn't known then which of the WRITEs after it were
    /// done.
    pub fn poll(&mut self, core: &mut Core) -> Poll<Result<Option<u32>, Error>>
        requires { MayWrite core.old self.old }
        ensures { PollsUpload core.old core.new self.old self.new result }
    {
        let Some(part) = self.parts.pop_front() else {
            return Poll::Ready(Ok(None));
        };
        let Part { ticket, len } = part;
        match take_reply(core, ticket) {
            Answer::Came(reply) => Poll::Ready(self.accept(reply, len)),
            Answer::Failed(fault) => {
                self.ended = true;
                Poll::Ready(Err(Error::BackgroundTaskFailure(fault)))
            }
            Answer::Missing(ticket) => {
                self.parts.push_front_reserved(Part { ticket, len });
                Poll::Pending
            }
        }
    }

    /// Gives the upload up: the statuses of its WRITEs, received or still to come, are dropped.
    pub fn cancel(self, core: &mut Core)
        requires { AreAwaited status_kind core.old self.parts }
        ensures core { core.new ≡ without_parts core.old self.parts }
        ensures others { KeepsOthersHeld self.parts core.old core.new }
    {
        let Upload {
            handle: _,
            write_len: _,
            window: _,
            offset: _,
            next: _,
            parts,
            ended: _,
        } = self;
        abandon_parts(parts, core);
    }
}

/// Submits the WRITE of these bytes. Fails if an allocation fails, no id is free, or the core has recorded a fault; the
/// core is unchanged then.
fn submit_write(
    core: &mut Core,
    handle: &Handle,
    offset: u64,
    bytes: &Bytes,
) -> Result<Ticket, Unasked>
    requires opened { IsSome (info_of core.old.phase) }
    requires fits { length bytes.now ≤ MAX_TRANSFER_LEN }
    ensures ok { IfOk result (λ ticket. SubmitsAsking core.old (asking.Parts handle.now offset (bytes.now ∷ [])) ticket core.new) }
    ensures err { IfErr result (λ e. IsUnasked core.old e × (core.new ≡ core.old)) }
{
    if core.kept() >= MAX_IDS {
        return Err(Unasked::Short);
    }
    // For the contract: a handle has at most 256 bytes.
    let _short = handle.as_bytes();
    match core.submit_parts(handle, offset, slice::from_ref(bytes)) {
        Ok(ticket) => Ok(ticket),
        Err(SubmitError::Failed(fault)) => Err(Unasked::Failed(fault)),
        Err(SubmitError::TooLong) => unreachable!(),
        Err(SubmitError::OutOfMemory) => Err(Unasked::Short),
    }
}
