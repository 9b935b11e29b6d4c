//! Writes whose statuses are taken later, the window that bounds them, and flushes.
ghost use Rattle.std.specs.List.{list_all};
ghost use Rattle.std.specs.Prelude.{◌≡◌, ◌==◌, ◌≤◌, ◌<◌, ◌+◌, ◌^◌, length, true, IfOk, IfErr, OnOk, OnErr, IsSome};
ghost use Rattle.std.specs.Prelude.{Some, slice_get};
ghost use Rattle.sftp_model.specs.Numbers.{MAX_TRANSFER_LEN};
ghost use Rattle.sftp_model.specs.Pieces.{joined_pieces};
ghost use Rattle.plan_model.specs.BufferPlans.{is_good};
ghost use Rattle.plan_state.specs.Asked.{IsReady, SubmitsAsking};
ghost use Rattle.plan_state.specs.declared.submission.Asking.TheVariants as asking;
ghost use Rattle.sftp_buffered.specs.Buffered.{IsCounted, IsHeld, IsSound, AreHeld, IsHeldRead};
ghost use Rattle.sftp_buffered.specs.Steps.{IsLeft, IsStopped, with_oldest_settled, oldest_reply, after_written};
ghost use Rattle.sftp_buffered.specs.Steps.{freed_core, must_wait, oldest_len, read_dropped, room_of, LooksAtOldest};
ghost use Rattle.sftp_buffered.specs.Steps.{oldest_polled, status_value, without_oldest};
ghost use Rattle.sftp_buffered.specs.Writes.{IsCutOut, IsDeferred, IsOnePart, SendsWrites, SendsNoWrite, WritesBuffered};
ghost use Rattle.sftp_buffered.specs.Writes.{IsWindow};
ghost use Rattle.sftp_file.specs.Files.{facts_of};
ghost use Rattle.sftp_core.specs.Info.{info_of};
ghost use Rattle.std.specs.Option.{option_copied};
ghost use Rattle.sftp_model.specs.Answers.{allows_reply};
ghost use Rattle.sftp_model.specs.declared.answers.Expected.TheVariants as expected;
ghost use Rattle.sftp_model.specs.declared.reply.Reply.{Reply as ReplyValue};
ghost use Rattle.sftp_buffered.specs.Flushes.{FlushesTo, SettlesWrites};

use crate::file::{DeferredWrite, TokioCompatFile};
use crate::limits::{write_len, write_limit};
use crate::reply::{is_good, take_reply};
use bytes::Bytes;
use sftp_core::{Core, SubmitError, Ticket};
use sftp_file::{Error, IoKind, OutOfMemory, Poll, cut, one_piece};
use sftp_model::Reply;
use sftp_model::numbers::SSH_FX_OK;

/// The room that a window has for a WRITE.
#[derive(Clone, Copy, Debug)]
pub(crate) struct Window {
    /// The most bytes that the WRITE may carry.
    pub len: usize,
    /// True if the window is full, so that the oldest status, which is good, makes way.
    pub is_full: bool,
}

impl TokioCompatFile {
    /// Submits the WRITE of these parts at the offset. Fails if the core has recorded a fault or an allocation fails;
    /// the core is unchanged then.
    fn submit_write(&self, core: &mut Core, parts: &[Bytes]) -> Result<Ticket, Error>
        requires ready { IsReady core.old }
        requires short { length (joined_pieces parts.now) ≤ MAX_TRANSFER_LEN }
        ensures ok { IfOk result (λ ticket. SubmitsAsking core.old
            (asking.Parts self.now.file.grant.handle self.now.file.offset parts.now) ticket core.new) }
        ensures err { IfErr result (IsStopped core.old) }
        ensures unchanged { OnErr result (core.new ≡ core.old) }
    {
        let handle = self.file.grant().handle();
        // For the contract: a handle has at most 256 bytes.
        let _short = handle.as_bytes();
        match core.submit_parts(handle, self.file.offset(), parts) {
            Ok(ticket) => Ok(ticket),
            Err(SubmitError::Failed(fault)) => Err(Error::BackgroundTaskFailure(fault)),
            Err(SubmitError::TooLong) => unreachable!(),
            Err(SubmitError::OutOfMemory) => Err(Error::OutOfMemory),
        }
    }

    /// Submits the WRITE of these parts, which have `len` bytes, and defers it. After an error nothing changes.
    fn defer(&mut self, core: &mut Core, parts: &[Bytes], len: usize) -> Result<(), Error>
        requires ready { IsReady core.old }
        requires len { length (joined_pieces parts.now) ≡ len }
        requires short { len ≤ MAX_TRANSFER_LEN }
        ensures ok { OnOk result (IsDeferred parts.now len core.old core.new self.old self.new) }
        ensures err { IfErr result (IsStopped core.old) }
        ensures left { OnErr result (IsLeft core.old core.new self.old self.new) }
    {
        let Some(next) = self.place.checked_add(1) else {
            return Err(Error::OutOfMemory);
        };
        if self.deferred.reserve(1).is_err() {
            return Err(Error::OutOfMemory);
        }
        match self.submit_write(core, parts) {
            Ok(ticket) => {
                self.deferred.push_back_reserved(DeferredWrite {
                    place: self.place,
                    len: len as u32,
                    ticket,
                });
                self.place = next;
                Ok(())
            }
            Err(e) => Err(e), // not `?`, whose exit would speak of a converted error
        }
    }

    /// Submits the WRITE of these parts, which have `len` bytes. In a full window the oldest status makes way.
    fn send(
        &mut self,
        core: &mut Core,
        parts: &[Bytes],
        len: usize,
        full: bool,
    ) -> Result<usize, Error>
        requires ready { IsReady core.old }
        requires sound { IsSound core.old self.old }
        requires len { (length (joined_pieces parts.now) ≡ len) × (len ≤ MAX_TRANSFER_LEN) }
        requires room { ((with_oldest_settled full self.old).pending + len < 2 ^ 64)
            × (full ≡ true → is_good (oldest_reply core.old self.old.deferred) ≡ true) }
        ensures ok { IfOk result (λ n. (n ≡ len) × SendsWrites full parts.now core.old core.new self.old self.new len) }
        ensures err { IfErr result (SendsNoWrite full len core.old core.new self.old self.new) }
    {
        if self.file.offset().checked_add(len as u64).is_none() {
            self.make_way(core, full);
            return Err(Error::IOError(IoKind::OffsetOverflow));
        }
        match self.defer(core, parts, len) {
            Ok(()) => {
                self.make_way(core, full);
                self.go_behind(core, len);
                Ok(len)
            }
            Err(e) => Err(e), // not `?`, whose exit would speak of a converted error
        }
    }

    /// Writes the first of these bytes at the offset, without awaiting the status of their WRITE
    /// (draft-ietf-secsh-filexfer-02, section 6.4). One WRITE of the session and the options' write limit bound how
    /// many bytes are written. In a full window the oldest status must have been taken. The file is then after the
    /// bytes, which are copied once.
    ///
    /// # Errors
    ///
    /// Checked in this order: `IOError(NotWritable)`; no bytes, which returns 0; in a full window the oldest status,
    /// which is awaited, and whose refusal is returned as `SftpError`; `IOError(OffsetOverflow)` if the bytes would end
    /// past 18446744073709551615. `BackgroundTaskFailure` comes if a WRITE or its status is due and the core has
    /// recorded a fault, and `OutOfMemory` may come in place of any result. After these two, as after `Pending`, core
    /// and file are unchanged.
    pub fn poll_write(&mut self, core: &mut Core, buf: &[u8]) -> Poll<Result<usize, Error>>
        requires ready { IsReady core.old }
        requires sound { IsSound core.old self.old }
        ensures { WritesBuffered (IsOnePart buf.now self.old) buf.now core.old core.new self.old self.new result }
    {
        if !self.file.is_writable() {
            return Poll::Ready(Err(Error::IOError(IoKind::NotWritable)));
        }
        if buf.is_empty() {
            return Poll::Ready(Ok(0));
        }
        match self.poll_window(core) {
            Poll::Pending => Poll::Pending,
            Poll::Ready(Err(e)) => Poll::Ready(Err(e)),
            Poll::Ready(Ok(window)) => {
                let len = buf.len().min(window.len);
                match one_piece(core.alloc(), &buf[..len]) {
                    Ok(parts) => Poll::Ready(self.send(core, &parts, len, window.is_full)),
                    Err(OutOfMemory) => Poll::Ready(Err(Error::OutOfMemory)),
                }
            }
        }
    }

    /// Writes the first bytes of these pieces, joined, as `poll_write` does. No byte is copied: the bytes that are sent
    /// are cut out of the pieces.
    ///
    /// # Errors
    ///
    /// Those of `poll_write`.
    pub fn poll_write_vectored(
        &mut self,
        core: &mut Core,
        bufs: &[Bytes],
    ) -> Poll<Result<usize, Error>>
        requires ready { IsReady core.old }
        requires sound { IsSound core.old self.old }
        ensures { WritesBuffered (IsCutOut bufs.now self.old) (joined_pieces bufs.now) core.old core.new self.old self.new result }
    {
        if !self.file.is_writable() {
            return Poll::Ready(Err(Error::IOError(IoKind::NotWritable)));
        }
        if are_empty(bufs) {
            return Poll::Ready(Ok(0));
        }
        match self.poll_window(core) {
            Poll::Pending => Poll::Pending,
            Poll::Ready(Err(e)) => Poll::Ready(Err(e)),
            Poll::Ready(Ok(window)) => match cut(core.alloc(), bufs, 0, window.len) {
                Ok((parts, len)) => Poll::Ready(self.send(core, &parts, len, window.is_full)),
                Err(OutOfMemory) => Poll::Ready(Err(Error::OutOfMemory)),
            },
        }
    }

    /// Returns true if a STATUS of OK was taken for the oldest deferred write.
    fn is_oldest_good(&self, core: &Core) -> bool
        requires { AreHeld core.now self.now.deferred }
        ensures { result ≡ is_good (oldest_reply core.now self.now.deferred) }
    {
        match self.oldest_reply(core) {
            Some(reply) => is_good(reply),
            None => false,
        }
    }

    /// Takes out, oldest first, the deferred writes whose STATUS of OK was taken, up to the first other.
    pub fn settle(&mut self, core: &mut Core)
        requires { IsSound core.old self.old }
        ensures { SettlesWrites core.old core.new self.old self.new }
    {
        while self.is_oldest_good(core) {
            self.make_way(core, true);
        }
    }

    /// Returns `()` once each deferred write was answered by a STATUS of OK. Statuses of OK are taken out, oldest
    /// first. The first other one is awaited, or taken out and returned, and later ones stay. Nothing is sent, and no
    /// memory is allocated.
    ///
    /// # Errors
    ///
    /// `IOError(NotWritable)`, which is checked first; `SftpError` for a refusal; `BackgroundTaskFailure` if a status
    /// is due and the core has recorded a fault.
    pub fn poll_flush(&mut self, core: &mut Core) -> Poll<Result<(), Error>>
        requires { IsSound core.old self.old }
        ensures { FlushesTo core.old core.new self.old self.new result }
    {
        if !self.file.is_writable() {
            return Poll::Ready(Err(Error::IOError(IoKind::NotWritable)));
        }
        self.settle(core);
        if self.oldest().is_none() {
            return Poll::Ready(Ok(()));
        }
        self.poll_oldest(core)
    }

    /// Does the same as `poll_flush`: the file stays open until `start_close` of the file below.
    ///
    /// # Errors
    ///
    /// Those of `poll_flush`.
    pub fn poll_shutdown(&mut self, core: &mut Core) -> Poll<Result<(), Error>>
        requires { IsSound core.old self.old }
        ensures { FlushesTo core.old core.new self.old self.new result }
    {
        self.poll_flush(core)
    }

    /// Returns true if the window is full, so that the oldest status must make way.
    fn must_wait(&self, core: &Core) -> bool
        ensures { result ≡ must_wait (facts_of core.now) self.now }
    {
        self.oldest().is_some() && self.pending == write_limit(core)
    }

    /// Returns how many bytes one WRITE may carry, if the oldest status makes way or not.
    fn window_len(&self, core: &Core, full: bool) -> usize
        requires ready { IsSome (info_of core.now.phase) }
        requires counted { oldest_len self.now.deferred ≤ self.now.pending }
        ensures len { result ≡ room_of (facts_of core.now) (with_oldest_settled full self.now) }
        ensures short { result ≤ MAX_TRANSFER_LEN }
        ensures counts { (with_oldest_settled full self.now).pending + result < 2 ^ 64 }
    {
        let mut pending = self.pending;
        if full {
            pending -= self.oldest_len() as u64;
        }
        let room = write_limit(core).saturating_sub(pending);
        (write_len(core) as u64).min(room) as usize
    }

    /// Returns the room for the next WRITE. In a full window it comes once the oldest status was taken. A refusal is
    /// taken out and returned; a status of OK stays until the WRITE is submitted.
    pub(crate) fn poll_window(&mut self, core: &mut Core) -> Poll<Result<Window, Error>>
        requires ready { IsSome (info_of core.old.phase) }
        requires sound { IsSound core.old self.old }
        ensures { IsWindow core.old core.new self.old self.new result }
    {
        let full = self.must_wait(core);
        if full {
            match self.poll_oldest(core) {
                Poll::Pending => return Poll::Pending,
                Poll::Ready(Err(e)) => return Poll::Ready(Err(e)),
                Poll::Ready(Ok(())) => {}
            }
        }
        Poll::Ready(Ok(Window {
            len: self.window_len(core, full),
            is_full: full,
        }))
    }

    /// Takes out the oldest status, which is good, if the window is full.
    pub(crate) fn make_way(&mut self, core: &mut Core, full: bool)
        requires held { AreHeld core.old self.old.deferred }
        requires good { full ≡ true → is_good (oldest_reply core.old self.old.deferred) ≡ true }
        requires counted { full ≡ true → oldest_len self.old.deferred ≤ self.old.pending }
        ensures left { self.new ≡ with_oldest_settled full self.old }
        ensures core { core.new ≡ freed_core full core.old self.old }
    {
        if full {
            let _ = self.take_oldest(core);
        }
    }

    /// Moves the offset past `len` bytes that were written, and gives up the READ under way.
    pub(crate) fn go_behind(&mut self, core: &mut Core, len: usize)
        requires fits { self.old.file.offset + len < 2 ^ 64 }
        requires counts { self.old.pending + len < 2 ^ 64 }
        requires held { IsHeldRead core.old self.old.reading }
        ensures left { self.new ≡ after_written self.old len }
        ensures core { core.new ≡ read_dropped core.old self.old.reading }
    {
        self.file.advance(len as u64);
        self.pending += len as u64;
        self.skip(len as u64);
        self.drop_read(core);
    }

    /// Returns the oldest deferred write.
    pub(crate) fn oldest(&self) -> Option<&DeferredWrite>
        ensures { option_copied result ≡ slice_get self.now.deferred 0 }
    {
        self.deferred.front()
    }

    /// Returns the number of bytes of the oldest deferred write.
    pub(crate) fn oldest_len(&self) -> u32
        ensures { result ≡ oldest_len self.now.deferred }
    {
        match self.oldest() {
            Some(write) => write.len,
            None => 0,
        }
    }

    /// Returns the status of the oldest deferred write, if it was taken.
    pub(crate) fn oldest_reply<'a>(&self, core: &'a Core) -> Option<&'a Reply>
        requires { AreHeld core.now self.now.deferred }
        ensures { option_copied result ≡ oldest_reply core.now self.now.deferred }
    {
        match self.oldest() {
            Some(write) => core.peek(&write.ticket),
            None => None,
        }
    }

    /// Takes out the oldest deferred write, whose status was taken, and returns the value of that status.
    pub(crate) fn take_oldest(&mut self, core: &mut Core) -> Result<(), Error>
        requires held { AreHeld core.old self.old.deferred }
        requires taken { IsSome (oldest_reply core.old self.old.deferred) }
        requires counted { oldest_len self.old.deferred ≤ self.old.pending }
        ensures says { (reply : ReplyValue) → oldest_reply core.old self.old.deferred ≡ Some reply
            → result ≡ status_value reply }
        ensures left { self.new ≡ without_oldest self.old }
        ensures core { core.new ≡ oldest_polled core.old self.old.deferred }
    {
        let Some(write) = self.deferred.pop_front() else {
            unreachable!()
        };
        let DeferredWrite {
            place: _,
            len,
            ticket,
        } = write;
        self.pending -= len as u64;
        status_value(take_reply(core, ticket))
    }

    /// Looks at the oldest deferred write: a refusal is taken out and returned, and a status of OK stays.
    pub(crate) fn poll_oldest(&mut self, core: &mut Core) -> Poll<Result<(), Error>>
        requires held { AreHeld core.old self.old.deferred }
        requires counted { oldest_len self.old.deferred ≤ self.old.pending }
        ensures { LooksAtOldest core.old core.new self.old self.new result }
    {
        let good = match self.oldest_reply(core) {
            None => {
                return match core.fault() {
                    Some(fault) => Poll::Ready(Err(Error::BackgroundTaskFailure(fault))),
                    None => Poll::Pending,
                };
            }
            Some(reply) => is_good(reply),
        };
        if good {
            return Poll::Ready(Ok(()));
        }
        Poll::Ready(self.take_oldest(core))
    }
}

/// Returns true if these pieces join to nothing.
fn are_empty(bufs: &[Bytes]) -> bool
    ensures { result ≡ list_all (λ piece. length piece == 0) bufs.now }
{
    bufs.iter().all(|piece| piece.is_empty())
}

/// Returns the value of a reply to a WRITE.
fn status_value(reply: Reply) -> Result<(), Error>
    requires { allows_reply expected.Status reply ≡ true }
    ensures { result ≡ status_value reply }
{
    match reply {
        Reply::Status {
            code,
            message,
            language,
        } => {
            if code == SSH_FX_OK {
                return Ok(());
            }
            Err(Error::SftpError {
                code,
                message,
                language,
            })
        }
        _ => unreachable!(),
    }
}
