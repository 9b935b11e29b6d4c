//! Reads: the buffer, and the READ that fills it.
ghost use Rattle.std.specs.Prelude.{◌≡◌, ◌≤◌, ◌<◌, ◌+◌, ◌^◌, ◌++◌, length, take, drop, min, IfOk, OnErr, None, Some};
ghost use Rattle.std.specs.Prelude.{IsSome, IfErr, max, OnOk, []};
ghost use Rattle.sftp_model.specs.declared.outcome.Outcome.TheVariants as outcome;
ghost use Rattle.plan_state.specs.Asked.{IsReady, SubmitsAsking};
ghost use Rattle.plan_state.specs.Calls.{IfOutOfMemory};
ghost use Rattle.sftp_core.specs.Core.{Core as CoreValue};
ghost use Rattle.sftp_buffered.specs.Buffered.{IsCounted, IsSound, IsHeldRead};
ghost use Rattle.sftp_buffered.specs.Reads.{IsGiven, ReadsTo, after_consuming, fill_plan, read_plan, ready_plan};
ghost use Rattle.sftp_buffered.specs.Reads.{room_outcome, BeginsRead, FillsBuffer, IsAllowedRead, LooksAtRead};
ghost use Rattle.sftp_buffered.specs.Reads.{end_of, fill_value, without_read};
ghost use Rattle.std.specs.Option.{option_copied};
ghost use Rattle.sftp_model.specs.declared.reply.Reply.{Reply as ReplyValue};
ghost use Rattle.sftp_model.specs.declared.request.Request.TheVariants as request;
ghost use Rattle.plan_state.specs.declared.submission.Asking.TheVariants as asking;
ghost use Rattle.sftp_file.specs.Files.{facts_of};
ghost use Rattle.sftp_buffered.specs.Steps.{IsStopped, read_reply, read_taken, read_dropped, without_first_bytes};
ghost use Rattle.sftp_buffered.specs.Whole.{ShrinksCapacity};

use crate::file::{ReadUnderWay, TokioCompatFile};
use crate::limits::read_len;
use crate::reply::take_reply;
use bytes::{Bytes, BytesMut};
use sftp_core::{Core, SubmitError, Ticket};
use sftp_file::{Error, IoKind, OutOfMemory, Poll};
use sftp_model::numbers::SSH_FX_EOF;
use sftp_model::{Reply, Request};
use std::mem;

impl TokioCompatFile {
    /// Returns the buffered bytes, from the file's offset on.
    pub fn buffer(&self) -> &[u8]
        ensures { result.now ≡ self.now.buffered }
    {
        self.buffered.as_slice()
    }

    /// Raises the capacity to at least `new_cap` bytes.
    ///
    /// # Errors
    ///
    /// `OutOfMemory` if an allocation fails; nothing changes then.
    pub fn reserve(&mut self, new_cap: usize) -> Result<(), OutOfMemory>
        requires { IsCounted self.old }
        ensures ok { OnOk result (self.new ≡ record self.old { capacity = max self.old.capacity new_cap }) }
        ensures unchanged { OnErr result (self.new ≡ self.old) }
        ensures sound { (core : CoreValue) → IsSound core self.old → IsSound core self.new }
    {
        self.buffered
            .reserve(new_cap.saturating_sub(self.buffered.len()))?;
        self.capacity = self.capacity.max(new_cap);
        Ok(())
    }

    /// Lowers the capacity to `new_cap` bytes, if it is over that. Then the buffer is emptied, and the READ under way
    /// is given up. The offset stays.
    ///
    /// # Errors
    ///
    /// `OutOfMemory` if an allocation fails; nothing changes then.
    pub fn shrink_to(&mut self, core: &mut Core, new_cap: usize) -> Result<(), OutOfMemory>
        requires { IsSound core.old self.old }
        ensures { ShrinksCapacity new_cap core.old core.new self.old self.new result }
    {
        if self.capacity <= new_cap {
            return Ok(());
        }
        let empty = BytesMut::with_capacity(core.alloc(), new_cap)?;
        self.buffered = empty;
        self.capacity = new_cap;
        self.drop_read(core);
        Ok(())
    }

    /// Removes the first `len` buffered bytes, or all if there are fewer.
    pub(crate) fn skip(&mut self, len: u64)
        ensures { self.new ≡ without_first_bytes self.old len }
    {
        if len < self.buffered.len() as u64 {
            self.buffered.advance(len as usize);
        } else {
            self.buffered.clear();
        }
    }

    /// Gives the READ under way up.
    pub(crate) fn drop_read(&mut self, core: &mut Core)
        requires { IsHeldRead core.old self.old.reading }
        ensures left { self.new ≡ record self.old { reading = None } }
        ensures core { core.new ≡ read_dropped core.old self.old.reading }
    {
        abandon_read(core, mem::replace(&mut self.reading, None));
    }

    /// Reads at most `amt` bytes from the end of the buffer into it, up to the limit of one READ of the session
    /// (draft-ietf-secsh-filexfer-02, section 6.4). A READ that is under way is continued, no matter how many bytes it
    /// asked for. At the end of the file nothing comes. Returns `Pending` if the READ was submitted in this poll, or
    /// its reply was not taken yet.
    ///
    /// # Errors
    ///
    /// Checked in this order: `IOError(NotReadable)`; if no READ is under way, `IOError(OffsetOverflow)` if its bytes
    /// would end past 18446744073709551615; `BackgroundTaskFailure` if the READ or its reply is due and the core has
    /// recorded a fault. `SftpError` if the server refused. `OutOfMemory` may come in place of any result; core and
    /// file are unchanged then.
    pub fn poll_read_into_buffer(&mut self, core: &mut Core, amt: u32) -> Poll<Result<(), Error>>
        requires ready { IsReady core.old }
        requires sound { IsSound core.old self.old }
        requires some { 1 ≤ amt }
        ensures { ReadsTo (fill_plan amt core.old self.old) (λ u. outcome.Done) core.old core.new self.old self.new
            result }
    {
        if !self.file.is_readable() {
            return Poll::Ready(Err(Error::IOError(IoKind::NotReadable)));
        }
        self.fill(core, amt as usize)
    }

    /// Reads into the buffer if it is empty, as `poll_read_into_buffer` does for the buffer's length, with its
    /// `Pending`. `buffer` then lends the buffered bytes; none of them is removed before `consume`. At the end of the
    /// file the buffer is still empty.
    ///
    /// # Errors
    ///
    /// Those of `poll_read_into_buffer`; none if bytes are buffered.
    pub fn poll_fill_buf(&mut self, core: &mut Core) -> Poll<Result<(), Error>>
        requires ready { IsReady core.old }
        requires sound { IsSound core.old self.old }
        ensures reads { ReadsTo (ready_plan core.old self.old) (λ u. outcome.Done) core.old core.new self.old self.new
            result }
        ensures memory { IfOutOfMemory result (self.old.buffered ≡ []) }
    {
        if !self.buffered.is_empty() {
            return Poll::Ready(Ok(()));
        }
        if !self.file.is_readable() {
            return Poll::Ready(Err(Error::IOError(IoKind::NotReadable)));
        }
        let len = self.buffer_len;
        self.fill(core, len)
    }

    /// Removes the first `amt` buffered bytes, and moves the offset past them.
    pub fn consume(&mut self, amt: usize)
        requires within { amt ≤ length self.old.buffered }
        requires counted { IsCounted self.old }
        ensures left { self.new ≡ after_consuming self.old amt }
        ensures sound { (core : CoreValue) → IsSound core self.old → IsSound core self.new }
    {
        self.file.advance(amt as u64);
        self.buffered.advance(amt);
    }

    /// Takes out the first buffered bytes, at most `amt`, without a copy, and moves the offset past them.
    ///
    /// # Errors
    ///
    /// `OutOfMemory` if an allocation fails; nothing changes then.
    pub fn consume_and_return_buffer(&mut self, amt: usize) -> Result<Bytes, OutOfMemory>
        requires { IsCounted self.old }
        ensures ok { IfOk result (λ bytes. (bytes ≡ take amt self.old.buffered)
            × (self.new ≡ after_consuming self.old (length bytes))) }
        ensures unchanged { OnErr result (self.new ≡ self.old) }
        ensures sound { (core : CoreValue) → IsSound core self.old → IsSound core self.new }
    {
        let len = amt.min(self.buffered.len());
        let bytes = self.buffered.freeze_to(len)?;
        self.file.advance(len as u64);
        Ok(bytes)
    }

    /// Copies the first buffered bytes into the room, as far as it reaches, and moves the offset past them.
    fn give(&mut self, room: &mut [u8]) -> usize
        requires { IsCounted self.old }
        ensures len { result ≡ min (length room.old) (length self.old.buffered) }
        ensures room { room.new ≡ take result self.old.buffered ++ drop result room.old }
        ensures left { self.new ≡ after_consuming self.old result }
    {
        let len = room.len().min(self.buffered.len());
        let first = &mut room[..len];
        first.copy_from_slice(&self.buffered.as_slice()[..len]);
        self.consume(len);
        len
    }

    /// Reads the next bytes of the file into the room, and moves the offset past them. They are the buffered bytes or,
    /// if the buffer is empty, those that one READ brings, which asks for at least the buffer's length. Returns 0 at
    /// the end of the file, and for an empty room.
    ///
    /// `Pending` is that of `poll_read_into_buffer`. The rest of the room stays as it was.
    ///
    /// # Errors
    ///
    /// Those of `poll_read_into_buffer`.
    pub fn poll_read(&mut self, core: &mut Core, room: &mut [u8]) -> Poll<Result<usize, Error>>
        requires ready { IsReady core.old }
        requires sound { IsSound core.old self.old }
        ensures reads { ReadsTo (read_plan (length room.old) core.old self.old)
            (room_outcome (length room.old) room.new) core.old core.new self.old self.new result }
        ensures room { IsGiven room.old room.new result }
        ensures memory { IfOutOfMemory result (self.old.buffered ≡ []) }
    {
        if !self.file.is_readable() {
            return Poll::Ready(Err(Error::IOError(IoKind::NotReadable)));
        }
        if room.is_empty() {
            return Poll::Ready(Ok(0));
        }
        if !self.buffered.is_empty() {
            return Poll::Ready(Ok(self.give(room)));
        }
        let len = room.len().max(self.buffer_len);
        match self.fill(core, len) {
            Poll::Pending => Poll::Pending,
            Poll::Ready(Err(e)) => Poll::Ready(Err(e)),
            Poll::Ready(Ok(())) => Poll::Ready(Ok(self.give(room))),
        }
    }

    /// Returns the reply to the READ under way, if it was taken.
    fn read_reply<'a>(&self, core: &'a Core) -> Option<&'a Reply>
        requires { IsHeldRead core.now self.now.reading }
        ensures { option_copied result ≡ read_reply core.now self.now.reading }
    {
        match &self.reading {
            Some(read) => core.peek(&read.ticket),
            None => None,
        }
    }

    /// Submits a READ of `len` bytes at an offset. Fails if the core has recorded a fault or an allocation fails; the
    /// core is unchanged then.
    fn submit_read(&self, core: &mut Core, offset: u64, len: u32) -> Result<Ticket, Error>
        requires { IsReady core.old }
        ensures ok { IfOk result (λ ticket. SubmitsAsking core.old
            (asking.Whole (request.Read self.now.file.grant.handle offset len)) ticket core.new) }
        ensures err { IfErr result (IsStopped core.old) }
        ensures unchanged { OnErr result (core.new ≡ core.old) }
    {
        let handle = self.file.grant().handle();
        // For the contract: a handle has at most 256 bytes.
        let _short = handle.as_bytes();
        let request = Request::Read {
            handle: handle.copied(),
            offset,
            len,
        };
        match core.submit(&request) {
            Ok(ticket) => Ok(ticket),
            Err(SubmitError::Failed(fault)) => Err(Error::BackgroundTaskFailure(fault)),
            Err(SubmitError::TooLong) => unreachable!(),
            Err(SubmitError::OutOfMemory) => Err(Error::OutOfMemory),
        }
    }

    /// Puts the READ under way; none may be under way.
    fn put_read(&mut self, read: ReadUnderWay)
        requires { self.old.reading ≡ None }
        ensures { self.new ≡ record self.old { reading = Some read } }
    {
        match mem::replace(&mut self.reading, Some(read)) {
            None => {}
            Some(_read) => unreachable!(),
        }
    }

    /// Asks for `len` bytes after the buffer.
    fn begin_read(&mut self, core: &mut Core, len: u32) -> Poll<Result<(), Error>>
        requires ready { IsReady core.old }
        requires none { self.old.reading ≡ None }
        requires ends { end_of self.old < 2 ^ 64 }
        ensures { BeginsRead len core.old core.new self.old self.new result }
    {
        let end = self.file.offset() + self.buffered.len() as u64;
        if end.checked_add(len as u64).is_none() {
            return Poll::Ready(Err(Error::IOError(IoKind::OffsetOverflow)));
        }
        let place = self.place;
        let Some(next) = place.checked_add(1) else {
            return Poll::Ready(Err(Error::OutOfMemory));
        };
        match self.submit_read(core, end, len) {
            Ok(ticket) => {
                self.put_read(ReadUnderWay { place, len, ticket });
                self.place = next;
                Poll::Pending
            }
            Err(e) => Poll::Ready(Err(e)),
        }
    }

    /// Looks at the reply to the READ under way, and copies its bytes to the end of the buffer. After an error nothing
    /// changes.
    fn append_reply(&mut self, core: &Core) -> Poll<Result<(), Error>>
        requires { IsHeldRead core.now self.old.reading }
        ensures { LooksAtRead core.now self.old self.new result }
    {
        match self.read_reply(core) {
            None => match core.fault() {
                Some(fault) => Poll::Ready(Err(Error::BackgroundTaskFailure(fault))),
                None => Poll::Pending,
            },
            Some(Reply::Content(bytes)) => {
                if self.buffered.extend_from_slice(bytes.as_slice()).is_err() {
                    return Poll::Ready(Err(Error::OutOfMemory));
                }
                self.capacity = self.capacity.max(self.buffered.len());
                Poll::Ready(Ok(()))
            }
            Some(_) => Poll::Ready(Ok(())),
        }
    }

    /// Takes out the reply to the READ, which was taken, and returns its value.
    fn take_read(&mut self, core: &mut Core) -> Result<(), Error>
        requires held { IsHeldRead core.old self.old.reading }
        requires taken { IsSome (read_reply core.old self.old.reading) }
        ensures says { (reply : ReplyValue) → read_reply core.old self.old.reading ≡ Some reply
            → result ≡ fill_value reply }
        ensures allowed { IsAllowedRead core.old self.old.reading }
        ensures left { self.new ≡ without_read self.old }
        ensures core { core.new ≡ read_taken core.old self.old.reading }
    {
        match mem::replace(&mut self.reading, None) {
            Some(
                ReadUnderWay {
                    place: _,
                    len: _,
                    ticket,
                },
            ) => fill_value(take_reply(core, ticket)),
            None => unreachable!(),
        }
    }

    /// Continues with the READ under way, or asks for at most `len` bytes after the buffer.
    pub(crate) fn fill(&mut self, core: &mut Core, len: usize) -> Poll<Result<(), Error>>
        requires ready { IsReady core.old }
        requires sound { IsSound core.old self.old }
        ensures { FillsBuffer (min len (facts_of core.old).read_len) core.old core.new self.old self.new result }
    {
        if self.reading.is_none() {
            let most = read_len(core);
            return self.begin_read(core, len.min(most as usize) as u32);
        }
        match self.append_reply(core) {
            Poll::Pending => Poll::Pending,
            Poll::Ready(Err(e)) => Poll::Ready(Err(e)),
            Poll::Ready(Ok(())) => Poll::Ready(self.take_read(core)),
        }
    }
}

/// Gives a READ up: it stays under way, and its reply is dropped.
pub(crate) fn abandon_read(core: &mut Core, reading: Option<ReadUnderWay>)
    requires { IsHeldRead core.old reading }
    ensures { core.new ≡ read_dropped core.old reading }
{
    if let Some(
        ReadUnderWay {
            place: _,
            len: _,
            ticket,
        },
    ) = reading
    {
        core.abandon(ticket);
    }
}

/// Returns the value of a reply to a READ.
fn fill_value(reply: Reply) -> Result<(), Error>
    ensures { result ≡ fill_value reply }
{
    match reply {
        Reply::Content(_) => Ok(()),
        Reply::Status {
            code,
            message,
            language,
        } => {
            if code == SSH_FX_EOF {
                return Ok(());
            }
            Err(Error::SftpError {
                code,
                message,
                language,
            })
        }
        _ => Err(Error::InvalidResponse { id: None }),
    }
}
