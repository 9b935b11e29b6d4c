//! The bytes of an open file in order.
ghost use Rattle.std.specs.Prelude.{◌≡◌, ◌≤◌, ◌<◌, ◌+◌, ◌-◌, ◌^◌, true, IfErr, OnOk, IfSome, IfNone, IfOk, IsSome};
ghost use Rattle.sftp_model.specs.Answers.{allows_reply};
ghost use Rattle.sftp_model.specs.declared.answers.Expected.TheVariants as expected;
ghost use Rattle.sftp_model.specs.declared.request.Request.TheVariants as request;
ghost use Rattle.sftp_core.specs.Core.{Core as CoreValue};
ghost use Rattle.sftp_core.specs.Info.{info_of};
ghost use Rattle.plan_state.specs.Asked.{SubmitsAsking};
ghost use Rattle.plan_state.specs.declared.submission.Asking.TheVariants as asking;
ghost use Rattle.plan_state.specs.declared.poll.Poll.TheVariants.{Ready};
ghost use Rattle.sftp_file.specs.Outcomes.{read_answer};
ghost use Rattle.sftp_streams.specs.Parts.{AreAwaited, IsUnasked, KeepsOthersHeld, without_parts};
ghost use Rattle.sftp_streams.specs.Downloads.{AsksFirst, AsksLast, AsksMore, BeginsDownload, FillsWindow, GivesFirst, IsFilled, IsHandedOut, IsMissing, IsReading, MayRead, PollsDownload, StopsAsking, content_kind};

use crate::parts::{Answer, Part, Unasked, abandon_parts, take_reply};
use bytes::Bytes;
use sftp_core::{Core, MAX_IDS, SubmitError, Ticket};
use sftp_file::{File, Poll};
use sftp_model::numbers::SSH_FX_EOF;
use sftp_model::{Error, Handle, IoKind, Reply, Request};
use sftp_values::ByteText;
use std::collections::VecDeque;
use std::marker::Model;

/// The bytes of an open file from an offset to its end, in order, with a window of READs under way
/// (draft-ietf-secsh-filexfer-02, section 6.4). It isn't droppable: `cancel` consumes it, also after it has ended.
///
/// Example: `crates/test_client/src/streams.rt`.
#[must_use]
pub struct Download {
    handle: Handle,
    read_len: u32,
    window: usize,
    offset: u64,
    rest: u32,
    next: u64,
    parts: VecDeque<Part>,
    ended: bool,
}

impl Model for Download {
    ghost use Rattle.sftp_streams.specs.Downloads.{DownloadValue};

    ghost Value = { DownloadValue };

    ghost view = { λ d. record { handle = d.handle; read_len = d.read_len; window = d.window; offset = d.offset; rest = d.rest; next = d.next; parts = d.parts.items; ended = d.ended } };
}

impl Download {
    /// Returns a download of a file from its offset on, with at most `window` READs under way. Each READ asks for as
    /// many bytes as one READ of the session may. Nothing is asked yet. The file must stay open until the download has
    /// ended: it is read by its handle.
    ///
    /// # Errors
    ///
    /// `IOError(NotReadable)` if the file was not opened to read.
    pub fn new(core: &Core, file: &File, window: usize) -> Result<Download, Error>
        requires opened { IsSome (info_of core.now.phase) }
        requires wide { 1 ≤ window }
        ensures begins { BeginsDownload core.now file.now window result }
        ensures held { IfOk result (λ d. (any : CoreValue) → IsReading any d) }
    {
        let Some(info) = core.info() else {
            unreachable!()
        };
        if !file.is_readable() {
            return Err(Error::IOError(IoKind::NotReadable));
        }
        let offset = file.offset();
        Ok(Download {
            handle: file.grant().handle().copied(),
            read_len: info.read_len,
            window,
            offset,
            rest: 0,
            next: offset,
            parts: VecDeque::new(core.alloc()),
            ended: false,
        })
    }

    /// Returns the offset of the first byte that was not returned by a poll.
    pub fn offset(&self) -> u64
        ensures { result ≡ self.now.offset }
    {
        self.offset
    }

    /// Returns true if a poll has returned the end, or an error other than `OutOfMemory`. The download can't be polled
    /// then.
    pub fn is_ended(&self) -> bool
        ensures { result ≡ self.now.ended }
    {
        self.ended
    }

    /// Continues with the reply to the first part, which asked for `len` bytes: its bytes are returned, and the missing
    /// rest is to be asked for again.
    fn hand_out(&mut self, reply: Reply, len: u32) -> Result<Option<Bytes>, Error>
        requires allowed { allows_reply (expected.Content len) reply ≡ true }
        requires small { self.old.offset + len < 2 ^ 64 }
        ensures { IsHandedOut self.old len reply self.new result }
    {
        match reply {
            Reply::Content(bytes) => {
                self.offset += bytes.len() as u64;
                self.rest = len - bytes.len() as u32;
                Ok(Some(bytes))
            }
            Reply::Status {
                code,
                message,
                language,
            } => {
                self.ended = true;
                status_read(code, message, language)
            }
            _ => unreachable!(),
        }
    }

    /// Polls the first part, if one is under way and nothing before it is to be asked for again. Returns `None` if its
    /// reply is missing and the core has recorded no fault.
    fn poll_first(&mut self, core: &mut Core) -> Option<Result<Option<Bytes>, Error>>
        requires { MayRead core.old self.old }
        ensures reads { IfSome result (λ value. PollsDownload core.old core.new self.old self.new (Ready value)) }
        ensures missing { IfNone result (IsMissing core.old self.old × (core.new ≡ core.old) × (self.new ≡ self.old)) }
    {
        if self.rest > 0 {
            return None;
        }
        let Some(part) = self.parts.pop_front() else {
            return None;
        };
        let Part { ticket, len } = part;
        match take_reply(core, ticket) {
            Answer::Came(reply) => Some(self.hand_out(reply, len)),
            Answer::Failed(fault) => {
                self.ended = true;
                Some(Err(Error::BackgroundTaskFailure(fault)))
            }
            Answer::Missing(ticket) => {
                self.parts.push_front_reserved(Part { ticket, len });
                None
            }
        }
    }
}

impl Download {
    /// Asks again for the rest of a short reply.
    fn ask_rest(&mut self, core: &mut Core) -> Result<(), Unasked>
        requires opened { IsSome (info_of core.old.phase) }
        ensures ok { OnOk result (AsksFirst core.old self.old core.new self.new) }
        ensures err { IfErr result (λ e. IsUnasked core.old e × (core.new ≡ core.old) × (self.new ≡ self.old)) }
    {
        if self.parts.reserve(1).is_err() {
            return Err(Unasked::Short);
        }
        let (offset, len) = (self.offset, self.rest);
        let ticket = submit_read(core, self.handle.copied(), offset, len)?;
        self.parts.push_front_reserved(Part { ticket, len });
        self.rest = 0;
        Ok(())
    }

    /// Asks for another part after the others, which ends at the greatest offset at the latest.
    fn ask_next(&mut self, core: &mut Core) -> Result<(), Unasked>
        requires opened { IsSome (info_of core.old.phase) }
        requires some { 0 < self.old.read_len }
        requires below { self.old.next < 2 ^ 64 - 1 }
        ensures ok { OnOk result (AsksLast core.old self.old core.new self.new) }
        ensures err { IfErr result (λ e. IsUnasked core.old e × (core.new ≡ core.old) × (self.new ≡ self.old)) }
    {
        if self.parts.reserve(1).is_err() {
            return Err(Unasked::Short);
        }
        let offset = self.next;
        let len = (self.read_len as u64).min(u64::MAX - offset) as u32;
        let ticket = submit_read(core, self.handle.copied(), offset, len)?;
        self.parts.push_back_reserved(Part { ticket, len });
        self.next = offset + len as u64;
        Ok(())
    }

    /// Asks for parts after the others until the window is full, or the greatest offset is reached.
    #[tactic(auto, using(crate::proofs::AskLaws::begins, crate::proofs::AskLaws::fills, crate::proofs::AskLaws::nearer, crate::proofs::AskLaws::stops_filling))]
    fn ask_more(&mut self, core: &mut Core) -> Result<(), Unasked>
        requires rest { self.old.rest ≡ 0 }
        requires may { MayRead core.old self.old }
        ensures may { MayRead core.new self.new }
        ensures asks { AsksMore core.old self.old core.new self.new }
        ensures err { IfErr result (StopsAsking core.old self.old) }
        ensures full { OnOk result (IsFilled self.new) }
    {
        while self.parts.len() < self.window {
            if self.next == u64::MAX {
                return Ok(());
            }
            self.ask_next(core)?;
        }
        Ok(())
    }

    /// Asks for the rest of a short reply, and for parts after the others until the window is full.
    #[tactic(auto, using(crate::proofs::AskLaws::asked_first, crate::proofs::AskLaws::stops_first, crate::proofs::AskLaws::stops_behind))]
    fn fill(&mut self, core: &mut Core) -> Result<(), Unasked>
        requires may { MayRead core.old self.old }
        ensures may { MayRead core.new self.new }
        ensures fills { FillsWindow core.old self.old core.new self.new }
        ensures err { IfErr result (StopsAsking core.old self.old) }
        ensures full { OnOk result (IsFilled self.new) }
    {
        if self.rest == 0 {
            return self.ask_more(core);
        }
        match self.ask_rest(core) {
            Ok(()) => self.ask_more(core),
            Err(e) => Err(e), // not `?`, whose exit would speak of a converted error
        }
    }

    /// Returns the next bytes in order, 1 or more, or `None` after the last. Returns `Pending` if the reply to the
    /// first READ was not taken. READs were then asked for until the window is full; the next flush sends them.
    ///
    /// # Errors
    ///
    /// `OutOfMemory` if an allocation fails or no id is free, and another READ is due: the poll may be repeated. Any
    /// other error ends the
    /// download, as `None` does: `SftpError` if the server refused the READ at the next byte; `BackgroundTaskFailure`
    /// if its reply was not taken and the core has recorded a fault; `IOError(OffsetOverflow)` if all bytes below the
    /// offset 18446744073709551615 were returned, so that no READ can ask for more.
    pub fn poll(&mut self, core: &mut Core) -> Poll<Result<Option<Bytes>, Error>>
        requires { MayRead core.old self.old }
        ensures { PollsDownload core.old core.new self.old self.new result }
    {
        match self.poll_first(core) {
            Some(value) => Poll::Ready(value),
            None => self.ask(core),
        }
    }

    /// Asks for more if the first reply is missing. If nothing is under way afterwards, nothing can be asked for.
    fn ask(&mut self, core: &mut Core) -> Poll<Result<Option<Bytes>, Error>>
        requires may { MayRead core.old self.old }
        requires missing { IsMissing core.old self.old }
        ensures { PollsDownload core.old core.new self.old self.new result }
    {
        match self.fill(core) {
            Ok(()) => {
                if self.parts.is_empty() {
                    self.ended = true;
                    return Poll::Ready(Err(Error::IOError(IoKind::OffsetOverflow)));
                }
                Poll::Pending
            }
            Err(Unasked::Short) => Poll::Ready(Err(Error::OutOfMemory)),
            Err(Unasked::Failed(fault)) => {
                self.ended = true;
                Poll::Ready(Err(Error::BackgroundTaskFailure(fault)))
            }
        }
    }

    /// Gives the download up: the replies to its READs, received or still to come, are dropped.
    pub fn cancel(self, core: &mut Core)
        requires { AreAwaited content_kind core.old self.parts }
        ensures core { core.new ≡ without_parts core.old self.parts }
        ensures others { KeepsOthersHeld self.parts core.old core.new }
    {
        let Download {
            handle: _,
            read_len: _,
            window: _,
            offset: _,
            rest: _,
            next: _,
            parts,
            ended: _,
        } = self;
        abandon_parts(parts, core);
    }
}

/// Submits a READ. Fails if an allocation fails, no id is free, or the core has recorded a fault; the core is unchanged
/// then.
fn submit_read(core: &mut Core, handle: Handle, offset: u64, len: u32) -> Result<Ticket, Unasked>
    requires opened { IsSome (info_of core.old.phase) }
    ensures ok { IfOk result (λ ticket. SubmitsAsking core.old (asking.Whole (request.Read handle offset len)) ticket core.new) }
    ensures err { IfErr result (λ e. IsUnasked core.old e × (core.new ≡ core.old)) }
{
    if core.kept() >= MAX_IDS {
        return Err(Unasked::Short);
    }
    // For the contract: a handle has at most 256 bytes.
    let _short = handle.as_bytes();
    let request = Request::Read {
        handle,
        offset,
        len,
    };
    match core.submit(&request) {
        Ok(ticket) => Ok(ticket),
        Err(SubmitError::Failed(fault)) => Err(Unasked::Failed(fault)),
        Err(SubmitError::TooLong) => unreachable!(),
        Err(SubmitError::OutOfMemory) => Err(Unasked::Short),
    }
}

/// Returns the answer that a STATUS is to a READ.
fn status_read(code: u32, message: ByteText, language: ByteText) -> Result<Option<Bytes>, Error>
    ensures { result ≡ read_answer code message language }
{
    if code == SSH_FX_EOF {
        return Ok(None);
    }
    Err(Error::SftpError {
        code,
        message,
        language,
    })
}
