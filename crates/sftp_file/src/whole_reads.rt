//! `read_all`: reads `n` bytes at the file's offset, one READ after another.
ghost use Rattle.std.specs.Prelude.{false, ◌≡◌, ◌≤◌, ◌++◌, ℕ, List, [], length, refl, OnErr, OnOk, Result as ResultValue};
ghost use Rattle.bytes.specs.Filled.{Filled};
ghost use Rattle.sftp_core.specs.Core.{Core as CoreValue};
ghost use Rattle.plan_state.specs.declared.poll.Poll.{Poll as PollValue};
ghost use Rattle.sftp_file.specs.declared.whole_reads.ReadAllError.{ReadAllError as ErrorWithBytes};
ghost use Rattle.plan_model.specs.Moves.{Answers, handle_of};
ghost use Rattle.plan_state.specs.Asked.{IsReady};
ghost use Rattle.plan_state.specs.Calls.{CancelsAwaited, IsHeld};
ghost use Rattle.sftp_file.specs.Files.{FileValue, facts_of};
ghost use Rattle.sftp_file.specs.Gathers.{GivesBytes, IsNextRead, MayReadAll, ReadAllValue, ReadsAll, StartsReadAll};
ghost use Rattle.sftp_file.specs.Gathers.{bytes_out, first_read, after_data, gathers_wait, missing_error, missing_from, next_read, reading_all, with_buffer, without_bytes};

use crate::facts::facts;
use crate::file::File;
use crate::looks::may_read;
use crate::reads::read_request;
use bytes::BytesMut;
use plan_state::{Asking, PendingCall, PlanRunner, Poll, Then, Told};
use sftp_core::Core;
use sftp_model::numbers::SSH_FX_EOF;
use sftp_model::{Error, Facts, FileAt, Handle, IoKind, Reply};
use sftp_values::ByteText;
use ssh_encoding::OutOfMemory;
use std::alloc::Global;
use std::marker::Model;

/// The error of a `read_all` that did not get all bytes.
///
/// Example: `crates/sftp_client/src/sftp/calls.rt`.
#[derive(Debug, Drop)]
pub struct ReadAllError {
    /// The error.
    pub error: Error,
    /// The bytes that were passed in, followed by those that were read before the error. Empty if the call has not
    /// ended: the call keeps them.
    pub got: BytesMut,
}

/// A READ of missing bytes under way.
///
/// Used by the functions of this module.
#[derive(Drop)]
pub struct Gathering {
    alloc: Global,
    handle: Handle,
    /// The file, at the offset of the READ.
    file: FileAt,
    facts: Facts,
    /// The place of the READ.
    place: u64,
    /// The bytes that were passed in, followed by those that came.
    buffer: BytesMut,
    /// The number of bytes that were passed in.
    handed: usize,
    /// The number of missing bytes.
    missing: usize,
    /// The number of bytes that the READ asks for.
    len: u32,
}

impl Model for Gathering {
    ghost use Rattle.std.specs.Prelude.{◌+◌, ◌<◌, ◌≤◌, ◌^◌, drop, length, take};
    ghost use Rattle.sftp_file.specs.Gathers.{ReadAllValue};

    ghost Value = { ReadAllValue };

    ghost view = { λ m. record {
      handle = m.handle;
      file = m.file;
      facts = m.facts;
      place = m.place;
      before = take m.handed m.buffer.items;
      got = drop m.handed m.buffer.items;
      missing = m.missing;
      len = m.len;
    } };

    ghost invariant = { λ m. (m.handed ≤ length m.buffer.items)
        × (m.len ≤ m.missing)
        × (m.file.offset + m.len < 2 ^ 64) };
}

/// A read of `n` bytes of a file under way. It returns the bytes that were passed in, followed by those that came.
pub type ReadAllCall = PendingCall<Gathering>;

impl Gathering {
    /// Returns the offset that the call has reached, in bytes.
    pub fn offset(&self) -> u64
        ensures { result ≡ self.now.file.offset }
    {
        self.file.offset
    }

    /// Appends the bytes to those that came. Fails only if an allocation fails; the runner is unchanged then.
    fn gather(&mut self, bytes: &[u8]) -> Result<(), OutOfMemory>
        requires { length bytes.now ≤ self.old.len }
        ensures ok { OnOk result (self.new ≡ after_data self.old bytes.now) }
        ensures unchanged { OnErr result (self.new ≡ self.old) }
    {
        let Some(place) = self.place.checked_add(1) else {
            return Err(OutOfMemory);
        };
        if self.buffer.extend_from_slice(bytes).is_err() {
            return Err(OutOfMemory);
        }
        self.file.offset += bytes.len() as u64;
        self.place = place;
        self.missing -= bytes.len();
        self.len = 0;
        Ok(())
    }

    /// Returns the READ of the missing bytes, up to the limit of one READ, or `None` if nothing is missing.
    fn next(&mut self) -> Result<Option<Asking>, IoKind>
        ensures is { IsNextRead self.old self.new result }
        ensures goes { (answers : Answers) → handle_of (answers self.old.file.grant) ≡ self.old.handle
            → missing_from self.old.file self.old.got self.old.missing self.old.facts [] answers
            ≡ next_read self.old result }
    {
        if self.missing == 0 {
            return Ok(None);
        }
        let len = self.missing.min(self.facts.read_len as usize) as u32;
        if let Err(why) = may_read(&self.file, len) {
            return Err(why);
        }
        self.len = len;
        Ok(Some(read_request(&self.handle, self.file.offset, len)))
    }

    /// Returns the bytes that were passed in, followed by those that came.
    fn into_bytes(self) -> BytesMut
        ensures { result.items ≡ self.before ++ self.got }
    {
        let Gathering { buffer, .. } = self;
        buffer
    }

    /// Returns the runner with these bytes passed in, and none that came.
    fn with_buffer(&self, buffer: BytesMut) -> Gathering
        ensures { result ≡ with_buffer self.now buffer.items }
    {
        let handed = buffer.len();
        Gathering {
            alloc: self.alloc,
            handle: self.handle.copied(),
            file: self.file,
            facts: self.facts,
            place: self.place,
            buffer,
            handed,
            missing: self.missing,
            len: self.len,
        }
    }
}

impl PlanRunner for Gathering {
    type Value = ();

    ghost World = { Unit {0} };

    ghost meaning = { reading_all };

    ghost waits = { gathers_wait };

    ghost stays = { λ (m : ReadAllValue). (refl, refl) };

    fn at_once(&mut self) -> Option<()> {
        Some(())
    }

    fn on(&mut self, told: Told) -> Then<()> {
        match told {
            Told::Reply(Reply::Content(bytes)) => {
                if let Err(OutOfMemory) = self.gather(bytes.as_slice()) {
                    return Then::Short(Told::Reply(Reply::Content(bytes)));
                }
                match self.next() {
                    Ok(None) => Then::Done(Ok(())),
                    Ok(Some(asking)) => Then::Ask(asking),
                    Err(why) => Then::Done(Err(Error::IOError(why))),
                }
            }
            Told::Reply(
                Reply::Status {
                    code,
                    message,
                    language,
                },
            ) => Then::Done(Err(status_missing(code, message, language))),
            Told::Reply(_) => unreachable!(),
            Told::Granted(_grant) => unreachable!(),
        }
    }
}

/// Returns the error of a STATUS that comes in place of missing bytes.
fn status_missing(code: u32, message: ByteText, language: ByteText) -> Error
    ensures { result ≡ missing_error code message language }
{
    if code == SSH_FX_EOF {
        return Error::IOError(IoKind::UnexpectedEof);
    }
    Error::SftpError {
        code,
        message,
        language,
    }
}

/// Adds a call's bytes to its answer. If the call has ended they are taken out of it; otherwise it keeps them.
///
/// # Errors
///
/// The error of `answer`. It has the bytes if the call has ended, and none otherwise.
pub fn read_all_answer(
    call: &mut ReadAllCall,
    answer: Result<(), Error>,
) -> Result<BytesMut, ReadAllError>
    ensures gives { GivesBytes (bytes_out call.old) answer result }
    ensures left { call.new ≡ without_bytes call.old }
{
    let bytes = take_bytes(call);
    match answer {
        Ok(()) => Ok(bytes),
        Err(error) => Err(ReadAllError { error, got: bytes }),
    }
}

/// Gives a call up, as `PendingCall::cancel` does, and returns its bytes: those that were passed in, followed by those
/// that came.
pub fn cancel_read_all(call: ReadAllCall, core: &mut Core) -> BytesMut
    requires { IsHeld reading_all core.old call }
    ensures bytes { result.items ≡ call.runner.before ++ call.runner.got }
    ensures cancels { CancelsAwaited core.old core.new call.stage }
{
    let mut call = call;
    let empty = BytesMut::new(call.runner().alloc);
    let runner = call.runner().with_buffer(empty);
    let bytes = call.replace_runner(runner).into_bytes();
    call.cancel(core);
    bytes
}

/// Takes the bytes out of a call that has ended, and none out of any other.
fn take_bytes(call: &mut ReadAllCall) -> BytesMut
    ensures bytes { result.items ≡ bytes_out call.old }
    ensures left { call.new ≡ without_bytes call.old }
{
    let empty = BytesMut::new(call.runner().alloc);
    if !call.is_ended() {
        return empty;
    }
    let runner = call.runner().with_buffer(empty);
    call.replace_runner(runner).into_bytes()
}

/// Polls of a `read_all`.
///
/// Example: `crates/test_client/src/polls.rt`.
pub trait PollReadAll {
    // The precondition of a poll.
    ghost may: { CoreValue → Self → FileValue → Type 0 };

    // The effect of a poll.
    ghost did: { CoreValue → CoreValue → Self → Self → FileValue → FileValue
        → PollValue (ResultValue Filled ErrorWithBytes) → Type 0 };

    /// Polls for the reply that the call awaits, and continues the call: the bytes of a DATA are kept, and a READ of
    /// the missing ones is sent, until all came.
    ///
    /// The file must be the one that the call was started on, at the offset that the start or the last poll left.
    /// Afterwards it is after the bytes that came. Returns `Pending` exactly if the reply was not taken and the core
    /// has recorded no fault, or if another request was submitted.
    ///
    /// # Errors
    ///
    /// `BackgroundTaskFailure` if the core has recorded a fault and the reply was not taken or another request is to be
    /// asked; `IOError(UnexpectedEof)` if the file ends before all bytes came; `SftpError` if the server refused;
    /// `IOError(OffsetOverflow)` if the next READ would go past the greatest offset. Each of them hands the bytes back.
    /// `OutOfMemory` hands none back: the call keeps them, and may be polled again.
    fn poll(&mut self, core: &mut Core, file: &mut File) -> Poll<Result<BytesMut, ReadAllError>>
        requires { may core.old self.old file.old }
        ensures { did core.old core.new self.old self.new file.old file.new result };
}

impl PollReadAll for PendingCall<Gathering> {
    ghost may = { MayReadAll };

    ghost did = { ReadsAll };

    fn poll(&mut self, core: &mut Core, file: &mut File) -> Poll<Result<BytesMut, ReadAllError>> {
        let polled = self.step(core);
        file.stand(self.runner().offset());
        match polled {
            Poll::Pending => Poll::Pending,
            Poll::Ready(answer) => Poll::Ready(read_all_answer(self, answer)),
        }
    }
}

impl File {
    /// Reads exactly `n` bytes at the offset (draft-ietf-secsh-filexfer-02, section 6.4). Each READ asks for the
    /// missing bytes, up to the limit of one READ of the session, and is sent after the reply to the one before. The
    /// bytes are appended to `buffer`. For no bytes nothing is asked.
    ///
    /// # Errors
    ///
    /// Checked in this order: `IOError(NotReadable)`; `IOError(OffsetOverflow)` if the offset and the length of the
    /// READ together are over 18446744073709551615, as for each later READ; `BackgroundTaskFailure` if the core has
    /// recorded a fault. `OutOfMemory` may come in place of any result. After an error nothing was submitted, the
    /// buffer is handed back, and core and file are unchanged.
    pub fn start_read_all(
        &mut self,
        core: &mut Core,
        n: usize,
        buffer: BytesMut,
    ) -> Result<ReadAllCall, ReadAllError>
        requires { IsReady core.old }
        ensures starts { StartsReadAll n buffer.items self.old core.old core.new result }
        ensures left { self.new ≡ self.old }
    {
        let mut runner = self.gathering(core, n);
        let asking = match runner.next() {
            Ok(None) => return Ok(PendingCall::ready(runner.with_buffer(buffer))),
            Ok(Some(asking)) => asking,
            Err(why) => {
                return Err(ReadAllError {
                    error: Error::IOError(why),
                    got: buffer,
                });
            }
        };
        match PendingCall::ask(core, asking, runner) {
            Ok(call) => Ok(hand_in(call, buffer)),
            Err(error) => Err(ReadAllError { error, got: buffer }),
        }
    }

    /// Returns the runner of a read of `n` bytes of which none came, with no bytes passed in.
    fn gathering(&self, core: &Core, n: usize) -> Gathering
        requires { IsReady core.now }
        ensures { result ≡ first_read self.now (facts_of core.now) n }
    {
        Gathering {
            alloc: core.alloc(),
            handle: self.grant().handle().copied(),
            file: self.at(),
            facts: facts(core),
            place: 1,
            buffer: BytesMut::new(core.alloc()),
            handed: 0,
            missing: n,
            len: 0,
        }
    }
}

/// Returns the call with these bytes passed in.
fn hand_in(call: ReadAllCall, buffer: BytesMut) -> ReadAllCall
    ensures { result ≡ record call { runner = with_buffer call.runner buffer.items } }
{
    let mut call = call;
    let runner = call.runner().with_buffer(buffer);
    let _empty = call.replace_runner(runner);
    call
}
