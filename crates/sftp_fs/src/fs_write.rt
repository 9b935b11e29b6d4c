//! Whole writes: a file is created or truncated, written part by part, and closed.
ghost use Rattle.std.specs.Prelude.{◌≡◌, ◌≤◌, true, false, Some, IfOk};
ghost use Rattle.plan_model.specs.FilePlans.{open_request};
ghost use Rattle.plan_model.specs.WholePlans.{to_replace};
ghost use Rattle.sftp_core.specs.Core.{record_at};
ghost use Rattle.sftp_core.specs.declared.id_record.IdRecord.TheVariants.{Granted};
ghost use Rattle.sftp_model.specs.Numbers.{MAX_TRANSFER_LEN};
ghost use Rattle.sftp_model.specs.declared.slot.Facts.{Facts as FactsValue};
ghost use Rattle.plan_state.specs.Asked.{IsReady};
ghost use Rattle.plan_state.specs.Calls.{IsUnderWay};
ghost use Rattle.sftp_fs.specs.Grants.{grant_meaning};
ghost use Rattle.sftp_fs.specs.WholeWrites.{BeganWrite, CancelsWrite, IsOwned, IsUnbegun, IsUnended, IsWriteHeld, MayWrite};
ghost use Rattle.sftp_fs.specs.WholeWrites.{WroteOn, PollsWrite, WritesFrom};
ghost use Rattle.sftp_fs.specs.WholeWrites.{core_after_close, fault_told, is_over, write_answer_of};
ghost use Rattle.sftp_fs.specs.declared.fs_write.Writing.TheVariants as writing;

use crate::asks::{ask, facts};
use crate::fs::Fs;
use crate::grants::Granting;
use crate::parts::WritingParts;
use bitflags::Flags;
use bytes::Bytes;
use plan_state::PendingCall;
use sftp_core::{Core, Ended, Grant};
use sftp_file::Poll;
use sftp_model::numbers::{SSH_FXF_CREAT, SSH_FXF_TRUNC, SSH_FXF_WRITE};
use sftp_model::{Error, Facts, Fault, FileAttrs, OpenFlags, RemotePath, Request};
use ssh_encoding::OutOfMemory;
use std::alloc::Global;
use std::marker::Model;
use std::mem;

/// The stage of a whole write.
///
/// Used by the functions of this module.
#[must_use]
pub enum Writing {
    /// The write has returned its result.
    Ended,
    /// The OPEN is under way, and this content is to be written.
    Opening(PendingCall<Granting>, Bytes),
    /// The file is open, and an allocation failed for the request of the first part.
    Opened(Grant, Bytes),
    /// A part is under way.
    Parts(Grant, PendingCall<WritingParts>),
}

/// A whole write under way. It isn't droppable: `cancel` consumes it, also after it has returned its result, and
/// `let_go` does after its core was given up.
///
/// Example: `crates/sftp_client/src/sftp/calls.rt`.
#[must_use]
pub struct FsWriteCall {
    facts: Facts,
    stage: Writing,
}

impl Model for FsWriteCall {
    ghost use Rattle.std.specs.Prelude.{◌≤◌};
    ghost use Rattle.sftp_model.specs.Numbers.{MAX_TRANSFER_LEN};
    ghost use Rattle.sftp_fs.specs.WholeWrites.{FsWriteValue};

    ghost Value = { FsWriteValue };

    ghost view = { λ w. record { facts = w.facts; stage = w.stage } };

    ghost invariant = { λ w. (1 ≤ w.facts.write_len) × (w.facts.write_len ≤ MAX_TRANSFER_LEN) };
}

impl Writing {
    /// Takes the stage out of the write.
    fn take(&mut self) -> Writing
        ensures was { result ≡ self.old }
        ensures now { self.new ≡ Writing.Ended }
    {
        mem::replace(self, Writing::Ended)
    }

    /// Puts a stage in place of `Ended`.
    fn put(&mut self, stage: Writing)
        requires { is_over self.old ≡ true }
        ensures { self.new ≡ stage }
    {
        match mem::replace(self, stage) {
            Writing::Ended => {}
            Writing::Opening(_call, _content) => unreachable!(),
            Writing::Opened(_grant, _content) => unreachable!(),
            Writing::Parts(_grant, _call) => unreachable!(),
        }
    }
}

/// Closes a grant with one user; nobody awaits the CLOSE.
pub fn close(core: &mut Core, grant: Grant)
    requires { IsOwned core.old grant }
    ensures { core.new ≡ core_after_close core.old grant }
{
    match core.release(grant) {
        Some(ticket) => core.abandon(ticket),
        None => unreachable!(),
    }
}

/// Returns the recorded fault that an error reports.
fn fault_told(e: &Error) -> Option<Fault>
    ensures { result ≡ fault_told e.now }
{
    match e {
        Error::BackgroundTaskFailure(fault) => Some(*fault),
        _ => None,
    }
}

/// Returns the result of a write whose OPEN is still under way.
fn unended(told: Poll<Result<Grant, Error>>) -> Poll<Result<(), Error>>
    requires { IsUnended told }
    ensures { result ≡ write_answer_of told }
{
    match told {
        Poll::Pending => Poll::Pending,
        Poll::Ready(Ok(_grant)) => unreachable!(),
        Poll::Ready(Err(e)) => Poll::Ready(Err(e)),
    }
}

/// Asks for the first part of the content.
fn begin(
    core: &mut Core,
    facts: Facts,
    grant: Grant,
    content: Bytes,
) -> (Poll<Result<(), Error>>, Writing)
    requires range { (1 ≤ facts.write_len) × (facts.write_len ≤ MAX_TRANSFER_LEN) }
    requires owned { IsOwned core.old grant }
    requires ready { IsReady core.old }
    ensures { BeganWrite facts core.old core.new grant content result.1 result.0 }
{
    match WritingParts::first(core.alloc(), grant.handle(), facts, &content) {
        Err(OutOfMemory) => (
            Poll::Ready(Err(Error::OutOfMemory)),
            Writing::Opened(grant, content),
        ),
        Ok(None) => {
            close(core, grant);
            (Poll::Ready(Ok(())), Writing::Ended)
        }
        Ok(Some((asking, runner))) => match PendingCall::ask(core, asking, runner) {
            Ok(call) => (Poll::Pending, Writing::Parts(grant, call)),
            Err(e) => unbegun(core, grant, content, e),
        },
    }
}

/// Returns the result of a write whose first part was not asked for.
fn unbegun(
    core: &mut Core,
    grant: Grant,
    content: Bytes,
    e: Error,
) -> (Poll<Result<(), Error>>, Writing)
    requires { IsOwned core.old grant }
    ensures { IsUnbegun core.old core.new grant content e result }
{
    match fault_told(&e) {
        Some(fault) => {
            close(core, grant);
            (
                Poll::Ready(Err(Error::BackgroundTaskFailure(fault))),
                Writing::Ended,
            )
        }
        None => (
            Poll::Ready(Err(Error::OutOfMemory)),
            Writing::Opened(grant, content),
        ),
    }
}

/// Polls the OPEN, and asks for the first part after its HANDLE.
fn open(
    core: &mut Core,
    facts: Facts,
    call: PendingCall<Granting>,
    content: Bytes,
) -> (Poll<Result<(), Error>>, Writing)
    requires range { (1 ≤ facts.write_len) × (facts.write_len ≤ MAX_TRANSFER_LEN) }
    requires under_way { IsUnderWay grant_meaning core.old call }
    requires ready { IsReady core.old }
    ensures { WroteOn facts core.old core.new (writing.Opening call content) result.1 result.0 }
{
    let mut call = call;
    let told = call.step(core);
    if !call.is_ended() {
        return (unended(told), Writing::Opening(call, content));
    }
    call.cancel(core);
    match told {
        Poll::Pending => unreachable!(),
        Poll::Ready(Ok(grant)) => begin(core, facts, grant, content),
        Poll::Ready(Err(e)) => (Poll::Ready(Err(e)), Writing::Ended),
    }
}

/// Polls the WRITE of a part, and asks for the next one after its STATUS.
fn go_on(
    core: &mut Core,
    grant: Grant,
    call: PendingCall<WritingParts>,
) -> (Poll<Result<(), Error>>, Writing)
    requires held { IsWriteHeld core.old (writing.Parts grant call) }
    requires ready { IsReady core.old }
    ensures { (facts : FactsValue) → WroteOn facts core.old core.new (writing.Parts grant call) result.1 result.0 }
{
    let mut call = call;
    let told = call.step(core);
    if !call.is_ended() {
        return (told, Writing::Parts(grant, call));
    }
    call.cancel(core);
    close(core, grant);
    (told, Writing::Ended)
}

/// Polls for the awaited reply, and continues the write with it.
fn poll_stage(core: &mut Core, facts: Facts, stage: Writing) -> (Poll<Result<(), Error>>, Writing)
    requires range { (1 ≤ facts.write_len) × (facts.write_len ≤ MAX_TRANSFER_LEN) }
    requires over { is_over stage ≡ false }
    requires held { IsWriteHeld core.old stage }
    requires ready { IsReady core.old }
    ensures { WroteOn facts core.old core.new stage result.1 result.0 }
{
    match stage {
        Writing::Ended => unreachable!(),
        Writing::Opening(call, content) => open(core, facts, call, content),
        Writing::Opened(grant, content) => begin(core, facts, grant, content),
        Writing::Parts(grant, call) => go_on(core, grant, call),
    }
}

/// Gives up the request under way, and closes the file.
fn cancel(core: &mut Core, stage: Writing)
    requires { IsWriteHeld core.old stage }
    ensures { CancelsWrite core.old core.new stage }
{
    match stage {
        Writing::Ended => {}
        Writing::Opening(call, _content) => call.cancel(core),
        Writing::Opened(grant, _content) => close(core, grant),
        Writing::Parts(grant, call) => {
            call.cancel(core);
            close(core, grant);
        }
    }
}

impl FsWriteCall {
    /// Polls for the reply that the write awaits, and continues the write: each part is sent after the STATUS of OK to
    /// the one before. The file is closed at the end; the STATUS of the CLOSE isn't awaited. Returns `Pending` exactly
    /// if a reply was not taken and the core has recorded no fault, or if the next part was asked for.
    ///
    /// # Errors
    ///
    /// `SftpError` for a STATUS other than OK; `BackgroundTaskFailure` if the core has recorded a fault and no reply
    /// was taken or a part is to be asked for; `OutOfMemory` if an allocation fails, after which the write may be
    /// polled again.
    pub fn poll(&mut self, core: &mut Core) -> Poll<Result<(), Error>>
        requires { MayWrite core.old self.old }
        ensures { PollsWrite core.old core.new self.old self.new result }
    {
        let (told, next) = poll_stage(core, self.facts, self.stage.take());
        self.stage.put(next);
        told
    }

    /// Returns true if the write has returned its result. It can't be polled then.
    pub fn is_ended(&self) -> bool
        ensures { result ≡ is_over self.now.stage }
    {
        matches!(&self.stage, Writing::Ended)
    }

    /// Gives the write up: its request stays under way, its reply is dropped, and the file is closed.
    pub fn cancel(self, core: &mut Core)
        requires { IsWriteHeld core.old self.stage }
        ensures { CancelsWrite core.old core.new self.stage }
    {
        let FsWriteCall { facts: _, stage } = self;
        cancel(core, stage);
    }

    /// Releases the write after its core was given up.
    pub fn let_go(self, core: Ended) {
        let FsWriteCall { facts: _, stage } = self;
        match stage {
            Writing::Ended => {}
            Writing::Opening(call, _content) => call.let_go(core),
            Writing::Opened(grant, _content) => grant.let_go(core),
            Writing::Parts(grant, call) => {
                call.let_go(core);
                grant.let_go(core);
            }
        }
    }
}

/// Returns the OPEN that creates a file, or truncates an existing one.
fn open_to_replace(path: RemotePath) -> Request
    ensures { result ≡ open_request to_replace path }
{
    Request::OpenFile {
        path,
        flags: OpenFlags::from_bits_retain(SSH_FXF_WRITE + SSH_FXF_CREAT + SSH_FXF_TRUNC),
        attrs: FileAttrs {
            size: None,
            id: None,
            permissions: None,
            time: None,
        },
    }
}

impl Fs {
    /// Writes all of a file, and closes it (draft-ietf-secsh-filexfer-02, sections 6.3 and 6.4). The file is created,
    /// or truncated if it exists. The content is copied once.
    ///
    /// # Errors
    ///
    /// Checked in this order: `IOError(PathTooLong)`, exactly if the body of the OPEN would pass 1048575 bytes;
    /// `BackgroundTaskFailure` if the core has recorded a fault. `OutOfMemory` may come in place of any result. After
    /// an error nothing was submitted, and the core is unchanged.
    pub fn start_write(
        &self,
        alloc: Global,
        core: &mut Core,
        path: &[u8],
        content: &[u8],
    ) -> Result<FsWriteCall, Error>
        requires { IsReady core.old }
        ensures { WritesFrom path.now content.now self.now core.old core.new result }
    {
        let path = self.named(alloc, path)?;
        let facts = facts(core);
        let Ok(content) = Bytes::copy_from_slice(alloc, content) else {
            return Err(Error::OutOfMemory);
        };
        match ask(core, open_to_replace(path), Granting {}) {
            Ok(call) => Ok(FsWriteCall {
                facts,
                stage: Writing::Opening(call, content),
            }),
            Err(e) => Err(e), // not `?`, whose exit would speak of a converted error
        }
    }
}
