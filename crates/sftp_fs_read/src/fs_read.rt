//! Whole reads: a file is opened, read by a window of READs, and closed.
ghost use Rattle.std.specs.Prelude.{◌≡◌, ◌<◌, ◌+◌, ◌^◌, ℕ, List, true, false, None, Result as ResultValue};
ghost use Rattle.plan_model.specs.FilePlans.{open_request};
ghost use Rattle.plan_model.specs.GoodMoves.{FitsFacts};
ghost use Rattle.plan_model.specs.WindowPlans.{to_read};
ghost use Rattle.sftp_model.specs.declared.error.Error.{Error as ErrorValue};
ghost use Rattle.sftp_model.specs.declared.request.Request.TheVariants as request;
ghost use Rattle.sftp_model.specs.declared.slot.Move.TheVariants as moves;
ghost use Rattle.sftp_model.specs.declared.slot.Site.{Site};
ghost use Rattle.plan_window.specs.Windows.{window_move};
ghost use Rattle.sftp_core.specs.Core.{Core as CoreValue};
ghost use Rattle.plan_state.specs.Asked.{IsReady};
ghost use Rattle.plan_state.specs.Calls.{IsUnderWay};
ghost use Rattle.sftp_fs.specs.Grants.{grant_meaning};
ghost use Rattle.sftp_fs.specs.WholeWrites.{IsOwned, core_after_close};
ghost use Rattle.sftp_fs_read.specs.Hearing.{IsFirstMissing};
ghost use Rattle.sftp_fs_read.specs.Tickets.{AreTickets, AreUnderWay, core_without_tickets};
ghost use Rattle.sftp_fs_read.specs.WholeReads.{CancelsRead, DecidesNextMove, FsReadValue, IsReadHeld, IsUnopened, MayRead, ReadOn, ReadsFrom, is_over, read_answer_of};
ghost use Rattle.sftp_fs_read.specs.declared.fs_read.Whole.TheVariants as whole;

use crate::reads::Reads;
use crate::replies::{Heard, hear};
use crate::tickets::{Unasked, abandon_all};
use bitflags::Flags;
use bytes::BytesMut;
use plan_state::PendingCall;
use plan_window::WindowMove;
use sftp_core::{Core, Ended, Grant, Ticket};
use sftp_file::Poll;
use sftp_fs::{Fs, Granting, ask, close, facts};
use sftp_model::numbers::SSH_FXF_READ;
use sftp_model::{Error, Facts, FileAttrs, OpenFlags, RemotePath, Request};
use ssh_encoding::OutOfMemory;
use std::alloc::Global;
use std::collections::VecDeque;
use std::marker::Model;
use std::mem;

/// The stage of a whole read.
///
/// Used in `crates/sftp_fs_read/src/tickets.rt`.
#[must_use]
pub enum Whole {
    /// The read has returned its result.
    Ended,
    /// The OPEN is under way.
    Opening(PendingCall<Granting>, Facts),
    /// The file is open, and these READs were asked. The tickets are those of the READs under way, in order.
    Open(Grant, Reads, VecDeque<Ticket>),
}

/// A whole read under way. It isn't droppable: `cancel` consumes it, also after it has returned its result, and
/// `let_go` does after its core was given up.
///
/// Example: `crates/sftp_client/src/sftp/calls.rt`.
#[must_use]
pub struct FsReadCall {
    stage: Whole,
}

impl Model for FsReadCall {
    ghost use Rattle.sftp_fs_read.specs.WholeReads.{FsReadValue};

    ghost Value = { FsReadValue };

    ghost view = { λ r. record { stage = r.stage } };
}

impl Whole {
    /// Takes the stage out of the read.
    fn take(&mut self) -> Whole
        ensures was { result ≡ self.old }
        ensures now { self.new ≡ Whole.Ended }
    {
        mem::replace(self, Whole::Ended)
    }

    /// Puts a stage in place of `Ended`.
    fn put(&mut self, stage: Whole)
        requires { is_over self.old ≡ true }
        ensures { self.new ≡ stage }
    {
        match mem::replace(self, stage) {
            Whole::Ended => {}
            Whole::Opening(_call, _facts) => unreachable!(),
            Whole::Open(_grant, _reads, _tickets) => unreachable!(),
        }
    }
}

/// Drops the requests under way, and closes the file.
fn finish(core: &mut Core, grant: Grant, tickets: VecDeque<Ticket>)
    requires owned { IsOwned core.old grant }
    requires tickets { AreTickets core.old tickets.items }
    ensures { core.new ≡ core_after_close (core_without_tickets core.old tickets.items) grant }
{
    abandon_all(core, tickets);
    close(core, grant);
}

/// Asks for the READ that the window asks next.
fn ask_read(
    core: &mut Core,
    grant: Grant,
    reads: Reads,
    tickets: VecDeque<Ticket>,
    offset: u64,
    len: u32,
) -> (Poll<Result<BytesMut, Error>>, Whole)
    requires held { IsReadHeld core.old (whole.Open grant reads tickets) }
    requires ready { IsReady core.old }
    requires asks { (site : Site) → window_move reads.handle None reads.window site reads.facts
        ≡ moves.Ask (request.Read reads.handle offset len) }
    requires range { offset + len < 2 ^ 64 }
    ensures { DecidesNextMove core.old core.new (whole.Open grant reads tickets) result.1 result.0 }
{
    let (mut reads, mut tickets) = (reads, tickets);
    if tickets.reserve(1).is_err() {
        return (
            Poll::Ready(Err(Error::OutOfMemory)),
            Whole::Open(grant, reads, tickets),
        );
    }
    match reads.ask(core, offset, len) {
        Ok(ticket) => {
            tickets.push_back_reserved(ticket);
            (Poll::Pending, Whole::Open(grant, reads, tickets))
        }
        Err(Unasked::Short) => (
            Poll::Ready(Err(Error::OutOfMemory)),
            Whole::Open(grant, reads, tickets),
        ),
        Err(Unasked::Failed(fault)) => {
            finish(core, grant, tickets);
            (
                Poll::Ready(Err(Error::BackgroundTaskFailure(fault))),
                Whole::Ended,
            )
        }
    }
}

/// Makes the window's next move, if the reply to the first READ under way is missing.
fn decide(
    core: &mut Core,
    grant: Grant,
    reads: Reads,
    tickets: VecDeque<Ticket>,
) -> (Poll<Result<BytesMut, Error>>, Whole)
    requires held { IsReadHeld core.old (whole.Open grant reads tickets) }
    requires ready { IsReady core.old }
    requires missing { IsFirstMissing core.old tickets.items }
    ensures { DecidesNextMove core.old core.new (whole.Open grant reads tickets) result.1 result.0 }
{
    match reads.next_move(core.alloc()) {
        Err(OutOfMemory) => (
            Poll::Ready(Err(Error::OutOfMemory)),
            Whole::Open(grant, reads, tickets),
        ),
        Ok(WindowMove::Ask { offset, len }) => ask_read(core, grant, reads, tickets, offset, len),
        Ok(WindowMove::Wait { place: _place }) => (
            Poll::Pending,
            Whole::Open(grant, reads, tickets),
        ),
        Ok(WindowMove::Whole(bytes)) => match bytes.into_vec(core.alloc()) {
            Err(_) => (
                Poll::Ready(Err(Error::OutOfMemory)),
                Whole::Open(grant, reads, tickets),
            ),
            Ok(bytes) => {
                finish(core, grant, tickets);
                (Poll::Ready(Ok(BytesMut::from_vec(bytes))), Whole::Ended)
            }
        },
        Ok(WindowMove::GivenUp) => unreachable!(),
    }
}

/// Takes the replies that came, and continues after them.
fn go_on(
    core: &mut Core,
    grant: Grant,
    reads: Reads,
    tickets: VecDeque<Ticket>,
) -> (Poll<Result<BytesMut, Error>>, Whole)
    requires held { IsReadHeld core.old (whole.Open grant reads tickets) }
    requires ready { IsReady core.old }
    ensures { ReadOn core.old core.new (whole.Open grant reads tickets) result.1 result.0 }
{
    match hear(core, reads, tickets) {
        Heard::Missing(reads, tickets) => decide(core, grant, reads, tickets),
        Heard::Over(e, tickets) => {
            finish(core, grant, tickets);
            (Poll::Ready(Err(e)), Whole::Ended)
        }
    }
}

/// Returns the result of a read whose OPEN is still under way.
fn unopened(told: Poll<Result<Grant, Error>>) -> Poll<Result<BytesMut, Error>>
    requires { IsUnopened told }
    ensures { result ≡ read_answer_of told }
{
    match told {
        Poll::Pending => Poll::Pending,
        Poll::Ready(Ok(_grant)) => unreachable!(),
        Poll::Ready(Err(e)) => Poll::Ready(Err(e)),
    }
}

/// Polls the OPEN, and asks for the first READ after its HANDLE.
fn open(
    core: &mut Core,
    call: PendingCall<Granting>,
    facts: Facts,
) -> (Poll<Result<BytesMut, Error>>, Whole)
    requires under_way { IsUnderWay grant_meaning core.old call }
    requires fits { FitsFacts facts }
    requires ready { IsReady core.old }
    ensures { ReadOn core.old core.new (whole.Opening call facts) result.1 result.0 }
{
    let mut call = call;
    let told = call.step(core);
    if !call.is_ended() {
        return (unopened(told), Whole::Opening(call, facts));
    }
    call.cancel(core);
    match told {
        Poll::Pending => unreachable!(),
        Poll::Ready(Ok(grant)) => {
            let reads = Reads::new(core.alloc(), facts, grant.handle().copied());
            let tickets = VecDeque::new(core.alloc());
            decide(core, grant, reads, tickets)
        }
        Poll::Ready(Err(e)) => (Poll::Ready(Err(e)), Whole::Ended),
    }
}

/// Polls for what is awaited, and continues the read with it.
fn poll_stage(core: &mut Core, stage: Whole) -> (Poll<Result<BytesMut, Error>>, Whole)
    requires over { is_over stage ≡ false }
    requires held { IsReadHeld core.old stage }
    requires ready { IsReady core.old }
    ensures { ReadOn core.old core.new stage result.1 result.0 }
{
    match stage {
        Whole::Ended => unreachable!(),
        Whole::Opening(call, facts) => open(core, call, facts),
        Whole::Open(grant, reads, tickets) => go_on(core, grant, reads, tickets),
    }
}

/// Gives up the requests under way, and closes the file.
fn cancel(core: &mut Core, stage: Whole)
    requires { IsReadHeld core.old stage }
    ensures { CancelsRead core.old core.new stage }
{
    match stage {
        Whole::Ended => {}
        Whole::Opening(call, _facts) => call.cancel(core),
        Whole::Open(grant, _reads, tickets) => finish(core, grant, tickets),
    }
}

impl FsReadCall {
    /// Polls for the replies that the read awaits, and continues the read.
    ///
    /// The replies that came are taken in the order of their READs. Then a READ is asked for if fewer than the
    /// session's `read_window` are under way and the end of the file is not known, or if a short one left a gap. One
    /// poll asks for one READ: poll again for the next. `Pending` without another request comes if the awaited reply
    /// was not taken and the core has recorded no fault. The file is closed at the end; the STATUS of the CLOSE isn't
    /// awaited.
    ///
    /// # Errors
    ///
    /// `SftpError` if the server refused the OPEN or a READ; `BackgroundTaskFailure` if the core has recorded a fault
    /// and no reply was taken or a READ is to be asked for. `OutOfMemory` if an allocation fails: the read keeps the
    /// replies that it has, those that it awaits are still in the core, and it may be polled again.
    pub fn poll(&mut self, core: &mut Core) -> Poll<Result<BytesMut, Error>>
        requires { MayRead core.old self.old }
        ensures { ReadOn core.old core.new self.old.stage self.new.stage result }
    {
        let (told, next) = poll_stage(core, self.stage.take());
        self.stage.put(next);
        told
    }

    /// Returns true if the read has returned its result. It can't be polled then.
    pub fn is_ended(&self) -> bool
        ensures { result ≡ is_over self.now.stage }
    {
        matches!(&self.stage, Whole::Ended)
    }

    /// Gives the read up: its requests stay under way, their replies are dropped, and the file is closed.
    pub fn cancel(self, core: &mut Core)
        requires { IsReadHeld core.old self.stage }
        ensures { CancelsRead core.old core.new self.stage }
    {
        let FsReadCall { stage } = self;
        cancel(core, stage);
    }

    /// Releases the read after its core was given up.
    pub fn let_go(self, core: Ended) {
        let FsReadCall { stage } = self;
        match stage {
            Whole::Ended => {}
            Whole::Opening(call, _facts) => call.let_go(core),
            Whole::Open(grant, _reads, tickets) => {
                let mut tickets = tickets;
                while let Some(ticket) = tickets.pop_front() {
                    ticket.let_go(core);
                }
                tickets.destroy_empty();
                grant.let_go(core);
            }
        }
    }
}

/// Returns the OPEN of a file that is read.
fn open_to_read(path: RemotePath) -> Request
    ensures { result ≡ open_request to_read path }
{
    Request::OpenFile {
        path,
        flags: OpenFlags::from_bits_retain(SSH_FXF_READ),
        attrs: FileAttrs {
            size: None,
            id: None,
            permissions: None,
            time: None,
        },
    }
}

/// Starts of a whole read.
///
/// Example: `crates/example_client/src/downloads.rt`.
pub trait StartRead {
    // The precondition of a start, and its effect.
    ghost may: { CoreValue → Type 0 };

    ghost did: { Self → List ℕ → CoreValue → CoreValue → ResultValue FsReadValue ErrorValue → Type 0 };

    /// Reads all of a file, and closes it (draft-ietf-secsh-filexfer-02, sections 6.3 and 6.4). At most the session's
    /// `read_window` of READs may be under way.
    ///
    /// # Errors
    ///
    /// Checked in this order: `IOError(PathTooLong)`, exactly if the body of the OPEN would pass 1048575 bytes;
    /// `BackgroundTaskFailure` if the core has recorded a fault. `OutOfMemory` may come in place of any result. After
    /// an error nothing was submitted, and the core is unchanged.
    fn start_read(&self, alloc: Global, core: &mut Core, path: &[u8]) -> Result<FsReadCall, Error>
        requires { may core.old }
        ensures { did self.now path.now core.old core.new result };
}

impl StartRead for Fs {
    ghost may = { IsReady };

    ghost did = { λ cwd path. ReadsFrom path cwd };

    fn start_read(&self, alloc: Global, core: &mut Core, path: &[u8]) -> Result<FsReadCall, Error> {
        let path = self.named(alloc, path)?;
        let facts = facts(core);
        match ask(core, open_to_read(path), Granting {}) {
            Ok(call) => Ok(FsReadCall {
                stage: Whole::Opening(call, facts),
            }),
            Err(e) => Err(e), // not `?`, whose exit would speak of a converted error
        }
    }
}
