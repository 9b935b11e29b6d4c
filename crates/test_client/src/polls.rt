//! Polls of calls on files before their requests are sent. Each call is given up then.
ghost use Rattle.std.specs.Prelude.{IsSome};
ghost use Rattle.sftp_core.specs.Info.{info_of};
ghost use Rattle.plan_state.specs.Asked.{IsReady};

use crate::buffered::may_ask;
use crate::server::Session;
use bytes::BytesMut;
use sftp_client::{Core, Ended, Error, File, Poll, PollCopy, PollFile, PollReadAll};
use std::alloc::Global;

/// Returns true if a write waits.
fn write_waits(core: &mut Core, file: &mut File) -> bool
    requires { IsReady core.old }
{
    let Ok(mut call) = file.start_write(core, b"x") else {
        return false;
    };
    if !may_ask(core) {
        call.cancel(core);
        return false;
    }
    let waits = matches!(call.poll(core, file), Poll::Pending);
    call.cancel(core);
    waits
}

/// Returns true if a read of five bytes waits.
#[tactic(auto, using(crate::proofs::Waiting::bytes_held))]
fn read_waits(alloc: Global, core: &mut Core, file: &mut File) -> bool
    requires { IsReady core.old }
{
    let Ok(mut call) = file.start_read_all(core, 5, BytesMut::new(alloc)) else {
        return false;
    };
    if !may_ask(core) || call.is_ended() {
        call.cancel(core);
        return false;
    }
    let waits = matches!(call.poll(core, file), Poll::Pending);
    call.cancel(core);
    waits
}

/// Returns true if a copy of five bytes waits.
fn copy_waits(core: &mut Core, from: &mut File, to: &mut File) -> bool
    requires { IsReady core.old }
{
    let Ok(mut call) = from.start_copy_to(core, to, 5) else {
        return false;
    };
    if !may_ask(core) || call.is_ended() {
        call.cancel(core);
        return false;
    }
    let waits = matches!(call.poll(core, from, to), Poll::Pending);
    call.cancel(core);
    waits
}

/// Returns true if each call waits.
fn all_wait(alloc: Global, core: &mut Core, from: &mut File, to: &mut File) -> bool {
    may_ask(core)
        && write_waits(core, to)
        && may_ask(core)
        && read_waits(alloc, core, from)
        && may_ask(core)
        && copy_waits(core, from, to)
}

/// Returns true if each call on an open file and one of this path waits.
fn wait_on(
    alloc: Global,
    sftp: &mut Session,
    from: &mut File,
    path: &[u8],
    ended: Ended,
) -> Result<bool, Error>
    requires { IsSome (info_of sftp.old.core.phase) }
{
    let mut to = sftp.create(path)?;
    let answer = all_wait(alloc, sftp.core(), from, &mut to);
    to.let_go(ended);
    Ok(answer)
}

/// Returns true if each call on the files of two paths waits.
pub(crate) fn wait(
    alloc: Global,
    sftp: &mut Session,
    from: &[u8],
    to: &[u8],
    ended: Ended,
) -> Result<bool, Error>
    requires { IsSome (info_of sftp.old.core.phase) }
{
    let mut from = sftp.open(from)?;
    let answer = wait_on(alloc, sftp, &mut from, to, ended);
    from.let_go(ended);
    answer
}
