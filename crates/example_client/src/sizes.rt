//! Many calls in flight at once.
ghost use Rattle.std.specs.Prelude.{◌≡◌, ◌++◌, ◌∷◌, ◌<◌, ◌≤◌, ℕ, List, [], IfOk, OnOk};
ghost use Rattle.std.specs.VecDeque.{deque_capacity, deque_len};
ghost use Rattle.plan_state.specs.Keeping.{KeepsHeld};
ghost use Rattle.sftp_client.specs.Calls.{IsUsable};
ghost use Rattle.example_client.specs.Sizes.{AreCallsAwaited, AreSizes, AreCallsUnderWay, GoesBySteps, IsAsked, sizes_progress_of};

use sftp_client::{AttrsCall, Error, Link, Poll, RemotePath, Sftp};
use std::alloc::Global;
use std::collections::VecDeque;

/// The most calls that are in flight at once.
const MAX_UNDER_WAY: usize = 64;

/// Returns the sizes of files in bytes, if the server reports them, in the order of their paths. The greatest permitted
/// number of paths is asked for before the first answer, so all of them take little more than the time of one.
///
/// # Errors
///
/// The error of the session or the server. No call remains in flight then.
pub fn sizes<L: Link>(
    alloc: Global,
    sftp: &mut Sftp<L>,
    paths: &[RemotePath],
) -> Result<Vec<Option<u64>>, Error>
    requires { IsUsable L.LinkState.state sftp.old }
    ensures { IfOk result (λ sizes. AreSizes paths.now L.LinkState.state sftp.old sftp.new sizes.items) }
{
    let Ok(mut calls) = VecDeque::with_capacity(alloc, MAX_UNDER_WAY) else {
        return Err(Error::OutOfMemory);
    };
    match answers(alloc, sftp, paths, &mut calls) {
        Ok(sizes) => {
            calls.destroy_empty();
            Ok(sizes)
        }
        Err(e) => {
            give_up(sftp, calls);
            Err(e)
        }
    }
}

/// Asks for the sizes of files, and returns the answers. The calls are those in flight, oldest first.
fn answers<L: Link>(
    alloc: Global,
    sftp: &mut Sftp<L>,
    paths: &[RemotePath],
    calls: &mut VecDeque<AttrsCall>,
) -> Result<Vec<Option<u64>>, Error>
    requires usable { IsUsable L.LinkState.state sftp.old }
    requires none { calls.old.items ≡ [] }
    requires room { 64 ≤ deque_capacity calls.old }
    ensures sizes { IfOk result (λ sizes. AreSizes paths.now L.LinkState.state sftp.old sftp.new sizes.items) }
    ensures none { OnOk result (deque_len calls.new ≡ 0) }
    ensures awaited { AreCallsAwaited sftp.new.core calls.new.items }
{
    let mut sizes = Vec::new(alloc);
    let mut asked = 0;
    for _ in 0..u64::MAX {
        if asked < paths.len() && calls.len() < MAX_UNDER_WAY {
            let call = ask(alloc, sftp, &paths[asked])?;
            calls.push_back_reserved(call);
            asked += 1;
        } else if let Some(call) = calls.pop_front() {
            hear(sftp, call, calls, &mut sizes)?;
        } else {
            return Ok(sizes);
        }
    }
    Err(Error::OutOfMemory)
}

/// Asks for the attributes of a file.
fn ask<L: Link>(alloc: Global, sftp: &mut Sftp<L>, path: &RemotePath) -> Result<AttrsCall, Error>
    requires { IsUsable L.LinkState.state sftp.old }
    ensures asked { IfOk result (IsAsked path.now sftp.old sftp.new) }
    ensures usable { IsUsable L.LinkState.state sftp.new }
    ensures kept { KeepsHeld sftp.old.core sftp.new.core }
{
    sftp.ready()?;
    sftp.fs()
        .start_metadata(alloc, sftp.core(), path.as_bytes())
}

/// Polls the oldest call. If its reply has come, its size is appended. Otherwise the call goes back before the others,
/// the queued frames are sent, and a frame is taken.
fn hear<L: Link>(
    sftp: &mut Sftp<L>,
    call: AttrsCall,
    calls: &mut VecDeque<AttrsCall>,
    sizes: &mut Vec<Option<u64>>,
) -> Result<(), Error>
    requires under_way { AreCallsUnderWay L.LinkState.state sftp.old (call ∷ calls.old.items) }
    requires room { deque_len calls.old < deque_capacity calls.old }
    ensures went { OnOk result ((paths : List (List ℕ)) → GoesBySteps L.LinkState.state
        (sizes_progress_of sftp.old paths (call ∷ calls.old.items) sizes.old.items)
        (sizes_progress_of sftp.new paths calls.new.items sizes.new.items)) }
    ensures awaited { AreCallsAwaited sftp.new.core calls.new.items }
    ensures usable { OnOk result (IsUsable L.LinkState.state sftp.new) }
    ensures room { deque_capacity calls.new ≡ deque_capacity calls.old }
{
    let mut call = call;
    match call.poll(sftp.core()) {
        Poll::Ready(answer) => {
            call.cancel(sftp.core());
            push(sizes, answer?.len())
        }
        Poll::Pending => {
            calls.push_front_reserved(call);
            sftp.flush()?;
            sftp.take()?;
            Ok(())
        }
    }
}

/// Appends a size.
fn push(sizes: &mut Vec<Option<u64>>, size: Option<u64>) -> Result<(), Error>
    ensures { OnOk result (sizes.new.items ≡ sizes.old.items ++ size ∷ []) }
{
    match sizes.push(size) {
        Ok(()) => Ok(()),
        Err(_) => Err(Error::OutOfMemory),
    }
}

/// Cancels calls, the oldest first.
fn give_up<L: Link>(sftp: &mut Sftp<L>, calls: VecDeque<AttrsCall>)
    requires { AreCallsAwaited sftp.old.core calls.items }
{
    let mut calls = calls;
    while let Some(call) = calls.pop_front() {
        call.cancel(sftp.core());
    }
    calls.destroy_empty();
}
