//! The bound on open handles, and their count.
ghost use Rattle.std.specs.Prelude.{◌≡◌, ◌≤◌};
ghost use Rattle.sftp_model.specs.Answers.{is_handle as is_handle_by};
ghost use Rattle.sftp_serve.specs.HandleCounts.{closes_handle as closes_handle_by, counted_after, is_ok as is_ok_by};
ghost use Rattle.sftp_serve.specs.Stream.{MAX_OPEN_HANDLES, choice_for as choice_by, opens_handle as opens_handle_by};

use sftp_model::numbers::{MAX_TRANSFER_LEN, SSH_FX_FAILURE, SSH_FX_OK};
use sftp_model::{Choice, Reply, Request};

/// The most handles that are open at once.
const MAX_OPEN_HANDLES: u64 = 4096;

/// Returns true if a request is an OPEN or an OPENDIR.
fn opens_handle(request: &Request) -> bool
    ensures { result ≡ opens_handle_by request.now }
{
    match request {
        Request::OpenFile { .. } | Request::Opendir { .. } => true,
        _ => false,
    }
}

/// Returns true if a request is a CLOSE.
fn closes_handle(request: &Request) -> bool
    ensures { result ≡ closes_handle_by request.now }
{
    match request {
        Request::Close { .. } => true,
        _ => false,
    }
}

/// Returns true if a reply is a HANDLE.
fn is_handle(reply: &Reply) -> bool
    ensures { result ≡ is_handle_by reply.now }
{
    match reply {
        Reply::Handle(_) => true,
        _ => false,
    }
}

/// Returns true if a reply is a STATUS of OK.
fn is_ok(reply: &Reply) -> bool
    ensures { result ≡ is_ok_by reply.now }
{
    match reply {
        Reply::Status { code, .. } => *code == SSH_FX_OK,
        _ => false,
    }
}

/// Returns the choice for a request while `count` handles are open. An OPEN or an OPENDIR is refused while 4096 or more
/// are, and a DATA is cut to the length that a frame can carry.
pub(crate) fn choice_for(count: u64, request: &Request) -> Choice
    ensures { result ≡ choice_by count request.now }
{
    let refuse = if opens_handle(request) && count >= MAX_OPEN_HANDLES {
        SSH_FX_FAILURE
    } else {
        SSH_FX_OK
    };
    Choice {
        refuse,
        cap: MAX_TRANSFER_LEN,
    }
}

/// Returns the number of open handles after a request was answered. Before it `count` were open.
pub(crate) fn count_after(count: u64, request: &Request, reply: &Reply) -> u64
    requires { count ≤ MAX_OPEN_HANDLES }
    ensures { result ≡ counted_after request.now reply.now count }
{
    if is_handle(reply) {
        count + 1
    } else if closes_handle(request) && is_ok(reply) {
        count.saturating_sub(1)
    } else {
        count
    }
}
