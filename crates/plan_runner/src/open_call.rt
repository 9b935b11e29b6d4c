//! `open`: the path as it is; the old contents of the slot are released.
ghost use Rattle.std.specs.Prelude.{[], ◌≡◌, ◌<◌, length, Some, None, IfOk};
ghost use Rattle.sftp_model.specs.declared.slot.Move.TheVariants.{Done};
ghost use Rattle.sftp_model.specs.declared.slot.Facts.{Facts as FactsValue};
ghost use Rattle.plan_model.specs.declared.call.Call.TheVariants as call;
ghost use Rattle.plan_model.specs.FilePlans.{open_request, opened_move, opened_file};
ghost use Rattle.plan_runner.specs.Begun.{StartsAsPlanned};
ghost use Rattle.plan_runner.specs.Runners.{BeginsByPlan};
ghost use Rattle.plan_runner.specs.Cancelling.{BeginsLeaving};
ghost use Rattle.plan_runner.specs.Sound.{KeepsSite, KeepsRunningSound};
ghost use Rattle.plan_runner.specs.Pending.{AwaitsNoMore, PendsAfter, pends_idle};
ghost use Rattle.plan_runner.specs.Asking.{AwaitsAsked};

use crate::next::{Asked, Next, Running};
use crate::replies::{refused, status_refusal};
use crate::single::{attributes, is_too_long};
use crate::site::set_slot;
use crate::turn::Turn;
use bitflags::Flags;
use sftp_model::numbers::{SSH_FXF_READ, SSH_FXF_WRITE};
use sftp_model::{
    Error, FileAt, IoKind, OpenFlags, OpenOptions, Outcome, RemotePath, Reply, Request, Site, Slot,
};
use ssh_encoding::OutOfMemory;

/// Returns the OPEN of a path.
pub(crate) fn open_request(path: RemotePath, flags: OpenFlags) -> Request
    ensures { result ≡ open_request flags path }
{
    Request::OpenFile {
        path,
        flags,
        attrs: attributes(None, None),
    }
}

/// Returns the file that the OPEN at a place opened: it may be read and written according to its flags, and its offset
/// is its start.
pub fn opened_file(flags: OpenFlags, grant: u64) -> FileAt
    ensures { result ≡ opened_file flags grant }
{
    FileAt {
        grant,
        readable: flags.bits() & SSH_FXF_READ != 0,
        writable: flags.bits() & SSH_FXF_WRITE != 0,
        offset: 0,
    }
}

/// Opens a file for a slot.
///
/// # Errors
///
/// `OutOfMemory` if an allocation fails.
pub fn begin_open(
    turn: Turn,
    slot: u8,
    options: OpenOptions,
    path: &[u8],
    site: &Site,
) -> Result<Next, OutOfMemory>
    requires { slot < length site.now.slots }
    ensures { IfOk result (StartsAsPlanned (call.OpenFile slot options path.now) turn.place site.now site.now turn.facts) }
{
    let flags = options.flags();
    let path = RemotePath::new(Vec::from_slice(turn.alloc, path)?);
    let request = open_request(path, flags);
    if is_too_long(&request) {
        return Ok(Next::Done(refused(IoKind::PathTooLong)));
    }
    Ok(Next::Ask(
        Asked::Plain(request),
        Running::Opening {
            place: turn.place,
            slot,
            flags,
        },
    ))
}

/// Processes the reply to an OPEN: the file of a HANDLE is then in its slot.
#[tactic(auto, using(crate::proofs::Fewer::fewer_file))]
pub(crate) fn open_replied(
    grant: u64,
    slot: u8,
    flags: OpenFlags,
    reply: Reply,
    site: &mut Site,
) -> Outcome
    requires { slot < length site.old.slots }
    ensures gives { opened_move slot flags site.old grant reply ≡ Done result site.new }
    ensures sound { (facts : FactsValue) → KeepsSite facts site.old site.new }
    ensures fewer { AwaitsNoMore site.old site.new }
{
    match reply {
        Reply::Handle(_handle) => {
            set_slot(site, slot, Slot::File(opened_file(flags, grant)));
            Outcome::Opened
        }
        Reply::Status {
            code,
            message,
            language,
        } => status_refusal(code, message, language),
        _ => Outcome::Refused(Error::InvalidResponse { id: None }),
    }
}
