//! `read_all`: the bytes missing after those received, repeatedly.
ghost use Rattle.std.specs.Prelude.{◌≡◌, ◌<◌, [], ◌++◌, length, List, ℕ, Option, Some, None, IfOk};
ghost use Rattle.sftp_model.specs.declared.reply.Reply.TheVariants as reply;
ghost use Rattle.sftp_model.specs.declared.slot.Site.{Site as SiteValue};
ghost use Rattle.plan_model.specs.declared.call.Call.TheVariants as call;
ghost use Rattle.plan_model.specs.TransferPlans.{missing_next};
ghost use Rattle.plan_runner.specs.Ran.{ContinuesTransfer};
ghost use Rattle.plan_runner.specs.declared.next.Running.TheVariants as running;
ghost use Rattle.plan_runner.specs.Begun.{StartsAsPlanned};
ghost use Rattle.plan_runner.specs.Runners.{RunsByPlan, after, content_after};
ghost use Rattle.plan_runner.specs.Cancelling.{AsksOffset, LeavesCancelled, left_kept};
ghost use Rattle.plan_runner.specs.Sound.{CanMove, HasRoom, IsKept, KeepsRunningSound};
ghost use Rattle.plan_runner.specs.Pending.{PendsAfter, pends_after, pends_idle};
ghost use Rattle.plan_runner.specs.Asking.{AsksOn, HasGrant};

use crate::next::{Asked, Next, Running};
use crate::replies::{refused, status_refusal};
use crate::site::{set_slot, slot_of};
use crate::turn::Turn;
use bytes::Bytes;
use sftp_model::numbers::SSH_FX_EOF;
use sftp_model::{Error, Facts, FileAt, IoKind, Outcome, Reply, Site, Slot};
use sftp_values::ByteText;
use ssh_encoding::OutOfMemory;
use std::alloc::Global;

/// A READ of a `read_all` in flight: the file in its slot, and the number of bytes that are left. Contracts alone read
/// its place and the number of bytes that it asks for.
///
/// Used in `content_replied`.
#[derive(Clone, Copy)]
pub(crate) struct Missing {
    pub(crate) awaited: u64,
    pub(crate) slot: u8,
    pub(crate) file: FileAt,
    pub(crate) left: u64,
    pub(crate) len: u32,
}

/// Reads `left` bytes of the file in a slot after those received; the site may be any.
pub fn read_rest(
    slot: u8,
    file: FileAt,
    got: ByteText,
    left: u64,
    place: u64,
    facts: &Facts,
) -> Next
    ensures goes { (site : SiteValue) (bytes : List ℕ)
        → RunsByPlan (missing_next slot file got left site facts.now) place bytes site facts.now result }
    ensures left { (site : SiteValue) (bytes : List ℕ) → IsKept (Some slot) file site
        → LeavesCancelled (left_kept (Some slot) site facts.now) place bytes site facts.now result }
    ensures sound { (site : SiteValue) (bytes : List ℕ) → IsKept (Some slot) file site
        → KeepsRunningSound bytes facts.now site site result }
    ensures pends { (site : SiteValue) → PendsAfter (pends_idle site) place site result }
    ensures asks { AsksOffset result }
    ensures grants { (site : SiteValue) (opened : Option ℕ) → HasGrant site opened file.grant
        → AsksOn opened place site result }
{
    if left == 0 {
        return Next::Done(Outcome::Bytes(got));
    }
    let len = left.min(facts.read_len as u64) as u32;
    if !file.readable {
        return Next::Done(refused(IoKind::NotReadable));
    }
    if file.offset.checked_add(len as u64).is_none() {
        return Next::Done(refused(IoKind::OffsetOverflow));
    }
    let asked = Asked::Read {
        grant: file.grant,
        offset: file.offset,
        len,
    };
    Next::Ask(
        asked,
        Running::Gathering {
            place,
            slot,
            file,
            got,
            left,
            len,
        },
    )
}

/// Returns no bytes.
pub(crate) fn no_bytes(alloc: Global) -> ByteText
    ensures { result ≡ [] }
{
    ByteText::new(Vec::new(alloc))
}

/// Reads `n` bytes of the file in a slot, and no fewer.
pub fn begin_read_all(
    alloc: Global,
    slot: u8,
    n: u64,
    place: u64,
    site: &Site,
    facts: &Facts,
) -> Next
    requires { slot < length site.now.slots }
    ensures { StartsAsPlanned (call.ReadAll slot n) place site.now site.now facts.now result }
{
    let Slot::File(file) = slot_of(site, slot) else {
        return Next::Done(Outcome::NoFile);
    };
    read_rest(slot, *file, no_bytes(alloc), n, place, facts)
}

/// Returns the bytes of both, in this order. Fails only if an allocation fails.
pub(crate) fn joined(alloc: Global, got: ByteText, more: &[u8]) -> Result<ByteText, OutOfMemory>
    ensures { IfOk result (λ bytes. bytes ≡ got ++ more.now) }
{
    let mut bytes = got.into_vec(alloc)?;
    bytes.extend_from_slice(more)?;
    Ok(ByteText::new(bytes))
}

/// Processes a DATA: the file's offset is moved past its bytes, and the rest is read. Fails only if an allocation
/// fails; `site` is unchanged.
fn content_came(
    turn: Turn,
    read: Missing,
    got: ByteText,
    content: Bytes,
    site: &mut Site,
) -> Result<Next, OutOfMemory>
    requires kept { IsKept (Some read.slot) read.file site.old }
    requires room { CanMove read.file (length content) }
    ensures { (bytes : List ℕ) → ContinuesTransfer
        (content_after read.slot read.file got read.left content site.old turn.facts) (Some read.slot) None
        (pends_after (running.Gathering read.awaited read.slot read.file got read.left read.len) site.old
        (Some (reply.Content content))) bytes turn.place site.old site.new turn.facts result }
{
    let count = content.len() as u64;
    let all = joined(turn.alloc, got, content.as_slice())?;
    let moved = FileAt {
        offset: read.file.offset + count,
        ..read.file
    };
    let rest = read.left.saturating_sub(count);
    let next = read_rest(read.slot, moved, all, rest, turn.place, &turn.facts);
    set_slot(site, read.slot, Slot::File(moved));
    Ok(next)
}

/// Processes the reply to a READ: after a DATA the rest is read. Fails only if an allocation fails; `site` is
/// unchanged.
pub(crate) fn content_replied(
    turn: Turn,
    read: Missing,
    got: ByteText,
    reply: Reply,
    site: &mut Site,
) -> Result<Next, OutOfMemory>
    requires kept { IsKept (Some read.slot) read.file site.old }
    requires room { HasRoom read.file reply }
    ensures { (bytes : List ℕ) → ContinuesTransfer
        (after (running.Gathering read.awaited read.slot read.file got read.left read.len) bytes site.old turn.facts
        (Some reply)) (Some read.slot) None
        (pends_after (running.Gathering read.awaited read.slot read.file got read.left read.len) site.old (Some reply))
        bytes turn.place site.old site.new turn.facts result }
{
    match reply {
        Reply::Content(content) => content_came(turn, read, got, content, site),
        Reply::Status {
            code,
            message,
            language,
        } => {
            if code == SSH_FX_EOF {
                return Ok(Next::Done(refused(IoKind::UnexpectedEof)));
            }
            Ok(Next::Done(status_refusal(code, message, language)))
        }
        _ => Ok(Next::Done(Outcome::Refused(Error::InvalidResponse { id: None }))),
    }
}
