//! Calls of lanes, each by its runner: nothing else here has a case for a call.
ghost use Rattle.std.specs.Prelude.{◌≡◌, length, true, Some, None, IfOk, OnErr};
ghost use Rattle.plan_model.specs.TransferPlans.{joined_parts};
ghost use Rattle.plan_runner.specs.Runners.{bytes_of};
ghost use Rattle.plan_model.specs.Lanes.{is_within};
ghost use Rattle.plan_runner.specs.Runners.{after, idle};
ghost use Rattle.plan_runner.specs.Pending.{reads_under};
ghost use Rattle.plan_runner.specs.Sound.{AreWithin, AsksWithin, IsFittingReply};
ghost use Rattle.plan_runner.specs.Asking.{BeginsAsking, GoesOnAsking, GoesOnBy, OwnOn, ReadsOn, WidensAsking, is_window, opened_after};
ghost use Rattle.session_laws.specs.Budgets.{makes_many};
ghost use Rattle.session_work.specs.Premises.{MayBegin, MayResume};
ghost use Rattle.session_work.specs.Turning.{BeginsLaneCall, IsSafe, WentOn, AnswersUnreplied, joined_of};

use plan_runner::{
    Next, Running, Turn, begin_buf_flush, begin_buf_read, begin_buf_seek, begin_buf_write,
    begin_buf_write_all, begin_buffer, begin_canonicalize, begin_clone, begin_close, begin_copy,
    begin_cwd, begin_fs_read, begin_fs_write, begin_hard_link, begin_list, begin_lstat, begin_meta,
    begin_mkdir, begin_open, begin_read, begin_read_all, begin_read_link, begin_remove,
    begin_rename, begin_rmdir, begin_seek, begin_set_len, begin_set_perm, begin_set_stat,
    begin_stat, begin_symlink, begin_sync, begin_unbuffer, begin_write, begin_write_all,
    begin_write_parts, go_on, widen,
};
use session_model::Call;
use sftp_model::{Facts, Reply, Site};
use sftp_values::ByteText;
use ssh_encoding::OutOfMemory;
use std::alloc::Global;

/// Returns the bytes of parts, one part after another.
fn joined(alloc: Global, parts: &[ByteText]) -> Result<Vec<u8>, OutOfMemory>
    ensures { IfOk result (λ bytes. bytes.items ≡ joined_parts parts.now) }
{
    let mut bytes = Vec::new(alloc);
    for part in parts {
        bytes.extend_from_slice(part.as_slice())?;
    }
    Ok(bytes)
}

/// Returns the bytes of a call's parts; a call that has none has no such bytes.
fn joined_of(alloc: Global, call: &Call) -> Result<Vec<u8>, OutOfMemory>
    ensures { IfOk result (λ bytes. bytes.items ≡ joined_of call.now) }
{
    match call {
        Call::WriteParts { parts, .. } => joined(alloc, parts.as_slice()),
        _ => Ok(Vec::new(alloc)),
    }
}

/// Returns the bytes that a call carries; those of its parts are passed in.
fn bytes_of<'a>(call: &'a Call, joined: &'a [u8]) -> &'a [u8]
    requires { joined.now ≡ joined_of call.now }
    ensures { result.now ≡ bytes_of (call.now) }
{
    match call {
        Call::Write { bytes, .. } => bytes.as_slice(),
        Call::WriteAll { bytes, .. } => bytes.as_slice(),
        Call::BufWrite { bytes, .. } => bytes.as_slice(),
        Call::BufWriteAll { bytes, .. } => bytes.as_slice(),
        Call::FsWrite { bytes, .. } => bytes.as_slice(),
        _ => joined,
    }
}

/// Returns a mode of sixteen bits as one of thirty-two, if there is one.
fn mode_of(perm: Option<u16>) -> Option<u32>
    ensures { result ≡ perm }
{
    match perm {
        Some(perm) => Some(perm as u32),
        None => None,
    }
}

/// Starts a call of a lane that has this site; its first request would have the place. Fails only if an allocation
/// fails; the site is unchanged then.
#[tactic(auto, using(crate::proofs::Begun::asks_if, crate::proofs::Begun::own_if, plan_runner::proofs::OwnAsking::own_begins))]
pub(crate) fn begin(
    alloc: Global,
    call: &Call,
    place: u64,
    site: &mut Site,
    facts: &Facts,
) -> Result<Next, OutOfMemory>
    requires { MayBegin call.now facts.now site.old }
    ensures began { IfOk result (BeginsLaneCall call.now facts.now place site.old site.new) }
    ensures asks { IfOk result (BeginsAsking None place site.old site.new) }
    ensures own { makes_many (call.now) ≡ true → IfOk result (OwnOn place) }
    ensures unchanged { OnErr result (site.new ≡ site.old) }
{
    match call {
        Call::OpenFile { slot, flags, path } => begin_open(
            Turn {
                alloc,
                place,
                facts: *facts,
            },
            *slot,
            *flags,
            path.as_slice(),
            site,
        ),
        Call::Read { slot, n } => Ok(begin_read(*slot, *n, place, site, facts)),
        Call::ReadAll { slot, n } => Ok(begin_read_all(
            alloc, *slot, *n as u64, place, site, facts,
        )),
        Call::Write { slot, bytes } => begin_write(
            alloc,
            *slot,
            bytes.as_slice(),
            place,
            site,
            facts,
        ),
        Call::WriteAll { slot, bytes } => begin_write_all(
            alloc,
            *slot,
            bytes.as_slice(),
            place,
            site,
            facts,
        ),
        Call::WriteParts { slot, parts } => begin_write_parts(
            alloc,
            *slot,
            joined(alloc, parts.as_slice())?.as_slice(),
            place,
            site,
            facts,
        ),
        Call::Seek { slot, position } => Ok(Next::Done(begin_seek(*slot, *position, site))),
        Call::SetLen { slot, n } => Ok(begin_set_len(*slot, *n, place, site, facts)),
        Call::SetPerm { slot, perm } => Ok(begin_set_perm(*slot, *perm as u32, place, site, facts)),
        Call::Meta { slot } => Ok(begin_meta(*slot, place, site, facts)),
        Call::Sync { slot } => Ok(begin_sync(*slot, place, site, facts)),
        Call::Copy { from, to, n } => Ok(begin_copy(*from, *to, *n, place, site, facts)),
        Call::CloneFile { from, to } => Ok(Next::Done(begin_clone(*from, *to, site))),
        Call::Close { slot } => Ok(begin_close(*slot, place, site, facts)),
        Call::Buffer { slot, len } => Ok(Next::Done(begin_buffer(alloc, *slot, *len, site))),
        Call::Unbuffer { slot } => Ok(Next::Done(begin_unbuffer(*slot, site))),
        Call::BufRead { slot, n } => begin_buf_read(alloc, *slot, *n, place, site, facts),
        Call::BufWrite { slot, bytes } => begin_buf_write(
            alloc,
            *slot,
            bytes.as_slice(),
            place,
            site,
            facts,
        ),
        Call::BufWriteAll { slot, bytes } => begin_buf_write_all(
            alloc,
            *slot,
            bytes.as_slice(),
            place,
            site,
            facts,
        ),
        Call::BufFlush { slot } => Ok(begin_buf_flush(*slot, place, site, facts)),
        Call::BufSeek { slot, position } => {
            Ok(Next::Done(begin_buf_seek(alloc, *slot, *position, site)?))
        }
        Call::FsRead { path, bound } => begin_fs_read(
            alloc,
            path.as_slice(),
            *bound,
            place,
            site,
            facts,
        ),
        Call::FsWrite { path, bytes } => begin_fs_write(
            alloc,
            path.as_slice(),
            bytes.as_slice(),
            place,
            site,
            facts,
        ),
        Call::List { path, bound } => begin_list(
            alloc,
            path.as_slice(),
            *bound,
            place,
            site,
            facts,
        ),
        Call::Stat { path } => begin_stat(alloc, path.as_slice(), place, site, facts),
        Call::Lstat { path } => begin_lstat(alloc, path.as_slice(), place, site, facts),
        Call::SetStat { path, size, perm } => begin_set_stat(
            Turn {
                alloc,
                place,
                facts: *facts,
            },
            path.as_slice(),
            *size,
            mode_of(*perm),
            site,
        ),
        Call::Remove { path } => begin_remove(alloc, path.as_slice(), place, site, facts),
        Call::Mkdir { path } => begin_mkdir(alloc, path.as_slice(), place, site, facts),
        Call::Rmdir { path } => begin_rmdir(alloc, path.as_slice(), place, site, facts),
        Call::Rename { old, to } => begin_rename(
            alloc,
            old.as_slice(),
            to.as_slice(),
            place,
            site,
            facts,
        ),
        Call::HardLink { old, to } => begin_hard_link(
            alloc,
            old.as_slice(),
            to.as_slice(),
            place,
            site,
            facts,
        ),
        Call::Symlink { src, dst } => begin_symlink(
            alloc,
            src.as_slice(),
            dst.as_slice(),
            place,
            site,
            facts,
        ),
        Call::ReadLink { path } => begin_read_link(alloc, path.as_slice(), place, site, facts),
        Call::Canonicalize { path } => begin_canonicalize(
            alloc,
            path.as_slice(),
            place,
            site,
            facts,
        ),
        Call::Cwd { path } => Ok(Next::Done(begin_cwd(alloc, path.as_slice(), site)?)),
    }
}

/// Continues a call after the reply that it awaited, if it awaited one. Fails only if an allocation fails; the site is
/// unchanged then.
pub(crate) fn resume(
    turn: Turn,
    call: &Call,
    running: Running,
    reply: Option<Reply>,
    site: &mut Site,
) -> Result<Next, OutOfMemory>
    requires { MayResume call.now turn.facts running reply site.old }
    ensures went { IfOk result (WentOn running reply call.now turn.facts turn.place site.old site.new) }
    ensures asks { IfOk result (GoesOnAsking (opened_after running reply) turn.place (reads_under (Some running)) site.old site.new) }
    ensures by { IfOk result (GoesOnBy running reply turn.place turn.facts) }
    ensures unchanged { OnErr result (site.new ≡ site.old) }
{
    let joined = joined_of(turn.alloc, call)?;
    go_on(
        turn,
        running,
        reply,
        bytes_of(call, joined.as_slice()),
        site,
    )
}

/// Returns the answer of a call while the reply that it awaits is missing; its request would have the place. Fails only
/// if an allocation fails.
pub(crate) fn meanwhile(
    alloc: Global,
    call: &Call,
    running: Running,
    place: u64,
    site: &Site,
    facts: &Facts,
) -> Result<Next, OutOfMemory>
    requires safe { IsSafe call.now facts.now (Some running) site.now }
    requires range { AsksWithin facts.now (idle running (bytes_of (call.now)) site.now facts.now) }
    ensures widened { IfOk result (AnswersUnreplied running call.now facts.now place site.now) }
    ensures asks { IfOk result (WidensAsking running place site.now) }
    ensures reads { is_window running ≡ true → IfOk result (ReadsOn place (reads_under (Some running)) facts.now) }
{
    let joined = joined_of(alloc, call)?;
    widen(
        alloc,
        running,
        bytes_of(call, joined.as_slice()),
        place,
        site,
        facts,
    )
}
