//! Requests of a lane to its core.
ghost use Rattle.std.specs.Prelude.{◌≡◌, ◌<◌, None, true, false, IfOk, OnErr, vec_len, vec_capacity, ◌^◌};
ghost use Rattle.std.specs.FinMap as fin;
ghost use Rattle.sftp_core.specs.Core.{record_at, is_call, queued_last};
ghost use Rattle.sftp_core.specs.Info.{MAX_IDS};
ghost use Rattle.session_laws.specs.Places.{is_in};
ghost use Rattle.session_laws.specs.Lanes.{grant_places};
ghost use Rattle.session_work.specs.Tokens.{AreGrants, IsFilledBy, NamesHeld};
ghost use Rattle.plan_runner.specs.Asking.{IsNoClose, IsOfCall};
ghost use Rattle.session_work.specs.Rests.{IsSmall};
ghost use Rattle.session_work.specs.Premises.{CanSubmit};
ghost use Rattle.session_work.specs.Turning.{AsksOrCloses, IsOpen, MayAsk, ReleasesGrant, SettlesMove, SettlesMeanwhile};
ghost use Rattle.session_model.specs.Grants.{is_close};

use crate::lane::Moved;
use crate::tokens::{Awaited, Granted, Tokens, grant_at};
use plan_runner::{Asked, Next, Running};
use sftp_core::{Core, Ticket};
use sftp_model::Request;
use ssh_encoding::OutOfMemory;

/// Submits a request of a call, if there is an id for it. Fails only if an allocation fails; the core is unchanged
/// then.
fn submit(core: &mut Core, request: &Request) -> Result<Ticket, OutOfMemory>
    requires ready { IsOpen core.old }
    requires few { fin.len core.old.table < MAX_IDS }
    requires call { is_call request.now ≡ true }
    ensures ok { IfOk result (λ ticket. (record_at core.old ticket ≡ None) × (core.new ≡ queued_last core.old ticket request.now true)) }
    ensures unchanged { OnErr result (core.new ≡ core.old) }
{
    match core.submit(request) {
        Ok(ticket) => Ok(ticket),
        Err(_) => Err(OutOfMemory),
    }
}

/// Returns a request that is no CLOSE, with the handles of its grants.
fn filled(asked: Asked, tokens: &Tokens) -> Request
    requires named { NamesHeld tokens.now.grants.items asked }
    requires call { IsOfCall asked }
    requires other { IsNoClose asked }
    ensures filled { IsFilledBy tokens.now.grants.items asked result }
    ensures call { is_call result ≡ true }
    ensures plain { is_close result ≡ false }
{
    match asked {
        Asked::Plain(request) => request,
        Asked::Close { .. } => unreachable!(),
        Asked::Read { grant, offset, len } => Request::Read {
            handle: tokens.handle_of(grant),
            offset,
            len,
        },
        Asked::Write {
            grant,
            offset,
            content,
        } => Request::Write {
            handle: tokens.handle_of(grant),
            offset,
            content,
        },
        Asked::Fstat { grant } => Request::Fstat {
            handle: tokens.handle_of(grant),
        },
        Asked::Fsetstat { grant, attrs } => Request::Fsetstat {
            handle: tokens.handle_of(grant),
            attrs,
        },
        Asked::Readdir { grant } => Request::Readdir {
            handle: tokens.handle_of(grant),
        },
        Asked::Fsync { grant } => Request::Fsync {
            handle: tokens.handle_of(grant),
        },
        Asked::CopyData {
            from,
            from_offset,
            len,
            to,
            to_offset,
        } => Request::CopyData {
            from: tokens.handle_of(from),
            from_offset,
            len,
            to: tokens.handle_of(to),
            to_offset,
        },
    }
}

/// Asks for the CLOSE of a grant by giving it back.
fn close(core: &mut Core, grant: u64, place: u64, tokens: &mut Tokens) -> (u32, Request)
    requires room { vec_len tokens.old.tickets < vec_capacity tokens.old.tickets }
    requires held { AreGrants core.old tokens.old.grants.items }
    requires named { is_in grant (grant_places tokens.old.grants.items) ≡ true }
    ensures { ReleasesGrant core.old core.new tokens.old.tickets.items tokens.new.tickets.items tokens.old.grants.items tokens.new.grants.items place grant result.0 result.1 }
{
    let Some(k) = grant_at(&tokens.grants, grant) else {
        unreachable!()
    };
    let Granted { place: _, grant } = tokens.grants.remove(k);
    let handle = grant.handle().copied();
    let Some(ticket) = core.release(grant) else {
        unreachable!()
    };
    let id = ticket.id();
    tokens.tickets.push(Awaited { place, ticket }).unwrap();
    (id, Request::Close { handle })
}

/// Submits the request that a call asks, if there is an id for it. Fails only if an allocation fails.
fn ask(
    core: &mut Core,
    asked: Asked,
    place: u64,
    tokens: &mut Tokens,
) -> Result<(u32, Request), OutOfMemory>
    requires submit { CanSubmit core.old tokens.old }
    requires named { NamesHeld tokens.old.grants.items asked }
    requires call { IsOfCall asked }
    ensures unchanged { OnErr result (core.new ≡ core.old) }
    ensures small { IfOk result (λ p. p.0 < 2 ^ 32) }
    ensures asked { IfOk result (λ p. AsksOrCloses core.old core.new tokens.old.tickets.items tokens.new.tickets.items tokens.old.grants.items tokens.new.grants.items place asked p.0 p.1) }
{
    if let Asked::Close { grant } = asked {
        return Ok(close(core, grant, place, tokens));
    }
    let request = filled(asked, tokens);
    let ticket = submit(core, &request)?;
    let id = ticket.id();
    tokens.tickets.push(Awaited { place, ticket }).unwrap();
    Ok((id, request))
}

/// Carries out the answer of a call's runner. Fails only if an allocation fails.
pub(crate) fn settle(
    core: &mut Core,
    next: Next,
    place: u64,
    running: &mut Option<Running>,
    tokens: &mut Tokens,
) -> Result<Moved, OutOfMemory>
    requires submit { CanSubmit core.old tokens.old }
    requires may { MayAsk tokens.old.grants.items next }
    ensures unchanged { OnErr result (core.new ≡ core.old) }
    ensures small { IfOk result IsSmall }
    ensures settled { IfOk result (λ m. SettlesMove core.old core.new tokens.old.tickets.items tokens.new.tickets.items tokens.old.grants.items tokens.new.grants.items running.new place next m) }
{
    match next {
        Next::Ask(asked, then) => {
            let (id, request) = ask(core, asked, place, tokens)?;
            *running = Some(then);
            Ok(Moved::Asked { id, request })
        }
        Next::Wait(then) => {
            *running = Some(then);
            Ok(Moved::Went)
        }
        Next::Done(outcome) => {
            *running = None;
            Ok(Moved::Ended { outcome })
        }
    }
}

/// Carries out the answer that a call's runner gave while the awaited reply is missing. Fails only if an allocation
/// fails.
pub(crate) fn settle_meanwhile(
    core: &mut Core,
    next: Next,
    place: u64,
    running: &mut Option<Running>,
    tokens: &mut Tokens,
) -> Result<Moved, OutOfMemory>
    requires submit { CanSubmit core.old tokens.old }
    requires may { MayAsk tokens.old.grants.items next }
    ensures unchanged { OnErr result (core.new ≡ core.old) }
    ensures small { IfOk result IsSmall }
    ensures settled { IfOk result (λ m. SettlesMeanwhile core.old core.new tokens.old.tickets.items tokens.new.tickets.items tokens.old.grants.items tokens.new.grants.items running.new place next m) }
{
    match next {
        Next::Wait(then) => {
            *running = Some(then);
            Ok(Moved::Waits)
        }
        Next::Ask(asked, then) => settle(core, Next::Ask(asked, then), place, running, tokens),
        Next::Done(outcome) => settle(core, Next::Done(outcome), place, running, tokens),
    }
}
