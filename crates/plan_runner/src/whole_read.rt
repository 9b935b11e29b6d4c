//! `fs_read`: a whole file by several READs in flight. No slot holds the file that it opens.
ghost use Rattle.std.specs.Prelude.{[], ◌≡◌, ◌||◌, ℕ, List, Some, None, true, IfOk};
ghost use Rattle.sftp_model.specs.declared.slot.Site.{Site as SiteValue};
ghost use Rattle.plan_model.specs.declared.call.Call.TheVariants as call;
ghost use Rattle.plan_model.specs.WindowPlans.{brings_content, to_read};
ghost use Rattle.sftp_model.specs.Answers.{is_end_of_file};
ghost use Rattle.plan_runner.specs.Ran.{DecidesNext, ActsWhileWaiting, ReadsWhole};
ghost use Rattle.plan_runner.specs.declared.next.Running.TheVariants as running;
ghost use Rattle.plan_runner.specs.Begun.{StartsAsPlanned};
ghost use Rattle.plan_runner.specs.Runners.{after, answered_by, idle};
ghost use Rattle.plan_runner.specs.Sound.{AsksWithin, IsRunningSound};
ghost use Rattle.plan_runner.specs.Asking.{opened_after};
ghost use Rattle.plan_window.specs.Windows.{AsksInRange, FitsFirst, IsSound as IsSoundWindow};

use crate::next::{Asked, Next, Running};
use crate::open_call::open_request;
use crate::replies::{refusal, refused, status_refusal};
use crate::single::is_too_long;
use crate::turn::Turn;
use bitflags::Flags;
use plan_window::{ReadAt, Window, WindowMove};
use sftp_model::numbers::{SSH_FX_EOF, SSH_FXF_READ};
use sftp_model::{Error, Facts, IoKind, OpenFlags, Outcome, Reply, Site};
use ssh_encoding::OutOfMemory;
use std::alloc::Global;

/// Returns the flags of a file that is only read.
fn to_read() -> OpenFlags
    ensures { result ≡ to_read }
{
    OpenFlags::from_bits_retain(SSH_FXF_READ)
}

/// Reads the file at a path, all of it, by at most `bound` READs that a DATA answers.
///
/// # Errors
///
/// `OutOfMemory` if an allocation fails.
pub fn begin_fs_read(
    alloc: Global,
    path: &[u8],
    bound: u32,
    place: u64,
    site: &Site,
    facts: &Facts,
) -> Result<Next, OutOfMemory>
    ensures { IfOk result (StartsAsPlanned (call.FsRead path.now bound) place site.now site.now facts.now) }
{
    let path = site.directory.join(alloc, path)?;
    let request = open_request(path, to_read());
    if is_too_long(&request) {
        return Ok(Next::Done(refused(IoKind::PathTooLong)));
    }
    Ok(Next::Ask(
        Asked::Plain(request),
        Running::OpeningToRead { place, bound },
    ))
}

/// Decides the next step of a whole read if the reply to its first READ in flight has not come: it asks for more, waits
/// or ends. The site may be any. Fails only if an allocation fails.
fn decide(turn: Turn, grant: u64, bound: u32, window: Window) -> Result<Next, OutOfMemory>
    requires sound { IsSoundWindow window }
    requires range { AsksInRange bound window turn.facts }
    ensures { (bytes : List ℕ) (site : SiteValue) → DecidesNext (running.ReadingWhole grant bound window)
        (Some grant) window.waiting bytes turn.place site turn.facts result }
{
    let mut window = window;
    match window.next_move(turn.alloc, bound, &turn.facts)? {
        WindowMove::Ask { offset, len } => {
            let read = ReadAt {
                place: turn.place,
                offset,
                len,
            };
            window.asked(read)?;
            Ok(Next::Ask(
                Asked::Read { grant, offset, len },
                Running::ReadingWhole {
                    grant,
                    bound,
                    window,
                },
            ))
        }
        WindowMove::Wait { .. } => Ok(Next::Wait(Running::ReadingWhole {
            grant,
            bound,
            window,
        })),
        WindowMove::Whole(bytes) => Ok(Next::Done(Outcome::Bytes(bytes))),
        WindowMove::GivenUp => Ok(Next::Done(Outcome::GivenUp)),
    }
}

/// Continues a whole read by its window: it awaits the reply to the first READ in flight, and decides if there is none.
/// Fails only if an allocation fails.
pub(crate) fn read_on(
    turn: Turn,
    grant: u64,
    bound: u32,
    window: Window,
    site: &Site,
) -> Result<Next, OutOfMemory>
    requires sound { IsSoundWindow window }
    requires range { AsksWithin turn.facts
        (after (running.ReadingWhole grant bound window) [] site.now turn.facts None) }
    ensures { (bytes : List ℕ) → ReadsWhole (running.ReadingWhole grant bound window) None (Some grant)
        window.waiting window.waiting bytes turn.place site.now turn.facts result }
{
    match window.first() {
        Some(_) => Ok(Next::Wait(Running::ReadingWhole {
            grant,
            bound,
            window,
        })),
        None => decide(turn, grant, bound, window),
    }
}

/// Processes the reply to the OPEN of a whole read: after a HANDLE the file is read. Fails only if an allocation fails.
pub(crate) fn read_opened(
    turn: Turn,
    grant: u64,
    bound: u32,
    reply: Reply,
    site: &Site,
) -> Result<Next, OutOfMemory>
    requires range { AsksWithin turn.facts
        (after (running.OpeningToRead grant bound) [] site.now turn.facts (Some reply)) }
    ensures { (bytes : List ℕ) → ReadsWhole (running.OpeningToRead grant bound) (Some reply)
        (opened_after (running.OpeningToRead grant bound) (Some reply)) [] []
        bytes turn.place site.now turn.facts result }
{
    match reply {
        Reply::Handle(_handle) => read_on(turn, grant, bound, Window::new(turn.alloc), site),
        Reply::Status {
            code,
            message,
            language,
        } => Ok(Next::Done(status_refusal(code, message, language))),
        _ => Ok(Next::Done(Outcome::Refused(Error::InvalidResponse { id: None }))),
    }
}

/// Returns true if a reply is a DATA or the end of the file.
fn is_absorbed(reply: &Reply) -> bool
    ensures { result ≡ (brings_content reply.now || is_end_of_file reply.now) }
{
    match reply {
        Reply::Content(_) => true,
        Reply::Status { code, .. } => *code == SSH_FX_EOF,
        _ => false,
    }
}

/// Processes the reply to the first READ in flight: a refusal ends the call. Fails only if an allocation fails.
pub(crate) fn window_replied(
    turn: Turn,
    grant: u64,
    bound: u32,
    window: Window,
    reply: Reply,
    site: &Site,
) -> Result<Next, OutOfMemory>
    requires sound { IsSoundWindow window }
    requires fits { FitsFirst window reply }
    requires range { AsksWithin turn.facts
        (after (running.ReadingWhole grant bound window) [] site.now turn.facts (Some reply)) }
    ensures { (bytes : List ℕ) → ReadsWhole (running.ReadingWhole grant bound window) (Some reply) (Some grant)
        window.waiting (answered_by window (Some reply)).waiting bytes turn.place site.now turn.facts result }
{
    let mut window = window;
    let Some(_) = window.first() else {
        return read_on(turn, grant, bound, window, site);
    };
    if !is_absorbed(&reply) {
        return Ok(Next::Done(refusal(reply)));
    }
    window.replied(reply);
    read_on(turn, grant, bound, window, site)
}

/// Returns the next step of a call while the reply that it awaits is missing: a whole read may ask for more, and any
/// other call waits.
///
/// # Errors
///
/// `OutOfMemory` if an allocation fails.
pub fn widen(
    alloc: Global,
    running: Running,
    bytes: &[u8],
    place: u64,
    site: &Site,
    facts: &Facts,
) -> Result<Next, OutOfMemory>
    requires sound { IsRunningSound running bytes.now site.now facts.now }
    requires range { AsksWithin facts.now (idle running bytes.now site.now facts.now) }
    ensures { ActsWhileWaiting running bytes.now place site.now facts.now result }
{
    match running {
        Running::ReadingWhole {
            grant,
            bound,
            window,
        } => {
            let turn = Turn {
                alloc,
                place,
                facts: *facts,
            };
            decide(turn, grant, bound, window)
        }
        other => Ok(Next::Wait(other)),
    }
}
