//! A benchmark of the core alone: `n` requests in flight at once, answered in the order of their ids. tools/bench.py
//! measures its time. Its argument is the number of requests, 1000 by default.
#![tactic(auto)]

use sftp_core::Core;
use sftp_model::{Handle, Request, SftpOptions};
use std::alloc::Global;
use std::env;
use std::process::ExitCode;

/// The most requests.
const MAX_REQUESTS: u32 = 1_000_000;

fn take(core: &mut Core, body: &[u8]) -> bool {
    core.fault().is_none() && core.take(body).is_ok()
}

/// Takes a STATUS 0 with empty texts.
fn answer(core: &mut Core, id: u32) -> bool {
    let [a, b, c, d] = id.to_be_bytes();
    take(
        core,
        &[0x65, a, b, c, d, 0, 0, 0, 0, 0, 0, 0, 0, 0, 0, 0, 0],
    )
}

fn send(core: &mut Core) -> bool {
    match core.hand_out() {
        Ok(chunk) => {
            core.give_back(chunk);
            true
        }
        Err(_) => false,
    }
}

/// Submits the CLOSE of a handle, and abandons it: its id stays in use until its reply.
fn submit(core: &mut Core) -> bool {
    let Some(handle) = Handle::new(b"a") else {
        return false;
    };
    if core.info().is_none() || core.kept() >= MAX_REQUESTS {
        return false;
    }
    match core.submit(&Request::Close { handle }) {
        Ok(ticket) => {
            core.abandon(ticket);
            true
        }
        Err(_) => false,
    }
}

/// Returns a core that took VERSION.
fn greeted(alloc: Global) -> Option<Core> {
    let mut core = Core::new(alloc, &SftpOptions::new()).ok()?;
    let went = send(&mut core) && take(&mut core, b"\x02\0\0\0\x03");
    if went { Some(core) } else { None }
}

fn fill(core: &mut Core, count: u32) -> bool {
    for _ in 0..count {
        if !submit(core) {
            return false;
        }
    }
    send(core)
}

fn drain(core: &mut Core, count: u32) -> bool {
    for id in 0..count {
        if !answer(core, id) {
            return false;
        }
    }
    true
}

/// Returns the number of requests that were in flight at once, and the number left at the end.
fn run(alloc: Global, count: u32) -> Option<(u32, u32)> {
    let mut core = greeted(alloc)?;
    let filled = fill(&mut core, count);
    let in_flight = core.awaited();
    let drained = drain(&mut core, count);
    let left = core.unanswered();
    if filled && drained {
        Some((in_flight, left))
    } else {
        None
    }
}

/// Returns the number in the command line.
fn count(rt: &HostRuntime) -> Option<u32> {
    match env::args(rt).ok()?.nth(1) {
        Some(word) => word.parse().ok(),
        None => Some(1000),
    }
}

fn main(rt: HostRuntime) -> ExitCode {
    let Some(count) = count(&rt) else {
        return ExitCode::from(2);
    };
    let Some((in_flight, left)) = run(rt.alloc(), count) else {
        return ExitCode::from(1);
    };
    match println!(rt; "{in_flight} in flight, {left} left") {
        Ok(()) => ExitCode::from(0),
        Err(_) => ExitCode::from(4),
    }
}
