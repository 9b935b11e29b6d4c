//! Runs of eight lanes in threads over the server in memory, whose receipts are compared with their journals.
ghost use Rattle.std.specs.Prelude.{◌≡◌, true};
ghost use Rattle.plan_model.specs.Lanes.{are_ok};

use machine_halves::Pair;
use script_grammar::number_in;
use session_threads::run_shared;
use sftp_map_server::{MapServer, may_begin, new_server};
use sftp_model::{Extensions, ServerConfig};
use sftp_tasks::{Call, Entry, Lane, Receipt, SftpOptions, lanes_ok};
use sftp_values::{ByteText, Items};
use std::alloc::{AllocError, Global};
use std::sync::Wait;
use std::thread::Threads;
use std::time::Clock;

/// The most runs.
const MAX_RUNS: u64 = 100_000;

const PLAIN: ServerConfig = ServerConfig {
    extensions: Extensions::LIMITS,
    limits: None,
    cut: 0,
};

/// Returns the calls of a lane: it creates a directory of its own name, and then stats it and writes a file in it, a
/// hundred times.
fn calls(alloc: Global, name: u8) -> Result<Vec<Call>, AllocError> {
    let mut calls = Vec::new(alloc);
    calls.push(Call::Mkdir {
        path: ByteText::new(Vec::from_slice(alloc, &[name])?),
    })?;
    for _ in 0..100u32 {
        calls.push(Call::Stat {
            path: ByteText::new(Vec::from_slice(alloc, &[name])?),
        })?;
        calls.push(Call::FsWrite {
            path: ByteText::new(Vec::from_slice(alloc, &[name, b'/', b'f'])?),
            bytes: ByteText::new(Vec::from_slice(alloc, b"hi")?),
        })?;
    }
    Ok(calls)
}

fn eight_lanes(alloc: Global) -> Result<Vec<Lane>, AllocError> {
    let mut lanes = Vec::new(alloc);
    for name in b"abcdefgh" {
        lanes.push(Lane {
            calls: Items::new(calls(alloc, *name)?),
        })?;
    }
    Ok(lanes)
}

/// Returns a server without files.
fn server(alloc: Global) -> Result<MapServer, &'static str> {
    match may_begin(alloc, &[], &[]) {
        Ok(true) => {}
        _ => return Err("no memory"),
    }
    let none = Items::new(Vec::new(alloc));
    match new_server(alloc, &[], &[], PLAIN, none, Items::new(Vec::new(alloc))) {
        Ok(server) => Ok(server),
        Err(_) => Err("no memory"),
    }
}

/// Marks the place of a receipt. Returns true if its entry is at this place in the journal and the place was not marked
/// before.
fn marks(journal: &[Entry], seen: &mut [bool], receipt: &Receipt) -> bool {
    let place = receipt.place as usize;
    match (journal.get(place), seen.get_mut(place)) {
        (Some(entry), Some(mark)) => {
            let fresh = !*mark;
            *mark = true;
            fresh && *entry == receipt.entry
        }
        _ => false,
    }
}

/// Returns true if the receipts of all lists are the entries of the journal at their places, each place once.
pub(crate) fn are_receipts_of(
    alloc: Global,
    journal: &[Entry],
    lists: &[Vec<Receipt>],
) -> Result<bool, AllocError> {
    let mut seen = Vec::new(alloc);
    seen.resize(journal.len(), false)?;
    let mut count: usize = 0;
    for list in lists {
        for receipt in list.as_slice() {
            if !marks(journal, &mut seen, receipt) {
                return Ok(false);
            }
            count = count.saturating_add(1);
        }
    }
    Ok(count == journal.len())
}

/// Runs the lanes once.
fn run_once<P: Pair<R>, R: Threads + Wait + Clock + Sync>(
    rt: &R,
    alloc: Global,
    pair: &mut P,
    lanes: &[Lane],
) -> Result<(), &'static str>
    requires { are_ok lanes.now ≡ true }
{
    let server = server(alloc)?;
    let Ok((out, input)) = pair.split(rt, alloc, server) else {
        return Err("no memory");
    };
    let (result, out, input) = run_shared(rt, alloc, out, input, lanes, &SftpOptions::new());
    pair.put_back(out, input);
    let Ok(report) = result else {
        return Err("a run stopped");
    };
    match are_receipts_of(alloc, report.journal.as_slice(), report.receipts.as_slice()) {
        Ok(true) => Ok(()),
        Ok(false) => Err("the receipts aren't those of the journal"),
        Err(_) => Err("no memory"),
    }
}

/// Runs eight lanes of 201 calls this many times, and compares the receipts of each run with its journal.
pub(crate) fn run_often<P: Pair<R>, R: Threads + Wait + Clock + Sync>(
    rt: &R,
    alloc: Global,
    pair: &mut P,
    count: &str,
) -> Result<(), &'static str> {
    let Ok(count) = number_in(0, MAX_RUNS, count.as_bytes()) else {
        return Err("the count is a number up to 100000");
    };
    let Ok(lanes) = eight_lanes(alloc) else {
        return Err("no memory");
    };
    if !lanes_ok(lanes.as_slice()) {
        return Err("a session can't be given the lanes");
    }
    for _ in 0..count {
        run_once(rt, alloc, pair, lanes.as_slice())?;
    }
    Ok(())
}
