//! Runs the script that three numbers make over a server in memory, and writes the summary of the run.
ghost use Rattle.std.specs.Prelude.{◌≡◌, ◌<◌, ◌-◌, ◌^◌, None, map, IfOk, IfSome};
ghost use Rattle.std.specs.String.{string_bytes};
ghost use Rattle.sftp_cli.specs.Bulk.{bulk_script};
ghost use Rattle.sftp_cli.specs.Ended.{EndsSummed};
ghost use Rattle.sftp_cli.specs.Words.{IsBulk, bulk_of, numbers_in};

use crate::bulk_script;
use crate::printed::Form;
use program_shell::{Answered, ProgramFailure, text_in_memory, write_answer};
use script_grammar::{Reason, number_in};
use sftp_link::Sink;
use sftp_map_server::MapServer;
use std::alloc::Global;

/// The most lanes of such a script.
const MAX_LANES: u64 = 256;

/// The most calls of one lane.
const MAX_LANE_CALLS: u64 = 4096;

/// The most calls of all lanes.
const MAX_CALLS: u64 = 16384;

/// The three numbers that make a script.
///
/// Used by the functions of this module.
#[derive(Clone, Copy, Debug, PartialEq, Eq)]
pub struct Numbers {
    /// The number of which the first draw is made.
    pub start: u64,
    /// The number of lanes.
    pub lanes: u32,
    /// The number of calls of each lane.
    pub calls: u32,
}

/// Returns the three numbers, if each is within its range and the calls in all are at most `MAX_CALLS`.
fn numbers_in(start: &[u8], lanes: &[u8], calls: &[u8]) -> Result<Numbers, Reason>
    ensures value { result ≡ numbers_in start.now lanes.now calls.now }
    ensures bulk { IfOk result IsBulk }
{
    let start = number_in(0, u64::MAX, start)?;
    let lanes = number_in(0, MAX_LANES, lanes)?;
    let calls = number_in(0, MAX_LANE_CALLS, calls)?;
    if lanes * calls > MAX_CALLS {
        return Err(Reason::Range);
    }
    Ok(Numbers {
        start,
        lanes: lanes as u32,
        calls: calls as u32,
    })
}

/// Returns the numbers, if the arguments are `bulk` and three permitted numbers.
pub(crate) fn bulk_numbers(words: &[String]) -> Option<Numbers>
    ensures value { result ≡ bulk_of (map string_bytes words.now) }
    ensures bulk { IfSome result IsBulk }
{
    match words {
        [word, start, lanes, calls] => {
            if word.as_str() == "bulk" {
                numbers_in(start.as_bytes(), lanes.as_bytes(), calls.as_bytes()).ok()
            } else {
                None
            }
        }
        _ => None,
    }
}

/// Runs the script of three numbers over a server in memory, which is left in `kept`, and writes the summary of the
/// run.
pub(crate) fn run_bulk<K: Sink>(
    alloc: Global,
    numbers: Numbers,
    sink: &mut K,
    kept: &mut Option<MapServer>,
) -> Result<Answered, ProgramFailure>
    requires bulk { IsBulk numbers }
    requires none { kept.old ≡ None }
    requires sink { (K.state sink.old).faults < 2 ^ 64 - 1 }
    ensures { EndsSummed (bulk_script numbers.start numbers.lanes numbers.calls) result kept.new (K.state sink.old) (K.state sink.new) }
{
    let script = bulk_script(alloc, numbers.start, numbers.lanes, numbers.calls)?;
    let text = text_in_memory(alloc, &Form::Summary, &script, kept)?;
    write_answer(sink, Answered::Done, &text)
}
