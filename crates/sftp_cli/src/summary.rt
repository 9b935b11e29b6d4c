//! The numbers that summarize a run.
ghost use Rattle.std.specs.Prelude.{◌≡◌, length};
ghost use Rattle.std.specs.List.{sum_by};
ghost use Rattle.sftp_cli.specs.Summary.{capped_at_u64, requests_in, summary_of};

use crate::kind::{Kind, count_in};
use session_model::{Event, Outcome, Report};
use sftp_values::Items;

/// The numbers that summarize a run, each at most the greatest of 64 bits.
///
/// Example: `crates/sftp_cli/src/bulk.rt`.
#[derive(Clone, Copy, Debug, PartialEq, Eq)]
pub struct Summary {
    /// The number of lanes.
    pub lanes: u64,
    /// The number of calls that ended in all lanes.
    pub calls: u64,
    /// The number of requests that were sent, including the query for limits.
    pub requests: u64,
    /// The number of calls that ended without a value.
    pub done: u64,
    /// The number of calls that ended with bytes that were read.
    pub read: u64,
    /// The number of calls that ended with attributes.
    pub meta: u64,
    /// The number of calls that were refused.
    pub refused: u64,
    /// The number of files that are left.
    pub files: u64,
    /// The total size of these files in bytes.
    pub bytes: u64,
}

/// Returns the number of outcomes of all lanes, or the greatest number of 64 bits if there are more.
fn calls_ended(lanes: &[Items<Outcome>]) -> u64
    ensures { result ≡ capped_at_u64 (sum_by length lanes.now) }
{
    let mut count: u64 = 0;
    for outcomes in lanes {
        count = count.saturating_add(outcomes.as_slice().len() as u64);
    }
    count
}

/// Returns the number of requests that were sent in these events, which are those before the last Send.
fn requests_in(events: &[Event]) -> u64
    ensures { result ≡ requests_in events.now }
{
    let mut asked: u64 = 0;
    let mut sent: u64 = 0;
    for event in events {
        match event {
            Event::Submit { .. } => asked += 1,
            Event::Send => sent = asked,
            _ => {}
        }
    }
    sent
}

/// Returns the summary of a report, and of this many files with this many bytes.
pub fn summary_of(report: &Report, files: u64, bytes: u64) -> Summary
    ensures { result ≡ summary_of report.now files bytes }
{
    let lanes = report.outcomes.as_slice();
    Summary {
        lanes: lanes.len() as u64,
        calls: calls_ended(lanes),
        requests: requests_in(report.trace.as_slice()),
        done: count_in(Kind::Done, lanes),
        read: count_in(Kind::Read, lanes),
        meta: count_in(Kind::Meta, lanes),
        refused: count_in(Kind::Refused, lanes),
        files,
        bytes,
    }
}
