//! The numbers of a window's READs: the ends that were reported, and the offsets that were reached and asked for.
ghost use Rattle.std.specs.Prelude.{◌≡◌};
ghost use Rattle.sftp_model.specs.Answers.{is_end_of_file};
ghost use Rattle.plan_model.specs.WindowPlans.{brings_content};
ghost use Rattle.plan_window.specs.Windows.{AreInRange, FitsRead, IsInRange};
ghost use Rattle.plan_window.specs.PlainSteps.{above, end_at, greatest_by, least_by, least_of, reached_at, read_end, waiting_above};
ghost use Rattle.plan_window.specs.Tallies.{data_end};

use crate::window::{Answered, ReadAt};
use sftp_model::Reply;
use sftp_model::numbers::SSH_FX_EOF;

/// Returns the lesser of two offsets, if there are any.
pub(crate) fn least_of(a: Option<u64>, b: Option<u64>) -> Option<u64>
    ensures { result ≡ least_of a b }
{
    match (a, b) {
        (None, other) => other,
        (Some(n), None) => Some(n),
        (Some(n), Some(m)) => Some(n.min(m)),
    }
}

/// Returns true if a reply is the end of the file.
fn is_end(reply: &Reply) -> bool
    ensures { result ≡ is_end_of_file reply.now }
{
    match reply {
        Reply::Status { code, .. } => *code == SSH_FX_EOF,
        _ => false,
    }
}

/// Returns the end of the file that this READ reported.
pub(crate) fn end_at(answered: &Answered) -> Option<u64>
    ensures { result ≡ end_at answered.now }
{
    if is_end(&answered.reply) {
        Some(answered.read.offset)
    } else {
        None
    }
}

/// Returns the offset at which the bytes of a DATA end.
pub(crate) fn data_end(answered: &Answered) -> Option<u64>
    requires range { IsInRange answered.now.read }
    requires fits { FitsRead answered.now.read answered.now.reply }
    ensures { result ≡ data_end answered.now }
{
    match &answered.reply {
        Reply::Content(bytes) => Some(answered.read.offset + bytes.len() as u64),
        _ => None,
    }
}

/// Returns the offset at which the bytes of this READ end, or at which it begins if it received none.
pub(crate) fn reached_at(answered: &Answered) -> u64
    requires range { IsInRange answered.now.read }
    requires fits { FitsRead answered.now.read answered.now.reply }
    ensures { result ≡ reached_at answered.now }
{
    data_end(answered).unwrap_or(answered.read.offset)
}

/// Returns the greatest offset up to which a READ in flight asks.
pub(crate) fn waiting_reach(waiting: &[ReadAt]) -> u64
    requires { AreInRange waiting.now }
    ensures { result ≡ greatest_by read_end waiting.now }
{
    let mut greatest = 0u64;
    let mut rest = waiting;
    loop {
        match rest {
            [] => return greatest,
            [first, later @ ..] => {
                greatest = greatest.max(first.offset + first.len as u64);
                rest = later;
            }
        }
    }
}

/// Returns the offset if it is above another one.
fn above(p: u64, offset: u64) -> Option<u64>
    ensures { result ≡ above p offset }
{
    if p < offset { Some(offset) } else { None }
}

/// Returns the least offset above this one at which a READ in flight begins.
#[tactic(auto, using(crate::proofs::StepLaws::least_of_none, crate::proofs::StepLaws::least_of_more))]
pub(crate) fn waiting_above(waiting: &[ReadAt], p: u64) -> Option<u64>
    ensures { result ≡ least_by (waiting_above p) waiting.now }
{
    let mut least = None;
    let mut rest = waiting;
    loop {
        match rest {
            [] => return least,
            [first, later @ ..] => {
                least = least_of(least, above(p, first.offset));
                rest = later;
            }
        }
    }
}

/// Returns true if a reply is a DATA.
pub(crate) fn is_content(reply: &Reply) -> bool
    ensures { result ≡ brings_content reply.now }
{
    match reply {
        Reply::Content(_) => true,
        _ => false,
    }
}
