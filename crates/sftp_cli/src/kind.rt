//! The kinds of outcomes that are counted.
ghost use Rattle.std.specs.Prelude.{◌≡◌};
ghost use Rattle.std.specs.List.{count_by, sum_by};
ghost use Rattle.sftp_cli.specs.Summary.{count_in, is_of};

use session_model::Outcome;
use sftp_values::Items;

/// A kind of outcomes.
///
/// Used in `crates/sftp_cli/src/summary.rt`.
#[derive(Clone, Copy, Debug, PartialEq, Eq)]
pub enum Kind {
    /// Done, without a value.
    Done,
    /// Bytes that were read.
    Read,
    /// Attributes.
    Meta,
    /// Refused, by the server or without a request.
    Refused,
}

/// Returns true if an outcome is of a kind.
fn is_of(kind: Kind, outcome: &Outcome) -> bool
    ensures { result ≡ is_of kind outcome.now }
{
    match (kind, outcome) {
        (Kind::Done, Outcome::Done) => true,
        (Kind::Read, Outcome::Bytes(_)) => true,
        (Kind::Meta, Outcome::Meta(_)) => true,
        (Kind::Refused, Outcome::Refused(_)) => true,
        _ => false,
    }
}

/// Returns the number of outcomes of a lane that are of a kind.
fn count_in_lane(kind: Kind, outcomes: &[Outcome]) -> u64
    ensures { result ≡ count_by (is_of kind) outcomes.now }
{
    let mut count = 0;
    for outcome in outcomes {
        if is_of(kind, outcome) {
            count += 1;
        }
    }
    count
}

/// Returns the number of outcomes of all lanes that are of a kind, or the greatest number of 64 bits if there are more.
pub(crate) fn count_in(kind: Kind, lanes: &[Items<Outcome>]) -> u64
    ensures { result ≡ count_in kind lanes.now }
{
    let mut count: u64 = 0;
    for outcomes in lanes {
        count = count.saturating_add(count_in_lane(kind, outcomes.as_slice()));
    }
    count
}
