//! The options of a synchronization.
ghost use Rattle.std.specs.Prelude.{◌≡◌};
ghost use Rattle.transfer_sync.specs.Rules.{
  is_changed,
  is_newer,
  is_other_mode,
  is_other_time,
  is_same_time,
  rules_for,
};

use crate::entry::FileFacts;

/// The test by which a file of the source counts as changed.
///
/// Example: `crates/sftp_transfer/src/mirror.rt`.
#[derive(Clone, Copy, Debug, PartialEq, Eq)]
pub enum Changed {
    /// The lengths differ, the times differ, or one of the times is unknown.
    SizeOrTime,
    /// The lengths differ.
    Size,
    /// Every file counts as changed.
    Always,
}

/// The options of a synchronization.
///
/// Example: `crates/sftp_transfer/src/mirror.rt`.
#[derive(Clone, Copy, Debug, PartialEq, Eq)]
pub struct Rules {
    /// Removes what only the target has, and what has the path of something of another kind.
    pub delete: bool,
    /// The test by which a file that both have is copied.
    pub changed: Changed,
    /// Copies no file over one that was changed at the same time or later.
    pub only_newer: bool,
    /// Makes permissions and times equal too.
    pub keep: bool,
    /// The most removals that a plan may have, or `None` if there is no limit.
    pub max_delete: Option<u64>,
}

/// Returns the rules that hold for a source: nothing is removed if the source was not listed to its end.
pub(crate) fn rules_for(rules: Rules, complete: bool) -> Rules
    ensures { result ≡ rules_for rules complete }
{
    Rules {
        delete: rules.delete && complete,
        changed: rules.changed,
        only_newer: rules.only_newer,
        keep: rules.keep,
        max_delete: rules.max_delete,
    }
}

/// Returns true if two times are known and equal.
fn is_same_time(one: Option<u32>, other: Option<u32>) -> bool
    ensures { result ≡ is_same_time one other }
{
    match (one, other) {
        (Some(a), Some(b)) => a == b,
        _ => false,
    }
}

/// Returns true if the first of two times is later, or if one of them is unknown.
fn is_newer(one: Option<u32>, other: Option<u32>) -> bool
    ensures { result ≡ is_newer one other }
{
    match (one, other) {
        (Some(a), Some(b)) => b < a,
        _ => true,
    }
}

/// Returns true if a file of the source is copied over one of the target.
pub(crate) fn is_changed(rules: Rules, source: FileFacts, target: FileFacts) -> bool
    ensures { result ≡ is_changed rules source target }
{
    let counts = match rules.changed {
        Changed::SizeOrTime => {
            source.len != target.len || !is_same_time(source.modified, target.modified)
        }
        Changed::Size => source.len != target.len,
        Changed::Always => true,
    };
    counts && (!rules.only_newer || is_newer(source.modified, target.modified))
}

/// Returns true if the permissions of the source are known and the target has others, or unknown ones.
pub(crate) fn is_other_mode(source: Option<u32>, target: Option<u32>) -> bool
    ensures { result ≡ is_other_mode source target }
{
    match (source, target) {
        (Some(a), Some(b)) => a != b,
        (Some(_), None) => true,
        _ => false,
    }
}

/// Returns true if the time of the source is known and the target has another, or an unknown one.
pub(crate) fn is_other_time(source: Option<u32>, target: Option<u32>) -> bool
    ensures { result ≡ is_other_time source target }
{
    match (source, target) {
        (Some(a), Some(b)) => a != b,
        (Some(_), None) => true,
        _ => false,
    }
}
