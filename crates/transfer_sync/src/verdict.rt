//! The decisions on single entries.
ghost use Rattle.std.specs.Prelude.{◌≡◌};
ghost use Rattle.std.specs.Option.{option_copied};
ghost use Rattle.transfer_sync.specs.Entries.{is_directory, is_file, is_link, is_same_kind};
ghost use Rattle.transfer_sync.specs.PathMaps.{path_set};
ghost use Rattle.transfer_sync.specs.Actions.{
  has_directory_mode,
  has_part_action,
  is_in_part,
  needs_attributes,
  needs_copy,
};
ghost use Rattle.transfer_sync.specs.Verdicts.{
  entry_left_at,
  has_other_attributes,
  has_other_directory_mode,
  has_other_file_attributes,
  is_blocked,
  is_conflict,
  is_ignored,
  is_in_way,
  is_other_content,
  is_other_file,
  is_other_kind,
  is_other_link,
};

use crate::entry::{Entry, FileFacts, Kind};
use crate::listing::Listing;
use crate::paths::{PathSet, directory_of};
use crate::rules::{Rules, is_changed, is_other_mode, is_other_time};

/// The parts of a plan after the removals, in order.
#[derive(Clone, Copy, Debug, PartialEq, Eq)]
pub(crate) enum Part {
    /// Directories are created.
    Directories,
    /// Files are copied.
    Files,
    /// Symbolic links are created.
    Links,
    /// Permissions and times are set.
    Attributes,
}

/// Returns true for a file.
pub(crate) fn is_file(kind: &Kind) -> bool
    ensures { result ≡ is_file kind.now }
{
    match kind {
        Kind::File(_) => true,
        _ => false,
    }
}

/// Returns true for a directory.
pub(crate) fn is_directory(kind: &Kind) -> bool
    ensures { result ≡ is_directory kind.now }
{
    match kind {
        Kind::Directory(_) => true,
        _ => false,
    }
}

/// Returns true for a symbolic link.
pub(crate) fn is_link(kind: &Kind) -> bool
    ensures { result ≡ is_link kind.now }
{
    match kind {
        Kind::Link(_) => true,
        _ => false,
    }
}

/// Returns true for two files, two directories or two symbolic links.
pub(crate) fn is_same_kind(one: &Kind, other: &Kind) -> bool
    ensures { result ≡ is_same_kind one.now other.now }
{
    is_file(one) && is_file(other)
        || is_directory(one) && is_directory(other)
        || is_link(one) && is_link(other)
}

/// Returns the entry that the target has at a path after the removals.
fn entry_left_at<'a>(gone: &PathSet, target: &'a Listing, path: &[u8]) -> Option<&'a Entry>
    ensures { option_copied result ≡ entry_left_at (path_set gone.now) target.now.entries path.now }
{
    if gone.has(path) {
        return None;
    }
    target.find(path)
}

/// Returns true if the entry that is left at a path is excluded or of another kind.
fn is_in_way(left: Option<&Entry>, kind: &Kind) -> bool
    ensures { result ≡ is_in_way (option_copied left.entry) kind.now }
{
    match left {
        Some(found) => found.excluded || !is_same_kind(kind, &found.kind),
        None => false,
    }
}

/// Returns true if the entry that is left at a path is of another kind, and is not excluded.
fn is_other_kind(left: Option<&Entry>, kind: &Kind) -> bool
    ensures { result ≡ is_other_kind (option_copied left.entry) kind.now }
{
    match left {
        Some(found) => !found.excluded && !is_same_kind(kind, &found.kind),
        None => false,
    }
}

/// Returns true if nothing is ever done for an entry of the source: it is excluded, or no file, directory or link.
fn is_ignored(entry: &Entry) -> bool
    ensures { result ≡ is_ignored entry.now }
{
    entry.excluded || !(is_file(&entry.kind) || is_directory(&entry.kind) || is_link(&entry.kind))
}

/// Returns true if nothing is done for an entry of the source.
pub(crate) fn is_blocked(gone: &PathSet, target: &Listing, blocked: &PathSet, entry: &Entry) -> bool
    ensures { result ≡ is_blocked (path_set gone.now) target.now.entries (path_set blocked.now) entry.now }
{
    let path = entry.path.as_slice();
    is_ignored(entry)
        || blocked.has(directory_of(path))
        || is_in_way(entry_left_at(gone, target, path), &entry.kind)
}

/// Returns true if nothing is done for an entry of the source because something of another kind stays at its path.
pub(crate) fn is_conflict(
    gone: &PathSet,
    target: &Listing,
    blocked: &PathSet,
    entry: &Entry,
) -> bool
    ensures { result ≡ is_conflict (path_set gone.now) target.now.entries (path_set blocked.now) entry.now }
{
    let path = entry.path.as_slice();
    !(is_ignored(entry) || blocked.has(directory_of(path)))
        && is_other_kind(entry_left_at(gone, target, path), &entry.kind)
}

/// Returns true if a file of the source counts as changed against the entry that the target has.
fn is_other_file(rules: Rules, facts: FileFacts, kind: &Kind) -> bool
    ensures { result ≡ is_other_file rules facts kind.now }
{
    match kind {
        Kind::File(found) => is_changed(rules, facts, *found),
        _ => false,
    }
}

/// Returns true if a symbolic link of the source has another text than the one that the target has.
fn is_other_link(text: &[u8], kind: &Kind) -> bool
    ensures { result ≡ is_other_link text.now kind.now }
{
    match kind {
        Kind::Link(found) => text != found.as_slice(),
        _ => false,
    }
}

/// Returns true if the content of an entry differs from that of an entry of the same kind.
fn is_other_content(rules: Rules, kind: &Kind, found: &Kind) -> bool
    ensures { result ≡ is_other_content rules kind.now found.now }
{
    match kind {
        Kind::File(facts) => is_other_file(rules, *facts, found),
        Kind::Link(text) => is_other_link(text.as_slice(), found),
        _ => false,
    }
}

/// Returns true if an entry is created or copied, given the entry that is left at its path.
fn needs_copy(rules: Rules, left: Option<&Entry>, kind: &Kind) -> bool
    ensures { result ≡ needs_copy rules (option_copied left.entry) kind.now }
{
    match left {
        Some(found) => is_other_content(rules, kind, &found.kind),
        None => true,
    }
}

/// Returns true if the permissions or the time of a file are known, and the file of the target has others.
fn has_other_file_attributes(facts: FileFacts, kind: &Kind) -> bool
    ensures { result ≡ has_other_file_attributes facts kind.now }
{
    match kind {
        Kind::File(found) => {
            is_other_mode(facts.mode, found.mode) || is_other_time(facts.modified, found.modified)
        }
        _ => false,
    }
}

/// Returns true if the permissions of a directory are known, and the directory of the target has others.
fn has_other_directory_mode(mode: Option<u32>, kind: &Kind) -> bool
    ensures { result ≡ has_other_directory_mode mode kind.now }
{
    match kind {
        Kind::Directory(found) => is_other_mode(mode, *found),
        _ => false,
    }
}

/// Returns true if permissions or a time are known, and the entry of the target has others.
fn has_other_attributes(kind: &Kind, found: &Kind) -> bool
    ensures { result ≡ has_other_attributes kind.now found.now }
{
    match kind {
        Kind::File(facts) => has_other_file_attributes(*facts, found),
        Kind::Directory(mode) => has_other_directory_mode(*mode, found),
        _ => false,
    }
}

/// Returns true for a directory whose permissions are known.
fn has_directory_mode(kind: &Kind) -> bool
    ensures { result ≡ has_directory_mode kind.now }
{
    match kind {
        Kind::Directory(mode) => is_other_mode(*mode, None),
        _ => false,
    }
}

/// Returns true if permissions and times are set, given the entry that is left at the path.
fn needs_attributes(rules: Rules, left: Option<&Entry>, kind: &Kind) -> bool
    ensures { result ≡ needs_attributes rules (option_copied left.entry) kind.now }
{
    match left {
        Some(found) => {
            rules.keep
                && !is_other_content(rules, kind, &found.kind)
                && has_other_attributes(kind, &found.kind)
        }
        None => rules.keep && has_directory_mode(kind),
    }
}

/// Returns true if an entry of this kind has an action in a part, given the entry that is left at its path.
fn has_part_action(rules: Rules, part: Part, left: Option<&Entry>, kind: &Kind) -> bool
    ensures { result ≡ has_part_action rules part (option_copied left.entry) kind.now }
{
    match part {
        Part::Directories => is_directory(kind) && needs_copy(rules, left, kind),
        Part::Files => is_file(kind) && needs_copy(rules, left, kind),
        Part::Links => is_link(kind) && needs_copy(rules, left, kind),
        Part::Attributes => needs_attributes(rules, left, kind),
    }
}

/// Returns true if an entry of the source has an action in a part of the plan.
pub(crate) fn is_in_part(
    rules: Rules,
    part: Part,
    gone: &PathSet,
    target: &Listing,
    blocked: &PathSet,
    entry: &Entry,
) -> bool
    ensures { result ≡ is_in_part rules part (path_set gone.now) target.now.entries (path_set blocked.now) entry.now }
{
    if is_blocked(gone, target, blocked, entry) {
        return false;
    }
    has_part_action(
        rules,
        part,
        entry_left_at(gone, target, entry.path.as_slice()),
        &entry.kind,
    )
}
