//! Names of files and directories, by their components.
ghost use Rattle.std.specs.Prelude.{◌≡◌, length, nat_le};
ghost use Rattle.std.specs.List.{list_all, list_any};
ghost use Rattle.machine_model.specs.Components.{is_within as is_within_by, same_name};
ghost use Rattle.machine_model.specs.FirstTree.{are_apart as are_apart_by, may_be_named as may_be_named_by};
ghost use Rattle.machine_model.specs.Limits.{MAX_COMPONENT_LEN};

use machine_model::limits::MAX_COMPONENT_LEN;
use sftp_values::{ByteText, Items};

/// Returns true if no component is too long.
fn are_short(parts: &[ByteText]) -> bool
    ensures { result ≡ list_all (λ part. nat_le (length part) MAX_COMPONENT_LEN) parts.now }
{
    parts
        .iter()
        .all(|part| part.as_slice().len() <= MAX_COMPONENT_LEN)
}

/// Returns true if the name isn't the root's and has no component that is too long.
pub(crate) fn may_be_named(name: &[ByteText]) -> bool
    ensures { result ≡ may_be_named_by name.now }
{
    !name.is_empty() && are_short(name)
}

/// Returns true if a name is the directory's or lies beneath it.
fn is_within(directory: &[ByteText], name: &[ByteText]) -> bool
    ensures { result ≡ is_within_by directory.now name.now }
{
    name.starts_with(directory)
}

/// Returns true if neither of the two names is the other's or lies beneath it.
fn are_apart(name: &[ByteText], other: &[ByteText]) -> bool
    ensures { result ≡ are_apart_by name.now other.now }
{
    !(is_within(name, other) || is_within(other, name))
}

/// Returns true if the name is among these.
pub(crate) fn has_name(names: &[Items<ByteText>], name: &[ByteText]) -> bool
    ensures { result ≡ list_any (same_name name.now) names.now }
{
    names.iter().any(|other| name == other.as_slice())
}

/// Returns true if one of these names is the directory's or lies beneath it.
pub(crate) fn has_within(names: &[Items<ByteText>], directory: &[ByteText]) -> bool
    ensures { result ≡ list_any (is_within_by directory.now) names.now }
{
    names
        .iter()
        .any(|name| is_within(directory, name.as_slice()))
}

/// Returns true if the name is one of these or lies beneath one.
pub(crate) fn is_within_any(names: &[Items<ByteText>], name: &[ByteText]) -> bool
    ensures { result ≡ list_any (λ other. is_within_by other name.now) names.now }
{
    names.iter().any(|other| is_within(other.as_slice(), name))
}

/// Returns true if the name is apart from each of these.
pub(crate) fn is_apart_from_all(names: &[Items<ByteText>], name: &[ByteText]) -> bool
    ensures { result ≡ list_all (are_apart_by name.now) names.now }
{
    names.iter().all(|other| are_apart(name, other.as_slice()))
}
