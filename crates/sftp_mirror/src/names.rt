//! Names of files, by their components.
ghost use Rattle.std.specs.Prelude.{◌≡◌, length, nat_le};
ghost use Rattle.std.specs.List.{list_all, list_any};
ghost use Rattle.machine_model.specs.Components.{is_within, same_name};
ghost use Rattle.machine_model.specs.FirstTree.{are_apart, may_be_named};
ghost use Rattle.machine_model.specs.Limits.{MAX_COMPONENT_LEN};
ghost use Rattle.sftp_mirror.specs.Lists.{may_stand_beside};

use machine_model::limits::MAX_COMPONENT_LEN;
use sftp_values::{ByteText, Items};

/// Returns true if no component is too long.
fn are_short(parts: &[ByteText]) -> bool
    ensures { result ≡ list_all (λ part. nat_le (length part) MAX_COMPONENT_LEN) parts.now }
{
    parts
        .iter()
        .all(|part| part.as_slice().len() <= MAX_COMPONENT_LEN)
}

/// Returns true if the name isn't the root's and has no component that is too long.
pub(crate) fn may_be_named(name: &[ByteText]) -> bool
    ensures { result ≡ may_be_named name.now }
{
    !name.is_empty() && are_short(name)
}

/// Returns true if a name is the directory's or lies within it.
fn is_within(directory: &[ByteText], name: &[ByteText]) -> bool
    ensures { result ≡ is_within directory.now name.now }
{
    name.starts_with(directory)
}

/// Returns true if neither of the two names is the other's or lies within it.
fn are_apart(name: &[ByteText], other: &[ByteText]) -> bool
    ensures { result ≡ are_apart name.now other.now }
{
    !(is_within(name, other) || is_within(other, name))
}

/// Returns true if the two names are the same, or neither lies within the other.
fn may_stand_beside(name: &[ByteText], other: &[ByteText]) -> bool
    ensures { result ≡ may_stand_beside name.now other.now }
{
    name == other || are_apart(name, other)
}

/// Returns true if the name is compatible with each of these: the same, or neither within the other.
pub(crate) fn stands_beside_all(names: &[Items<ByteText>], name: &[ByteText]) -> bool
    ensures { result ≡ list_all (may_stand_beside name.now) names.now }
{
    names
        .iter()
        .all(|other| may_stand_beside(name, other.as_slice()))
}

/// Returns true if the name is among these.
pub(crate) fn has_name(names: &[Items<ByteText>], name: &[ByteText]) -> bool
    ensures { result ≡ list_any (same_name name.now) names.now }
{
    names.iter().any(|other| name == other.as_slice())
}
