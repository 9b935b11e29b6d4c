//! The names after one of them is moved.
ghost use Rattle.std.specs.Prelude.{◌≡◌, ◌++◌, map, IfOk, OnOk};
ghost use Rattle.machine_model.specs.Components.{moved_name, same_name};
ghost use Rattle.machine_model.specs.FileTree.{without_key};

use crate::lookups::{is_within, name_index};
use crate::names::Names;
use crate::tree_name::{TreeName, add_copies};
use machine_model::Node;
use sftp_values::ByteText;
use ssh_encoding::OutOfMemory;
use std::alloc::Global;

/// Returns the names, with the old one and all within it moved to the new one.
///
/// # Errors
///
/// `OutOfMemory` if an allocation fails; nothing remains of the names then.
pub fn moved_names(
    alloc: Global,
    pairs: &[(TreeName, Node)],
    old: &[ByteText],
    to: &[ByteText],
) -> Result<Names, OutOfMemory>
    ensures { IfOk result (λ names. names
        ≡ map (λ pair. (moved_name old.now to.now pair.0, pair.1)) pairs.now) }
{
    let mut names = Names::new(alloc);
    add_moved(alloc, &mut names, pairs, old, to)?;
    Ok(names)
}

/// Returns the same names, without the first that had the new name.
///
/// # Errors
///
/// `OutOfMemory` if an allocation fails; nothing remains of the names then.
pub fn names_but(
    alloc: Global,
    pairs: &[(TreeName, Node)],
    old: &[ByteText],
    to: &[ByteText],
) -> Result<Names, OutOfMemory>
    ensures { IfOk result (λ names. names
        ≡ map (λ pair. (moved_name old.now to.now pair.0, pair.1)) (without_key same_name pairs.now to.now)) }
{
    let Some(index) = name_index(pairs, to) else {
        return moved_names(alloc, pairs, old, to);
    };
    let mut names = Names::new(alloc);
    let (_, later) = pairs.split_at(index + 1);
    add_moved(alloc, &mut names, &pairs[..index], old, to)?;
    add_moved(alloc, &mut names, later, old, to)?;
    Ok(names)
}

/// Adds the new forms of names.
fn add_moved(
    alloc: Global,
    names: &mut Names,
    pairs: &[(TreeName, Node)],
    old: &[ByteText],
    to: &[ByteText],
) -> Result<(), OutOfMemory>
    ensures { OnOk result (names.new ≡ names.old
        ++ map (λ pair. (moved_name old.now to.now pair.0, pair.1)) pairs.now) }
{
    for pair in pairs {
        let parts = moved(alloc, pair.0.parts(), old, to)?;
        names.push(TreeName::new(alloc, parts)?, pair.1)?;
    }
    Ok(())
}

/// Returns the new form of a name if one is moved.
fn moved(
    alloc: Global,
    name: &[ByteText],
    old: &[ByteText],
    to: &[ByteText],
) -> Result<Vec<ByteText>, OutOfMemory>
    ensures { IfOk result (λ parts. parts.items ≡ moved_name old.now to.now name.now) }
{
    let mut parts = Vec::new(alloc);
    if is_within(old, name) {
        add_copies(alloc, &mut parts, to)?;
        add_copies(alloc, &mut parts, &name[old.len()..])?;
    } else {
        add_copies(alloc, &mut parts, name)?;
    }
    Ok(parts)
}
