//! The names and files that a server starts with.
ghost use Rattle.std.specs.Prelude.{◌≡◌, ◌++◌, [], map, IfOk, OnOk};
ghost use Rattle.machine_model.specs.Components.{components as components_by, parent_of};
ghost use Rattle.machine_model.specs.FirstTree.{first_directories, has_name as has_name_by, name_of as name_by, numbered_files, with_directories, with_directory, with_way};

use crate::file_bytes::FileBytes;
use crate::names::Names;
use crate::tree_name::{TreeName, add_copies, walk};
use machine_model::Node;
use sftp_values::{ByteText, Items};
use ssh_encoding::OutOfMemory;
use std::alloc::Global;

/// Returns the names of these files, each a path and its bytes, of these directories, each a path, and of the parents
/// of all. The files are numbered in their order.
///
/// # Errors
///
/// `OutOfMemory` if an allocation fails; nothing remains of the names then.
pub fn first_names(
    alloc: Global,
    files: &[(ByteText, ByteText)],
    dirs: &[ByteText],
) -> Result<Names, OutOfMemory>
    ensures { IfOk result (λ names. names ≡ first_directories files.now dirs.now ++ numbered_files 0 files.now) }
{
    let mut wanted = names_of(alloc, dirs)?;
    add_parents(alloc, &mut wanted, files)?;
    let mut names = Names::new(alloc);
    add_directories(alloc, &mut names, &wanted)?;
    add_files(alloc, &mut names, files)?;
    Ok(names)
}

/// Returns the names that paths denote. Fails only if an allocation fails.
pub(crate) fn names_of(
    alloc: Global,
    paths: &[ByteText],
) -> Result<Vec<Items<ByteText>>, OutOfMemory>
    ensures { IfOk result (λ names. names.items ≡ map components_by paths.now) }
{
    let mut names = Vec::with_capacity(alloc, paths.len())?;
    for path in paths {
        names.push(Items::new(walk(alloc, path.as_slice())?))?;
    }
    Ok(names)
}

/// Adds the directories directly above files.
fn add_parents(
    alloc: Global,
    names: &mut Vec<Items<ByteText>>,
    files: &[(ByteText, ByteText)],
) -> Result<(), OutOfMemory>
    ensures { OnOk result (names.new.items ≡ names.old.items ++ map (λ file. parent_of (name_by file)) files.now) }
{
    for file in files {
        names.push(parent(alloc, file.0.as_slice())?)?;
    }
    Ok(())
}

/// Returns the name directly above the one that a path denotes; the root's is the root.
fn parent(alloc: Global, path: &[u8]) -> Result<Items<ByteText>, OutOfMemory>
    ensures { IfOk result (λ name. name ≡ parent_of (components_by path.now)) }
{
    let mut parts = walk(alloc, path)?;
    parts.pop();
    Ok(Items::new(parts))
}

/// Adds directories, each with its parents, if their names do not exist.
fn add_directories(
    alloc: Global,
    names: &mut Names,
    wanted: &[Items<ByteText>],
) -> Result<(), OutOfMemory>
    ensures { OnOk result (names.new ≡ with_directories names.old wanted.now) }
{
    let mut rest = wanted;
    while let [name, later @ ..] = rest {
        add_way(alloc, names, name.as_slice())?;
        rest = later;
    }
    Ok(())
}

/// Adds the directories passed from the root to a name, including the last one.
#[tactic(auto, using(crate::proofs::WayLaws::way_step))]
fn add_way(alloc: Global, names: &mut Names, name: &[ByteText]) -> Result<(), OutOfMemory>
    ensures { OnOk result (names.new ≡ with_way names.old [] name.now) }
{
    let mut passed = 0;
    while passed < name.len() {
        add_directory(alloc, names, &name[..passed + 1])?;
        passed += 1;
    }
    Ok(())
}

/// Adds a directory, if its name does not exist.
fn add_directory(alloc: Global, names: &mut Names, name: &[ByteText]) -> Result<(), OutOfMemory>
    ensures { OnOk result (names.new ≡ with_directory names.old name.now) }
{
    if has_name(names.listed(), name) {
        return Ok(());
    }
    let mut parts = Vec::new(alloc);
    add_copies(alloc, &mut parts, name)?;
    names.push(TreeName::new(alloc, parts)?, Node::Directory)
}

/// Returns true if a name exists.
fn has_name(pairs: &[(TreeName, Node)], name: &[ByteText]) -> bool
    ensures { result ≡ has_name_by pairs.now name.now }
{
    pairs.iter().any(|pair| pair.0.parts() == name)
}

/// Adds files, numbered from 0 on.
fn add_files(
    alloc: Global,
    names: &mut Names,
    files: &[(ByteText, ByteText)],
) -> Result<(), OutOfMemory>
    ensures { OnOk result (names.new ≡ names.old ++ numbered_files 0 files.now) }
{
    let mut number = 0u64;
    let mut rest = files;
    while let [file, later @ ..] = rest {
        let name = TreeName::new(alloc, walk(alloc, file.0.as_slice())?)?;
        names.push(name, Node::File(number))?;
        number += 1;
        rest = later;
    }
    Ok(())
}

/// Returns a copy of the bytes of each of these files, each a path and its bytes, in their order.
///
/// # Errors
///
/// `OutOfMemory` if an allocation fails; nothing remains of the copies then.
pub fn first_contents(
    alloc: Global,
    files: &[(ByteText, ByteText)],
) -> Result<Vec<FileBytes>, OutOfMemory>
    ensures { IfOk result (λ contents. contents.items ≡ map (λ file. file.1) files.now) }
{
    let mut contents = Vec::with_capacity(alloc, files.len())?;
    for file in files {
        contents.push(FileBytes::new(Vec::from_slice(alloc, file.1.as_slice())?))?;
    }
    Ok(contents)
}
