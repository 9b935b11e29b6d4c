//! Checks of the files and directories that a server may start with.
ghost use Rattle.std.specs.Prelude.{◌≡◌, ◌&&◌, ◌-◌, ◌^◌, map, length, min, nat_le, IfOk};
ghost use Rattle.std.specs.List.{list_all, list_any, sum_by};
ghost use Rattle.machine_model.specs.Components.{components as components_by, is_within as is_within_by, same_name};
ghost use Rattle.machine_model.specs.FirstTree.{are_apart as are_apart_by, differ as differ_by, leave_room as leave_room_by, may_be_named as may_be_named_by, may_begin as may_begin_by, may_hold as may_hold_by, may_hold_all as may_hold_all_by, name_of, stand_apart as stand_apart_by};

use crate::first_tree::names_of;
use crate::lookups::is_within;
use crate::tree_name::walk;
use machine_model::limits::{MAX_COMPONENT_LEN, MAX_FILE_LEN, MAX_TOTAL_LEN};
use sftp_values::{ByteText, Items};
use ssh_encoding::OutOfMemory;
use std::alloc::Global;

/// Returns true if a server may start with these files, each a path and its bytes, and these directories, each a path.
/// A directory may be listed or come as a parent, so its own parents need not be listed.
///
/// It returns false in each of these cases:
///
/// - A file has more than `MAX_FILE_LEN` bytes, or all together have more than `MAX_TOTAL_LEN`.
/// - A path denotes the root, or a component of its name has more than `MAX_COMPONENT_LEN` bytes.
/// - Two files or two directories have one name.
/// - A directory has a file's name, or a name lies within a file's.
///
/// # Errors
///
/// `OutOfMemory` if an allocation fails; nothing remains of the check then.
pub fn may_begin(
    alloc: Global,
    files: &[(ByteText, ByteText)],
    dirs: &[ByteText],
) -> Result<bool, OutOfMemory>
    ensures { IfOk result (λ b. b ≡ may_begin_by files.now dirs.now) }
{
    let file_names = file_names(alloc, files)?;
    let dir_names = names_of(alloc, dirs)?;
    Ok(may_hold(files) && may_hold_all(files) && may_stand(&file_names, &dir_names))
}

/// Returns the names of files. Fails only if an allocation fails.
fn file_names(
    alloc: Global,
    files: &[(ByteText, ByteText)],
) -> Result<Vec<Items<ByteText>>, OutOfMemory>
    ensures { IfOk result (λ names. names.items ≡ map name_of files.now) }
{
    let mut names = Vec::with_capacity(alloc, files.len())?;
    for file in files {
        names.push(Items::new(walk(alloc, file.0.as_slice())?))?;
    }
    Ok(names)
}

/// Returns true if each of these files is within the limit of one file.
fn may_hold(files: &[(ByteText, ByteText)]) -> bool
    ensures { result ≡ list_all may_hold_by files.now }
{
    files
        .iter()
        .all(|file| file.1.as_slice().len() as u64 <= MAX_FILE_LEN)
}

/// Returns true if these files together are within their limit.
fn may_hold_all(files: &[(ByteText, ByteText)]) -> bool
    ensures { result ≡ may_hold_all_by files.now }
{
    total_len(files) <= MAX_TOTAL_LEN
}

/// Returns the number of bytes of these files, or the greatest number if there are more.
fn total_len(files: &[(ByteText, ByteText)]) -> u64
    ensures { result ≡ min (sum_by (λ file. length file.1) files.now) (2 ^ 64 - 1) }
{
    let mut sum = 0u64;
    for file in files {
        sum = sum.saturating_add(file.1.as_slice().len() as u64);
    }
    sum
}

/// Returns true if these may be the names of files and of directories.
fn may_stand(files: &[Items<ByteText>], dirs: &[Items<ByteText>]) -> bool
    ensures { result ≡ (list_all may_be_named_by files.now && list_all may_be_named_by dirs.now
        && differ_by dirs.now && stand_apart_by files.now && leave_room_by files.now dirs.now) }
{
    may_be_named_all(files)
        && may_be_named_all(dirs)
        && differ(dirs)
        && stand_apart(files)
        && leave_room(files, dirs)
}

/// Returns true if each of these names may be one of a file or a directory.
fn may_be_named_all(names: &[Items<ByteText>]) -> bool
    ensures { result ≡ list_all may_be_named_by names.now }
{
    names.iter().all(|name| may_be_named(name.as_slice()))
}

/// Returns true if a name is not the root, and none of its components is too long.
fn may_be_named(name: &[ByteText]) -> bool
    ensures { result ≡ may_be_named_by name.now }
{
    !name.is_empty() && are_short(name)
}

/// Returns true if none of these components is too long.
fn are_short(parts: &[ByteText]) -> bool
    ensures { result ≡ list_all (λ part. nat_le (length part) MAX_COMPONENT_LEN) parts.now }
{
    parts
        .iter()
        .all(|part| part.as_slice().len() <= MAX_COMPONENT_LEN)
}

/// Returns true if no two of these names are the same.
fn differ(names: &[Items<ByteText>]) -> bool
    ensures { result ≡ differ_by names.now }
{
    let mut rest = names;
    loop {
        match rest {
            [] => return true,
            [name, later @ ..] => {
                if is_among(name.as_slice(), later) {
                    return false;
                }
                rest = later;
            }
        }
    }
}

/// Returns true if a name is one of these.
fn is_among(name: &[ByteText], names: &[Items<ByteText>]) -> bool
    ensures { result ≡ list_any (same_name name.now) names.now }
{
    names.iter().any(|other| name == other.as_slice())
}

/// Returns true if of each two of these names neither is the same as the other or lies within it.
fn stand_apart(names: &[Items<ByteText>]) -> bool
    ensures { result ≡ stand_apart_by names.now }
{
    let mut rest = names;
    loop {
        match rest {
            [] => return true,
            [name, later @ ..] => {
                if !is_apart(name.as_slice(), later) {
                    return false;
                }
                rest = later;
            }
        }
    }
}

/// Returns true if a name is apart from each of these.
fn is_apart(name: &[ByteText], names: &[Items<ByteText>]) -> bool
    ensures { result ≡ list_all (are_apart_by name.now) names.now }
{
    names.iter().all(|other| are_apart(name, other.as_slice()))
}

/// Returns true if neither of two names is the same as the other or lies within it.
fn are_apart(a: &[ByteText], b: &[ByteText]) -> bool
    ensures { result ≡ are_apart_by a.now b.now }
{
    !(is_within(a, b) || is_within(b, a))
}

/// Returns true if no directory has a file's name or lies within it.
fn leave_room(files: &[Items<ByteText>], dirs: &[Items<ByteText>]) -> bool
    ensures { result ≡ leave_room_by files.now dirs.now }
{
    files.iter().all(|file| !has_within(file.as_slice(), dirs))
}

/// Returns true if one of these names is the given one or lies within it.
fn has_within(name: &[ByteText], names: &[Items<ByteText>]) -> bool
    ensures { result ≡ list_any (is_within_by name.now) names.now }
{
    names.iter().any(|other| is_within(name, other.as_slice()))
}
