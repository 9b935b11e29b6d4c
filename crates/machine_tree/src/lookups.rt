//! Lookups among names.
ghost use Rattle.std.specs.Prelude.{◌≡◌, ◌<◌, Some, None, length, false, MatchOption, ◌+◌, ◌-◌, min, ◌^◌};
ghost use Rattle.std.specs.List.{remove, list_any, sum_by};
ghost use Rattle.machine_model.specs.Components.{same_name, is_long_name as is_long_by, is_child as is_child_by, is_within as is_within_by};
ghost use Rattle.machine_model.specs.NameRequests.{is_before as is_before_by};
ghost use Rattle.machine_model.specs.FileTree.{value_at_key, without_key, names_file, is_directory as is_directory_by};

use crate::file_bytes::FileBytes;
use crate::tree_name::TreeName;
use machine_model::Node;
use machine_model::limits::MAX_COMPONENT_LEN;
use sftp_values::ByteText;

/// Returns the index of a name.
pub(crate) fn name_index(pairs: &[(TreeName, Node)], name: &[ByteText]) -> Option<usize>
    ensures { MatchOption result (without_key same_name pairs.now name.now ≡ pairs.now)
        (λ i. (i < length pairs.now) × (remove pairs.now i ≡ without_key same_name pairs.now name.now)) }
{
    let mut index = 0;
    while index < pairs.len() {
        if pairs[index].0.parts() == name {
            return Some(index);
        }
        index += 1;
    }
    None
}

/// Returns true if a node is the file of a number.
fn has_file(file: u64, node: Node) -> bool
    ensures { result ≡ names_file file node }
{
    match node {
        Node::Directory => false,
        Node::File(n) => n == file,
    }
}

/// Returns true if a name has the file.
pub fn is_named(pairs: &[(TreeName, Node)], file: u64) -> bool
    ensures { result ≡ list_any (λ pair. names_file file pair.1) pairs.now }
{
    let mut rest = pairs;
    loop {
        match rest {
            [] => return false,
            [pair, later @ ..] => {
                if has_file(file, pair.1) {
                    return true;
                }
                rest = later;
            }
        }
    }
}

/// Returns true if some name lies directly in a directory.
pub fn has_child(pairs: &[(TreeName, Node)], directory: &[ByteText]) -> bool
    ensures { result ≡ list_any (λ pair. is_child_by directory.now pair.0) pairs.now }
{
    let mut rest = pairs;
    loop {
        match rest {
            [] => return false,
            [pair, later @ ..] => {
                if is_child(directory, pair.0.parts()) {
                    return true;
                }
                rest = later;
            }
        }
    }
}

/// Returns true if a name is the directory's or lies beneath it.
pub fn is_within(directory: &[ByteText], name: &[ByteText]) -> bool
    ensures { result ≡ is_within_by directory.now name.now }
{
    name.starts_with(directory)
}

/// Returns true if a name lies directly in a directory.
pub fn is_child(directory: &[ByteText], name: &[ByteText]) -> bool
    ensures { result ≡ is_child_by directory.now name.now }
{
    if name.len() == directory.len() + 1 {
        is_within(directory, name)
    } else {
        false
    }
}

/// Returns true if the last component is too long.
pub fn is_long(name: &[ByteText]) -> bool
    ensures { result ≡ is_long_by name.now }
{
    match name.last() {
        Some(part) => part.as_slice().len() > MAX_COMPONENT_LEN,
        None => false,
    }
}

/// Returns true if the node is a directory.
pub fn is_directory(node: Option<Node>) -> bool
    ensures { result ≡ is_directory_by node }
{
    match node {
        Some(Node::Directory) => true,
        _ => false,
    }
}

/// Returns the number of bytes of all files, or the greatest number if there are more.
pub fn all_bytes(files: &[FileBytes]) -> u64
    ensures { result ≡ min (sum_by length files.now) (2 ^ 64 - 1) }
{
    let mut sum = 0u64;
    for file in files {
        sum = sum.saturating_add(file.as_slice().len() as u64);
    }
    sum
}

/// Returns true if bytes come before others.
pub fn is_before(bytes: &[u8], others: &[u8]) -> bool
    ensures { result ≡ is_before_by bytes.now others.now }
{
    bytes < others
}
