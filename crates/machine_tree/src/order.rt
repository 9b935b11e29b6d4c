//! Names by their number, and the counts of files and of directories.
ghost use Rattle.std.specs.Prelude.{◌≡◌, filter, length};
ghost use Rattle.std.specs.Option.{option_copied};
ghost use Rattle.machine_model.specs.Listing.{has_directory, has_file, is_file as is_file_by};
ghost use Rattle.machine_tree.specs.Places.{is_of_kind as is_of_kind_by, nth_of_kind as nth_by};

use crate::tree_name::TreeName;
use machine_model::Node;

/// Returns name number `k` of those with files, or of those with directories, counted from 0.
pub fn nth_of_kind(pairs: &[(TreeName, Node)], files: bool, k: u64) -> Option<&(TreeName, Node)>
    ensures { option_copied result ≡ nth_by files pairs.now k }
{
    let mut left = k;
    let mut rest = pairs;
    loop {
        match rest {
            [] => return None,
            [pair, later @ ..] => {
                if is_of_kind(pair.1, files) {
                    if left == 0 {
                        return Some(pair);
                    }
                    left -= 1;
                }
                rest = later;
            }
        }
    }
}

/// Returns true for a file if `files` is true, and for a directory otherwise.
fn is_of_kind(node: Node, files: bool) -> bool
    ensures { result ≡ is_of_kind_by files node }
{
    if files { is_file(node) } else { !is_file(node) }
}

/// Returns true if it is a file.
fn is_file(node: Node) -> bool
    ensures { result ≡ is_file_by node }
{
    match node {
        Node::Directory => false,
        Node::File(_) => true,
    }
}

/// Returns how many of these names have a file.
pub fn count_files(pairs: &[(TreeName, Node)]) -> u64
    ensures { result ≡ length (filter has_file pairs.now) }
{
    let mut count = 0u64;
    for pair in pairs {
        if is_file(pair.1) {
            count += 1;
        }
    }
    count
}

/// Returns how many of these names have a directory.
pub fn count_directories(pairs: &[(TreeName, Node)]) -> u64
    ensures { result ≡ length (filter has_directory pairs.now) }
{
    let mut count = 0u64;
    for pair in pairs {
        if !is_file(pair.1) {
            count += 1;
        }
    }
    count
}
