//! The files and directories of names.
/// The file or directory of a name.
///
/// Used in `crates/machine_tree/src/order.rt`.
#[derive(Clone, Copy, Debug, PartialEq, Eq)]
pub enum Node {
    /// A directory.
    Directory,
    /// A file, by its number.
    File(u64),
}
