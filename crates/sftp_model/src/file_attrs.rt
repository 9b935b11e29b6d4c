//! The attributes of a file.
/// The attributes of a file, each `None` if it is not known (draft-ietf-secsh-filexfer-02, section 5).
///
/// Example: `crates/test_wire/src/metadata.rt`.
#[derive(Clone, Copy, Debug, PartialEq, Eq)]
pub struct FileAttrs {
    /// The size in bytes.
    pub size: Option<u64>,
    /// The numeric ids of the user and the group.
    pub id: Option<(u32, u32)>,
    /// The type and permissions, as POSIX's `st_mode`.
    pub permissions: Option<u32>,
    /// The times of the last access and the last change, in seconds since 1970.
    pub time: Option<(u32, u32)>,
}
