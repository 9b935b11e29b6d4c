//! The metadata that a server reports of a file.
ghost use Rattle.std.specs.Prelude.{◌≡◌, option_map, option_and_then};
ghost use Rattle.sftp_meta.specs.FileType.{type_of_mode};
ghost use Rattle.sftp_model.specs.Readings.{permission_bits};

use crate::file_type::FileType;
use crate::permissions::Permissions;
use crate::unix_timestamp::UnixTimeStamp;
use sftp_model::FileAttrs;
use std::marker::Model;

/// The metadata that a server reports of a file, each part only if the server reported it
/// (draft-ietf-secsh-filexfer-02, section 5). A contract sees the attributes.
///
/// Example: `crates/test_wire/src/metadata.rt`.
#[derive(Clone, Copy, Debug, PartialEq, Eq)]
pub struct MetaData(FileAttrs);

impl Model for MetaData {
    ghost use Rattle.sftp_model.specs.declared.file_attrs.FileAttrs.{FileAttrs};

    ghost Value = { FileAttrs };

    ghost view = { λ m. m.0 };

    ghost inverse = { λ attrs. record { 0 = attrs } };
}

impl MetaData {
    /// Creates the metadata of these attributes.
    pub fn new(attrs: FileAttrs) -> MetaData
        ensures { result ≡ attrs }
    {
        MetaData(attrs)
    }

    /// Returns the attributes, as they were passed to `new`.
    pub fn into_inner(self) -> FileAttrs
        ensures { result ≡ self }
    {
        self.0
    }

    /// Returns the length of the file, in bytes.
    pub fn len(&self) -> Option<u64>
        ensures { result ≡ self.now.size }
    {
        self.0.size
    }

    /// Returns the numeric id of the user who owns the file.
    pub fn uid(&self) -> Option<u32>
        ensures { result ≡ option_map (λ id. id.0) self.now.id }
    {
        self.0.id.map(|(uid, _)| uid)
    }

    /// Returns the numeric id of the group that owns the file.
    pub fn gid(&self) -> Option<u32>
        ensures { result ≡ option_map (λ id. id.1) self.now.id }
    {
        self.0.id.map(|(_, gid)| gid)
    }

    /// Returns the permissions, without the kind of file.
    pub fn permissions(&self) -> Option<Permissions>
        ensures { result ≡ option_map permission_bits self.now.permissions }
    {
        self.0.permissions.map(Permissions::of_mode)
    }

    /// Returns the kind of file. The result is also `None` if the bits `0o170000` of the `st_mode` are those of no
    /// kind.
    pub fn file_type(&self) -> Option<FileType>
        ensures { result ≡ option_and_then type_of_mode self.now.permissions }
    {
        self.0.permissions.and_then(FileType::of_mode)
    }

    /// Returns the time of the last read of the file.
    pub fn accessed(&self) -> Option<UnixTimeStamp>
        ensures { result ≡ option_map (λ time. time.0) self.now.time }
    {
        self.0
            .time
            .map(|(accessed, _)| UnixTimeStamp::of_raw(accessed))
    }

    /// Returns the time of the last write to the file.
    pub fn modified(&self) -> Option<UnixTimeStamp>
        ensures { result ≡ option_map (λ time. time.1) self.now.time }
    {
        self.0
            .time
            .map(|(_, modified)| UnixTimeStamp::of_raw(modified))
    }
}
