//! A builder of metadata.
ghost use Rattle.std.specs.Prelude.{◌≡◌, Some};
ghost use Rattle.sftp_model.specs.Frames.{no_attributes};

use crate::metadata::MetaData;
use crate::permissions::Permissions;
use crate::unix_timestamp::UnixTimeStamp;
use sftp_model::FileAttrs;
use std::marker::Model;

/// A builder that makes a `MetaData` part by part. A contract sees the attributes that were set so far. Each call
/// except `create` returns the builder that it changed, so that calls can be chained.
///
/// Example: `crates/sftp_fs/src/directory_builder.rt`.
#[derive(Clone, Copy, Debug)]
pub struct MetaDataBuilder(FileAttrs);

impl Model for MetaDataBuilder {
    ghost use Rattle.sftp_model.specs.declared.file_attrs.FileAttrs.{FileAttrs};

    ghost Value = { FileAttrs };

    ghost view = { λ b. b.0 };

    ghost inverse = { λ attrs. record { 0 = attrs } };
}

impl MetaDataBuilder {
    /// Creates a builder with nothing set.
    pub fn new() -> MetaDataBuilder
        ensures { result ≡ no_attributes }
    {
        MetaDataBuilder(FileAttrs {
            size: None,
            id: None,
            permissions: None,
            time: None,
        })
    }

    /// Resets everything that was set.
    pub fn reset(&mut self) -> &mut MetaDataBuilder
        ensures same_reference { result.ghost_name ≡ self.entry.ghost_name }
        ensures value { result.now ≡ no_attributes }
    {
        *self = MetaDataBuilder::new();
        self
    }

    /// Sets the numeric ids of the user and of the group who own the file.
    pub fn id(&mut self, id: (u32, u32)) -> &mut MetaDataBuilder
        ensures same_reference { result.ghost_name ≡ self.entry.ghost_name }
        ensures value { result.now ≡ record self.old { id = Some id } }
    {
        self.0.id = Some(id);
        self
    }

    /// Sets the permissions. The kind of file stays unspecified.
    pub fn permissions(&mut self, permissions: Permissions) -> &mut MetaDataBuilder
        ensures same_reference { result.ghost_name ≡ self.entry.ghost_name }
        ensures value { result.now ≡ record self.old { permissions = Some permissions } }
    {
        self.0.permissions = Some(permissions.as_raw().bits());
        self
    }

    /// Sets the length of the file, in bytes.
    pub fn len(&mut self, len: u64) -> &mut MetaDataBuilder
        ensures same_reference { result.ghost_name ≡ self.entry.ghost_name }
        ensures value { result.now ≡ record self.old { size = Some len } }
    {
        self.0.size = Some(len);
        self
    }

    /// Sets the times of the last read and the last write of the file.
    pub fn time(&mut self, accessed: UnixTimeStamp, modified: UnixTimeStamp) -> &mut MetaDataBuilder
        ensures same_reference { result.ghost_name ≡ self.entry.ghost_name }
        ensures value { result.now ≡ record self.old { time = Some (accessed, modified) } }
    {
        self.0.time = Some((accessed.into_raw(), modified.into_raw()));
        self
    }

    /// Returns the metadata that was set so far.
    pub fn create(&self) -> MetaData
        ensures { result ≡ self.now }
    {
        MetaData::new(self.0)
    }
}

impl Default for MetaDataBuilder {
    ghost is_default = { λ b. b ≡ no_attributes };

    /// Returns a builder with nothing set.
    fn default() -> MetaDataBuilder {
        MetaDataBuilder::new()
    }
}
