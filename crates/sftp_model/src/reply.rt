//! The replies of a server.
use crate::copy::TryCopy;
use crate::file_attrs::FileAttrs;
use crate::flags::Extensions;
use crate::handle::Handle;
use crate::remote_path::RemotePath;
use bytes::Bytes;
use sftp_values::{ByteText, Items};
use ssh_encoding::OutOfMemory;
use std::alloc::Global;

/// One entry of a NAME reply (draft-ietf-secsh-filexfer-02, section 7).
///
/// Used in `crates/machine_model/src/opened.rt`.
#[derive(Debug, Drop, PartialEq, Eq)]
pub struct NameEntry {
    /// The name of the file.
    pub filename: RemotePath,
    /// A line for a listing; its form is not specified.
    pub longname: ByteText,
    /// The attributes that the server reported.
    pub attrs: FileAttrs,
}

/// A reply of a server (draft-ietf-secsh-filexfer-02, sections 4 and 7).
///
/// Example: `crates/test_wire/src/wire/frames.rt`.
#[derive(Debug, Drop, PartialEq, Eq)]
pub enum Reply {
    /// VERSION, the reply to the hello. It has no id.
    Version {
        version: u32,
        extensions: Extensions,
    },
    /// STATUS.
    Status {
        code: u32,
        message: ByteText,
        language: ByteText,
    },
    /// HANDLE.
    Handle(Handle),
    /// DATA.
    Content(Bytes),
    /// NAME.
    Names(Items<NameEntry>),
    /// ATTRS.
    Attrs(FileAttrs),
    /// EXTENDED_REPLY: the bytes after the id.
    Extended(ByteText),
}

impl TryCopy for NameEntry {
    fn try_copy(&self, alloc: Global) -> Result<NameEntry, OutOfMemory> {
        Ok(NameEntry {
            filename: self.filename.try_copy(alloc)?,
            longname: self.longname.try_copy(alloc)?,
            attrs: self.attrs,
        })
    }
}

impl TryCopy for Reply {
    fn try_copy(&self, alloc: Global) -> Result<Reply, OutOfMemory> {
        match self {
            Reply::Version {
                version,
                extensions,
            } => Ok(Reply::Version {
                version: *version,
                extensions: *extensions,
            }),
            Reply::Status {
                code,
                message,
                language,
            } => Ok(Reply::Status {
                code: *code,
                message: message.try_copy(alloc)?,
                language: language.try_copy(alloc)?,
            }),
            Reply::Handle(handle) => Ok(Reply::Handle(handle.try_copy(alloc)?)),
            Reply::Content(content) => Ok(Reply::Content(content.try_copy(alloc)?)),
            Reply::Names(names) => Ok(Reply::Names(names.try_copy(alloc)?)),
            Reply::Attrs(attrs) => Ok(Reply::Attrs(*attrs)),
            Reply::Extended(content) => Ok(Reply::Extended(content.try_copy(alloc)?)),
        }
    }
}
