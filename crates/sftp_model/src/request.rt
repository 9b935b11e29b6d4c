//! The requests of a client.
use crate::content::Content;
use crate::copy::TryCopy;
use crate::file_attrs::FileAttrs;
use crate::flags::OpenFlags;
use crate::handle::Handle;
use crate::remote_path::RemotePath;
use ssh_encoding::OutOfMemory;
use std::alloc::Global;

/// A request of a client (draft-ietf-secsh-filexfer-02, sections 4 and 6; the last six are extensions of OpenSSH's
/// PROTOCOL, section 4).
///
/// Example: `crates/example_encoding/src/frames.rt`.
#[derive(Debug, Drop, PartialEq, Eq)]
pub enum Request {
    /// The hello. It has no id.
    Init {
        version: u32,
    },
    /// OPEN.
    OpenFile {
        path: RemotePath,
        flags: OpenFlags,
        attrs: FileAttrs,
    },
    /// CLOSE, of a file or a directory.
    Close {
        handle: Handle,
    },
    /// READ of at most `len` bytes at `offset`.
    Read {
        handle: Handle,
        offset: u64,
        len: u32,
    },
    /// WRITE at `offset`.
    Write {
        handle: Handle,
        offset: u64,
        content: Content,
    },
    /// LSTAT: the attributes of a path; for a link, those of the link itself.
    Lstat {
        path: RemotePath,
    },
    /// FSTAT.
    Fstat {
        handle: Handle,
    },
    /// SETSTAT.
    Setstat {
        path: RemotePath,
        attrs: FileAttrs,
    },
    /// FSETSTAT.
    Fsetstat {
        handle: Handle,
        attrs: FileAttrs,
    },
    /// OPENDIR.
    Opendir {
        path: RemotePath,
    },
    /// READDIR: further entries of an open directory.
    Readdir {
        handle: Handle,
    },
    /// REMOVE.
    Remove {
        path: RemotePath,
    },
    /// MKDIR.
    Mkdir {
        path: RemotePath,
        attrs: FileAttrs,
    },
    /// RMDIR.
    Rmdir {
        path: RemotePath,
    },
    /// REALPATH.
    Realpath {
        path: RemotePath,
    },
    /// STAT: the attributes of a path; for a link, those of its target.
    Stat {
        path: RemotePath,
    },
    /// RENAME.
    Rename {
        old: RemotePath,
        to: RemotePath,
    },
    /// READLINK.
    Readlink {
        path: RemotePath,
    },
    /// SYMLINK. `src` is the target of the link `dst`. It is sent first, as OpenSSH reads it.
    Symlink {
        src: RemotePath,
        dst: RemotePath,
    },
    /// `posix-rename@openssh.com`.
    PosixRename {
        old: RemotePath,
        to: RemotePath,
    },
    /// `hardlink@openssh.com`.
    Hardlink {
        old: RemotePath,
        to: RemotePath,
    },
    /// `fsync@openssh.com`.
    Fsync {
        handle: Handle,
    },
    /// `expand-path@openssh.com`.
    ExpandPath {
        path: RemotePath,
    },
    /// `copy-data`. A length of 0 means up to the end.
    CopyData {
        from: Handle,
        from_offset: u64,
        len: u64,
        to: Handle,
        to_offset: u64,
    },
    /// `limits@openssh.com`.
    LimitsQuery,
}

impl TryCopy for Request {
    fn try_copy(&self, alloc: Global) -> Result<Request, OutOfMemory> {
        match self {
            Request::Init { version } => Ok(Request::Init { version: *version }),
            Request::OpenFile { path, flags, attrs } => Ok(Request::OpenFile {
                path: path.try_copy(alloc)?,
                flags: *flags,
                attrs: *attrs,
            }),
            Request::Close { handle } => Ok(Request::Close {
                handle: handle.try_copy(alloc)?,
            }),
            Request::Read {
                handle,
                offset,
                len,
            } => Ok(Request::Read {
                handle: handle.try_copy(alloc)?,
                offset: *offset,
                len: *len,
            }),
            Request::Write {
                handle,
                offset,
                content,
            } => Ok(Request::Write {
                handle: handle.try_copy(alloc)?,
                offset: *offset,
                content: content.try_copy(alloc)?,
            }),
            Request::Lstat { path } => Ok(Request::Lstat {
                path: path.try_copy(alloc)?,
            }),
            Request::Fstat { handle } => Ok(Request::Fstat {
                handle: handle.try_copy(alloc)?,
            }),
            Request::Setstat { path, attrs } => Ok(Request::Setstat {
                path: path.try_copy(alloc)?,
                attrs: *attrs,
            }),
            Request::Fsetstat { handle, attrs } => Ok(Request::Fsetstat {
                handle: handle.try_copy(alloc)?,
                attrs: *attrs,
            }),
            Request::Opendir { path } => Ok(Request::Opendir {
                path: path.try_copy(alloc)?,
            }),
            Request::Readdir { handle } => Ok(Request::Readdir {
                handle: handle.try_copy(alloc)?,
            }),
            Request::Remove { path } => Ok(Request::Remove {
                path: path.try_copy(alloc)?,
            }),
            Request::Mkdir { path, attrs } => Ok(Request::Mkdir {
                path: path.try_copy(alloc)?,
                attrs: *attrs,
            }),
            Request::Rmdir { path } => Ok(Request::Rmdir {
                path: path.try_copy(alloc)?,
            }),
            Request::Realpath { path } => Ok(Request::Realpath {
                path: path.try_copy(alloc)?,
            }),
            Request::Stat { path } => Ok(Request::Stat {
                path: path.try_copy(alloc)?,
            }),
            Request::Rename { old, to } => Ok(Request::Rename {
                old: old.try_copy(alloc)?,
                to: to.try_copy(alloc)?,
            }),
            Request::Readlink { path } => Ok(Request::Readlink {
                path: path.try_copy(alloc)?,
            }),
            Request::Symlink { src, dst } => Ok(Request::Symlink {
                src: src.try_copy(alloc)?,
                dst: dst.try_copy(alloc)?,
            }),
            Request::PosixRename { old, to } => Ok(Request::PosixRename {
                old: old.try_copy(alloc)?,
                to: to.try_copy(alloc)?,
            }),
            Request::Hardlink { old, to } => Ok(Request::Hardlink {
                old: old.try_copy(alloc)?,
                to: to.try_copy(alloc)?,
            }),
            Request::Fsync { handle } => Ok(Request::Fsync {
                handle: handle.try_copy(alloc)?,
            }),
            Request::ExpandPath { path } => Ok(Request::ExpandPath {
                path: path.try_copy(alloc)?,
            }),
            Request::CopyData {
                from,
                from_offset,
                len,
                to,
                to_offset,
            } => Ok(Request::CopyData {
                from: from.try_copy(alloc)?,
                from_offset: *from_offset,
                len: *len,
                to: to.try_copy(alloc)?,
                to_offset: *to_offset,
            }),
            Request::LimitsQuery => Ok(Request::LimitsQuery),
        }
    }
}
