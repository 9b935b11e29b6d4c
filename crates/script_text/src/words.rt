//! The words of requests, replies and refusals.
ghost use Rattle.std.specs.Prelude.{◌≡◌};
ghost use Rattle.script_text.specs.Texts.{request_word, reply_word, kind_name, extension_word};

use bitflags::Flags;
use sftp_model::{Extensions, IoKind, Reply, Request};

/// Returns the word of a request.
pub(crate) fn request_word(request: &Request) -> &'static str
    ensures { result.now ≡ request_word request.now }
{
    match request {
        Request::Init { .. } => "init",
        Request::OpenFile { .. } => "open",
        Request::Close { .. } => "close",
        Request::Read { .. } => "read",
        Request::Write { .. } => "write",
        Request::Lstat { .. } => "lstat",
        Request::Fstat { .. } => "fstat",
        Request::Setstat { .. } => "setstat",
        Request::Fsetstat { .. } => "fsetstat",
        Request::Opendir { .. } => "opendir",
        Request::Readdir { .. } => "readdir",
        Request::Remove { .. } => "remove",
        Request::Mkdir { .. } => "mkdir",
        Request::Rmdir { .. } => "rmdir",
        Request::Realpath { .. } => "realpath",
        Request::Stat { .. } => "stat",
        Request::Rename { .. } => "rename",
        Request::Readlink { .. } => "readlink",
        Request::Symlink { .. } => "symlink",
        Request::PosixRename { .. }
        | Request::Hardlink { .. }
        | Request::Fsync { .. }
        | Request::ExpandPath { .. }
        | Request::CopyData { .. }
        | Request::LimitsQuery => "extended",
    }
}

/// Returns the word of a reply.
pub(crate) fn reply_word(reply: &Reply) -> &'static str
    ensures { result.now ≡ reply_word reply.now }
{
    match reply {
        Reply::Version { .. } => "version",
        Reply::Status { .. } => "status",
        Reply::Handle(_) => "handle",
        Reply::Content(_) => "data",
        Reply::Names(_) => "name",
        Reply::Attrs(_) => "attrs",
        Reply::Extended(_) => "extended_reply",
    }
}

/// Returns the name of the error that the client found.
pub(crate) fn kind_name(kind: IoKind) -> &'static str
    ensures { result.now ≡ kind_name kind }
{
    match kind {
        IoKind::NotReadable => "NotReadable",
        IoKind::NotWritable => "NotWritable",
        IoKind::SeekFromEnd => "SeekFromEnd",
        IoKind::SeekOverflow => "SeekOverflow",
        IoKind::SeekUnderflow => "SeekUnderflow",
        IoKind::OffsetOverflow => "OffsetOverflow",
        IoKind::PathTooLong => "PathTooLong",
        IoKind::UnexpectedEof => "UnexpectedEof",
    }
}

/// Returns the word of a set that has one extension.
pub(crate) fn extension_word(extension: Extensions) -> &'static str
    ensures { result.now ≡ extension_word extension.0 }
{
    let bits = extension.bits();
    if bits == Extensions::POSIX_RENAME.bits() {
        "posix-rename"
    } else if bits == Extensions::HARDLINK.bits() {
        "hardlink"
    } else if bits == Extensions::FSYNC.bits() {
        "fsync"
    } else if bits == Extensions::EXPAND_PATH.bits() {
        "expand-path"
    } else if bits == Extensions::COPY_DATA.bits() {
        "copy-data"
    } else {
        "limits"
    }
}
