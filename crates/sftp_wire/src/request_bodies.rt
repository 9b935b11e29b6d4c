//! Readers of requests (draft-ietf-secsh-filexfer-02, sections 4 and 6).
ghost use Rattle.std.specs.Prelude.{◌≡◌, Some, IfOk, IfErr};
ghost use Rattle.ssh_encoding.specs.declared.error.Error.TheVariants as encoding;
ghost use Rattle.sftp_model.specs.declared.request.Request.TheVariants as request;
ghost use Rattle.sftp_model.specs.Readings.{without_id};
ghost use Rattle.sftp_model.specs.RequestReadings.{init_at, open_at, read_at, write_at, one_text_at, two_texts_at, text_and_attributes_at, handles_of_request, request_at, extended_request_at};
ghost use Rattle.sftp_wire.specs.Reading.{GivesBody, after_id, to_end};

use crate::body_shapes::{one_handle, one_path, path_and_attributes, two_paths};
use crate::extension_bodies::extension;
use crate::field_readers::{attributes, finished, handle_of, long, number, shared_text, text};
use bitflags::Flags;
use bytes::Bytes;
use sftp_model::{Content, FormatKind, FrameError, OpenFlags, RemotePath, Request, numbers};
use ssh_encoding::{Decode, Reader};
use std::alloc::Global;

/// Reads the hello, which has no id.
#[tactic(auto, unfolding(sftp_model::specs::RequestReadings::init_at))]
fn init<R: Reader>(alloc: Global, reader: &mut R) -> Result<(Option<u32>, Request), FrameError>
    ensures { GivesBody result (to_end handles_of_request (without_id init_at (R.left reader.old))) }
{
    let version = number(alloc, reader)?;
    finished(reader)?;
    Ok((None, Request::Init { version }))
}

/// Reads OPEN.
#[tactic(auto, unfolding(sftp_model::specs::RequestReadings::open_at))]
fn open_file<R: Reader>(
    alloc: Global,
    id: u32,
    reader: &mut R,
) -> Result<(Option<u32>, Request), FrameError>
    ensures { GivesBody result (to_end handles_of_request (after_id (Some id) (open_at (R.left reader.old)))) }
{
    let path = text(alloc, reader)?;
    let flags = number(alloc, reader)?;
    let attrs = attributes(alloc, reader)?;
    finished(reader)?;
    Ok((
        Some(id),
        Request::OpenFile {
            path: RemotePath::new(path),
            flags: OpenFlags::from_bits_retain(flags),
            attrs,
        },
    ))
}

/// Reads READ.
#[tactic(auto, unfolding(sftp_model::specs::RequestReadings::read_at))]
fn read<R: Reader>(
    alloc: Global,
    id: u32,
    reader: &mut R,
) -> Result<(Option<u32>, Request), FrameError>
    ensures { GivesBody result (to_end handles_of_request (after_id (Some id) (read_at (R.left reader.old)))) }
{
    let handle = text(alloc, reader)?;
    let offset = long(alloc, reader)?;
    let len = number(alloc, reader)?;
    finished(reader)?;
    let handle = handle_of(&handle)?;
    Ok((
        Some(id),
        Request::Read {
            handle,
            offset,
            len,
        },
    ))
}

/// Returns bytes as the one piece of a content. Fails only if an allocation fails.
fn content_of(alloc: Global, bytes: Bytes) -> Result<Content, ssh_encoding::Error>
    ensures ok { IfOk result (λ content. content ≡ bytes) }
    ensures err { IfErr result (λ e. e ≡ encoding.OutOfMemory) }
{
    let mut content = Content::new(alloc);
    content.push(bytes)?;
    Ok(content)
}

/// Reads WRITE.
#[tactic(auto, unfolding(sftp_model::specs::RequestReadings::write_at))]
fn write<R: Reader>(
    alloc: Global,
    id: u32,
    reader: &mut R,
) -> Result<(Option<u32>, Request), FrameError>
    ensures { GivesBody result (to_end handles_of_request (after_id (Some id) (write_at (R.left reader.old)))) }
{
    let handle = text(alloc, reader)?;
    let offset = long(alloc, reader)?;
    let content = shared_text(alloc, reader)?;
    finished(reader)?;
    let handle = handle_of(&handle)?;
    let content = content_of(alloc, content)?;
    Ok((
        Some(id),
        Request::Write {
            handle,
            offset,
            content,
        },
    ))
}

/// Reads FSETSTAT.
#[tactic(auto, unfolding(sftp_model::specs::RequestReadings::text_and_attributes_at))]
fn fsetstat<R: Reader>(
    alloc: Global,
    id: u32,
    reader: &mut R,
) -> Result<(Option<u32>, Request), FrameError>
    ensures { GivesBody result (to_end handles_of_request (after_id (Some id) (text_and_attributes_at request.Fsetstat (R.left reader.old)))) }
{
    let handle = text(alloc, reader)?;
    let attrs = attributes(alloc, reader)?;
    finished(reader)?;
    let handle = handle_of(&handle)?;
    Ok((Some(id), Request::Fsetstat { handle, attrs }))
}

/// Reads CLOSE.
fn close<R: Reader>(
    alloc: Global,
    id: u32,
    reader: &mut R,
) -> Result<(Option<u32>, Request), FrameError>
    ensures { GivesBody result (to_end handles_of_request (after_id (Some id) (one_text_at request.Close (R.left reader.old)))) }
{
    let handle = one_handle(alloc, reader)?;
    Ok((Some(id), Request::Close { handle }))
}

/// Reads FSTAT.
fn fstat<R: Reader>(
    alloc: Global,
    id: u32,
    reader: &mut R,
) -> Result<(Option<u32>, Request), FrameError>
    ensures { GivesBody result (to_end handles_of_request (after_id (Some id) (one_text_at request.Fstat (R.left reader.old)))) }
{
    let handle = one_handle(alloc, reader)?;
    Ok((Some(id), Request::Fstat { handle }))
}

/// Reads READDIR.
fn readdir<R: Reader>(
    alloc: Global,
    id: u32,
    reader: &mut R,
) -> Result<(Option<u32>, Request), FrameError>
    ensures { GivesBody result (to_end handles_of_request (after_id (Some id) (one_text_at request.Readdir (R.left reader.old)))) }
{
    let handle = one_handle(alloc, reader)?;
    Ok((Some(id), Request::Readdir { handle }))
}

/// Reads LSTAT.
fn lstat<R: Reader>(
    alloc: Global,
    id: u32,
    reader: &mut R,
) -> Result<(Option<u32>, Request), FrameError>
    ensures { GivesBody result (to_end handles_of_request (after_id (Some id) (one_text_at request.Lstat (R.left reader.old)))) }
{
    let path = one_path(alloc, reader)?;
    Ok((Some(id), Request::Lstat { path }))
}

/// Reads OPENDIR.
fn opendir<R: Reader>(
    alloc: Global,
    id: u32,
    reader: &mut R,
) -> Result<(Option<u32>, Request), FrameError>
    ensures { GivesBody result (to_end handles_of_request (after_id (Some id) (one_text_at request.Opendir (R.left reader.old)))) }
{
    let path = one_path(alloc, reader)?;
    Ok((Some(id), Request::Opendir { path }))
}

/// Reads REMOVE.
fn remove<R: Reader>(
    alloc: Global,
    id: u32,
    reader: &mut R,
) -> Result<(Option<u32>, Request), FrameError>
    ensures { GivesBody result (to_end handles_of_request (after_id (Some id) (one_text_at request.Remove (R.left reader.old)))) }
{
    let path = one_path(alloc, reader)?;
    Ok((Some(id), Request::Remove { path }))
}

/// Reads RMDIR.
fn rmdir<R: Reader>(
    alloc: Global,
    id: u32,
    reader: &mut R,
) -> Result<(Option<u32>, Request), FrameError>
    ensures { GivesBody result (to_end handles_of_request (after_id (Some id) (one_text_at request.Rmdir (R.left reader.old)))) }
{
    let path = one_path(alloc, reader)?;
    Ok((Some(id), Request::Rmdir { path }))
}

/// Reads REALPATH.
fn realpath<R: Reader>(
    alloc: Global,
    id: u32,
    reader: &mut R,
) -> Result<(Option<u32>, Request), FrameError>
    ensures { GivesBody result (to_end handles_of_request (after_id (Some id) (one_text_at request.Realpath (R.left reader.old)))) }
{
    let path = one_path(alloc, reader)?;
    Ok((Some(id), Request::Realpath { path }))
}

/// Reads STAT.
fn stat<R: Reader>(
    alloc: Global,
    id: u32,
    reader: &mut R,
) -> Result<(Option<u32>, Request), FrameError>
    ensures { GivesBody result (to_end handles_of_request (after_id (Some id) (one_text_at request.Stat (R.left reader.old)))) }
{
    let path = one_path(alloc, reader)?;
    Ok((Some(id), Request::Stat { path }))
}

/// Reads READLINK.
fn readlink<R: Reader>(
    alloc: Global,
    id: u32,
    reader: &mut R,
) -> Result<(Option<u32>, Request), FrameError>
    ensures { GivesBody result (to_end handles_of_request (after_id (Some id) (one_text_at request.Readlink (R.left reader.old)))) }
{
    let path = one_path(alloc, reader)?;
    Ok((Some(id), Request::Readlink { path }))
}

/// Reads SETSTAT.
fn setstat<R: Reader>(
    alloc: Global,
    id: u32,
    reader: &mut R,
) -> Result<(Option<u32>, Request), FrameError>
    ensures { GivesBody result (to_end handles_of_request (after_id (Some id) (text_and_attributes_at request.Setstat (R.left reader.old)))) }
{
    let (path, attrs) = path_and_attributes(alloc, reader)?;
    Ok((Some(id), Request::Setstat { path, attrs }))
}

/// Reads MKDIR.
fn mkdir<R: Reader>(
    alloc: Global,
    id: u32,
    reader: &mut R,
) -> Result<(Option<u32>, Request), FrameError>
    ensures { GivesBody result (to_end handles_of_request (after_id (Some id) (text_and_attributes_at request.Mkdir (R.left reader.old)))) }
{
    let (path, attrs) = path_and_attributes(alloc, reader)?;
    Ok((Some(id), Request::Mkdir { path, attrs }))
}

/// Reads RENAME.
fn rename<R: Reader>(
    alloc: Global,
    id: u32,
    reader: &mut R,
) -> Result<(Option<u32>, Request), FrameError>
    ensures { GivesBody result (to_end handles_of_request (after_id (Some id) (two_texts_at request.Rename (R.left reader.old)))) }
{
    let (old, to) = two_paths(alloc, reader)?;
    Ok((Some(id), Request::Rename { old, to }))
}

/// Reads SYMLINK: the target of the link, and then the link.
fn symlink<R: Reader>(
    alloc: Global,
    id: u32,
    reader: &mut R,
) -> Result<(Option<u32>, Request), FrameError>
    ensures { GivesBody result (to_end handles_of_request (after_id (Some id) (two_texts_at request.Symlink (R.left reader.old)))) }
{
    let (src, dst) = two_paths(alloc, reader)?;
    Ok((Some(id), Request::Symlink { src, dst }))
}

/// Reads EXTENDED (section 8).
#[tactic(auto, unfolding(sftp_model::specs::RequestReadings::extended_request_at))]
fn extended<R: Reader>(
    alloc: Global,
    id: u32,
    reader: &mut R,
) -> Result<(Option<u32>, Request), FrameError>
    ensures { GivesBody result (to_end handles_of_request (after_id (Some id) (extended_request_at (R.left reader.old)))) }
{
    let name = text(alloc, reader)?;
    extension(alloc, id, &name, reader)
}

/// Reads the body of a request, and its id, which only the hello lacks. A count by itself allocates nothing.
///
/// # Errors
///
/// `Format` and `HandleTooLong` report the first thing that is wrong, starting at the first byte. A handle over
/// `MAX_HANDLE_LEN` is reported last (draft-ietf-secsh-filexfer-02, sections 3, 4, 6 and 8). An EXTENDED whose name is
/// not one of the six is `InvalidDiscriminant(SSH_FXP_EXTENDED)`. `OutOfMemory` may come in place of any result.
#[tactic(auto, unfolding(sftp_model::specs::RequestReadings::request_at, sftp_model::specs::RequestReadings::request_fields_at))]
pub fn read_request(alloc: Global, body: &[u8]) -> Result<(Option<u32>, Request), FrameError>
    ensures { GivesBody result (request_at body.now) }
{
    let mut reader = body;
    let kind = u8::decode(alloc, &mut reader)?;
    match kind {
        numbers::SSH_FXP_INIT => init(alloc, &mut reader),
        numbers::SSH_FXP_OPEN => open_file(alloc, number(alloc, &mut reader)?, &mut reader),
        numbers::SSH_FXP_CLOSE => close(alloc, number(alloc, &mut reader)?, &mut reader),
        numbers::SSH_FXP_READ => read(alloc, number(alloc, &mut reader)?, &mut reader),
        numbers::SSH_FXP_WRITE => write(alloc, number(alloc, &mut reader)?, &mut reader),
        numbers::SSH_FXP_LSTAT => lstat(alloc, number(alloc, &mut reader)?, &mut reader),
        numbers::SSH_FXP_FSTAT => fstat(alloc, number(alloc, &mut reader)?, &mut reader),
        numbers::SSH_FXP_SETSTAT => setstat(alloc, number(alloc, &mut reader)?, &mut reader),
        numbers::SSH_FXP_FSETSTAT => fsetstat(alloc, number(alloc, &mut reader)?, &mut reader),
        numbers::SSH_FXP_OPENDIR => opendir(alloc, number(alloc, &mut reader)?, &mut reader),
        numbers::SSH_FXP_READDIR => readdir(alloc, number(alloc, &mut reader)?, &mut reader),
        numbers::SSH_FXP_REMOVE => remove(alloc, number(alloc, &mut reader)?, &mut reader),
        numbers::SSH_FXP_MKDIR => mkdir(alloc, number(alloc, &mut reader)?, &mut reader),
        numbers::SSH_FXP_RMDIR => rmdir(alloc, number(alloc, &mut reader)?, &mut reader),
        numbers::SSH_FXP_REALPATH => realpath(alloc, number(alloc, &mut reader)?, &mut reader),
        numbers::SSH_FXP_STAT => stat(alloc, number(alloc, &mut reader)?, &mut reader),
        numbers::SSH_FXP_RENAME => rename(alloc, number(alloc, &mut reader)?, &mut reader),
        numbers::SSH_FXP_READLINK => readlink(alloc, number(alloc, &mut reader)?, &mut reader),
        numbers::SSH_FXP_SYMLINK => symlink(alloc, number(alloc, &mut reader)?, &mut reader),
        numbers::SSH_FXP_EXTENDED => extended(alloc, number(alloc, &mut reader)?, &mut reader),
        _ => Err(FrameError::Format(FormatKind::InvalidDiscriminant(kind))),
    }
}
