//! The fields of an EXTENDED after its name (OpenSSH's PROTOCOL, section 4; `copy-data` belongs to
//! draft-ietf-secsh-filexfer-extensions-00, section 7).
ghost use Rattle.std.specs.Prelude.{Some};
ghost use Rattle.sftp_model.specs.declared.request.Request.TheVariants as request;
ghost use Rattle.sftp_model.specs.RequestReadings.{two_texts_at, one_text_at, copy_data_at, extension_fields_at, handles_of_request};
ghost use Rattle.sftp_wire.specs.Reading.{GivesBody, after_id, to_end};

use crate::body_shapes::{one_handle, one_path, two_paths};
use crate::field_readers::{finished, handle_of, long, text};
use crate::names;
use sftp_model::{FormatKind, FrameError, Request, numbers};
use ssh_encoding::Reader;
use std::alloc::Global;

fn posix_rename<R: Reader>(
    alloc: Global,
    id: u32,
    reader: &mut R,
) -> Result<(Option<u32>, Request), FrameError>
    ensures { GivesBody result (to_end handles_of_request (after_id (Some id) (two_texts_at request.PosixRename (R.left reader.old)))) }
{
    let (old, to) = two_paths(alloc, reader)?;
    Ok((Some(id), Request::PosixRename { old, to }))
}

fn hardlink<R: Reader>(
    alloc: Global,
    id: u32,
    reader: &mut R,
) -> Result<(Option<u32>, Request), FrameError>
    ensures { GivesBody result (to_end handles_of_request (after_id (Some id) (two_texts_at request.Hardlink (R.left reader.old)))) }
{
    let (old, to) = two_paths(alloc, reader)?;
    Ok((Some(id), Request::Hardlink { old, to }))
}

fn fsync<R: Reader>(
    alloc: Global,
    id: u32,
    reader: &mut R,
) -> Result<(Option<u32>, Request), FrameError>
    ensures { GivesBody result (to_end handles_of_request (after_id (Some id) (one_text_at request.Fsync (R.left reader.old)))) }
{
    let handle = one_handle(alloc, reader)?;
    Ok((Some(id), Request::Fsync { handle }))
}

fn expand_path<R: Reader>(
    alloc: Global,
    id: u32,
    reader: &mut R,
) -> Result<(Option<u32>, Request), FrameError>
    ensures { GivesBody result (to_end handles_of_request (after_id (Some id) (one_text_at request.ExpandPath (R.left reader.old)))) }
{
    let path = one_path(alloc, reader)?;
    Ok((Some(id), Request::ExpandPath { path }))
}

#[tactic(auto, unfolding(sftp_model::specs::RequestReadings::copy_data_at))]
fn copy_data<R: Reader>(
    alloc: Global,
    id: u32,
    reader: &mut R,
) -> Result<(Option<u32>, Request), FrameError>
    ensures { GivesBody result (to_end handles_of_request (after_id (Some id) (copy_data_at (R.left reader.old)))) }
{
    let from = text(alloc, reader)?;
    let from_offset = long(alloc, reader)?;
    let len = long(alloc, reader)?;
    let to = text(alloc, reader)?;
    let to_offset = long(alloc, reader)?;
    finished(reader)?;
    let from = handle_of(&from)?;
    let to = handle_of(&to)?;
    Ok((
        Some(id),
        Request::CopyData {
            from,
            from_offset,
            len,
            to,
            to_offset,
        },
    ))
}

/// Reads the fields after the name of an extension. A name that is not one of the six is
/// `InvalidDiscriminant(SSH_FXP_EXTENDED)`.
#[tactic(auto, unfolding(sftp_model::specs::RequestReadings::extension_fields_at))]
pub(crate) fn extension<R: Reader>(
    alloc: Global,
    id: u32,
    name: &[u8],
    reader: &mut R,
) -> Result<(Option<u32>, Request), FrameError>
    ensures { GivesBody result (to_end handles_of_request (after_id (Some id) (extension_fields_at name.now (R.left reader.old)))) }
{
    if name == names::POSIX_RENAME {
        posix_rename(alloc, id, reader)
    } else if name == names::HARDLINK {
        hardlink(alloc, id, reader)
    } else if name == names::FSYNC {
        fsync(alloc, id, reader)
    } else if name == names::EXPAND_PATH {
        expand_path(alloc, id, reader)
    } else if name == names::COPY_DATA {
        copy_data(alloc, id, reader)
    } else if name == names::LIMITS {
        finished(reader)?;
        Ok((Some(id), Request::LimitsQuery))
    } else {
        Err(FrameError::Format(FormatKind::InvalidDiscriminant(numbers::SSH_FXP_EXTENDED)))
    }
}
