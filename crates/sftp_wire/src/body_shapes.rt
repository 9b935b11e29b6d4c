//! Readers of the fields that several requests share, up to the end of the body (draft-ietf-secsh-filexfer-02, section
//! 6).
ghost use Rattle.std.specs.Prelude.{◌≡◌, [], ◌∷◌, ℕ, List, Option};
ghost use Rattle.sftp_model.specs.declared.file_attrs.FileAttrs.{FileAttrs as AttributesSeen};
ghost use Rattle.sftp_model.specs.declared.request.Request.{Request as RequestSeen};
ghost use Rattle.sftp_model.specs.RequestReadings.{one_text_at, two_texts_at, text_and_attributes_at, handles_of_request};
ghost use Rattle.sftp_wire.specs.Reading.{GivesAs, after_id, to_end};

use crate::field_readers::{attributes, finished, handle_of, text};
use sftp_model::{FileAttrs, FrameError, Handle, RemotePath};
use ssh_encoding::Reader;
use std::alloc::Global;

/// Reads a path alone.
#[tactic(auto, unfolding(sftp_model::specs::RequestReadings::one_text_at))]
pub(crate) fn one_path<R: Reader>(alloc: Global, reader: &mut R) -> Result<RemotePath, FrameError>
    ensures { (made : List ℕ → RequestSeen) (id : Option ℕ) → ((path : List ℕ) → handles_of_request (made path) ≡ [])
        → GivesAs (λ path. (id, made path)) result (to_end handles_of_request (after_id id (one_text_at made (R.left reader.old)))) }
{
    let path = text(alloc, reader)?;
    finished(reader)?;
    Ok(RemotePath::new(path))
}

/// Reads a handle alone.
#[tactic(auto, unfolding(sftp_model::specs::RequestReadings::one_text_at))]
pub(crate) fn one_handle<R: Reader>(alloc: Global, reader: &mut R) -> Result<Handle, FrameError>
    ensures { (made : List ℕ → RequestSeen) (id : Option ℕ) → ((handle : List ℕ) → handles_of_request (made handle) ≡ handle ∷ [])
        → GivesAs (λ handle. (id, made handle)) result (to_end handles_of_request (after_id id (one_text_at made (R.left reader.old)))) }
{
    let handle = text(alloc, reader)?;
    finished(reader)?;
    handle_of(&handle)
}

/// Reads two paths.
#[tactic(auto, unfolding(sftp_model::specs::RequestReadings::two_texts_at))]
pub(crate) fn two_paths<R: Reader>(
    alloc: Global,
    reader: &mut R,
) -> Result<(RemotePath, RemotePath), FrameError>
    ensures { (made : List ℕ → List ℕ → RequestSeen) (id : Option ℕ) → ((first second : List ℕ) → handles_of_request (made first second) ≡ [])
        → GivesAs (λ paths. (id, made paths.0 paths.1)) result (to_end handles_of_request (after_id id (two_texts_at made (R.left reader.old)))) }
{
    let first = text(alloc, reader)?;
    let second = text(alloc, reader)?;
    finished(reader)?;
    Ok((RemotePath::new(first), RemotePath::new(second)))
}

/// Reads a path and attributes.
#[tactic(auto, unfolding(sftp_model::specs::RequestReadings::text_and_attributes_at))]
pub(crate) fn path_and_attributes<R: Reader>(
    alloc: Global,
    reader: &mut R,
) -> Result<(RemotePath, FileAttrs), FrameError>
    ensures { (made : List ℕ → AttributesSeen → RequestSeen) (id : Option ℕ) → ((path : List ℕ) (attrs : AttributesSeen) → handles_of_request (made path attrs) ≡ [])
        → GivesAs (λ read. (id, made read.0 read.1)) result (to_end handles_of_request (after_id id (text_and_attributes_at made (R.left reader.old)))) }
{
    let path = text(alloc, reader)?;
    let attrs = attributes(alloc, reader)?;
    finished(reader)?;
    Ok((RemotePath::new(path), attrs))
}
