//! Files as streams, with several requests under way at once.
ghost use Rattle.std.specs.Prelude.{◌≡◌, ◌≤◌, false, length, IfOk, IsSome, OnOk};
ghost use Rattle.sftp_core.specs.Info.{info_of};
ghost use Rattle.plan_state.specs.Keeping.{KeepsHeld};
ghost use Rattle.sftp_streams.specs.Downloads.{MayRead, content_kind};
ghost use Rattle.sftp_streams.specs.Parts.{AreAwaited};
ghost use Rattle.sftp_streams.specs.Uploads.{MayWrite, status_kind};

use crate::server::Session;
use bytes::Bytes;
use sftp_client::{Ended, Error, File, Poll};
use sftp_streams::{Download, Upload};
use std::alloc::Global;

/// Sends what is queued, and takes a frame if one is awaited.
pub(crate) fn round(sftp: &mut Session) -> Result<(), Error>
    requires { IsSome (info_of sftp.old.core.phase) }
    ensures { KeepsHeld sftp.old.core sftp.new.core }
{
    sftp.flush()?;
    sftp.take()?;
    Ok(())
}

/// Appends bytes to others.
fn append(got: &mut Vec<u8>, bytes: &[u8]) -> Result<(), Error> {
    match got.extend_from_slice(bytes) {
        Ok(()) => Ok(()),
        Err(_) => Err(Error::OutOfMemory),
    }
}

/// Appends the bytes that a poll of a download returned to those that came.
fn take_part(answer: Result<Option<Bytes>, Error>, got: &mut Vec<u8>) -> Result<(), Error> {
    match answer? {
        Some(bytes) => append(got, &bytes),
        None => Ok(()),
    }
}

/// Polls a download, and appends its bytes to those that came. Returns true if it is over.
#[tactic(auto, using(crate::proofs::Streaming::reading_kept, crate::proofs::Streaming::contents_kept))]
fn download_step(
    sftp: &mut Session,
    download: &mut Download,
    got: &mut Vec<u8>,
) -> Result<bool, Error>
    requires { MayRead sftp.old.core download.old }
    ensures parts { AreAwaited content_kind sftp.new.core download.new.parts }
    ensures may { IfOk result (λ over. over ≡ false → MayRead sftp.new.core download.new) }
{
    match download.poll(sftp.core()) {
        Poll::Ready(answer) => {
            take_part(answer, got)?;
            Ok(download.is_ended())
        }
        Poll::Pending => {
            round(sftp)?;
            Ok(false)
        }
    }
}

/// Polls a download until it is over.
fn download_all(sftp: &mut Session, download: &mut Download, got: &mut Vec<u8>) -> Result<(), Error>
    requires { MayRead sftp.old.core download.old }
    ensures { AreAwaited content_kind sftp.new.core download.new.parts }
{
    for _ in 0..1000 {
        if download_step(sftp, download, got)? {
            return Ok(());
        }
    }
    Ok(())
}

/// Returns true if a download of three READs at once returns these bytes of an open file, and ends.
fn downloads_from(
    alloc: Global,
    sftp: &mut Session,
    file: &File,
    content: &[u8],
) -> Result<bool, Error>
    requires { IsSome (info_of sftp.old.core.phase) }
{
    let mut download = Download::new(sftp.core(), file, 3)?;
    let mut got = Vec::new(alloc);
    let answer = download_all(sftp, &mut download, &mut got);
    let is_whole = download.is_ended() && download.offset() == content.len() as u64;
    download.cancel(sftp.core());
    answer?;
    Ok(is_whole && got.as_slice() == content)
}

/// Returns true if a download returns these bytes of a file.
pub(crate) fn downloads(
    alloc: Global,
    sftp: &mut Session,
    path: &[u8],
    content: &[u8],
    ended: Ended,
) -> Result<bool, Error>
    requires { IsSome (info_of sftp.old.core.phase) }
{
    let file = sftp.open(path)?;
    let answer = downloads_from(alloc, sftp, &file, content);
    file.let_go(ended);
    answer
}

/// Pushes the first of these bytes, up to an upload's room, and returns how many.
fn push_piece(sftp: &mut Session, upload: &mut Upload, rest: &[u8]) -> Result<usize, Error>
    requires opened { IsSome (info_of sftp.old.core.phase) }
    requires may { MayWrite sftp.old.core upload.old }
    ensures opened { IsSome (info_of sftp.new.core.phase) }
    ensures may { MayWrite sftp.new.core upload.new }
    ensures within { IfOk result (λ n. n ≤ length rest.now) }
{
    let n = rest.len().min(upload.room() as usize);
    if n == 0 {
        return Ok(0);
    }
    let Ok(bytes) = Bytes::copy_from_slice(sftp.core().alloc(), &rest[..n]) else {
        return Err(Error::OutOfMemory);
    };
    upload.push(sftp.core(), &bytes)?;
    Ok(n)
}

/// Polls an upload, and returns true if no WRITE of it is under way.
#[tactic(auto, using(crate::proofs::Streaming::upload_goes, crate::proofs::Streaming::upload_waits, crate::proofs::Streaming::statuses_kept))]
fn upload_step(sftp: &mut Session, upload: &mut Upload) -> Result<bool, Error>
    requires opened { IsSome (info_of sftp.old.core.phase) }
    requires may { MayWrite sftp.old.core upload.old }
    ensures opened { IsSome (info_of sftp.new.core.phase) }
    ensures parts { AreAwaited status_kind sftp.new.core upload.new.parts }
    ensures may { OnOk result (MayWrite sftp.new.core upload.new) }
{
    match upload.poll(sftp.core()) {
        Poll::Ready(answer) => Ok(answer?.is_none()),
        Poll::Pending => {
            round(sftp)?;
            Ok(false)
        }
    }
}

/// Pushes all of these bytes, and polls the upload until all are accepted.
fn upload_all(sftp: &mut Session, upload: &mut Upload, content: &[u8]) -> Result<(), Error>
    requires opened { IsSome (info_of sftp.old.core.phase) }
    requires may { MayWrite sftp.old.core upload.old }
    ensures { AreAwaited status_kind sftp.new.core upload.new.parts }
{
    let mut rest = content;
    for _ in 0..1000 {
        let n = push_piece(sftp, upload, rest)?;
        rest = &rest[n..];
        if n == 0 && upload_step(sftp, upload)? {
            return Ok(());
        }
    }
    Ok(())
}

/// Returns true if all of these bytes are uploaded to an open file, two WRITEs at once.
fn uploads_to(sftp: &mut Session, file: &File, content: &[u8]) -> Result<bool, Error>
    requires { IsSome (info_of sftp.old.core.phase) }
{
    let mut upload = Upload::new(sftp.core(), file, 2)?;
    let answer = upload_all(sftp, &mut upload, content);
    let stand = (upload.offset(), upload.next(), upload.is_ended());
    upload.cancel(sftp.core());
    answer?;
    let len = content.len() as u64;
    Ok(stand == (len, len, false))
}

/// Returns true if all of these bytes are uploaded to a file, which is created.
pub(crate) fn uploads(
    sftp: &mut Session,
    path: &[u8],
    content: &[u8],
    ended: Ended,
) -> Result<bool, Error>
    requires { IsSome (info_of sftp.old.core.phase) }
{
    let file = sftp.create(path)?;
    let answer = uploads_to(sftp, &file, content);
    file.let_go(ended);
    answer
}
