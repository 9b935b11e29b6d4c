//! Calls on open files that are started first: what the calls in one don't have.
ghost use Rattle.std.specs.Prelude.{IfOk, IsSome};
ghost use Rattle.sftp_core.specs.Info.{info_of};
ghost use Rattle.plan_state.specs.Asked.{IsReady};
ghost use Rattle.sftp_client.specs.Waits.{MayWait};
ghost use Rattle.sftp_file.specs.Settles.{settle_meaning};

use crate::server::Session;
use bytes::{Bytes, BytesMut};
use sftp_client::{Core, Ended, Error, File, MetaDataBuilder, Permissions, StatusCall};
use std::alloc::Global;
use std::io::SeekFrom;

/// A call on a file that was created.
#[derive(Clone, Copy)]
pub(crate) enum Change {
    /// One WRITE, which carries at most three bytes.
    Write,
    WritePieces,
    WriteUncopied,
    /// As many WRITEs as are needed.
    WriteAllPieces,
    WriteAllUncopied,
    /// Five bytes, by each of two calls.
    SetLen,
    SetMetadata,
    SetPermissions,
    Sync,
}

/// Writes pieces at the offset of a file. Returns the number of bytes that one WRITE wrote.
fn write(
    sftp: &mut Session,
    file: &mut File,
    what: Change,
    pieces: &[Bytes],
) -> Result<usize, Error>
    requires { IsSome (info_of sftp.old.core.phase) }
{
    sftp.ready()?;
    match what {
        Change::Write => {
            let call = file.start_write(sftp.core(), b"xyz!")?;
            sftp.finish_on(call, file)
        }
        Change::WritePieces => {
            let call = file.start_write_vectorized(sftp.core(), pieces)?;
            sftp.finish_on(call, file)
        }
        _ => {
            let call = file.start_write_zero_copy(sftp.core(), pieces)?;
            sftp.finish_on(call, file)
        }
    }
}

/// Writes all pieces at the offset of a file.
fn write_all(
    sftp: &mut Session,
    file: &mut File,
    what: Change,
    pieces: &[Bytes],
) -> Result<(), Error>
    requires { IsSome (info_of sftp.old.core.phase) }
{
    sftp.ready()?;
    if let Change::WriteAllPieces = what {
        let call = file.start_write_all_vectorized(sftp.core(), pieces)?;
        return sftp.finish_on(call, file);
    }
    let call = file.start_write_all_zero_copy(sftp.core(), pieces)?;
    sftp.finish_on(call, file)
}

/// Starts a call that a STATUS ends.
fn start(core: &mut Core, file: &mut File, what: Change) -> Result<StatusCall, Error>
    requires { IsReady core.old }
    ensures { IfOk result (λ call. MayWait settle_meaning core.new call) }
{
    match what {
        Change::SetLen => file.start_set_len(core, 5),
        Change::SetMetadata => file.start_set_metadata(
            core,
            MetaDataBuilder::new().len(5).create(),
        ),
        Change::SetPermissions => file.start_set_permissions(core, Permissions::from(0o644)),
        _ => file.start_sync_all(core),
    }
}

/// Makes a call that a STATUS ends.
fn settle(sftp: &mut Session, file: &mut File, what: Change) -> Result<(), Error>
    requires { IsSome (info_of sftp.old.core.phase) }
{
    sftp.ready()?;
    let call = start(sftp.core(), file, what)?;
    sftp.finish(call)
}

/// Makes a change of a file. Returns the number of bytes that one WRITE wrote.
fn make_change(
    sftp: &mut Session,
    file: &mut File,
    what: Change,
    pieces: &[Bytes],
) -> Result<usize, Error>
    requires { IsSome (info_of sftp.old.core.phase) }
{
    match what {
        Change::Write | Change::WritePieces | Change::WriteUncopied => {
            write(sftp, file, what, pieces)
        }
        Change::WriteAllPieces | Change::WriteAllUncopied => {
            write_all(sftp, file, what, pieces)?;
            Ok(0)
        }
        _ => {
            settle(sftp, file, what)?;
            Ok(0)
        }
    }
}

/// Creates a file and makes a change of it. Returns true if one WRITE wrote `n` bytes, and the offset is then as given.
pub(crate) fn changes(
    sftp: &mut Session,
    path: &[u8],
    what: Change,
    expected: (usize, u64),
    ended: Ended,
) -> Result<bool, Error>
    requires { IsSome (info_of sftp.old.core.phase) }
{
    let mut file = sftp.create(path)?;
    let pieces = [Bytes::from_static(b"x"), Bytes::from_static(b"yz!")];
    let answer = make_change(sftp, &mut file, what, &pieces);
    let offset = file.poll_complete();
    file.let_go(ended);
    Ok((answer?, offset) == expected)
}

/// Returns the length that the server reports of an open file.
fn len_of(sftp: &mut Session, file: &mut File) -> Result<Option<u64>, Error>
    requires { IsSome (info_of sftp.old.core.phase) }
{
    sftp.ready()?;
    let call = file.start_metadata(sftp.core())?;
    Ok(sftp.finish(call)?.len())
}

/// Moves a file to 5, to 7 and to 4. Returns true if it is at 4 then, and has this length.
pub(crate) fn moves(sftp: &mut Session, path: &[u8], len: u64, ended: Ended) -> Result<bool, Error>
    requires { IsSome (info_of sftp.old.core.phase) }
{
    let mut file = sftp.open(path)?;
    file.stand(5);
    file.as_mut_file().advance(2);
    let sought = file.start_seek(SeekFrom::Current(-3));
    let offset = file.offset();
    let answer = len_of(sftp, &mut file);
    file.let_go(ended);
    Ok(sought.is_ok() && offset == 4 && answer? == Some(len))
}

/// Returns the first `n` bytes of a file, by a call that is kept.
#[tactic(auto, using(crate::proofs::Waiting::waited_held))]
fn wait_bytes(
    alloc: Global,
    sftp: &mut Session,
    file: &mut File,
    n: usize,
) -> Result<BytesMut, Error>
    requires { IsSome (info_of sftp.old.core.phase) }
{
    sftp.ready()?;
    match file.start_read_all(sftp.core(), n, BytesMut::new(alloc)) {
        Ok(call) => {
            let mut call = call;
            let answer = sftp.wait_bytes(&mut call, file);
            call.cancel(sftp.core());
            answer.map_err(|failed| failed.error)
        }
        Err(failed) => Err(failed.error),
    }
}

/// Returns the first `n` bytes of a file.
fn finish_bytes(
    alloc: Global,
    sftp: &mut Session,
    file: &mut File,
    n: usize,
) -> Result<BytesMut, Error>
    requires { IsSome (info_of sftp.old.core.phase) }
{
    sftp.ready()?;
    match file.start_read_all(sftp.core(), n, BytesMut::new(alloc)) {
        Ok(call) => sftp.finish_bytes(call, file).map_err(|failed| failed.error),
        Err(failed) => Err(failed.error),
    }
}

/// Returns true if a file begins with these bytes, by a call that is kept or consumed.
pub(crate) fn begins_with(
    alloc: Global,
    sftp: &mut Session,
    path: &[u8],
    content: &[u8],
    keeps: bool,
    ended: Ended,
) -> Result<bool, Error>
    requires { IsSome (info_of sftp.old.core.phase) }
{
    let mut file = sftp.open(path)?;
    let answer = if keeps {
        wait_bytes(alloc, sftp, &mut file, content.len())
    } else {
        finish_bytes(alloc, sftp, &mut file, content.len())
    };
    file.let_go(ended);
    Ok(answer?.as_slice() == content)
}
