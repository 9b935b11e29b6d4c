//! Calls on a buffered file.
ghost use Rattle.std.specs.Prelude.{◌≡◌, true, IfOk, IsSome, Some};
ghost use Rattle.sftp_core.specs.Core.{Core as CoreValue, record_at};
ghost use Rattle.sftp_core.specs.Info.{info_of};
ghost use Rattle.sftp_core.specs.declared.id_record.IdRecord.TheVariants.{Granted};
ghost use Rattle.plan_state.specs.Asked.{IsReady};
ghost use Rattle.sftp_buffered.specs.Buffered.{IsSound};

use crate::server::Session;
use crate::streams::round;
use bytes::Bytes;
use sftp_buffered::TokioCompatFile;
use sftp_client::{Core, Ended, Error, File, Poll, StartOpen};
use std::alloc::Global;
use std::io::SeekFrom;

/// A call on a buffered file, whose operands are a number and bytes.
#[derive(Clone, Copy)]
pub(crate) enum Act {
    /// Writes the bytes; this many are written.
    Write,
    WritePieces,
    Flush,
    Shutdown,
    /// Reads these bytes, at most 8; this many came.
    Read,
    /// Reads into the buffer.
    Fill,
    /// Reads into an empty buffer.
    FillBuf,
    /// The buffered bytes.
    Holds,
    /// Takes out this many buffered bytes, or this many which are these.
    Consume,
    TakeOut,
    /// A capacity of at least, or at most, this many bytes.
    Reserve,
    Shrink,
    /// Moves to this offset, or has it.
    Seek,
    At,
}

/// A call, its number and its bytes.
pub(crate) type Row = (Act, usize, &'static [u8]);

/// Returns true if a request may be submitted.
pub(crate) fn may_ask(core: &Core) -> bool
    ensures { result ≡ true → IsReady core.now }
{
    core.info().is_some() && core.kept() < 100
}

/// Returns the result of a poll without a value as one of no bytes.
fn uncounted(told: Poll<Result<(), Error>>) -> Poll<Result<usize, Error>> {
    match told {
        Poll::Pending => Poll::Pending,
        Poll::Ready(Ok(())) => Poll::Ready(Ok(0)),
        Poll::Ready(Err(e)) => Poll::Ready(Err(e)),
    }
}

/// Polls a read, and returns the number of bytes if they are these.
fn read(core: &mut Core, file: &mut TokioCompatFile, bytes: &[u8]) -> Poll<Result<usize, Error>>
    requires ready { IsReady core.old }
    requires sound { IsSound core.old file.old }
    ensures { IsSound core.new file.new }
{
    let mut room = [0u8; 8];
    match file.poll_read(core, &mut room) {
        Poll::Ready(Ok(n)) => {
            let same = n == bytes.len() && room.starts_with(bytes);
            Poll::Ready(Ok(if same { n } else { 99 }))
        }
        other => other,
    }
}

/// Polls a call.
fn polled(
    core: &mut Core,
    file: &mut TokioCompatFile,
    act: Act,
    bytes: &'static [u8],
) -> Poll<Result<usize, Error>>
    requires ready { IsReady core.old }
    requires sound { IsSound core.old file.old }
    ensures { IsSound core.new file.new }
{
    match act {
        Act::Write => file.poll_write(core, bytes),
        Act::WritePieces => {
            let pieces = [Bytes::from_static(bytes), Bytes::new()];
            file.poll_write_vectored(core, &pieces)
        }
        Act::Flush => uncounted(file.poll_flush(core)),
        Act::Shutdown => uncounted(file.poll_shutdown(core)),
        Act::Fill => uncounted(file.poll_read_into_buffer(core, 2)),
        Act::FillBuf => uncounted(file.poll_fill_buf(core)),
        _ => read(core, file, bytes),
    }
}

/// Polls a call until it has its result, and returns that, if it is no error.
#[tactic(auto, using(crate::proofs::Rounds::sound_stays))]
fn answered(
    sftp: &mut Session,
    file: &mut TokioCompatFile,
    act: Act,
    bytes: &'static [u8],
) -> Option<usize>
    requires { IsSound sftp.old.core file.old }
    ensures { IsSound sftp.new.core file.new }
{
    for _ in 0..9u32 {
        if !may_ask(sftp.core()) {
            return None;
        }
        match polled(sftp.core(), file, act, bytes) {
            Poll::Ready(answer) => return answer.ok(),
            Poll::Pending => {
                if sftp.core().info().is_none() {
                    return None;
                }
                if round(sftp).is_err() {
                    return None;
                }
            }
        }
    }
    None
}

/// Returns true if a call without a request has the result that its row says.
fn is_done(core: &mut Core, file: &mut TokioCompatFile, row: Row) -> bool
    requires { IsSound core.old file.old }
    ensures { IsSound core.new file.new }
{
    let (act, n, bytes) = row;
    match act {
        Act::Holds => file.buffer() == bytes,
        Act::Consume => {
            if n > file.buffer().len() {
                return false;
            }
            file.consume(n);
            true
        }
        Act::TakeOut => match file.consume_and_return_buffer(n) {
            Ok(taken) => taken.as_slice() == bytes,
            Err(_) => false,
        },
        Act::Reserve => file.reserve(n).is_ok() && file.capacity() >= n,
        Act::Shrink => file.shrink_to(core, n).is_ok() && file.capacity() <= n,
        Act::Seek => file.start_seek(core, SeekFrom::Start(n as u64)).is_ok(),
        _ => file.poll_complete() == n as u64,
    }
}

/// Returns true if a call is polled.
fn is_polled(act: Act) -> bool {
    matches!(
        act,
        Act::Write
            | Act::WritePieces
            | Act::Flush
            | Act::Shutdown
            | Act::Read
            | Act::Fill
            | Act::FillBuf
    )
}

/// Returns true if a call has the result that its row says.
fn is_met(sftp: &mut Session, file: &mut TokioCompatFile, row: Row) -> bool
    requires { IsSound sftp.old.core file.old }
    ensures { IsSound sftp.new.core file.new }
{
    if !is_polled(row.0) {
        return is_done(sftp.core(), file, row);
    }
    answered(sftp, file, row.0, row.2) == Some(row.1)
}

/// Returns how many calls have the results that their rows say, before one that has not.
fn rows_met(sftp: &mut Session, file: &mut TokioCompatFile, rows: &[Row]) -> usize
    requires { IsSound sftp.old.core file.old }
    ensures { IsSound sftp.new.core file.new }
{
    let mut met = 0;
    for row in rows {
        if !is_met(sftp, file, *row) {
            return met;
        }
        met = met.saturating_add(1);
    }
    met
}

/// Returns a file that is opened for reading and writing.
fn opened(alloc: Global, sftp: &mut Session, path: &[u8]) -> Result<File, Error>
    requires { IsSome (info_of sftp.old.core.phase) }
    ensures { IfOk result (λ file. record_at sftp.new.core file.grant.id ≡ Some (Granted file.grant.handle 1)) }
{
    sftp.ready()?;
    let mut options = sftp.options();
    options.read(true).write(true);
    let call = options.start_open(alloc, sftp.core(), path)?;
    sftp.finish(call)
}

/// Returns the file with a buffer of three bytes, if another user's is empty and at its start.
fn buffered(sftp: &mut Session, alloc: Global, inner: File, ended: Ended) -> (TokioCompatFile, bool)
    requires { record_at sftp.old.core inner.grant.id ≡ Some (Granted inner.grant.handle 1) }
    ensures { (core : CoreValue) → IsSound core result.0 }
{
    let file = TokioCompatFile::with_capacity(alloc, inner, 3);
    let mut other = file.clone_compat(sftp.core());
    let is_new = other.is_write_vectored() && other.capacity() == 0;
    other.as_mut_file(sftp.core()).stand(5);
    let is_apart = other.poll_complete() == 5 && file.file().offset() == 0;
    other.let_go(ended);
    (file, is_new && is_apart)
}

/// Returns true if each call on a file of this path has the result that its row says.
pub(crate) fn plays(
    alloc: Global,
    sftp: &mut Session,
    path: &[u8],
    ended: Ended,
) -> Result<bool, Error>
    requires { IsSome (info_of sftp.old.core.phase) }
{
    let inner = opened(alloc, sftp, path)?;
    let (mut file, is_shared) = buffered(sftp, alloc, inner, ended);
    let met = rows_met(sftp, &mut file, ROWS);
    file.into_inner(sftp.core()).let_go(ended);
    Ok(is_shared && met == ROWS.len())
}

/// Calls on a file of `hello world`, of which a READ asks for at most 4 bytes and a WRITE carries 3. The file is
/// `helloWORLDd` then.
const ROWS: &[Row] = &[
    (Act::FillBuf, 0, b""),
    (Act::Holds, 0, b"hel"),
    (Act::Consume, 1, b""),
    (Act::TakeOut, 2, b"el"),
    (Act::Fill, 0, b""),
    (Act::Holds, 0, b"lo"),
    (Act::Read, 2, b"lo"),
    (Act::At, 5, b""),
    (Act::Write, 3, b"WORLD"),
    (Act::WritePieces, 2, b"LD"),
    (Act::At, 10, b""),
    (Act::Flush, 0, b""),
    (Act::Read, 1, b"d"),
    (Act::Read, 0, b""),
    (Act::Seek, 4, b""),
    (Act::Reserve, 9, b""),
    (Act::Read, 4, b"oWOR"),
    (Act::Shrink, 2, b""),
    (Act::Shutdown, 0, b""),
];
