//! Files that are downloaded at once.
ghost use Rattle.std.specs.Prelude.{◌≡◌, ◌++◌, ◌∷◌, ◌<◌, List, [], IfOk, OnOk};
ghost use Rattle.std.specs.VecDeque.{deque_capacity, deque_len};
ghost use Rattle.plan_state.specs.Asked.{IsReady};
ghost use Rattle.sftp_fs_read.specs.WholeReads.{ReadsFrom};
ghost use Rattle.sftp_client.specs.Calls.{IsUsable, OnCore};
ghost use Rattle.sftp_client.specs.declared.walk_entry.WalkEntry.{WalkEntry};
ghost use Rattle.example_client.specs.Downloads.{AreDownloads, AreReadsHeld, AreReadsUnderWay, DownloadsBySteps, downloading_of};
ghost use Rattle.example_client.specs.declared.downloads.Download.{Download as DownloadValue};

use bytes::BytesMut;
use sftp_client::{Error, FsReadCall, Link, Poll, RemotePath, Sftp, StartRead, WalkEntry};
use std::alloc::Global;
use std::collections::VecDeque;

/// A file, and the read that is in flight for it.
#[must_use]
pub struct Reading {
    file: WalkEntry,
    call: FsReadCall,
}

/// A file, and all of its bytes.
#[derive(Drop)]
pub struct Download {
    /// The entry that the walk found.
    pub file: WalkEntry,
    /// The bytes that came.
    pub bytes: BytesMut,
}

/// Downloads files. All of them are opened before the first reply is awaited, and then their reads take turns. Returns
/// them in the order in which their reads ended.
///
/// # Errors
///
/// The first error of the session or the server. No read remains in flight then.
pub(crate) fn download_all<L: Link>(
    alloc: Global,
    sftp: &mut Sftp<L>,
    files: Vec<WalkEntry>,
) -> Result<Vec<Download>, Error>
    requires { IsUsable L.LinkState.state sftp.old }
    ensures done { IfOk result (λ done. AreDownloads files.items L.LinkState.state sftp.old sftp.new done.items) }
    ensures usable { OnOk result (IsUsable L.LinkState.state sftp.new) }
{
    let mut reads = VecDeque::new(alloc);
    match read_files(alloc, sftp, files, &mut reads) {
        Ok(done) => {
            reads.destroy_empty();
            Ok(done)
        }
        Err(e) => {
            give_up(sftp, reads);
            Err(e)
        }
    }
}

/// Starts a read of each file, and runs the reads to their end.
fn read_files<L: Link>(
    alloc: Global,
    sftp: &mut Sftp<L>,
    files: Vec<WalkEntry>,
    reads: &mut VecDeque<Reading>,
) -> Result<Vec<Download>, Error>
    requires usable { IsUsable L.LinkState.state sftp.old }
    requires none { reads.old.items ≡ [] }
    ensures done { IfOk result (λ done. AreDownloads files.items L.LinkState.state sftp.old sftp.new done.items) }
    ensures none { OnOk result (deque_len reads.new ≡ 0) }
    ensures held { AreReadsHeld sftp.new.core reads.new.items }
    ensures usable { OnOk result (IsUsable L.LinkState.state sftp.new) }
{
    start_reads(alloc, sftp, files, reads)?;
    end_reads(alloc, sftp, reads)
}

/// Starts a read of each file.
fn start_reads<L: Link>(
    alloc: Global,
    sftp: &mut Sftp<L>,
    files: Vec<WalkEntry>,
    reads: &mut VecDeque<Reading>,
) -> Result<(), Error>
    requires usable { IsUsable L.LinkState.state sftp.old }
    requires none { reads.old.items ≡ [] }
    ensures went { OnOk result (DownloadsBySteps L.LinkState.state (downloading_of sftp.old files.items [] [])
        (downloading_of sftp.new [] reads.new.items [])) }
    ensures under_way { AreReadsUnderWay L.LinkState.state sftp.new reads.new.items }
{
    for file in files {
        start_read(alloc, sftp, file, reads)?;
    }
    Ok(())
}

/// Starts the read of a file, and appends it to the reads in flight.
fn start_read<L: Link>(
    alloc: Global,
    sftp: &mut Sftp<L>,
    file: WalkEntry,
    reads: &mut VecDeque<Reading>,
) -> Result<(), Error>
    requires { AreReadsUnderWay L.LinkState.state sftp.old reads.old.items }
    ensures went { OnOk result ((later : List WalkEntry) → DownloadsBySteps L.LinkState.state
        (downloading_of sftp.old (file ∷ later) reads.old.items [])
        (downloading_of sftp.new later reads.new.items [])) }
    ensures under_way { AreReadsUnderWay L.LinkState.state sftp.new reads.new.items }
{
    sftp.ready()?;
    if reads.reserve(1).is_err() {
        return Err(Error::OutOfMemory);
    }
    let call = open_read(alloc, sftp, &file.path)?;
    reads.push_back_reserved(Reading { file, call });
    Ok(())
}

/// Starts a read of the file of a path.
fn open_read<L: Link>(
    alloc: Global,
    sftp: &mut Sftp<L>,
    path: &RemotePath,
) -> Result<FsReadCall, Error>
    requires { IsReady sftp.old.core }
    ensures { OnCore (ReadsFrom path.now []) sftp.old sftp.new result }
{
    sftp.fs().start_read(alloc, sftp.core(), path.as_bytes())
}

/// Polls the reads in turn until all have ended, and returns their files in the order in which they did.
fn end_reads<L: Link>(
    alloc: Global,
    sftp: &mut Sftp<L>,
    reads: &mut VecDeque<Reading>,
) -> Result<Vec<Download>, Error>
    requires { AreReadsUnderWay L.LinkState.state sftp.old reads.old.items }
    ensures done { IfOk result (λ done. DownloadsBySteps L.LinkState.state
        (downloading_of sftp.old [] reads.old.items []) (downloading_of sftp.new [] [] done.items)) }
    ensures none { OnOk result (deque_len reads.new ≡ 0) }
    ensures held { AreReadsHeld sftp.new.core reads.new.items }
    ensures usable { OnOk result (IsUsable L.LinkState.state sftp.new) }
{
    let mut done = Vec::new(alloc);
    for _ in 0..u64::MAX {
        sftp.ready()?;
        match reads.pop_front() {
            Some(reading) => poll_read(sftp, reading, reads, &mut done)?,
            None => return Ok(done),
        }
    }
    Err(Error::OutOfMemory)
}

/// Polls a read. If it has ended, its file is appended to those that are done. Otherwise it becomes the last one, the
/// queued frames are sent, and a frame is taken.
fn poll_read<L: Link>(
    sftp: &mut Sftp<L>,
    reading: Reading,
    reads: &mut VecDeque<Reading>,
    done: &mut Vec<Download>,
) -> Result<(), Error>
    requires under_way { AreReadsUnderWay L.LinkState.state sftp.old (reading ∷ reads.old.items) }
    requires ready { IsReady sftp.old.core }
    requires room { deque_len reads.old < deque_capacity reads.old }
    ensures went { OnOk result (DownloadsBySteps L.LinkState.state
        (downloading_of sftp.old [] (reading ∷ reads.old.items) done.old.items)
        (downloading_of sftp.new [] reads.new.items done.new.items)) }
    ensures held { AreReadsHeld sftp.new.core reads.new.items }
    ensures usable { OnOk result (IsUsable L.LinkState.state sftp.new) }
{
    let Reading { file, call } = reading;
    let mut call = call;
    match call.poll(sftp.core()) {
        Poll::Ready(answer) => {
            call.cancel(sftp.core());
            let bytes = answer?;
            push(done, Download { file, bytes })
        }
        Poll::Pending => {
            reads.push_back_reserved(Reading { file, call });
            sftp.flush()?;
            sftp.take()?;
            Ok(())
        }
    }
}

/// Appends a file.
fn push(done: &mut Vec<Download>, file: Download) -> Result<(), Error>
    ensures { OnOk result (done.new.items ≡ done.old.items ++ file ∷ []) }
{
    match done.push(file) {
        Ok(()) => Ok(()),
        Err(_) => Err(Error::OutOfMemory),
    }
}

/// Gives reads up, the first one first.
fn give_up<L: Link>(sftp: &mut Sftp<L>, reads: VecDeque<Reading>)
    requires { AreReadsHeld sftp.old.core reads.items }
{
    let mut reads = reads;
    while let Some(reading) = reads.pop_front() {
        let Reading { file: _file, call } = reading;
        call.cancel(sftp.core());
    }
    reads.destroy_empty();
}
