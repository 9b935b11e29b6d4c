//! Files that a session opens, and calls that it runs to their end.
ghost use Rattle.std.specs.Prelude.{◌≡◌, ◌<◌, ◌-◌, ◌^◌, IsSome};
ghost use Rattle.plan_state.specs.Asked.{IsReady};
ghost use Rattle.plan_state.specs.Calls.{IsUnderWay};
ghost use Rattle.plan_state.specs.declared.poll.Poll.TheVariants.{Ready};
ghost use Rattle.sftp_core.specs.Info.{info_of};
ghost use Rattle.sftp_file.specs.Gathers.{GivesBytes};
ghost use Rattle.sftp_file.specs.Settles.{settle_meaning};
ghost use Rattle.sftp_client.specs.Calls.{FinishesClose, IsCallable};
ghost use Rattle.sftp_client.specs.Listed.{HasListed, ListedIn, MayWaitFor, given_by};
ghost use Rattle.sftp_client.specs.Opening.{OpensFile, to_create, to_read};
ghost use Rattle.sftp_client.specs.Waits.{HasFinished, HasFinishedOn, HasWaited, HasWaitedOn, MayWait, MayWaitOn, PolledIn, RoundEnds};
ghost use Rattle.sftp_client.specs.WholeWaits.{HasCopied, HasFinishedRead, HasReadBytes, HasWaitedBytes, HasWaitedCopy, HasWaitedRead, MayWaitBytes, MayWaitCopy, MayRound, MayWaitRead, ReadIn};
ghost use Rattle.sftp_client.specs.WriteWaits.{HasFinishedWrite, HasWaitedWrite, MayWaitWrite, WriteIn};

use super::Sftp;
use bytes::BytesMut;
use plan_state::{Alone, PendingCall, PlanRunner, Poll};
use sftp_core::MAX_IDS;
use sftp_file::{
    CloseCall, CopyCall, File, OnFile, OpenCall, ReadAllCall, ReadAllError, StartOpen,
    cancel_read_all, read_all_answer,
};
use sftp_fs::{DirEntry, FsWriteCall, ReadDir};
use sftp_fs_read::FsReadCall;
use sftp_link::Link;
use sftp_model::{Error, OpenOptions};

impl<L: Link> Sftp<L> {
    /// Opens a file for writing: it is created if it is missing, and truncated if it exists
    /// (draft-ietf-secsh-filexfer-02, section 6.3). The path is sent unchanged.
    ///
    /// # Errors
    ///
    /// A recorded fault is reported first; then `IOError(PathTooLong)` if the path has more than 1048558 bytes.
    /// `OutOfMemory` may come in place of any result. After an error the session is unchanged.
    pub fn start_create(&mut self, path: &[u8]) -> Result<OpenCall, Error>
        requires { IsReady self.old.core }
        ensures { OpensFile to_create path.now self.old self.new result }
    {
        let mut options = OpenOptions::new();
        options.write(true).truncate(true).create(true);
        self.open_by(&options, path)
    }

    /// Opens a file for reading (draft-ietf-secsh-filexfer-02, section 6.3). The path is sent unchanged.
    ///
    /// # Errors
    ///
    /// A recorded fault is reported first; then `IOError(PathTooLong)` if the path has more than 1048558 bytes.
    /// `OutOfMemory` may come in place of any result. After an error the session is unchanged.
    pub fn start_open(&mut self, path: &[u8]) -> Result<OpenCall, Error>
        requires { IsReady self.old.core }
        ensures { OpensFile to_read path.now self.old self.new result }
    {
        let mut options = OpenOptions::new();
        options.read(true);
        self.open_by(&options, path)
    }

    /// Runs a call to its end, and returns its result. While it awaits a reply, the queue is sent and one frame at a
    /// time is taken. Other calls may be under way, and their replies are kept for them.
    ///
    /// # Errors
    ///
    /// The errors of the call are those of its poll; the errors of a round are those of `flush` and `take`. After an
    /// error of a round the call has not ended, and must be given up. `OutOfMemory` comes also if 2147483648 ids are in
    /// use: the call may be run further then.
    pub fn wait<M: Alone>(&mut self, call: &mut PendingCall<M>) -> Result<M::Value, Error>
        requires may { MayWait M.PlanRunner.meaning self.old.core call.old }
        requires count { (L.LinkState.state self.old.link).faults < 2 ^ 64 - 1 }
        ensures { HasWaited M.PlanRunner.meaning L.LinkState.state self.old self.new call.old call.new result }
    {
        self.run(call)
    }

    /// Runs a call that moves a file to its end, as `wait` does. The file must be the one that the call was started on,
    /// at the offset that the start or the last poll left. Afterwards it is at the offset that the call has reached,
    /// also after an error.
    ///
    /// # Errors
    ///
    /// Those of `wait`.
    pub fn wait_on<M: OnFile>(
        &mut self,
        call: &mut PendingCall<M>,
        file: &mut File,
    ) -> Result<M::Value, Error>
        requires may { MayWaitOn M.PlanRunner.meaning M.file self.old.core call.old file.old }
        requires count { (L.LinkState.state self.old.link).faults < 2 ^ 64 - 1 }
        ensures { HasWaitedOn M.PlanRunner.meaning M.file L.LinkState.state self.old self.new call.old call.new file.old file.new result }
    {
        let value = self.run(call);
        file.stand(call.runner().offset());
        value
    }

    /// Runs a call to its end, and returns its result.
    ///
    /// # Errors
    ///
    /// Those of `wait`. After an error nothing is left of the call: a reply that still comes is dropped, and a handle
    /// that comes is closed. To continue after `OutOfMemory`, use `wait`.
    pub fn finish<M: Alone>(&mut self, call: PendingCall<M>) -> Result<M::Value, Error>
        requires may { MayWait M.PlanRunner.meaning self.old.core call }
        requires count { (L.LinkState.state self.old.link).faults < 2 ^ 64 - 1 }
        ensures { HasFinished M.PlanRunner.meaning L.LinkState.state self.old self.new call result }
    {
        let mut call = call;
        let answer = self.run(&mut call);
        call.cancel(&mut self.core);
        answer
    }

    /// Runs a call that moves a file to its end, as `finish` does. The file must be the one that the call was started
    /// on. Afterwards it is at the offset that the call has reached, also after an error.
    ///
    /// # Errors
    ///
    /// Those of `finish`.
    pub fn finish_on<M: OnFile>(
        &mut self,
        call: PendingCall<M>,
        file: &mut File,
    ) -> Result<M::Value, Error>
        requires may { MayWaitOn M.PlanRunner.meaning M.file self.old.core call file.old }
        requires count { (L.LinkState.state self.old.link).faults < 2 ^ 64 - 1 }
        ensures { HasFinishedOn M.PlanRunner.meaning M.file L.LinkState.state self.old self.new call file.old file.new result }
    {
        let mut call = call;
        let answer = self.wait_on(&mut call, file);
        call.cancel(&mut self.core);
        answer
    }

    /// Returns the next entry of a listing, in the server's order, or `None` at its end, and always from then on. While
    /// the entry is awaited, the queue is sent and one frame at a time is taken.
    ///
    /// # Errors
    ///
    /// The errors of the listing are those of its poll; the errors of a round are those of `flush` and `take`. After
    /// each of them the listing may be waited for again, and must be closed in the end. `OutOfMemory` comes also if
    /// 2147483648 ids are in use.
    pub fn next_entry(&mut self, listing: &mut ReadDir) -> Result<Option<DirEntry>, Error>
        requires may { MayWaitFor self.old.core listing.old }
        requires count { (L.LinkState.state self.old.link).faults < 2 ^ 64 - 1 }
        ensures { HasListed L.LinkState.state self.old self.new listing.old listing.new result }
    {
        for _ in 0..u64::MAX {
            match self.poll_entry(listing) {
                Poll::Ready(given) => return answer_of(given),
                Poll::Pending => self.round()?,
            }
        }
        Err(Error::OutOfMemory)
    }

    /// Runs a copy to its end, as `wait` does. The files must be those that it was started on, at the offsets that the
    /// start or the last poll left. Afterwards they are at the offsets that the copy has reached, also after an error.
    ///
    /// # Errors
    ///
    /// Those of `wait`.
    pub fn wait_copy(
        &mut self,
        call: &mut CopyCall,
        from: &mut File,
        to: &mut File,
    ) -> Result<(), Error>
        requires may { MayWaitCopy self.old.core call.old from.old to.old }
        requires count { (L.LinkState.state self.old.link).faults < 2 ^ 64 - 1 }
        ensures { HasWaitedCopy L.LinkState.state self.old self.new call.old call.new from.old from.new to.old to.new result }
    {
        let answer = self.run(call);
        let (source, target) = call.runner().offsets();
        from.stand(source);
        to.stand(target);
        answer
    }

    /// Runs a copy to its end, as `finish` does, on the files that it was started on.
    ///
    /// # Errors
    ///
    /// Those of `finish`.
    pub fn finish_copy(
        &mut self,
        call: CopyCall,
        from: &mut File,
        to: &mut File,
    ) -> Result<(), Error>
        requires may { MayWaitCopy self.old.core call from.old to.old }
        requires count { (L.LinkState.state self.old.link).faults < 2 ^ 64 - 1 }
        ensures { HasCopied L.LinkState.state self.old self.new call from.old from.new to.old to.new result }
    {
        let mut call = call;
        let answer = self.wait_copy(&mut call, from, to);
        call.cancel(&mut self.core);
        answer
    }

    /// Runs a read of `n` bytes to its end, as `wait` does. The file must be the one that it was started on, at the
    /// offset that the start or the last poll left. Afterwards it is after the bytes that came, also after an error.
    ///
    /// # Errors
    ///
    /// Those of `wait`. An error of the read hands out the bytes that came before it; after an error of a round, and
    /// after `OutOfMemory`, the call keeps them.
    pub fn wait_bytes(
        &mut self,
        call: &mut ReadAllCall,
        file: &mut File,
    ) -> Result<BytesMut, ReadAllError>
        requires may { MayWaitBytes self.old.core call.old file.old }
        requires count { (L.LinkState.state self.old.link).faults < 2 ^ 64 - 1 }
        ensures { HasWaitedBytes L.LinkState.state self.old self.new call.old call.new file.old file.new result }
    {
        let answer = self.run(call);
        file.stand(call.runner().offset());
        read_all_answer(call, answer)
    }

    /// Runs a read of `n` bytes to its end, as `finish` does, and hands out the bytes that came, also after each error.
    ///
    /// # Errors
    ///
    /// Those of `finish`, with the bytes that came.
    pub fn finish_bytes(
        &mut self,
        call: ReadAllCall,
        file: &mut File,
    ) -> Result<BytesMut, ReadAllError>
        requires may { MayWaitBytes self.old.core call file.old }
        requires count { (L.LinkState.state self.old.link).faults < 2 ^ 64 - 1 }
        ensures { HasReadBytes L.LinkState.state self.old self.new call file.old file.new result }
    {
        let mut call = call;
        let answer = self.run(&mut call);
        file.stand(call.runner().offset());
        let got = cancel_read_all(call, &mut self.core);
        with_bytes(answer, got)
    }

    /// Runs a whole read to its end, and returns its bytes. READs are asked for until the session's limit is under way;
    /// then the queue is sent and a frame taken, round after round.
    ///
    /// # Errors
    ///
    /// The errors of the read are those of its poll; the errors of a round are those of `flush` and `take`. After an
    /// error of a round the read has not ended, and must be given up. `OutOfMemory` comes also if 2147483648 ids are in
    /// use.
    pub fn wait_read(&mut self, call: &mut FsReadCall) -> Result<BytesMut, Error>
        requires may { MayWaitRead self.old.core call.old }
        requires count { (L.LinkState.state self.old.link).faults < 2 ^ 64 - 1 }
        ensures { HasWaitedRead L.LinkState.state self.old self.new call.old call.new result }
    {
        for _ in 0..u64::MAX {
            let kept = self.core.kept();
            match self.poll_read(call) {
                Poll::Ready(value) => return value,
                Poll::Pending => self.round_where(kept)?,
            }
        }
        Err(Error::OutOfMemory)
    }

    /// Runs a whole read to its end, and returns its bytes.
    ///
    /// # Errors
    ///
    /// Those of `wait_read`. After an error nothing is left of the read: replies that still come are dropped, and the
    /// file is closed.
    pub fn finish_read(&mut self, call: FsReadCall) -> Result<BytesMut, Error>
        requires may { MayWaitRead self.old.core call }
        requires count { (L.LinkState.state self.old.link).faults < 2 ^ 64 - 1 }
        ensures { HasFinishedRead L.LinkState.state self.old self.new call result }
    {
        let mut call = call;
        let answer = self.wait_read(&mut call);
        call.cancel(&mut self.core);
        answer
    }

    /// Runs a whole write to its end: it is polled, and while it awaits a reply the queue is sent and a frame taken.
    /// The CLOSE is queued at the end, and not awaited.
    ///
    /// # Errors
    ///
    /// The errors of the write are those of its poll; the errors of a round are those of `flush` and `take`. After an
    /// error of a round the write has not ended, and must be given up. `OutOfMemory` comes also if 2147483648 ids are
    /// in use: the write may be run further then.
    pub fn wait_write(&mut self, call: &mut FsWriteCall) -> Result<(), Error>
        requires may { MayWaitWrite self.old.core call.old }
        requires count { (L.LinkState.state self.old.link).faults < 2 ^ 64 - 1 }
        ensures { HasWaitedWrite L.LinkState.state self.old self.new call.old call.new result }
    {
        for _ in 0..u64::MAX {
            match self.poll_write(call) {
                Poll::Ready(value) => return value,
                Poll::Pending => self.round()?,
            }
        }
        Err(Error::OutOfMemory)
    }

    /// Runs a whole write to its end.
    ///
    /// # Errors
    ///
    /// Those of `wait_write`. After an error nothing is left of the write: replies that still come are dropped, and the
    /// file is closed.
    pub fn finish_write(&mut self, call: FsWriteCall) -> Result<(), Error>
        requires may { MayWaitWrite self.old.core call }
        requires count { (L.LinkState.state self.old.link).faults < 2 ^ 64 - 1 }
        ensures { HasFinishedWrite L.LinkState.state self.old self.new call result }
    {
        let mut call = call;
        let answer = self.wait_write(&mut call);
        call.cancel(&mut self.core);
        answer
    }

    /// Runs a close to its end, as `finish` does. If a fault is kept, it is returned, and the close is given up.
    pub(super) fn finish_close(&mut self, call: CloseCall) -> Result<(), Error>
        requires may { MayWait settle_meaning self.old.core call }
        requires callable { IsCallable L.LinkState.state self.old }
        ensures { FinishesClose L.LinkState.state self.old self.new call result }
    {
        if let Some(fault) = self.core.fault() {
            call.cancel(&mut self.core);
            return Err(Error::BackgroundTaskFailure(fault));
        }
        self.finish(call)
    }

    /// Opens a file, if the core has recorded no fault.
    fn open_by(&mut self, options: &OpenOptions, path: &[u8]) -> Result<OpenCall, Error>
        requires { IsReady self.old.core }
        ensures { OpensFile options.now path.now self.old self.new result }
    {
        if let Some(fault) = self.core.fault() {
            return Err(Error::BackgroundTaskFailure(fault));
        }
        options.start_open(self.alloc, &mut self.core, path)
    }

    /// Polls a call, and does a round if it has no answer, until it returns its result or a round fails.
    fn run<M: PlanRunner>(&mut self, call: &mut PendingCall<M>) -> Result<M::Value, Error>
        requires may { MayWait M.meaning self.old.core call.old }
        requires count { (L.LinkState.state self.old.link).faults < 2 ^ 64 - 1 }
        ensures { HasWaited M.meaning L.LinkState.state self.old self.new call.old call.new result }
    {
        for _ in 0..u64::MAX {
            match self.poll_call(call) {
                Poll::Ready(value) => return value,
                Poll::Pending => self.round()?,
            }
        }
        Err(Error::OutOfMemory)
    }

    /// Polls a call, if an id is left for a request of it.
    fn poll_call<M: PlanRunner>(
        &mut self,
        call: &mut PendingCall<M>,
    ) -> Poll<Result<M::Value, Error>>
        requires opened { IsSome (info_of self.old.core.phase) }
        requires under_way { IsUnderWay M.meaning self.old.core call.old }
        ensures { PolledIn M.meaning self.old self.new call.old call.new result }
    {
        if self.core.kept() >= MAX_IDS {
            return Poll::Ready(Err(Error::OutOfMemory));
        }
        call.step(&mut self.core)
    }

    /// Sends what is queued, and takes a frame if one is awaited.
    fn round(&mut self) -> Result<(), Error>
        requires { (L.LinkState.state self.old.link).faults < 2 ^ 64 - 1 }
        ensures { RoundEnds L.LinkState.state self.old self.new result }
    {
        self.flush()?;
        self.take()?;
        Ok(())
    }

    /// Polls a listing, if an id is left for a request of it.
    fn poll_entry(&mut self, listing: &mut ReadDir) -> Poll<Option<Result<DirEntry, Error>>>
        requires { MayWaitFor self.old.core listing.old }
        ensures { ListedIn self.old self.new listing.old listing.new result }
    {
        if self.core.kept() >= MAX_IDS {
            return Poll::Ready(Some(Err(Error::OutOfMemory)));
        }
        listing.poll_next(&mut self.core)
    }

    /// Polls a whole read, if an id is left for a request of it.
    fn poll_read(&mut self, call: &mut FsReadCall) -> Poll<Result<BytesMut, Error>>
        requires { MayWaitRead self.old.core call.old }
        ensures { ReadIn self.old self.new call.old call.new result }
    {
        if self.core.kept() >= MAX_IDS {
            return Poll::Ready(Err(Error::OutOfMemory));
        }
        call.poll(&mut self.core)
    }

    /// Does a round if `kept` ids are still in use, which means that nothing was asked for.
    fn round_where(&mut self, kept: u32) -> Result<(), Error>
        requires { (L.LinkState.state self.old.link).faults < 2 ^ 64 - 1 }
        ensures { MayRound L.LinkState.state kept self.old self.new result }
    {
        if self.core.kept() == kept {
            return self.round();
        }
        Ok(())
    }

    /// Polls a whole write, if an id is left for a request of it.
    fn poll_write(&mut self, call: &mut FsWriteCall) -> Poll<Result<(), Error>>
        requires { MayWaitWrite self.old.core call.old }
        ensures { WriteIn self.old self.new call.old call.new result }
    {
        if self.core.kept() >= MAX_IDS {
            return Poll::Ready(Err(Error::OutOfMemory));
        }
        call.poll(&mut self.core)
    }
}

/// Returns the result of the wait for a result of the listing.
fn answer_of(given: Option<Result<DirEntry, Error>>) -> Result<Option<DirEntry>, Error>
    ensures { given_by result ≡ Ready given }
{
    match given {
        None => Ok(None),
        Some(Ok(entry)) => Ok(Some(entry)),
        Some(Err(e)) => Err(e),
    }
}

/// Returns a result with the bytes that came.
fn with_bytes(answer: Result<(), Error>, got: BytesMut) -> Result<BytesMut, ReadAllError>
    ensures { GivesBytes got.items answer result }
{
    match answer {
        Ok(()) => Ok(got),
        Err(error) => Err(ReadAllError { error, got }),
    }
}
