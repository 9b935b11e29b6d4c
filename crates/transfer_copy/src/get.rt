//! Copies a file of the server to a local file, step by step.
ghost use Rattle.std.specs.Prelude.{◌≡◌, ◌≤◌, ◌<◌, ◌-◌, ◌^◌, [], ◌∷◌, true, length, IsSome};
ghost use Rattle.sftp_core.specs.Core.{Core as CoreValue};
ghost use Rattle.sftp_core.specs.Info.{info_of};
ghost use Rattle.sftp_model.specs.OpenOptions.{flags_of};
ghost use Rattle.sftp_model.specs.Answers.{allows_reply};
ghost use Rattle.sftp_model.specs.declared.answers.Expected.TheVariants as expected;
ghost use Rattle.transfer_copy.specs.declared.get.GetStage.TheVariants as stage;
ghost use Rattle.transfer_copy.specs.Gets.{AsksNext, GetAsksOn, GetEnds, GetFinishes, GetStepDid, GetLeaves, GetGivesUp, TakesReply, GetHasEnded, IsBehindRead, IsGetting, IsOpenAt, IsReadingOn, KeepsPiece, MakesPart, MayGet, GetOpens, GetReadsOn, GetStarts, WritesPiece, ask_with, get_begun, get_is_over, most_with, read_flags};
ghost use Rattle.transfer_copy.specs.Holdings.{SparesIds, drops_file, drops_parts, nothing_held};
ghost use Rattle.transfer_copy.specs.Local.{HasDone, NamesPart, part_opened, act_of};

use crate::copy_error::CopyError;
use crate::holding::{FileAnswer, Holding, PartAnswer};
use crate::paths::open_request;
use crate::progress::Progress;
use crate::refusals::{faulted, refused, settled, status_failure};
use crate::{LocalError, LocalFile};
use bytes::Bytes;
use sftp_core::Core;
use sftp_model::numbers::SSH_FX_EOF;
use sftp_model::{Error, IoKind, OpenOptions, Reply};
use ssh_encoding::OutOfMemory;
use std::alloc::Global;

/// The stage of a copy from the server.
///
/// Used in `crates/transfer_copy/src/laws.rt`.
#[derive(Clone, Copy, Debug, PartialEq, Eq)]
pub enum GetStage {
    /// Nothing was asked.
    Starting,
    /// The OPEN is in flight.
    Opening,
    /// The file is being read.
    Reading,
    /// The CLOSE is in flight.
    Closing,
    /// The copy has ended.
    Ended,
}

/// A copy from a file of the server to a local file. It is written as a part file, and renamed when all its bytes are
/// there and the server has closed its file. It isn't droppable: `cancel` spends it, also after it has ended.
///
/// If the part file has the first bytes already, the copy starts after them, and does not compare them. With `sync` the
/// part file is written through to the disk before it is renamed, and its directory after that.
///
/// One READ is asked at first. With each piece as long as its READ, the number of READs in flight grows by one, up to
/// the window. After two pieces in a row that are shorter than their READs, READs ask for as many bytes as came, and so
/// many more of them are in flight: a server which gives less than it is asked for is read with a window too.
///
/// Used in `crates/transfer_copy/src/laws.rt`.
#[must_use]
pub struct FileGet {
    holding: Holding,
    stage: GetStage,
    window: u32,
    most: u32,
    ask: u32,
    was_short: bool,
    offset: u64,
    next: u64,
    sync: bool,
    failure: Option<CopyError>,
}

/// The least number of bytes that READs ask for after short pieces.
const LEAST_LEN: u32 = 4096;

/// The most READs in flight after short pieces.
const MOST_READS: u32 = 1024;

/// Returns the options to open a file of the server for reading only.
fn read_options() -> OpenOptions
    ensures { flags_of result ≡ read_flags }
{
    let mut options = OpenOptions::new();
    options.read(true);
    options
}

/// Creates the part file, or reopens it if it has `len` bytes already.
fn open_part<F: LocalFile>(local: &mut F, part: &str, len: u64) -> Result<(), LocalError>
    ensures { HasDone F.done (act_of result (part_opened part.now len) ∷ []) (F.history local.old) (F.history local.new) }
{
    if len == 0 {
        return local.create(part);
    }
    local.reopen(part, len)
}

/// Gives the part file its name. With `sync` its bytes are written through to the disk before, and the directory of the
/// name after.
fn name_part<F: LocalFile>(
    local: &mut F,
    part: &str,
    name: &str,
    sync: bool,
) -> Result<(), LocalError>
    ensures { NamesPart F.done sync part.now name.now result (F.history local.old) (F.history local.new) }
{
    if sync {
        return name_synced(local, part, name);
    }
    local.rename(part, name)
}

/// Gives the part file its name, between the two calls that write through to the disk.
fn name_synced<F: LocalFile>(local: &mut F, part: &str, name: &str) -> Result<(), LocalError>
    ensures { NamesPart F.done true part.now name.now result (F.history local.old) (F.history local.new) }
{
    // No `?`: each answer is named by its arm, and the clause is by cases on the result.
    match local.sync() {
        Ok(()) => match local.rename(part, name) {
            Ok(()) => local.sync_parent(name),
            Err(e) => Err(e),
        },
        Err(e) => Err(e),
    }
}

impl FileGet {
    /// Returns a copy that has asked for nothing, with at most `most` READs in flight. It starts at the offset `from`:
    /// the part file has exactly this many bytes. If `from` is 0, the part file is created. With `sync` the file is
    /// written through to the disk before it has its name, and its directory after that.
    pub fn new(alloc: Global, most: u32, from: u64, sync: bool) -> FileGet
        ensures new { result ≡ get_begun most from sync }
        ensures may { (core : CoreValue) → IsSome (info_of core.phase) → MayGet core result }
    {
        FileGet {
            holding: Holding::new(alloc),
            stage: GetStage::Starting,
            window: 1,
            most,
            ask: u32::MAX,
            was_short: false,
            offset: from,
            next: from,
            sync,
            failure: None,
        }
    }

    /// Returns the offset after the last byte that was written. This is the size of the part file, including the bytes
    /// that it had at first.
    pub fn offset(&self) -> u64
        ensures { result ≡ self.now.offset }
    {
        self.offset
    }

    /// Returns true if the copy has ended. It can't be stepped then.
    pub fn is_ended(&self) -> bool
        ensures { result ≡ get_is_over self.now.stage }
    {
        match self.stage {
            GetStage::Ended => true,
            _ => false,
        }
    }

    /// Takes one step without waiting: it submits a request, or continues with one reply. Returns `Waits` if the next
    /// reply was not taken and no fault is kept.
    ///
    /// The copy ends with the size of the target in bytes, including those that the part file had at first. Or it ends
    /// with the first failure: the server refused a request, the local file failed, the core keeps a fault, or an
    /// allocation failed. The file on the server is closed then, and no local file was renamed to the final name. The
    /// part file stays as far as it was written. If only the directory could not be written through to the disk after
    /// the rename, the file has its name.
    pub fn step<F: LocalFile>(
        &mut self,
        core: &mut Core,
        local: &mut F,
        remote: &str,
        part: &str,
        name: &str,
    ) -> Progress
        requires { MayGet core.old self.old }
        ensures did { GetStepDid F.done remote.now part.now name.now core.old self.old core.new self.new (F.history local.old) (F.history local.new) result self.old.stage }
        ensures leaves { GetLeaves core.old self.old core.new self.new }
        ensures ended { GetHasEnded self.new.stage result }
    {
        match self.stage {
            GetStage::Starting => self.start(core, remote),
            GetStage::Opening => self.open(core, local, part),
            GetStage::Reading => self.read(core, local),
            GetStage::Closing => self.close(core, local, part, name),
            GetStage::Ended => unreachable!(),
        }
    }

    /// Cancels the copy, or spends it after its end. Replies, received or still to come, are dropped, and a handle that
    /// came or comes is closed.
    pub fn cancel(self, core: &mut Core)
        requires { IsGetting core.old self }
        ensures core { core.new ≡ drops_file (drops_parts core.old self.holding.parts) self.holding.file }
        ensures spares { SparesIds self.holding nothing_held core.old core.new }
    {
        let FileGet {
            holding,
            stage: _,
            window: _,
            most: _,
            ask: _,
            was_short: _,
            offset: _,
            next: _,
            sync: _,
            failure: _,
        } = self;
        holding.cancel(core);
    }

    /// Asks for the file to be opened.
    fn start(&mut self, core: &mut Core, remote: &str) -> Progress
        requires { MayGet core.old self.old × (self.old.stage ≡ stage.Starting) }
        ensures did { GetStarts remote.now core.old self.old core.new self.new result }
        ensures leaves { GetLeaves core.old self.old core.new self.new }
        ensures ended { GetHasEnded self.new.stage result }
    {
        let request = match open_request(core.alloc(), read_options(), remote) {
            Ok(request) => request,
            Err(OutOfMemory) => {
                self.stage = GetStage::Ended;
                return Progress::Ended(Err(CopyError::OutOfMemory));
            }
        };
        match self.holding.ask(core, &request) {
            Ok(()) => {
                self.stage = GetStage::Opening;
                Progress::Moved
            }
            Err(e) => {
                self.stage = GetStage::Ended;
                Progress::Ended(Err(e))
            }
        }
    }

    /// Continues with the reply to the OPEN.
    fn open<F: LocalFile>(&mut self, core: &mut Core, local: &mut F, part: &str) -> Progress
        requires { MayGet core.old self.old × (self.old.stage ≡ stage.Opening) }
        ensures did { GetOpens F.done part.now core.old self.old core.new self.new (F.history local.old) (F.history local.new) result }
        ensures leaves { GetLeaves core.old self.old core.new self.new }
        ensures ended { GetHasEnded self.new.stage result }
    {
        match self.holding.settle(core) {
            FileAnswer::Missing => Progress::Waits,
            FileAnswer::Granted => self.make(core, local, part),
            FileAnswer::Came(reply) => {
                self.stage = GetStage::Ended;
                Progress::Ended(Err(refused(reply)))
            }
            FileAnswer::Failed(fault) => {
                self.stage = GetStage::Ended;
                Progress::Ended(Err(faulted(fault)))
            }
        }
    }

    /// Creates or reopens the part file of the open file.
    fn make<F: LocalFile>(&mut self, core: &mut Core, local: &mut F, part: &str) -> Progress
        requires open_now { IsOpenAt core.old self.old }
        requires reads { IsReadingOn self.old }
        ensures did { MakesPart F.done part.now core.old self.old core.new self.new (F.history local.old) (F.history local.new) }
        ensures leaves { GetLeaves core.old self.old core.new self.new }
        ensures moved { result ≡ Progress.Moved }
    {
        match open_part(local, part, self.offset) {
            Ok(()) => {
                self.stage = GetStage::Reading;
                Progress::Moved
            }
            Err(e) => self.fail(core, e.into()),
        }
    }
}

impl FileGet {
    /// Continues with the reply to the first READ, or asks for more bytes.
    fn read<F: LocalFile>(&mut self, core: &mut Core, local: &mut F) -> Progress
        requires { MayGet core.old self.old × (self.old.stage ≡ stage.Reading) }
        ensures did { GetReadsOn F.done core.old self.old core.new self.new (F.history local.old) (F.history local.new) result }
        ensures leaves { GetLeaves core.old self.old core.new self.new }
        ensures ended { GetHasEnded self.new.stage result }
    {
        match self.holding.take_part(core) {
            PartAnswer::Came(reply, len) => self.go_on(core, local, reply, len),
            PartAnswer::Failed(fault) => self.fail(core, faulted(fault)),
            PartAnswer::Missing => self.ask_more(core),
            PartAnswer::Idle => self.ask_more(core),
        }
    }

    /// Continues with the reply to the first READ, which asked for `len` bytes.
    fn go_on<F: LocalFile>(
        &mut self,
        core: &mut Core,
        local: &mut F,
        reply: Reply,
        len: u32,
    ) -> Progress
        requires reads { IsBehindRead len core.old self.old }
        requires allowed { allows_reply (expected.Content len) reply ≡ true }
        ensures did { TakesReply F.done reply len core.old self.old core.new self.new (F.history local.old) (F.history local.new) }
        ensures leaves { GetLeaves core.old self.old core.new self.new }
        ensures moved { result ≡ Progress.Moved }
    {
        match reply {
            Reply::Content(bytes) => self.write(core, local, &bytes, len),
            Reply::Status {
                code,
                message,
                language,
            } => {
                if code == SSH_FX_EOF {
                    return self.finish(core);
                }
                self.fail(core, status_failure(code, message, language))
            }
            _ => unreachable!(),
        }
    }

    /// Writes a piece to the local file.
    fn write<F: LocalFile>(
        &mut self,
        core: &mut Core,
        local: &mut F,
        bytes: &Bytes,
        len: u32,
    ) -> Progress
        requires reads { IsBehindRead len core.old self.old }
        requires few { length bytes.now ≤ len }
        ensures did { WritesPiece F.done bytes.now len core.old self.old core.new self.new (F.history local.old) (F.history local.new) }
        ensures leaves { GetLeaves core.old self.old core.new self.new }
        ensures moved { result ≡ Progress.Moved }
    {
        match local.write(bytes) {
            Ok(()) => {
                self.keep(core, bytes.len() as u32, len);
                Progress::Moved
            }
            Err(e) => self.fail(core, e.into()),
        }
    }

    /// Counts the bytes of a piece that was written. If it is shorter than its READ, the next READ starts after it. If
    /// the piece before was short as well, READs are adapted to it.
    fn keep(&mut self, core: &mut Core, got: u32, len: u32)
        requires reads { IsBehindRead len core.old self.old }
        requires few { got ≤ len }
        ensures did { KeepsPiece got len core.old self.old core.new self.new }
        ensures leaves { GetLeaves core.old self.old core.new self.new }
    {
        self.offset += got as u64;
        if got == len {
            if self.window < self.most {
                self.window += 1;
            }
            self.was_short = false;
            return;
        }
        if self.was_short {
            self.adapt(got, len);
        }
        self.was_short = true;
        self.holding.abandon_parts(core);
        self.next = self.offset;
    }

    /// Has READs ask for `got` bytes, and for `LEAST_LEN` at least, where they asked for `len`. The window grows in the
    /// same measure, up to `MOST_READS`.
    fn adapt(&mut self, got: u32, len: u32)
        ensures { self.new ≡ record self.old { most = most_with got len self.old.most; ask = ask_with got } }
    {
        self.ask = got.max(LEAST_LEN);
        let reads = self.most.saturating_mul(len / self.ask).min(MOST_READS);
        self.most = self.most.max(reads);
    }

    /// Asks for more bytes after the parts, if the window is not full.
    fn ask_more(&mut self, core: &mut Core) -> Progress
        requires { MayGet core.old self.old × (self.old.stage ≡ stage.Reading) }
        ensures did { GetAsksOn core.old self.old core.new self.new result }
        ensures leaves { GetLeaves core.old self.old core.new self.new }
        ensures ended { GetHasEnded self.new.stage result }
    {
        let parts = self.holding.under_way();
        if parts < self.window as usize && self.next < u64::MAX {
            return self.ask_next(core);
        }
        if parts == 0 {
            return self.fail(
                core,
                CopyError::Remote(Error::IOError(IoKind::OffsetOverflow)),
            );
        }
        Progress::Waits
    }

    /// Asks for another part.
    fn ask_next(&mut self, core: &mut Core) -> Progress
        requires reads { MayGet core.old self.old × (self.old.stage ≡ stage.Reading) }
        requires below { self.old.next < 2 ^ 64 - 1 }
        requires few { length self.old.holding.parts < self.old.window }
        ensures did { AsksNext core.old self.old core.new self.new }
        ensures leaves { GetLeaves core.old self.old core.new self.new }
        ensures moved { result ≡ Progress.Moved }
    {
        let Some(info) = core.info() else {
            unreachable!()
        };
        let most = u64::from(info.read_len.min(self.ask));
        let len = most.min(u64::MAX - self.next) as u32;
        match self.holding.ask_read(core, self.next, len) {
            Ok(()) => {
                self.next += len as u64;
                Progress::Moved
            }
            Err(e) => self.fail(core, e),
        }
    }
}

impl FileGet {
    /// Closes the file, and awaits the status.
    fn finish(&mut self, core: &mut Core) -> Progress
        requires { IsOpenAt core.old self.old }
        ensures did { GetFinishes core.old self.old.holding self.old core.new self.new }
        ensures leaves { GetLeaves core.old self.old core.new self.new }
        ensures moved { result ≡ Progress.Moved }
    {
        self.holding.let_go(core);
        self.stage = GetStage::Closing;
        Progress::Moved
    }

    /// Closes the file after a failure, and awaits the status.
    fn fail(&mut self, core: &mut Core, e: CopyError) -> Progress
        requires { IsOpenAt core.old self.old }
        ensures did { GetGivesUp core.old self.old.holding self.old core.new self.new }
        ensures leaves { GetLeaves core.old self.old core.new self.new }
        ensures moved { result ≡ Progress.Moved }
    {
        self.holding.let_go(core);
        self.stage = GetStage::Closing;
        self.failure = Some(e);
        Progress::Moved
    }

    /// Continues with the status of the CLOSE.
    fn close<F: LocalFile>(
        &mut self,
        core: &mut Core,
        local: &mut F,
        part: &str,
        name: &str,
    ) -> Progress
        requires { MayGet core.old self.old × (self.old.stage ≡ stage.Closing) }
        ensures did { GetEnds F.done part.now name.now core.old self.old core.new self.new (F.history local.old) (F.history local.new) result }
        ensures leaves { GetLeaves core.old self.old core.new self.new }
        ensures ended { GetHasEnded self.new.stage result }
    {
        let closed = match self.holding.settle(core) {
            FileAnswer::Missing => return Progress::Waits,
            FileAnswer::Granted => unreachable!(),
            FileAnswer::Came(reply) => settled(reply),
            FileAnswer::Failed(fault) => Err(faulted(fault)),
        };
        self.stage = GetStage::Ended;
        if let Some(first) = self.failure.take() {
            return Progress::Ended(Err(first));
        }
        match closed {
            Ok(()) => match name_part(local, part, name, self.sync) {
                Ok(()) => Progress::Ended(Ok(self.offset)),
                Err(e) => Progress::Ended(Err(e.into())),
            },
            Err(e) => Progress::Ended(Err(e)),
        }
    }
}
