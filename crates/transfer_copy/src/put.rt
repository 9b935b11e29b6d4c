//! Copies a local file to a file of the server, step by step.
ghost use Rattle.std.specs.Prelude.{◌≡◌, ◌≤◌, ◌<◌, ◌-◌, ◌^◌, [], true, length, IsSome, None};
ghost use Rattle.sftp_core.specs.Core.{Core as CoreValue};
ghost use Rattle.sftp_core.specs.Info.{info_of};
ghost use Rattle.sftp_model.specs.OpenOptions.{flags_of};
ghost use Rattle.transfer_copy.specs.declared.put.PutStage.TheVariants as stage;
ghost use Rattle.transfer_copy.specs.Holdings.{SparesIds, drops_file, drops_parts, nothing_held};
ghost use Rattle.transfer_copy.specs.PutEnds.{PutStepDid};
ghost use Rattle.transfer_copy.specs.PutRequests.{open_part, write_flags};
ghost use Rattle.transfer_copy.specs.Puts.{AcceptsWrite, AsksAt, IsBehindWrite, IsOpenToWrite, IsPutting, MayPut, OpensPut, PutAsksAttrs, PutAsksSync, PutEndsSending, PutFinishes, PutGivesUp, PutHasEnded, PutLeaves, PutReadsNext, PutSendsOn, PutSyncsOrCloses, StartsPut, PutWritesNext, WritesOn, is_sync_due, put_begun, put_is_over};

mod end;

use crate::LocalFile;
use crate::copy_error::CopyError;
use crate::holding::{FileAnswer, Holding, PartAnswer};
use crate::paths::{offers, open_with};
use crate::progress::Progress;
use crate::refusals::{faulted, refused, settled};
use bytes::Bytes;
use sftp_core::Core;
use sftp_model::{Error, Extensions, FileAttrs, IoKind, OpenOptions, Reply};
use ssh_encoding::OutOfMemory;
use std::alloc::Global;

/// The stage of a copy to the server.
///
/// Used in `crates/transfer_copy/src/put/end.rt`.
#[derive(Clone, Copy, Debug, PartialEq, Eq)]
pub enum PutStage {
    /// Nothing was asked.
    Starting,
    /// The OPEN is in flight.
    Opening,
    /// The file is being written.
    Writing,
    /// The CLOSE is in flight.
    Closing,
    /// The rename that replaces a file with the name is in flight.
    Replacing,
    /// A plain RENAME is in flight.
    Renaming,
    /// The LSTAT of the entry that has the name is in flight, after FAILURE refused a plain RENAME.
    Checking,
    /// The rename of the old file to the name of the part with `.old` after it is in flight.
    SettingAside,
    /// The RENAME of the part file after that is in flight.
    RenamingAgain,
    /// The REMOVE of the old file is in flight, after the part file got its name.
    RemovingOld,
    /// The rename of the old file to its name is in flight, after the second RENAME of the part file was refused.
    RestoringOld,
    /// The copy has ended.
    Ended,
}

/// A copy from a local file to a file of the server. It is written as a part file, and renamed when the server has
/// answered all its bytes with OK and closed it. It isn't droppable: `cancel` spends it, also after it has ended.
///
/// If the part file has the first bytes already, the copy starts after them, and does not compare them. If there are
/// attributes, the part file is given them after its last bytes, before it is closed. With `sync` it is written through
/// to the server's disk then, if the server offers that.
///
/// If the server offers posix-rename@openssh.com, one rename replaces a file that has the name. Otherwise that file is
/// first renamed to the name of the part with `.old` after it, and removed once the new file has the name. If the new
/// one does not get it, the old file is renamed back. So neither is lost. Directories are not replaced.
///
/// Used in `crates/transfer_copy/src/laws.rt`.
#[must_use]
pub struct FilePut {
    holding: Holding,
    stage: PutStage,
    window: u32,
    at_end: bool,
    offset: u64,
    next: u64,
    mode: Option<u32>,
    attrs: Option<FileAttrs>,
    sync: bool,
    failure: Option<CopyError>,
}

/// Returns the options to open a file of the server for writing from an offset on. From 0 the open must create the
/// file; otherwise the file must exist.
fn write_options(from: u64) -> OpenOptions
    ensures { flags_of result ≡ write_flags from }
{
    let mut options = OpenOptions::new();
    options.write(true).create_new(from == 0);
    options
}

impl FilePut {
    /// Returns a copy that has asked for nothing, with at most `window` WRITEs in flight, and at least one. It starts
    /// at the offset `from`: the part file has this many bytes. If `from` is 0, the part file is created, with the
    /// permissions `mode` as far as the server permits them. If an entry has its name already, also a symbolic link,
    /// the server refuses the open and does not follow the link. The part file is given the attributes before it is
    /// closed. With `sync` it is then written through to the server's disk, if the server offers that.
    pub fn new(
        alloc: Global,
        window: u32,
        from: u64,
        mode: Option<u32>,
        attrs: Option<FileAttrs>,
        sync: bool,
    ) -> FilePut
        ensures new { result ≡ put_begun window from mode attrs sync }
        ensures may { (core : CoreValue) → IsSome (info_of core.phase) → MayPut core result }
    {
        FilePut {
            holding: Holding::new(alloc),
            stage: PutStage::Starting,
            window: window.max(1),
            at_end: false,
            offset: from,
            next: from,
            mode,
            attrs,
            sync,
            failure: None,
        }
    }

    /// Returns the offset after the last byte that the server has answered with OK. This is the size of the part file,
    /// including the bytes that it had at first.
    pub fn offset(&self) -> u64
        ensures { result ≡ self.now.offset }
    {
        self.offset
    }

    /// Returns true if the copy has ended. It can't be stepped then.
    pub fn is_ended(&self) -> bool
        ensures { result ≡ put_is_over self.now.stage }
    {
        match self.stage {
            PutStage::Ended => true,
            _ => false,
        }
    }

    /// Takes one step without waiting: it submits a request, or continues with one reply. Returns `Waits` if the next
    /// reply was not taken and no fault is kept.
    ///
    /// The copy ends with the size of the target in bytes, including those that the part file had at first. Or it ends
    /// with the first failure: the server refused a request, the local file failed, the core keeps a fault, or an
    /// allocation failed. The file on the server is closed then. The part file stays as far as it was written, and a
    /// file that had the name still has it. If it was renamed aside and can't be renamed back, it stays there. If it
    /// can't be removed after the new file has the name, it stays aside, too, and the copy has succeeded.
    pub fn step<F: LocalFile>(
        &mut self,
        core: &mut Core,
        local: &mut F,
        name: &str,
        part: &str,
        remote: &str,
    ) -> Progress
        requires { MayPut core.old self.old }
        ensures did { PutStepDid F.done name.now part.now remote.now core.old self.old core.new self.new (F.history local.old) (F.history local.new) result self.old.stage }
        ensures leaves { PutLeaves core.old self.old core.new self.new }
        ensures ended { PutHasEnded self.new.stage result }
    {
        match self.stage {
            PutStage::Starting => self.start(core, local, name, part),
            PutStage::Opening => self.open(core),
            PutStage::Writing => self.write(core, local),
            PutStage::Closing => self.close(core, part, remote),
            PutStage::Replacing => self.replace(core),
            PutStage::Renaming => self.rename(core, part, remote),
            PutStage::Checking => self.check(core, part, remote),
            PutStage::SettingAside => self.set_aside(core, part, remote),
            PutStage::RenamingAgain => self.name_again(core, part, remote),
            PutStage::RemovingOld => self.remove_old(core),
            PutStage::RestoringOld => self.restore_old(core),
            PutStage::Ended => unreachable!(),
        }
    }

    /// Cancels the copy, or spends it after its end. Replies, received or still to come, are dropped, and a handle that
    /// came or comes is closed.
    pub fn cancel(self, core: &mut Core)
        requires { IsPutting core.old self }
        ensures core { core.new ≡ drops_file (drops_parts core.old self.holding.parts) self.holding.file }
        ensures spares { SparesIds self.holding nothing_held core.old core.new }
    {
        let FilePut {
            holding,
            stage: _,
            window: _,
            at_end: _,
            offset: _,
            next: _,
            mode: _,
            attrs: _,
            sync: _,
            failure: _,
        } = self;
        holding.cancel(core);
    }
}

impl FilePut {
    /// Opens the local file at the offset, and asks for the part file to be opened.
    fn start<F: LocalFile>(
        &mut self,
        core: &mut Core,
        local: &mut F,
        name: &str,
        part: &str,
    ) -> Progress
        requires { MayPut core.old self.old × (self.old.stage ≡ stage.Starting) }
        ensures did { StartsPut F.done name.now part.now core.old self.old core.new self.new (F.history local.old) (F.history local.new) result }
        ensures leaves { PutLeaves core.old self.old core.new self.new }
        ensures ended { PutHasEnded self.new.stage result }
    {
        match local.open(name, self.offset) {
            Ok(()) => self.ask_open(core, part),
            Err(e) => {
                self.stage = PutStage::Ended;
                Progress::Ended(Err(e.into()))
            }
        }
    }

    /// Asks for the part file to be opened.
    fn ask_open(&mut self, core: &mut Core, part: &str) -> Progress
        requires { MayPut core.old self.old × (self.old.stage ≡ stage.Starting) }
        ensures did { AsksAt (open_part self.old.offset self.old.mode part.now) stage.Opening core.old self.old core.new self.new result }
        ensures leaves { PutLeaves core.old self.old core.new self.new }
        ensures ended { PutHasEnded self.new.stage result }
    {
        let options = write_options(self.offset);
        let request = match open_with(core.alloc(), options, self.mode, part) {
            Ok(request) => request,
            Err(OutOfMemory) => {
                self.stage = PutStage::Ended;
                return Progress::Ended(Err(CopyError::OutOfMemory));
            }
        };
        match self.holding.ask(core, &request) {
            Ok(()) => {
                self.stage = PutStage::Opening;
                Progress::Moved
            }
            Err(e) => {
                self.stage = PutStage::Ended;
                Progress::Ended(Err(e))
            }
        }
    }

    /// Continues with the reply to the OPEN.
    fn open(&mut self, core: &mut Core) -> Progress
        requires { MayPut core.old self.old × (self.old.stage ≡ stage.Opening) }
        ensures did { OpensPut core.old self.old core.new self.new result }
        ensures leaves { PutLeaves core.old self.old core.new self.new }
        ensures ended { PutHasEnded self.new.stage result }
    {
        match self.holding.settle(core) {
            FileAnswer::Missing => Progress::Waits,
            FileAnswer::Granted => {
                self.stage = PutStage::Writing;
                Progress::Moved
            }
            FileAnswer::Came(reply) => {
                self.stage = PutStage::Ended;
                Progress::Ended(Err(refused(reply)))
            }
            FileAnswer::Failed(fault) => {
                self.stage = PutStage::Ended;
                Progress::Ended(Err(faulted(fault)))
            }
        }
    }

    /// Continues with the status of the first WRITE, or writes more.
    fn write<F: LocalFile>(&mut self, core: &mut Core, local: &mut F) -> Progress
        requires { MayPut core.old self.old × (self.old.stage ≡ stage.Writing) }
        ensures did { WritesOn F.done core.old self.old core.new self.new (F.history local.old) (F.history local.new) result }
        ensures leaves { PutLeaves core.old self.old core.new self.new }
        ensures ended { PutHasEnded self.new.stage result }
    {
        match self.holding.take_part(core) {
            PartAnswer::Came(reply, len) => self.accept(core, reply, len),
            PartAnswer::Failed(fault) => self.fail(core, faulted(fault)),
            PartAnswer::Missing => self.send(core, local),
            PartAnswer::Idle => self.send(core, local),
        }
    }

    /// Continues with the status of the first WRITE, which carried `len` bytes, or of the FSETSTAT, which carried none.
    fn accept(&mut self, core: &mut Core, reply: Reply, len: u32) -> Progress
        requires { IsBehindWrite len core.old self.old }
        ensures did { AcceptsWrite reply len core.old self.old core.new self.new }
        ensures leaves { PutLeaves core.old self.old core.new self.new }
        ensures moved { result ≡ Progress.Moved }
    {
        match settled(reply) {
            Ok(()) => {
                self.offset += len as u64;
                Progress::Moved
            }
            Err(e) => self.fail(core, e),
        }
    }

    /// Writes more if there is room. Otherwise, after all bytes are written, the file is given its attributes and then
    /// closed.
    fn send<F: LocalFile>(&mut self, core: &mut Core, local: &mut F) -> Progress
        requires { MayPut core.old self.old × (self.old.stage ≡ stage.Writing) }
        ensures did { PutSendsOn F.done core.old self.old core.new self.new (F.history local.old) (F.history local.new) result }
        ensures leaves { PutLeaves core.old self.old core.new self.new }
        ensures ended { PutHasEnded self.new.stage result }
    {
        let parts = self.holding.under_way();
        if self.at_end {
            if parts == 0 {
                return self.end_sending(core);
            }
            return Progress::Waits;
        }
        if parts < self.window as usize && self.next < u64::MAX {
            return self.push(core, local);
        }
        if parts == 0 {
            return self.fail(
                core,
                CopyError::Remote(Error::IOError(IoKind::OffsetOverflow)),
            );
        }
        Progress::Waits
    }

    /// Writes the next bytes of the local file.
    fn push<F: LocalFile>(&mut self, core: &mut Core, local: &mut F) -> Progress
        requires writes { MayPut core.old self.old × (self.old.stage ≡ stage.Writing) }
        requires below { self.old.next < 2 ^ 64 - 1 }
        ensures did { PutReadsNext F.done core.old self.old core.new self.new (F.history local.old) (F.history local.new) }
        ensures leaves { PutLeaves core.old self.old core.new self.new }
        ensures moved { result ≡ Progress.Moved }
    {
        let Some(info) = core.info() else {
            unreachable!()
        };
        let room = (info.write_len as u64).min(u64::MAX - self.next) as u32;
        match local.read(core.alloc(), room) {
            Ok(bytes) => {
                if bytes.is_empty() {
                    self.at_end = true;
                    return Progress::Moved;
                }
                self.push_piece(core, &bytes)
            }
            Err(e) => self.fail(core, e.into()),
        }
    }

    /// Writes a piece after the others.
    fn push_piece(&mut self, core: &mut Core, bytes: &Bytes) -> Progress
        requires writes { MayPut core.old self.old × (self.old.stage ≡ stage.Writing) }
        requires fits { (0 < length bytes.now) × (length bytes.now < 2 ^ 32) }
        requires small { length bytes.now ≤ 2 ^ 64 - 1 - self.old.next }
        ensures did { PutWritesNext bytes.now core.old self.old core.new self.new }
        ensures leaves { PutLeaves core.old self.old core.new self.new }
        ensures moved { result ≡ Progress.Moved }
    {
        match self.holding.ask_write(core, self.next, bytes) {
            Ok(()) => {
                self.next += bytes.len() as u64;
                Progress::Moved
            }
            Err(e) => self.fail(core, e),
        }
    }

    /// Ends the sending, after all bytes are written. The file is given its attributes if any are left to give;
    /// otherwise it is written through to the server's disk, or closed.
    fn end_sending(&mut self, core: &mut Core) -> Progress
        requires writes { MayPut core.old self.old × (self.old.stage ≡ stage.Writing) }
        requires all { (self.old.at_end ≡ true) × (self.old.holding.parts ≡ []) }
        ensures did { PutEndsSending core.old self.old core.new self.new }
        ensures leaves { PutLeaves core.old self.old core.new self.new }
        ensures moved { result ≡ Progress.Moved }
    {
        match self.attrs {
            Some(attrs) => self.give_attrs(core, attrs),
            None => self.sync_or_finish(core),
        }
    }

    /// Writes the file through to the server's disk if that is wanted, offered and was not asked yet; otherwise closes
    /// it.
    fn sync_or_finish(&mut self, core: &mut Core) -> Progress
        requires writes { MayPut core.old self.old × (self.old.stage ≡ stage.Writing) }
        requires all { (self.old.at_end ≡ true) × (self.old.holding.parts ≡ []) }
        requires given { self.old.attrs ≡ None }
        ensures did { PutSyncsOrCloses core.old self.old core.new self.new }
        ensures leaves { PutLeaves core.old self.old core.new self.new }
        ensures moved { result ≡ Progress.Moved }
    {
        if self.is_sync_due(core) {
            return self.ask_sync(core);
        }
        self.finish(core)
    }

    /// Returns true if an fsync of the file is left to ask.
    fn is_sync_due(&self, core: &Core) -> bool
        ensures { result ≡ is_sync_due core.now self.now }
    {
        if self.sync {
            return offers(core, Extensions::FSYNC);
        }
        false
    }

    /// Asks once for the file to be written through to the server's disk.
    fn ask_sync(&mut self, core: &mut Core) -> Progress
        requires { MayPut core.old self.old × (self.old.stage ≡ stage.Writing) }
        ensures did { PutAsksSync core.old self.old core.new self.new }
        ensures leaves { PutLeaves core.old self.old core.new self.new }
        ensures moved { result ≡ Progress.Moved }
    {
        match self.holding.ask_sync(core) {
            Ok(()) => {
                self.sync = false;
                Progress::Moved
            }
            Err(e) => self.fail(core, e),
        }
    }

    /// Asks once for the file to be given attributes.
    fn give_attrs(&mut self, core: &mut Core, attrs: FileAttrs) -> Progress
        requires { MayPut core.old self.old × (self.old.stage ≡ stage.Writing) }
        ensures did { PutAsksAttrs attrs core.old self.old core.new self.new }
        ensures leaves { PutLeaves core.old self.old core.new self.new }
        ensures moved { result ≡ Progress.Moved }
    {
        match self.holding.ask_attrs(core, attrs) {
            Ok(()) => {
                self.attrs = None;
                Progress::Moved
            }
            Err(e) => self.fail(core, e),
        }
    }

    /// Closes the file, and awaits the status.
    fn finish(&mut self, core: &mut Core) -> Progress
        requires { IsOpenToWrite core.old self.old }
        ensures did { PutFinishes core.old self.old.holding self.old core.new self.new }
        ensures leaves { PutLeaves core.old self.old core.new self.new }
        ensures moved { result ≡ Progress.Moved }
    {
        self.holding.let_go(core);
        self.stage = PutStage::Closing;
        Progress::Moved
    }

    /// Closes the file after a failure, and awaits the status.
    fn fail(&mut self, core: &mut Core, e: CopyError) -> Progress
        requires { IsOpenToWrite core.old self.old }
        ensures did { PutGivesUp core.old self.old.holding self.old core.new self.new }
        ensures leaves { PutLeaves core.old self.old core.new self.new }
        ensures moved { result ≡ Progress.Moved }
    {
        self.holding.let_go(core);
        self.stage = PutStage::Closing;
        self.failure = Some(e);
        Progress::Moved
    }
}
