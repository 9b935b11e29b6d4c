//! A session over a link: its opening and its end, what it sends and takes, and what it offers.
ghost use Rattle.std.specs.Prelude.{◌≡◌, ◌<◌, ◌-◌, ◌^◌, [], None, Some, IsSome};
ghost use Rattle.std.specs.Borrow.{Lends, sem};
ghost use Rattle.plan_model.specs.Moves.{offers};
ghost use Rattle.sftp_client.specs.contracts.sftp.Sftp.{the_row};
ghost use Rattle.sftp_core.specs.contracts.pipeline.Core.{the_row as core_row};
ghost use Rattle.sftp_core.specs.Frames.{AreFilled};
ghost use Rattle.sftp_core.specs.Info.{info_of};
ghost use Rattle.sftp_core.specs.Pieces.{chunk_bytes};
ghost use Rattle.sftp_file.specs.Files.{facts_of};
ghost use Rattle.sftp_model.specs.Numbers.{COPY_DATA, EXPAND_PATH, FSYNC, HARDLINK, POSIX_RENAME};
ghost use Rattle.sftp_model.specs.OpenOptions.{nothing_chosen};
ghost use Rattle.sftp_client.specs.Calls.{IsCallable, MayStartOr};
ghost use Rattle.sftp_client.specs.Rounds.{ClosesSession, DrainsReplies, ExchangeEnds, OpenEnds, OpensSftp, fresh_sftp};
ghost use Rattle.sftp_client.specs.Sessions.{FlushesQueue, FlushesUnfailed, IsWholeFrame, PullsFrame, SendsRest, TakesOrKept, TakesPulled, TakesUnfailed, TakesWhole, fault_by, kept_after, with_core, with_link};
ghost use Rattle.sftp_client.specs.Waits.{IsReadyOr};

mod calls;
mod directories;
mod files;
mod paths;
mod trees;

use crate::incoming::Incoming;
use crate::outgoing::Outgoing;
use bitflags::Flags;
use link_frames::refused;
use sftp_core::{Chunk, Core, Info, MAX_IDS};
use sftp_fs::Fs;
use sftp_link::Link;
use sftp_model::{Error, Extensions, Fault, OpenOptions, RemotePath, SftpOptions};
use std::alloc::Global;
use std::marker::Model;
use std::mem;

/// A session over a link. A call of it sends what is queued, or takes one frame; between its calls nothing is sent or
/// read. Bytes that are unsent when it is dropped are never sent. A contract sees its core, the bytes that were handed
/// out and not sent, the bytes that came of the next frame, and the link.
///
/// Example: `crates/example_client/src/first.rt`.
#[derive(Drop)]
pub struct Sftp<L> {
    alloc: Global,
    core: Core,
    outgoing: Outgoing,
    incoming: Incoming,
    link: L,
}

impl<L> Model for Sftp<L> {
    ghost use Rattle.std.specs.Coded.{codes};
    ghost use Rattle.sftp_core.specs.contracts.pipeline.Core as of_core;
    ghost use Rattle.sftp_client.specs.Sessions.{SftpValue};

    ghost Value = { SftpValue L };

    ghost coded = { Prim.hlevel (codes, of_core.the_row.coded) };

    ghost view = { λ s. record { core = s.core; unsent = s.outgoing; coming = s.incoming; link = s.link } };
}

/// Returns the fault that a core keeps after an error of its link or of a frame's length. Running out of memory keeps
/// none.
fn fault_after(e: &Error) -> Option<Fault>
    ensures { result ≡ fault_by e.now }
{
    match e {
        Error::LinkFault => Some(Fault::Link),
        Error::LinkEnded => Some(Fault::Ended),
        Error::FormatError(kind) => Some(Fault::Format(*kind)),
        _ => None,
    }
}

impl<L: Link> Sftp<L> {
    /// Opens a session over a link: sends the hello and takes VERSION, and asks for the limits if the server offers to
    /// report them (draft-ietf-secsh-filexfer-02, section 4; OpenSSH's PROTOCOL, section 4.8). The core's `info` is
    /// `Some` then.
    ///
    /// # Errors
    ///
    /// The error if an allocation, the link or a frame fails. It hands the link back, as far as it was used.
    pub fn new(alloc: Global, link: L, options: &SftpOptions) -> Result<Sftp<L>, (Error, L)>
        requires { (L.LinkState.state link).faults < 2 ^ 64 - 1 }
        ensures { OpensSftp L.LinkState.state link options.now result }
    {
        let Ok(core) = Core::new(alloc, options) else {
            return Err((Error::OutOfMemory, link));
        };
        let mut sftp = Sftp {
            alloc,
            core,
            outgoing: Outgoing::new(),
            incoming: Incoming::new(alloc),
            link,
        };
        match sftp.open_session() {
            Ok(()) => Ok(sftp),
            Err(e) => Err((e, sftp.into_link())),
        }
    }

    /// Sends what is queued and takes frames until no request is unanswered, and hands the link back.
    ///
    /// # Errors
    ///
    /// A recorded fault is reported first; then the errors of `flush` and `take`. Each of them hands the link back too.
    pub fn close(self) -> Result<L, (Error, L)>
        requires opened { IsSome (info_of self.core.phase) }
        requires count { (L.LinkState.state self.link).faults < 2 ^ 64 - 1 }
        ensures { ClosesSession L.LinkState.state self result }
    {
        let mut sftp = self;
        match sftp.drain() {
            Ok(()) => Ok(sftp.into_link()),
            Err(e) => Err((e, sftp.into_link())),
        }
    }

    /// Returns the core, to submit requests and to poll them. The session then has the core as the caller leaves it,
    /// and nothing else changes.
    pub fn core(&mut self) -> &mut Core
        ensures value { result.now ≡ self.old.core }
        ensures* writes_back { sem 𝓛 (Lends (the_row L.row) core_row self.entry result (with_core self.old)) }
    {
        &mut self.core
    }

    /// Returns the link.
    pub fn link(&self) -> &L
        ensures { result.now ≡ self.now.link }
    {
        &self.link
    }

    /// Returns the link, for example to flush the bytes that it holds back. The session then has the link as the caller
    /// leaves it, and nothing else changes.
    pub fn link_mut(&mut self) -> &mut L
        ensures value { result.now ≡ self.old.link }
        ensures* writes_back { sem 𝓛 (Lends (the_row L.row) L.row self.entry result (with_link self.old)) }
    {
        &mut self.link
    }

    /// Sends all that is queued, in order, after the bytes that an earlier call left unsent.
    ///
    /// # Errors
    ///
    /// A recorded fault is reported first, and nothing is sent then. `OutOfMemory` if an allocation fails: the unsent
    /// bytes are kept, and the next `flush`, `take` or `close` sends them first. `LinkFault` if the link fails: the
    /// fault is recorded, and each later call reports it.
    pub fn flush(&mut self) -> Result<(), Error>
        requires { (L.LinkState.state self.old.link).faults < 2 ^ 64 - 1 }
        ensures { FlushesQueue L.LinkState.state self.old self.new result }
    {
        if let Some(fault) = self.core.fault() {
            return Err(Error::BackgroundTaskFailure(fault));
        }
        self.flush_unfailed()
    }

    /// Does the same as `flush`, by the name that `openssh-sftp-client` has for it.
    ///
    /// # Errors
    ///
    /// Those of `flush`.
    pub fn manual_flush(&mut self) -> Result<(), Error>
        requires { (L.LinkState.state self.old.link).faults < 2 ^ 64 - 1 }
        ensures { FlushesQueue L.LinkState.state self.old self.new result }
    {
        self.flush()
    }

    /// Takes one frame, and no byte past it. Returns false exactly if no sent request is unanswered; nothing is read
    /// then. The bytes that an earlier call left unsent are sent first.
    ///
    /// # Errors
    ///
    /// A recorded fault is reported first. `OutOfMemory` if an allocation fails: the bytes that came of the frame are
    /// kept, and the call may be repeated. After any other error its fault is recorded, and each later call reports it.
    pub fn take(&mut self) -> Result<bool, Error>
        requires { (L.LinkState.state self.old.link).faults < 2 ^ 64 - 1 }
        ensures { TakesOrKept L.LinkState.state self.old self.new result }
    {
        if let Some(fault) = self.core.fault() {
            return Err(Error::BackgroundTaskFailure(fault));
        }
        self.take_unfailed()
    }

    /// Returns options to open a file with, with nothing chosen.
    pub fn options(&self) -> OpenOptions
        ensures { result ≡ nothing_chosen }
    {
        OpenOptions::new()
    }

    /// Returns the calls on paths from the directory in which the session began. No memory is allocated.
    pub fn fs(&self) -> Fs
        ensures { result ≡ [] }
    {
        Fs::new(RemotePath::new(Vec::new(self.alloc)))
    }

    /// Returns true if the server finds the whole name of a path that begins with `~` (`expand-path@openssh.com`,
    /// OpenSSH's PROTOCOL, section 4.9).
    pub fn support_expand_path(&self) -> bool
        requires { IsSome (info_of self.now.core.phase) }
        ensures { result ≡ offers (facts_of self.now.core) EXPAND_PATH }
    {
        self.offers(Extensions::EXPAND_PATH)
    }

    /// Returns true if the server writes a file's content to its disk when asked (`fsync@openssh.com`, OpenSSH's
    /// PROTOCOL, section 4.6).
    pub fn support_fsync(&self) -> bool
        requires { IsSome (info_of self.now.core.phase) }
        ensures { result ≡ offers (facts_of self.now.core) FSYNC }
    {
        self.offers(Extensions::FSYNC)
    }

    /// Returns true if the server gives a file a second name (`hardlink@openssh.com`, OpenSSH's PROTOCOL, section 4.5).
    pub fn support_hardlink(&self) -> bool
        requires { IsSome (info_of self.now.core.phase) }
        ensures { result ≡ offers (facts_of self.now.core) HARDLINK }
    {
        self.offers(Extensions::HARDLINK)
    }

    /// Returns true if a rename replaces a file that has the new name (`posix-rename@openssh.com`, OpenSSH's PROTOCOL,
    /// section 4.3).
    pub fn support_posix_rename(&self) -> bool
        requires { IsSome (info_of self.now.core.phase) }
        ensures { result ≡ offers (facts_of self.now.core) POSIX_RENAME }
    {
        self.offers(Extensions::POSIX_RENAME)
    }

    /// Returns true if the server copies from one file to another (`copy-data`,
    /// draft-ietf-secsh-filexfer-extensions-00, section 7).
    pub fn support_copy(&self) -> bool
        requires { IsSome (info_of self.now.core.phase) }
        ensures { result ≡ offers (facts_of self.now.core) COPY_DATA }
    {
        self.offers(Extensions::COPY_DATA)
    }

    /// Returns the most bytes that one WRITE carries, from 1 to 1048275.
    pub fn max_write_len(&self) -> u32
        requires { IsSome (info_of self.now.core.phase) }
        ensures { result ≡ (facts_of self.now.core).write_len }
    {
        self.info().write_len
    }

    /// Returns the most bytes that one READ asks for, from 1 to 1048275.
    pub fn max_read_len(&self) -> u32
        requires { IsSome (info_of self.now.core.phase) }
        ensures { result ≡ (facts_of self.now.core).read_len }
    {
        self.info().read_len
    }

    /// Checks that an id is left for another request. A recorded fault is not reported here: the start of the request
    /// reports it.
    ///
    /// # Errors
    ///
    /// `OutOfMemory` if 2147483648 ids are in use.
    pub fn ready(&self) -> Result<(), Error>
        requires { IsSome (info_of self.now.core.phase) }
        ensures { IsReadyOr self.now.core result }
    {
        if self.core.kept() < MAX_IDS {
            Ok(())
        } else {
            Err(Error::OutOfMemory)
        }
    }

    /// Checks that a call can be started: no fault is kept, and an id is left.
    fn check_start(&self) -> Result<(), Error>
        requires { IsCallable L.LinkState.state self.now }
        ensures { MayStartOr L.LinkState.state self.now result }
    {
        if let Some(fault) = self.core.fault() {
            return Err(Error::BackgroundTaskFailure(fault));
        }
        self.ready()
    }

    /// Sends the hello and takes VERSION, and also the limits if the server offers to report them.
    fn open_session(&mut self) -> Result<(), Error>
        requires empty { self.old ≡ fresh_sftp self.old.core.options self.old.link }
        requires count { (L.LinkState.state self.old.link).faults < 2 ^ 64 - 1 }
        ensures { OpenEnds L.LinkState.state self.old self.new result }
    {
        self.exchange()?;
        if self.core.info().is_none() {
            self.exchange()?;
        }
        Ok(())
    }

    /// Sends what is queued, and takes one frame.
    fn exchange(&mut self) -> Result<(), Error>
        requires unfailed { self.old.core.fault ≡ None }
        requires count { (L.LinkState.state self.old.link).faults < 2 ^ 64 - 1 }
        ensures { ExchangeEnds L.LinkState.state self.old self.new result }
    {
        self.flush_unfailed()?;
        self.take_frame()
    }

    /// Sends what is queued and takes frames until no request is unanswered.
    fn drain(&mut self) -> Result<(), Error>
        requires opened { IsSome (info_of self.old.core.phase) }
        requires count { (L.LinkState.state self.old.link).faults < 2 ^ 64 - 1 }
        ensures { DrainsReplies L.LinkState.state self.old self.new result }
    {
        self.flush()?;
        while self.core.unanswered() > 0 {
            self.take()?;
            self.flush()?;
        }
        Ok(())
    }

    /// Returns the link alone.
    fn into_link(self) -> L
        ensures { result ≡ self.link }
    {
        let Sftp { link, .. } = self;
        link
    }

    /// Does a `flush` if the core has recorded no fault.
    fn flush_unfailed(&mut self) -> Result<(), Error>
        requires unfailed { self.old.core.fault ≡ None }
        requires count { (L.LinkState.state self.old.link).faults < 2 ^ 64 - 1 }
        ensures { FlushesUnfailed L.LinkState.state self.old self.new result }
    {
        self.send_rest()?;
        let Ok(chunk) = self.core.hand_out() else {
            return Err(Error::OutOfMemory);
        };
        self.put_out(chunk);
        self.send_rest()
    }

    /// Does a `take` if the core has recorded no fault.
    fn take_unfailed(&mut self) -> Result<bool, Error>
        requires unfailed { self.old.core.fault ≡ None }
        requires count { (L.LinkState.state self.old.link).faults < 2 ^ 64 - 1 }
        ensures { TakesUnfailed L.LinkState.state self.old self.new result }
    {
        self.send_rest()?;
        if self.core.awaited() == 0 {
            return Ok(false);
        }
        self.take_frame()?;
        Ok(true)
    }

    /// Sends the bytes that were handed out. A fault of the link is recorded.
    fn send_rest(&mut self) -> Result<(), Error>
        requires { (L.LinkState.state self.old.link).faults < 2 ^ 64 - 1 }
        ensures { SendsRest L.LinkState.state self.old self.new result }
    {
        match self.outgoing.send(&mut self.link) {
            Ok(()) => Ok(()),
            Err(e) => {
                self.keep(&e);
                Err(e)
            }
        }
    }

    /// Takes one frame. A fault of the link, and the first thing that is wrong with the frame, is recorded.
    fn take_frame(&mut self) -> Result<(), Error>
        requires unfailed { self.old.core.fault ≡ None }
        requires sent { self.old.unsent ≡ [] }
        requires count { (L.LinkState.state self.old.link).faults < 2 ^ 64 - 1 }
        ensures { TakesWhole L.LinkState.state self.old self.new result }
    {
        self.pull()?;
        self.take_pulled()
    }

    /// Takes the missing bytes of a frame. A fault of the link, and a length that no frame may have, is recorded.
    fn pull(&mut self) -> Result<(), Error>
        requires { (L.LinkState.state self.old.link).faults < 2 ^ 64 - 1 }
        ensures { PullsFrame L.LinkState.state self.old self.new result }
    {
        match self.incoming.pull(self.alloc, &mut self.link) {
            Ok(()) => Ok(()),
            Err(e) => {
                self.keep(&e);
                Err(e)
            }
        }
    }

    /// Takes the frame that is whole. The first thing that is wrong with it is recorded; if an allocation fails the
    /// frame stays.
    fn take_pulled(&mut self) -> Result<(), Error>
        requires unfailed { self.old.core.fault ≡ None }
        requires whole { IsWholeFrame self.old.coming }
        ensures { TakesPulled self.old self.new result }
    {
        let Some(body) = self.incoming.frame() else {
            unreachable!()
        };
        match self.core.take(body) {
            Ok(_) => {
                self.incoming.clear();
                Ok(())
            }
            Err(e) => {
                if e.fault().is_some() {
                    self.incoming.clear();
                }
                Err(refused(e))
            }
        }
    }

    /// Records the fault of an error, if it has one.
    fn keep(&mut self, e: &Error)
        ensures { self.new ≡ record self.old { core = kept_after e.now self.old.core } }
    {
        if let Some(fault) = fault_after(e) {
            self.core.fail(fault);
        }
    }

    /// Puts a chunk in the place of one that was sent; the core uses the memory of that one again.
    fn put_out(&mut self, chunk: Chunk)
        requires { AreFilled chunk.pieces }
        ensures { self.new ≡ record self.old { unsent = chunk_bytes chunk } }
    {
        let sent = mem::replace(&mut self.outgoing, Outgoing::of(chunk));
        if let Some(chunk) = sent.into_chunk() {
            self.core.give_back(chunk);
        }
    }

    /// Returns true if the server offers an extension.
    fn offers(&self, extension: Extensions) -> bool
        requires { IsSome (info_of self.now.core.phase) }
        ensures { result ≡ offers (facts_of self.now.core) extension.0 }
    {
        self.info().extensions.bits() & extension.bits() != 0
    }

    /// Returns the information that the server reported.
    fn info(&self) -> Info
        requires { IsSome (info_of self.now.core.phase) }
        ensures { info_of self.now.core.phase ≡ Some result }
    {
        match self.core.info() {
            Some(info) => info,
            None => unreachable!(),
        }
    }
}
