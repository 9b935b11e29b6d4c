//! The entries that a copy of one file has in a core.
ghost use Rattle.std.specs.Prelude.{◌≡◌, ◌<◌, ◌^◌, [], true, length, IfErr, OnOk, OnErr, IsSome};
ghost use Rattle.sftp_model.specs.declared.answers.Expected.TheVariants as expected;
ghost use Rattle.sftp_core.specs.Core.{is_call};
ghost use Rattle.sftp_core.specs.Info.{info_of};
ghost use Rattle.transfer_copy.specs.declared.holding.FileHold.TheVariants as hold;
ghost use Rattle.transfer_copy.specs.Holdings.{AsksFile, ClosesFile, DropsParts, HoldsAll, IsFileAsked, IsFileHeld, IsOnly, IsFileOpen, ArePartsHeld, AsksForAttrs, AsksForRead, AsksForSync, AsksForWrite, KeepsApart, LetsFileGo, SettlesAttrs, SettlesFile, SettlesStatus, SparesIds, TakesPart, drops_file, drops_parts, nothing_held};
ghost use Rattle.transfer_copy.specs.Refusals.{IsUnasked};
ghost use Rattle.transfer_copy.specs.declared.holding.FileHold.{FileHold as FileValue};

use crate::answers::{TicketAnswer, answer_to};
use crate::copy_error::CopyError;
use crate::refusals::{faulted, settled};
use crate::submission::{submit, submit_write};
use bytes::Bytes;
use sftp_core::{Core, Grant, Ticket};
use sftp_model::{Expected, Fault, FileAttrs, Reply, Request};
use std::alloc::Global;
use std::collections::VecDeque;
use std::marker::Model;
use std::mem;

/// A request in flight for bytes or attributes of a file, or its fsync: its ticket, the reply that it expects, and the
/// number of bytes that it asks for or carries; 0 for attributes and the fsync.
///
/// Used by the functions of this module.
#[must_use]
pub struct Part {
    pub(crate) ticket: Ticket,
    pub(crate) kind: Expected,
    pub(crate) len: u32,
}

/// The state of the file on the server.
///
/// Used by the functions of this module.
#[must_use]
pub enum FileHold {
    /// Nothing is open or in flight.
    Nothing,
    /// A request of the file in flight: to open, close, rename, look for or remove it.
    Asked(Ticket, Expected),
    /// The file is open.
    Opened(Grant),
}

/// The result of a request of the file.
pub(crate) enum FileAnswer {
    /// The reply is missing, and no fault is kept.
    Missing,
    /// The file is open.
    Granted,
    /// Another reply came.
    Came(Reply),
    /// The reply is missing, and this fault is kept.
    Failed(Fault),
}

/// The result of a request of the file that a status answers.
pub(crate) enum StatusAnswer {
    /// The reply is missing, and no fault is kept.
    Missing,
    /// The server answered with OK.
    Done,
    /// The server answered otherwise, or a fault is kept.
    NotDone(CopyError),
}

/// The result of a request for attributes.
pub(crate) enum AttrsAnswer {
    /// The reply is missing, and no fault is kept.
    Missing,
    /// The server answered with these attributes.
    Found(FileAttrs),
    /// The server answered otherwise, or a fault is kept.
    NotFound,
}

/// The result of the first part.
pub(crate) enum PartAnswer {
    /// No part is in flight.
    Idle,
    /// The reply is missing, and no fault is kept.
    Missing,
    /// The reply, and the number of bytes that the request asks for or carries.
    Came(Reply, u32),
    /// The reply is missing, and this fault is kept.
    Failed(Fault),
}

/// The entries that a copy of one file has in a core. It isn't droppable: `cancel` spends it.
///
/// Used in `crates/transfer_copy/src/put.rt`.
#[must_use]
pub struct Holding {
    file: FileHold,
    parts: VecDeque<Part>,
}

impl Model for Holding {
    ghost use Rattle.transfer_copy.specs.Holdings.{HoldingValue};

    ghost Value = { HoldingValue };

    ghost view = { λ h. record { file = h.file; parts = h.parts.items } };
}

impl FileHold {
    /// Puts a file into the empty place.
    fn put(&mut self, file: FileHold)
        requires { self.old ≡ hold.Nothing }
        ensures { self.new ≡ file }
    {
        match mem::replace(self, file) {
            FileHold::Nothing => {}
            FileHold::Asked(_ticket, _kind) => unreachable!(),
            FileHold::Opened(_grant) => unreachable!(),
        }
    }

    /// Takes the file out.
    fn take(&mut self) -> FileHold
        ensures was { result ≡ self.old }
        ensures now { self.new ≡ hold.Nothing }
    {
        mem::replace(self, FileHold::Nothing)
    }
}

impl Holding {
    /// Returns a holding with nothing in it.
    pub(crate) fn new(alloc: Global) -> Holding
        ensures { result ≡ nothing_held }
    {
        Holding {
            file: FileHold::Nothing,
            parts: VecDeque::new(alloc),
        }
    }

    /// Returns the number of parts in flight.
    pub(crate) fn under_way(&self) -> usize
        ensures { result ≡ length self.now.parts }
    {
        self.parts.len()
    }

    /// Submits a request of the file, if nothing is in flight for it. If the request is refused, core and holding are
    /// unchanged.
    pub(crate) fn ask(&mut self, core: &mut Core, request: &Request) -> Result<(), CopyError>
        requires nothing { self.old.file ≡ hold.Nothing }
        requires opened { IsSome (info_of core.old.phase) }
        requires call { is_call request.now ≡ true }
        requires held { HoldsAll core.old self.old }
        ensures ok { OnOk result (AsksFile core.old self.old request.now core.new self.new × KeepsApart self.old self.new core.old core.new) }
        ensures refused { IfErr result (λ e. (core.new ≡ core.old) × (self.new ≡ self.old) × IsUnasked core.old request.now e) }
    {
        // No `?`: the answer is named by the arm `Ok`, and `refused` is about this one.
        match submit(core, request) {
            Ok(ticket) => {
                self.file
                    .put(FileHold::Asked(ticket, Expected::of(request)));
                Ok(())
            }
            Err(e) => Err(e),
        }
    }

    /// Returns the result of the request of the file.
    pub(crate) fn settle(&mut self, core: &mut Core) -> FileAnswer
        requires asked { IsFileAsked self.old.file }
        requires held { HoldsAll core.old self.old }
        ensures settles { SettlesFile core.old self.old core.new self.new result }
        ensures apart { KeepsApart self.old self.new core.old core.new }
    {
        match self.file.take() {
            FileHold::Asked(ticket, kind) => match answer_to(core, ticket) {
                TicketAnswer::Came(reply) => FileAnswer::Came(reply),
                TicketAnswer::Granted(grant) => {
                    self.file.put(FileHold::Opened(grant));
                    FileAnswer::Granted
                }
                TicketAnswer::Missing(ticket) => {
                    self.file.put(FileHold::Asked(ticket, kind));
                    FileAnswer::Missing
                }
                TicketAnswer::Failed(fault) => FileAnswer::Failed(fault),
            },
            FileHold::Nothing => unreachable!(),
            FileHold::Opened(_grant) => unreachable!(),
        }
    }

    /// Returns the result of the request of the file, which a status answers, if nothing else is in flight.
    pub(crate) fn settle_status(&mut self, core: &mut Core) -> StatusAnswer
        requires only { IsOnly expected.Status self.old }
        requires held { HoldsAll core.old self.old }
        ensures answers { SettlesStatus core.old self.old core.new self.new result }
        ensures apart { KeepsApart self.old self.new core.old core.new }
    {
        match self.settle(core) {
            FileAnswer::Missing => StatusAnswer::Missing,
            FileAnswer::Granted => unreachable!(),
            FileAnswer::Came(reply) => match settled(reply) {
                Ok(()) => StatusAnswer::Done,
                Err(e) => StatusAnswer::NotDone(e),
            },
            FileAnswer::Failed(fault) => StatusAnswer::NotDone(faulted(fault)),
        }
    }

    /// Returns the result of the request of the file, which ATTRS or a refusal answers, if nothing else is in flight.
    pub(crate) fn settle_attrs(&mut self, core: &mut Core) -> AttrsAnswer
        requires only { IsOnly expected.Attrs self.old }
        requires held { HoldsAll core.old self.old }
        ensures answers { SettlesAttrs core.old self.old core.new self.new result }
        ensures apart { KeepsApart self.old self.new core.old core.new }
    {
        match self.settle(core) {
            FileAnswer::Missing => AttrsAnswer::Missing,
            FileAnswer::Granted => unreachable!(),
            FileAnswer::Came(reply) => match reply {
                Reply::Attrs(attrs) => AttrsAnswer::Found(attrs),
                _ => AttrsAnswer::NotFound,
            },
            FileAnswer::Failed(_fault) => AttrsAnswer::NotFound,
        }
    }

    /// Closes the file: its CLOSE is queued, and its status is awaited. It allocates no memory.
    pub(crate) fn close(&mut self, core: &mut Core)
        requires opened { IsFileOpen self.old.file }
        requires held { HoldsAll core.old self.old }
        ensures closes { ClosesFile core.old self.old core.new self.new }
        ensures apart { KeepsApart self.old self.new core.old core.new }
    {
        match self.file.take() {
            FileHold::Opened(grant) => match core.release(grant) {
                Some(ticket) => self.file.put(FileHold::Asked(ticket, Expected::Status)),
                None => unreachable!(),
            },
            FileHold::Nothing => unreachable!(),
            FileHold::Asked(_ticket, _kind) => unreachable!(),
        }
    }
}

impl Holding {
    /// Asks for bytes of the file at an offset, after the other parts. If the request is refused, core and holding are
    /// unchanged.
    pub(crate) fn ask_read(
        &mut self,
        core: &mut Core,
        offset: u64,
        len: u32,
    ) -> Result<(), CopyError>
        requires file { IsFileOpen self.old.file }
        requires opened { IsSome (info_of core.old.phase) }
        requires held { HoldsAll core.old self.old }
        ensures ok { OnOk result (AsksForRead core.old self.old offset len core.new self.new × KeepsApart self.old self.new core.old core.new) }
        ensures unchanged { OnErr result ((core.new ≡ core.old) × (self.new ≡ self.old)) }
    {
        let FileHold::Opened(grant) = &self.file else {
            unreachable!()
        };
        let request = Request::Read {
            handle: grant.handle().copied(),
            offset,
            len,
        };
        if self.parts.reserve(1).is_err() {
            return Err(CopyError::OutOfMemory);
        }
        // No `?`: the answer is named by the arm `Ok`, and `unchanged` is about this one.
        match submit(core, &request) {
            Ok(ticket) => {
                self.parts.push_back_reserved(Part {
                    ticket,
                    kind: Expected::Content { len },
                    len,
                });
                Ok(())
            }
            Err(e) => Err(e),
        }
    }

    /// Writes these bytes to the file at an offset, after the other parts. If the request is refused, core and holding
    /// are unchanged.
    pub(crate) fn ask_write(
        &mut self,
        core: &mut Core,
        offset: u64,
        bytes: &Bytes,
    ) -> Result<(), CopyError>
        requires file { IsFileOpen self.old.file }
        requires opened { IsSome (info_of core.old.phase) }
        requires held { HoldsAll core.old self.old }
        requires few { length bytes.now < 2 ^ 32 }
        ensures ok { OnOk result (AsksForWrite core.old self.old offset bytes.now core.new self.new × KeepsApart self.old self.new core.old core.new) }
        ensures unchanged { OnErr result ((core.new ≡ core.old) × (self.new ≡ self.old)) }
    {
        let FileHold::Opened(grant) = &self.file else {
            unreachable!()
        };
        if self.parts.reserve(1).is_err() {
            return Err(CopyError::OutOfMemory);
        }
        // No `?`: the answer is named by the arm `Ok`, and `unchanged` is about this one.
        match submit_write(core, grant.handle(), offset, bytes) {
            Ok(ticket) => {
                self.parts.push_back_reserved(Part {
                    ticket,
                    kind: Expected::Status,
                    len: bytes.len() as u32,
                });
                Ok(())
            }
            Err(e) => Err(e),
        }
    }

    /// Gives the file these attributes, after the other parts (draft-ietf-secsh-filexfer-02, section 6.9). If the
    /// request is refused, core and holding are unchanged.
    pub(crate) fn ask_attrs(&mut self, core: &mut Core, attrs: FileAttrs) -> Result<(), CopyError>
        requires file { IsFileOpen self.old.file }
        requires opened { IsSome (info_of core.old.phase) }
        requires held { HoldsAll core.old self.old }
        ensures ok { OnOk result (AsksForAttrs core.old self.old attrs core.new self.new × KeepsApart self.old self.new core.old core.new) }
        ensures unchanged { OnErr result ((core.new ≡ core.old) × (self.new ≡ self.old)) }
    {
        let FileHold::Opened(grant) = &self.file else {
            unreachable!()
        };
        let request = Request::Fsetstat {
            handle: grant.handle().copied(),
            attrs,
        };
        if self.parts.reserve(1).is_err() {
            return Err(CopyError::OutOfMemory);
        }
        // No `?`: the answer is named by the arm `Ok`, and `unchanged` is about this one.
        match submit(core, &request) {
            Ok(ticket) => {
                self.parts.push_back_reserved(Part {
                    ticket,
                    kind: Expected::Status,
                    len: 0,
                });
                Ok(())
            }
            Err(e) => Err(e),
        }
    }

    /// Has the file written through to the server's disk, after the other parts (OpenSSH's PROTOCOL, section 4.6). If
    /// the request is refused, core and holding are unchanged.
    pub(crate) fn ask_sync(&mut self, core: &mut Core) -> Result<(), CopyError>
        requires file { IsFileOpen self.old.file }
        requires opened { IsSome (info_of core.old.phase) }
        requires held { HoldsAll core.old self.old }
        ensures ok { OnOk result (AsksForSync core.old self.old core.new self.new × KeepsApart self.old self.new core.old core.new) }
        ensures unchanged { OnErr result ((core.new ≡ core.old) × (self.new ≡ self.old)) }
    {
        let FileHold::Opened(grant) = &self.file else {
            unreachable!()
        };
        let request = Request::Fsync {
            handle: grant.handle().copied(),
        };
        if self.parts.reserve(1).is_err() {
            return Err(CopyError::OutOfMemory);
        }
        // No `?`: the answer is named by the arm `Ok`, and `unchanged` is about this one.
        match submit(core, &request) {
            Ok(ticket) => {
                self.parts.push_back_reserved(Part {
                    ticket,
                    kind: Expected::Status,
                    len: 0,
                });
                Ok(())
            }
            Err(e) => Err(e),
        }
    }

    /// Returns the result of the first part, if one is in flight. The part is removed unless its reply is missing.
    pub(crate) fn take_part(&mut self, core: &mut Core) -> PartAnswer
        requires { HoldsAll core.old self.old }
        ensures takes { TakesPart core.old self.old core.new self.new result }
        ensures apart { KeepsApart self.old self.new core.old core.new }
    {
        let Some(part) = self.parts.pop_front() else {
            return PartAnswer::Idle;
        };
        let Part { ticket, kind, len } = part;
        match answer_to(core, ticket) {
            TicketAnswer::Came(reply) => PartAnswer::Came(reply, len),
            TicketAnswer::Granted(_grant) => unreachable!(),
            TicketAnswer::Failed(fault) => PartAnswer::Failed(fault),
            TicketAnswer::Missing(ticket) => {
                self.parts.push_front_reserved(Part { ticket, kind, len });
                PartAnswer::Missing
            }
        }
    }

    /// Abandons the parts in flight.
    pub(crate) fn abandon_parts(&mut self, core: &mut Core)
        requires { HoldsAll core.old self.old }
        ensures drops { DropsParts core.old self.old core.new self.new }
        ensures apart { KeepsApart self.old self.new core.old core.new }
    {
        drop_parts(&mut self.parts, core);
    }

    /// Abandons the parts in flight, and closes the file.
    pub(crate) fn let_go(&mut self, core: &mut Core)
        requires opened { IsFileOpen self.old.file }
        requires held { HoldsAll core.old self.old }
        ensures goes { LetsFileGo core.old self.old core.new self.new }
        ensures apart { KeepsApart self.old self.new core.old core.new }
    {
        self.abandon_parts(core);
        self.close(core);
    }

    /// Abandons everything: replies, received or still to come, are dropped, and a handle that came or comes is closed.
    pub(crate) fn cancel(self, core: &mut Core)
        requires { HoldsAll core.old self }
        ensures core { core.new ≡ drops_file (drops_parts core.old self.parts) self.file }
        ensures spares { SparesIds self nothing_held core.old core.new }
    {
        let Holding { file, mut parts } = self;
        drop_parts(&mut parts, core);
        parts.destroy_empty();
        drop_file(file, core);
    }
}

/// Abandons the tickets of parts, the first one first.
#[tactic(auto, using(crate::proofs::DropLaws::drops_first, crate::proofs::DropLaws::drops_ticket, crate::proofs::DropLaws::drops_next, crate::proofs::DropLaws::drops_all))]
fn drop_parts(parts: &mut VecDeque<Part>, core: &mut Core)
    requires { (file : FileValue) × ArePartsHeld core.old file parts.old.items }
    ensures core { core.new ≡ drops_parts core.old parts.old.items }
    ensures none { parts.new.items ≡ [] }
{
    while let Some(part) = parts.pop_front() {
        let Part {
            ticket,
            kind: _,
            len: _,
        } = part;
        core.abandon(ticket);
    }
}

/// Abandons the request or the grant of a file.
fn drop_file(file: FileHold, core: &mut Core)
    requires { IsFileHeld core.old file }
    ensures { core.new ≡ drops_file core.old file }
{
    match file {
        FileHold::Nothing => {}
        FileHold::Asked(ticket, _kind) => core.abandon(ticket),
        FileHold::Opened(grant) => match core.release(grant) {
            Some(ticket) => core.abandon(ticket),
            None => unreachable!(),
        },
    }
}
