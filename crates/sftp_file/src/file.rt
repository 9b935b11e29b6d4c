//! An open file, the calls on it that send no request, and those on its attributes.
ghost use Rattle.std.specs.Prelude.{◌≡◌, ◌+◌, ◌<◌, ◌^◌, ℕ, [], not, ◌==◌, IfErr, OnOk, OnErr, IsSome, false, Some};
ghost use Rattle.sftp_model.specs.declared.slot.Facts.{Facts};
ghost use Rattle.sftp_model.specs.declared.slot.Site.{Site};
ghost use Rattle.sftp_model.specs.declared.slot.Slot.TheVariants as slots;
ghost use Rattle.sftp_model.specs.Slots.{has_grant, slot_at, with_slot};
ghost use Rattle.plan_model.specs.FilePlans.{close_next, seek_next, meta_next, set_len_next, set_next, sync_next};
ghost use Rattle.plan_model.specs.Moves.{Answers, handle_of};
ghost use Rattle.sftp_core.specs.Core.{record_at, core_after_release, core_after_retain, users_of, IsGrant};
ghost use Rattle.sftp_core.specs.Info.{info_of};
ghost use Rattle.sftp_file.specs.Files.{alone, facts_of, file_at, file_in, StartsOnFile};
ghost use Rattle.sftp_file.specs.Closes.{ReleasesFile};
ghost use Rattle.sftp_file.specs.Outcomes.{seek_outcome};
ghost use Rattle.sftp_model.specs.Frames.{is_too_long, no_attributes};
ghost use Rattle.sftp_model.specs.declared.request.Request.TheVariants as request;
ghost use Rattle.plan_state.specs.Asked.{IsReady, request_of};
ghost use Rattle.plan_state.specs.declared.submission.Asking.TheVariants as asking;
ghost use Rattle.sftp_file.specs.Tells.{attrs_meaning};
ghost use Rattle.sftp_file.specs.Settles.{settle_meaning};

use crate::facts::facts;
use crate::looks::{offers, sought};
use crate::short_calls::{AttrsCall, CloseCall, Settling, StatusCall, Telling, close_call};
use plan_state::{Asking, PendingCall};
use sftp_core::{Core, Ended, Grant};
use sftp_meta::{MetaData, Permissions};
use sftp_model::{Error, Extensions, FileAt, FileAttrs, IoKind, Request};
use std::io::SeekFrom;
use std::marker::Model;

/// An open file of the server, with the offset of the next read or write. It isn't droppable: `start_close` consumes
/// it, and `let_go` does after its core was given up.
///
/// Example: `crates/example_client/src/files.rt`.
#[must_use]
pub struct File {
    grant: Grant,
    readable: bool,
    writable: bool,
    offset: u64,
}

impl Model for File {
    ghost use Rattle.sftp_file.specs.Files.{FileValue};

    ghost Value = { FileValue };

    ghost view = { λ f. record { grant = f.grant; readable = f.readable; writable = f.writable; offset = f.offset } };
}

impl File {
    /// Returns the file of a grant with these rights, at offset 0.
    pub(crate) fn of(grant: Grant, readable: bool, writable: bool) -> File
        ensures { result ≡ record { grant = grant; readable = readable; writable = writable; offset = 0 } }
    {
        File {
            grant,
            readable,
            writable,
            offset: 0,
        }
    }

    /// Returns the file as plans have it, if the OPEN at place 0 brought its handle.
    pub fn at(&self) -> FileAt
        ensures { result ≡ file_at self.now }
    {
        FileAt {
            grant: 0,
            readable: self.readable,
            writable: self.writable,
            offset: self.offset,
        }
    }

    /// Returns the grant that the server gave for the file (draft-ietf-secsh-filexfer-02, section 6.3).
    pub fn grant(&self) -> &Grant
        ensures { result.now ≡ self.now.grant }
    {
        &self.grant
    }

    /// Returns the offset of the next read or write, in bytes.
    pub fn offset(&self) -> u64
        ensures { result ≡ self.now.offset }
    {
        self.offset
    }

    /// Returns the offset of the next read or write, in bytes. No seek is ever under way.
    pub fn poll_complete(&self) -> u64
        ensures { result ≡ self.now.offset }
    {
        self.offset
    }

    /// Returns true if the file was opened to read.
    pub fn is_readable(&self) -> bool
        ensures { result ≡ self.now.readable }
    {
        self.readable
    }

    /// Returns true if the file was opened to write or append.
    pub fn is_writable(&self) -> bool
        ensures { result ≡ self.now.writable }
    {
        self.writable
    }

    /// Returns the most bytes that one WRITE of the session carries, from 1 to 1048275.
    pub fn max_write_len(&self, core: &Core) -> u32
        requires { IsSome (info_of core.now.phase) }
        ensures { result ≡ (facts_of core.now).write_len }
    {
        facts(core).write_len
    }

    /// Returns the most bytes that one READ of the session asks for, from 1 to 1048275.
    pub fn max_read_len(&self, core: &Core) -> u32
        requires { IsSome (info_of core.now.phase) }
        ensures { result ≡ (facts_of core.now).read_len }
    {
        facts(core).read_len
    }

    /// Returns the file itself.
    pub fn as_mut_file(&mut self) -> &mut File
        ensures same_reference { result.ghost_name ≡ self.entry.ghost_name }
        ensures value { result.now ≡ self.old }
    {
        self
    }

    /// Sets the offset of the file.
    pub fn stand(&mut self, offset: u64)
        ensures { self.new ≡ record self.old { offset = offset } }
    {
        self.offset = offset;
    }

    /// Moves the offset of the file by this many bytes.
    pub fn advance(&mut self, by: u64)
        requires { self.old.offset + by < 2 ^ 64 }
        ensures { self.new ≡ record self.old { offset = self.old.offset + by } }
    {
        self.offset += by;
    }

    /// Moves the offset of the file; no request is needed.
    ///
    /// # Errors
    ///
    /// `IOError`; the file is unchanged then. `SeekFromEnd` comes for each position from the end, `SeekOverflow` if the
    /// offset would be over 18446744073709551615, and `SeekUnderflow` if it would be below 0.
    pub fn start_seek(&mut self, position: SeekFrom) -> Result<(), Error>
        ensures seeks { (facts : Facts) (answers : Answers)
            → seek_next 0 position (alone self.old) facts [] answers ≡ seek_outcome result self.new }
        ensures rest { self.new ≡ record self.old { offset = self.new.offset } }
        ensures unchanged { OnErr result (self.new ≡ self.old) }
    {
        match sought(self.offset, position) {
            Ok(offset) => {
                self.offset = offset;
                Ok(())
            }
            Err(why) => Err(Error::IOError(why)),
        }
    }

    /// Asks for the attributes of the file (draft-ietf-secsh-filexfer-02, section 6.8).
    ///
    /// # Errors
    ///
    /// Checked in this order: `IOError(NotReadable)`; `BackgroundTaskFailure` if the core has recorded a fault.
    /// `OutOfMemory` may come in place of any result. After an error nothing was submitted, and core and file are
    /// unchanged.
    pub fn start_metadata(&mut self, core: &mut Core) -> Result<AttrsCall, Error>
        requires { IsReady core.old }
        ensures starts { StartsOnFile attrs_meaning (alone self.old) (meta_next 0) self.old core.old core.new result }
        ensures left { self.new ≡ self.old }
    {
        if !self.is_readable() {
            return Err(Error::IOError(IoKind::NotReadable));
        }
        PendingCall::ask(core, self.fstat_request(), Telling {})
    }

    /// Returns the FSTAT of the file. It fits a frame, since a handle has at most 256 bytes.
    fn fstat_request(&self) -> Asking
        ensures is { result ≡ asking.Whole (request.Fstat self.now.grant.handle) }
        ensures short { is_too_long (request_of result) ≡ false }
    {
        let handle = self.grant().handle();
        let _short = handle.as_bytes();
        Asking::Whole(Request::Fstat {
            handle: handle.copied(),
        })
    }

    /// Sets the attributes of the file to those that the metadata has (draft-ietf-secsh-filexfer-02, section 6.9).
    ///
    /// # Errors
    ///
    /// Checked in this order: `IOError(NotWritable)`; `BackgroundTaskFailure` if the core has recorded a fault.
    /// `OutOfMemory` may come in place of any result. After an error nothing was submitted, and core and file are
    /// unchanged.
    pub fn start_set_metadata(
        &mut self,
        core: &mut Core,
        metadata: MetaData,
    ) -> Result<StatusCall, Error>
        requires { IsReady core.old }
        ensures starts { StartsOnFile settle_meaning (alone self.old) (set_next 0 metadata) self.old core.old core.new result }
        ensures left { self.new ≡ self.old }
    {
        if !self.is_writable() {
            return Err(Error::IOError(IoKind::NotWritable));
        }
        PendingCall::ask(
            core,
            self.fsetstat_request(metadata.into_inner()),
            Settling {},
        )
    }

    /// Sets the length of the file, in bytes, as `start_set_metadata` does.
    ///
    /// # Errors
    ///
    /// Those of `start_set_metadata`.
    pub fn start_set_len(&mut self, core: &mut Core, size: u64) -> Result<StatusCall, Error>
        requires { IsReady core.old }
        ensures starts { StartsOnFile settle_meaning (alone self.old) (set_len_next 0 size) self.old core.old core.new result }
        ensures left { self.new ≡ self.old }
    {
        let attrs = FileAttrs {
            size: Some(size),
            id: None,
            permissions: None,
            time: None,
        };
        self.start_set_metadata(core, MetaData::new(attrs))
    }

    /// Sets the permissions of the file, as `start_set_metadata` does.
    ///
    /// # Errors
    ///
    /// Those of `start_set_metadata`.
    pub fn start_set_permissions(
        &mut self,
        core: &mut Core,
        perm: Permissions,
    ) -> Result<StatusCall, Error>
        requires { IsReady core.old }
        ensures starts { StartsOnFile settle_meaning (alone self.old)
            (set_next 0 (record no_attributes { permissions = Some perm }))
            self.old core.old core.new result }
        ensures left { self.new ≡ self.old }
    {
        let attrs = FileAttrs {
            size: None,
            id: None,
            permissions: Some(perm.as_raw().bits()),
            time: None,
        };
        self.start_set_metadata(core, MetaData::new(attrs))
    }

    /// Asks the server to write the file's data to its disk (`fsync@openssh.com`, OpenSSH's PROTOCOL, section 4.6).
    ///
    /// # Errors
    ///
    /// Checked in this order: `UnsupportedExtension`; `IOError(NotWritable)`; `BackgroundTaskFailure` if the core has
    /// recorded a fault. `OutOfMemory` may come in place of any result. After an error nothing was submitted, and core
    /// and file are unchanged.
    pub fn start_sync_all(&mut self, core: &mut Core) -> Result<StatusCall, Error>
        requires { IsReady core.old }
        ensures starts { StartsOnFile settle_meaning (alone self.old) (sync_next 0) self.old core.old core.new result }
        ensures left { self.new ≡ self.old }
    {
        if !offers(&facts(core), Extensions::FSYNC) {
            return Err(Error::UnsupportedExtension(Extensions::FSYNC));
        }
        if !self.is_writable() {
            return Err(Error::IOError(IoKind::NotWritable));
        }
        PendingCall::ask(core, self.fsync_request(), Settling {})
    }

    /// Returns the FSETSTAT of these attributes. It fits a frame, since a handle has at most 256 bytes.
    fn fsetstat_request(&self, attrs: FileAttrs) -> Asking
        ensures is { result ≡ asking.Whole (request.Fsetstat self.now.grant.handle attrs) }
        ensures short { is_too_long (request_of result) ≡ false }
    {
        let handle = self.grant().handle();
        let _short = handle.as_bytes();
        Asking::Whole(Request::Fsetstat {
            handle: handle.copied(),
            attrs,
        })
    }

    /// Returns the request for a sync. It fits a frame, since a handle has at most 256 bytes.
    fn fsync_request(&self) -> Asking
        ensures is { result ≡ asking.Whole (request.Fsync self.now.grant.handle) }
        ensures short { is_too_long (request_of result) ≡ false }
    {
        let handle = self.grant().handle();
        let _short = handle.as_bytes();
        Asking::Whole(Request::Fsync {
            handle: handle.copied(),
        })
    }

    /// Returns the same file for another user, at the same offset. It is closed once its last user has closed it.
    pub fn clone_file(&self, core: &mut Core) -> File
        requires counted { IsGrant core.old self.now.grant }
        requires few { users_of (record_at core.old self.now.grant.id) < 4294967295 }
        ensures file { result ≡ self.now }
        ensures core { core.new ≡ core_after_retain core.old self.now.grant }
        ensures granted { IsGrant core.new self.now.grant }
    {
        File {
            grant: core.retain(&self.grant),
            readable: self.readable,
            writable: self.writable,
            offset: self.offset,
        }
    }

    /// Releases the file. CLOSE is sent exactly for the last user; the first poll of any other user's call returns `()`
    /// (draft-ietf-secsh-filexfer-02, section 6.3). It can't be refused.
    pub fn start_close(self, core: &mut Core) -> CloseCall
        requires { IsGrant core.old self.grant }
        ensures { ReleasesFile self core.old core.new result }
    {
        let File {
            grant,
            readable: _,
            writable: _,
            offset: _,
        } = self;
        close_call(core.release(grant))
    }

    /// Releases the file after its core was given up. No CLOSE is sent.
    pub fn let_go(self, core: Ended) {
        let File {
            grant,
            readable: _,
            writable: _,
            offset: _,
        } = self;
        grant.let_go(core);
    }
}
