//! `write_all`: writes all bytes part by part, each after a STATUS of OK to the one before.
ghost use Rattle.std.specs.Prelude.{false, ◌≡◌, ◌≤◌, ◌<◌, ◌+◌, ◌^◌, [], ◌∷◌, length, drop, refl, IfOk, OnErr};
ghost use Rattle.sftp_model.specs.Numbers.{MAX_TRANSFER_LEN};
ghost use Rattle.sftp_model.specs.Pieces.{joined_pieces};
ghost use Rattle.plan_model.specs.Moves.{Answers, handle_of};
ghost use Rattle.plan_model.specs.TransferPlans.{part_len, write_all_next};
ghost use Rattle.plan_state.specs.Asked.{IsReady};
ghost use Rattle.sftp_file.specs.Files.{StartsOnFile, file_at, one_slot};
ghost use Rattle.sftp_file.specs.Writes.{IsBehind, IsNext, IsPart, WriteAllValue, behind_part, first_part};
ghost use Rattle.sftp_file.specs.Writes.{rest_behind, rest_of, writes_wait, writing_all};

use crate::facts::facts;
use crate::file::File;
use crate::looks::may_write;
use crate::on_file::OnFile;
use crate::parts::{cut, one_piece, shared};
use crate::writes::write_request;
use bytes::Bytes;
use plan_state::{Asking, PendingCall, PlanRunner, Then, Told};
use sftp_core::Core;
use sftp_model::numbers::SSH_FX_OK;
use sftp_model::{Error, Facts, FileAt, Handle, Reply};
use sftp_values::Items;
use ssh_encoding::OutOfMemory;
use std::alloc::Global;
use std::marker::Model;

/// The WRITE of a part under way.
///
/// Used by the functions of this module.
#[derive(Drop)]
pub struct WritingAll {
    alloc: Global,
    handle: Handle,
    /// The file, at the offset of the part under way.
    file: FileAt,
    facts: Facts,
    /// The place of the part's WRITE.
    place: u64,
    /// The pieces as they were passed in.
    pieces: Items<Bytes>,
    /// The number of bytes before the part under way.
    done: usize,
    /// The number of bytes of the part.
    len: usize,
}

impl Model for WritingAll {
    ghost use Rattle.std.specs.Prelude.{false, ◌≡◌, ◌≤◌, ◌<◌, ◌+◌, ◌^◌, drop};
    ghost use Rattle.sftp_model.specs.Numbers.{MAX_TRANSFER_LEN};
    ghost use Rattle.sftp_model.specs.Pieces.{joined_pieces};
    ghost use Rattle.plan_model.specs.TransferPlans.{part_len};
    ghost use Rattle.sftp_file.specs.Writes.{WriteAllValue};

    ghost Value = { WriteAllValue };

    ghost view = { λ m. record {
      handle = m.handle;
      file = m.file;
      facts = m.facts;
      place = m.place;
      pieces = m.pieces;
      done = m.done;
    } };

    ghost invariant = { λ m. (m.len ≡ part_len m.facts (drop m.done (joined_pieces m.pieces)))
        × (m.file.offset + m.len < 2 ^ 64)
        × (m.done ≤ m.file.offset)
        × (1 ≤ m.facts.write_len)
        × (m.facts.write_len ≤ MAX_TRANSFER_LEN) };
}

/// A write of all bytes to a file, part by part.
pub type WriteAllCall = PendingCall<WritingAll>;

/// The step after the parts that were written.
#[derive(Drop)]
pub(crate) enum Part {
    /// The call ends with this value.
    Over(Result<(), Error>),
    /// The WRITE of the next part, and the length of its content.
    Ask(Asking, usize),
}

/// Returns the next part of the pieces after `done` bytes, at the file's offset. Fails only if an allocation fails.
fn next_write(
    alloc: Global,
    handle: &Handle,
    file: &FileAt,
    facts: &Facts,
    pieces: &[Bytes],
    done: usize,
) -> Result<Part, OutOfMemory>
    requires { (1 ≤ facts.now.write_len) × (facts.now.write_len ≤ MAX_TRANSFER_LEN) }
    ensures part { (answers : Answers) → handle_of (answers file.now.grant) ≡ handle.now
        → IfOk result (IsPart (one_slot file.now)
        (rest_of file.now (drop done (joined_pieces pieces.now)) facts.now [] answers)) }
    ensures next { IfOk result (IsNext file.now facts.now pieces.now done) }
{
    let (parts, len) = cut(alloc, pieces, done, facts.write_len as usize)?;
    if len == 0 {
        return Ok(Part::Over(Ok(())));
    }
    if let Err(why) = may_write(file, len) {
        return Ok(Part::Over(Err(Error::IOError(why))));
    }
    Ok(Part::Ask(write_request(handle, file.offset, parts), len))
}

impl WritingAll {
    /// Continues after the part that was written. Fails only if an allocation fails; the runner is unchanged then.
    fn go_behind(&mut self) -> Result<Part, OutOfMemory>
        ensures part { (answers : Answers) → handle_of (answers self.old.file.grant) ≡ self.old.handle
            → IfOk result (IsPart (one_slot (behind_part self.old))
            (rest_of (behind_part self.old) (rest_behind self.old) self.old.facts [] answers)) }
        ensures next { IfOk result (IsBehind self.old self.new) }
        ensures unchanged { OnErr result (self.new ≡ self.old) }
    {
        let file = FileAt {
            offset: self.file.offset + self.len as u64,
            ..self.file
        };
        let done = self.done + self.len;
        let Some(place) = self.place.checked_add(1) else {
            return Err(OutOfMemory);
        };
        let next = next_write(
            self.alloc,
            &self.handle,
            &file,
            &self.facts,
            self.pieces.as_slice(),
            done,
        )?;
        self.file = file;
        match next {
            Part::Over(value) => {
                self.pieces = Items::new(Vec::new(self.alloc));
                self.done = 0;
                self.len = 0;
                Ok(Part::Over(value))
            }
            Part::Ask(asking, len) => {
                self.place = place;
                self.done = done;
                self.len = len;
                Ok(Part::Ask(asking, len))
            }
        }
    }
}

impl PlanRunner for WritingAll {
    type Value = ();

    ghost World = { Unit {0} };

    ghost meaning = { writing_all };

    ghost waits = { writes_wait };

    ghost stays = { λ (m : WriteAllValue). refl };

    fn at_once(&mut self) -> Option<()> {
        Some(())
    }

    fn on(&mut self, told: Told) -> Then<()> {
        match told {
            Told::Reply(
                Reply::Status {
                    code,
                    message,
                    language,
                },
            ) => {
                if code != SSH_FX_OK {
                    return Then::Done(Err(Error::SftpError {
                        code,
                        message,
                        language,
                    }));
                }
                match self.go_behind() {
                    Ok(Part::Over(value)) => Then::Done(value),
                    Ok(Part::Ask(asking, _)) => Then::Ask(asking),
                    Err(OutOfMemory) => Then::Short(Told::Reply(Reply::Status {
                        code,
                        message,
                        language,
                    })),
                }
            }
            Told::Reply(_) => unreachable!(),
            Told::Granted(_grant) => unreachable!(),
        }
    }
}

impl OnFile for WritingAll {
    ghost file = { λ (m : WriteAllValue). m.file };

    ghost moves = { λ (m next : WriteAllValue) same. same };

    fn offset(&self) -> u64 {
        self.file.offset
    }
}

impl File {
    /// Writes all of these bytes at the offset, part by part (draft-ietf-secsh-filexfer-02, section 6.4). Each WRITE
    /// has as many bytes as the session allows, and is sent after the status of the one before. For no bytes nothing is
    /// asked. The bytes are copied once.
    ///
    /// # Errors
    ///
    /// Checked in this order: `IOError(NotWritable)`; `IOError(OffsetOverflow)` if the offset and the length of the
    /// WRITE together are over 18446744073709551615, as for each later part; `BackgroundTaskFailure` if the core has
    /// recorded a fault. `OutOfMemory` may come in place of any result. After an error nothing was submitted, and core
    /// and file are unchanged.
    pub fn start_write_all(&mut self, core: &mut Core, buf: &[u8]) -> Result<WriteAllCall, Error>
        requires { IsReady core.old }
        ensures starts { StartsOnFile writing_all tt (write_all_next 0 buf.now) self.old core.old core.new result }
        ensures shared { IfOk result (λ call. (call.runner.pieces ≡ buf.now ∷ []) × (call.runner.done ≡ 0)) }
        ensures file { IfOk result (λ call. call.runner.file ≡ file_at self.old) }
        ensures left { self.new ≡ self.old }
    {
        match one_piece(core.alloc(), buf) {
            Ok(pieces) => self.write_pieces(core, pieces),
            Err(OutOfMemory) => Err(Error::OutOfMemory),
        }
    }

    /// Writes all of these pieces, joined, as `start_write_all` does. No byte is copied: the parts are cut out of the
    /// pieces.
    ///
    /// # Errors
    ///
    /// Those of `start_write_all`.
    pub fn start_write_all_vectorized(
        &mut self,
        core: &mut Core,
        bufs: &[Bytes],
    ) -> Result<WriteAllCall, Error>
        requires { IsReady core.old }
        ensures starts { StartsOnFile writing_all tt (write_all_next 0 (joined_pieces bufs.now)) self.old core.old core.new result }
        ensures shared { IfOk result (λ call. (call.runner.pieces ≡ bufs.now) × (call.runner.done ≡ 0)) }
        ensures file { IfOk result (λ call. call.runner.file ≡ file_at self.old) }
        ensures left { self.new ≡ self.old }
    {
        match shared(core.alloc(), bufs) {
            Ok(pieces) => self.write_pieces(core, pieces),
            Err(OutOfMemory) => Err(Error::OutOfMemory),
        }
    }

    /// Does the same as `start_write_all_vectorized`, under another name.
    ///
    /// # Errors
    ///
    /// Those of `start_write_all_vectorized`.
    pub fn start_write_all_zero_copy(
        &mut self,
        core: &mut Core,
        bufs: &[Bytes],
    ) -> Result<WriteAllCall, Error>
        requires { IsReady core.old }
        ensures starts { StartsOnFile writing_all tt (write_all_next 0 (joined_pieces bufs.now)) self.old core.old core.new result }
        ensures shared { IfOk result (λ call. (call.runner.pieces ≡ bufs.now) × (call.runner.done ≡ 0)) }
        ensures file { IfOk result (λ call. call.runner.file ≡ file_at self.old) }
        ensures left { self.new ≡ self.old }
    {
        self.start_write_all_vectorized(core, bufs)
    }

    /// Writes all of these pieces, joined.
    fn write_pieces(&self, core: &mut Core, pieces: Vec<Bytes>) -> Result<WriteAllCall, Error>
        requires { IsReady core.old }
        ensures starts { StartsOnFile writing_all tt (write_all_next 0 (joined_pieces pieces.items)) self.now
            core.old core.new result }
        ensures shared { IfOk result (λ call. (call.runner.pieces ≡ pieces.items) × (call.runner.done ≡ 0)) }
        ensures file { IfOk result (λ call. call.runner.file ≡ file_at self.now) }
    {
        let alloc = core.alloc();
        let (file, facts) = (self.at(), facts(core));
        let handle = self.grant().handle();
        let part = match next_write(alloc, handle, &file, &facts, pieces.as_slice(), 0) {
            Ok(part) => part,
            Err(OutOfMemory) => return Err(Error::OutOfMemory),
        };
        match part {
            Part::Ask(asking, len) => {
                let runner = self.writing(alloc, facts, pieces, len);
                PendingCall::ask(core, asking, runner)
            }
            Part::Over(Ok(())) => Ok(PendingCall::ready(self.writing(alloc, facts, pieces, 0))),
            Part::Over(Err(e)) => Err(e),
        }
    }

    /// Returns the runner of a whole write whose first part has this length.
    fn writing(&self, alloc: Global, facts: Facts, pieces: Vec<Bytes>, len: usize) -> WritingAll
        requires part { len ≡ part_len facts (joined_pieces pieces.items) }
        requires room { self.now.offset + len < 2 ^ 64 }
        requires range { (1 ≤ facts.write_len) × (facts.write_len ≤ MAX_TRANSFER_LEN) }
        ensures { result ≡ first_part self.now facts pieces.items }
    {
        WritingAll {
            alloc,
            handle: self.grant().handle().copied(),
            file: self.at(),
            facts,
            place: 1,
            pieces: Items::new(pieces),
            done: 0,
            len,
        }
    }
}
