//! The answers to requests.
ghost use Rattle.std.specs.Prelude.{◌≡◌, ◌<◌, ◌==◌, ◌^◌, ◌+◌, ℕ, [], None, Some, true, false, IfOk, OnOk, OnErr};
ghost use Rattle.sftp_model.specs.declared.reply.Reply.TheVariants as reply;
ghost use Rattle.sftp_model.specs.declared.request.Request.TheVariants as request;
ghost use Rattle.machine_model.specs.Components.{components as components_by};
ghost use Rattle.sftp_model.specs.Readings.{has_bit};
ghost use Rattle.machine_model.specs.TreeAnswers.{apply as apply_by, tree_answer as answered_by, limits_reply};
ghost use Rattle.machine_answers.specs.Changes.{is_grant};
ghost use Rattle.machine_answers.specs.MachineState.{MachineState, MakesAnswer};
ghost use Rattle.machine_tree.specs.Numbers.{numbered_handle as bytes_of_handle};

use crate::change::Change;
use crate::store::Store;
use bitflags::Flags;
use machine_tree::{TreeName, components};
use sftp_model::numbers::{SSH_FX_OK, SSH_FX_OP_UNSUPPORTED};
use sftp_model::{Choice, Extensions, Limits, RemotePath, Reply, Request};
use sftp_values::ByteText;
use ssh_encoding::OutOfMemory;
use std::alloc::Global;

impl Store {
    /// Returns the reply to a request, with the change that it makes. Fails only if an allocation fails.
    pub(crate) fn answer(
        &self,
        request: &Request,
        choice: Choice,
    ) -> Result<(Reply, Change), OutOfMemory>
        ensures { IfOk result (λ r. MakesAnswer self.now r (apply_by self.now.tree self.now.config
            request.now choice (bytes_of_handle self.now.grants))) }
    {
        if choice.refuse != SSH_FX_OK {
            return Ok(self.refused(choice.refuse));
        }
        self.answered(request, choice.cap)
    }

    // Returns the answer to a request that is not refused.
    fn answered(&self, request: &Request, cap: u32) -> Result<(Reply, Change), OutOfMemory>
        ensures { IfOk result (λ r. MakesAnswer self.now r (answered_by self.now.tree self.now.config
            request.now cap (bytes_of_handle self.now.grants))) }
    {
        match request {
            Request::OpenFile { path, flags, .. } => Ok(self.open(flags.bits(), self.name(path)?)),
            Request::Close { handle } => Ok(self.close(handle)),
            Request::Read {
                handle,
                offset,
                len,
            } => self.read(cap, *offset, *len, self.held_at(handle.as_bytes())),
            Request::Write {
                handle,
                offset,
                content,
            } => self.write(*offset, content, self.held_at(handle.as_bytes())),
            Request::Stat { path } => Ok(self.stat(self.node_at(&self.name(path)?))),
            Request::Lstat { path } => Ok(self.stat(self.node_at(&self.name(path)?))),
            Request::Fstat { handle } => Ok(self.fstat(handle.as_bytes())),
            Request::Setstat { path, attrs } => {
                Ok(self.setstat(*attrs, self.node_at(&self.name(path)?)))
            }
            Request::Fsetstat { handle, attrs } => {
                Ok(self.fsetstat(*attrs, self.held_at(handle.as_bytes())))
            }
            Request::Remove { path } => Ok(self.remove(self.name(path)?)),
            Request::Mkdir { path, .. } => Ok(self.mkdir(self.name(path)?)),
            Request::Rmdir { path } => Ok(self.rmdir(self.name(path)?)),
            Request::Opendir { path } => self.opendir(&self.name(path)?),
            Request::Readdir { handle } => self.readdir(cap, handle),
            Request::Realpath { path } => self.realpath(&self.name(path)?),
            Request::Rename { old, to } => Ok(self.rename(self.name(old)?, self.name(to)?)),
            Request::PosixRename { old, to } => self.posix_rename_at(old, to),
            Request::Fsync { handle } => Ok(self.fsync_at(handle.as_bytes())),
            Request::ExpandPath { path } => self.expand(path),
            Request::CopyData {
                from,
                from_offset,
                len,
                to,
                to_offset,
            } => {
                if !self.offers(Extensions::COPY_DATA) {
                    return Ok(self.refused(SSH_FX_OP_UNSUPPORTED));
                }
                let (from, to) = (self.held_at(from.as_bytes()), self.held_at(to.as_bytes()));
                self.copy(*from_offset, *len, *to_offset, from, to)
            }
            Request::LimitsQuery => self.limits(),
            Request::Init { .. } => Ok(self.refused(SSH_FX_OP_UNSUPPORTED)),
            Request::Readlink { .. } => Ok(self.refused(SSH_FX_OP_UNSUPPORTED)),
            Request::Symlink { .. } => Ok(self.refused(SSH_FX_OP_UNSUPPORTED)),
            Request::Hardlink { .. } => Ok(self.refused(SSH_FX_OP_UNSUPPORTED)),
        }
    }

    // Returns the name that a path denotes.
    fn name(&self, path: &RemotePath) -> Result<TreeName, OutOfMemory>
        ensures { IfOk result (λ name. name ≡ components_by path.now) }
    {
        let parts = components(self.alloc, path.as_bytes())?;
        TreeName::new(self.alloc, parts.into_vec())
    }

    // Returns true if it offers an extension.
    fn offers(&self, extension: Extensions) -> bool
        ensures { result ≡ has_bit self.now.config.extensions.0 extension.0 }
    {
        self.config.extensions.bits() & extension.bits() != 0
    }

    // Answers `posix-rename@openssh.com`, if it is offered.
    fn posix_rename_at(
        &self,
        old: &RemotePath,
        to: &RemotePath,
    ) -> Result<(Reply, Change), OutOfMemory>
        ensures { IfOk result (λ r. MakesAnswer self.now r (answered_by self.now.tree self.now.config
            (request.PosixRename old.now to.now) 0 (bytes_of_handle self.now.grants))) }
    {
        if !self.offers(Extensions::POSIX_RENAME) {
            return Ok(self.refused(SSH_FX_OP_UNSUPPORTED));
        }
        Ok(self.posix_rename(self.name(old)?, self.name(to)?))
    }

    // Answers `fsync@openssh.com`, if it is offered.
    fn fsync_at(&self, handle: &[u8]) -> (Reply, Change)
        ensures { MakesAnswer self.now result (answered_by self.now.tree self.now.config
            (request.Fsync handle.now) 0 (bytes_of_handle self.now.grants)) }
    {
        if !self.offers(Extensions::FSYNC) {
            return self.refused(SSH_FX_OP_UNSUPPORTED);
        }
        self.fsync(self.held_at(handle))
    }

    // Answers `expand-path@openssh.com`, if it is offered.
    fn expand(&self, path: &RemotePath) -> Result<(Reply, Change), OutOfMemory>
        ensures { IfOk result (λ r. MakesAnswer self.now r (answered_by self.now.tree self.now.config
            (request.ExpandPath path.now) 0 (bytes_of_handle self.now.grants))) }
    {
        if !self.offers(Extensions::EXPAND_PATH) {
            return Ok(self.refused(SSH_FX_OP_UNSUPPORTED));
        }
        self.realpath(&self.name(path)?)
    }

    // Answers the query for limits.
    fn limits(&self) -> Result<(Reply, Change), OutOfMemory>
        ensures { IfOk result (λ r. MakesAnswer self.now r
            (limits_reply self.now.config.limits, self.now.tree)) }
    {
        let Some(limits) = self.config.limits else {
            return Ok(self.refused(SSH_FX_OP_UNSUPPORTED));
        };
        Ok((told_limits(self.alloc, limits)?, Change::Unchanged))
    }
}

/// Returns the limits in a reply.
#[tactic(auto, unfolding(sftp_model::specs::Frames::limits_content, ssh_encoding::specs::Writing::uint64))]
fn told_limits(alloc: Global, limits: Limits) -> Result<Reply, OutOfMemory>
    ensures { IfOk result (λ r. r ≡ limits_reply (Some limits)) }
{
    let mut content = Vec::from_slice(alloc, &limits.packet_len.to_be_bytes())?;
    content.extend_from_slice(&limits.read_len.to_be_bytes())?;
    content.extend_from_slice(&limits.write_len.to_be_bytes())?;
    content.extend_from_slice(&limits.open_handles.to_be_bytes())?;
    Ok(Reply::Extended(ByteText::new(content)))
}

/// Returns true if a change grants the handle.
pub(crate) fn grants(change: &Change) -> bool
    ensures { result ≡ is_grant change.now }
{
    match change {
        Change::Granted(_) => true,
        Change::Truncated(_, _) => true,
        Change::Created(_, _) => true,
        _ => false,
    }
}
