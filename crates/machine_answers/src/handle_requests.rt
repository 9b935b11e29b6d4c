//! The answers to OPEN and to requests with a handle.
ghost use Rattle.std.specs.Prelude.{◌≡◌, ◌<◌, ◌^◌, ℕ, [], None, Some, true, false, length, take, drop, IfOk, ◌+◌, max, min};
ghost use Rattle.std.specs.Option.{option_copied};
ghost use Rattle.machine_model.specs.declared.node.Node.TheVariants as node;
ghost use Rattle.machine_model.specs.declared.opened.Opened.TheVariants as opened;
ghost use Rattle.machine_model.specs.Components.{Name};
ghost use Rattle.machine_model.specs.FitTrees.{GivesWithin};
ghost use Rattle.machine_model.specs.HandleRequests.{refusal_answer as refuses_by, after_open, after_close, after_read, after_write, offset_of as offset_by, answer_to_write as writes_by, after_fstat, resize_answer as resizes_by, sets_held, after_fsetstat, after_fsync, copied_bytes as copied_by, after_copy, held_by as held_of_flags, capped_at as capped_by};
ghost use Rattle.machine_model.specs.FileTree.{node_at as node_by, opened_at as opened_by, file_of, bytes_of as bytes_by};
ghost use Rattle.sftp_model.specs.Pieces.{joined_pieces};
ghost use Rattle.machine_tree.specs.Numbers.{numbered_handle as bytes_of_handle};
ghost use Rattle.machine_answers.specs.MachineState.{MachineState, MakesAnswer};

use crate::change::Change;
use crate::store::Store;
use bytes::Bytes;
use machine_model::{Held, Node, Opened};
use machine_tree::{TreeName, is_long};
use sftp_model::numbers::{
    MAX_TRANSFER_LEN, SSH_FX_EOF, SSH_FX_FAILURE, SSH_FX_NO_SUCH_FILE, SSH_FX_PERMISSION_DENIED,
    SSH_FXF_APPEND, SSH_FXF_CREAT, SSH_FXF_EXCL, SSH_FXF_READ, SSH_FXF_TRUNC, SSH_FXF_WRITE,
};
use sftp_model::{Content, FileAttrs, Handle, Reply, Request};
use sftp_values::ByteText;
use ssh_encoding::OutOfMemory;
use std::alloc::Global;

impl Store {
    /// Answers an OPEN.
    pub(crate) fn open(&self, flags: u32, name: TreeName) -> (Reply, Change)
        ensures { MakesAnswer self.now result (after_open self.now.tree
            (bytes_of_handle self.now.grants) flags name (node_by self.now.tree name)) }
    {
        match self.node_at(&name) {
            Some(Node::Directory) => self.refused(SSH_FX_FAILURE),
            Some(Node::File(file)) => self.open_there(flags, file),
            None => self.open_new(flags, name),
        }
    }

    // Answers an OPEN of an existing file.
    fn open_there(&self, flags: u32, file: u64) -> (Reply, Change)
        ensures { (name : Name) → MakesAnswer self.now result (after_open self.now.tree
            (bytes_of_handle self.now.grants) flags name (Some (node.File file))) }
    {
        if flags & SSH_FXF_CREAT != 0 && flags & SSH_FXF_EXCL != 0 {
            return self.refused(SSH_FX_FAILURE);
        }
        if flags & SSH_FXF_TRUNC != 0 {
            return self.grants(Change::Truncated(file, Opened::File(held_by(flags, file))));
        }
        self.grants(Change::Granted(Opened::File(held_by(flags, file))))
    }

    // Answers an OPEN of a name that does not exist.
    fn open_new(&self, flags: u32, name: TreeName) -> (Reply, Change)
        ensures { MakesAnswer self.now result (after_open self.now.tree
            (bytes_of_handle self.now.grants) flags name None) }
    {
        if flags & SSH_FXF_CREAT == 0 {
            return self.refused(SSH_FX_NO_SUCH_FILE);
        }
        if !self.has_parent(&name) {
            return self.refused(SSH_FX_NO_SUCH_FILE);
        }
        if is_long(name.parts()) {
            return self.refused(SSH_FX_FAILURE);
        }
        let held = held_by(flags, self.files.len() as u64);
        self.grants(Change::Created(name, Opened::File(held)))
    }

    /// Answers a CLOSE.
    pub(crate) fn close(&self, handle: &Handle) -> (Reply, Change)
        ensures { MakesAnswer self.now result
            (after_close self.now.tree handle.now (opened_by self.now.tree handle.now)) }
    {
        match self.opened_at(handle.as_bytes()) {
            None => self.refused(SSH_FX_FAILURE),
            Some(Opened::File(held)) => self.done(Change::ClosedFile(handle.copied(), held.file)),
            Some(Opened::Directory(_)) => self.done(Change::ClosedDirectory(handle.copied())),
        }
    }

    /// Answers a READ.
    pub(crate) fn read(
        &self,
        cap: u32,
        offset: u64,
        len: u32,
        held: Option<Held>,
    ) -> Result<(Reply, Change), OutOfMemory>
        ensures { IfOk result (λ r. MakesAnswer self.now r (after_read self.now.tree cap offset len held)) }
    {
        let Some(held) = held else {
            return Ok(self.refused(SSH_FX_FAILURE));
        };
        if !held.readable {
            return Ok(self.refused(SSH_FX_PERMISSION_DENIED));
        }
        if len == 0 {
            return Ok(self.refused(SSH_FX_FAILURE));
        }
        let bytes = self.bytes_of(held.file);
        if bytes.len() as u64 <= offset {
            return Ok(self.refused(SSH_FX_EOF));
        }
        let n = (capped(cap, len) as usize).min(bytes.len() - offset as usize);
        let part = Bytes::copy_from_slice(
            self.alloc,
            &bytes[offset as usize..offset as usize + n],
        )?;
        Ok((Reply::Content(part), Change::Unchanged))
    }

    /// Answers a WRITE.
    pub(crate) fn write(
        &self,
        offset: u64,
        content: &Content,
        held: Option<Held>,
    ) -> Result<(Reply, Change), OutOfMemory>
        ensures { IfOk result (λ r. MakesAnswer self.now r (after_write self.now.tree offset content.now held)) }
    {
        let Some(held) = held else {
            return Ok(self.refused(SSH_FX_FAILURE));
        };
        if !held.writable {
            return Ok(self.refused(SSH_FX_PERMISSION_DENIED));
        }
        let piece = ByteText::new(whole(self.alloc, content.pieces())?);
        Ok(self.writes(held.file, self.offset_of(held, offset), piece))
    }

    // Returns the offset at which bytes are written.
    fn offset_of(&self, held: Held, offset: u64) -> u64
        ensures { result ≡ offset_by self.now.tree held offset }
    {
        if held.append {
            self.bytes_of(held.file).len() as u64
        } else {
            offset
        }
    }

    // Writes a piece at an offset, if no limit is passed.
    fn writes(&self, file: u64, offset: u64, piece: ByteText) -> (Reply, Change)
        ensures { MakesAnswer self.now result (writes_by self.now.tree file offset piece) }
    {
        let size = self.bytes_of(file).len() as u64;
        let end = offset.saturating_add(piece.as_slice().len() as u64);
        if self.is_over(file, size.max(end)) {
            return self.refused(SSH_FX_FAILURE);
        }
        self.done(Change::Written(file, offset, piece))
    }

    /// Answers an FSTAT.
    pub(crate) fn fstat(&self, handle: &[u8]) -> (Reply, Change)
        ensures { MakesAnswer self.now result
            (after_fstat self.now.tree (opened_by self.now.tree handle.now)) }
    {
        let node = match self.opened_at(handle) {
            None => return self.refused(SSH_FX_FAILURE),
            Some(Opened::File(held)) => Node::File(held.file),
            Some(Opened::Directory(_)) => Node::Directory,
        };
        (Reply::Attrs(self.attributes_of(node)), Change::Unchanged)
    }

    /// Resizes a file, if no limit is passed.
    pub(crate) fn resizes(&self, file: u64, size: u64) -> (Reply, Change)
        ensures { MakesAnswer self.now result (resizes_by self.now.tree file size) }
    {
        if self.is_over(file, size) {
            return self.refused(SSH_FX_FAILURE);
        }
        self.done(Change::Resized(file, size))
    }

    /// Answers an FSETSTAT.
    pub(crate) fn fsetstat(&self, attrs: FileAttrs, held: Option<Held>) -> (Reply, Change)
        ensures { MakesAnswer self.now result (after_fsetstat self.now.tree attrs held) }
    {
        let Some(held) = held else {
            return self.refused(SSH_FX_FAILURE);
        };
        let Some(size) = attrs.size else {
            return self.done(Change::Unchanged);
        };
        if !held.writable {
            return self.refused(SSH_FX_PERMISSION_DENIED);
        }
        self.resizes(held.file, size)
    }

    /// Answers `fsync@openssh.com`.
    pub(crate) fn fsync(&self, held: Option<Held>) -> (Reply, Change)
        ensures { MakesAnswer self.now result (after_fsync self.now.tree held) }
    {
        match held {
            None => self.refused(SSH_FX_FAILURE),
            Some(_) => self.done(Change::Unchanged),
        }
    }

    /// Answers `copy-data`.
    pub(crate) fn copy(
        &self,
        from_offset: u64,
        len: u64,
        to_offset: u64,
        from: Option<Held>,
        to: Option<Held>,
    ) -> Result<(Reply, Change), OutOfMemory>
        ensures { IfOk result (λ r. MakesAnswer self.now r
            (after_copy self.now.tree from_offset len to_offset from to)) }
    {
        let Some(from) = from else {
            return Ok(self.refused(SSH_FX_FAILURE));
        };
        let Some(to) = to else {
            return Ok(self.refused(SSH_FX_FAILURE));
        };
        if !from.readable || !to.writable {
            return Ok(self.refused(SSH_FX_PERMISSION_DENIED));
        }
        let part = copied(self.bytes_of(from.file), from_offset, len);
        let piece = ByteText::new(Vec::from_slice(self.alloc, part)?);
        Ok(self.writes(to.file, self.offset_of(to, to_offset), piece))
    }
}

/// Returns the pieces, one after another.
fn whole(alloc: Global, pieces: &[Bytes]) -> Result<Vec<u8>, OutOfMemory>
    ensures { IfOk result (λ bytes. bytes.items ≡ joined_pieces pieces.now) }
{
    let mut bytes = Vec::new(alloc);
    let mut rest = pieces;
    loop {
        match rest {
            [] => return Ok(bytes),
            [piece, later @ ..] => {
                bytes.extend_from_slice(piece.as_slice())?;
                rest = later;
            }
        }
    }
}

/// Returns the open file of an OPEN's flags.
fn held_by(flags: u32, file: u64) -> Held
    ensures { opened.File result ≡ held_of_flags flags file }
{
    Held {
        file,
        readable: flags & SSH_FXF_READ != 0,
        writable: flags & SSH_FXF_WRITE != 0,
        append: flags & SSH_FXF_APPEND != 0,
    }
}

/// Returns the bytes that are copied: from an offset, up to the end if the length is 0.
fn copied(bytes: &[u8], offset: u64, len: u64) -> &[u8]
    ensures { result.now ≡ copied_by bytes.now offset len }
{
    if offset >= bytes.len() as u64 {
        return &[];
    }
    let rest = &bytes[offset as usize..];
    if len == 0 || len >= rest.len() as u64 {
        return rest;
    }
    &rest[..len as usize]
}

/// Returns a length, or the cap if it is not 0 and less.
pub(crate) fn capped(cap: u32, len: u32) -> u32
    ensures { result ≡ capped_by cap len }
{
    if cap == 0 { len } else { cap.min(len) }
}

/// Returns true if a READ returns at most the bytes that one DATA can carry: it asks for at most `MAX_TRANSFER_LEN`
/// bytes, or the cap, if it is not 0, allows no more. Returns true for any other request.
pub fn gives_within(request: &Request, cap: u32) -> bool
    ensures holds { result ≡ true → GivesWithin cap request.now }
    ensures fails { result ≡ false → GivesWithin cap request.now → ⊥ }
{
    match request {
        Request::Read { len, .. } => capped(cap, *len) <= MAX_TRANSFER_LEN,
        _ => true,
    }
}
