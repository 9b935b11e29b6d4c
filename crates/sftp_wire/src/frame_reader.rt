//! A reader of frames that come in any pieces.
ghost use Rattle.std.specs.Prelude.{◌≡◌, ◌≤◌, ◌==◌, length, ◌+◌, drop, None, Some, MatchOption, IfOk, IfSome, IfErr, OnOk};
ghost use Rattle.ssh_encoding.specs.Writing.{string};
ghost use Rattle.sftp_model.specs.Numbers.{MAX_BODY_LEN};
ghost use Rattle.sftp_wire.specs.FrameReader.{nothing, need_of, body_of, PushesBytes, NotPushed, fault_of, fault_of_len, told_len, len_of, missing_bytes, missing_with};

use sftp_model::{FormatKind, FrameError, numbers};
use ssh_encoding::{Decode, OutOfMemory};
use std::alloc::Global;
use std::marker::Model;

/// A reader that takes one frame in any pieces (draft-ietf-secsh-filexfer-02, section 3). A contract sees the bytes
/// that were taken since it was cleared, and the error that it keeps.
///
/// Example: `crates/test_wire/src/wire/frames.rt`.
#[derive(Drop)]
pub struct FrameReader {
    alloc: Global,
    bytes: Vec<u8>,
    body_len: Option<u32>,
    refused: Option<FormatKind>,
}

impl Model for FrameReader {
    ghost use Rattle.sftp_wire.specs.FrameReader.{Received, IsFront};

    ghost Value = { Received };

    ghost view = { λ r. record { bytes = r.bytes.items; refused = r.refused } };

    ghost invariant = { λ r. IsFront r.bytes.items r.body_len };
}

/// Memory allocated for the next bytes of a frame. A contract sees for how many bytes it is, including those that came
/// before.
///
/// Used by the functions of this module.
#[derive(Drop)]
pub struct Reservation {
    bytes: Vec<u8>,
}

impl Model for Reservation {
    ghost use Rattle.std.specs.Prelude.{◌≡◌, ℕ, vec_len, vec_capacity};

    ghost Value = { ℕ };

    ghost view = { λ r. vec_capacity r.bytes };

    ghost invariant = { λ r. vec_len r.bytes ≡ 0 };
}

/// Returns the length in the first four bytes, once they have come.
fn told_len(alloc: Global, bytes: &[u8]) -> Option<u32>
    ensures { result ≡ len_of bytes.now }
{
    let mut reader = bytes;
    u32::decode(alloc, &mut reader).ok()
}

/// Returns the fault of a length, if it has one.
fn fault(body_len: Option<u32>) -> Option<FormatKind>
    ensures { result ≡ fault_of_len body_len }
{
    match body_len {
        None => None,
        Some(0) => Some(FormatKind::Length),
        Some(len) if len > numbers::MAX_BODY_LEN => Some(FormatKind::Overflow),
        Some(_) => None,
    }
}

/// Returns the length of a frame's body, from the four bytes before it (draft-ietf-secsh-filexfer-02, section 3).
///
/// # Errors
///
/// `Length` exactly if it is 0, and `Overflow` exactly if it is over `MAX_BODY_LEN`.
///
/// Used in `crates/link_frames/src/exchange.rt`.
pub fn body_len(alloc: Global, len: &[u8]) -> Result<u32, FormatKind>
    requires { length len.now ≡ 4 }
    ensures ok { IfOk result (λ n. (n ≡ told_len len.now) × (fault_of len.now ≡ None)) }
    ensures err { IfErr result (λ kind. fault_of len.now ≡ Some kind) }
{
    let Some(told) = told_len(alloc, len) else {
        unreachable!()
    };
    match fault(Some(told)) {
        None => Ok(told),
        Some(kind) => Err(kind),
    }
}

/// Returns the bytes after the length, if exactly that many came.
fn body(bytes: &[u8]) -> &[u8]
    requires length { 4 ≤ length bytes.now }
    requires whole { length bytes.now ≡ 4 + told_len bytes.now }
    ensures body { result.now ≡ drop 4 bytes.now }
    ensures spelled { bytes.now ≡ string result.now }
    ensures counted { length result.now ≡ told_len bytes.now }
{
    let (_, body) = bytes.split_at(4);
    body
}

impl FrameReader {
    /// Creates a reader of a frame of which no byte has come. Does not allocate.
    pub fn new(alloc: Global) -> FrameReader
        ensures { result ≡ nothing }
    {
        FrameReader {
            alloc,
            bytes: Vec::new(alloc),
            body_len: None,
            refused: None,
        }
    }

    /// Creates the reader of a frame that has come whole, from its bytes. Does not allocate.
    pub fn of_frame(alloc: Global, bytes: Vec<u8>) -> FrameReader
        requires unfaulted { fault_of bytes.items ≡ None }
        requires whole { missing_bytes bytes.items ≡ 0 }
        requires within { length bytes.items ≤ 4 + told_len bytes.items }
        ensures { result ≡ record { bytes = bytes.items; refused = None } }
    {
        let body_len = told_len(alloc, &bytes);
        FrameReader {
            alloc,
            bytes,
            body_len,
            refused: None,
        }
    }

    /// Returns the number of bytes that are missing to the end of the length, or of the body. It is 0 exactly if a
    /// frame is whole, and 1 after an error.
    pub fn need(&self) -> usize
        ensures need { result ≡ need_of self.now }
        ensures bounded { self.now.refused ≡ None → length self.now.bytes + result ≤ 4 + MAX_BODY_LEN }
    {
        match (self.refused, self.body_len) {
            (Some(_), _) => 1,
            (None, None) => 4 - self.bytes.len(),
            (None, Some(len)) => 4 + len as usize - self.bytes.len(),
        }
    }

    /// Takes the next bytes, at most as many as are missing.
    ///
    /// # Errors
    ///
    /// - `OutOfMemory` if an allocation fails; the reader is unchanged.
    /// - `Format(Length)` exactly if the length is then known and is 0.
    /// - `Format(Overflow)` exactly if the length is then known and is over `MAX_BODY_LEN`.
    ///
    /// After a `Format` error these bytes are not kept, and each further push fails with the same error until `clear`.
    pub fn push(&mut self, bytes: &[u8]) -> Result<(), FrameError>
        requires { length bytes.now ≤ need_of self.old }
        ensures ok { OnOk result (PushesBytes self.old bytes.now self.new) }
        ensures err { IfErr result (NotPushed self.old bytes.now self.new) }
    {
        if let Some(kind) = self.refused {
            return Err(FrameError::Format(kind));
        }
        let before = self.bytes.len();
        if self.bytes.extend_from_slice(bytes).is_err() {
            return Err(FrameError::OutOfMemory);
        }
        let body_len = told_len(self.alloc, &self.bytes);
        if let Some(kind) = fault(body_len) {
            self.bytes.truncate(before);
            self.refused = Some(kind);
            return Err(FrameError::Format(kind));
        }
        self.body_len = body_len;
        Ok(())
    }

    /// Allocates memory for the missing bytes, before the bytes themselves are taken from their source. `push_reserved`
    /// then allocates nothing. The reader is unchanged.
    ///
    /// # Errors
    ///
    /// `OutOfMemory` if an allocation fails.
    pub fn reserve(&self) -> Result<Reservation, OutOfMemory>
        ensures { IfOk result (λ memory. length self.now.bytes + need_of self.now ≤ memory) }
    {
        let bytes = Vec::with_capacity(self.alloc, self.bytes.len() + self.need())?;
        Ok(Reservation { bytes })
    }

    /// Takes the next bytes as `push` does, with memory that was allocated before, so it cannot run out of memory.
    ///
    /// # Errors
    ///
    /// The `FormatKind` with which `push` would fail with `Format`.
    pub fn push_reserved(&mut self, memory: Reservation, bytes: &[u8]) -> Result<(), FormatKind>
        requires fits { length bytes.now ≤ need_of self.old }
        requires reserved { length self.old.bytes + length bytes.now ≤ memory }
        ensures ok { OnOk result (PushesBytes self.old bytes.now self.new) }
        ensures err { IfErr result (λ kind. NotPushed self.old bytes.now self.new (FrameError.Format kind)) }
    {
        if let Some(kind) = self.refused {
            return Err(kind);
        }
        let mut grown = memory.bytes;
        grown.extend_from_slice(&self.bytes).unwrap();
        grown.extend_from_slice(bytes).unwrap();
        let body_len = told_len(self.alloc, &grown);
        if let Some(kind) = fault(body_len) {
            self.refused = Some(kind);
            return Err(kind);
        }
        self.bytes = grown;
        self.body_len = body_len;
        Ok(())
    }

    /// Returns true if no byte of a frame has come.
    pub fn is_empty(&self) -> bool
        ensures { result ≡ (length self.now.bytes == 0) }
    {
        self.bytes.is_empty()
    }

    /// Returns the body of the frame, once it is whole.
    pub fn frame(&self) -> Option<&[u8]>
        ensures body { MatchOption result (body_of self.now ≡ None) (λ b. body_of self.now ≡ Some b.now) }
        ensures spelled { IfSome result (λ b. (self.now.bytes ≡ string b.now) × (length b.now ≤ MAX_BODY_LEN)) }
    {
        if self.need() == 0 {
            Some(body(&self.bytes))
        } else {
            None
        }
    }

    /// Makes the reader ready for the next frame. No memory is released.
    pub fn clear(&mut self)
        ensures { self.new ≡ nothing }
    {
        self.bytes.clear();
        self.body_len = None;
        self.refused = None;
    }
}
