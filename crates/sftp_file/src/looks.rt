//! Checks that a call makes before its first request.
ghost use Rattle.std.specs.Prelude.{◌≡◌, ◌+◌, ◌<◌, ◌^◌, ℕ, List, length, OnOk};
ghost use Rattle.std.specs.declared.io.traits.SeekFrom.TheVariants as position;
ghost use Rattle.sftp_model.specs.declared.request.Request.TheVariants as request;
ghost use Rattle.sftp_model.specs.declared.slot.Move.{Move};
ghost use Rattle.sftp_model.specs.declared.slot.Move.TheVariants.{Ask};
ghost use Rattle.sftp_model.specs.declared.slot.Site.{Site};
ghost use Rattle.plan_model.specs.FilePlans.{on_seek};
ghost use Rattle.plan_model.specs.Moves.{Answers, ask_read, ask_write, handle_of, offers, overflows};
ghost use Rattle.sftp_file.specs.Outcomes.{checked_move, seek_move};

use bitflags::Flags;
use sftp_model::{Extensions, Facts, FileAt, IoKind};
use std::io::SeekFrom;

/// Checks that `len` bytes may be read from a file: it was opened to read, and they end within the greatest offset.
pub(crate) fn may_read(file: &FileAt, len: u32) -> Result<(), IoKind>
    ensures looks { (site : Site) (answers : Answers) → ask_read file.now len site answers
        ≡ checked_move result site (Ask (request.Read (handle_of (answers file.now.grant)) file.now.offset len)) }
    ensures room { OnOk result (file.now.offset + len < 2 ^ 64) }
{
    if !file.readable {
        return Err(IoKind::NotReadable);
    }
    if file.offset.checked_add(len as u64).is_none() {
        return Err(IoKind::OffsetOverflow);
    }
    Ok(())
}

/// Checks that `len` bytes may be written to a file: it was opened to write, and they end within the greatest offset.
pub(crate) fn may_write(file: &FileAt, len: usize) -> Result<(), IoKind>
    ensures looks { (site : Site) (answers : Answers) (bytes : List ℕ) → length bytes ≡ len
        → ask_write file.now bytes site answers
        ≡ checked_move result site (Ask (request.Write (handle_of (answers file.now.grant)) file.now.offset bytes)) }
    ensures room { OnOk result (file.now.offset + len < 2 ^ 64) }
{
    if !file.writable {
        return Err(IoKind::NotWritable);
    }
    if file.offset.checked_add(len as u64).is_none() {
        return Err(IoKind::OffsetOverflow);
    }
    Ok(())
}

/// Returns true if a request of `len` bytes would go past the greatest offset.
pub(crate) fn overflows(offset: u64, len: u64) -> bool
    ensures { result ≡ overflows offset len }
{
    offset.checked_add(len).is_none()
}

/// Returns true if the server offers an extension.
pub(crate) fn offers(facts: &Facts, extension: Extensions) -> bool
    ensures { result ≡ offers facts.now extension.0 }
{
    facts.extensions.bits() & extension.bits() != 0
}

/// Returns the offset that a seek from another leads to.
///
/// # Errors
///
/// An `IoKind` if the plan refuses the seek.
pub fn sought(offset: u64, position: SeekFrom) -> Result<u64, IoKind>
    ensures { (site : Site) (go : ℕ → Move) → on_seek position offset site go ≡ seek_move result site go }
{
    match position {
        SeekFrom::Start(n) => Ok(n),
        SeekFrom::End(_) => Err(IoKind::SeekFromEnd),
        SeekFrom::Current(by) => moved_by(offset, by),
    }
}

/// Returns the offset at this distance from another.
fn moved_by(offset: u64, by: i64) -> Result<u64, IoKind>
    ensures { (site : Site) (go : ℕ → Move)
        → on_seek (position.Current by) offset site go ≡ seek_move result site go }
{
    let distance = by.unsigned_abs();
    if by < 0 {
        return offset.checked_sub(distance).ok_or(IoKind::SeekUnderflow);
    }
    offset.checked_add(distance).ok_or(IoKind::SeekOverflow)
}
