//! Fields of a body, one after another (draft-ietf-secsh-filexfer-02, sections 3 and 5). A count by itself allocates
//! nothing.
ghost use Rattle.std.specs.Prelude.{◌≡◌, ◌==◌, ◌≤◌, true, false, length, nat_lt, OnOk, IfOk, IfErr};
ghost use Rattle.sftp_model.specs.declared.frame_error.FrameError.TheVariants as errors;
ghost use Rattle.sftp_model.specs.declared.frame_error.FormatKind.TheVariants as kinds;
ghost use Rattle.sftp_model.specs.Numbers.{MAX_BODY_LEN, MAX_HANDLE_LEN};
ghost use Rattle.sftp_model.specs.Readings.{uint32_at, uint64_at, text_at, two_numbers_at, where_set, behind_pairs, behind_counted_pairs, attributes_at};
ghost use Rattle.sftp_wire.specs.Reading.{ReadsField, value_passed, passed_to};

use bytes::Bytes;
use sftp_model::{FileAttrs, FormatKind, FrameError, Handle, numbers};
use ssh_encoding::{Decode, Reader};
use std::alloc::Global;

pub(crate) fn number<R: Reader>(alloc: Global, reader: &mut R) -> Result<u32, FrameError>
    ensures { ReadsField (λ n. n) (R.left reader.new) result (uint32_at (R.left reader.old)) }
{
    Ok(u32::decode(alloc, reader)?)
}

pub(crate) fn long<R: Reader>(alloc: Global, reader: &mut R) -> Result<u64, FrameError>
    ensures { ReadsField (λ n. n) (R.left reader.new) result (uint64_at (R.left reader.old)) }
{
    Ok(u64::decode(alloc, reader)?)
}

pub(crate) fn text<R: Reader>(alloc: Global, reader: &mut R) -> Result<Vec<u8>, FrameError>
    ensures read { ReadsField (λ v. v.items) (R.left reader.new) result (text_at (R.left reader.old)) }
    ensures short { IfOk result (λ v. length v.items ≤ MAX_BODY_LEN) }
{
    Ok(Vec::<u8>::decode(alloc, reader)?)
}

pub(crate) fn shared_text<R: Reader>(alloc: Global, reader: &mut R) -> Result<Bytes, FrameError>
    ensures { ReadsField (λ b. b) (R.left reader.new) result (text_at (R.left reader.old)) }
{
    Ok(Bytes::decode(alloc, reader)?)
}

#[tactic(auto, unfolding(sftp_model::specs::Readings::two_numbers_at))]
fn two_numbers<R: Reader>(alloc: Global, reader: &mut R) -> Result<(u32, u32), FrameError>
    ensures { ReadsField (λ p. p) (R.left reader.new) result (two_numbers_at (R.left reader.old)) }
{
    let first = number(alloc, reader)?;
    let second = number(alloc, reader)?;
    Ok((first, second))
}

fn number_where<R: Reader>(
    alloc: Global,
    is_there: bool,
    reader: &mut R,
) -> Result<Option<u32>, FrameError>
    ensures { ReadsField (λ n. n) (R.left reader.new) result (where_set is_there uint32_at (R.left reader.old)) }
{
    if !is_there {
        return Ok(None);
    }
    Ok(Some(number(alloc, reader)?))
}

fn long_where<R: Reader>(
    alloc: Global,
    is_there: bool,
    reader: &mut R,
) -> Result<Option<u64>, FrameError>
    ensures { ReadsField (λ n. n) (R.left reader.new) result (where_set is_there uint64_at (R.left reader.old)) }
{
    if !is_there {
        return Ok(None);
    }
    Ok(Some(long(alloc, reader)?))
}

fn two_where<R: Reader>(
    alloc: Global,
    is_there: bool,
    reader: &mut R,
) -> Result<Option<(u32, u32)>, FrameError>
    ensures { ReadsField (λ p. p) (R.left reader.new) result (where_set is_there two_numbers_at (R.left reader.old)) }
{
    if !is_there {
        return Ok(None);
    }
    Ok(Some(two_numbers(alloc, reader)?))
}

/// Passes over a string. Does not allocate.
fn skip_text<R: Reader>(reader: &mut R) -> Result<(), FrameError>
    ensures { ReadsField (λ u. u) (R.left reader.new) result (value_passed (text_at (R.left reader.old))) }
{
    reader.drain_prefixed()?;
    Ok(())
}

/// Passes over pairs of strings, one by one.
fn skip_pairs<R: Reader>(count: u32, reader: &mut R) -> Result<(), FrameError>
    ensures { ReadsField (λ u. u) (R.left reader.new) result (passed_to (behind_pairs count (R.left reader.old))) }
{
    for i in 0..count {
        skip_text(reader)?;
        skip_text(reader)?;
    }
    Ok(())
}

#[tactic(auto, unfolding(sftp_model::specs::Readings::behind_counted_pairs))]
fn counted_pairs_where<R: Reader>(
    alloc: Global,
    is_there: bool,
    reader: &mut R,
) -> Result<Option<()>, FrameError>
    ensures { ReadsField (λ u. u) (R.left reader.new) result (where_set is_there behind_counted_pairs (R.left reader.old)) }
{
    if !is_there {
        return Ok(None);
    }
    let count = number(alloc, reader)?;
    skip_pairs(count, reader)?;
    Ok(Some(()))
}

/// Reads attributes. The extended pairs and the bits without a field are passed over.
#[tactic(auto, unfolding(sftp_model::specs::Readings::attributes_at))]
pub(crate) fn attributes<R: Reader>(alloc: Global, reader: &mut R) -> Result<FileAttrs, FrameError>
    ensures { ReadsField (λ a. a) (R.left reader.new) result (attributes_at (R.left reader.old)) }
{
    let flags = number(alloc, reader)?;
    let size = long_where(alloc, flags & numbers::SSH_FILEXFER_ATTR_SIZE != 0, reader)?;
    let id = two_where(
        alloc,
        flags & numbers::SSH_FILEXFER_ATTR_UIDGID != 0,
        reader,
    )?;
    let permissions = number_where(
        alloc,
        flags & numbers::SSH_FILEXFER_ATTR_PERMISSIONS != 0,
        reader,
    )?;
    let time = two_where(
        alloc,
        flags & numbers::SSH_FILEXFER_ATTR_ACMODTIME != 0,
        reader,
    )?;
    counted_pairs_where(
        alloc,
        flags & numbers::SSH_FILEXFER_ATTR_EXTENDED != 0,
        reader,
    )?;
    Ok(FileAttrs {
        size,
        id,
        permissions,
        time,
    })
}

/// Returns `TrailingData` with the number of bytes exactly if bytes are left.
pub(crate) fn finished<R: Reader>(reader: &R) -> Result<(), FrameError>
    ensures ok { OnOk result ((length (R.left reader.now) == 0) ≡ true) }
    ensures err { IfErr result (λ e. ((length (R.left reader.now) == 0) ≡ false) × (e ≡ errors.Format (kinds.TrailingData (length (R.left reader.now))))) }
{
    let remaining = reader.remaining_len();
    if remaining == 0 {
        return Ok(());
    }
    Err(FrameError::Format(FormatKind::TrailingData { remaining }))
}

/// Returns the handle of these bytes. `HandleTooLong` exactly over `MAX_HANDLE_LEN`.
pub(crate) fn handle_of(bytes: &[u8]) -> Result<Handle, FrameError>
    requires { length bytes.now ≤ MAX_BODY_LEN }
    ensures ok { IfOk result (λ h. (nat_lt MAX_HANDLE_LEN (length bytes.now) ≡ false) × (h ≡ bytes.now)) }
    ensures err { IfErr result (λ e. (nat_lt MAX_HANDLE_LEN (length bytes.now) ≡ true) × (e ≡ errors.HandleTooLong (length bytes.now))) }
{
    match Handle::new(bytes) {
        Some(handle) => Ok(handle),
        None => Err(FrameError::HandleTooLong {
            len: bytes.len() as u32,
        }),
    }
}
