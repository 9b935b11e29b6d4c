//! The frames among the bytes that a scripted link was sent, and those that it replies with.
ghost use Rattle.std.specs.Prelude.{◌≡◌, ◌+◌, ◌<◌, ◌≤◌, ◌^◌, Some, None, length, IfOk, MatchOption};
ghost use Rattle.sftp_link.specs.Frames.{number_of, first_frame, frame_at, id_of_frame, id_in, frame_of_fields, item_bytes};

use crate::piece::Scripted;
use std::alloc::{AllocError, Global};

/// The most bytes of fields that a frame has room for beside its kind and its id.
const MOST_FIELDS: usize = 4294967290;

// Returns the number in the first four bytes, the most significant first.
#[tactic(auto, unfolding(crate::specs::Frames::number_of))]
fn number_of(bytes: &[u8]) -> u32
    requires { 4 ≤ length bytes.now }
    ensures { result ≡ number_of bytes.now }
{
    u32::from_be_bytes([bytes[0], bytes[1], bytes[2], bytes[3]])
}

// Returns the first frame's body and the bytes after it, if the frame has come whole.
fn first_frame(bytes: &[u8]) -> Option<(&[u8], &[u8])>
    ensures { MatchOption result
        (first_frame bytes.now ≡ None)
        (λ f. first_frame bytes.now ≡ Some (f.0.now, f.1.now)) }
{
    if bytes.len() < 4 {
        return None;
    }
    let len = number_of(bytes) as usize;
    let rest = &bytes[4..];
    if rest.len() < len {
        return None;
    }
    Some((&rest[..len], &rest[len..]))
}

// Returns the body of the frame with this number, counted from 0, if it has come whole.
fn frame_at(bytes: &[u8], number: u32) -> Option<&[u8]>
    ensures { MatchOption result
        (frame_at number bytes.now ≡ None)
        (λ body. frame_at number bytes.now ≡ Some body.now) }
{
    let mut rest = bytes;
    for _ in 0..number {
        let (_, behind) = first_frame(rest)?;
        rest = behind;
    }
    let (body, _) = first_frame(rest)?;
    Some(body)
}

// Returns the id of the frame with this number, if it has come whole; the hello's is 0.
fn id_of_frame(bytes: &[u8], number: u32) -> Option<u32>
    ensures { result ≡ id_of_frame number bytes.now }
{
    let body = frame_at(bytes, number)?;
    if number == 0 {
        return Some(0);
    }
    if body.len() < 5 {
        return None;
    }
    Some(number_of(&body[1..]))
}

// Returns the frame of a kind, an id and fields. Fails only if an allocation fails.
#[tactic(auto, unfolding(crate::specs::Frames::frame_of_fields))]
fn frame_of_fields(alloc: Global, kind: u8, id: u32, fields: &[u8]) -> Result<Vec<u8>, AllocError>
    requires { length fields.now ≤ 4294967290 }
    ensures { IfOk result (λ v. v.items ≡ frame_of_fields kind id fields.now) }
{
    let len = 5 + fields.len() as u32;
    let mut frame = Vec::from_slice(alloc, &len.to_be_bytes())?;
    frame.push(kind)?;
    frame.extend_from_slice(&id.to_be_bytes())?;
    frame.extend_from_slice(fields)?;
    Ok(frame)
}

/// Returns the bytes of an item after these bytes were sent. Fails only if an allocation fails.
pub(crate) fn item_bytes(
    alloc: Global,
    sent: &[u8],
    item: &Scripted,
) -> Result<Option<Vec<u8>>, AllocError>
    ensures { IfOk result (λ found. MatchOption found
        (item_bytes sent.now item.now ≡ None)
        (λ v. item_bytes sent.now item.now ≡ Some v.items)) }
{
    match item {
        Scripted::Raw(bytes) => Ok(Some(Vec::from_slice(alloc, bytes.as_slice())?)),
        Scripted::To {
            request,
            flip,
            kind,
            fields,
        } => {
            let fields = fields.as_slice();
            if fields.len() > MOST_FIELDS {
                return Ok(None);
            }
            let Some(id) = id_of_frame(sent, *request) else {
                return Ok(None);
            };
            Ok(Some(frame_of_fields(alloc, *kind, id ^ *flip, fields)?))
        }
    }
}
