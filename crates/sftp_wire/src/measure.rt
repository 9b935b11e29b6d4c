//! The number of bytes of a body. A sum that passes the greatest `usize` stays there.
ghost use Rattle.std.specs.Prelude.{◌≡◌, ℕ, length};
ghost use Rattle.std.specs.List.{flat_map};
ghost use Rattle.ssh_encoding.specs.Writing.{string};
ghost use Rattle.sftp_model.specs.Pieces.{joined_pieces};
ghost use Rattle.sftp_model.specs.Frames.{bit, attributes, name_entry, extension_pair, extension_pairs, extension_table};
ghost use Rattle.sftp_wire.specs.Body.{field_bytes, body_bytes, saturated_length, IsLengthWithin};

use crate::body::{Body, Field};
use crate::names;
use bitflags::Flags;
use bytes::Bytes;
use sftp_model::{Extensions, FileAttrs, NameEntry, numbers};

fn raw_len(bytes: &[u8]) -> usize
    ensures { result ≡ saturated_length (length bytes.now) }
{
    bytes.len()
}

#[tactic(auto, using(crate::proofs::Lengths::lengths))]
fn text_len(bytes: &[u8]) -> usize
    ensures { result ≡ saturated_length (length (string bytes.now)) }
{
    bytes.len().saturating_add(4)
}

pub(crate) fn pieces_len(pieces: &[Bytes]) -> usize
    ensures { result ≡ saturated_length (length (joined_pieces pieces.now)) }
{
    let mut total: usize = 0;
    for piece in pieces {
        total = total.saturating_add(piece.len());
    }
    total
}

/// Returns `n` if the field is present, otherwise 0.
pub(crate) fn where_there<T: Copy>(field: &Option<T>, n: u32) -> u32
    ensures { result ≡ bit n field.now }
{
    match field {
        None => 0,
        Some(_) => n,
    }
}

#[tactic(auto, using(crate::proofs::Lengths::lengths))]
fn attributes_len(attrs: &FileAttrs) -> usize
    ensures { result ≡ length (attributes attrs.now) }
{
    let size = where_there(&attrs.size, 8) as usize;
    let id = where_there(&attrs.id, 8) as usize;
    let permissions = where_there(&attrs.permissions, 4) as usize;
    let time = where_there(&attrs.time, 8) as usize;
    4 + size + id + permissions + time
}

#[tactic(auto, using(crate::proofs::Lengths::lengths))]
fn entry_len(entry: &NameEntry) -> usize
    ensures { result ≡ saturated_length (length (name_entry entry.now)) }
{
    let names = text_len(entry.filename.as_bytes()).saturating_add(text_len(
        entry.longname.as_slice(),
    ));
    names.saturating_add(attributes_len(&entry.attrs))
}

#[tactic(auto, using(crate::proofs::Lengths::lengths))]
fn entries_len(entries: &[NameEntry]) -> usize
    ensures { result ≡ saturated_length (length (flat_map name_entry entries.now)) }
{
    let mut total: usize = 0;
    for entry in entries {
        total = total.saturating_add(entry_len(entry));
    }
    total
}

#[tactic(auto, using(crate::proofs::Lengths::lengths))]
fn pair_len(set: Extensions, extension: Extensions, name: &[u8]) -> usize
    ensures { result ≡ saturated_length (length (extension_pair set.0 (name.now, extension.0))) }
{
    if set.bits() & extension.bits() == 0 {
        0
    } else {
        text_len(name).saturating_add(text_len(names::VALUE))
    }
}

#[tactic(auto, using(crate::proofs::Lengths::lengths))]
fn pairs_len(set: Extensions) -> usize
    ensures { result ≡ saturated_length (length (extension_pairs set.0 extension_table)) }
{
    pair_len(set, Extensions::POSIX_RENAME, names::POSIX_RENAME)
        .saturating_add(pair_len(set, Extensions::HARDLINK, names::HARDLINK))
        .saturating_add(pair_len(set, Extensions::FSYNC, names::FSYNC))
        .saturating_add(pair_len(set, Extensions::EXPAND_PATH, names::EXPAND_PATH))
        .saturating_add(pair_len(set, Extensions::COPY_DATA, names::COPY_DATA))
        .saturating_add(pair_len(set, Extensions::LIMITS, names::LIMITS))
}

#[tactic(auto, using(crate::proofs::Lengths::lengths))]
fn field_len(field: &Field) -> usize
    ensures { result ≡ saturated_length (length (field_bytes field.now)) }
{
    match *field {
        Field::Nothing => 0,
        Field::Number(_) => 4,
        Field::Long(_) => 8,
        Field::Text(text) => text_len(text),
        Field::Pieces(pieces) => pieces_len(pieces).saturating_add(4),
        Field::Attributes(attrs) => attributes_len(&attrs),
        Field::Entries(entries) => entries_len(entries).saturating_add(4),
        Field::Pairs(set) => pairs_len(set),
        Field::Raw(bytes) => raw_len(bytes),
    }
}

fn fields_len(fields: &[Field]) -> usize
    ensures { result ≡ saturated_length (length (flat_map field_bytes fields.now)) }
{
    let mut total: usize = 0;
    for field in fields {
        total = total.saturating_add(field_len(field));
    }
    total
}

impl<'a> Body<'a> {
    /// Returns the number of bytes; None exactly if it is over `MAX_BODY_LEN`.
    #[tactic(auto, using(crate::proofs::Lengths::lengths))]
    pub(crate) fn len(&self) -> Option<u32>
        ensures { (id : ℕ) → IsLengthWithin result (length (body_bytes self.now id)) }
    {
        let head = if self.has_id { 5 } else { 1 };
        let len = fields_len(&self.fields).saturating_add(head);
        if len > numbers::MAX_BODY_LEN as usize {
            return None;
        }
        Some(len as u32)
    }
}
