//! Functions that append fields to a vector of bytes. An error may leave a prefix of a field in it.
ghost use Rattle.std.specs.Prelude.{◌≡◌, ◌<◌, ◌^◌, ◌++◌, [], ◌∷◌, length, OnOk, OnErr};
ghost use Rattle.std.specs.List.{flat_map};
ghost use Rattle.ssh_encoding.specs.Writing.{uint32, uint64, string};
ghost use Rattle.sftp_model.specs.Pieces.{joined_pieces};
ghost use Rattle.sftp_model.specs.Frames.{frame, where_there, two_numbers, attribute_bits, attributes, name_entry, extension_pair, extension_pairs, extension_table};
ghost use Rattle.sftp_wire.specs.Body.{field_bytes, body_bytes, AppendsBytes};

use crate::body::{Body, Field};
use crate::measure::{pieces_len, where_there};
use crate::names;
use bitflags::Flags;
use bytes::Bytes;
use sftp_model::{Extensions, FileAttrs, NameEntry, numbers};
use ssh_encoding::{Encode, Error, OutOfMemory, Writer};

#[tactic(auto, using(crate::proofs::Puts::puts))]
fn put_byte(n: u8, out: &mut Vec<u8>) -> Result<(), Error>
    ensures ok { OnOk result (out.new.items ≡ out.old.items ++ n ∷ []) }
    ensures grows { AppendsBytes out.old.items out.new.items }
{
    n.encode(out)
}

#[tactic(auto, using(crate::proofs::Puts::puts))]
pub(crate) fn put_number(n: u32, out: &mut Vec<u8>) -> Result<(), Error>
    ensures ok { OnOk result (out.new.items ≡ out.old.items ++ uint32 n) }
    ensures grows { AppendsBytes out.old.items out.new.items }
{
    n.encode(out)
}

#[tactic(auto, using(crate::proofs::Puts::puts))]
fn put_long(n: u64, out: &mut Vec<u8>) -> Result<(), Error>
    ensures ok { OnOk result (out.new.items ≡ out.old.items ++ uint64 n) }
    ensures grows { AppendsBytes out.old.items out.new.items }
{
    n.encode(out)
}

/// Appends a number of bytes or of entries. `Overflow` over `u32::MAX`.
#[tactic(auto, using(crate::proofs::Puts::puts))]
fn put_count(n: usize, out: &mut Vec<u8>) -> Result<(), Error>
    ensures ok { OnOk result (out.new.items ≡ out.old.items ++ uint32 n) }
    ensures small { OnOk result (n < 2 ^ 32) }
    ensures grows { AppendsBytes out.old.items out.new.items }
{
    n.encode(out)
}

#[tactic(auto, using(crate::proofs::Puts::puts))]
fn put_text(bytes: &[u8], out: &mut Vec<u8>) -> Result<(), Error>
    ensures ok { OnOk result (out.new.items ≡ out.old.items ++ string bytes.now) }
    ensures grows { AppendsBytes out.old.items out.new.items }
{
    bytes.encode(out)
}

#[tactic(auto, using(crate::proofs::Puts::puts))]
fn put_raw(bytes: &[u8], out: &mut Vec<u8>) -> Result<(), Error>
    ensures ok { OnOk result (out.new.items ≡ out.old.items ++ bytes.now) }
    ensures grows { AppendsBytes out.old.items out.new.items }
{
    out.write(bytes)
}

/// Appends the pieces, one after another.
#[tactic(auto, using(crate::proofs::Puts::puts))]
fn put_joined(pieces: &[Bytes], out: &mut Vec<u8>) -> Result<(), Error>
    ensures ok { OnOk result (out.new.items ≡ out.old.items ++ joined_pieces pieces.now) }
    ensures grows { AppendsBytes out.old.items out.new.items }
{
    for piece in pieces {
        put_raw(piece.as_slice(), out)?;
    }
    Ok(())
}

/// Appends the pieces as one string.
#[tactic(auto, using(crate::proofs::Puts::puts), unfolding(ssh_encoding::specs::Writing::string))]
fn put_pieces(pieces: &[Bytes], out: &mut Vec<u8>) -> Result<(), Error>
    ensures ok { OnOk result (out.new.items ≡ out.old.items ++ string (joined_pieces pieces.now)) }
    ensures grows { AppendsBytes out.old.items out.new.items }
{
    put_count(pieces_len(pieces), out)?;
    put_joined(pieces, out)
}

#[tactic(auto, using(crate::proofs::Puts::puts))]
fn put_two_numbers(numbers: (u32, u32), out: &mut Vec<u8>) -> Result<(), Error>
    ensures ok { OnOk result (out.new.items ≡ out.old.items ++ two_numbers numbers) }
    ensures grows { AppendsBytes out.old.items out.new.items }
{
    put_number(numbers.0, out)?;
    put_number(numbers.1, out)
}

/// Returns the bits of the fields that are present.
fn attribute_bits(attrs: &FileAttrs) -> u32
    ensures { result ≡ attribute_bits attrs.now }
{
    where_there(&attrs.size, numbers::SSH_FILEXFER_ATTR_SIZE)
        + where_there(&attrs.id, numbers::SSH_FILEXFER_ATTR_UIDGID)
        + where_there(&attrs.permissions, numbers::SSH_FILEXFER_ATTR_PERMISSIONS)
        + where_there(&attrs.time, numbers::SSH_FILEXFER_ATTR_ACMODTIME)
}

#[tactic(auto, using(crate::proofs::Puts::puts))]
fn put_size(size: Option<u64>, out: &mut Vec<u8>) -> Result<(), Error>
    ensures ok { OnOk result (out.new.items ≡ out.old.items ++ where_there uint64 size) }
    ensures grows { AppendsBytes out.old.items out.new.items }
{
    match size {
        None => Ok(()),
        Some(size) => put_long(size, out),
    }
}

#[tactic(auto, using(crate::proofs::Puts::puts))]
fn put_permissions(permissions: Option<u32>, out: &mut Vec<u8>) -> Result<(), Error>
    ensures ok { OnOk result (out.new.items ≡ out.old.items ++ where_there uint32 permissions) }
    ensures grows { AppendsBytes out.old.items out.new.items }
{
    match permissions {
        None => Ok(()),
        Some(permissions) => put_number(permissions, out),
    }
}

/// Appends the ids of user and group, or the times of access and change.
#[tactic(auto, using(crate::proofs::Puts::puts))]
fn put_two(numbers: Option<(u32, u32)>, out: &mut Vec<u8>) -> Result<(), Error>
    ensures ok { OnOk result (out.new.items ≡ out.old.items ++ where_there two_numbers numbers) }
    ensures grows { AppendsBytes out.old.items out.new.items }
{
    match numbers {
        None => Ok(()),
        Some(numbers) => put_two_numbers(numbers, out),
    }
}

/// Appends attributes (draft-ietf-secsh-filexfer-02, section 5), with exactly the bits of the fields that are present.
#[tactic(auto, using(crate::proofs::Puts::puts), unfolding(sftp_model::specs::Frames::attributes))]
fn put_attributes(attrs: &FileAttrs, out: &mut Vec<u8>) -> Result<(), Error>
    ensures ok { OnOk result (out.new.items ≡ out.old.items ++ attributes attrs.now) }
    ensures grows { AppendsBytes out.old.items out.new.items }
{
    put_number(attribute_bits(attrs), out)?;
    put_size(attrs.size, out)?;
    put_two(attrs.id, out)?;
    put_permissions(attrs.permissions, out)?;
    put_two(attrs.time, out)
}

#[tactic(auto, using(crate::proofs::Puts::puts))]
fn put_entry(entry: &NameEntry, out: &mut Vec<u8>) -> Result<(), Error>
    ensures ok { OnOk result (out.new.items ≡ out.old.items ++ name_entry entry.now) }
    ensures grows { AppendsBytes out.old.items out.new.items }
{
    put_text(entry.filename.as_bytes(), out)?;
    put_text(entry.longname.as_slice(), out)?;
    put_attributes(&entry.attrs, out)
}

/// Appends the entries, one after another.
#[tactic(auto, using(crate::proofs::Puts::puts))]
fn put_entries(entries: &[NameEntry], out: &mut Vec<u8>) -> Result<(), Error>
    ensures ok { OnOk result (out.new.items ≡ out.old.items ++ flat_map name_entry entries.now) }
    ensures grows { AppendsBytes out.old.items out.new.items }
{
    for entry in entries {
        put_entry(entry, out)?;
    }
    Ok(())
}

/// Appends the number of entries, and the entries.
#[tactic(auto, using(crate::proofs::Puts::puts))]
fn put_names(entries: &[NameEntry], out: &mut Vec<u8>) -> Result<(), Error>
    ensures ok { OnOk result (out.new.items ≡ out.old.items ++ (uint32 (length entries.now) ++ flat_map name_entry entries.now)) }
    ensures grows { AppendsBytes out.old.items out.new.items }
{
    put_count(entries.len(), out)?;
    put_entries(entries, out)
}

/// Appends the pair of an extension, if the set has it.
#[tactic(auto, using(crate::proofs::Puts::puts))]
fn put_pair(
    set: Extensions,
    extension: Extensions,
    name: &[u8],
    out: &mut Vec<u8>,
) -> Result<(), Error>
    ensures ok { OnOk result (out.new.items ≡ out.old.items ++ extension_pair set.0 (name.now, extension.0)) }
    ensures grows { AppendsBytes out.old.items out.new.items }
{
    if set.bits() & extension.bits() == 0 {
        return Ok(());
    }
    put_text(name, out)?;
    put_text(names::VALUE, out)
}

/// Appends a pair for each extension of the set (OpenSSH's PROTOCOL, section 4).
#[tactic(auto, using(crate::proofs::Puts::puts))]
fn put_pairs(set: Extensions, out: &mut Vec<u8>) -> Result<(), Error>
    ensures ok { OnOk result (out.new.items ≡ out.old.items ++ extension_pairs set.0 extension_table) }
    ensures grows { AppendsBytes out.old.items out.new.items }
{
    put_pair(set, Extensions::POSIX_RENAME, names::POSIX_RENAME, out)?;
    put_pair(set, Extensions::HARDLINK, names::HARDLINK, out)?;
    put_pair(set, Extensions::FSYNC, names::FSYNC, out)?;
    put_pair(set, Extensions::EXPAND_PATH, names::EXPAND_PATH, out)?;
    put_pair(set, Extensions::COPY_DATA, names::COPY_DATA, out)?;
    put_pair(set, Extensions::LIMITS, names::LIMITS, out)
}

#[tactic(auto, using(crate::proofs::Puts::puts))]
fn put_field(field: &Field, out: &mut Vec<u8>) -> Result<(), Error>
    ensures ok { OnOk result (out.new.items ≡ out.old.items ++ field_bytes field.now) }
    ensures grows { AppendsBytes out.old.items out.new.items }
{
    match *field {
        Field::Nothing => Ok(()),
        Field::Number(n) => put_number(n, out),
        Field::Long(n) => put_long(n, out),
        Field::Text(text) => put_text(text, out),
        Field::Pieces(pieces) => put_pieces(pieces, out),
        Field::Attributes(attrs) => put_attributes(&attrs, out),
        Field::Entries(entries) => put_names(entries, out),
        Field::Pairs(set) => put_pairs(set, out),
        Field::Raw(bytes) => put_raw(bytes, out),
    }
}

#[tactic(auto, using(crate::proofs::Puts::puts))]
fn put_fields(fields: &[Field], out: &mut Vec<u8>) -> Result<(), Error>
    ensures ok { OnOk result (out.new.items ≡ out.old.items ++ flat_map field_bytes fields.now) }
    ensures grows { AppendsBytes out.old.items out.new.items }
{
    for field in fields {
        put_field(field, out)?;
    }
    Ok(())
}

impl<'a> Body<'a> {
    /// Appends the bytes of the body, with an id if it has one. An error may leave a prefix of them.
    #[tactic(auto, using(crate::proofs::Puts::puts))]
    pub(crate) fn write(&self, id: u32, out: &mut Vec<u8>) -> Result<(), Error>
        ensures ok { OnOk result (out.new.items ≡ out.old.items ++ body_bytes self.now id) }
        ensures grows { AppendsBytes out.old.items out.new.items }
    {
        put_byte(self.kind, out)?;
        if self.has_id {
            put_number(id, out)?;
        }
        put_fields(&self.fields, out)
    }

    /// Appends a frame: the length of the body, and the body. Fails only if an allocation fails; `out` is unchanged.
    #[tactic(auto, using(crate::proofs::Puts::puts))]
    pub(crate) fn write_frame(
        &self,
        len: u32,
        id: u32,
        out: &mut Vec<u8>,
    ) -> Result<(), OutOfMemory>
        requires { len ≡ length (body_bytes self.now id) }
        ensures ok { OnOk result (out.new.items ≡ out.old.items ++ frame (body_bytes self.now id)) }
        ensures unchanged { OnErr result (out.new.items ≡ out.old.items) }
    {
        let before = out.len();
        match self.write_behind(len, id, out) {
            Ok(()) => Ok(()),
            Err(_) => {
                out.truncate(before);
                Err(OutOfMemory)
            }
        }
    }

    /// Appends a length and the body. An error may leave a prefix of them.
    #[tactic(auto, using(crate::proofs::Puts::puts), unfolding(ssh_encoding::specs::Writing::string))]
    fn write_behind(&self, len: u32, id: u32, out: &mut Vec<u8>) -> Result<(), Error>
        requires { len ≡ length (body_bytes self.now id) }
        ensures ok { OnOk result (out.new.items ≡ out.old.items ++ frame (body_bytes self.now id)) }
        ensures grows { AppendsBytes out.old.items out.new.items }
    {
        put_number(len, out)?;
        self.write(id, out)
    }
}
