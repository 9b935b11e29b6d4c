//! Functions that append text to the bytes of a vector; after an error a prefix of the text may be there.
ghost use Rattle.std.specs.Prelude.{◌≡◌, ◌++◌, false, OnOk};
ghost use Rattle.ssh_encoding.specs.Canonical.{hex_text};
ghost use Rattle.sftp_wire.specs.Body.{AppendsBytes, message_body};
ghost use Rattle.script_text.specs.Texts.{hex_word, number_text, fields_of};

use itoa::Buffer;
use sftp_wire::{Message, write_body};
use ssh_encoding::OutOfMemory;
use std::alloc::Global;

/// Appends the bytes of a word.
///
/// # Errors
///
/// `OutOfMemory` if an allocation fails; a prefix of the word may be appended then.
#[tactic(auto, using(sftp_wire::proofs::Puts::puts))]
pub fn put_word(word: &str, out: &mut Vec<u8>) -> Result<(), OutOfMemory>
    ensures ok { OnOk result (out.new.items ≡ out.old.items ++ word.now) }
    ensures grows { AppendsBytes out.old.items out.new.items }
{
    out.extend_from_slice(word.as_bytes())?;
    Ok(())
}

/// Appends the decimal digits of a number.
///
/// # Errors
///
/// `OutOfMemory` if an allocation fails; a prefix of the digits may be appended then.
#[tactic(auto, using(sftp_wire::proofs::Puts::puts, crate::proofs::TextLaws::number_decimal))]
pub fn put_number(n: u64, out: &mut Vec<u8>) -> Result<(), OutOfMemory>
    ensures ok { OnOk result (out.new.items ≡ out.old.items ++ number_text n) }
    ensures grows { AppendsBytes out.old.items out.new.items }
{
    let mut digits = Buffer::new();
    put_word(digits.format(n), out)
}

/// Appends the hexadecimal digits of bytes, two per byte, in lower case.
///
/// # Errors
///
/// `OutOfMemory` if an allocation fails; a prefix of the digits may be appended then.
#[tactic(auto, using(sftp_wire::proofs::Puts::puts, crate::proofs::HexLaws::lower_written))]
pub fn put_hex(alloc: Global, bytes: &[u8], out: &mut Vec<u8>) -> Result<(), OutOfMemory>
    ensures ok { OnOk result (out.new.items ≡ out.old.items ++ hex_text false bytes.now) }
    ensures grows { AppendsBytes out.old.items out.new.items }
{
    let digits = hex::encode(alloc, bytes)?;
    put_word(digits.as_str(), out)
}

/// Appends the digits of bytes, or `-` for none.
///
/// # Errors
///
/// `OutOfMemory` if an allocation fails; a prefix of the digits may be appended then.
#[tactic(auto, using(sftp_wire::proofs::Puts::puts))]
pub fn put_bytes(alloc: Global, bytes: &[u8], out: &mut Vec<u8>) -> Result<(), OutOfMemory>
    ensures ok { OnOk result (out.new.items ≡ out.old.items ++ hex_word bytes.now) }
    ensures grows { AppendsBytes out.old.items out.new.items }
{
    match bytes {
        [] => put_word("-", out),
        [_, ..] => put_hex(alloc, bytes, out),
    }
}

/// Appends a word, and the digits of bytes after it.
#[tactic(auto, using(sftp_wire::proofs::Puts::puts))]
pub(crate) fn put_bytes_behind(
    alloc: Global,
    word: &str,
    bytes: &[u8],
    out: &mut Vec<u8>,
) -> Result<(), OutOfMemory>
    ensures ok { OnOk result (out.new.items ≡ out.old.items ++ (word.now ++ hex_word bytes.now)) }
    ensures grows { AppendsBytes out.old.items out.new.items }
{
    put_word(word, out)?;
    put_bytes(alloc, bytes, out)
}

/// Appends the fields of a request or a reply, which come after the type byte and the id.
#[tactic(auto, using(sftp_wire::proofs::Puts::puts))]
pub(crate) fn put_fields(
    alloc: Global,
    message: Message,
    id: u32,
    out: &mut Vec<u8>,
) -> Result<(), OutOfMemory>
    ensures ok { OnOk result (out.new.items ≡ out.old.items ++ hex_word (fields_of (message_body message.entry id))) }
    ensures grows { AppendsBytes out.old.items out.new.items }
{
    let mut body = Vec::new(alloc);
    write_body(message, id, &mut body)?;
    match body.as_slice() {
        [_, _, _, _, _, fields @ ..] => put_bytes(alloc, fields, out),
        _ => put_bytes(alloc, &[], out),
    }
}
