//! The head of a frame: the whole frame except the bytes of a WRITE's content.
ghost use Rattle.std.specs.Prelude.{◌≡◌, ◌≤◌, ◌++◌, ℕ, length, OnOk, OnErr};
ghost use Rattle.ssh_encoding.specs.Writing.{uint32, uint64, string};
ghost use Rattle.sftp_model.specs.Numbers.{SSH_FXP_WRITE, MAX_BODY_LEN};
ghost use Rattle.sftp_model.specs.Frames.{of_type, request_body};
ghost use Rattle.sftp_wire.specs.Body.{AppendsBytes, body_bytes};
ghost use Rattle.sftp_wire.specs.Heads.{request_head};

use crate::body::{Body, Field};
use crate::fields::put_number;
use crate::measure::pieces_len;
use crate::write::{request_len, write_request};
use sftp_model::{Request, numbers};
use ssh_encoding::{Error, OutOfMemory};

/// Appends the frame of a request without the bytes of its content, which only a WRITE has. For any other request it
/// appends the whole frame (draft-ietf-secsh-filexfer-02, section 6.4).
///
/// # Errors
///
/// `OutOfMemory` if an allocation fails; `out` is unchanged.
pub fn write_request_head(request: &Request, id: u32, out: &mut Vec<u8>) -> Result<(), OutOfMemory>
    requires { length (request_body request.now id) ≤ MAX_BODY_LEN }
    ensures ok { OnOk result (out.new.items ≡ out.old.items ++ request_head request.now id) }
    ensures unchanged { OnErr result (out.new.items ≡ out.old.items) }
{
    match request {
        Request::Write {
            handle,
            offset,
            content,
        } => {
            let Some(len) = request_len(request) else {
                unreachable!();
            };
            let count = pieces_len(content.pieces()) as u32;
            fields_before_content(handle.as_bytes(), *offset, count).write_after(len, id, out)
        }
        _ => write_request(request, id, out),
    }
}

/// Returns the fields of a WRITE before the bytes of its content, whose number is `count`.
#[tactic(auto, using(crate::proofs::Parts::joins))]
fn fields_before_content<'a>(handle: &'a [u8], offset: u64, count: u32) -> Body<'a>
    ensures { (id : ℕ) → body_bytes result id ≡ of_type SSH_FXP_WRITE id (string handle.now ++ uint64 offset ++ uint32 count) }
{
    use Field::{Long, Nothing, Number, Text};
    Body {
        kind: numbers::SSH_FXP_WRITE,
        has_id: true,
        fields: [
            Text(handle),
            Long(offset),
            Number(count),
            Nothing,
            Nothing,
            Nothing,
        ],
    }
}

impl<'a> Body<'a> {
    /// Appends a length, which may be more than that of the body, and the body. Fails only if an allocation fails;
    /// `out` is unchanged.
    #[tactic(auto, using(crate::proofs::Puts::puts))]
    fn write_after(&self, len: u32, id: u32, out: &mut Vec<u8>) -> Result<(), OutOfMemory>
        ensures ok { OnOk result (out.new.items ≡ out.old.items ++ (uint32 len ++ body_bytes self.now id)) }
        ensures unchanged { OnErr result (out.new.items ≡ out.old.items) }
    {
        let before = out.len();
        match self.put_after(len, id, out) {
            Ok(()) => Ok(()),
            Err(_) => {
                out.truncate(before);
                Err(OutOfMemory)
            }
        }
    }

    /// Appends a length and the body. An error may leave a part of them.
    #[tactic(auto, using(crate::proofs::Puts::puts))]
    fn put_after(&self, len: u32, id: u32, out: &mut Vec<u8>) -> Result<(), Error>
        ensures ok { OnOk result (out.new.items ≡ out.old.items ++ (uint32 len ++ body_bytes self.now id)) }
        ensures grows { AppendsBytes out.old.items out.new.items }
    {
        put_number(len, out)?;
        self.write(id, out)
    }
}
