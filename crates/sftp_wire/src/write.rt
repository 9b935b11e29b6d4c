//! Frames of requests and replies as bytes.
ghost use Rattle.std.specs.Prelude.{◌≡◌, ◌≤◌, ◌<◌, ◌++◌, ℕ, length, OnOk, OnErr, IsOkUnless, Err};
ghost use Rattle.sftp_model.specs.declared.frame_error.FrameError.TheVariants as errors;
ghost use Rattle.sftp_model.specs.declared.frame_error.FormatKind.TheVariants as kinds;
ghost use Rattle.sftp_model.specs.Numbers.{MAX_BODY_LEN};
ghost use Rattle.sftp_model.specs.Frames.{request_body, reply_body, request_frame, reply_frame};
ghost use Rattle.sftp_wire.specs.Body.{IsLengthWithin, body_bytes, message_body};

use crate::body::Body;
use sftp_model::{FormatKind, FrameError, Reply, Request};
use ssh_encoding::OutOfMemory;

/// Returns the number of bytes of a request's body; None exactly if it is over `MAX_BODY_LEN`
/// (draft-ietf-secsh-filexfer-02, section 3).
pub fn request_len(request: &Request) -> Option<u32>
    ensures { (id : ℕ) → IsLengthWithin result (length (request_body request.now id)) }
{
    Body::of_request(request).len()
}

/// Appends the frame of a request, with its id; the hello has none (draft-ietf-secsh-filexfer-02, sections 3, 4 and 6).
///
/// # Errors
///
/// `OutOfMemory` if an allocation fails; `out` is unchanged.
pub fn write_request(request: &Request, id: u32, out: &mut Vec<u8>) -> Result<(), OutOfMemory>
    requires { length (request_body request.now id) ≤ MAX_BODY_LEN }
    ensures ok { OnOk result (out.new.items ≡ out.old.items ++ request_frame request.now id) }
    ensures unchanged { OnErr result (out.new.items ≡ out.old.items) }
{
    let body = Body::of_request(request);
    match body.len() {
        Some(len) => body.write_frame(len, id, out),
        None => unreachable!(),
    }
}

/// Appends the frame of a reply, with its id; VERSION has none (draft-ietf-secsh-filexfer-02, sections 3, 4 and 7).
///
/// # Errors
///
/// `Format(Overflow)` exactly if its body is over `MAX_BODY_LEN` bytes; otherwise only `OutOfMemory`. `out` is
/// unchanged.
pub fn write_reply(reply: &Reply, id: u32, out: &mut Vec<u8>) -> Result<(), FrameError>
    ensures ok { OnOk result (out.new.items ≡ out.old.items ++ reply_frame reply.now id) }
    ensures unchanged { OnErr result (out.new.items ≡ out.old.items) }
    ensures over { MAX_BODY_LEN < length (reply_body reply.now id) → result ≡ Err (errors.Format kinds.Overflow) }
    ensures within { length (reply_body reply.now id) ≤ MAX_BODY_LEN → IsOkUnless result errors.OutOfMemory }
{
    let body = Body::of_reply(reply);
    let Some(len) = body.len() else {
        return Err(FrameError::Format(FormatKind::Overflow));
    };
    match body.write_frame(len, id, out) {
        Ok(()) => Ok(()),
        Err(OutOfMemory) => Err(FrameError::OutOfMemory),
    }
}

/// A request or a reply that a frame carries.
///
/// Example: `crates/example_encoding/src/frames.rt`.
#[derive(Clone, Copy)]
pub enum Message<'a> {
    Request(&'a Request),
    Reply(&'a Reply),
}

impl<'a> Message<'a> {
    fn body(self) -> Body<'a>
        ensures { (id : ℕ) → body_bytes result id ≡ message_body self.entry id }
    {
        match self {
            Message::Request(request) => Body::of_request(request),
            Message::Reply(reply) => Body::of_reply(reply),
        }
    }
}

/// Appends the body of a request or a reply without the length of a frame, even if it is over `MAX_BODY_LEN` bytes.
///
/// # Errors
///
/// `OutOfMemory` if an allocation fails, or if a length or a count does not fit four bytes; `out` is unchanged.
pub fn write_body(message: Message, id: u32, out: &mut Vec<u8>) -> Result<(), OutOfMemory>
    ensures ok { OnOk result (out.new.items ≡ out.old.items ++ message_body message.entry id) }
    ensures unchanged { OnErr result (out.new.items ≡ out.old.items) }
{
    let before = out.len();
    match message.body().write(id, out) {
        Ok(()) => Ok(()),
        Err(_) => {
            out.truncate(before);
            Err(OutOfMemory)
        }
    }
}
