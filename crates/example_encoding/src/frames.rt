//! A request written to bytes by a client, and read from them by a server.
ghost use Rattle.std.specs.Prelude.{◌≡◌, IfOk, IsOkUnless};
ghost use Rattle.sftp_model.specs.Fits.{FitsRequest};
ghost use Rattle.sftp_model.specs.declared.frame_error.FrameError.TheVariants as errors;

use sftp_model::{FrameError, Request};
use sftp_wire::{Message, frames_read_back, read_request, write_body};
use std::alloc::Global;

/// Returns the request that a server reads if a client wrote this one, without the length of its frame.
///
/// # Errors
///
/// `OutOfMemory` if an allocation fails.
pub fn through_bytes(alloc: Global, request: &Request, id: u32) -> Result<Request, FrameError>
    requires { FitsRequest request.now }
    ensures ok { IfOk result (λ read. read ≡ request.now) }
    ensures only { IsOkUnless result errors.OutOfMemory }
{
    frames_read_back();
    let mut body = Vec::new(alloc);
    if write_body(Message::Request(request), id, &mut body).is_err() {
        return Err(FrameError::OutOfMemory);
    }
    let (_, read) = read_request(alloc, &body)?;
    Ok(read)
}
