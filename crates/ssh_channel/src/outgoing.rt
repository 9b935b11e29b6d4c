//! The packets that are sent.
ghost use Rattle.std.specs.Prelude.{◌≡◌, ◌∷◌, ◌++◌, [], IfOk, Some, None, MatchOption};
ghost use Rattle.ssh_channel.specs.Messages.{data_message, window_adjust_message, channel_message, open_message, mux_packet, subsystem_message, packet, answer_of};

use crate::message::Message;
use crate::numbers::{
    SSH_MSG_CHANNEL_CLOSE, SSH_MSG_CHANNEL_DATA, SSH_MSG_CHANNEL_FAILURE, SSH_MSG_CHANNEL_OPEN,
    SSH_MSG_CHANNEL_REQUEST, SSH_MSG_CHANNEL_WINDOW_ADJUST, SSH_MSG_REQUEST_FAILURE,
};
use ssh_encoding::{Encode, Error};
use std::alloc::Global;

/// The padding length of each message in proxy mode.
const NO_PADDING: u8 = 0;

/// The number of bytes of the body of a data packet before its payload.
const DATA_FIELDS: usize = 10;

/// Returns a packet of PROTOCOL.mux with two numbers.
#[tactic(auto, unfolding(crate::specs::Messages::mux_packet))]
pub(crate) fn mux(alloc: Global, kind: u32, number: u32) -> Result<Vec<u8>, Error>
    ensures { IfOk result (λ v. v.items ≡ mux_packet kind number) }
{
    let mut body = Vec::new(alloc);
    kind.encode(&mut body)?;
    number.encode(&mut body)?;
    body.encode_vec(alloc)
}

/// Returns the packet of bytes of the stream, which are copied once.
pub(crate) fn data(alloc: Global, channel: u32, bytes: &[u8]) -> Result<Vec<u8>, Error>
    ensures { IfOk result (λ v. v.items ≡ packet (data_message channel bytes.now)) }
{
    let mut packet = Vec::with_capacity(alloc, DATA_FIELDS + bytes.len() + 4)?;
    (DATA_FIELDS + bytes.len()).encode(&mut packet)?;
    packet.extend_from_slice(&[NO_PADDING, SSH_MSG_CHANNEL_DATA])?;
    channel.encode(&mut packet)?;
    bytes.encode(&mut packet)?;
    Ok(packet)
}

/// Returns the packet that lets the server send this many bytes more.
#[tactic(auto, unfolding(crate::specs::Messages::window_adjust_message))]
pub(crate) fn window_adjust(alloc: Global, channel: u32, more: u32) -> Result<Vec<u8>, Error>
    ensures { IfOk result (λ v. v.items ≡ packet (window_adjust_message channel more)) }
{
    let mut body = Vec::from_slice(alloc, &[NO_PADDING, SSH_MSG_CHANNEL_WINDOW_ADJUST])?;
    channel.encode(&mut body)?;
    more.encode(&mut body)?;
    body.encode_vec(alloc)
}

/// Returns the packet of a message that has a channel alone.
#[tactic(auto, unfolding(crate::specs::Messages::channel_message))]
fn channel_only(alloc: Global, kind: u8, channel: u32) -> Result<Vec<u8>, Error>
    ensures { IfOk result (λ v. v.items ≡ packet (channel_message kind channel)) }
{
    let mut body = Vec::from_slice(alloc, &[NO_PADDING, kind])?;
    channel.encode(&mut body)?;
    body.encode_vec(alloc)
}

/// Returns the packet that answers a message, or `None` if it has no answer.
pub(crate) fn answer(
    alloc: Global,
    channel: u32,
    message: Message,
) -> Result<Option<Vec<u8>>, Error>
    ensures { IfOk result (λ found. MatchOption found
        (answer_of channel message ≡ [])
        (λ v. answer_of channel message ≡ v.items)) }
{
    match message {
        Message::Request(_, true) => {
            Ok(Some(channel_only(alloc, SSH_MSG_CHANNEL_FAILURE, channel)?))
        }
        Message::Close(_) => Ok(Some(channel_only(alloc, SSH_MSG_CHANNEL_CLOSE, channel)?)),
        Message::GlobalRequest(true) => Ok(Some(Vec::from_slice(
            alloc,
            &[NO_PADDING, SSH_MSG_REQUEST_FAILURE],
        )?.encode_vec(alloc)?)),
        _ => Ok(None),
    }
}

/// Returns the packet that opens a session, to which the server may send this many bytes, and at most `most` in one
/// message.
#[tactic(auto, unfolding(crate::specs::Messages::open_message))]
pub(crate) fn open(alloc: Global, channel: u32, window: u32, most: u32) -> Result<Vec<u8>, Error>
    ensures { IfOk result (λ v. v.items ≡ packet (open_message channel window most)) }
{
    let mut body = Vec::from_slice(alloc, &[NO_PADDING, SSH_MSG_CHANNEL_OPEN])?;
    let session: &[u8] = b"session";
    session.encode(&mut body)?;
    channel.encode(&mut body)?;
    window.encode(&mut body)?;
    most.encode(&mut body)?;
    body.encode_vec(alloc)
}

/// Returns the packet that asks for a subsystem and for a reply.
#[tactic(auto, unfolding(crate::specs::Messages::subsystem_message, ssh_encoding::specs::Writing::flag))]
pub(crate) fn subsystem(alloc: Global, channel: u32, name: &[u8]) -> Result<Vec<u8>, Error>
    ensures { IfOk result (λ v. v.items ≡ packet (subsystem_message channel name.now)) }
{
    let mut body = Vec::from_slice(alloc, &[NO_PADDING, SSH_MSG_CHANNEL_REQUEST])?;
    channel.encode(&mut body)?;
    let request: &[u8] = b"subsystem";
    request.encode(&mut body)?;
    true.encode(&mut body)?;
    name.encode(&mut body)?;
    body.encode_vec(alloc)
}
