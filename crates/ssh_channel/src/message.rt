//! The messages of a connection that concern one channel (RFC 4254, sections 4 to 6).
ghost use Rattle.std.specs.Prelude.{◌≡◌, ◌==◌, ◌<◌, ℕ, Bool, List, [], length};
ghost use Rattle.std.specs.Int.{w32};
ghost use Rattle.ssh_encoding.specs.Reading.{ReadsPlain};
ghost use Rattle.ssh_channel.specs.Messages.{message_at, fields_at, data_at, extended_data_at, window_adjust_at, channel_only_at, is_exit_status_at, exit_status_at, channel_request_at, global_request_at, open_confirmation_at, open_failure_at};

use crate::numbers::{
    SSH_MSG_CHANNEL_CLOSE, SSH_MSG_CHANNEL_DATA, SSH_MSG_CHANNEL_EOF,
    SSH_MSG_CHANNEL_EXTENDED_DATA, SSH_MSG_CHANNEL_FAILURE, SSH_MSG_CHANNEL_OPEN_CONFIRMATION,
    SSH_MSG_CHANNEL_OPEN_FAILURE, SSH_MSG_CHANNEL_REQUEST, SSH_MSG_CHANNEL_SUCCESS,
    SSH_MSG_CHANNEL_WINDOW_ADJUST, SSH_MSG_GLOBAL_REQUEST,
};
use ssh_encoding::{Decode, Error, Reader};
use std::alloc::Global;

/// A message without the bytes that follow its fields. The first number is that of the channel on the side that
/// receives it.
#[derive(Clone, Copy, Debug, PartialEq, Eq)]
pub(crate) enum Message {
    /// Bytes of the stream, which follow (section 5.2).
    Data(u32),
    /// Bytes of another stream, which follow (section 5.2).
    ExtendedData(u32),
    /// This many bytes more may be sent (section 5.2).
    WindowAdjust(u32, u32),
    /// No more bytes of the stream come (section 5.3).
    Eof(u32),
    /// The channel is closed (section 5.3).
    Close(u32),
    /// A request, and whether a reply is wanted (section 5.4).
    Request(u32, bool),
    /// The server's program ended with this status (section 6.10).
    ExitStatus(u32, u32),
    /// A request that belongs to no channel, and whether a reply is wanted (section 4).
    GlobalRequest(bool),
    /// A request was granted (section 5.4).
    Success(u32),
    /// A request was refused (section 5.4).
    Failure(u32),
    /// The channel was opened: its number on the other side, the number of bytes that may be sent, and the most in one
    /// message (section 5.1).
    OpenConfirmation(u32, u32, u32, u32),
    /// The channel was not opened, for this reason; a text follows (section 5.1).
    OpenFailure(u32, u32),
}

/// Reads a channel and a string, of which it leaves the bytes.
#[tactic(auto, unfolding(crate::specs::Messages::data_at))]
fn data<R: Reader>(alloc: Global, reader: &mut R) -> Result<Message, Error>
    ensures { ReadsPlain (λ m. m) (R.left reader.new) result (data_at (R.left reader.old)) }
{
    let channel = u32::decode(alloc, reader)?;
    let len = u32::decode(alloc, reader)?;
    if reader.remaining_len() != len as usize {
        return Err(Error::Length);
    }
    Ok(Message::Data(channel))
}

/// Reads a channel, the number of a stream, and a string, of which it leaves the bytes.
#[tactic(auto, unfolding(crate::specs::Messages::extended_data_at))]
fn extended_data<R: Reader>(alloc: Global, reader: &mut R) -> Result<Message, Error>
    ensures { ReadsPlain (λ m. m) (R.left reader.new) result (extended_data_at (R.left reader.old)) }
{
    let channel = u32::decode(alloc, reader)?;
    let _ = u32::decode(alloc, reader)?;
    let len = u32::decode(alloc, reader)?;
    if reader.remaining_len() != len as usize {
        return Err(Error::Length);
    }
    Ok(Message::ExtendedData(channel))
}

/// Reads a channel and a number of bytes.
#[tactic(auto, unfolding(crate::specs::Messages::window_adjust_at))]
fn window_adjust<R: Reader>(alloc: Global, reader: &mut R) -> Result<Message, Error>
    ensures { ReadsPlain (λ m. m) (R.left reader.new) result (window_adjust_at (R.left reader.old)) }
{
    let channel = u32::decode(alloc, reader)?;
    let more = u32::decode(alloc, reader)?;
    reader.ensure_finished()?;
    Ok(Message::WindowAdjust(channel, more))
}

/// Reads a channel alone.
#[tactic(auto, unfolding(crate::specs::Messages::channel_only_at))]
fn channel_only<R: Reader>(alloc: Global, kind: u8, reader: &mut R) -> Result<Message, Error>
    ensures { ReadsPlain (λ m. m) (R.left reader.new) result (channel_only_at kind (R.left reader.old)) }
{
    let channel = u32::decode(alloc, reader)?;
    reader.ensure_finished()?;
    match kind {
        SSH_MSG_CHANNEL_EOF => Ok(Message::Eof(channel)),
        SSH_MSG_CHANNEL_CLOSE => Ok(Message::Close(channel)),
        SSH_MSG_CHANNEL_SUCCESS => Ok(Message::Success(channel)),
        _ => Ok(Message::Failure(channel)),
    }
}

/// Reads the name of a request, and returns true if it is "exit-status".
#[tactic(auto, unfolding(crate::specs::Messages::is_exit_status_at))]
fn is_exit_status<R: Reader>(alloc: Global, reader: &mut R) -> Result<bool, Error>
    ensures { ReadsPlain (λ b. b) (R.left reader.new) result (is_exit_status_at (R.left reader.old)) }
{
    let len = u32::decode(alloc, reader)?;
    if len != 11 {
        reader.drain(len as usize)?;
        return Ok(false);
    }
    let mut name = [0u8; 11];
    reader.fill(&mut name)?;
    Ok(name == *b"exit-status")
}

/// Reads the status of the server's program.
#[tactic(auto, unfolding(crate::specs::Messages::exit_status_at))]
fn exit_status<R: Reader>(alloc: Global, channel: u32, reader: &mut R) -> Result<Message, Error>
    ensures { ReadsPlain (λ m. m) (R.left reader.new) result (exit_status_at channel (R.left reader.old)) }
{
    let status = u32::decode(alloc, reader)?;
    reader.ensure_finished()?;
    Ok(Message::ExitStatus(channel, status))
}

/// Reads a channel, the name of a request, and whether a reply is wanted. Of an "exit-status" that wants none, it reads
/// the status; of other requests it leaves the bytes that belong to the name.
#[tactic(auto, unfolding(crate::specs::Messages::channel_request_at))]
fn channel_request<R: Reader>(alloc: Global, reader: &mut R) -> Result<Message, Error>
    ensures { ReadsPlain (λ m. m) (R.left reader.new) result (channel_request_at (R.left reader.old)) }
{
    let channel = u32::decode(alloc, reader)?;
    let has_status = is_exit_status(alloc, reader)?;
    let wants_reply = bool::decode(alloc, reader)?;
    if has_status && !wants_reply {
        return exit_status(alloc, channel, reader);
    }
    Ok(Message::Request(channel, wants_reply))
}

/// Reads the name of a request and whether a reply is wanted, and leaves the bytes that belong to the name.
#[tactic(auto, unfolding(crate::specs::Messages::global_request_at))]
fn global_request<R: Reader>(alloc: Global, reader: &mut R) -> Result<Message, Error>
    ensures { ReadsPlain (λ m. m) (R.left reader.new) result (global_request_at (R.left reader.old)) }
{
    let len = u32::decode(alloc, reader)?;
    reader.drain(len as usize)?;
    let wants_reply = bool::decode(alloc, reader)?;
    Ok(Message::GlobalRequest(wants_reply))
}

/// Reads four numbers.
#[tactic(auto, unfolding(crate::specs::Messages::open_confirmation_at))]
fn open_confirmation<R: Reader>(alloc: Global, reader: &mut R) -> Result<Message, Error>
    ensures { ReadsPlain (λ m. m) (R.left reader.new) result (open_confirmation_at (R.left reader.old)) }
{
    let channel = u32::decode(alloc, reader)?;
    let peer_number = u32::decode(alloc, reader)?;
    let window = u32::decode(alloc, reader)?;
    let max_packet = u32::decode(alloc, reader)?;
    Ok(Message::OpenConfirmation(channel, peer_number, window, max_packet))
}

/// Reads a channel and a reason, and leaves the text.
#[tactic(auto, unfolding(crate::specs::Messages::open_failure_at))]
fn open_failure<R: Reader>(alloc: Global, reader: &mut R) -> Result<Message, Error>
    ensures { ReadsPlain (λ m. m) (R.left reader.new) result (open_failure_at (R.left reader.old)) }
{
    let channel = u32::decode(alloc, reader)?;
    let reason = u32::decode(alloc, reader)?;
    Ok(Message::OpenFailure(channel, reason))
}

/// Reads the fields of a kind of message.
#[tactic(auto, unfolding(crate::specs::Messages::fields_at))]
fn fields<R: Reader>(alloc: Global, kind: u8, reader: &mut R) -> Result<Message, Error>
    ensures { ReadsPlain (λ m. m) (R.left reader.new) result (fields_at kind (R.left reader.old)) }
{
    match kind {
        SSH_MSG_CHANNEL_DATA => data(alloc, reader),
        SSH_MSG_CHANNEL_EXTENDED_DATA => extended_data(alloc, reader),
        SSH_MSG_CHANNEL_WINDOW_ADJUST => window_adjust(alloc, reader),
        SSH_MSG_CHANNEL_EOF
        | SSH_MSG_CHANNEL_CLOSE
        | SSH_MSG_CHANNEL_SUCCESS
        | SSH_MSG_CHANNEL_FAILURE => channel_only(alloc, kind, reader),
        SSH_MSG_CHANNEL_REQUEST => channel_request(alloc, reader),
        SSH_MSG_GLOBAL_REQUEST => global_request(alloc, reader),
        SSH_MSG_CHANNEL_OPEN_CONFIRMATION => open_confirmation(alloc, reader),
        SSH_MSG_CHANNEL_OPEN_FAILURE => open_failure(alloc, reader),
        _ => Err(Error::InvalidDiscriminant(u128::from(kind))),
    }
}

/// Reads a message after its byte of padding length, which is 0 in proxy mode, and leaves the bytes that follow its
/// fields.
///
/// # Errors
///
/// The first refusal of the reading, never `OutOfMemory`.
#[tactic(auto, unfolding(crate::specs::Messages::message_at))]
pub(crate) fn read_message<R: Reader>(alloc: Global, reader: &mut R) -> Result<Message, Error>
    ensures { ReadsPlain (λ m. m) (R.left reader.new) result (message_at (R.left reader.old)) }
{
    let padding = u8::decode(alloc, reader)?;
    if padding != 0 {
        return Err(Error::Length);
    }
    let kind = u8::decode(alloc, reader)?;
    fields(alloc, kind, reader)
}
