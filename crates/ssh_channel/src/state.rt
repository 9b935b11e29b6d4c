//! The state of a channel, without the link.
ghost use Rattle.std.specs.Prelude.{◌≡◌, ◌<◌, ◌≤◌, ◌+◌, ◌-◌, ◌++◌, [], true, false, length, None, Some, take, OnOk, OnErr, IfOk};
ghost use Rattle.ssh_channel.specs.ChannelStates.{AppliesBody, ConsumesAhead, IsAllowed, adjustment, after_message, fresh_channel, has_reply, meets_condition};

use crate::condition::Condition;
use crate::message::{Message, read_message};
use crate::numbers::{ADJUST_AT, CHANNEL, MAX_PACKET, WINDOW};
use crate::read_ahead::ReadAhead;
use crate::refusal::Refusal;
use crate::subsystem_reply::SubsystemReply;
use std::alloc::Global;
use std::marker::Model;

/// The reason why a message was not applied.
#[derive(Clone, Copy)]
pub(crate) enum ApplyError {
    /// An allocation failed.
    OutOfMemory,
    /// The message is not allowed.
    Refused(Refusal),
}

/// What both sides agreed on, and what came.
#[derive(Drop)]
pub(crate) struct ChannelState {
    alloc: Global,
    peer_number: u32,
    window: u32,
    max_packet: u32,
    ahead: ReadAhead,
    consumed: usize,
    eof: bool,
    closed: bool,
    reply: SubsystemReply,
    exit_status: Option<u32>,
}

impl Model for ChannelState {
    ghost use Rattle.ssh_channel.specs.ChannelStates.{ChannelData, IsWithinWindow};

    ghost Value = { ChannelData };

    ghost view = { λ t. record {
      peer_number = t.peer_number;
      window = t.window;
      max_packet = t.max_packet;
      ahead = t.ahead;
      consumed = t.consumed;
      eof = t.eof;
      closed = t.closed;
      reply = t.reply;
      exit_status = t.exit_status;
    } };

    ghost invariant = { λ t. IsWithinWindow t.max_packet t.ahead t.consumed };
}

/// Checks that a message is for the channel.
///
/// # Errors
///
/// `OtherChannel` if it names another one.
fn check_channel(number: u32) -> Result<(), ApplyError>
    ensures { OnOk result (number ≡ 0) }
{
    if number != CHANNEL {
        return Err(ApplyError::Refused(Refusal::OtherChannel(number)));
    }
    Ok(())
}

/// Returns true if the reply to the request for the subsystem came.
fn is_answered(reply: SubsystemReply) -> bool
    ensures { result ≡ has_reply reply }
{
    match reply {
        SubsystemReply::Awaited => false,
        SubsystemReply::Granted | SubsystemReply::Refused => true,
    }
}

impl ChannelState {
    /// Creates the state of a channel that was opened now. The reply to the request for the subsystem is awaited. Does
    /// not allocate.
    pub(crate) fn new(alloc: Global, peer_number: u32, window: u32, max_packet: u32) -> ChannelState
        requires { 0 < max_packet }
        ensures { result ≡ fresh_channel peer_number window max_packet }
    {
        ChannelState {
            alloc,
            peer_number,
            window,
            max_packet,
            ahead: ReadAhead::new(alloc),
            consumed: 0,
            eof: false,
            closed: false,
            reply: SubsystemReply::Awaited,
            exit_status: None,
        }
    }

    /// Returns the channel's number on the other side.
    pub(crate) fn peer_number(&self) -> u32
        ensures { result ≡ self.now.peer_number }
    {
        self.peer_number
    }

    /// Returns true if no more bytes may be sent.
    pub(crate) fn is_closed(&self) -> bool
        ensures { result ≡ self.now.closed }
    {
        self.closed
    }

    /// Returns the reply to the request for the subsystem.
    pub(crate) fn reply(&self) -> SubsystemReply
        ensures { result ≡ self.now.reply }
    {
        self.reply
    }

    /// Returns the status of the server's program, if it was reported.
    pub(crate) fn exit_status(&self) -> Option<u32>
        ensures { result ≡ self.now.exit_status }
    {
        self.exit_status
    }

    /// Returns true if a condition is met.
    pub(crate) fn meets(&self, condition: Condition) -> bool
        ensures { result ≡ meets_condition condition self.now }
    {
        match condition {
            Condition::Readable => self.ahead.len() > 0 || self.eof,
            Condition::Writable => self.window > 0 || self.closed,
            Condition::Answered => is_answered(self.reply) || self.closed,
            Condition::Closed => self.closed,
        }
    }

    /// Allocates memory for the payload of a message. Returns false if that fails.
    pub(crate) fn reserve(&mut self, more: usize) -> bool
        ensures { self.new ≡ self.old }
    {
        self.ahead.reserve(more).is_ok()
    }

    /// Returns the number of bytes by which the server's window is to be adjusted, or 0 while that is not worth a
    /// message.
    pub(crate) fn adjustment(&self) -> u32
        ensures { result ≡ adjustment self.now }
    {
        if self.consumed < ADJUST_AT {
            return 0;
        }
        self.consumed as u32
    }

    /// Records that the window was adjusted by all consumed bytes.
    pub(crate) fn record_adjusted(&mut self)
        ensures { self.new ≡ record self.old { consumed = 0 } }
    {
        self.consumed = 0;
    }

    /// Returns the most bytes that may be sent in one message now.
    pub(crate) fn send_limit(&self) -> u32
        ensures some { 0 < self.now.window → 0 < result }
        ensures window { result ≤ self.now.window }
        ensures most { (result ≤ self.now.max_packet) × (result ≤ MAX_PACKET) }
    {
        self.window.min(self.max_packet).min(MAX_PACKET)
    }

    /// Records that n bytes were sent.
    pub(crate) fn spend_window(&mut self, n: u32)
        requires { n ≤ self.old.window }
        ensures { self.new ≡ record self.old { window = self.old.window - n } }
    {
        self.window -= n;
    }

    /// Moves the first bytes ahead into the room, at most its length, and returns their number. They count as consumed.
    pub(crate) fn give(&mut self, room: &mut [u8]) -> usize
        ensures { ConsumesAhead self.old self.new room.new result }
    {
        let n = self.ahead.give(room);
        self.consumed += n;
        n
    }

    /// Returns true if n bytes are within the window that the server has.
    fn is_within_window(&self, n: usize) -> bool
        ensures { result ≡ true → n + length self.now.ahead + self.now.consumed ≤ WINDOW }
    {
        n <= WINDOW - self.ahead.len() - self.consumed
    }

    /// Appends bytes of the stream to those ahead.
    ///
    /// # Errors
    ///
    /// `Unexpected` after the end of the stream, `OverWindow` if they are more than the window, and `OutOfMemory`; the
    /// state is unchanged.
    fn append(&mut self, bytes: &[u8]) -> Result<(), ApplyError>
        ensures ok { OnOk result ((self.old.eof ≡ false)
            × (length bytes.now + length self.old.ahead + self.old.consumed ≤ WINDOW)
            × (self.new ≡ record self.old { ahead = self.old.ahead ++ bytes.now })) }
        ensures unchanged { OnErr result (self.new ≡ self.old) }
    {
        if self.eof {
            return Err(ApplyError::Refused(Refusal::Unexpected));
        }
        if !self.is_within_window(bytes.len()) {
            return Err(ApplyError::Refused(Refusal::OverWindow));
        }
        if self.ahead.append(bytes).is_err() {
            return Err(ApplyError::OutOfMemory);
        }
        Ok(())
    }

    /// Discards bytes of another stream. They count as consumed.
    ///
    /// # Errors
    ///
    /// `OverWindow` if they are more than the window; the state is unchanged.
    fn discard(&mut self, n: usize) -> Result<(), ApplyError>
        ensures ok { OnOk result ((n + length self.old.ahead + self.old.consumed ≤ WINDOW)
            × (self.new ≡ record self.old { consumed = self.old.consumed + n })) }
        ensures unchanged { OnErr result (self.new ≡ self.old) }
    {
        if !self.is_within_window(n) {
            return Err(ApplyError::Refused(Refusal::OverWindow));
        }
        self.consumed += n;
        Ok(())
    }

    /// Makes the window for sent bytes larger.
    ///
    /// # Errors
    ///
    /// `LargeGrant` if it would be more than 4294967295 bytes; the state is unchanged.
    fn raise_window(&mut self, more: u32) -> Result<(), ApplyError>
        ensures ok { OnOk result ((self.old.window + more < 4294967296)
            × (self.new ≡ record self.old { window = self.old.window + more })) }
        ensures unchanged { OnErr result (self.new ≡ self.old) }
    {
        match self.window.checked_add(more) {
            Some(window) => {
                self.window = window;
                Ok(())
            }
            None => Err(ApplyError::Refused(Refusal::LargeGrant)),
        }
    }

    /// Records the reply to the request for the subsystem.
    ///
    /// # Errors
    ///
    /// `Unexpected` if none is awaited; the state is unchanged.
    fn record_reply(&mut self, reply: SubsystemReply) -> Result<(), ApplyError>
        ensures ok { OnOk result ((self.old.reply ≡ SubsystemReply.Awaited)
            × (self.new ≡ record self.old { reply = reply })) }
        ensures unchanged { OnErr result (self.new ≡ self.old) }
    {
        match self.reply {
            SubsystemReply::Awaited => {
                self.reply = reply;
                Ok(())
            }
            _ => Err(ApplyError::Refused(Refusal::Unexpected)),
        }
    }

    /// Applies a message, of which these bytes follow the fields.
    ///
    /// # Errors
    ///
    /// The reason why it is not allowed, or `OutOfMemory`; the state is unchanged.
    fn apply(&mut self, message: Message, bytes: &[u8]) -> Result<(), ApplyError>
        ensures ok { OnOk result (IsAllowed self.old message bytes.now
            × (self.new ≡ after_message self.old message bytes.now)) }
        ensures unchanged { OnErr result (self.new ≡ self.old) }
    {
        match message {
            Message::Data(channel) => {
                check_channel(channel)?;
                self.append(bytes)
            }
            Message::ExtendedData(channel) => {
                check_channel(channel)?;
                self.discard(bytes.len())
            }
            Message::WindowAdjust(channel, more) => {
                check_channel(channel)?;
                self.raise_window(more)
            }
            Message::Eof(channel) => {
                check_channel(channel)?;
                self.eof = true;
                Ok(())
            }
            Message::Close(channel) => {
                check_channel(channel)?;
                self.eof = true;
                self.closed = true;
                Ok(())
            }
            Message::Request(channel, _) => check_channel(channel),
            Message::ExitStatus(channel, status) => {
                check_channel(channel)?;
                self.exit_status = Some(status);
                Ok(())
            }
            Message::GlobalRequest(_) => Ok(()),
            Message::Success(channel) => {
                check_channel(channel)?;
                self.record_reply(SubsystemReply::Granted)
            }
            Message::Failure(channel) => {
                check_channel(channel)?;
                self.record_reply(SubsystemReply::Refused)
            }
            _ => Err(ApplyError::Refused(Refusal::Unexpected)),
        }
    }

    /// Reads the body in the first `n` bytes of a buffer, applies its message, and returns it.
    ///
    /// # Errors
    ///
    /// `Unexpected` after CLOSE, `Malformed` if it is not a message, and the errors of `apply`; the state is unchanged.
    pub(crate) fn apply_body(&mut self, buffer: &[u8], n: usize) -> Result<Message, ApplyError>
        requires { n ≤ length buffer.now }
        ensures ok { IfOk result (λ message. AppliesBody self.old self.new (take n buffer.now) message) }
        ensures unchanged { OnErr result (self.new ≡ self.old) }
    {
        if self.closed {
            return Err(ApplyError::Refused(Refusal::Unexpected));
        }
        let mut rest = &buffer[..n];
        let Ok(message) = read_message(self.alloc, &mut rest) else {
            return Err(ApplyError::Refused(Refusal::Malformed));
        };
        self.apply(message, rest)?;
        Ok(message)
    }
}
