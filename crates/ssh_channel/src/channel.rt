//! The channel as a link.
ghost use Rattle.std.specs.Prelude.{◌≡◌, ◌≢◌, ◌<◌, ◌≤◌, ◌+◌, ◌-◌, ◌^◌, [], ◌∷◌, length, take, None, Some, true, false, OnOk, OnErr, IfOk, IsSome};
ghost use Rattle.sftp_link.specs.Moves.{HasReceived, HasSent};
ghost use Rattle.ssh_channel.specs.ChannelStates.{AppliesBody, meets_condition};
ghost use Rattle.ssh_channel.specs.Channels.{AdjustsWindow, AnswersBody, FailsBetween, IsWritable, KeepsAhead, ReceivesSome, RecvDid, SendDid, SendsMessage, SendsWhole, channel_view};

use crate::condition::Condition;
use crate::message::Message;
use crate::outgoing;
use crate::packets::{Packet, next_packet};
use crate::refusal::Refusal;
use crate::state::{ApplyError, ChannelState};
use crate::subsystem_reply::SubsystemReply;
use sftp_link::{DeviceError, Link, LinkIn, LinkOut, LinkState, send_all};
use std::alloc::Global;
use std::marker::Model;

/// The most messages that one call waits through.
const MAX_MESSAGES: u32 = u32::MAX;

/// A channel of an OpenSSH connection, over a link to its master, which is in proxy mode.
///
/// A send is one message. While the window is shut it waits for the server, and reads ahead the bytes that come. A recv
/// returns bytes that were read ahead. If there are none, it waits for messages; it returns 0 only after the server's
/// EOF or CLOSE. Bytes of standard error are discarded.
///
/// After an error, `refusal` says why the channel cannot be used any more. It is `None` only if memory ran out between
/// two messages; then the channel can be used on.
///
/// It reports no pieces. Its faults are those of the link to the master, and one for each call that it fails by itself.
///
/// Example: `README.md` of this crate.
#[derive(Drop)]
pub struct SshChannel<L> {
    alloc: Global,
    link: L,
    buffer: Vec<u8>,
    state: ChannelState,
    refusal: Option<Refusal>,
    faults: u64,
    ended: bool,
}

impl<L> Model for SshChannel<L> {
    ghost use Rattle.ssh_channel.specs.ChannelStates.{AppliesBody};
    ghost use Rattle.ssh_channel.specs.Channels.{SshChannelState};

    ghost Value = { SshChannelState L };

    ghost view = { λ c. record {
      link = c.link;
      buffer = c.buffer.items;
      channel = c.state;
      refusal = c.refusal;
      faults = c.faults;
      ended = c.ended;
    } };
}

/// Applies the body in the first `n` bytes of a buffer.
///
/// # Errors
///
/// The errors of [`ChannelState::apply_body`]; the state is unchanged.
fn apply_from(buffer: &[u8], n: usize, state: &mut ChannelState) -> Result<Message, ApplyError>
    requires { n ≤ length buffer.now }
    ensures ok { IfOk result (λ message. AppliesBody state.old state.new (take n buffer.now) message) }
    ensures unchanged { OnErr result (state.new ≡ state.old) }
{
    state.apply_body(buffer, n)
}

impl<L: Link> SshChannel<L> {
    /// Creates the channel over a link on which it was opened.
    pub(crate) fn new(alloc: Global, link: L, buffer: Vec<u8>, state: ChannelState) -> SshChannel<L>
        ensures { result ≡ record {
          link = link;
          buffer = buffer.items;
          channel = state;
          refusal = None;
          faults = 0;
          ended = false;
        } }
    {
        SshChannel {
            alloc,
            link,
            buffer,
            state,
            refusal: None,
            faults: 0,
            ended: false,
        }
    }

    /// Returns the reason why the channel cannot be used any more, if there is one.
    pub fn refusal(&self) -> Option<Refusal>
        ensures { result ≡ self.now.refusal }
    {
        self.refusal
    }

    /// Returns the status with which the server's program ended, if the server reported it before the last message that
    /// was received.
    pub fn exit_status(&self) -> Option<u32>
        ensures { result ≡ self.now.channel.exit_status }
    {
        self.state.exit_status()
    }

    /// Returns the channel's number on the other side.
    pub(crate) fn peer_number(&self) -> u32
        ensures { result ≡ self.now.channel.peer_number }
    {
        self.state.peer_number()
    }

    /// Returns the reply to the request for the subsystem.
    pub(crate) fn reply(&self) -> SubsystemReply
        ensures { result ≡ self.now.channel.reply }
    {
        self.state.reply()
    }

    /// Returns the link to the master.
    pub fn inner(&self) -> &L
        ensures { result.now ≡ self.now.link }
    {
        &self.link
    }

    /// Records a refusal and a fault, and returns the error.
    fn refuse(&mut self, why: Refusal) -> DeviceError
        requires { self.old.faults < 2 ^ 64 - 1 }
        ensures error { result ≡ DeviceError.Failed }
        ensures after { self.new ≡ record self.old { refusal = Some why; faults = self.old.faults + 1 } }
    {
        self.refusal = Some(why);
        self.faults += 1;
        DeviceError::Failed
    }

    /// Records that the connection was lost within a message, and returns the error.
    fn lose(&mut self, e: DeviceError) -> DeviceError
        ensures error { result ≡ e }
        ensures after { self.new ≡ record self.old { refusal = Some Refusal.Lost } }
    {
        self.refusal = Some(Refusal::Lost);
        e
    }

    /// Sends a packet whole.
    ///
    /// # Errors
    ///
    /// `OutOfMemory` or `Failed`; the connection is lost.
    pub(crate) fn send_whole(&mut self, packet: &[u8]) -> Result<(), DeviceError>
        requires count { (L.LinkState.state self.old.link).faults + self.old.faults < 2 ^ 64 - 1 }
        ensures { SendsWhole L.LinkState.state packet.now self.old self.new result }
    {
        match send_all(&mut self.link, packet) {
            Ok(()) => Ok(()),
            Err(e) => Err(self.lose(e)),
        }
    }

    /// Adjusts the window by the bytes that were consumed, if that is worth a message.
    ///
    /// # Errors
    ///
    /// `OutOfMemory` or `Failed`.
    fn adjust_window(&mut self) -> Result<(), DeviceError>
        requires count { (L.LinkState.state self.old.link).faults + self.old.faults < 2 ^ 64 - 1 }
        ensures adjusts { AdjustsWindow L.LinkState.state self.old self.new result }
        ensures fails { FailsBetween L.LinkState.state self.old self.new result }
    {
        let more = self.state.adjustment();
        if more == 0 {
            return Ok(());
        }
        let Ok(packet) = outgoing::window_adjust(self.alloc, self.state.peer_number(), more) else {
            return Err(DeviceError::OutOfMemory);
        };
        // No `?`: it converts the error, and the clauses are by cases on the result.
        match self.send_whole(&packet) {
            Ok(()) => {}
            Err(e) => return Err(e),
        }
        self.state.record_adjusted();
        Ok(())
    }

    /// Applies the body in the first `n` bytes of the buffer, and answers it.
    ///
    /// # Errors
    ///
    /// `OutOfMemory` or `Failed`; there is a refusal.
    fn answer_body(&mut self, n: usize) -> Result<(), DeviceError>
        requires count { (L.LinkState.state self.old.link).faults + self.old.faults < 2 ^ 64 - 1 }
        requires within { n ≤ length self.old.buffer }
        ensures answers { OnOk result (AnswersBody L.LinkState.state n self.old self.new) }
        ensures keeps { KeepsAhead L.LinkState.state self.old self.new result }
        ensures refused { OnErr result (IsSome self.new.refusal) }
    {
        let message = match apply_from(&self.buffer, n, &mut self.state) {
            Ok(message) => message,
            Err(ApplyError::OutOfMemory) => return Err(self.lose(DeviceError::OutOfMemory)),
            Err(ApplyError::Refused(why)) => return Err(self.refuse(why)),
        };
        match outgoing::answer(self.alloc, self.state.peer_number(), message) {
            Ok(Some(packet)) => self.send_whole(&packet),
            Ok(None) => Ok(()),
            Err(_) => Err(self.lose(DeviceError::OutOfMemory)),
        }
    }

    /// Adjusts the window if that is worth a message, waits for a message, applies it and answers it.
    ///
    /// # Errors
    ///
    /// `OutOfMemory` or `Failed`.
    fn exchange(&mut self) -> Result<(), DeviceError>
        requires usable { self.old.refusal ≡ None }
        requires count { (L.LinkState.state self.old.link).faults + self.old.faults < 2 ^ 64 - 1 }
        ensures receives { OnOk result (ReceivesSome L.LinkState.state self.old self.new) }
        ensures keeps { KeepsAhead L.LinkState.state self.old self.new result }
        ensures fails { FailsBetween L.LinkState.state self.old self.new result }
    {
        // No `?`: it converts the error, and the clauses are by cases on the result.
        match self.adjust_window() {
            Ok(()) => {}
            Err(e) => return Err(e),
        }
        match next_packet(&mut self.link, &mut self.buffer) {
            Ok(Packet::Whole(n)) => self.answer_body(n),
            Ok(Packet::TooLong(len)) => Err(self.refuse(Refusal::TooLong(len))),
            Ok(Packet::End) => Err(self.refuse(Refusal::Lost)),
            Err(e) => Err(self.lose(e)),
        }
    }

    /// Makes an exchange. Memory for the payload of a message is allocated before the message is awaited.
    ///
    /// # Errors
    ///
    /// `Failed` if there is a refusal already, and the errors of [`SshChannel::exchange`].
    fn next_exchange(&mut self) -> Result<(), DeviceError>
        requires count { (L.LinkState.state self.old.link).faults + self.old.faults < 2 ^ 64 - 1 }
        ensures receives { OnOk result (ReceivesSome L.LinkState.state self.old self.new) }
        ensures keeps { KeepsAhead L.LinkState.state self.old self.new result }
        ensures fails { FailsBetween L.LinkState.state self.old self.new result }
    {
        if let Some(why) = self.refusal {
            return Err(self.refuse(why));
        }
        if !self.state.reserve(self.buffer.len()) {
            return Err(DeviceError::OutOfMemory);
        }
        self.exchange()
    }

    /// Makes exchanges until a condition is met.
    ///
    /// # Errors
    ///
    /// `OutOfMemory` or `Failed`.
    pub(crate) fn wait_for(&mut self, condition: Condition) -> Result<(), DeviceError>
        requires count { (L.LinkState.state self.old.link).faults + self.old.faults < 2 ^ 64 - 1 }
        ensures receives { OnOk result (ReceivesSome L.LinkState.state self.old self.new) }
        ensures met { OnOk result (meets_condition condition self.new.channel ≡ true) }
        ensures early { meets_condition condition self.old.channel ≡ true → self.new ≡ self.old }
        ensures keeps { KeepsAhead L.LinkState.state self.old self.new result }
        ensures fails { FailsBetween L.LinkState.state self.old self.new result }
    {
        let mut left = MAX_MESSAGES;
        while left > 0 {
            if self.state.meets(condition) {
                return Ok(());
            }
            left -= 1;
            // No `?`: it converts the error, and the clauses are by cases on the result.
            match self.next_exchange() {
                Ok(()) => {}
                Err(e) => return Err(e),
            }
        }
        Err(self.refuse(Refusal::Idle))
    }

    /// Waits until the server closed the channel. Bytes that come meanwhile are read ahead.
    ///
    /// # Errors
    ///
    /// `OutOfMemory` or `Failed`; the bytes ahead still are. `refusal` says why the channel cannot be used any more.
    pub fn wait_for_close(&mut self) -> Result<(), DeviceError>
        requires count { (L.LinkState.state self.old.link).faults + self.old.faults < 2 ^ 64 - 1 }
        ensures receives { OnOk result (ReceivesSome L.LinkState.state self.old self.new) }
        ensures closed { OnOk result (self.new.channel.closed ≡ true) }
        ensures keeps { KeepsAhead L.LinkState.state self.old self.new result }
        ensures fails { FailsBetween L.LinkState.state self.old self.new result }
    {
        self.wait_for(Condition::Closed)
    }

    /// Sends one message of the first bytes of a piece, as many as the window and the longest message allow.
    ///
    /// # Errors
    ///
    /// `OutOfMemory` or `Failed`.
    fn send_message(&mut self, bytes: &[u8]) -> Result<usize, DeviceError>
        requires writable { IsWritable bytes.now self.old.channel }
        requires count { (L.LinkState.state self.old.link).faults + self.old.faults < 2 ^ 64 - 1 }
        ensures sends { IfOk result (λ n. SendsMessage L.LinkState.state bytes.now self.old self.new n) }
        ensures keeps { KeepsAhead L.LinkState.state self.old self.new result }
        ensures fails { FailsBetween L.LinkState.state self.old self.new result }
    {
        let most = self.state.send_limit();
        let number = self.state.peer_number();
        let n = bytes.len().min(most as usize);
        let Ok(packet) = outgoing::data(self.alloc, number, &bytes[..n]) else {
            return Err(DeviceError::OutOfMemory);
        };
        // No `?`: it converts the error, and the clauses are by cases on the result.
        match self.send_whole(&packet) {
            Ok(()) => {}
            Err(e) => return Err(e),
        }
        self.state.spend_window(n as u32);
        Ok(n)
    }
}

impl<L: Link> SshChannel<L> {
    /// Waits until bytes may be sent, and sends one message of the first bytes of a piece.
    ///
    /// # Errors
    ///
    /// `Failed` if there is a refusal already, otherwise `OutOfMemory` or `Failed`.
    fn wait_and_send(&mut self, bytes: &[u8]) -> Result<usize, DeviceError>
        requires some { 0 < length bytes.now }
        requires count { (L.LinkState.state self.old.link).faults + self.old.faults < 2 ^ 64 - 1 }
        ensures sends { IfOk result (λ n. SendsMessage L.LinkState.state bytes.now self.old self.new n) }
        ensures keeps { KeepsAhead L.LinkState.state self.old self.new result }
        ensures fails { FailsBetween L.LinkState.state self.old self.new result }
        ensures usable { OnOk result (self.old.refusal ≡ None) }
    {
        if let Some(why) = self.refusal {
            return Err(self.refuse(why));
        }
        // No `?`: it converts the error, and the clauses are by cases on the result.
        match self.wait_for(Condition::Writable) {
            Ok(()) => {}
            Err(e) => return Err(e),
        }
        if self.state.is_closed() {
            return Err(self.refuse(Refusal::Closed));
        }
        self.send_message(bytes)
    }
}

impl<L: Link> LinkState for SshChannel<L> {
    ghost Service = { L.LinkState.Service };

    ghost state = { λ c. channel_view L.LinkState.state c };
}

impl<L: Link> LinkOut for SshChannel<L> {
    /// Sends one message of the first bytes, as many as the window and the longest message allow. While the window is
    /// shut it waits for the server, and reads ahead the bytes that come.
    ///
    /// # Errors
    ///
    /// `OutOfMemory` or `Failed`; the bytes ahead still are. `refusal` says why the channel cannot be used any more.
    fn send(&mut self, bytes: &[u8]) -> Result<usize, DeviceError>
        requires some { 0 < length bytes.now }
        requires count { (L.LinkState.state self.old.link).faults + self.old.faults < 2 ^ 64 - 1 }
        ensures sends { HasSent L.LinkState.Service bytes.now (channel_view L.LinkState.state self.old)
            (channel_view L.LinkState.state self.new) result }
        ensures did { SendDid L.LinkState.state bytes.now self.old self.new result }
        ensures usable { OnOk result (self.old.refusal ≡ None) }
    {
        let sent = self.wait_and_send(bytes);
        self.ended = false;
        sent
    }
}

impl<L: Link> LinkIn for SshChannel<L> {
    /// Returns bytes that were read ahead, without calling the link. If there are none, waits for messages. Returns 0
    /// only after the server's EOF or CLOSE.
    ///
    /// # Errors
    ///
    /// `OutOfMemory` or `Failed`; no bytes were ahead. `refusal` says why the channel cannot be used any more.
    fn recv(&mut self, room: &mut [u8]) -> Result<usize, DeviceError>
        requires some { 0 < length room.old }
        requires count { (L.LinkState.state self.old.link).faults + self.old.faults < 2 ^ 64 - 1 }
        ensures receives { HasReceived L.LinkState.Service room.new (channel_view L.LinkState.state self.old)
            (channel_view L.LinkState.state self.new) result }
        ensures did { RecvDid L.LinkState.state room.new self.old self.new result }
        ensures first { 0 < length self.old.channel.ahead → self.new.link ≡ self.old.link }
    {
        match self.wait_for(Condition::Readable) {
            Ok(()) => {
                let n = self.state.give(room);
                self.ended = n == 0;
                Ok(n)
            }
            Err(e) => {
                self.ended = false;
                Err(e)
            }
        }
    }
}

impl<L: Link> Link for SshChannel<L> {}
