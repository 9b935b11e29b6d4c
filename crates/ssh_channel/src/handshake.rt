//! The opening of a channel: the hellos and proxy mode of OpenSSH's PROTOCOL.mux, the session and its subsystem.
ghost use Rattle.std.specs.Prelude.{◌≡◌, ◌<◌, ◌≤◌, ◌+◌, ◌-◌, ◌^◌, length, None, false, IfOk, OnOk};
ghost use Rattle.ssh_channel.specs.Handshakes.{BeginsWith, ConfirmsSession, GreetsMaster, OpensChannel, OpensSession, ReceivesBody, SendsPacket, StartsSubsystem};

use crate::channel::SshChannel;
use crate::condition::Condition;
use crate::message::{Message, read_message};
use crate::numbers::{
    CHANNEL, MAX_BODY, MAX_PACKET, MUX_C_PROXY, MUX_MSG_HELLO, MUX_S_PROXY, MUX_VERSION, WINDOW,
};
use crate::open_error::OpenError;
use crate::outgoing;
use crate::packets::{Packet, next_packet};
use crate::refusal::Refusal;
use crate::state::ChannelState;
use crate::subsystem_reply::SubsystemReply;
use sftp_link::{DeviceError, Link, send_all};
use ssh_encoding::{Decode, Encode};
use std::alloc::Global;

/// Sends a packet whole.
///
/// # Errors
///
/// `OutOfMemory`, or `Lost` if the link failed.
fn send_packet<L: Link>(link: &mut L, packet: &[u8]) -> Result<(), OpenError>
    requires { (L.LinkState.state link.old).faults < 2 ^ 64 - 1 }
    ensures { OnOk result (SendsPacket packet.now (L.LinkState.state link.old) (L.LinkState.state link.new)) }
{
    send_all(link, packet)?;
    Ok(())
}

/// Receives a packet, puts its body at the start of the buffer, and returns the body's length.
///
/// # Errors
///
/// `at_end` if the link ended, `NotAMaster` if the body is too long, `OutOfMemory`, or `Lost` if the link failed.
fn next_body<L: Link>(
    link: &mut L,
    buffer: &mut Vec<u8>,
    at_end: OpenError,
) -> Result<usize, OpenError>
    requires { (L.LinkState.state link.old).faults < 2 ^ 64 - 1 }
    ensures { IfOk result (λ n. ReceivesBody buffer.new.items n
        (L.LinkState.state link.old) (L.LinkState.state link.new)) }
{
    match next_packet(link, buffer)? {
        Packet::Whole(n) => Ok(n),
        Packet::TooLong(_) => Err(OpenError::NotAMaster),
        Packet::End => Err(at_end),
    }
}

/// Returns the two numbers that a body begins with.
///
/// # Errors
///
/// `NotAMaster` if it is too short.
fn two_numbers(alloc: Global, body: &[u8]) -> Result<(u32, u32), OpenError>
    ensures { IfOk result (λ p. BeginsWith p.0 p.1 body.now) }
{
    let mut rest = body;
    let Ok(first) = u32::decode(alloc, &mut rest) else {
        return Err(OpenError::NotAMaster);
    };
    let Ok(second) = u32::decode(alloc, &mut rest) else {
        return Err(OpenError::NotAMaster);
    };
    Ok((first, second))
}

/// Checks that a body is a hello with version 4.
///
/// # Errors
///
/// `NotAMaster` if it is not a hello, `OtherVersion` if it has another version.
fn check_hello(alloc: Global, body: &[u8]) -> Result<(), OpenError>
    ensures { OnOk result (BeginsWith MUX_MSG_HELLO MUX_VERSION body.now) }
{
    let (kind, version) = two_numbers(alloc, body)?;
    if kind != MUX_MSG_HELLO {
        return Err(OpenError::NotAMaster);
    }
    if version != MUX_VERSION {
        return Err(OpenError::OtherVersion(version));
    }
    Ok(())
}

/// Checks that a body grants proxy mode, and returns the number of the request.
///
/// # Errors
///
/// `NotAMaster` if it is too short, `NoProxy` if it is another message.
fn check_proxy(alloc: Global, body: &[u8]) -> Result<u32, OpenError>
    ensures { IfOk result (λ request. BeginsWith MUX_S_PROXY request body.now) }
{
    let (kind, request) = two_numbers(alloc, body)?;
    if kind != MUX_S_PROXY {
        return Err(OpenError::NoProxy);
    }
    Ok(request)
}

/// Exchanges hellos, and asks for proxy mode.
///
/// # Errors
///
/// Those of an opening that have to do with the master.
fn greet<L: Link>(alloc: Global, link: &mut L, buffer: &mut Vec<u8>) -> Result<(), OpenError>
    requires { (L.LinkState.state link.old).faults < 2 ^ 64 - 1 }
    ensures { OnOk result (GreetsMaster (L.LinkState.state link.old) (L.LinkState.state link.new)) }
{
    let hello = outgoing::mux(alloc, MUX_MSG_HELLO, MUX_VERSION)?;
    send_packet(link, &hello)?;
    let n = next_body(link, buffer, OpenError::NotAMaster)?;
    check_hello(alloc, &buffer[..n])?;
    let proxy = outgoing::mux(alloc, MUX_C_PROXY, 0)?;
    send_packet(link, &proxy)?;
    let n = next_body(link, buffer, OpenError::Lost)?;
    check_proxy(alloc, &buffer[..n])?;
    Ok(())
}

/// Returns the state of the session that a body confirms.
///
/// # Errors
///
/// `NoChannel` if it refuses the session, otherwise `NotAMaster`.
fn read_confirmation(alloc: Global, body: &[u8]) -> Result<ChannelState, OpenError>
    ensures { IfOk result (λ state. ConfirmsSession body.now state) }
{
    let mut rest = body;
    match read_message(alloc, &mut rest) {
        Ok(Message::OpenConfirmation(CHANNEL, number, window, most)) if most > 0 => {
            Ok(ChannelState::new(alloc, number, window, most))
        }
        Ok(Message::OpenFailure(CHANNEL, reason)) => Err(OpenError::NoChannel(reason)),
        _ => Err(OpenError::NotAMaster),
    }
}

/// Opens a session.
///
/// # Errors
///
/// `NoChannel` if the server refuses it, `Lost`, `NotAMaster` or `OutOfMemory`.
fn open_session<L: Link>(
    alloc: Global,
    link: &mut L,
    buffer: &mut Vec<u8>,
) -> Result<ChannelState, OpenError>
    requires { (L.LinkState.state link.old).faults < 2 ^ 64 - 1 }
    ensures { IfOk result (λ state. OpensSession (L.LinkState.state link.old) (L.LinkState.state link.new) state) }
{
    let request = outgoing::open(alloc, CHANNEL, WINDOW as u32, MAX_PACKET)?;
    send_packet(link, &request)?;
    let n = next_body(link, buffer, OpenError::Lost)?;
    read_confirmation(alloc, &buffer[..n])
}

/// Returns the reason why no channel was opened, from the error of a call of the channel and its refusal.
fn open_error(e: DeviceError, refusal: Option<Refusal>) -> OpenError {
    match (e, refusal) {
        (DeviceError::OutOfMemory, _) => OpenError::OutOfMemory,
        (DeviceError::Failed, None | Some(Refusal::Lost)) => OpenError::Lost,
        (DeviceError::Failed, Some(_)) => OpenError::NotAMaster,
    }
}

/// Starts the subsystem of a channel.
///
/// # Errors
///
/// `NoSubsystem` if the server refuses it or closes the channel, `Lost`, `NotAMaster` or `OutOfMemory`.
fn start_subsystem<L: Link>(
    alloc: Global,
    channel: &mut SshChannel<L>,
    name: &[u8],
) -> Result<(), OpenError>
    requires { (L.LinkState.state channel.old.link).faults + channel.old.faults < 2 ^ 64 - 1 }
    ensures { OnOk result (StartsSubsystem L.LinkState.state name.now channel.old channel.new) }
{
    let request = outgoing::subsystem(alloc, channel.peer_number(), name)?;
    // No `?`: the refusal says which error it is.
    match channel.send_whole(&request) {
        Ok(()) => {}
        Err(e) => return Err(open_error(e, channel.refusal())),
    }
    // No `?`: the refusal says which error it is.
    match channel.wait_for(Condition::Answered) {
        Ok(()) => {}
        Err(e) => return Err(open_error(e, channel.refusal())),
    }
    match channel.reply() {
        SubsystemReply::Granted => Ok(()),
        _ => Err(OpenError::NoSubsystem),
    }
}

/// Opens a channel to a subsystem of the server, such as `sftp`, over a link to the control socket of OpenSSH's master.
///
/// It waits for the master, and has no time limit: ssh's `ServerAliveInterval` ends a connection that is silent.
/// Dropping the channel closes the link, and the master then closes the channel.
///
/// # Errors
///
/// The link is dropped. `NotAMaster` if the peer is not OpenSSH's master or breaks its protocol, `OtherVersion` and
/// `NoProxy` if the master has another version or no proxy mode, `NoChannel` and `NoSubsystem` if the server refuses,
/// `Lost` if the link ended or failed, and `OutOfMemory` if an allocation fails.
pub fn open<L: Link + Drop>(
    alloc: Global,
    mut link: L,
    subsystem: &[u8],
) -> Result<SshChannel<L>, OpenError>
    requires { (L.LinkState.state link).faults < 2 ^ 64 - 1 }
    ensures { IfOk result (λ c. OpensChannel L.LinkState.state subsystem.now link c) }
{
    let Ok(mut buffer) = vec![in alloc; 0u8; MAX_BODY] else {
        return Err(OpenError::OutOfMemory);
    };
    greet(alloc, &mut link, &mut buffer)?;
    let state = open_session(alloc, &mut link, &mut buffer)?;
    let mut channel = SshChannel::new(alloc, link, buffer, state);
    start_subsystem(alloc, &mut channel, subsystem)?;
    Ok(channel)
}
