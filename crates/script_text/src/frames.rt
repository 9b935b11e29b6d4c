//! The lines of frames.
ghost use Rattle.std.specs.Prelude.{◌≡◌, ◌++◌, codes, OnOk};
ghost use Rattle.std.specs.List.{flat_map};
ghost use Rattle.sftp_wire.specs.Body.{AppendsBytes, message_body};
ghost use Rattle.script_text.specs.Texts.{line, hex_word, fields_of, request_line, reply_line, frame_lines};
ghost use Rattle.script_text.specs.Traces.{journal_of, submitted_request};

use crate::put::{put_fields, put_word};
use crate::words::{reply_word, request_word};
use session_model::Event;
use sftp_model::{Reply, Request};
use sftp_wire::Message;
use ssh_encoding::OutOfMemory;
use std::alloc::Global;

/// Appends the line of a frame, after a mark for its direction.
#[tactic(auto, using(sftp_wire::proofs::Puts::puts))]
fn put_frame(
    alloc: Global,
    mark: &str,
    word: &str,
    message: Message,
    id: u32,
    out: &mut Vec<u8>,
) -> Result<(), OutOfMemory>
    ensures ok { OnOk result (out.new.items ≡ out.old.items ++ line (mark.now ++ word.now ++ codes " " ++ hex_word (fields_of (message_body message.entry id)))) }
    ensures grows { AppendsBytes out.old.items out.new.items }
{
    put_word(mark, out)?;
    put_word(word, out)?;
    put_word(" ", out)?;
    put_fields(alloc, message, id, out)?;
    put_word("\n", out)
}

/// Appends the line of a request that is sent.
#[tactic(auto, using(sftp_wire::proofs::Puts::puts))]
fn put_request(
    alloc: Global,
    id: u32,
    request: &Request,
    out: &mut Vec<u8>,
) -> Result<(), OutOfMemory>
    ensures ok { OnOk result (out.new.items ≡ out.old.items ++ request_line (id, request.now)) }
    ensures grows { AppendsBytes out.old.items out.new.items }
{
    let word = request_word(request);
    put_frame(alloc, "> ", word, Message::Request(request), id, out)
}

/// Appends the line of a reply that is taken.
#[tactic(auto, using(sftp_wire::proofs::Puts::puts))]
fn put_reply(alloc: Global, reply: &Reply, out: &mut Vec<u8>) -> Result<(), OutOfMemory>
    ensures ok { OnOk result (out.new.items ≡ out.old.items ++ reply_line reply.now) }
    ensures grows { AppendsBytes out.old.items out.new.items }
{
    let word = reply_word(reply);
    put_frame(alloc, "< ", word, Message::Reply(reply), 0, out)
}

/// Appends the line of the request that the event submits, if it submits one.
#[tactic(auto, using(sftp_wire::proofs::Puts::puts))]
fn put_submitted(alloc: Global, event: &Event, out: &mut Vec<u8>) -> Result<(), OutOfMemory>
    ensures ok { OnOk result (out.new.items ≡ out.old.items ++ flat_map request_line (submitted_request event.now)) }
    ensures grows { AppendsBytes out.old.items out.new.items }
{
    match event {
        Event::Submit { id, request, .. } => put_request(alloc, *id, request, out),
        _ => Ok(()),
    }
}

/// Appends the lines of the requests that these events submit.
#[tactic(auto, using(sftp_wire::proofs::Puts::puts))]
fn put_requests(alloc: Global, events: &[Event], out: &mut Vec<u8>) -> Result<(), OutOfMemory>
    ensures ok { OnOk result (out.new.items ≡ out.old.items ++ flat_map request_line (flat_map submitted_request events.now)) }
    ensures grows { AppendsBytes out.old.items out.new.items }
{
    for event in events {
        put_submitted(alloc, event, out)?;
    }
    Ok(())
}

/// Appends the lines of the frames that were sent and taken in these events.
#[tactic(auto, using(sftp_wire::proofs::Puts::puts))]
pub(crate) fn put_frames(
    alloc: Global,
    trace: &[Event],
    out: &mut Vec<u8>,
) -> Result<(), OutOfMemory>
    ensures ok { OnOk result (out.new.items ≡ out.old.items ++ frame_lines (journal_of trace.now)) }
    ensures grows { AppendsBytes out.old.items out.new.items }
{
    // The place after the last Send.
    let mut first = 0;
    for (i, event) in trace.iter().enumerate() {
        match event {
            Event::Send => {
                put_requests(alloc, &trace[first..i], out)?;
                first = i + 1;
            }
            Event::Take { reply, .. } => put_reply(alloc, reply, out)?,
            _ => {}
        }
    }
    Ok(())
}
