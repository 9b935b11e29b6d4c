//! The text of a run in threads, and of the outcome of its replay.
ghost use Rattle.std.specs.Prelude.{◌≡◌, ◌++◌, IfOk, OnOk, codes, true};
ghost use Rattle.machine_model.specs.FirstTree.{may_begin};
ghost use Rattle.sftp_model.specs.Frames.{reply_body};
ghost use Rattle.script_text.specs.Texts.{fields_of, hex_word, reply_word};
ghost use Rattle.sftp_wire.specs.Body.{AppendsBytes};
ghost use Rattle.sftp_share.specs.Replays.{NoHello, replay_of};
ghost use Rattle.sftp_share.specs.Shared.{differs_by, differs_line, replay_text, reply_line, report_text};

use crate::left::{write_dirs, write_files};
use crate::{Replay, replay};
use script_grammar::Script;
use script_text::{put_bytes, put_number, put_word, write_text};
use session_model::Report;
use sftp_model::Reply;
use sftp_wire::{Message, write_body};
use ssh_encoding::OutOfMemory;
use std::alloc::Global;

/// Returns the word of a reply.
fn reply_word(reply: &Reply) -> &'static str
    ensures { result.now ≡ reply_word reply.now }
{
    match reply {
        Reply::Version { .. } => "version",
        Reply::Status { .. } => "status",
        Reply::Handle(_) => "handle",
        Reply::Content(_) => "data",
        Reply::Names(_) => "name",
        Reply::Attrs(_) => "attrs",
        Reply::Extended(_) => "extended_reply",
    }
}

/// Appends the fields of a reply, which come after the type byte and the id.
#[tactic(auto, using(sftp_wire::proofs::Puts::puts))]
fn put_fields(alloc: Global, reply: &Reply, out: &mut Vec<u8>) -> Result<(), OutOfMemory>
    ensures ok { OnOk result (out.new.items ≡ out.old.items ++ hex_word (fields_of (reply_body reply.now 0))) }
    ensures grows { AppendsBytes out.old.items out.new.items }
{
    let mut body = Vec::new(alloc);
    write_body(Message::Reply(reply), 0, &mut body)?;
    match body.as_slice() {
        [_, _, _, _, _, fields @ ..] => put_bytes(alloc, fields, out),
        _ => put_bytes(alloc, &[], out),
    }
}

/// Appends the word and the fields of a reply, and a line feed.
#[tactic(auto, using(sftp_wire::proofs::Puts::puts))]
fn put_reply(alloc: Global, reply: &Reply, out: &mut Vec<u8>) -> Result<(), OutOfMemory>
    ensures ok { OnOk result (out.new.items ≡ out.old.items ++ reply_line reply.now) }
    ensures grows { AppendsBytes out.old.items out.new.items }
{
    put_word(reply_word(reply), out)?;
    put_word(" ", out)?;
    put_fields(alloc, reply, out)?;
    put_word("\n", out)
}

/// Appends the line that reports the request at which a replay differs, and the machine's reply to it.
#[tactic(auto, using(sftp_wire::proofs::Puts::puts))]
fn put_differs(
    alloc: Global,
    place: u64,
    reply: &Reply,
    out: &mut Vec<u8>,
) -> Result<(), OutOfMemory>
    ensures ok { OnOk result (out.new.items ≡ out.old.items ++ differs_line place reply.now) }
    ensures grows { AppendsBytes out.old.items out.new.items }
{
    put_word("differs ", out)?;
    put_number(place, out)?;
    put_word(" ", out)?;
    put_reply(alloc, reply, out)
}

/// Appends the text for a replay: the machine's files and directories, or the line of the request at which it differs.
fn put_replay(alloc: Global, replay: &Replay, out: &mut Vec<u8>) -> Result<(), OutOfMemory>
    ensures { OnOk result (out.new.items ≡ out.old.items ++ replay_text replay.now) }
{
    match replay {
        Replay::Serves(machine) => {
            write_files(alloc, machine, out)?;
            write_dirs(alloc, machine, out)
        }
        Replay::Differs { place, reply } => put_differs(alloc, *place, reply, out),
    }
}

/// Returns true if a replay differs.
fn differs(replay: &Replay) -> bool
    ensures { result ≡ differs_by replay.now }
{
    match replay {
        Replay::Serves(_) => false,
        Replay::Differs { .. } => true,
    }
}

/// Returns the text of a report and of the outcome of its replay, and true if the replay differs. Fails only if an
/// allocation fails.
pub(crate) fn text_of_run(
    alloc: Global,
    script: &Script,
    report: &Report,
) -> Result<(bool, Vec<u8>), OutOfMemory>
    requires begins { may_begin script.now.files script.now.dirs ≡ true }
    requires hello { NoHello report.now.trace }
    ensures { IfOk result (λ r. (r.0 ≡ differs_by (replay_of script.now report.now.trace))
        × (r.1.items ≡ report_text report.now ++ replay_text (replay_of script.now report.now.trace))) }
{
    let replay = replay(alloc, script, report.trace.as_slice())?;
    let mut text = Vec::new(alloc);
    write_text(alloc, report, &mut text)?;
    put_replay(alloc, &replay, &mut text)?;
    Ok((differs(&replay), text))
}
