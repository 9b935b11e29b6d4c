//! The lines of outcomes.
ghost use Rattle.std.specs.Prelude.{◌≡◌, ◌++◌, codes, OnOk};
ghost use Rattle.std.specs.List.{flat_map};
ghost use Rattle.sftp_model.specs.Frames.{attributes};
ghost use Rattle.sftp_wire.specs.Body.{AppendsBytes};
ghost use Rattle.script_text.specs.Texts.{hex_word, number_text, refusal_text, name_text, outcome_text, outcome_line, outcome_lines, lane_lines};

use crate::put::{put_bytes_behind, put_fields, put_number, put_word};
use crate::words::{extension_word, kind_name};
use sftp_model::{Error, FileAttrs, NameEntry, Outcome, Reply};
use sftp_values::Items;
use sftp_wire::Message;
use ssh_encoding::OutOfMemory;
use std::alloc::Global;

/// Appends a word, and a number after it.
#[tactic(auto, using(sftp_wire::proofs::Puts::puts))]
fn put_number_behind(word: &str, n: u64, out: &mut Vec<u8>) -> Result<(), OutOfMemory>
    ensures ok { OnOk result (out.new.items ≡ out.old.items ++ (word.now ++ number_text n)) }
    ensures grows { AppendsBytes out.old.items out.new.items }
{
    put_word(word, out)?;
    put_number(n, out)
}

/// Appends a word, and another after it.
#[tactic(auto, using(sftp_wire::proofs::Puts::puts))]
fn put_words(first: &str, second: &str, out: &mut Vec<u8>) -> Result<(), OutOfMemory>
    ensures ok { OnOk result (out.new.items ≡ out.old.items ++ (first.now ++ second.now)) }
    ensures grows { AppendsBytes out.old.items out.new.items }
{
    put_word(first, out)?;
    put_word(second, out)
}

/// Appends attributes, as the fields of the reply that holds them.
#[tactic(auto, using(sftp_wire::proofs::Puts::puts), unfolding(sftp_model::specs::Frames::reply_body, ssh_encoding::specs::Writing::uint32))]
fn put_attributes(alloc: Global, attrs: FileAttrs, out: &mut Vec<u8>) -> Result<(), OutOfMemory>
    ensures ok { OnOk result (out.new.items ≡ out.old.items ++ (codes "meta " ++ hex_word (attributes attrs))) }
    ensures grows { AppendsBytes out.old.items out.new.items }
{
    put_word("meta ", out)?;
    put_fields(alloc, Message::Reply(&Reply::Attrs(attrs)), 0, out)
}

/// Appends the names of entries.
#[tactic(auto, using(sftp_wire::proofs::Puts::puts))]
fn put_names(alloc: Global, entries: &[NameEntry], out: &mut Vec<u8>) -> Result<(), OutOfMemory>
    ensures ok { OnOk result (out.new.items ≡ out.old.items ++ flat_map name_text entries.now) }
    ensures grows { AppendsBytes out.old.items out.new.items }
{
    for entry in entries {
        put_bytes_behind(alloc, " ", entry.filename.as_bytes(), out)?;
    }
    Ok(())
}

/// Appends the reason why a call is refused: ` sftp ` and the status code, ` extension ` and the name of the missing
/// extension, or ` io ` and the error that the client found.
///
/// # Errors
///
/// `OutOfMemory` if an allocation fails; a prefix of the text may be appended then.
#[tactic(auto, using(sftp_wire::proofs::Puts::puts))]
pub fn put_refusal(why: &Error, out: &mut Vec<u8>) -> Result<(), OutOfMemory>
    ensures ok { OnOk result (out.new.items ≡ out.old.items ++ refusal_text why.now) }
    ensures grows { AppendsBytes out.old.items out.new.items }
{
    match why {
        Error::SftpError { code, .. } => put_number_behind(" sftp ", u64::from(*code), out),
        Error::UnsupportedExtension(set) => put_words(" extension ", extension_word(*set), out),
        Error::IOError(kind) => put_words(" io ", kind_name(*kind), out),
        _ => Ok(()),
    }
}

/// Appends the words of entries.
#[tactic(auto, using(sftp_wire::proofs::Puts::puts))]
fn put_listing(alloc: Global, entries: &[NameEntry], out: &mut Vec<u8>) -> Result<(), OutOfMemory>
    ensures ok { OnOk result (out.new.items ≡ out.old.items ++ (codes "names" ++ flat_map name_text entries.now)) }
    ensures grows { AppendsBytes out.old.items out.new.items }
{
    put_word("names", out)?;
    put_names(alloc, entries, out)
}

/// Appends the words of a refused call.
#[tactic(auto, using(sftp_wire::proofs::Puts::puts))]
fn put_refused(why: &Error, out: &mut Vec<u8>) -> Result<(), OutOfMemory>
    ensures ok { OnOk result (out.new.items ≡ out.old.items ++ (codes "refused" ++ refusal_text why.now)) }
    ensures grows { AppendsBytes out.old.items out.new.items }
{
    put_word("refused", out)?;
    put_refusal(why, out)
}

/// Appends the words of an outcome.
#[tactic(auto, using(sftp_wire::proofs::Puts::puts))]
fn put_outcome(alloc: Global, outcome: &Outcome, out: &mut Vec<u8>) -> Result<(), OutOfMemory>
    ensures ok { OnOk result (out.new.items ≡ out.old.items ++ outcome_text outcome.now) }
    ensures grows { AppendsBytes out.old.items out.new.items }
{
    match outcome {
        Outcome::Done => put_word("done", out),
        Outcome::Opened => put_word("opened", out),
        Outcome::Count(n) => put_number_behind("count ", *n, out),
        Outcome::Bytes(bytes) => put_bytes_behind(alloc, "read ", bytes.as_slice(), out),
        Outcome::End => put_word("end", out),
        Outcome::Meta(attrs) => put_attributes(alloc, *attrs, out),
        Outcome::Names(names) => put_listing(alloc, names.as_slice(), out),
        Outcome::Path(path) => put_bytes_behind(alloc, "path ", path.as_bytes(), out),
        Outcome::Refused(why) => put_refused(why, out),
        Outcome::NoFile => put_word("nofile", out),
        Outcome::Cancelled => put_word("cancelled", out),
        Outcome::GivenUp => put_word("givenup", out),
    }
}

/// Appends the lane and number of a call.
#[tactic(auto, using(sftp_wire::proofs::Puts::puts))]
fn put_call(lane: u64, call: u64, out: &mut Vec<u8>) -> Result<(), OutOfMemory>
    ensures ok { OnOk result (out.new.items ≡ out.old.items ++ (codes "lane " ++ number_text lane ++ codes " call " ++ number_text call)) }
    ensures grows { AppendsBytes out.old.items out.new.items }
{
    put_number_behind("lane ", lane, out)?;
    put_number_behind(" call ", call, out)
}

/// Appends the line of a call.
#[tactic(auto, using(sftp_wire::proofs::Puts::puts))]
fn put_line(
    alloc: Global,
    lane: u64,
    call: u64,
    outcome: &Outcome,
    out: &mut Vec<u8>,
) -> Result<(), OutOfMemory>
    ensures ok { OnOk result (out.new.items ≡ out.old.items ++ outcome_line lane call outcome.now) }
    ensures grows { AppendsBytes out.old.items out.new.items }
{
    put_call(lane, call, out)?;
    put_word(" ", out)?;
    put_outcome(alloc, outcome, out)?;
    put_word("\n", out)
}

/// Appends the lines of a lane's calls.
#[tactic(auto, using(sftp_wire::proofs::Puts::puts))]
fn put_lane(
    alloc: Global,
    lane: u64,
    outcomes: &[Outcome],
    out: &mut Vec<u8>,
) -> Result<(), OutOfMemory>
    ensures ok { OnOk result (out.new.items ≡ out.old.items ++ outcome_lines lane 0 outcomes.now) }
    ensures grows { AppendsBytes out.old.items out.new.items }
{
    for (call, outcome) in outcomes.iter().enumerate() {
        put_line(alloc, lane, call as u64, outcome, out)?;
    }
    Ok(())
}

/// Appends the lines of all lanes.
#[tactic(auto, using(sftp_wire::proofs::Puts::puts))]
pub(crate) fn put_lanes(
    alloc: Global,
    lanes: &[Items<Outcome>],
    out: &mut Vec<u8>,
) -> Result<(), OutOfMemory>
    ensures ok { OnOk result (out.new.items ≡ out.old.items ++ lane_lines 0 lanes.now) }
    ensures grows { AppendsBytes out.old.items out.new.items }
{
    for (lane, outcomes) in lanes.iter().enumerate() {
        put_lane(alloc, lane as u64, outcomes.as_slice(), out)?;
    }
    Ok(())
}
