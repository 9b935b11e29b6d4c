//! The lines on the server's offers.
ghost use Rattle.std.specs.Prelude.{◌≡◌, ◌∷◌, Ok, Err, MatchResult};
ghost use Rattle.script_words.specs.Lines.{words_of, one_word, four_words};
ghost use Rattle.script_grammar.specs.Setup.{extension_in, ext_line, limits_line, cut_line, server_line};
ghost use Rattle.script_grammar.specs.Parts.{limits_in_words};

use crate::draft::Draft;
use bitflags::Flags;
use script_words::{Reason, four_words, number_from, number_in, one_word, split_word};
use sftp_model::{Extensions, Limits};

const POSIX_RENAME: &[u8] = b"posix-rename";

const HARDLINK: &[u8] = b"hardlink";

const FSYNC: &[u8] = b"fsync";

const EXPAND_PATH: &[u8] = b"expand-path";

const COPY_DATA: &[u8] = b"copy-data";

const EXT: &[u8] = b"ext";

const LIMITS: &[u8] = b"limits";

const CUT: &[u8] = b"cut";

/// Returns the bit of an extension's name.
fn extension_in(name: &[u8]) -> Result<u32, Reason>
    ensures { result ≡ extension_in name.now }
{
    if name == POSIX_RENAME {
        Ok(Extensions::POSIX_RENAME.bits())
    } else if name == HARDLINK {
        Ok(Extensions::HARDLINK.bits())
    } else if name == FSYNC {
        Ok(Extensions::FSYNC.bits())
    } else if name == EXPAND_PATH {
        Ok(Extensions::EXPAND_PATH.bits())
    } else if name == COPY_DATA {
        Ok(Extensions::COPY_DATA.bits())
    } else {
        Err(Reason::Mode)
    }
}

/// Adds this extension to the server's offers.
fn add_extension(draft: &mut Draft, name: &[u8]) -> Result<(), Reason>
    ensures { MatchResult result (λ _. ext_line draft.old name.now ≡ Ok draft.new) (λ e. ext_line draft.old name.now ≡ Err e) }
{
    let bit = extension_in(name)?;
    draft.add_extension(bit)
}

/// Returns the four limits.
fn limits_in(packet: &[u8], read: &[u8], write: &[u8], handles: &[u8]) -> Result<Limits, Reason>
    ensures { MatchResult result
        (λ limits. limits_in_words packet.now read.now write.now handles.now ≡ Ok limits)
        (λ e. limits_in_words packet.now read.now write.now handles.now ≡ Err e) }
{
    let packet_len = number_in(0, u64::MAX, packet)?;
    let read_len = number_in(0, u64::MAX, read)?;
    let write_len = number_in(0, u64::MAX, write)?;
    let open_handles = number_in(0, u64::MAX, handles)?;
    Ok(Limits {
        packet_len,
        read_len,
        write_len,
        open_handles,
    })
}

/// Reads the line of the limits that the server reports.
#[tactic(auto, using(script_words::proofs::Counts::not_four, crate::proofs::LimitsLaws::limits_read, crate::proofs::LimitsLaws::limits_refused))]
fn limits_line(draft: &mut Draft, line: &[u8]) -> Result<(), Reason>
    ensures { MatchResult result
        (λ _. four_words (limits_line draft.old) (words_of line.now) ≡ Ok draft.new)
        (λ e. four_words (limits_line draft.old) (words_of line.now) ≡ Err e) }
{
    let (packet, read, write, handles) = four_words(line)?;
    let limits = limits_in(packet, read, write, handles)?;
    draft.set_limits(limits)
}

/// Sets the greatest number of bytes that the server moves at once.
fn set_cut(draft: &mut Draft, word: &[u8]) -> Result<(), Reason>
    ensures { MatchResult result (λ _. cut_line draft.old word.now ≡ Ok draft.new) (λ e. cut_line draft.old word.now ≡ Err e) }
{
    let cut = number_from(1, word)?;
    draft.set_cut(cut)
}

/// Reads an extension's name alone.
#[tactic(auto, using(script_words::proofs::Counts::not_one))]
fn ext_line(draft: &mut Draft, line: &[u8]) -> Result<(), Reason>
    ensures { MatchResult result
        (λ _. one_word (ext_line draft.old) (words_of line.now) ≡ Ok draft.new)
        (λ e. one_word (ext_line draft.old) (words_of line.now) ≡ Err e) }
{
    let name = one_word(line)?;
    add_extension(draft, name)
}

/// Reads a cut alone.
#[tactic(auto, using(script_words::proofs::Counts::not_one))]
fn cut_line(draft: &mut Draft, line: &[u8]) -> Result<(), Reason>
    ensures { MatchResult result
        (λ _. one_word (cut_line draft.old) (words_of line.now) ≡ Ok draft.new)
        (λ e. one_word (cut_line draft.old) (words_of line.now) ≡ Err e) }
{
    let word = one_word(line)?;
    set_cut(draft, word)
}

/// Reads the words after the kind of a line on the server.
fn server_line_by(draft: &mut Draft, kind: &[u8], line: &[u8]) -> Result<(), Reason>
    ensures { MatchResult result
        (λ _. server_line draft.old (kind.now ∷ words_of line.now) ≡ Ok draft.new)
        (λ e. server_line draft.old (kind.now ∷ words_of line.now) ≡ Err e) }
{
    if kind == EXT {
        ext_line(draft, line)
    } else if kind == LIMITS {
        limits_line(draft, line)
    } else if kind == CUT {
        cut_line(draft, line)
    } else {
        Err(Reason::Mode)
    }
}

/// Reads a line on the server, by its second word.
pub(crate) fn server_line(draft: &mut Draft, line: &[u8]) -> Result<(), Reason>
    ensures { MatchResult result
        (λ _. server_line draft.old (words_of line.now) ≡ Ok draft.new)
        (λ e. server_line draft.old (words_of line.now) ≡ Err e) }
{
    match split_word(line) {
        Some((kind, rest)) => server_line_by(draft, kind, rest),
        None => Err(Reason::Count),
    }
}
