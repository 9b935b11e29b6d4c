//! The lines of calls.
ghost use Rattle.std.specs.Prelude.{◌≡◌, Ok, IfOk, OnOk, IfErr, is_some};
ghost use Rattle.std.specs.Option.{option_map};
ghost use Rattle.script_words.specs.Lines.{words_of};
ghost use Rattle.script_grammar.specs.Scripts.{call_in, call_line, number_call, path_call, paths_call, place_call, slot_call, slots_call, write_call};
ghost use Rattle.script_words.specs.Refusals.{RefusesLine, RefusesIn};

use crate::draft::Draft;
use script_words::fields::{
    Bound, Bytes, Flags, Len, Long, Mode, Number, Slot, SomeMode, SomeSize, one, pair,
    slot_and_position, triple,
};
use script_words::{LineError, Reason, slot_and_parts};
use session_model::Call;
use std::alloc::Global;

const OPEN: &[u8] = b"open";

const READ: &[u8] = b"read";

const READ_ALL: &[u8] = b"read_all";

const WRITE: &[u8] = b"write";

const WRITE_ALL: &[u8] = b"write_all";

const WRITE_PARTS: &[u8] = b"write_parts";

const SEEK: &[u8] = b"seek";

const SET_LEN: &[u8] = b"set_len";

const SET_PERM: &[u8] = b"set_perm";

const META: &[u8] = b"meta";

const SYNC: &[u8] = b"sync";

const COPY: &[u8] = b"copy";

const CLONE: &[u8] = b"clone";

const CLOSE: &[u8] = b"close";

const BUFFER: &[u8] = b"buffer";

const UNBUFFER: &[u8] = b"unbuffer";

const BUF_READ: &[u8] = b"buf_read";

const BUF_WRITE: &[u8] = b"buf_write";

const BUF_WRITE_ALL: &[u8] = b"buf_write_all";

const BUF_FLUSH: &[u8] = b"buf_flush";

const BUF_SEEK: &[u8] = b"buf_seek";

const FS_READ: &[u8] = b"fs_read";

const FS_WRITE: &[u8] = b"fs_write";

const LIST: &[u8] = b"list";

const STAT: &[u8] = b"stat";

const LSTAT: &[u8] = b"lstat";

const SET_STAT: &[u8] = b"set_stat";

const REMOVE: &[u8] = b"remove";

const MKDIR: &[u8] = b"mkdir";

const RMDIR: &[u8] = b"rmdir";

const RENAME: &[u8] = b"rename";

const HARD_LINK: &[u8] = b"hard_link";

const SYMLINK: &[u8] = b"symlink";

const READ_LINK: &[u8] = b"read_link";

const CANONICALIZE: &[u8] = b"canonicalize";

const CWD: &[u8] = b"cwd";

/// Reads a call that names only a slot, by the first word and the text after it.
#[tactic(auto, using(crate::proofs::InLanes::fields_refuse))]
fn slot_call(alloc: Global, word: &[u8], line: &[u8]) -> Result<Option<Call>, LineError>
    ensures ok { IfOk result (λ call. slot_call word.now (words_of line.now) ≡ option_map (λ c. Ok c) call) }
    ensures refused { IfErr result (λ e. RefusesIn (slot_call word.now (words_of line.now)) e) }
{
    if word == META {
        let slot = one::<Slot>(alloc, line)?;
        Ok(Some(Call::Meta { slot }))
    } else if word == SYNC {
        let slot = one::<Slot>(alloc, line)?;
        Ok(Some(Call::Sync { slot }))
    } else if word == CLOSE {
        let slot = one::<Slot>(alloc, line)?;
        Ok(Some(Call::Close { slot }))
    } else if word == UNBUFFER {
        let slot = one::<Slot>(alloc, line)?;
        Ok(Some(Call::Unbuffer { slot }))
    } else if word == BUF_FLUSH {
        let slot = one::<Slot>(alloc, line)?;
        Ok(Some(Call::BufFlush { slot }))
    } else {
        Ok(None)
    }
}

/// Reads a call that names a slot and a number.
#[tactic(auto, using(crate::proofs::InLanes::fields_refuse))]
fn number_call(alloc: Global, word: &[u8], line: &[u8]) -> Result<Option<Call>, LineError>
    ensures ok { IfOk result (λ call. number_call word.now (words_of line.now) ≡ option_map (λ c. Ok c) call) }
    ensures refused { IfErr result (λ e. RefusesIn (number_call word.now (words_of line.now)) e) }
{
    if word == READ {
        let (slot, n) = pair::<Slot, Number>(alloc, line)?;
        Ok(Some(Call::Read { slot, n }))
    } else if word == READ_ALL {
        let (slot, n) = pair::<Slot, Number>(alloc, line)?;
        Ok(Some(Call::ReadAll { slot, n }))
    } else if word == SET_LEN {
        let (slot, n) = pair::<Slot, Long>(alloc, line)?;
        Ok(Some(Call::SetLen { slot, n }))
    } else if word == SET_PERM {
        let (slot, perm) = pair::<Slot, Mode>(alloc, line)?;
        Ok(Some(Call::SetPerm { slot, perm }))
    } else if word == BUFFER {
        let (slot, len) = pair::<Slot, Len>(alloc, line)?;
        Ok(Some(Call::Buffer { slot, len }))
    } else if word == BUF_READ {
        let (slot, n) = pair::<Slot, Long>(alloc, line)?;
        Ok(Some(Call::BufRead { slot, n }))
    } else {
        Ok(None)
    }
}

/// Reads a call that writes to a slot.
#[tactic(auto, using(crate::proofs::InLanes::fields_refuse))]
fn write_call(alloc: Global, word: &[u8], line: &[u8]) -> Result<Option<Call>, LineError>
    ensures ok { IfOk result (λ call. write_call word.now (words_of line.now) ≡ option_map (λ c. Ok c) call) }
    ensures refused { IfErr result (λ e. RefusesIn (write_call word.now (words_of line.now)) e) }
{
    if word == WRITE {
        let (slot, bytes) = pair::<Slot, Bytes>(alloc, line)?;
        Ok(Some(Call::Write { slot, bytes }))
    } else if word == WRITE_ALL {
        let (slot, bytes) = pair::<Slot, Bytes>(alloc, line)?;
        Ok(Some(Call::WriteAll { slot, bytes }))
    } else if word == WRITE_PARTS {
        let (slot, parts) = slot_and_parts(alloc, line)?;
        Ok(Some(Call::WriteParts { slot, parts }))
    } else if word == BUF_WRITE {
        let (slot, bytes) = pair::<Slot, Bytes>(alloc, line)?;
        Ok(Some(Call::BufWrite { slot, bytes }))
    } else if word == BUF_WRITE_ALL {
        let (slot, bytes) = pair::<Slot, Bytes>(alloc, line)?;
        Ok(Some(Call::BufWriteAll { slot, bytes }))
    } else {
        Ok(None)
    }
}

/// Reads a call that opens a file in a slot, moves in it, or names a second slot.
#[tactic(auto, using(crate::proofs::InLanes::fields_refuse))]
fn place_call(alloc: Global, word: &[u8], line: &[u8]) -> Result<Option<Call>, LineError>
    ensures ok { IfOk result (λ call. place_call word.now (words_of line.now) ≡ option_map (λ c. Ok c) call) }
    ensures refused { IfErr result (λ e. RefusesIn (place_call word.now (words_of line.now)) e) }
{
    if word == OPEN {
        let (slot, flags, path) = triple::<Slot, Flags, Bytes>(alloc, line)?;
        Ok(Some(Call::OpenFile { slot, flags, path }))
    } else if word == SEEK {
        let (slot, position) = slot_and_position(line)?;
        Ok(Some(Call::Seek { slot, position }))
    } else if word == BUF_SEEK {
        let (slot, position) = slot_and_position(line)?;
        Ok(Some(Call::BufSeek { slot, position }))
    } else if word == COPY {
        let (from, to, n) = triple::<Slot, Slot, Long>(alloc, line)?;
        Ok(Some(Call::Copy { from, to, n }))
    } else if word == CLONE {
        let (from, to) = pair::<Slot, Slot>(alloc, line)?;
        Ok(Some(Call::CloneFile { from, to }))
    } else {
        Ok(None)
    }
}

/// Reads a call that names only a path.
#[tactic(auto, using(crate::proofs::InLanes::fields_refuse))]
fn path_call(alloc: Global, word: &[u8], line: &[u8]) -> Result<Option<Call>, LineError>
    ensures ok { IfOk result (λ call. path_call word.now (words_of line.now) ≡ option_map (λ c. Ok c) call) }
    ensures refused { IfErr result (λ e. RefusesIn (path_call word.now (words_of line.now)) e) }
{
    if word == STAT {
        let path = one::<Bytes>(alloc, line)?;
        Ok(Some(Call::Stat { path }))
    } else if word == LSTAT {
        let path = one::<Bytes>(alloc, line)?;
        Ok(Some(Call::Lstat { path }))
    } else if word == REMOVE {
        let path = one::<Bytes>(alloc, line)?;
        Ok(Some(Call::Remove { path }))
    } else if word == MKDIR {
        let path = one::<Bytes>(alloc, line)?;
        Ok(Some(Call::Mkdir { path }))
    } else if word == RMDIR {
        let path = one::<Bytes>(alloc, line)?;
        Ok(Some(Call::Rmdir { path }))
    } else if word == READ_LINK {
        let path = one::<Bytes>(alloc, line)?;
        Ok(Some(Call::ReadLink { path }))
    } else if word == CANONICALIZE {
        let path = one::<Bytes>(alloc, line)?;
        Ok(Some(Call::Canonicalize { path }))
    } else if word == CWD {
        let path = one::<Bytes>(alloc, line)?;
        Ok(Some(Call::Cwd { path }))
    } else {
        Ok(None)
    }
}

/// Reads a call that names a path and something more.
#[tactic(auto, using(crate::proofs::InLanes::fields_refuse))]
fn paths_call(alloc: Global, word: &[u8], line: &[u8]) -> Result<Option<Call>, LineError>
    ensures ok { IfOk result (λ call. paths_call word.now (words_of line.now) ≡ option_map (λ c. Ok c) call) }
    ensures refused { IfErr result (λ e. RefusesIn (paths_call word.now (words_of line.now)) e) }
{
    if word == FS_READ {
        let (path, bound) = pair::<Bytes, Bound>(alloc, line)?;
        Ok(Some(Call::FsRead { path, bound }))
    } else if word == FS_WRITE {
        let (path, bytes) = pair::<Bytes, Bytes>(alloc, line)?;
        Ok(Some(Call::FsWrite { path, bytes }))
    } else if word == LIST {
        let (path, bound) = pair::<Bytes, Bound>(alloc, line)?;
        Ok(Some(Call::List { path, bound }))
    } else if word == SET_STAT {
        let (path, size, perm) = triple::<Bytes, SomeSize, SomeMode>(alloc, line)?;
        Ok(Some(Call::SetStat { path, size, perm }))
    } else if word == RENAME {
        let (old, to) = pair::<Bytes, Bytes>(alloc, line)?;
        Ok(Some(Call::Rename { old, to }))
    } else if word == HARD_LINK {
        let (old, to) = pair::<Bytes, Bytes>(alloc, line)?;
        Ok(Some(Call::HardLink { old, to }))
    } else if word == SYMLINK {
        let (src, dst) = pair::<Bytes, Bytes>(alloc, line)?;
        Ok(Some(Call::Symlink { src, dst }))
    } else {
        Ok(None)
    }
}

/// Reads a call on slots.
#[tactic(auto, using(crate::proofs::InLanes::first_refuses))]
fn slots_call(alloc: Global, word: &[u8], line: &[u8]) -> Result<Option<Call>, LineError>
    ensures ok { IfOk result (λ call. slots_call word.now (words_of line.now) ≡ option_map (λ c. Ok c) call) }
    ensures refused { IfErr result (λ e. RefusesIn (slots_call word.now (words_of line.now)) e) }
{
    match slot_call(alloc, word, line)? {
        Some(call) => Ok(Some(call)),
        None => match number_call(alloc, word, line)? {
            Some(call) => Ok(Some(call)),
            None => match write_call(alloc, word, line)? {
                Some(call) => Ok(Some(call)),
                None => place_call(alloc, word, line),
            },
        },
    }
}

/// Reads a call, by the first word and the text after it.
#[tactic(auto, using(crate::proofs::InLanes::first_refuses))]
fn call_in(alloc: Global, word: &[u8], line: &[u8]) -> Result<Option<Call>, LineError>
    ensures ok { IfOk result (λ call. call_in word.now (words_of line.now) ≡ option_map (λ c. Ok c) call) }
    ensures refused { IfErr result (λ e. RefusesIn (call_in word.now (words_of line.now)) e) }
{
    match slots_call(alloc, word, line)? {
        Some(call) => Ok(Some(call)),
        None => match path_call(alloc, word, line)? {
            Some(call) => Ok(Some(call)),
            None => paths_call(alloc, word, line),
        },
    }
}

/// Returns true if a line is a call.
#[tactic(auto, using(crate::proofs::InLanes::refused_call))]
fn is_call(alloc: Global, word: &[u8], line: &[u8]) -> bool
    ensures { result ≡ is_some (call_in word.now (words_of line.now)) }
{
    match call_in(alloc, word, line) {
        Ok(call) => call.is_some(),
        Err(_) => true,
    }
}

/// Reads a line of a call, in the lane that was started last.
#[tactic(auto, using(crate::proofs::InLanes::no_lane, crate::proofs::InLanes::no_call, crate::proofs::InLanes::call_read, crate::proofs::InLanes::call_refuses))]
pub(crate) fn call_line(
    alloc: Global,
    draft: &mut Draft,
    word: &[u8],
    line: &[u8],
) -> Result<(), LineError>
    ensures ok { OnOk result (call_line draft.old (call_in word.now (words_of line.now)) ≡ Ok draft.new) }
    ensures refused { IfErr result (λ e. RefusesLine (call_line draft.old (call_in word.now (words_of line.now))) e) }
{
    if draft.has_no_lane() {
        if is_call(alloc, word, line) {
            return Err(LineError::Refused(Reason::Lane));
        }
        return Err(LineError::Refused(Reason::Word));
    }
    match call_in(alloc, word, line)? {
        Some(call) => {
            draft.add_call(call)?;
            Ok(())
        }
        None => Err(LineError::Refused(Reason::Word)),
    }
}
