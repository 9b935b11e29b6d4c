//! Reads lists of operations from their lines.
ghost use Rattle.std.specs.Prelude.{◌≡◌, ◌≤◌, IfErr, IfOk, Ok, OnOk};
ghost use Rattle.script_words.specs.Lines.{three_words, two_words, number_in, words_of};
ghost use Rattle.script_words.specs.Refusals.{RefusesLine, RefusesScript};
ghost use Rattle.view_model.specs.ViewOps.{count};
ghost use Rattle.view_model.specs.CanView.{CanView};
ghost use Rattle.view_model.specs.Lists.{any_line, content_in, get_line, line_by, list_of, nothing_read, op_line, put_line, with_op};

use crate::ViewOp;
use script_grammar::{
    Draft, LineError, LineReader, Reason, Script, ScriptError, bytes_in, number_in, read_lines,
    three_words, two_words,
};
use sftp_values::{ByteText, Items};
use std::alloc::Global;
use std::marker::Model;

/// The greatest length of a list in bytes.
const MAX_LIST_LEN: usize = 16777216;

/// The greatest offset of a `get`.
const MAX_OFFSET: u64 = 1099511627776;

/// The greatest length of a `get`.
const MAX_LEN: u64 = 1048576;

/// The greatest end of the bytes that a `put` writes.
const MAX_END: u64 = 16777216;

/// The greatest sum of the counts of operations.
const COUNT_LIMIT: u64 = 2000000000;

const GET: &[u8] = b"get";

const PUT: &[u8] = b"put";

const CHOICE: &[u8] = b"choice";

/// The content of a source: the options of the session, the first content of a server in memory, and the operations.
///
/// Used in `crates/sftp_view/src/reply.rt`.
#[derive(Debug, Drop)]
pub struct ViewList {
    /// The lines of setup. It has no lanes and no turns, and its choices refuse nothing.
    pub script: Script,
    /// The operations, in the order of their lines.
    pub ops: Items<ViewOp>,
}

/// The part that was read so far.
#[derive(Drop)]
pub(crate) struct ViewDraft {
    block: u32,
    draft: Draft,
    ops: Vec<ViewOp>,
    // The sum of the counts of the operations.
    counted: u64,
}

impl Model for ViewDraft {
    ghost use Rattle.std.specs.Prelude.{◌≡◌, ◌≤◌};
    ghost use Rattle.std.specs.List.{sum_by};
    ghost use Rattle.view_model.specs.ViewOps.{count, count_limit};
    ghost use Rattle.view_model.specs.Lists.{ViewDraft};

    ghost Value = { ViewDraft };

    ghost view = { λ d. record { block = d.block; draft = d.draft; ops = d.ops.items } };

    ghost invariant = { λ d. (d.counted ≡ sum_by (count d.block) d.ops.items) × (d.counted ≤ count_limit) };
}

/// Returns the count of an operation, for blocks of this length.
fn count_of(block: u32, op: &ViewOp) -> u64
    ensures { result ≡ count block op.now }
{
    match op {
        ViewOp::Get { len, .. } => 12 * (u64::from(*len) + 2 * u64::from(block) + 2),
        ViewOp::Put { .. } => 12,
    }
}

/// Returns bytes that end within the greatest length if they are written at an offset.
fn content_in(alloc: Global, offset: u64, word: &[u8]) -> Result<ByteText, LineError>
    requires { offset ≤ 16777216 }
    ensures ok { IfOk result (λ content. content_in offset word.now ≡ Ok content) }
    ensures refused { IfErr result (λ e. RefusesLine (content_in offset word.now) e) }
{
    let content = bytes_in(alloc, word)?;
    if offset + content.as_slice().len() as u64 > MAX_END {
        return Err(LineError::Refused(Reason::Range));
    }
    Ok(content)
}

/// Checks that a choice refuses nothing.
#[tactic(auto, using(script_words::proofs::Counts::not_two))]
fn refuses_nothing(line: &[u8]) -> Result<(), LineError>
    ensures ok { OnOk result (two_words (λ a b. number_in 0 0 a) (words_of line.now) ≡ Ok 0) }
    ensures refused { IfErr result (λ e. RefusesLine (two_words (λ a b. number_in 0 0 a) (words_of line.now)) e) }
{
    let (refuse, _) = two_words(line)?;
    number_in(0, 0, refuse)?;
    Ok(())
}

impl ViewDraft {
    /// Returns the draft before any line, for blocks of this length.
    fn new(alloc: Global, block: u32) -> ViewDraft
        ensures { result ≡ nothing_read block }
    {
        ViewDraft {
            block,
            draft: Draft::new(alloc),
            ops: Vec::new(alloc),
            counted: 0,
        }
    }

    /// Returns the list that was read.
    fn into_list(self) -> ViewList
        ensures { result ≡ record { script = self.draft.script; ops = self.ops } }
    {
        ViewList {
            script: self.draft.into_script(),
            ops: Items::new(self.ops),
        }
    }

    /// Adds an operation, unless the sum of their counts is then too great.
    #[tactic(auto, using(crate::proofs::ListLaws::sum_more))]
    fn add_op(&mut self, op: ViewOp) -> Result<(), LineError>
        ensures ok { OnOk result (with_op self.old op ≡ Ok self.new) }
        ensures refused { IfErr result (λ e. RefusesLine (with_op self.old op) e) }
    {
        let counted = self.counted + count_of(self.block, &op);
        if counted > COUNT_LIMIT {
            return Err(LineError::Refused(Reason::Range));
        }
        self.ops.push(op)?;
        self.counted = counted;
        Ok(())
    }

    /// Adds an operation that reads bytes.
    fn add_get(
        &mut self,
        alloc: Global,
        name: &[u8],
        offset: &[u8],
        len: &[u8],
    ) -> Result<(), LineError>
        ensures ok { OnOk result (get_line self.old name.now offset.now len.now ≡ Ok self.new) }
        ensures refused { IfErr result (λ e. RefusesLine (get_line self.old name.now offset.now len.now) e) }
    {
        let name = bytes_in(alloc, name)?;
        let offset = number_in(0, MAX_OFFSET, offset)?;
        let len = number_in(0, MAX_LEN, len)? as u32;
        self.add_op(ViewOp::Get { name, offset, len })
    }

    /// Adds an operation that writes bytes.
    fn add_put(
        &mut self,
        alloc: Global,
        name: &[u8],
        offset: &[u8],
        content: &[u8],
    ) -> Result<(), LineError>
        ensures ok { OnOk result (put_line self.old name.now offset.now content.now ≡ Ok self.new) }
        ensures refused { IfErr result (λ e. RefusesLine (put_line self.old name.now offset.now content.now) e) }
    {
        let name = bytes_in(alloc, name)?;
        let offset = number_in(0, MAX_END, offset)?;
        let content = content_in(alloc, offset, content)?;
        self.add_op(ViewOp::Put {
            name,
            offset,
            content,
        })
    }

    /// Reads the words after `get`.
    #[tactic(auto, using(script_words::proofs::Counts::not_three))]
    fn get_line(&mut self, alloc: Global, line: &[u8]) -> Result<(), LineError>
        ensures ok { OnOk result (three_words (get_line self.old) (words_of line.now) ≡ Ok self.new) }
        ensures refused { IfErr result (λ e. RefusesLine (three_words (get_line self.old) (words_of line.now)) e) }
    {
        let (name, offset, len) = three_words(line)?;
        self.add_get(alloc, name, offset, len)
    }

    /// Reads the words after `put`.
    #[tactic(auto, using(script_words::proofs::Counts::not_three))]
    fn put_line(&mut self, alloc: Global, line: &[u8]) -> Result<(), LineError>
        ensures ok { OnOk result (three_words (put_line self.old) (words_of line.now) ≡ Ok self.new) }
        ensures refused { IfErr result (λ e. RefusesLine (three_words (put_line self.old) (words_of line.now)) e) }
    {
        let (name, offset, content) = three_words(line)?;
        self.add_put(alloc, name, offset, content)
    }

    /// Reads a line of an operation, by its first word.
    fn op_line(&mut self, alloc: Global, word: &[u8], line: &[u8]) -> Result<(), LineError>
        ensures ok { OnOk result (op_line self.old word.now (words_of line.now) ≡ Ok self.new) }
        ensures refused { IfErr result (λ e. RefusesLine (op_line self.old word.now (words_of line.now)) e) }
    {
        if word == GET {
            self.get_line(alloc, line)
        } else if word == PUT {
            self.put_line(alloc, line)
        } else {
            Err(LineError::Refused(Reason::Word))
        }
    }
}

/// Reads a line of setup or of an operation, without the check of choices.
fn any_line(alloc: Global, draft: &mut ViewDraft, word: &[u8], line: &[u8]) -> Result<(), LineError>
    ensures ok { OnOk result (any_line draft.old word.now (words_of line.now) ≡ Ok draft.new) }
    ensures refused { IfErr result (λ e. RefusesLine (any_line draft.old word.now (words_of line.now)) e) }
{
    if draft.draft.read_setup(alloc, word, line)? {
        return Ok(());
    }
    draft.op_line(alloc, word, line)
}

impl LineReader for ViewDraft {
    ghost line_by = { line_by };

    fn read_words(&mut self, alloc: Global, word: &[u8], line: &[u8]) -> Result<(), LineError> {
        if word == CHOICE {
            refuses_nothing(line)?;
        }
        any_line(alloc, self, word, line)
    }
}

/// Reads a list of operations on a view whose blocks have this length: the lines `option`, `server`, `file`, `dir`,
/// `choice` and `pick` of a script, in which no choice refuses anything, and a line `get` or `put` for each operation.
///
/// # Errors
///
/// `Line` with the number of the first line that is none of these, counted from 1, and the reason. A list of more than
/// 16777216 bytes is refused at line 0. `OutOfMemory` if an allocation fails; it may come in place of any other result.
#[tactic(auto, using(crate::proofs::ListLaws::list_read, crate::proofs::ListLaws::list_refused))]
pub fn read_list(alloc: Global, block: u32, text: &[u8]) -> Result<ViewList, ScriptError>
    ensures ok { IfOk result (λ list. list_of block text.now ≡ Ok list) }
    ensures views { IfOk result (CanView block) }
    ensures refused { IfErr result (λ e. RefusesScript (list_of block text.now) e) }
{
    if text.len() > MAX_LIST_LEN {
        return Err(ScriptError::Line {
            line: 0,
            reason: Reason::Size,
        });
    }
    let draft = read_lines(alloc, text, ViewDraft::new(alloc, block))?;
    Ok(draft.into_list())
}
