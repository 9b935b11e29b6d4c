//! Reads lists of files to copy from their lines.
ghost use Rattle.std.specs.Prelude.{◌≡◌, IfErr, IfOk, Ok, OnOk};
ghost use Rattle.machine_model.specs.Components.{components};
ghost use Rattle.mirror_jobs.specs.Jobs.{name_of};
ghost use Rattle.script_words.specs.Lines.{two_words, words_of};
ghost use Rattle.script_words.specs.Refusals.{RefusesLine, RefusesScript};
ghost use Rattle.script_grammar.specs.Setup.{path_in};
ghost use Rattle.sftp_mirror.specs.CanCopy.{CanCopy};
ghost use Rattle.sftp_mirror.specs.Lists.{content_in, down_line, job_line, line_by, list_of, name_in, nothing_read, up_line, with_job};

use crate::names::{has_name, may_be_named, stands_beside_all};
use machine_answers::components;
use mirror_jobs::Job;
use script_grammar::{
    Draft, LineError, LineReader, Reason, Script, ScriptError, bytes_in, number_in, read_lines,
    two_words,
};
use sftp_values::{ByteText, Items};
use std::alloc::Global;
use std::marker::Model;

/// The greatest length of a list in bytes.
const MAX_LIST_LEN: usize = 16777216;

const UP: &[u8] = b"up";

const DOWN: &[u8] = b"down";

/// The content of a source: the options of the session, the first content of a server in memory, and the files to copy.
///
/// Used in `crates/sftp_mirror/src/reply.rt`.
#[derive(Debug, Drop)]
pub struct CopyList {
    /// The lines of setup. It has no lanes and no turns.
    pub script: Script,
    /// The files, in the order of their lines.
    pub jobs: Items<Job>,
}

/// The part that was read so far.
#[derive(Drop)]
pub(crate) struct ListDraft {
    draft: Draft,
    jobs: Vec<Job>,
    // The names of the files, in the same order.
    names: Vec<Items<ByteText>>,
}

impl Model for ListDraft {
    ghost use Rattle.std.specs.Prelude.{◌≡◌, map};
    ghost use Rattle.mirror_jobs.specs.Jobs.{name_of};
    ghost use Rattle.sftp_mirror.specs.Lists.{ListDraft};

    ghost Value = { ListDraft };

    ghost view = { λ d. record { draft = d.draft; jobs = d.jobs.items } };

    ghost invariant = { λ d. d.names.items ≡ map name_of d.jobs.items };
}

/// Returns a path of a permitted name, and the name.
fn path_in(alloc: Global, word: &[u8]) -> Result<(ByteText, Items<ByteText>), LineError>
    ensures ok { IfOk result (λ p. (path_in word.now ≡ Ok p.0) × (p.1 ≡ components p.0)) }
    ensures refused { IfErr result (λ e. RefusesLine (path_in word.now) e) }
{
    let path = bytes_in(alloc, word)?;
    let name = components(alloc, path.as_slice())?;
    if !may_be_named(name.as_slice()) {
        return Err(LineError::Refused(Reason::Range));
    }
    Ok((path, name))
}

/// Returns bytes that are fewer than the greatest bound of a read.
fn content_in(alloc: Global, word: &[u8]) -> Result<ByteText, LineError>
    ensures ok { IfOk result (λ content. content_in word.now ≡ Ok content) }
    ensures refused { IfErr result (λ e. RefusesLine (content_in word.now) e) }
{
    let content = bytes_in(alloc, word)?;
    if content.as_slice().len() >= u32::MAX as usize {
        return Err(LineError::Refused(Reason::Range));
    }
    Ok(content)
}

impl ListDraft {
    /// Returns the draft before any line.
    fn new(alloc: Global) -> ListDraft
        ensures { result ≡ nothing_read }
    {
        ListDraft {
            draft: Draft::new(alloc),
            jobs: Vec::new(alloc),
            names: Vec::new(alloc),
        }
    }

    /// Returns the list that was read.
    fn into_list(self) -> CopyList
        ensures { result ≡ record { script = self.draft.script; jobs = self.jobs } }
    {
        CopyList {
            script: self.draft.into_script(),
            jobs: Items::new(self.jobs),
        }
    }

    /// Returns a path of another file, and its name.
    fn name_in(&self, alloc: Global, word: &[u8]) -> Result<(ByteText, Items<ByteText>), LineError>
        ensures ok { IfOk result (λ p. (name_in self.now.jobs word.now ≡ Ok p.0) × (p.1 ≡ components p.0)) }
        ensures refused { IfErr result (λ e. RefusesLine (name_in self.now.jobs word.now) e) }
    {
        let (path, name) = path_in(alloc, word)?;
        if !stands_beside_all(self.names.as_slice(), name.as_slice()) {
            return Err(LineError::Refused(Reason::Range));
        }
        Ok((path, name))
    }

    /// Adds a file, unless its name was given before.
    fn add_job(&mut self, job: Job, name: Items<ByteText>) -> Result<(), LineError>
        requires { name ≡ name_of job }
        ensures ok { OnOk result (with_job self.old job ≡ Ok self.new) }
        ensures refused { IfErr result (λ e. RefusesLine (with_job self.old job) e) }
    {
        if has_name(self.names.as_slice(), name.as_slice()) {
            return Err(LineError::Refused(Reason::Repeat));
        }
        self.jobs.reserve(1)?;
        self.names.push(name)?;
        self.jobs.push(job).unwrap();
        Ok(())
    }

    /// Adds an upload.
    fn add_up(&mut self, alloc: Global, name: &[u8], content: &[u8]) -> Result<(), LineError>
        ensures ok { OnOk result (up_line self.old name.now content.now ≡ Ok self.new) }
        ensures refused { IfErr result (λ e. RefusesLine (up_line self.old name.now content.now) e) }
    {
        let (path, name) = self.name_in(alloc, name)?;
        let content = content_in(alloc, content)?;
        self.add_job(
            Job::Up {
                name: path,
                content,
            },
            name,
        )
    }

    /// Adds a download.
    fn add_down(&mut self, alloc: Global, name: &[u8], bound: &[u8]) -> Result<(), LineError>
        ensures ok { OnOk result (down_line self.old name.now bound.now ≡ Ok self.new) }
        ensures refused { IfErr result (λ e. RefusesLine (down_line self.old name.now bound.now) e) }
    {
        let (path, name) = self.name_in(alloc, name)?;
        let bound = number_in(1, u64::from(u32::MAX), bound)? as u32;
        self.add_job(Job::Down { name: path, bound }, name)
    }

    /// Reads the words after `up`.
    #[tactic(auto, using(script_words::proofs::Counts::not_two))]
    fn up_line(&mut self, alloc: Global, line: &[u8]) -> Result<(), LineError>
        ensures ok { OnOk result (two_words (up_line self.old) (words_of line.now) ≡ Ok self.new) }
        ensures refused { IfErr result (λ e. RefusesLine (two_words (up_line self.old) (words_of line.now)) e) }
    {
        let (name, content) = two_words(line)?;
        self.add_up(alloc, name, content)
    }

    /// Reads the words after `down`.
    #[tactic(auto, using(script_words::proofs::Counts::not_two))]
    fn down_line(&mut self, alloc: Global, line: &[u8]) -> Result<(), LineError>
        ensures ok { OnOk result (two_words (down_line self.old) (words_of line.now) ≡ Ok self.new) }
        ensures refused { IfErr result (λ e. RefusesLine (two_words (down_line self.old) (words_of line.now)) e) }
    {
        let (name, bound) = two_words(line)?;
        self.add_down(alloc, name, bound)
    }

    /// Reads a line that names a file to copy, by its first word.
    fn job_line(&mut self, alloc: Global, word: &[u8], line: &[u8]) -> Result<(), LineError>
        ensures ok { OnOk result (job_line self.old word.now (words_of line.now) ≡ Ok self.new) }
        ensures refused { IfErr result (λ e. RefusesLine (job_line self.old word.now (words_of line.now)) e) }
    {
        if word == UP {
            self.up_line(alloc, line)
        } else if word == DOWN {
            self.down_line(alloc, line)
        } else {
            Err(LineError::Refused(Reason::Word))
        }
    }
}

impl LineReader for ListDraft {
    ghost line_by = { line_by };

    #[tactic(auto, using(crate::proofs::ListLaws::setup_refuses))]
    fn read_words(&mut self, alloc: Global, word: &[u8], line: &[u8]) -> Result<(), LineError> {
        if self.draft.read_setup(alloc, word, line)? {
            return Ok(());
        }
        self.job_line(alloc, word, line)
    }
}

/// Reads a list of files to copy: the lines `option`, `server`, `file`, `dir`, `choice` and `pick` of a script, and a
/// line `up` or `down` for each file.
///
/// # Errors
///
/// `Line` with the number of the first line that is none of these, counted from 1, and the reason. A list of more than
/// 16777216 bytes is refused at line 0. `OutOfMemory` if an allocation fails; it may come in place of any other result.
#[tactic(auto, using(crate::proofs::ListLaws::list_read, crate::proofs::ListLaws::list_refused, crate::proofs::ListLaws::draft_can_copy))]
pub fn read_list(alloc: Global, text: &[u8]) -> Result<CopyList, ScriptError>
    ensures ok { IfOk result (λ list. list_of text.now ≡ Ok list) }
    ensures copies { IfOk result CanCopy }
    ensures refused { IfErr result (λ e. RefusesScript (list_of text.now) e) }
{
    if text.len() > MAX_LIST_LEN {
        return Err(ScriptError::Line {
            line: 0,
            reason: Reason::Size,
        });
    }
    let draft = read_lines(alloc, text, ListDraft::new(alloc))?;
    Ok(draft.into_list())
}
