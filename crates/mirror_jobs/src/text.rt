//! The lines of the files' results.
ghost use Rattle.std.specs.Prelude.{◌≡◌, ◌++◌, codes, OnErr, OnOk};
ghost use Rattle.script_text.specs.Texts.{hex_word, line, refusal_text};
ghost use Rattle.sftp_wire.specs.Body.{AppendsBytes};
ghost use Rattle.mirror_jobs.specs.Jobs.{path_of};
ghost use Rattle.mirror_jobs.specs.declared.verdict.Verdict.TheVariants as verdict;
ghost use Rattle.mirror_jobs.specs.Verdicts.{verdict_lines, verdict_text};

use crate::job::Job;
use crate::verdict::Verdict;
use script_text::{put_bytes, put_number, put_refusal, put_word};
use sftp_model::Error;
use ssh_encoding::OutOfMemory;
use std::alloc::Global;

/// Returns the path of a file on the server.
fn path_of(job: &Job) -> &[u8]
    ensures { result.now ≡ path_of job.now }
{
    match job {
        Job::Up { name, .. } => name.as_slice(),
        Job::Down { name, .. } => name.as_slice(),
    }
}

/// Appends a word, and the digits of a path after it.
#[tactic(auto, using(sftp_wire::proofs::Puts::puts))]
fn put_path(alloc: Global, word: &str, path: &[u8], out: &mut Vec<u8>) -> Result<(), OutOfMemory>
    ensures ok { OnOk result (out.new.items ≡ out.old.items ++ (word.now ++ hex_word path.now)) }
    ensures grows { AppendsBytes out.old.items out.new.items }
{
    put_word(word, out)?;
    put_bytes(alloc, path, out)
}

/// Appends the words of a file that was refused.
#[tactic(auto, using(sftp_wire::proofs::Puts::puts))]
fn put_refused(
    alloc: Global,
    path: &[u8],
    why: &Error,
    out: &mut Vec<u8>,
) -> Result<(), OutOfMemory>
    ensures ok { OnOk result (out.new.items ≡ out.old.items ++ (codes "refused " ++ hex_word path.now ++ refusal_text why.now)) }
    ensures grows { AppendsBytes out.old.items out.new.items }
{
    put_path(alloc, "refused ", path, out)?;
    put_refusal(why, out)
}

/// Appends the words of a file that was copied.
#[tactic(auto, using(sftp_wire::proofs::Puts::puts))]
fn put_copied(alloc: Global, job: &Job, out: &mut Vec<u8>) -> Result<(), OutOfMemory>
    ensures ok { OnOk result (out.new.items ≡ out.old.items ++ verdict_text job.now verdict.Copied) }
    ensures grows { AppendsBytes out.old.items out.new.items }
{
    match job {
        Job::Up { name, content } => {
            put_path(alloc, "copied ", name.as_slice(), out)?;
            put_word(" ", out)?;
            put_number(content.as_slice().len() as u64, out)
        }
        Job::Down { name, .. } => put_path(alloc, "copied ", name.as_slice(), out),
    }
}

/// Appends the words of a file whose bytes were read.
#[tactic(auto, using(sftp_wire::proofs::Puts::puts))]
fn put_got(alloc: Global, path: &[u8], bytes: &[u8], out: &mut Vec<u8>) -> Result<(), OutOfMemory>
    ensures ok { OnOk result (out.new.items ≡ out.old.items ++ (codes "got " ++ hex_word path.now ++ codes " " ++ hex_word bytes.now)) }
    ensures grows { AppendsBytes out.old.items out.new.items }
{
    put_path(alloc, "got ", path, out)?;
    put_word(" ", out)?;
    put_bytes(alloc, bytes, out)
}

/// Appends the words of a file's result.
#[tactic(auto, using(sftp_wire::proofs::Puts::puts))]
fn put_verdict(
    alloc: Global,
    job: &Job,
    verdict: &Verdict,
    out: &mut Vec<u8>,
) -> Result<(), OutOfMemory>
    ensures ok { OnOk result (out.new.items ≡ out.old.items ++ verdict_text job.now verdict.now) }
    ensures grows { AppendsBytes out.old.items out.new.items }
{
    match verdict {
        Verdict::Refused(why) => put_refused(alloc, path_of(job), why, out),
        Verdict::GivenUp => put_path(alloc, "givenup ", path_of(job), out),
        Verdict::Differs => put_path(alloc, "differs ", path_of(job), out),
        Verdict::Copied => put_copied(alloc, job, out),
        Verdict::Got(bytes) => put_got(alloc, path_of(job), bytes.as_slice(), out),
    }
}

/// Appends the line of a file's result.
#[tactic(auto, using(sftp_wire::proofs::Puts::puts))]
fn put_line(
    alloc: Global,
    job: &Job,
    verdict: &Verdict,
    out: &mut Vec<u8>,
) -> Result<(), OutOfMemory>
    ensures ok { OnOk result (out.new.items ≡ out.old.items ++ line (verdict_text job.now verdict.now)) }
    ensures grows { AppendsBytes out.old.items out.new.items }
{
    put_verdict(alloc, job, verdict, out)?;
    put_word("\n", out)
}

/// Appends the lines of the files' results.
#[tactic(auto, using(sftp_wire::proofs::Puts::puts))]
fn put_lines(
    alloc: Global,
    jobs: &[Job],
    verdicts: &[Verdict],
    out: &mut Vec<u8>,
) -> Result<(), OutOfMemory>
    ensures ok { OnOk result (out.new.items ≡ out.old.items ++ verdict_lines jobs.now verdicts.now) }
    ensures grows { AppendsBytes out.old.items out.new.items }
{
    let mut said = verdicts;
    let mut rest = jobs;
    loop {
        match rest {
            [] => return Ok(()),
            [job, later @ ..] => match said {
                [] => return Ok(()),
                [verdict, more @ ..] => {
                    put_line(alloc, job, verdict, out)?;
                    said = more;
                    rest = later;
                }
            },
        }
    }
}

/// Appends a line for each file: `refused` with its path and the reason, `givenup` or `differs` with its path, `copied`
/// with its path and its size in bytes, or `got` with its path and the bytes.
///
/// # Errors
///
/// `OutOfMemory` if an allocation fails; `out` is unchanged.
pub fn write_verdicts(
    alloc: Global,
    jobs: &[Job],
    verdicts: &[Verdict],
    out: &mut Vec<u8>,
) -> Result<(), OutOfMemory>
    ensures ok { OnOk result (out.new.items ≡ out.old.items ++ verdict_lines jobs.now verdicts.now) }
    ensures unchanged { OnErr result (out.new.items ≡ out.old.items) }
{
    let before = out.len();
    match put_lines(alloc, jobs, verdicts, out) {
        Ok(()) => Ok(()),
        Err(OutOfMemory) => {
            out.truncate(before);
            Err(OutOfMemory)
        }
    }
}
