//! The text of a summary; after an error a private function may leave a prefix of it, which the public function
//! removes.
ghost use Rattle.std.specs.Prelude.{◌≡◌, ◌++◌, OnOk, OnErr};
ghost use Rattle.sftp_wire.specs.Body.{AppendsBytes};
ghost use Rattle.sftp_cli.specs.Summary.{asked_text, ended_text, left_text, number_line, summary_text};

use crate::summary::Summary;
use script_text::{put_number, put_word};
use ssh_encoding::OutOfMemory;

/// Appends the line of a number, after its word.
#[tactic(auto, using(sftp_wire::proofs::Puts::puts))]
fn put_line(word: &str, n: u64, out: &mut Vec<u8>) -> Result<(), OutOfMemory>
    ensures ok { OnOk result (out.new.items ≡ out.old.items ++ number_line word.now n) }
    ensures grows { AppendsBytes out.old.items out.new.items }
{
    put_word(word, out)?;
    put_word(" ", out)?;
    put_number(n, out)?;
    put_word("\n", out)
}

/// Appends the lines on the requests.
#[tactic(auto, using(sftp_wire::proofs::Puts::puts))]
fn put_asked(summary: &Summary, out: &mut Vec<u8>) -> Result<(), OutOfMemory>
    ensures ok { OnOk result (out.new.items ≡ out.old.items ++ asked_text summary.now) }
    ensures grows { AppendsBytes out.old.items out.new.items }
{
    put_line("lanes", summary.lanes, out)?;
    put_line("calls", summary.calls, out)?;
    put_line("requests", summary.requests, out)
}

/// Appends the lines on the outcomes.
#[tactic(auto, using(sftp_wire::proofs::Puts::puts))]
fn put_ended(summary: &Summary, out: &mut Vec<u8>) -> Result<(), OutOfMemory>
    ensures ok { OnOk result (out.new.items ≡ out.old.items ++ ended_text summary.now) }
    ensures grows { AppendsBytes out.old.items out.new.items }
{
    put_line("done", summary.done, out)?;
    put_line("read", summary.read, out)?;
    put_line("meta", summary.meta, out)?;
    put_line("refused", summary.refused, out)
}

/// Appends the lines on the files that are left.
#[tactic(auto, using(sftp_wire::proofs::Puts::puts))]
fn put_left(summary: &Summary, out: &mut Vec<u8>) -> Result<(), OutOfMemory>
    ensures ok { OnOk result (out.new.items ≡ out.old.items ++ left_text summary.now) }
    ensures grows { AppendsBytes out.old.items out.new.items }
{
    put_line("files", summary.files, out)?;
    put_line("bytes", summary.bytes, out)
}

/// Appends all lines.
#[tactic(auto, using(sftp_wire::proofs::Puts::puts))]
fn put_summary(summary: &Summary, out: &mut Vec<u8>) -> Result<(), OutOfMemory>
    ensures ok { OnOk result (out.new.items ≡ out.old.items ++ summary_text summary.now) }
    ensures grows { AppendsBytes out.old.items out.new.items }
{
    put_asked(summary, out)?;
    put_ended(summary, out)?;
    put_left(summary, out)
}

/// Appends a line for each number.
///
/// # Errors
///
/// `OutOfMemory` if an allocation fails; `out` is unchanged.
pub fn write_summary(summary: &Summary, out: &mut Vec<u8>) -> Result<(), OutOfMemory>
    ensures ok { OnOk result (out.new.items ≡ out.old.items ++ summary_text summary.now) }
    ensures unchanged { OnErr result (out.new.items ≡ out.old.items) }
{
    let before = out.len();
    match put_summary(summary, out) {
        Ok(()) => Ok(()),
        Err(OutOfMemory) => {
            out.truncate(before);
            Err(OutOfMemory)
        }
    }
}
