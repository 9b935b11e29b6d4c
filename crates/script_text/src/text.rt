//! The text of a report, and the lines of the files and directories that are left.
ghost use Rattle.std.specs.Prelude.{◌≡◌, ◌++◌, OnOk, OnErr};
ghost use Rattle.sftp_wire.specs.Body.{AppendsBytes};
ghost use Rattle.script_text.specs.Texts.{text_of, file_text, dir_text};
ghost use Rattle.script_text.specs.Traces.{journal_of};

use crate::frames::put_frames;
use crate::outcomes::put_lanes;
use crate::put::{put_bytes_behind, put_word};
use session_model::Report;
use ssh_encoding::OutOfMemory;
use std::alloc::Global;

/// Appends the text of a report: a line for each frame that was sent or taken, and then one for each outcome.
///
/// # Errors
///
/// `OutOfMemory` if an allocation fails, or if a frame's length or count doesn't fit in four bytes; `out` is unchanged.
pub fn write_text(alloc: Global, report: &Report, out: &mut Vec<u8>) -> Result<(), OutOfMemory>
    ensures ok { OnOk result (out.new.items ≡ out.old.items ++ text_of (journal_of report.now.trace) report.now.outcomes) }
    ensures unchanged { OnErr result (out.new.items ≡ out.old.items) }
{
    let before = out.len();
    match put_text(alloc, report, out) {
        Ok(()) => Ok(()),
        Err(OutOfMemory) => {
            out.truncate(before);
            Err(OutOfMemory)
        }
    }
}

/// Appends the lines of the frames, and then those of the outcomes.
#[tactic(auto, using(sftp_wire::proofs::Puts::puts))]
fn put_text(alloc: Global, report: &Report, out: &mut Vec<u8>) -> Result<(), OutOfMemory>
    ensures ok { OnOk result (out.new.items ≡ out.old.items ++ text_of (journal_of report.now.trace) report.now.outcomes) }
    ensures grows { AppendsBytes out.old.items out.new.items }
{
    put_frames(alloc, report.trace.as_slice(), out)?;
    put_lanes(alloc, report.outcomes.as_slice(), out)
}

/// Appends the line of a file that is left.
///
/// # Errors
///
/// `OutOfMemory` if an allocation fails; `out` is unchanged.
pub fn write_file(
    alloc: Global,
    name: &[u8],
    content: &[u8],
    out: &mut Vec<u8>,
) -> Result<(), OutOfMemory>
    ensures ok { OnOk result (out.new.items ≡ out.old.items ++ file_text name.now content.now) }
    ensures unchanged { OnErr result (out.new.items ≡ out.old.items) }
{
    let before = out.len();
    match put_file(alloc, name, content, out) {
        Ok(()) => Ok(()),
        Err(OutOfMemory) => {
            out.truncate(before);
            Err(OutOfMemory)
        }
    }
}

/// Appends the line of a file.
#[tactic(auto, using(sftp_wire::proofs::Puts::puts))]
fn put_file(
    alloc: Global,
    name: &[u8],
    content: &[u8],
    out: &mut Vec<u8>,
) -> Result<(), OutOfMemory>
    ensures ok { OnOk result (out.new.items ≡ out.old.items ++ file_text name.now content.now) }
    ensures grows { AppendsBytes out.old.items out.new.items }
{
    put_bytes_behind(alloc, "file ", name, out)?;
    put_bytes_behind(alloc, " ", content, out)?;
    put_word("\n", out)
}

/// Appends the line of a directory that is left.
///
/// # Errors
///
/// `OutOfMemory` if an allocation fails; `out` is unchanged.
pub fn write_dir(alloc: Global, name: &[u8], out: &mut Vec<u8>) -> Result<(), OutOfMemory>
    ensures ok { OnOk result (out.new.items ≡ out.old.items ++ dir_text name.now) }
    ensures unchanged { OnErr result (out.new.items ≡ out.old.items) }
{
    let before = out.len();
    match put_dir(alloc, name, out) {
        Ok(()) => Ok(()),
        Err(OutOfMemory) => {
            out.truncate(before);
            Err(OutOfMemory)
        }
    }
}

/// Appends the line of a directory.
#[tactic(auto, using(sftp_wire::proofs::Puts::puts))]
fn put_dir(alloc: Global, name: &[u8], out: &mut Vec<u8>) -> Result<(), OutOfMemory>
    ensures ok { OnOk result (out.new.items ≡ out.old.items ++ dir_text name.now) }
    ensures grows { AppendsBytes out.old.items out.new.items }
{
    put_bytes_behind(alloc, "dir ", name, out)?;
    put_word("\n", out)
}
