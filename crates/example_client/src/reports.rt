//! A report of the largest files of a tree.
ghost use Rattle.std.specs.Prelude.{◌≡◌, ◌++◌, IfOk, OnOk, flat_map};
ghost use Rattle.sftp_client.specs.Calls.{IsUsable};
ghost use Rattle.example_client.specs.Reports.{WritesReport, number_word, report_line};

use crate::downloads::{Download, download_all};
use crate::files::append;
use crate::largest::{largest_files, size_of};
use sftp_client::{Error, Link, Sftp};
use std::alloc::Global;

/// Downloads the largest files below a directory, at most ten, all at once. Writes a report to the file `target`: a
/// line for each, with its size as it was listed, the number of bytes that came, and its path.
///
/// # Errors
///
/// The error of the session or the server. If a file can't be read, no report is written.
pub fn write_report<L: Link>(
    alloc: Global,
    sftp: &mut Sftp<L>,
    directory: &[u8],
    target: &[u8],
) -> Result<(), Error>
    requires { IsUsable L.LinkState.state sftp.old }
    ensures writes { OnOk result (WritesReport directory.now target.now L.LinkState.state sftp.old sftp.new) }
    ensures usable { OnOk result (IsUsable L.LinkState.state sftp.new) }
{
    let found = sftp.walk(directory)?;
    let files = largest_files(found)?;
    let done = download_all(alloc, sftp, files)?;
    let text = report_text(alloc, &done)?;
    sftp.write_file(target, &text)
}

/// Returns the text of the report.
fn report_text(alloc: Global, done: &[Download]) -> Result<Vec<u8>, Error>
    ensures { IfOk result (λ text. text.items ≡ flat_map report_line done.now) }
{
    let mut text = Vec::new(alloc);
    for file in done {
        append_file(alloc, &mut text, file)?;
    }
    Ok(text)
}

/// Appends the line of a file.
fn append_file(alloc: Global, text: &mut Vec<u8>, done: &Download) -> Result<(), Error>
    ensures { OnOk result (text.new.items ≡ text.old.items ++ report_line done.now) }
{
    append_number(alloc, text, size_of(&done.file))?;
    append_number(alloc, text, done.bytes.len() as u64)?;
    append(text, done.file.path.as_bytes())?;
    append(text, b"\n")
}

/// Appends a number in decimal digits, and a space.
fn append_number(alloc: Global, text: &mut Vec<u8>, n: u64) -> Result<(), Error>
    ensures { OnOk result (text.new.items ≡ text.old.items ++ number_word n) }
{
    match format!(in alloc; "{n} ") {
        Ok(word) => append(text, word.as_bytes()),
        Err(_) => Err(Error::OutOfMemory),
    }
}
