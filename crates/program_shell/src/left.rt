//! Writes the files and directories that a server in memory has.
ghost use Rattle.std.specs.Prelude.{◌≡◌, ◌++◌, OnOk};
ghost use Rattle.machine_model.specs.Listing.{dir_at, file_at};
ghost use Rattle.script_text.specs.Texts.{dir_lines, file_lines};
ghost use Rattle.program_shell.specs.Texts.{dir_text_of, file_text_of};

use script_text::{write_dir, write_file};
use sftp_map_server::MapServer;
use ssh_encoding::OutOfMemory;
use std::alloc::Global;

/// Appends the line of file k.
fn write_file_at(
    alloc: Global,
    server: &MapServer,
    k: u64,
    out: &mut Vec<u8>,
) -> Result<(), OutOfMemory>
    ensures { OnOk result (out.new.items ≡ out.old.items ++ file_text_of (file_at server.now.now.state.machine.tree k)) }
{
    match server.file(k) {
        Some((name, content)) => write_file(alloc, name, content, out),
        None => Ok(()),
    }
}

/// Appends a line for each file, sorted by the bytes of the written names.
///
/// # Errors
///
/// `OutOfMemory` if an allocation fails.
#[tactic(auto, using(crate::proofs::Files::file_step, crate::proofs::Files::files_end))]
pub fn write_files(alloc: Global, server: &MapServer, out: &mut Vec<u8>) -> Result<(), OutOfMemory>
    ensures { OnOk result (out.new.items ≡ out.old.items ++ file_lines server.now.now.state.machine.tree) }
{
    for k in 0..server.file_count() {
        write_file_at(alloc, server, k, out)?;
    }
    Ok(())
}

/// Appends the line of directory k.
fn write_dir_at(
    alloc: Global,
    server: &MapServer,
    k: u64,
    out: &mut Vec<u8>,
) -> Result<(), OutOfMemory>
    ensures { OnOk result (out.new.items ≡ out.old.items ++ dir_text_of (dir_at server.now.now.state.machine.tree k)) }
{
    match server.dir(k) {
        Some(name) => write_dir(alloc, name, out),
        None => Ok(()),
    }
}

/// Appends a line for each directory, sorted by the bytes of the written names.
///
/// # Errors
///
/// `OutOfMemory` if an allocation fails.
#[tactic(auto, using(crate::proofs::Files::dir_step, crate::proofs::Files::dirs_end))]
pub fn write_dirs(alloc: Global, server: &MapServer, out: &mut Vec<u8>) -> Result<(), OutOfMemory>
    ensures { OnOk result (out.new.items ≡ out.old.items ++ dir_lines server.now.now.state.machine.tree) }
{
    for k in 0..server.dir_count() {
        write_dir_at(alloc, server, k, out)?;
    }
    Ok(())
}
