//! Writes the files and directories that a machine has.
ghost use Rattle.std.specs.Prelude.{◌≡◌, ◌++◌, OnOk};
ghost use Rattle.machine_model.specs.Listing.{dir_at, file_at};
ghost use Rattle.script_text.specs.Texts.{dir_lines, file_lines};
ghost use Rattle.program_shell.specs.Texts.{dir_text_of, file_text_of};

use crate::Machine;
use script_text::{write_dir, write_file};
use ssh_encoding::OutOfMemory;
use std::alloc::Global;

/// Appends the line of file k.
fn write_file_at(
    alloc: Global,
    machine: &Machine,
    k: u64,
    out: &mut Vec<u8>,
) -> Result<(), OutOfMemory>
    ensures { OnOk result (out.new.items ≡ out.old.items ++ file_text_of (file_at machine.now.tree k)) }
{
    match machine.file(k) {
        Some((name, content)) => write_file(alloc, name, content, out),
        None => Ok(()),
    }
}

/// Appends a line for each file, sorted by the bytes of the written names. Fails only if an allocation fails.
#[tactic(auto, using(program_shell::proofs::Files::file_step, program_shell::proofs::Files::files_end))]
pub(crate) fn write_files(
    alloc: Global,
    machine: &Machine,
    out: &mut Vec<u8>,
) -> Result<(), OutOfMemory>
    ensures { OnOk result (out.new.items ≡ out.old.items ++ file_lines machine.now.tree) }
{
    for k in 0..machine.file_count() {
        write_file_at(alloc, machine, k, out)?;
    }
    Ok(())
}

/// Appends the line of directory k.
fn write_dir_at(
    alloc: Global,
    machine: &Machine,
    k: u64,
    out: &mut Vec<u8>,
) -> Result<(), OutOfMemory>
    ensures { OnOk result (out.new.items ≡ out.old.items ++ dir_text_of (dir_at machine.now.tree k)) }
{
    match machine.dir(k) {
        Some(name) => write_dir(alloc, name, out),
        None => Ok(()),
    }
}

/// Appends a line for each directory, sorted by the bytes of the written names. Fails only if an allocation fails.
#[tactic(auto, using(program_shell::proofs::Files::dir_step, program_shell::proofs::Files::dirs_end))]
pub(crate) fn write_dirs(
    alloc: Global,
    machine: &Machine,
    out: &mut Vec<u8>,
) -> Result<(), OutOfMemory>
    ensures { OnOk result (out.new.items ≡ out.old.items ++ dir_lines machine.now.tree) }
{
    for k in 0..machine.dir_count() {
        write_dir_at(alloc, machine, k, out)?;
    }
    Ok(())
}
