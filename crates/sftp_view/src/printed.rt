//! Does the operations of a list over a server in memory, and makes the text of their answers.
ghost use Rattle.std.specs.Prelude.{◌≡◌, [], IfErr, IfOk};
ghost use Rattle.sftp_model.specs.declared.error.Error.TheVariants as error;
ghost use Rattle.session_driver.specs.Logs.{EndsAs};
ghost use Rattle.session_model.specs.Journals.{IsJournal};
ghost use Rattle.sftp_lanes.specs.Seen.{session_inputs};
ghost use Rattle.sftp_map_server.specs.Unopened.{IsUnopened};
ghost use Rattle.sftp_view.specs.Doings.{one_lane};
ghost use Rattle.sftp_view.specs.Printed.{IsServedView, view_text};
ghost use Rattle.sftp_view.specs.Views.{MayView};

use crate::run::{ViewReport, run_view};
use program_shell::{out_of_memory_from, write_dirs, write_files};
use sftp_map_server::MapServer;
use sftp_model::SftpOptions;
use ssh_encoding::OutOfMemory;
use std::alloc::Global;
use view_model::{CacheSize, ViewOp, write_view};

/// Does operations over a server to which nothing was sent. Fails only if an allocation fails.
#[tactic(auto, using(crate::proofs::Running::served_view))]
pub(crate) fn view_served(
    alloc: Global,
    server: &mut MapServer,
    size: CacheSize,
    ops: &[ViewOp],
    options: &SftpOptions,
) -> Result<ViewReport, OutOfMemory>
    requires may { MayView size.block size.capacity ops.now }
    requires unopened { IsUnopened server.old.first }
    requires quiet { server.old.log ≡ [] }
    ensures run { IfOk result (λ report. IsServedView size ops.now options.now server.new report) }
    ensures stops { IfErr result (λ e. EndsAs (session_inputs one_lane options.now) IsJournal server.new.ended error.OutOfMemory [] server.new.log) }
    ensures first { server.new.first ≡ server.old.first }
{
    let result = run_view(alloc, server, ops, size.block, size.capacity, options);
    // For the contract: its log is that of a server.
    let _ended = server.is_ended();
    match result {
        Ok(report) => Ok(report),
        Err(error) => Err(out_of_memory_from(error)),
    }
}

/// Returns the text of the answer to each operation, the hits and misses, and the files and directories that a server
/// has.
pub(crate) fn view_text(
    alloc: Global,
    report: &ViewReport,
    server: &MapServer,
) -> Result<Vec<u8>, OutOfMemory>
    ensures { IfOk result (λ text. text.items ≡ view_text report.now server.now.now.state.machine.tree) }
{
    let mut text = Vec::new(alloc);
    write_view(
        alloc,
        report.answers.as_slice(),
        report.hits,
        report.misses,
        &mut text,
    )?;
    write_files(alloc, server, &mut text)?;
    write_dirs(alloc, server, &mut text)?;
    Ok(text)
}
