//! Runs lanes over a server in memory, and makes the text of the run.
ghost use Rattle.std.specs.Prelude.{◌≡◌, [], true, IfErr, IfOk};
ghost use Rattle.sftp_model.specs.declared.error.Error.TheVariants as error;
ghost use Rattle.machine_model.specs.Listing.{file_at};
ghost use Rattle.plan_model.specs.Lanes.{are_ok};
ghost use Rattle.session_driver.specs.Logs.{EndsSession};
ghost use Rattle.sftp_lanes.specs.Seen.{session_inputs};
ghost use Rattle.sftp_map_server.specs.Unopened.{IsUnopened};
ghost use Rattle.sftp_cli.specs.declared.printed.Form.TheVariants as form;
ghost use Rattle.sftp_cli.specs.Printed.{IsServedReport, bytes_left, file_len_of, report_text};

use crate::{summary_of, write_summary};
use program_shell::{out_of_memory_from, write_dirs, write_files};
use script_text::write_text;
use session_model::{Lane, Report, Turn};
use sftp_lanes::run_lanes;
use sftp_map_server::MapServer;
use sftp_model::SftpOptions;
use ssh_encoding::OutOfMemory;
use std::alloc::Global;

/// The form of the text of a run.
///
/// Used in `crates/sftp_cli/src/run.rt`.
#[derive(Clone, Copy, Debug, PartialEq, Eq)]
pub enum Form {
    /// The frames, the outcomes, and the files and directories that are left.
    Whole,
    /// The numbers of these.
    Summary,
}

/// Runs lanes over a server to which nothing was sent.
#[tactic(auto, using(crate::proofs::Running::served_report))]
pub(crate) fn served_run(
    alloc: Global,
    server: &mut MapServer,
    lanes: &[Lane],
    turns: &[Turn],
    options: &SftpOptions,
) -> Result<Report, OutOfMemory>
    requires lanes { are_ok lanes.now ≡ true }
    requires unopened { IsUnopened server.old.first }
    requires quiet { server.old.log ≡ [] }
    ensures run { IfOk result (λ report. IsServedReport lanes.now options.now turns.now server.new report) }
    ensures stops { IfErr result (λ e. EndsSession (session_inputs lanes.now options.now) turns.now server.new.ended error.OutOfMemory [] server.new.log) }
    ensures first { server.new.first ≡ server.old.first }
{
    let result = run_lanes(alloc, server, lanes, turns, options);
    // For the contract: its log is that of a server.
    let _ended = server.is_ended();
    match result {
        Ok(report) => Ok(report),
        Err(error) => Err(out_of_memory_from(error)),
    }
}

/// Returns the size of file k in bytes.
fn file_len_at(server: &MapServer, k: u64) -> u64
    ensures { result ≡ file_len_of (file_at server.now.now.state.machine.tree k) }
{
    match server.file(k) {
        Some((_, content)) => content.len() as u64,
        None => 0,
    }
}

/// Returns the total size of all files in bytes, or the greatest number of 64 bits if it is more.
#[tactic(auto, using(crate::proofs::Files::len_step, crate::proofs::Files::lens_end))]
fn bytes_left(server: &MapServer) -> u64
    ensures { result ≡ bytes_left server.now.now.state.machine.tree }
{
    let mut count: u64 = 0;
    for k in 0..server.file_count() {
        count = count.saturating_add(file_len_at(server, k));
    }
    count
}

/// Returns the text of the numbers of a report, and of the files that a server has.
fn summary_with_files(
    alloc: Global,
    report: &Report,
    server: &MapServer,
) -> Result<Vec<u8>, OutOfMemory>
    ensures { IfOk result (λ text. text.items ≡ report_text form.Summary report.now server.now.now.state.machine.tree) }
{
    let summary = summary_of(report, server.file_count(), bytes_left(server));
    let mut text = Vec::new(alloc);
    write_summary(&summary, &mut text)?;
    Ok(text)
}

/// Returns the text of the frames and outcomes of a report, and of the files and directories that a server has.
fn text_with_files(
    alloc: Global,
    report: &Report,
    server: &MapServer,
) -> Result<Vec<u8>, OutOfMemory>
    ensures { IfOk result (λ text. text.items ≡ report_text form.Whole report.now server.now.now.state.machine.tree) }
{
    let mut text = Vec::new(alloc);
    write_text(alloc, report, &mut text)?;
    write_files(alloc, server, &mut text)?;
    write_dirs(alloc, server, &mut text)?;
    Ok(text)
}

/// Returns the text of a report, and of the files and directories that a server has.
pub(crate) fn report_text(
    alloc: Global,
    form: Form,
    report: &Report,
    server: &MapServer,
) -> Result<Vec<u8>, OutOfMemory>
    ensures { IfOk result (λ text. text.items ≡ report_text form report.now server.now.now.state.machine.tree) }
{
    match form {
        Form::Whole => text_with_files(alloc, report, server),
        Form::Summary => summary_with_files(alloc, report, server),
    }
}
