//! The command line program of Tilfrjon.
#![tactic(auto)]

mod answer;
mod bulk;
mod bulk_laws;
mod content;
mod drawn_script;
mod draws;
mod kind;
mod laws;
mod printed;
mod refused;
mod run;
mod script;
mod summary;
mod text;

pub use bulk_laws::{
    bulk_lanes_are_ok, bulk_scripts_are_whole, bulk_servers_may_begin, traces_keep_requests,
};
pub use drawn_script::bulk_script;
pub use laws::{
    runs_are_complete, scripts_fix_texts, servers_in_memory_serve_files, statuses_have_causes,
};
use link_duplex::{DuplexDial, StandardStreams};
use program_shell::{OUT_OF_MEMORY, exit_over, exit_with, words_given};
pub use run::run;
pub use script_grammar::Script;
pub use session_model::Report;
use sftp_link::{ReadSource, WriteSink};
use ssh_encoding::OutOfMemory;
use std::process::ExitCode;
pub use summary::{Summary, summary_of};
pub use text::write_summary;

fn main(rt: HostRuntime) -> ExitCode {
    let words = match words_given(&rt) {
        Ok(words) => words,
        Err(OutOfMemory) => return exit_with(&rt, "sftp_cli", OUT_OF_MEMORY),
    };
    let server = answer::server_of(&words);
    let timeout = match server {
        Some(server) => server.timeout(),
        None => None,
    };
    let _streams = StandardStreams::keep(&rt);
    let mut source = ReadSource::new(rt.stdin());
    let mut sink = WriteSink::new(rt.stdout());
    let mut dial = DuplexDial::new(&rt, rt.alloc(), timeout);
    let mut kept = None;
    let status = run(
        rt.alloc(),
        &words,
        &mut source,
        &mut sink,
        &mut dial,
        &mut kept,
    );
    if status == refused::REFUSED {
        refused::tell_refused(&rt, &words);
    }
    match server {
        Some(server) => exit_over(&rt, "sftp_cli", status, server, dial.is_silent()),
        None => exit_with(&rt, "sftp_cli", status),
    }
}
