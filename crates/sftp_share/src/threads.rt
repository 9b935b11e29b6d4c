//! Runs the lanes of a script in threads over the two halves of its server.
ghost use Rattle.std.specs.Prelude.{◌≡◌, IfErr, IfOk, OnOk, true};
ghost use Rattle.script_grammar.specs.CanRun.{CanRun};
ghost use Rattle.machine_halves.specs.Halves.{IsNewHalf};
ghost use Rattle.sftp_share.specs.Shared.{HasRun, HasStopped, StoppedOver};

use machine_halves::Pair;
use program_shell::new_server_of;
use script_grammar::Script;
use session_threads::run_shared;
use sftp_tasks::{Error, SharedReport};
use std::alloc::Global;
use std::sync::Wait;
use std::thread::Threads;
use std::time::Clock;

/// Runs the lanes of a script over two halves, and returns these to the pair, whether or not the run succeeded. The
/// errors are those of `run_shared`.
fn run_over<P: Pair<R>, R: Threads + Wait + Clock + Sync>(
    rt: &R,
    alloc: Global,
    script: &Script,
    pair: &mut P,
    out: P::Out,
    input: P::In,
) -> Result<SharedReport, Error>
    requires script { CanRun script.now }
    requires halves { IsNewHalf (P.Out.LinkState.state out) × IsNewHalf (P.In.LinkState.state input) }
    ensures ok { IfOk result (λ report. HasRun (P.Out.LinkState.Service) (P.In.LinkState.Service) (P.last pair.new) script.now report) }
    ensures err { IfErr result (λ e. StoppedOver (P.Out.LinkState.Service) (P.In.LinkState.Service) (P.last pair.new) script.now e) }
{
    let lanes = script.lanes.as_slice();
    let (result, out, input) = run_shared(rt, alloc, out, input, lanes, &script.options);
    pair.put_back(out, input);
    result
}

/// Runs the lanes of a script over the halves that a pair returns for the script's server, and returns these to the
/// pair, whether or not the run succeeded. The errors are those of `run_shared`. If an allocation fails for the server
/// or its halves, the pair is unchanged.
pub(crate) fn run_lanes<P: Pair<R>, R: Threads + Wait + Clock + Sync>(
    rt: &R,
    alloc: Global,
    script: &Script,
    pair: &mut P,
) -> Result<SharedReport, Error>
    requires { CanRun script.now }
    ensures ok { IfOk result (λ report. HasRun (P.Out.LinkState.Service) (P.In.LinkState.Service) (P.last pair.new) script.now report) }
    ensures err { IfErr result (λ e. HasStopped (P.Out.LinkState.Service) (P.In.LinkState.Service) (P.last pair.old) (P.last pair.new) script.now e) }
{
    let Ok(server) = new_server_of(alloc, script) else {
        return Err(Error::OutOfMemory);
    };
    let Ok((out, input)) = pair.split(rt, alloc, server) else {
        return Err(Error::OutOfMemory);
    };
    run_over(rt, alloc, script, pair, out, input)
}
