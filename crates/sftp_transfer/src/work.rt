//! The work that is done over a link.
ghost use Rattle.std.specs.Prelude.{◌≡◌, ◌<◌, ◌-◌, ◌^◌};
ghost use Rattle.transfer_pool.specs.Sessions.{IsGoing};

use crate::acts::Worker;
use crate::batch::Totals;
use crate::connection::{Connection, is_lost};
use crate::copy::{Kept, Manner};
use crate::courier::Courier;
use crate::ended::{Reach, ended_by};
use crate::listing::list;
use crate::local_side::{folder_of, is_folder, make_local_folder};
use crate::mirror::mirror_trees;
use crate::run_number::RunNumber;
use crate::slowed::Slowed;
use crate::transfer_error::{TransferError, is_starved, tell, tell_of};
use crate::verdicts::Verdicts;
use sftp_client::Sftp;
use sftp_link::Link;
use sftp_model::{Error, SftpOptions};
use std::fs;
use transfer_args::{Direction, Mirror, Options, Transfer, Work};
use transfer_plan::{Found, carry_out, keep_apart};
use transfer_remote::{make_remote_folder, remote_metadata};

/// Returns true if the local side lets a transfer start: it has a source for an upload, and a directory for a download.
/// Otherwise reports the reason.
pub(crate) fn can_begin(rt: &HostRuntime, transfer: &Transfer<'_>) -> bool {
    match transfer.way {
        Direction::Put => has_source(rt, &transfer.sources),
        Direction::Get => has_target(rt, transfer.target, transfer.sources.len() > 1),
    }
}

/// Returns true if one of the sources exists. If none does, the reason is reported for each.
fn has_source(rt: &HostRuntime, sources: &[&str]) -> bool {
    for source in sources {
        if fs::metadata(rt, *source).is_ok() {
            return true;
        }
    }
    for source in sources {
        if let Err(e) = fs::metadata(rt, *source) {
            tell(rt, source, &TransferError::from(e));
        }
    }
    false
}

/// Returns true if a target is a directory, or can be created in one. With several sources, a missing target directory
/// is created. The reason for a failure is reported.
pub(crate) fn has_target(rt: &HostRuntime, target: &str, several: bool) -> bool {
    if is_folder(rt, target) {
        return true;
    }
    let made = if several {
        make_local_folder(rt, target, None, true)
    } else {
        match fs::metadata(rt, folder_of(target)) {
            Ok(_) => Ok(()),
            Err(e) => Err(e),
        }
    };
    match made {
        Ok(()) => true,
        Err(e) => {
            tell(rt, target, &TransferError::from(e));
            false
        }
    }
}

/// Returns a worker that has done nothing.
fn new_courier<'a, L>(
    rt: &'a HostRuntime,
    sftp: Sftp<L>,
    run: RunNumber,
    manner: Manner,
) -> Courier<'a, L>
    ensures { result.sftp ≡ sftp }
{
    Courier {
        rt,
        sftp,
        run,
        manner,
        is_root_followed: false,
        replaces_links: false,
        totals: Totals {
            files: 0,
            bytes: 0,
            removed: 0,
            starved: false,
        },
        verdicts: Verdicts::none(rt.alloc()),
    }
}

/// Returns the number of a new run. If the system has none, the reason is reported.
fn run_number(rt: &HostRuntime) -> Option<RunNumber> {
    match RunNumber::random(rt) {
        Ok(run) => Some(run),
        Err(e) => {
            tell(rt, "the number of the run", &TransferError::from(e));
            None
        }
    }
}

/// Copies files over a session, and returns the result.
fn copy_over<L: Connection + Drop>(
    rt: &HostRuntime,
    sftp: Sftp<L>,
    transfer: &Transfer<'_>,
) -> Reach
    requires { IsGoing L.LinkState.state sftp }
{
    let Some(run) = run_number(rt) else {
        return Reach::NotDone;
    };
    let manner = Manner {
        way: transfer.way,
        options: transfer.options,
        kept: if transfer.options.preserve {
            Kept::All
        } else {
            Kept::Nothing
        },
    };
    let mut courier = new_courier(rt, sftp, run, manner);
    let reach = copy(&mut courier, transfer);
    courier.sftp.link().report(rt, transfer.options.timeout);
    reach
}

/// Makes one tree like another over a session, and returns the result. Files are given the times of their sources, by
/// which the next run knows that they did not change. If a lost connection is to be made again, parts stay, and are
/// continued.
fn mirror_over<L: Connection + Drop>(rt: &HostRuntime, sftp: Sftp<L>, mirror: &Mirror<'_>) -> Reach
    requires { IsGoing L.LinkState.state sftp }
{
    let Some(run) = run_number(rt) else {
        return Reach::NotDone;
    };
    let resume = mirror.options.resume || mirror.rules.again > 0;
    let manner = Manner {
        way: mirror.way,
        options: Options {
            resume,
            ..mirror.options
        },
        kept: if mirror.options.preserve {
            Kept::All
        } else {
            Kept::Times
        },
    };
    let mut courier = new_courier(rt, sftp, run, manner);
    let reach = mirror_trees(&mut courier, mirror);
    courier.sftp.link().report(rt, mirror.options.timeout);
    reach
}

/// Reports that there is no session, and returns the result. `advice` is added if the server does not speak the
/// protocol.
fn without_session<L: Connection>(
    rt: &HostRuntime,
    error: Error,
    link: &L,
    seconds: u32,
    advice: Option<&str>,
) -> Reach {
    let is_lost = match error {
        Error::LinkFault | Error::LinkEnded => true,
        _ => false,
    };
    let is_other = match error {
        Error::FormatError(_) => true,
        _ => false,
    };
    let reason = TransferError::from(error);
    tell(rt, "the session", &reason);
    if let (Some(advice), true) = (advice, is_other) {
        let _ = eprintln!(rt; "sftp_transfer: {advice}");
    }
    link.report(rt, seconds);
    ended_by(is_starved(&reason), is_lost, false, false)
}

/// Does the requested work over a link, which is dropped at the end, and returns the result. `advice` is added if the
/// server does not speak the protocol.
pub(crate) fn over<L: Connection + Drop>(
    rt: &HostRuntime,
    link: L,
    work: &Work<'_>,
    advice: Option<&str>,
) -> Reach
    requires { (L.LinkState.state link).faults < 2 ^ 64 - 1 }
{
    let seconds = work.timeout();
    let link = Slowed::new(rt, link, work.rate());
    match Sftp::new(rt.alloc(), link, &SftpOptions::new()) {
        Ok(sftp) => match work {
            Work::Copy(transfer) => copy_over(rt, sftp, transfer),
            Work::Mirror(mirror) => mirror_over(rt, sftp, mirror),
            Work::Act(job) => {
                let mut worker = Worker::new(rt, sftp);
                let reach = worker.act(&job.act);
                worker.sftp.link().report(rt, seconds);
                reach
            }
            Work::List(listing) => {
                let mut sftp = sftp;
                let reach = list(rt, &mut sftp, listing);
                sftp.link().report(rt, seconds);
                reach
            }
        },
        Err((e, link)) => without_session(rt, e, &link, seconds, advice),
    }
}

/// Returns true if the sources go into the target: it is a directory, or there are several sources. The directory is
/// created if it doesn't exist.
fn goes_into<L: Link>(
    courier: &mut Courier<'_, L>,
    transfer: &Transfer<'_>,
) -> Result<bool, TransferError>
    requires { IsGoing L.LinkState.state courier.old.sftp }
    ensures { IsGoing L.LinkState.state courier.new.sftp }
{
    let several = transfer.sources.len() > 1;
    match transfer.way {
        Direction::Get => Ok(several || is_folder(courier.rt, transfer.target)),
        Direction::Put => {
            let target = transfer.target.as_bytes();
            match remote_metadata(courier.rt.alloc(), &mut courier.sftp, target) {
                Ok(metadata) if metadata.file_type().is_some_and(|kind| kind.is_dir()) => Ok(true),
                _ if several => {
                    match make_remote_folder(courier.rt.alloc(), &mut courier.sftp, target, None) {
                        Ok(()) => Ok(true),
                        Err(e) => Err(e.into()),
                    }
                }
                Ok(metadata) if metadata.file_type().is_some_and(|kind| !kind.is_file()) => Err(
                    TransferError::Refused("not replaced: it is neither a file nor a directory"),
                ),
                _ => Ok(false),
            }
        }
    }
}

/// Copies files, and returns the result.
fn copy<L: Link>(courier: &mut Courier<'_, L>, transfer: &Transfer<'_>) -> Reach
    requires { IsGoing L.LinkState.state courier.old.sftp }
{
    let into = match goes_into(courier, transfer) {
        Ok(into) => into,
        Err(reason) => {
            tell_of(courier.rt, transfer.target.as_bytes(), &reason);
            let is_lost = is_lost(&mut courier.sftp);
            return ended_by(is_starved(&reason), is_lost, false, false);
        }
    };
    courier.is_root_followed = !into;
    let Some(gathered) = courier.gather(&transfer.sources, transfer.target, into) else {
        return ended_by(
            courier.totals.starved,
            is_lost(&mut courier.sftp),
            false,
            false,
        );
    };
    let several = gathered.jobs.len() > 1;
    let carried = carry_jobs(courier, gathered.jobs, transfer.options.preserve);
    courier.tell_end(several);
    match carried {
        Some(all_done) => {
            let is_lost = is_lost(&mut courier.sftp);
            ended_by(courier.totals.starved, is_lost, gathered.complete, all_done)
        }
        None => Reach::OutOfMemory,
    }
}

/// Does jobs, and returns true if all were done, or `None` if an allocation failed. With `keeps` the directories that
/// were created are given their permissions and times.
pub(crate) fn carry_jobs<L: Link>(
    courier: &mut Courier<'_, L>,
    jobs: Vec<Found>,
    keeps: bool,
) -> Option<bool>
    requires { IsGoing L.LinkState.state courier.old.sftp }
    ensures { IsGoing L.LinkState.state courier.new.sftp }
{
    let alloc = courier.rt.alloc();
    let number = courier.run;
    let run = number.as_bytes();
    let Ok(jobs) = keep_apart(alloc, jobs, run) else {
        return None;
    };
    match carry_out(alloc, courier, &jobs, run, keeps) {
        Ok(tally) => Some(tally.all_done()),
        Err(_) => None,
    }
}
