//! Makes one tree like another.
ghost use Rattle.std.specs.Prelude.{◌≡◌};
ghost use Rattle.transfer_pool.specs.Sessions.{IsGoing};

use crate::connection::is_lost;
use crate::courier::Courier;
use crate::ended::{Reach, ended_by};
use crate::listing::without_output;
use crate::local_side::attrs_of;
use crate::patterns::filter_of;
use crate::planned::{tell_conflicts, write_plan};
use crate::sources::copied;
use crate::transfer_error::{TransferError, is_starved, tell, tell_of};
use crate::tree::{Reading, Side};
use crate::work::has_target;
use sftp_link::Link;
use sftp_model::{Error, FileAttrs};
use sftp_values::ByteText;
use std::alloc::Global;
use std::fs;
use std::io::ErrorKind;
use transfer_args::{Changed as ChangedBy, Direction, Mirror};
use transfer_filter::Filter;
use transfer_plan::Walk;
use transfer_remote::{RemoteError, remote_metadata};
use transfer_sync::{Changed, Listing, Plan, PlanError, Roots, Rules, make_plan, run_plan};

/// The status with which a server says that a path does not exist (draft-ietf-secsh-filexfer-02, section 7).
const NO_SUCH_FILE: u32 = 2;

/// Returns true if the local side lets one tree be made like another: the patterns can be used, the directory that is
/// copied exists, and the target is a directory or can be created in one. Otherwise reports the reason.
pub(crate) fn can_mirror(rt: &HostRuntime, mirror: &Mirror<'_>) -> bool {
    if filter_of(rt, &mirror.patterns).is_none() {
        return false;
    }
    match mirror.way {
        Direction::Get => has_target(rt, mirror.to, false),
        Direction::Put => match fs::metadata(rt, mirror.from) {
            Ok(metadata) if metadata.is_dir() => true,
            Ok(_) => {
                tell(rt, mirror.from, &TransferError::Refused("not a directory"));
                false
            }
            Err(e) => {
                tell(rt, mirror.from, &TransferError::from(e));
                false
            }
        },
    }
}

/// Returns the rules of a command line. Nothing is removed unless both trees were read as a whole.
fn rules_of(mirror: &Mirror<'_>, whole: bool) -> Rules {
    Rules {
        delete: mirror.rules.delete && whole,
        changed: match mirror.rules.changed {
            ChangedBy::SizeOrTime => Changed::SizeOrTime,
            ChangedBy::Size => Changed::Size,
            ChangedBy::Always => Changed::Always,
        },
        only_newer: mirror.rules.update,
        keep: mirror.options.preserve,
        max_delete: Some(u64::from(mirror.rules.delete_at_most)),
    }
}

/// Returns the reason why a local directory that is no directory can't be used.
fn no_directory() -> TransferError {
    TransferError::Refused("not a directory")
}

/// The trees that are compared.
#[derive(Drop)]
struct Trees {
    roots: Roots,
    source: Listing,
    /// The entries of the target. There are none if nothing has its path.
    target: Listing,
}

/// Returns the listing of an empty directory.
fn empty_listing(alloc: Global) -> Result<Listing, TransferError> {
    match Listing::new(alloc, Vec::new(alloc), true) {
        Ok(listing) => Ok(listing),
        Err(_) => Err(TransferError::OutOfMemory),
    }
}

/// Returns the directories that are made alike, where the source has these attributes, and `is_new` is true if nothing
/// has the path of the target.
fn roots_of(
    alloc: Global,
    mirror: &Mirror<'_>,
    attrs: FileAttrs,
    is_new: bool,
) -> Result<Roots, TransferError> {
    Ok(Roots {
        from: ByteText::new(copied(alloc, mirror.from.as_bytes())?),
        to: ByteText::new(copied(alloc, mirror.to.as_bytes())?),
        attrs,
        is_new,
    })
}

impl<'a, L: Link> Courier<'a, L> {
    /// Returns the attributes of a directory on one side, or `None` if nothing has the path. A symbolic link is
    /// followed.
    ///
    /// # Errors
    ///
    /// A `TransferError` if something else has the path or it can't be examined.
    fn root_attrs(&mut self, side: Side, path: &str) -> Result<Option<FileAttrs>, TransferError>
        requires { IsGoing L.LinkState.state self.old.sftp }
        ensures { IsGoing L.LinkState.state self.new.sftp }
    {
        match side {
            Side::Here => match fs::metadata(self.rt, path) {
                Ok(metadata) if metadata.is_dir() => Ok(Some(attrs_of(&metadata))),
                Ok(_) => Err(no_directory()),
                Err(e) if e.kind() == ErrorKind::NotFound => Ok(None),
                Err(e) => Err(e.into()),
            },
            Side::There => {
                match remote_metadata(self.rt.alloc(), &mut self.sftp, path.as_bytes()) {
                    Ok(metadata) if metadata.file_type().is_some_and(|kind| kind.is_dir()) => {
                        Ok(Some(metadata.into_inner()))
                    }
                    Ok(_) => Err(no_directory()),
                    Err(
                        RemoteError::Remote(
                            Error::SftpError {
                                code: NO_SUCH_FILE,
                                ..
                            },
                        ),
                    ) => Ok(None),
                    Err(e) => Err(e.into()),
                }
            }
        }
    }

    /// Returns the attributes of the source's directory.
    ///
    /// # Errors
    ///
    /// A `TransferError` if there is none, something else has its path or it can't be examined.
    fn source_attrs(&mut self, mirror: &Mirror<'_>) -> Result<FileAttrs, TransferError>
        requires { IsGoing L.LinkState.state self.old.sftp }
        ensures { IsGoing L.LinkState.state self.new.sftp }
    {
        match self.root_attrs(Side::source_of(self.manner.way), mirror.from)? {
            Some(attrs) => Ok(attrs),
            None => Err(TransferError::Refused("no such directory")),
        }
    }

    /// Reads the source, whose directory has these attributes.
    ///
    /// # Errors
    ///
    /// A `TransferError` if the walk can't continue or the session failed.
    fn read_source(
        &mut self,
        mirror: &Mirror<'_>,
        attrs: FileAttrs,
        filter: &mut Filter,
        reading: &mut Reading,
    ) -> Result<Listing, TransferError>
        requires { IsGoing L.LinkState.state self.old.sftp }
        ensures { IsGoing L.LinkState.state self.new.sftp }
    {
        let texts = self.manner.way == Direction::Get;
        let walk = Walk::new(self.rt.alloc(), mirror.from.as_bytes(), b"", attrs, texts)?;
        self.source_tree(walk, filter, mirror.rules.shard, reading)
    }

    /// Reads the target, whose directory has these attributes, or `None` if nothing has its path.
    ///
    /// # Errors
    ///
    /// A `TransferError` if the walk can't continue or the session failed.
    fn read_target(
        &mut self,
        mirror: &Mirror<'_>,
        attrs: Option<FileAttrs>,
        filter: &mut Filter,
        source: &Listing,
        reading: &mut Reading,
    ) -> Result<Listing, TransferError>
        requires { IsGoing L.LinkState.state self.old.sftp }
        ensures { IsGoing L.LinkState.state self.new.sftp }
    {
        let alloc = self.rt.alloc();
        let Some(attrs) = attrs else {
            return empty_listing(alloc);
        };
        let walk = Walk::new(alloc, mirror.to.as_bytes(), b"", attrs, false)?;
        self.target_tree(walk, filter, mirror.rules.shard, source, reading)
    }

    /// Reads both trees. If that fails, the reason is reported, and the result of the run is returned.
    fn read_trees(
        &mut self,
        mirror: &Mirror<'_>,
        filter: &mut Filter,
        reading: &mut Reading,
    ) -> Result<Trees, Reach>
        requires { IsGoing L.LinkState.state self.old.sftp }
        ensures { IsGoing L.LinkState.state self.new.sftp }
    {
        let (from, to) = (mirror.from.as_bytes(), mirror.to.as_bytes());
        let attrs = match self.source_attrs(mirror) {
            Ok(attrs) => attrs,
            Err(reason) => return Err(self.stopped(from, &reason)),
        };
        let source = match self.read_source(mirror, attrs, filter, reading) {
            Ok(source) => source,
            Err(reason) => return Err(self.stopped(from, &reason)),
        };
        let found = match self.root_attrs(Side::target_of(self.manner.way), mirror.to) {
            Ok(found) => found,
            Err(reason) => return Err(self.stopped(to, &reason)),
        };
        let roots = match roots_of(self.rt.alloc(), mirror, attrs, found.is_none()) {
            Ok(roots) => roots,
            Err(reason) => return Err(self.stopped(to, &reason)),
        };
        match self.read_target(mirror, found, filter, &source, reading) {
            Ok(target) => Ok(Trees {
                roots,
                source,
                target,
            }),
            Err(reason) => Err(self.stopped(to, &reason)),
        }
    }

    /// Reports why the run stopped, and returns its result.
    fn stopped(&mut self, path: &[u8], reason: &TransferError) -> Reach
        ensures { self.new.sftp ≡ self.old.sftp }
    {
        tell_of(self.rt, path, reason);
        ended_by(is_starved(reason), is_lost(&mut self.sftp), false, false)
    }
}

/// Reports why there is no plan, and returns the result of the run.
fn without_plan<L: Link>(
    courier: &mut Courier<'_, L>,
    mirror: &Mirror<'_>,
    error: PlanError,
) -> Reach {
    match error {
        PlanError::OutOfMemory => {
            courier.stopped(mirror.to.as_bytes(), &TransferError::OutOfMemory)
        }
        PlanError::TooManyRemovals(removals) => {
            let most = mirror.rules.delete_at_most;
            let to = mirror.to;
            let _ = eprintln!(courier.rt;
                "sftp_transfer: {to}: nothing was done: {removals} entries would be removed, and --delete-at-most is {most}"
            );
            Reach::NotDone
        }
    }
}

/// Carries out a plan, and returns the result of the run, where `complete` is true if the plan leaves nothing out.
fn carry_out_plan<L: Link>(
    courier: &mut Courier<'_, L>,
    roots: &Roots,
    source: &Listing,
    plan: &Plan,
    complete: bool,
) -> Reach
    requires { IsGoing L.LinkState.state courier.old.sftp }
{
    courier.is_root_followed = true;
    courier.replaces_links = true;
    let alloc = courier.rt.alloc();
    let number = courier.run;
    let Ok(all_done) = run_plan(alloc, courier, roots, source, plan, number.as_bytes()) else {
        return courier.stopped(roots.to.as_slice(), &TransferError::OutOfMemory);
    };
    courier.tell_end(true);
    let is_lost = is_lost(&mut courier.sftp);
    ended_by(courier.totals.starved, is_lost, complete, all_done)
}

/// Makes one tree like another, or shows how, and returns the result.
pub(crate) fn mirror_trees<L: Link>(courier: &mut Courier<'_, L>, mirror: &Mirror<'_>) -> Reach
    requires { IsGoing L.LinkState.state courier.old.sftp }
{
    let rt = courier.rt;
    let Some(mut filter) = filter_of(rt, &mirror.patterns) else {
        return Reach::NotDone;
    };
    let mut reading = Reading {
        whole: true,
        skips: false,
    };
    let Trees {
        roots,
        source,
        target,
    } = match courier.read_trees(mirror, &mut filter, &mut reading) {
        Ok(trees) => trees,
        Err(reach) => return reach,
    };
    if mirror.rules.delete && !reading.whole {
        let _ = eprintln!(rt; "sftp_transfer: nothing is removed, since not everything was listed");
    }
    let plan = match make_plan(
        rt.alloc(),
        rules_of(mirror, reading.whole),
        &source,
        &target,
    ) {
        Ok(plan) => plan,
        Err(error) => return without_plan(courier, mirror, error),
    };
    tell_conflicts(rt, &plan);
    let complete = reading.whole && !reading.skips && plan.conflicts.is_empty();
    if !mirror.rules.dry_run {
        return carry_out_plan(courier, &roots, &source, &plan, complete);
    }
    match write_plan(rt, &plan, roots.is_new) {
        Ok(()) => ended_by(false, false, complete, true),
        Err(error) => without_output(rt, error),
    }
}
