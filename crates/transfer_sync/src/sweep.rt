//! The entries that are removed from the target.
ghost use Rattle.std.specs.Prelude.{◌≡◌, ◌++◌, ◌∷◌, [], IfOk, OnOk};
ghost use Rattle.std.specs.Option.{option_copied};
ghost use Rattle.transfer_sync.specs.PathMaps.{path_set};
ghost use Rattle.transfer_sync.specs.Paths.{directory_of, with_path};
ghost use Rattle.transfer_sync.specs.Sweeps.{IsSweepOf};
ghost use Rattle.transfer_sync.specs.Verdicts.{SweepValue, is_in_source, stays_in_target, sweep_of, sweep_step};
ghost use Rattle.transfer_sync.specs.Actions.{removal_action};

use crate::action::{Action, Step};
use crate::entry::Entry;
use crate::listing::Listing;
use crate::paths::{PathSet, directory_of};
use crate::rules::Rules;
use crate::verdict::{is_directory, is_same_kind};
use sftp_values::ByteText;
use std::alloc::{AllocError, Global};

/// The state of a sweep over the target, which goes from its last entry to its first.
#[derive(Drop)]
pub(crate) struct Sweep {
    /// The directories in which something stays.
    pub(crate) kept: PathSet,
    /// The paths that are removed.
    pub(crate) gone: PathSet,
    /// The removals, in order.
    pub(crate) removals: Vec<Action>,
}

/// Returns true if the source has something of the same kind at the path of an entry, which is not excluded.
fn is_in_source(source: Option<&Entry>, entry: &Entry) -> bool
    ensures { result ≡ is_in_source (option_copied source.entry) entry.now }
{
    match source {
        Some(found) => !found.excluded && is_same_kind(&found.kind, &entry.kind),
        None => false,
    }
}

/// Returns true if an entry of the target stays.
fn stays_in_target(rules: Rules, source: &Listing, kept: &PathSet, entry: &Entry) -> bool
    ensures { result ≡ stays_in_target rules source.now.entries (path_set kept.now) entry.now }
{
    let path = entry.path.as_slice();
    !rules.delete || entry.excluded || kept.has(path) || is_in_source(source.find(path), entry)
}

/// Returns the removal of an entry of the target. Fails only if an allocation fails.
fn removal_action(alloc: Global, entry: &Entry) -> Result<Action, AllocError>
    ensures { IfOk result (λ action. action ≡ removal_action entry.now) }
{
    let step = if is_directory(&entry.kind) {
        Step::RemoveDirectory
    } else {
        Step::RemoveFile
    };
    let path = ByteText::new(Vec::from_slice(alloc, entry.path.as_slice())?);
    Ok(Action { step, path })
}

/// Records that an entry stays, and so the directory that it is in. Fails only if an allocation fails.
fn keep(alloc: Global, sweep: &mut Sweep, entry: &Entry) -> Result<(), AllocError>
    ensures kept { OnOk result (path_set sweep.new.kept
        ≡ with_path (path_set sweep.old.kept) (directory_of entry.now.path)) }
    ensures gone { OnOk result (sweep.new.gone ≡ sweep.old.gone) }
    ensures removals { OnOk result (sweep.new.removals.items ≡ sweep.old.removals.items) }
{
    let directory = Vec::from_slice(alloc, directory_of(entry.path.as_slice()))?;
    sweep.kept.insert(directory)?;
    Ok(())
}

/// Records that an entry is removed. Fails only if an allocation fails.
fn remove(alloc: Global, sweep: &mut Sweep, entry: &Entry) -> Result<(), AllocError>
    ensures kept { OnOk result (sweep.new.kept ≡ sweep.old.kept) }
    ensures gone { OnOk result (path_set sweep.new.gone ≡ with_path (path_set sweep.old.gone) entry.now.path) }
    ensures removals { OnOk result (sweep.new.removals.items
        ≡ sweep.old.removals.items ++ removal_action entry.now ∷ []) }
{
    let action = removal_action(alloc, entry)?;
    sweep.removals.push(action)?;
    let path = Vec::from_slice(alloc, entry.path.as_slice())?;
    sweep.gone.insert(path)?;
    Ok(())
}

/// Decides on an entry of the target. Fails only if an allocation fails.
fn sweep_one(
    alloc: Global,
    rules: Rules,
    source: &Listing,
    sweep: &mut Sweep,
    entry: &Entry,
) -> Result<(), AllocError>
    ensures { (w : SweepValue) → IsSweepOf sweep.old w
        → OnOk result (IsSweepOf sweep.new (sweep_step rules source.now.entries w entry.now)) }
{
    if stays_in_target(rules, source, &sweep.kept, entry) {
        keep(alloc, sweep, entry)
    } else {
        remove(alloc, sweep, entry)
    }
}

/// Sweeps over the target from its last entry to its first, so that a directory is removed after its entries. Fails
/// only if an allocation fails.
pub(crate) fn sweep_all(
    alloc: Global,
    rules: Rules,
    source: &Listing,
    target: &[Entry],
) -> Result<Sweep, AllocError>
    ensures { IfOk result (λ sweep. IsSweepOf sweep (sweep_of rules source.now.entries target.now)) }
{
    let mut sweep = Sweep {
        kept: PathSet::new(alloc),
        gone: PathSet::new(alloc),
        removals: Vec::new(alloc),
    };
    for i in (0..target.len()).rev() {
        sweep_one(alloc, rules, source, &mut sweep, &target[i])?;
    }
    Ok(sweep)
}
