//! The plan of a synchronization.
ghost use Rattle.std.specs.Prelude.{◌≡◌, ◌++◌, ◌∷◌, [], IfOk, IfErr, OnOk};
ghost use Rattle.transfer_sync.specs.PathMaps.{path_set};
ghost use Rattle.transfer_sync.specs.Paths.{no_path};
ghost use Rattle.transfer_sync.specs.Plans.{IsPlan, IsRefusal, has_too_many_removals};
ghost use Rattle.transfer_sync.specs.Rules.{rules_for};
ghost use Rattle.transfer_sync.specs.Theorems.{IsSync};
ghost use Rattle.transfer_sync.specs.Actions.{
  action_of,
  actions_after_removals,
  actions_of,
  actions_of_part,
  link_text,
  step_of,
};
ghost use Rattle.transfer_sync.specs.Verdicts.{
  blocked_after_entries,
  blocked_after_entry,
  choice_of,
  conflicts_of,
  is_conflict,
};

use crate::action::{Action, Step};
use crate::entry::{Entry, Kind};
use crate::listing::Listing;
use crate::paths::PathSet;
use crate::rules::{Rules, rules_for};
use crate::sweep::sweep_all;
use crate::verdict::{Part, is_blocked, is_conflict, is_in_part};
use sftp_values::ByteText;
use std::alloc::{AllocError, Global};
use thiserror::Error;

/// The reason why there is no plan.
///
/// Example: `crates/sftp_transfer/src/mirror.rt`.
#[derive(Clone, Copy, Debug, Drop, PartialEq, Eq, Error)]
pub enum PlanError {
    /// The plan would have this many removals, which is more than the rules allow.
    #[error("{0} removals are more than the limit")]
    TooManyRemovals(usize),
    /// Out of memory.
    #[error("out of memory")]
    OutOfMemory,
}

impl From<AllocError> for PlanError {
    ghost use Rattle.transfer_sync.specs.declared.plan.PlanError.TheVariants as error;

    ghost from_gives = { λ e given. given ≡ error.OutOfMemory };

    fn from(_: AllocError) -> PlanError {
        PlanError::OutOfMemory
    }
}

/// The plan of a synchronization.
///
/// Example: `crates/sftp_transfer/src/mirror.rt`.
#[derive(Debug, Drop)]
pub struct Plan {
    /// The actions, in an order in which they can be carried out.
    pub actions: Vec<Action>,
    /// The paths of the source for which nothing is done because the target has something of another kind there, which
    /// stays. Nothing is done for the entries of such a directory either, and they are not repeated here.
    pub conflicts: Vec<ByteText>,
}

/// The rules, and the two sets of paths that decide what is done for an entry of the source.
#[derive(Drop)]
struct Survey {
    /// The rules.
    rules: Rules,
    /// The paths that are removed from the target.
    gone: PathSet,
    /// The paths of the source for which nothing is done.
    blocked: PathSet,
}

/// Returns the text of a symbolic link. Fails only if an allocation fails.
fn link_text(alloc: Global, kind: &Kind) -> Result<Vec<u8>, AllocError>
    ensures { IfOk result (λ text. text.items ≡ link_text kind.now) }
{
    match kind {
        Kind::Link(text) => Vec::from_slice(alloc, text.as_slice()),
        _ => Ok(Vec::new(alloc)),
    }
}

/// Returns the operation of a part of a plan. Fails only if an allocation fails.
fn step_of(alloc: Global, part: Part, kind: &Kind) -> Result<Step, AllocError>
    ensures { IfOk result (λ step. step ≡ step_of part kind.now) }
{
    match part {
        Part::Directories => Ok(Step::MakeDirectory),
        Part::Files => Ok(Step::CopyFile),
        Part::Links => Ok(Step::MakeLink(ByteText::new(link_text(alloc, kind)?))),
        Part::Attributes => Ok(Step::SetAttributes),
    }
}

/// Returns the action of an entry in a part of a plan. Fails only if an allocation fails.
fn action_of(alloc: Global, part: Part, entry: &Entry) -> Result<Action, AllocError>
    ensures { IfOk result (λ action. action ≡ action_of part entry.now) }
{
    let step = step_of(alloc, part, &entry.kind)?;
    let path = ByteText::new(Vec::from_slice(alloc, entry.path.as_slice())?);
    Ok(Action { step, path })
}

/// Records an entry of the source for which nothing is done. Fails only if an allocation fails.
fn block_one(
    alloc: Global,
    gone: &PathSet,
    target: &Listing,
    blocked: &mut PathSet,
    entry: &Entry,
) -> Result<(), AllocError>
    ensures { OnOk result (path_set blocked.new
        ≡ blocked_after_entry (path_set gone.now) target.now.entries (path_set blocked.old) entry.now) }
{
    if is_blocked(gone, target, blocked, entry) {
        blocked.insert(Vec::from_slice(alloc, entry.path.as_slice())?)?;
    }
    Ok(())
}

/// Returns the paths of the source for which nothing is done. Fails only if an allocation fails.
fn find_blocked(
    alloc: Global,
    gone: &PathSet,
    target: &Listing,
    source: &[Entry],
) -> Result<PathSet, AllocError>
    ensures { IfOk result (λ blocked. path_set blocked
        ≡ blocked_after_entries (path_set gone.now) target.now.entries no_path source.now) }
{
    let mut blocked = PathSet::new(alloc);
    for entry in source {
        block_one(alloc, gone, target, &mut blocked, entry)?;
    }
    Ok(blocked)
}

/// Adds the actions of a part after others. Fails only if an allocation fails.
fn add_part(
    alloc: Global,
    part: Part,
    survey: &Survey,
    target: &Listing,
    source: &[Entry],
    actions: &mut Vec<Action>,
) -> Result<(), AllocError>
    ensures { OnOk result (actions.new.items ≡ actions.old.items
        ++ actions_of_part survey.now.rules part (path_set survey.now.gone) target.now.entries
        (path_set survey.now.blocked) source.now) }
{
    for entry in source {
        if is_in_part(
            survey.rules,
            part,
            &survey.gone,
            target,
            &survey.blocked,
            entry,
        ) {
            actions.push(action_of(alloc, part, entry)?)?;
        }
    }
    Ok(())
}

/// Adds everything after the removals: directories are created, then files are copied, then symbolic links are created,
/// and permissions and times are set last. Fails only if an allocation fails.
fn add_parts(
    alloc: Global,
    survey: &Survey,
    target: &Listing,
    source: &[Entry],
    actions: &mut Vec<Action>,
) -> Result<(), AllocError>
    ensures { OnOk result (actions.new.items ≡ actions.old.items
        ++ actions_after_removals survey.now.rules (path_set survey.now.gone) target.now.entries
        (path_set survey.now.blocked) source.now) }
{
    add_part(alloc, Part::Directories, survey, target, source, actions)?;
    add_part(alloc, Part::Files, survey, target, source, actions)?;
    add_part(alloc, Part::Links, survey, target, source, actions)?;
    add_part(alloc, Part::Attributes, survey, target, source, actions)
}

/// Returns the paths of the conflicts. Fails only if an allocation fails.
fn find_conflicts(
    alloc: Global,
    gone: &PathSet,
    target: &Listing,
    blocked: &PathSet,
    source: &[Entry],
) -> Result<Vec<ByteText>, AllocError>
    ensures { IfOk result (λ conflicts. conflicts.items
        ≡ choice_of (is_conflict (path_set gone.now) target.now.entries (path_set blocked.now)) (λ e. e.path)
        source.now) }
{
    let mut conflicts = Vec::new(alloc);
    for entry in source {
        if is_conflict(gone, target, blocked, entry) {
            conflicts.push(ByteText::new(Vec::from_slice(alloc, entry.path.as_slice())?))?;
        }
    }
    Ok(conflicts)
}

/// Returns true if the rules allow fewer removals.
fn has_too_many_removals(rules: Rules, removals: usize) -> bool
    ensures { result ≡ has_too_many_removals rules removals }
{
    match rules.max_delete {
        Some(most) => most < removals as u64,
        None => false,
    }
}

/// Makes the plan by rules that hold for the source.
///
/// # Errors
///
/// As `make_plan`.
fn plan_by(
    alloc: Global,
    rules: Rules,
    source: &Listing,
    target: &Listing,
) -> Result<Plan, PlanError>
    ensures plan { IfOk result (λ plan. IsPlan rules source.now.entries target.now.entries plan) }
    ensures refusal { IfErr result (λ e. IsRefusal rules source.now.entries target.now.entries e) }
{
    let sweep = sweep_all(alloc, rules, source, target.entries())?;
    let removals = sweep.removals.len();
    if has_too_many_removals(rules, removals) {
        return Err(PlanError::TooManyRemovals(removals));
    }
    let gone = sweep.gone;
    let mut actions = sweep.removals;
    let blocked = find_blocked(alloc, &gone, target, source.entries())?;
    let conflicts = find_conflicts(alloc, &gone, target, &blocked, source.entries())?;
    let survey = Survey {
        rules,
        gone,
        blocked,
    };
    add_parts(alloc, &survey, target, source.entries(), &mut actions)?;
    Ok(Plan { actions, conflicts })
}

/// Makes the plan by which the target becomes like the source: first the removals, each directory after its entries;
/// then directories are created, then files are copied, then symbolic links are created, and permissions and times are
/// set last. If the source is incomplete, nothing is removed, whatever the rules are.
///
/// # Errors
///
/// `TooManyRemovals` if the plan would have more removals than the rules allow, or `OutOfMemory` if an allocation
/// fails.
pub fn make_plan(
    alloc: Global,
    rules: Rules,
    source: &Listing,
    target: &Listing,
) -> Result<Plan, PlanError>
    ensures actions { IfOk result (λ plan. plan.actions.items
        ≡ actions_of (rules_for rules source.now.complete) source.now.entries target.now.entries) }
    ensures sync { IfOk result (λ plan. IsSync rules source.now target.now plan.actions.items) }
    ensures conflicts { IfOk result (λ plan. plan.conflicts.items
        ≡ conflicts_of (rules_for rules source.now.complete) source.now.entries target.now.entries) }
    ensures refusal { IfErr result (λ e.
        IsRefusal (rules_for rules source.now.complete) source.now.entries target.now.entries e) }
{
    let _source = source.entries();
    let _target = target.entries();
    match plan_by(
        alloc,
        rules_for(rules, source.is_complete()),
        source,
        target,
    ) {
        Ok(plan) => Ok(plan),
        Err(e) => Err(e),
    }
}
