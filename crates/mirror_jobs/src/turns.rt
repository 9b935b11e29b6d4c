//! The turns under which files are copied.
ghost use Rattle.std.specs.Prelude.{◌≡◌, ◌≤◌, ◌++◌, IfOk, OnOk, replicate};
ghost use Rattle.session_model.specs.declared.turn.Turn.TheVariants as turn;
ghost use Rattle.mirror_jobs.specs.JobLanes.{mkdir_turns, repeat_turn, round, steps_from, turns_for};

use session_model::Turn;
use sftp_values::Items;
use ssh_encoding::OutOfMemory;
use std::alloc::Global;

/// Appends the turns for one directory.
fn push_mkdir(turns: &mut Vec<Turn>) -> Result<(), OutOfMemory>
    ensures { OnOk result (turns.new.items ≡ turns.old.items ++ mkdir_turns) }
{
    turns.push(Turn::Step(0))?;
    turns.push(Turn::Flush)?;
    turns.push(Turn::Take)?;
    turns.push(Turn::Step(0))?;
    Ok(())
}

/// Appends the turns for this many directories.
fn push_all_mkdirs(count: usize, turns: &mut Vec<Turn>) -> Result<(), OutOfMemory>
    ensures { OnOk result (turns.new.items ≡ turns.old.items ++ repeat_turn count mkdir_turns) }
{
    for _k in 0..count {
        push_mkdir(turns)?;
    }
    Ok(())
}

/// Appends a step of each lane that copies.
fn push_steps(width: u32, turns: &mut Vec<Turn>) -> Result<(), OutOfMemory>
    requires { width ≤ 64 }
    ensures { OnOk result (turns.new.items ≡ turns.old.items ++ steps_from 1 width) }
{
    for k in 0..width {
        turns.push(Turn::Step(k + 1))?;
    }
    Ok(())
}

/// Appends this many takes.
fn push_takes(width: u32, turns: &mut Vec<Turn>) -> Result<(), OutOfMemory>
    ensures { OnOk result (turns.new.items ≡ turns.old.items ++ replicate width turn.Take) }
{
    for _k in 0..width {
        turns.push(Turn::Take)?;
    }
    Ok(())
}

/// Appends a round of the lanes that copy.
fn push_round(width: u32, turns: &mut Vec<Turn>) -> Result<(), OutOfMemory>
    requires { width ≤ 64 }
    ensures { OnOk result (turns.new.items ≡ turns.old.items ++ round width) }
{
    push_steps(width, turns)?;
    turns.push(Turn::Flush)?;
    push_takes(width, turns)
}

/// Appends this many rounds.
fn push_rounds(width: u32, rounds: u32, turns: &mut Vec<Turn>) -> Result<(), OutOfMemory>
    requires { width ≤ 64 }
    ensures { OnOk result (turns.new.items ≡ turns.old.items ++ repeat_turn rounds (round width)) }
{
    for _k in 0..rounds {
        push_round(width, turns)?;
    }
    Ok(())
}

/// Returns the turns under which files are copied: for each of this many directories a step of lane 0, a flush, a take
/// and a step. Then come `rounds` rounds of a step of each lane from 1 to `width`, a flush and `width` takes.
///
/// # Errors
///
/// `OutOfMemory` if an allocation fails.
pub fn turns_for(
    alloc: Global,
    directories: usize,
    width: u32,
    rounds: u32,
) -> Result<Items<Turn>, OutOfMemory>
    requires { width ≤ 64 }
    ensures { IfOk result (λ turns. turns ≡ turns_for directories width rounds) }
{
    let mut turns = Vec::new(alloc);
    push_all_mkdirs(directories, &mut turns)?;
    push_rounds(width, rounds, &mut turns)?;
    Ok(Items::new(turns))
}
