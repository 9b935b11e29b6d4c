//! A plan as it is shown.
use crate::printable::printable;
use crate::transfer_error::{TransferError, tell_of};
use std::io;
use transfer_sync::{Action, Plan, Step};

/// Writes an action, on a line of its own.
fn write_action(rt: &HostRuntime, action: &Action) -> io::Result<()> {
    let path = printable(rt.alloc(), action.path.as_slice())?;
    let path = path.as_str();
    match &action.step {
        Step::RemoveFile => println!(rt; "remove {path}"),
        Step::RemoveDirectory => println!(rt; "remove {path}/"),
        Step::MakeDirectory => println!(rt; "make {path}/"),
        Step::CopyFile => println!(rt; "copy {path}"),
        Step::MakeLink(text) => {
            let text = printable(rt.alloc(), text.as_slice())?;
            println!(rt; "link {path} -> {}", text.as_str())
        }
        Step::SetAttributes => println!(rt; "attributes {path}"),
    }
}

/// Writes the actions of a plan in their order, one a line. With `is_new` the directory of the target is created before
/// them.
pub(crate) fn write_plan(rt: &HostRuntime, plan: &Plan, is_new: bool) -> io::Result<()> {
    if is_new {
        println!(rt; "make ./")?;
    }
    for action in &plan.actions {
        write_action(rt, action)?;
    }
    Ok(())
}

/// Reports the paths of a plan at which nothing is done, since the target has something else there that stays.
pub(crate) fn tell_conflicts(rt: &HostRuntime, plan: &Plan) {
    for path in &plan.conflicts {
        let reason = TransferError::Refused("not copied: the target has something else there");
        tell_of(rt, path.as_slice(), &reason);
    }
}
