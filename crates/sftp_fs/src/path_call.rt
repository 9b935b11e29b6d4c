//! A call that a NAME ends: its first entry is the path that it returns.
ghost use Rattle.std.specs.Prelude.{◌≡◌, ◌<◌, length};
ghost use Rattle.sftp_model.specs.declared.reply.Reply.TheVariants as reply;
ghost use Rattle.sftp_model.specs.declared.slot.Move.TheVariants.{Done};
ghost use Rattle.sftp_model.specs.declared.outcome.Outcome.TheVariants as outcome;
ghost use Rattle.sftp_model.specs.declared.slot.Site.{Site};
ghost use Rattle.plan_model.specs.PathPlans.{named_by};
ghost use Rattle.sftp_fs.specs.Names.{names_wait, name_meaning};

use plan_state::{Alone, PendingCall, PlanRunner, Then, Told};
use sftp_model::{Error, NameEntry, RemotePath, Reply};
use sftp_values::Items;

/// A request whose NAME ends the call.
///
/// Used by the functions of this module.
#[derive(Drop)]
pub struct Naming {}

/// A call under way that returns a path.
pub type PathCall = PendingCall<Naming>;

impl Alone for Naming {}

impl PlanRunner for Naming {
    type Value = RemotePath;

    ghost World = { Site };

    ghost meaning = { name_meaning };

    ghost waits = { names_wait };

    ghost stays = { λ m. tt };

    fn at_once(&mut self) -> Option<RemotePath> {
        None
    }

    fn on(&mut self, told: Told) -> Then<RemotePath> {
        match told {
            Told::Reply(Reply::Names(names)) => Then::Done(Ok(first_name(names))),
            Told::Reply(
                Reply::Status {
                    code,
                    message,
                    language,
                },
            ) => Then::Done(Err(Error::SftpError {
                code,
                message,
                language,
            })),
            Told::Reply(_) => unreachable!(),
            Told::Granted(_grant) => unreachable!(),
        }
    }
}

/// Returns the name of the first entry, taken out without a copy.
fn first_name(names: Items<NameEntry>) -> RemotePath
    requires { 0 < length names }
    ensures { (site : Site) → named_by site (reply.Names names) ≡ Done (outcome.Path result) site }
{
    match names.into_vec().into_iter().next() {
        Some(first) => first.filename,
        None => unreachable!(),
    }
}
