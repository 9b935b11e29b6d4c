//! OPENs whose HANDLE is the grant of a call that opens, uses and closes a file.
ghost use Rattle.std.specs.Prelude.{ℕ, List};
ghost use Rattle.plan_model.specs.Moves.{Own};
ghost use Rattle.sftp_model.specs.declared.slot.Move.{Move};
ghost use Rattle.sftp_model.specs.declared.slot.Site.{Site};
ghost use Rattle.sftp_fs.specs.Grants.{grant_meaning, grants_wait};

use plan_state::{PlanRunner, Then, Told};
use sftp_core::Grant;
use sftp_model::{Error, Reply};

/// An OPEN whose HANDLE gives its grant.
///
/// Used in `crates/sftp_fs_read/src/fs_read.rt`.
#[derive(Drop)]
pub struct Granting {}

impl PlanRunner for Granting {
    type Value = Grant;

    ghost World = { Site × (List ℕ → Own → Move) };

    ghost meaning = { grant_meaning };

    ghost waits = { grants_wait };

    ghost stays = { λ m. tt };

    fn at_once(&mut self) -> Option<Grant> {
        None
    }

    fn on(&mut self, told: Told) -> Then<Grant> {
        match told {
            Told::Granted(grant) => Then::Done(Ok(grant)),
            Told::Reply(
                Reply::Status {
                    code,
                    message,
                    language,
                },
            ) => Then::Done(Err(Error::SftpError {
                code,
                message,
                language,
            })),
            Told::Reply(_) => unreachable!(),
        }
    }
}
