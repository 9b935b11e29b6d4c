//! Calls of one request that its STATUS or its ATTRS ends, and that change nothing of their caller.
ghost use Rattle.std.specs.Prelude.{◌≡◌};
ghost use Rattle.sftp_model.specs.declared.slot.Site.{Site};
ghost use Rattle.plan_state.specs.declared.stage.Stage.TheVariants as stage;
ghost use Rattle.sftp_file.specs.Closes.{stage_of_close};
ghost use Rattle.sftp_file.specs.Outcomes.{status_answer};
ghost use Rattle.sftp_file.specs.Settles.{settle_meaning, status_waits};
ghost use Rattle.sftp_file.specs.Tells.{attrs_meaning, tells_wait};

use plan_state::{Alone, PendingCall, PlanRunner, Then, Told};
use sftp_core::Ticket;
use sftp_meta::MetaData;
use sftp_model::numbers::SSH_FX_OK;
use sftp_model::{Error, Reply};
use sftp_values::ByteText;

/// A request whose STATUS ends the call.
///
/// Example: `crates/sftp_fs/src/asks.rt`.
#[derive(Drop)]
pub struct Settling {}

/// A call under way that returns no value when it is done.
pub type StatusCall = PendingCall<Settling>;

/// A close under way. It returns `()` once the server has closed the file, and at once if the file has another user.
/// After any result the file isn't open any more.
pub type CloseCall = PendingCall<Settling>;

/// Returns the call that awaits the STATUS to a request whose only answer is a STATUS.
pub fn status_call(ticket: Ticket) -> StatusCall
    ensures { result.stage ≡ stage.Asked ticket }
{
    PendingCall::awaiting(ticket, Settling {})
}

/// Returns the call that awaits the STATUS to a CLOSE; without a ticket its first poll returns `()`.
pub fn close_call(ticket: Option<Ticket>) -> CloseCall
    ensures { result.stage ≡ stage_of_close ticket }
{
    match ticket {
        Some(ticket) => PendingCall::awaiting(ticket, Settling {}),
        None => PendingCall::ready(Settling {}),
    }
}

impl Alone for Settling {}

impl PlanRunner for Settling {
    type Value = ();

    ghost World = { Site };

    ghost meaning = { settle_meaning };

    ghost waits = { status_waits };

    ghost stays = { λ m. tt };

    fn at_once(&mut self) -> Option<()> {
        Some(())
    }

    fn on(&mut self, told: Told) -> Then<()> {
        match told {
            Told::Reply(
                Reply::Status {
                    code,
                    message,
                    language,
                },
            ) => Then::Done(settled(code, message, language)),
            Told::Reply(_) => unreachable!(),
            Told::Granted(_grant) => unreachable!(),
        }
    }
}

/// Returns the answer that a STATUS is.
pub(crate) fn settled(code: u32, message: ByteText, language: ByteText) -> Result<(), Error>
    ensures { result ≡ status_answer code message language }
{
    if code == SSH_FX_OK {
        return Ok(());
    }
    Err(Error::SftpError {
        code,
        message,
        language,
    })
}

/// A request whose ATTRS end the call.
///
/// Used in `crates/sftp_fs/src/asks.rt`.
#[derive(Drop)]
pub struct Telling {}

/// A call under way that returns the metadata of a file.
pub type AttrsCall = PendingCall<Telling>;

/// Returns the call that awaits the ATTRS to a STAT, LSTAT or FSTAT.
pub fn attrs_call(ticket: Ticket) -> AttrsCall
    ensures { result.stage ≡ stage.Asked ticket }
{
    PendingCall::awaiting(ticket, Telling {})
}

impl Alone for Telling {}

impl PlanRunner for Telling {
    type Value = MetaData;

    ghost World = { Site };

    ghost meaning = { attrs_meaning };

    ghost waits = { tells_wait };

    ghost stays = { λ m. tt };

    fn at_once(&mut self) -> Option<MetaData> {
        None
    }

    fn on(&mut self, told: Told) -> Then<MetaData> {
        match told {
            Told::Reply(Reply::Attrs(attrs)) => Then::Done(Ok(MetaData::new(attrs))),
            Told::Reply(
                Reply::Status {
                    code,
                    message,
                    language,
                },
            ) => Then::Done(Err(Error::SftpError {
                code,
                message,
                language,
            })),
            Told::Reply(_) => unreachable!(),
            Told::Granted(_grant) => unreachable!(),
        }
    }
}
