//! Replies to the requests of the file.
ghost use Rattle.std.specs.Prelude.{◌≡◌, ◌==◌, Some, true};
ghost use Rattle.sftp_core.specs.Core.{after_poll, record_at, reply_in};
ghost use Rattle.sftp_core.specs.Table.{expected_at};
ghost use Rattle.sftp_model.specs.Answers.{allows_reply};
ghost use Rattle.sftp_model.specs.declared.answers.Expected.{Expected};
ghost use Rattle.plan_model.specs.BufferPlans.{is_good};
ghost use Rattle.sftp_buffered.specs.Steps.{HasReply};

use sftp_core::{Core, Polled, Ticket};
use sftp_model::Reply;
use sftp_model::numbers::SSH_FX_OK;

/// Takes the reply to a ticket, which was taken and is no HANDLE. The ticket is consumed.
pub(crate) fn take_reply(core: &mut Core, ticket: Ticket) -> Reply
    requires { HasReply core.old ticket }
    ensures reply { reply_in (record_at core.old ticket) ≡ Some result }
    ensures allowed { (kind : Expected) → expected_at (record_at core.old ticket) ≡ Some kind → allows_reply kind result ≡ true }
    ensures core { core.new ≡ after_poll core.old ticket }
{
    match core.poll(ticket) {
        Ok(Polled::Reply(reply)) => reply,
        Ok(Polled::Granted(_grant)) => unreachable!(),
        Ok(Polled::Failed(_fault)) => unreachable!(),
        Err(_ticket) => unreachable!(),
    }
}

/// Returns true if a reply is a STATUS of OK.
pub(crate) fn is_good(reply: &Reply) -> bool
    ensures { result ≡ is_good (Some reply.now) }
{
    match reply {
        Reply::Status { code, .. } => *code == SSH_FX_OK,
        _ => false,
    }
}
