//! Answers that are not committed yet.
ghost use Rattle.std.specs.Prelude.{◌≡◌};

use crate::change::Change;
use sftp_model::Reply;

/// The answer to a request that a server found, and has not committed yet: the reply, and the change that the request
/// makes.
///
/// Used in `crates/machine_answers/src/machine.rt`.
#[derive(Drop)]
pub struct Answered {
    pub(crate) reply: Reply,
    pub(crate) change: Change,
}

impl Answered {
    /// Returns the reply.
    pub fn reply(&self) -> &Reply
        ensures { result.now ≡ self.now.reply }
    {
        &self.reply
    }
}
