//! The operations of a view, one after another.
ghost use Rattle.session_driver.specs.Ongoing.{run_state};
ghost use Rattle.sftp_lanes.specs.Seen.{seen_of};
ghost use Rattle.sftp_view.specs.Operations.{MayRunAll, done_by, left_by, most};
ghost use Rattle.sftp_view.specs.Working.{DoesByView};

use crate::ops::View;
use sftp_link::Link;
use sftp_model::Error;
use sftp_values::Items;
use std::alloc::Global;
use view_model::{Answer, ViewOp};

impl View {
    /// Does operations, one after another.
    ///
    /// # Errors
    ///
    /// The error that stopped the session.
    pub fn run_all<L: Link>(
        &mut self,
        alloc: Global,
        link: &mut L,
        ops: &[ViewOp],
    ) -> Result<Items<Answer>, Error>
        requires { MayRunAll ops.now self.old (L.LinkState.state link.old) }
        ensures { DoesByView (done_by ops.now self.old) (λ answers. left_by answers self.new) (most ops.now)
            self.old (L.LinkState.state link.old) self.new (L.LinkState.state link.new) result }
    {
        let mut answers = Vec::new(alloc);
        for op in ops {
            let answer = self.run(alloc, link, op)?;
            if answers.push(answer).is_err() {
                return Err(Error::OutOfMemory);
            }
        }
        Ok(Items::new(answers))
    }
}
