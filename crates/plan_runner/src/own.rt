//! The request of its own that a call awaits.
ghost use Rattle.std.specs.Prelude.{◌≡◌, Some};
ghost use Rattle.plan_runner.specs.Pending.{own_place};

use crate::next::Running;

impl Running {
    /// Returns the place of the call's own request whose reply is awaited. Returns `None` if the call awaits the reply
    /// that a slot awaits, or none.
    pub fn own_place(&self) -> Option<u64>
        ensures { result ≡ own_place (Some self.now) }
    {
        match self {
            Running::Ending { place, .. } => Some(*place),
            Running::Opening { place, .. } => Some(*place),
            Running::Reading { place, .. } => Some(*place),
            Running::Gathering { place, .. } => Some(*place),
            Running::Sending { place, .. } => Some(*place),
            Running::Writing { place, .. } => Some(*place),
            Running::OpeningToWrite { place } => Some(*place),
            Running::OpeningToRead { place, .. } => Some(*place),
            Running::OpeningDirectory { place, .. } => Some(*place),
            Running::Listing { place, .. } => Some(*place),
            Running::Copying { place, .. } => Some(*place),
            Running::ReadingWhole { .. } => None,
            Running::Flushing { .. } => None,
            Running::AwaitingRoom { .. } => None,
            Running::FillingBuffer { .. } => None,
            Running::Deferred { .. } => None,
            Running::DeferringRest { .. } => None,
        }
    }
}
