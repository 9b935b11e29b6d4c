//! The rest of a call's plan, as a value.
ghost use Rattle.std.specs.Prelude.{◌≡◌, [], true, Some, None, Ok, IfSome, IsSome};
ghost use Rattle.sftp_model.specs.Answers.{allows_reply};
ghost use Rattle.sftp_model.specs.declared.slot.Move.TheVariants.{Wait};
ghost use Rattle.plan_model.specs.Moves.{Answers, Own};
ghost use Rattle.plan_state.specs.Runners.{FollowsPlan, HandsGrantOn, IsStep, Meaning};
ghost use Rattle.plan_state.specs.Told.{IsBack, IsFormed, reply_of};

use crate::submission::Asking;
use crate::told::Told;
use sftp_model::Error;

/// The step of a runner after the reply that it awaited.
///
/// Used in `crates/sftp_fs/src/grants.rt`.
pub enum Then<V> {
    /// The call returns this result.
    Done(Result<V, Error>),
    /// This request is asked.
    Ask(Asking),
    /// An allocation failed: the reply is returned, and the runner is unchanged.
    Short(Told),
}

/// A runner: the rest of a call's plan after the request whose reply is awaited, as a value. It is not concerned with
/// tickets, faults, the memory of a submission, or the core.
///
/// Example: `crates/sftp_file/src/reads.rt`.
pub trait PlanRunner: Sized + Drop {
    /// The value that the call returns.
    type Value;

    // The world in which their meaning is given.
    ghost World: { Type 0 };

    // The meaning of the runners of this kind.
    ghost meaning: { Meaning World Self Self.Value };

    /// Returns the value of the call without a reply. It is `Some` if no reply is needed.
    fn at_once(&mut self) -> Option<Self::Value>
        ensures given { meaning.ready self.old → IsSome result }
        ensures ends { IfSome result (λ value. (w : World) → meaning.ready self.old
            → meaning.first w self.old ≡ meaning.ended w self.new (Ok value)) }
        ensures stays { meaning.stays self.old self.new }
        ensures grantless { IfSome result (λ value. meaning.grant value ≡ None) };

    /// Continues with a reply that its request allows: it makes the next move of the rest of the plan.
    fn on(&mut self, told: Told) -> Then<Self::Value>
        requires allowed { allows_reply (meaning.expected self.old) (reply_of told) ≡ true }
        requires formed { IsFormed told }
        ensures follows { (w : World) (answers : Answers) → meaning.known self.old answers
            → answers (meaning.place self.old) ≡ Some (reply_of told)
            → FollowsPlan meaning w self.old self.new answers result }
        ensures step { IsStep meaning self.old self.new result }
        ensures gives { HandsGrantOn meaning told result }
        ensures back { IsBack told result };

    /// If no reply came, the plan waits for it.
    ghost waits: { (w : World) (m : Self) (later : Own) (answers : Answers)
        → answers (meaning.place m) ≡ None → meaning.left w m later answers ≡ Wait (meaning.place m) };

    /// A runner that makes no step keeps its properties.
    ghost stays: { (m : Self) → meaning.stays m m };
}
