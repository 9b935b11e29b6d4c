//! The state of a call that is running, for any call.
ghost use Rattle.std.specs.Prelude.{◌≡◌, Some, None, IfOk};
ghost use Rattle.sftp_model.specs.declared.error.Error.{Error as ErrorValue};
ghost use Rattle.sftp_model.specs.declared.slot.Move.{Move};
ghost use Rattle.plan_model.specs.Moves.{Answers, Own, Plan};
ghost use Rattle.plan_state.specs.declared.stage.Stage.{Stage as StageValue};
ghost use Rattle.plan_state.specs.declared.stage.Stage.TheVariants as stage;
ghost use Rattle.plan_state.specs.Asked.{IsReady};
ghost use Rattle.plan_state.specs.Calls.{BeginsCall, CancelsAwaited, IsHeld, LeavesCall, MayGoOn, MayPoll, MaySend, StartsByPlan, StepsByPlan, MovesByPlan};
ghost use Rattle.plan_state.specs.Calls.{grant_brought, is_ended, ticket_of};
ghost use Rattle.plan_state.specs.Keeping.{KeepsHeld};
ghost use Rattle.plan_state.specs.Runners.{GoesBehind, MayAsk};
ghost use Rattle.plan_state.specs.Told.{reply_of};

use crate::poll::Poll;
use crate::runner::{PlanRunner, Then};
use crate::stage::Stage;
use crate::submission::{Asking, Unsubmitted, refusal, submit};
use crate::told::{Told, Untold, take_told};
use sftp_core::{Core, Ended, Ticket};
use sftp_model::Error;
use std::marker::Model;
use std::mem;

/// A call that is running: its stage, and its runner. It cannot be dropped: `cancel` consumes it, also after it has
/// returned its result, and `let_go` if its core was ended.
///
/// Example: `crates/sftp_client/src/sftp/calls.rt`.
#[must_use]
pub struct PendingCall<M> {
    stage: Stage,
    runner: M,
}

impl<M> Model for PendingCall<M> {
    ghost use Rattle.plan_state.specs.Calls.{CallValue};

    ghost Value = { CallValue M };

    ghost view = { λ c. record { stage = c.stage; runner = c.runner } };
}

impl<M: PlanRunner> PendingCall<M> {
    /// Submits a request of the call, and awaits its reply.
    fn send(&mut self, core: &mut Core, asking: Asking) -> Poll<Result<M::Value, Error>>
        requires { MaySend M.meaning core.old self.old asking }
        ensures went { (w : M.World) (plan : Plan) (answers : Answers)
            → GoesBehind M.meaning w plan answers asking self.old.runner
            → MovesByPlan M.meaning w plan answers core.old core.new self.new result }
        ensures leaves { (before : StageValue) → grant_brought core.old before ≡ None
            → LeavesCall M.meaning core.old core.new before self.new result }
        ensures runner { self.new.runner ≡ self.old.runner }
    {
        match submit(core, asking) {
            Ok(ticket) => {
                self.stage.put(Stage::Asked(ticket));
                Poll::Pending
            }
            Err(Unsubmitted::Short(asking)) => {
                self.stage.put(Stage::Unsent(asking));
                Poll::Ready(Err(Error::OutOfMemory))
            }
            Err(Unsubmitted::Failed(fault)) => {
                Poll::Ready(Err(Error::BackgroundTaskFailure(fault)))
            }
        }
    }

    /// Continues with the reply that came.
    fn go_on(&mut self, core: &mut Core, told: Told) -> Poll<Result<M::Value, Error>>
        requires { MayGoOn M.meaning core.old self.old told }
        ensures went { (w : M.World) (plan : Plan) (answers : Answers) → M.meaning.known self.old.runner answers
            → answers (M.meaning.place self.old.runner) ≡ Some (reply_of told)
            → ((later : Own) → plan later answers ≡ M.meaning.left w self.old.runner later answers)
            → MovesByPlan M.meaning w plan answers core.old core.new self.new result }
        ensures leaves { LeavesCall M.meaning core.old core.new (stage.Came told) self.new result }
        ensures stays { M.meaning.stays self.old.runner self.new.runner }
    {
        match self.runner.on(told) {
            Then::Done(value) => Poll::Ready(value),
            Then::Ask(asking) => self.send(core, asking),
            Then::Short(told) => {
                self.stage.put(Stage::Came(told));
                Poll::Ready(Err(Error::OutOfMemory))
            }
        }
    }

    /// Polls the reply that the call awaits, and continues with it. Returns `Pending` exactly if the reply was not
    /// taken and no fault is kept, or if a further request was submitted.
    ///
    /// # Errors
    ///
    /// `BackgroundTaskFailure` if the core keeps a fault and the reply was not taken or a further request is asked. After
    /// `OutOfMemory` the call may be polled again. Other errors are those of the call's plan.
    pub fn step(&mut self, core: &mut Core) -> Poll<Result<M::Value, Error>>
        requires { MayPoll M.meaning core.old self.old }
        ensures { StepsByPlan M.meaning core.old core.new self.old self.new result }
    {
        match self.stage.take() {
            Stage::Ended => unreachable!(),
            Stage::Ready => match self.runner.at_once() {
                Some(value) => Poll::Ready(Ok(value)),
                None => unreachable!(),
            },
            Stage::Unsent(asking) => self.send(core, asking),
            Stage::Came(told) => self.go_on(core, told),
            Stage::Asked(ticket) => match take_told(core, ticket) {
                Ok(told) => self.go_on(core, told),
                Err(Untold::Missing(ticket)) => {
                    self.stage.put(Stage::Asked(ticket));
                    Poll::Pending
                }
                Err(Untold::Failed(fault)) => Poll::Ready(Err(Error::BackgroundTaskFailure(fault))),
            },
        }
    }

    /// Submits the first request of a call.
    ///
    /// # Errors
    ///
    /// `BackgroundTaskFailure` if the core keeps a fault, or `OutOfMemory` if an allocation fails; the core is
    /// unchanged.
    pub fn ask(core: &mut Core, asking: Asking, runner: M) -> Result<PendingCall<M>, Error>
        requires ready { IsReady core.old }
        requires asks { MayAsk M.meaning asking runner }
        ensures started { (w : M.World) (refused : ErrorValue → Move) (plan : Plan) (answers : Answers)
            → GoesBehind M.meaning w plan answers asking runner
            → StartsByPlan M.meaning w refused plan answers core.old core.new result }
        ensures begins { IfOk result (BeginsCall M.meaning asking runner core.old core.new) }
        ensures keeps { KeepsHeld core.old core.new }
    {
        match submit(core, asking) {
            Ok(ticket) => Ok(PendingCall {
                stage: Stage::Asked(ticket),
                runner,
            }),
            Err(e) => Err(refusal(e)),
        }
    }
}

/// A runner that works on no value of its caller.
///
/// Example: `crates/sftp_fs/src/directory.rt`.
pub trait Alone: PlanRunner {}

impl<M: Alone> PendingCall<M> {
    /// Polls the reply that the call awaits, and continues with it. Returns `Pending` exactly if the reply was not
    /// taken and no fault is kept, or if a further request was submitted.
    ///
    /// # Errors
    ///
    /// `BackgroundTaskFailure` if the core keeps a fault and the reply was not taken or a further request is asked. After
    /// `OutOfMemory` the call may be polled again. Other errors are those of the call's plan.
    pub fn poll(&mut self, core: &mut Core) -> Poll<Result<M::Value, Error>>
        requires { MayPoll M.PlanRunner.meaning core.old self.old }
        ensures { StepsByPlan M.PlanRunner.meaning core.old core.new self.old self.new result }
    {
        self.step(core)
    }
}

impl<M: PlanRunner> PendingCall<M> {
    /// Cancels the call: its request stays in flight, its reply is dropped, and a handle that has come, or comes later,
    /// is closed.
    pub fn cancel(self, core: &mut Core)
        requires { IsHeld M.meaning core.old self }
        ensures { CancelsAwaited core.old core.new self.stage }
    {
        let PendingCall { stage, runner: _ } = self;
        stage.cancel(core);
    }

    /// Releases the call after its core was ended.
    pub fn let_go(self, core: Ended) {
        let PendingCall { stage, runner: _ } = self;
        stage.let_go(core);
    }
}

impl<M> PendingCall<M> {
    /// Creates a call that needs no request: its first poll returns the value.
    pub fn ready(runner: M) -> PendingCall<M>
        ensures { result ≡ record { stage = stage.Ready; runner = runner } }
    {
        PendingCall {
            stage: Stage::Ready,
            runner,
        }
    }

    /// Creates a call that awaits a ticket that is out.
    pub fn awaiting(ticket: Ticket, runner: M) -> PendingCall<M>
        ensures { result ≡ record { stage = stage.Asked ticket; runner = runner } }
    {
        PendingCall {
            stage: Stage::Asked(ticket),
            runner,
        }
    }

    /// Returns the call's runner.
    pub fn runner(&self) -> &M
        ensures { result.now ≡ self.now.runner }
    {
        &self.runner
    }

    /// Replaces the call's runner, and returns the old one. The stage of the call is unchanged: it may be polled if the
    /// new runner awaits the same reply.
    pub fn replace_runner(&mut self, runner: M) -> M
        ensures was { result ≡ self.old.runner }
        ensures now { self.new ≡ record self.old { runner = runner } }
    {
        mem::replace(&mut self.runner, runner)
    }

    /// Returns the number of the request whose reply is awaited.
    pub fn ticket_id(&self) -> Option<u32>
        ensures { result ≡ ticket_of self.now.stage }
    {
        self.stage.ticket_id()
    }

    /// Returns true if the call has returned its result. It cannot be polled then.
    pub fn is_ended(&self) -> bool
        ensures { result ≡ is_ended self.now.stage }
    {
        self.stage.is_ended()
    }
}
