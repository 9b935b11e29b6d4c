//! The draws of the parts of a script; each draw passes a number on to the next.
ghost use Rattle.std.specs.Prelude.{◌≡◌, ◌<◌, ◌≤◌, IfOk, OnOk};
ghost use Rattle.sftp_cli.specs.Bulk.{call_by, call_of, choice, draw, next_drawn_number, each, lane_of, times, turn_at, turn_of, value_of};

use crate::content::{content_of, name_of};
use session_model::{Call, Lane, Turn};
use sftp_model::Choice;
use sftp_values::Items;
use ssh_encoding::OutOfMemory;
use std::alloc::Global;
use std::marker::Model;

/// The most READs of a whole read.
const READ_BOUND: u32 = 10000;

/// The number of which the next draw is made.
#[derive(Drop)]
pub(crate) struct Draws {
    x: u64,
}

impl Model for Draws {
    ghost use Rattle.std.specs.Prelude.{ℕ};

    ghost Value = { ℕ };

    ghost view = { λ d. d.x };
}

impl Draws {
    /// Returns the state before any draw.
    pub(crate) fn new(start: u64) -> Draws
        ensures { result ≡ start }
    {
        Draws { x: start }
    }

    /// Returns the value of one draw.
    #[tactic(auto, unfolding(crate::specs::Bulk::next_drawn_number, crate::specs::Bulk::value_of))]
    pub(crate) fn next(&mut self) -> u32
        ensures gives { result ≡ value_of (next_drawn_number self.old) }
        ensures passes { self.new ≡ next_drawn_number self.old }
        ensures small { result < 2147483648 }
    {
        self.x = self
            .x
            .wrapping_mul(6364136223846793005)
            .wrapping_add(1442695040888963407);
        (self.x >> 33) as u32
    }

    /// Returns the call that a value chooses.
    fn call_by(&mut self, alloc: Global, lane: u32, v: u32) -> Result<Call, OutOfMemory>
        ensures gives { IfOk result (λ c. c ≡ (call_by lane v self.old).0) }
        ensures passes { OnOk result (self.new ≡ (call_by lane v self.old).1) }
    {
        let path = name_of(alloc, lane, v)?;
        if v % 4 < 2 {
            let w = self.next();
            let bytes = content_of(alloc, w)?;
            return Ok(Call::FsWrite { path, bytes });
        }
        if v % 4 == 2 {
            return Ok(Call::FsRead {
                path,
                bound: READ_BOUND,
            });
        }
        Ok(Call::Stat { path })
    }

    /// Returns a call of a lane.
    fn call(&mut self, alloc: Global, lane: u32) -> Result<Call, OutOfMemory>
        ensures gives { IfOk result (λ c. c ≡ (call_of lane self.old).0) }
        ensures passes { OnOk result (self.new ≡ (call_of lane self.old).1) }
    {
        let v = self.next();
        self.call_by(alloc, lane, v)
    }

    /// Returns all calls of a lane.
    fn calls_of_lane(
        &mut self,
        alloc: Global,
        lane: u32,
        calls: u32,
    ) -> Result<Items<Call>, OutOfMemory>
        ensures gives { IfOk result (λ made. made ≡ (times calls (call_of lane) self.old).0) }
        ensures passes { OnOk result (self.new ≡ (times calls (call_of lane) self.old).1) }
    {
        let mut made = Vec::new(alloc);
        for _k in 0..calls {
            let call = self.call(alloc, lane)?;
            made.push(call)?;
        }
        Ok(Items::new(made))
    }

    /// Returns a lane by its number.
    fn lane(&mut self, alloc: Global, calls: u32, lane: u32) -> Result<Lane, OutOfMemory>
        ensures gives { IfOk result (λ made. made ≡ (lane_of calls lane self.old).0) }
        ensures passes { OnOk result (self.new ≡ (lane_of calls lane self.old).1) }
    {
        let calls = self.calls_of_lane(alloc, lane, calls)?;
        Ok(Lane { calls })
    }

    /// Returns all lanes, from number 0 on.
    pub(crate) fn lanes(
        &mut self,
        alloc: Global,
        lanes: u32,
        calls: u32,
    ) -> Result<Items<Lane>, OutOfMemory>
        ensures gives { IfOk result (λ made. made ≡ (each (lane_of calls) 0 lanes self.old).0) }
        ensures passes { OnOk result (self.new ≡ (each (lane_of calls) 0 lanes self.old).1) }
    {
        let mut made = Vec::new(alloc);
        for k in 0..lanes {
            let lane = self.lane(alloc, calls, k)?;
            made.push(lane)?;
        }
        Ok(Items::new(made))
    }

    /// Returns a turn over this many lanes.
    fn turn(&mut self, lanes: u32) -> Turn
        requires { lanes ≤ 256 }
        ensures gives { result ≡ (turn_of lanes self.old).0 }
        ensures passes { self.new ≡ (turn_of lanes self.old).1 }
    {
        turn_at(lanes, self.next() % (lanes + 2))
    }

    /// Returns this many turns.
    pub(crate) fn turns(
        &mut self,
        alloc: Global,
        lanes: u32,
        count: u32,
    ) -> Result<Items<Turn>, OutOfMemory>
        requires { lanes ≤ 256 }
        ensures gives { IfOk result (λ made. made ≡ (times count (turn_of lanes) self.old).0) }
        ensures passes { OnOk result (self.new ≡ (times count (turn_of lanes) self.old).1) }
    {
        let mut made = Vec::new(alloc);
        for _k in 0..count {
            let turn = self.turn(lanes);
            made.push(turn)?;
        }
        Ok(Items::new(made))
    }

    /// Returns a choice, which refuses nothing.
    fn choice(&mut self) -> Choice
        ensures gives { result ≡ (choice self.old).0 }
        ensures passes { self.new ≡ (choice self.old).1 }
    {
        Choice {
            refuse: 0,
            cap: self.next() % 2000,
        }
    }

    /// Returns this many choices.
    pub(crate) fn choices(
        &mut self,
        alloc: Global,
        count: u32,
    ) -> Result<Items<Choice>, OutOfMemory>
        ensures gives { IfOk result (λ made. made ≡ (times count choice self.old).0) }
        ensures passes { OnOk result (self.new ≡ (times count choice self.old).1) }
    {
        let mut made = Vec::new(alloc);
        for _k in 0..count {
            let choice = self.choice();
            made.push(choice)?;
        }
        Ok(Items::new(made))
    }

    /// Returns this many picks, each the value of a draw.
    pub(crate) fn picks(&mut self, alloc: Global, count: u32) -> Result<Items<u32>, OutOfMemory>
        ensures gives { IfOk result (λ made. made ≡ (times count draw self.old).0) }
        ensures passes { OnOk result (self.new ≡ (times count draw self.old).1) }
    {
        let mut made = Vec::new(alloc);
        for _k in 0..count {
            let pick = self.next();
            made.push(pick)?;
        }
        Ok(Items::new(made))
    }
}

/// Returns the turn of a number: a step of a lane, a flush or a take.
fn turn_at(lanes: u32, t: u32) -> Turn
    ensures { result ≡ turn_at lanes t }
{
    if t < lanes {
        return Turn::Step(t);
    }
    if t == lanes {
        return Turn::Flush;
    }
    Turn::Take
}
