//! Laws of a session whose lanes have their turns. The functions do nothing: their postconditions hold of all values.
ghost use Rattle.session_work.specs.Holding.{LanesMayTurn, TurnsKeep};
ghost use Rattle.session_work.specs.Rests.{LanesAskInRange, LanesAwaitReplies, TurnsLeaveRest, WentTurnsAreFew};

/// A turn of a lane is the lane's move by the journal, and core and lanes are as the journal says then.
pub fn turns_keep_sessions()
    ensures { TurnsKeep }
{}

/// A lane of a session satisfies the preconditions of a turn: the core counts its tickets and grants, and its runner
/// may continue.
pub fn lanes_may_turn()
    ensures { LanesMayTurn }
{}

/// A turn of a lane leaves the session at rest, except for the grants that are due if its call ended; and the lane may
/// have that turn.
pub fn turns_leave_rest()
    ensures turns { TurnsLeaveRest }
    ensures may { LanesAwaitReplies }
    ensures range { LanesAskInRange }
{}

/// A turn that leaves no entry consumes a ticket, or is the first that awaits a reply.
pub fn went_turns_are_few()
    ensures { WentTurnsAreFew }
{}
