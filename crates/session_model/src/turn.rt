//! Turns of a schedule.
/// One turn of a schedule. A lane is named by its number, from 0 on.
///
/// Example: `crates/mirror_jobs/src/turns.rt`.
#[derive(Clone, Copy, Debug, PartialEq, Eq)]
pub enum Turn {
    /// The next move of this lane.
    Step(u32),
    /// Sends the unsent requests.
    Flush,
    /// Takes one reply.
    Take,
    /// Cancels this lane's call, if it was started.
    Cancel(u32),
}
