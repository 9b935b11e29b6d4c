//! The end of a program, and its exit status.
ghost use Rattle.std.specs.Prelude.{◌≡◌};
ghost use Rattle.std.specs.Option.{option_copied};
ghost use Rattle.program_shell.specs.Ended.{status_of};
ghost use Rattle.program_shell.specs.Texts.{cause_of};
ghost use Rattle.program_shell.specs.declared.ending.ProgramFailure.TheVariants as failure;

use ssh_encoding::OutOfMemory;

/// The status if an error stopped the session.
pub const STOPPED: u8 = 1;

/// The status if an allocation failed.
pub const OUT_OF_MEMORY: u8 = 5;

/// The status if the dial returned no link.
pub const NO_LINK: u8 = 6;

/// The meaning of an answer that was written whole.
///
/// Example: `crates/sftp_cli/src/bulk.rt`.
#[derive(Clone, Copy, Debug, PartialEq, Eq)]
pub enum Answered {
    /// Everything was done.
    Done,
    /// An error stopped the session.
    Stopped,
    /// The bytes that were read, or the arguments, can't be used.
    Refused,
}

/// The reason why an answer isn't written whole.
///
/// Example: `crates/sftp_share/src/share.rt`.
#[derive(Clone, Copy, Debug, PartialEq, Eq)]
pub enum ProgramFailure {
    /// The source failed.
    SourceFailed,
    /// The sink failed.
    SinkFailed,
    /// Out of memory.
    OutOfMemory,
    /// The dial returned no link.
    DialFailed,
}

/// Returns the exit status:
///
/// - 0: everything was done.
/// - 1: an error stopped the session.
/// - 2: the bytes that were read, or the arguments, can't be used.
/// - 3: the source failed.
/// - 4: the sink failed.
/// - 5: an allocation failed.
/// - 6: the dial failed.
pub fn status_of(end: Result<Answered, ProgramFailure>) -> u8
    ensures { result ≡ status_of end }
{
    match end {
        Ok(Answered::Done) => 0,
        Ok(Answered::Stopped) => STOPPED,
        Ok(Answered::Refused) => 2,
        Err(ProgramFailure::SourceFailed) => 3,
        Err(ProgramFailure::SinkFailed) => 4,
        Err(ProgramFailure::OutOfMemory) => OUT_OF_MEMORY,
        Err(ProgramFailure::DialFailed) => NO_LINK,
    }
}

/// Returns the message on standard error for a status, which is the reason why no answer was written whole. Returns
/// `None` for the statuses of an answer.
pub fn cause_of(status: u8) -> Option<&'static str>
    ensures { option_copied result ≡ cause_of status }
{
    match status {
        3 => Some("standard input failed"),
        4 => Some("standard output failed"),
        OUT_OF_MEMORY => Some("out of memory"),
        NO_LINK => Some("no server listens"),
        _ => None,
    }
}

impl From<OutOfMemory> for ProgramFailure {
    ghost from_gives = { λ _ e. e ≡ failure.OutOfMemory };

    fn from(_: OutOfMemory) -> ProgramFailure {
        ProgramFailure::OutOfMemory
    }
}
