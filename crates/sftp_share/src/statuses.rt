//! The end of the program, and its exit status.
ghost use Rattle.std.specs.Prelude.{◌≡◌};
ghost use Rattle.std.specs.Option.{option_copied};
ghost use Rattle.sftp_share.specs.Ended.{cause_of, share_status};

pub(crate) use program_shell::OUT_OF_MEMORY;
use program_shell::{Answered, ProgramFailure, status_of};

/// The status if the whole text was written, and a reply is not the machine's.
const DIFFERS: u8 = 7;

/// Returns the exit status: 7 if the whole text was written for a run whose replay differs, otherwise that of
/// `status_of`.
pub(crate) fn share_status(differs: bool, end: Result<Answered, ProgramFailure>) -> u8
    ensures { result ≡ share_status differs end }
{
    match end {
        Ok(Answered::Done) => { if differs { DIFFERS } else { 0 } }
        other => status_of(other),
    }
}

/// Returns the message on standard error for a status other than 0.
pub(crate) fn cause_of(status: u8) -> Option<&'static str>
    ensures { option_copied result ≡ cause_of status }
{
    match status {
        1 => Some("the session failed"),
        2 => Some("the script or the arguments are invalid"),
        DIFFERS => Some("a reply differs from the machine's reply"),
        other => program_shell::cause_of(other),
    }
}
