//! A turn of a session.
ghost use Rattle.std.specs.Prelude.{Result};
ghost use Rattle.sftp_model.specs.declared.error.Error.{Error as ErrorValue};
ghost use Rattle.transfer_pool.specs.Sessions.{IsGoing, TookTurn};

use sftp_client::Sftp;
use sftp_link::Link;
use sftp_model::Error;
use transfer_copy::CopyError;

/// Sends the queued frames, and takes one frame if a sent request has no reply. A kept fault is returned before the
/// link is called.
///
/// # Errors
///
/// The fault that the session keeps, or the error of this turn. The session still holds what it held.
pub fn turn<L: Link>(sftp: &mut Sftp<L>) -> Result<(), Error>
    requires { IsGoing L.LinkState.state sftp.old }
    ensures { TookTurn L.LinkState.state sftp.old sftp.new result }
{
    if let Some(fault) = sftp.core().fault() {
        return Err(Error::BackgroundTaskFailure(fault));
    }
    // No `?`: it converts the error, and the clause is by cases on the result.
    match sftp.flush() {
        Ok(()) => match sftp.take() {
            Ok(_) => Ok(()),
            Err(e) => Err(e),
        },
        Err(e) => Err(e),
    }
}

/// Takes a turn, in which a kept fault is no error: each copy is notified of it.
pub(crate) fn turn_on<L: Link>(sftp: &mut Sftp<L>) -> Result<(), CopyError>
    requires { IsGoing L.LinkState.state sftp.old }
    ensures { (turned : Result (Unit {0}) ErrorValue) × TookTurn L.LinkState.state sftp.old sftp.new turned }
{
    match turn(sftp) {
        Ok(()) => Ok(()),
        Err(e) => {
            if sftp.core().fault().is_some() {
                return Ok(());
            }
            Err(e.into())
        }
    }
}
