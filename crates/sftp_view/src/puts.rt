//! Writes bytes to a file.
ghost use Rattle.std.specs.Prelude.{Ok};
ghost use Rattle.session_driver.specs.Ongoing.{run_state};
ghost use Rattle.sftp_lanes.specs.Seen.{seen_of};
ghost use Rattle.view_model.specs.Viewed.{pure, put_at, write_bytes};
ghost use Rattle.sftp_view.specs.Doings.{IsIdle, MayDo, DoesBySession};

use crate::call::make_call;
use sftp_lanes::Session;
use sftp_link::Link;
use sftp_model::Error;
use sftp_values::ByteText;
use std::alloc::Global;
use view_model::Answer;
use view_model::calls::{close, open_to_write, seek_to, write_all};

/// Writes bytes to the file in the slot at an offset, and closes the file.
fn put_at<L: Link>(
    alloc: Global,
    session: &mut Session,
    link: &mut L,
    offset: u64,
    content: &ByteText,
) -> Result<Answer, Error>
    requires idle { IsIdle (run_state (seen_of session.old) (L.LinkState.state link.old)) }
    requires may { MayDo (put_at offset content.now) (seen_of session.old).progress.past }
    ensures { DoesBySession (put_at offset content.now) pure (run_state (seen_of session.old) (L.LinkState.state link.old)) (run_state (seen_of session.new) (L.LinkState.state link.new)) result }
{
    let write = match write_all(alloc, content) {
        Ok(write) => write,
        Err(_) => return Err(Error::OutOfMemory),
    };
    let _ = make_call(alloc, session, link, seek_to(offset))?;
    let wrote = make_call(alloc, session, link, write)?;
    let _ = make_call(alloc, session, link, close())?;
    match wrote {
        Ok(_nothing) => Ok(Answer::Put),
        Err(code) => Ok(Answer::Refused { code }),
    }
}

/// Opens a file, writes bytes to it at an offset, and closes it again. A missing file is created.
///
/// # Errors
///
/// The error that stopped the session.
pub fn write_file<L: Link>(
    alloc: Global,
    session: &mut Session,
    link: &mut L,
    path: &ByteText,
    offset: u64,
    content: &ByteText,
) -> Result<Answer, Error>
    requires idle { IsIdle (run_state (seen_of session.old) (L.LinkState.state link.old)) }
    requires may { MayDo (write_bytes path.now offset content.now) (seen_of session.old).progress.past }
    ensures { DoesBySession (write_bytes path.now offset content.now) pure (run_state (seen_of session.old) (L.LinkState.state link.old)) (run_state (seen_of session.new) (L.LinkState.state link.new)) result }
{
    let open = match open_to_write(alloc, path) {
        Ok(open) => open,
        Err(_) => return Err(Error::OutOfMemory),
    };
    match make_call(alloc, session, link, open)? {
        Ok(_nothing) => {}
        Err(code) => return Ok(Answer::Refused { code }),
    }
    put_at(alloc, session, link, offset, content)
}
