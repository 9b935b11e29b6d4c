//! The blocks of a file: those that are kept, and those that are read.
ghost use Rattle.std.specs.Prelude.{◌≡◌, ◌≤◌, ◌<◌, ◌+◌, ◌*◌, ◌^◌, [], Ok};
ghost use Rattle.session_driver.specs.Ongoing.{run_state};
ghost use Rattle.sftp_lanes.specs.Seen.{seen_of};
ghost use Rattle.view_model.specs.Viewed.{fetched_block, pure, read_at, read_on};
ghost use Rattle.sftp_view.specs.Doings.{IsIdle, MayDo, DoesBySession};

use crate::call::{Found, make_call};
use sftp_lanes::Session;
use sftp_link::Link;
use sftp_model::Error;
use sftp_values::ByteText;
use std::alloc::Global;
use view_model::calls::{close, open_to_read, read_up_to, seek_to};

/// Reads the file in the slot from its offset on, until a block is full, the file ends, or a read is refused.
fn read_block<L: Link>(
    alloc: Global,
    session: &mut Session,
    link: &mut L,
    block: u32,
) -> Result<Found, Error>
    requires idle { IsIdle (run_state (seen_of session.old) (L.LinkState.state link.old)) }
    requires may { MayDo (read_on block block []) (seen_of session.old).progress.past }
    ensures { DoesBySession (read_on block block []) pure (run_state (seen_of session.old) (L.LinkState.state link.old)) (run_state (seen_of session.new) (L.LinkState.state link.new)) result }
{
    let mut bytes = Vec::new(alloc);
    for _read in 0..block {
        let missing = block - bytes.len() as u32;
        match make_call(alloc, session, link, read_up_to(missing))? {
            Err(code) => return Ok(Err(code)),
            Ok(more) => {
                let more = more.as_slice();
                if bytes.extend_from_slice(more).is_err() {
                    return Err(Error::OutOfMemory);
                }
                if more.is_empty() {
                    return Ok(Ok(ByteText::new(bytes)));
                }
                if bytes.len() >= block as usize {
                    return Ok(Ok(ByteText::new(bytes)));
                }
            }
        }
    }
    Ok(Ok(ByteText::new(bytes)))
}

/// Reads a block of the file in the slot, and closes the file.
fn read_at<L: Link>(
    alloc: Global,
    session: &mut Session,
    link: &mut L,
    block: u32,
    n: u64,
) -> Result<Found, Error>
    requires idle { IsIdle (run_state (seen_of session.old) (L.LinkState.state link.old)) }
    requires may { MayDo (read_at block n) (seen_of session.old).progress.past }
    requires fits { n * block < 2 ^ 64 }
    ensures { DoesBySession (read_at block n) pure (run_state (seen_of session.old) (L.LinkState.state link.old)) (run_state (seen_of session.new) (L.LinkState.state link.new)) result }
{
    let _ = make_call(alloc, session, link, seek_to(n * u64::from(block)))?;
    let found = read_block(alloc, session, link, block)?;
    let _ = make_call(alloc, session, link, close())?;
    Ok(found)
}

/// Opens a file, reads a block of it, and closes it again.
///
/// # Errors
///
/// The error that stopped the session.
pub fn fetch_block<L: Link>(
    alloc: Global,
    session: &mut Session,
    link: &mut L,
    block: u32,
    path: &ByteText,
    n: u64,
) -> Result<Found, Error>
    requires idle { IsIdle (run_state (seen_of session.old) (L.LinkState.state link.old)) }
    requires may { MayDo (fetched_block block path.now n) (seen_of session.old).progress.past }
    requires fits { n * block < 2 ^ 64 }
    ensures { DoesBySession (fetched_block block path.now n) pure (run_state (seen_of session.old) (L.LinkState.state link.old)) (run_state (seen_of session.new) (L.LinkState.state link.new)) result }
{
    let open = match open_to_read(alloc, path) {
        Ok(open) => open,
        Err(_) => return Err(Error::OutOfMemory),
    };
    match make_call(alloc, session, link, open)? {
        Ok(_nothing) => {}
        Err(code) => return Ok(Err(code)),
    }
    read_at(alloc, session, link, block, n)
}
