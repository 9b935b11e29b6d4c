//! Eight lanes of two hundred calls in threads, over a link whose replies are laid out beforehand, each to one request;
//! frames are laid out by draft-ietf-secsh-filexfer-02, sections 3 to 7.
ghost use Rattle.std.specs.Prelude.{◌≡◌, true};
ghost use Rattle.plan_model.specs.Lanes.{are_ok};

use crate::receipts::are_receipts_of;
use crate::sheet::{Page, Sheet, halves};
use session_threads::run_shared;
use sftp_tasks::{Call, Lane, Report, SftpOptions, lanes_ok};
use sftp_values::{ByteText, Items};
use std::alloc::{AllocError, Global};
use std::sync::Wait;
use std::thread::Threads;
use std::time::Clock;

/// The lengths and the type bytes of replies: STATUS without texts, HANDLE of a handle of two bytes, ATTRS with a size.
const STATUS: &[u8] = &[0, 0, 0, 17, 101];

const HANDLE: &[u8] = &[0, 0, 0, 11, 102];

const ATTRS: &[u8] = &[0, 0, 0, 17, 105];

/// The fields of STATUS: `SSH_FX_OK` and `SSH_FX_NO_SUCH_FILE`, each without texts.
const OK: &[u8] = &[0, 0, 0, 0, 0, 0, 0, 0, 0, 0, 0, 0];

const NO_SUCH_FILE: &[u8] = &[0, 0, 0, 2, 0, 0, 0, 0, 0, 0, 0, 0];

fn add_page(
    alloc: Global,
    request: &[u8],
    head: &[u8],
    fields: &[u8],
    pages: &mut Vec<Page>,
) -> Result<(), AllocError> {
    let request = Vec::from_slice(alloc, request)?;
    let head = Vec::from_slice(alloc, head)?;
    let fields = Vec::from_slice(alloc, fields)?;
    pages.push(Page {
        request,
        head,
        fields,
    })?;
    Ok(())
}

/// Adds the pages of an OPEN that creates or truncates, a WRITE of one byte and a CLOSE; the handle is the path.
fn add_write(alloc: Global, name: u8, k: u8, pages: &mut Vec<Page>) -> Result<(), AllocError> {
    let handle = &[0, 0, 0, 2, name, k];
    add_page(
        alloc,
        &[3, 0, 0, 0, 2, name, k, 0, 0, 0, 26, 0, 0, 0, 0],
        HANDLE,
        handle,
        pages,
    )?;
    add_page(
        alloc,
        &[
            6, 0, 0, 0, 2, name, k, 0, 0, 0, 0, 0, 0, 0, 0, 0, 0, 0, 1, k,
        ],
        STATUS,
        OK,
        pages,
    )?;
    add_page(alloc, &[4, 0, 0, 0, 2, name, k], STATUS, OK, pages)
}

/// Adds the replies to the requests of a call, by its lane's letter and its number. A STAT is answered with a size that
/// is spelled by these.
fn add_pages(alloc: Global, name: u8, k: u8, pages: &mut Vec<Page>) -> Result<(), AllocError> {
    match k % 4 {
        0 => add_page(
            alloc,
            &[17, 0, 0, 0, 2, name, k],
            ATTRS,
            &[0, 0, 0, 1, 0, 0, 0, 0, 0, 0, name, k],
            pages,
        ),
        1 => add_page(
            alloc,
            &[14, 0, 0, 0, 2, name, k, 0, 0, 0, 0],
            STATUS,
            OK,
            pages,
        ),
        2 => add_page(
            alloc,
            &[13, 0, 0, 0, 2, name, k],
            STATUS,
            NO_SUCH_FILE,
            pages,
        ),
        _ => add_write(alloc, name, k, pages),
    }
}

/// Returns a call of a lane on a path of two bytes, the lane's letter and the call's number.
fn call_of(alloc: Global, name: u8, k: u8) -> Result<Call, AllocError> {
    let bytes = ByteText::new(Vec::from_slice(alloc, &[k])?);
    let path = ByteText::new(Vec::from_slice(alloc, &[name, k])?);
    Ok(match k % 4 {
        0 => Call::Stat { path },
        1 => Call::Mkdir { path },
        2 => Call::Remove { path },
        _ => Call::FsWrite { path, bytes },
    })
}

/// Returns the calls of a lane, and adds the pages of their requests.
fn calls(alloc: Global, name: u8, pages: &mut Vec<Page>) -> Result<Vec<Call>, AllocError> {
    let mut calls = Vec::new(alloc);
    for k in 0..200u8 {
        add_pages(alloc, name, k, pages)?;
        calls.push(call_of(alloc, name, k)?)?;
    }
    Ok(calls)
}

/// Returns eight lanes, and the pages of their requests.
fn laid_out(alloc: Global) -> Result<(Vec<Lane>, Vec<Page>), AllocError> {
    let mut lanes = Vec::new(alloc);
    let mut pages = Vec::new(alloc);
    for name in b"abcdefgh" {
        let calls = Items::new(calls(alloc, *name, &mut pages)?);
        lanes.push(Lane { calls })?;
    }
    Ok((lanes, pages))
}

/// Runs the lanes over the halves of a sheet, compares the receipts with the journal, and returns the report.
fn run_over<R: Threads + Wait + Clock + Sync + Send + Clone + Drop>(
    rt: &R,
    alloc: Global,
    lanes: &[Lane],
    pages: Vec<Page>,
) -> Result<Report, &'static str>
    requires { are_ok lanes.now ≡ true }
{
    let Ok((out, input)) = halves(rt, alloc, Sheet::new(alloc, pages)) else {
        return Err("no memory");
    };
    let (result, _, _) = run_shared(rt, alloc, out, input, lanes, &SftpOptions::new());
    let Ok(report) = result else {
        return Err("the run stopped");
    };
    match are_receipts_of(alloc, report.journal.as_slice(), report.receipts.as_slice()) {
        Ok(true) => Ok(report.report),
        Ok(false) => Err("the receipts aren't those of the journal"),
        Err(_) => Err("no memory"),
    }
}

/// Runs eight lanes of two hundred calls over a link whose replies are laid out beforehand, compares the receipts with
/// the journal, and returns the report.
pub(crate) fn run_sheet<R: Threads + Wait + Clock + Sync + Send + Clone + Drop>(
    rt: &R,
    alloc: Global,
) -> Result<Report, &'static str> {
    let Ok((lanes, pages)) = laid_out(alloc) else {
        return Err("no memory");
    };
    if !lanes_ok(lanes.as_slice()) {
        return Err("a session can't be given the lanes");
    }
    run_over(rt, alloc, lanes.as_slice(), pages)
}
