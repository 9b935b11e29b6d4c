//! A view of remote files over a link.
ghost use Rattle.std.specs.Prelude.{◌≡◌, ◌≤◌, ◌<◌, ◌^◌, ◌-◌, IfOk, IfErr};
ghost use Rattle.sftp_link.specs.Told.{IfLogged};
ghost use Rattle.session_driver.specs.Logs.{EndsAs};
ghost use Rattle.session_driver.specs.Ongoing.{run_state};
ghost use Rattle.session_driver.specs.Session.{IsFresh};
ghost use Rattle.link_frames.specs.Causes.{IsCausedByLink};
ghost use Rattle.session_model.specs.Journals.{IsJournal};
ghost use Rattle.sftp_lanes.specs.Complete.{StopsForMemory};
ghost use Rattle.sftp_lanes.specs.Seen.{IsNew, session_inputs, given_of, seen_of};
ghost use Rattle.view_model.specs.Blocks.{nothing_kept};
ghost use Rattle.sftp_view.specs.Doings.{one_lane};
ghost use Rattle.sftp_view.specs.Views.{IsNewView, IsViewReport, MayView, ViewsFiles};

use crate::close::close_session;
use crate::ops::View;
use session_driver::open;
use session_model::{Entry, Lane};
use sftp_lanes::Session;
use sftp_link::Link;
use sftp_model::{Error, SftpOptions};
use sftp_values::Items;
use ssh_encoding::OutOfMemory;
use std::alloc::Global;
use view_model::{Answer, BlockCache, ViewOp};

/// The report of a view.
///
/// Used in `crates/sftp_view/src/printed.rt`.
#[derive(Debug, Drop)]
pub struct ViewReport {
    /// The answer to each operation.
    pub answers: Items<Answer>,
    /// The number of lookups that found their block in the cache.
    pub hits: u64,
    /// The number of lookups that did not find their block in the cache.
    pub misses: u64,
    /// The journal of the session, with the calls that were made, the first entry first.
    pub journal: Items<Entry>,
}

impl View {
    /// Opens the session, does operations, and ends the session.
    fn drive<L: Link>(
        &mut self,
        alloc: Global,
        link: &mut L,
        ops: &[ViewOp],
    ) -> Result<Items<Answer>, Error>
        requires fresh { IsFresh (seen_of self.old.session) }
        requires lanes { (given_of self.old.session).lanes ≡ one_lane }
        requires empty { self.old.cache.kept ≡ nothing_kept }
        requires may { MayView self.old.block self.old.cache.capacity ops.now }
        requires count { (L.LinkState.state link.old).faults < 2 ^ 64 - 1 }
        ensures { ViewsFiles self.old.block self.old.cache.capacity ops.now (run_state (seen_of self.old.session) (L.LinkState.state link.old))
            (run_state (seen_of self.new.session) (L.LinkState.state link.new)) self.new.cache.kept result }
    {
        open(alloc, &mut self.session, link)?;
        let answers = self.run_all(alloc, link, ops)?;
        close_session(alloc, &mut self.session, link)?;
        Ok(answers)
    }
}

/// Returns a session with the lane of a view, which has no call yet.
fn new_session(alloc: Global, options: &SftpOptions) -> Result<Session, OutOfMemory>
    ensures { IfOk result (IsNew one_lane options.now) }
{
    let mut lanes = Vec::new(alloc);
    lanes.push(Lane {
        calls: Items::new(Vec::new(alloc)),
    })?;
    Session::new(alloc, lanes.as_slice(), options)
}

/// Returns a new view whose blocks have this length, and that keeps at most `capacity` of them.
fn new_view(
    alloc: Global,
    block: u32,
    capacity: u32,
    options: &SftpOptions,
) -> Result<View, OutOfMemory>
    requires { 1 ≤ capacity }
    ensures { IfOk result (λ view. IsNewView block capacity options.now view) }
{
    let session = new_session(alloc, options)?;
    let cache = BlockCache::new(alloc, capacity)?;
    Ok(View {
        session,
        cache,
        block,
    })
}

/// Does operations on remote files over a link, through a cache of at most `capacity` blocks of this length.
///
/// With `Ok` the report's journal is that of a session that is over. The link's log, if the link records one, shows
/// VERSION and that journal. The one lane has no calls at first; calls were added to it and run one at a time. They are exactly
/// those that the operations make by the outcomes of these calls, as `viewed` defines, and the answers, hits and misses
/// are those of `viewed`.
///
/// # Errors
///
/// `LinkFault` only if the link's count of faults rose, and `LinkEnded` only if its last call found the end. Each other
/// error except `OutOfMemory` is the first thing that is wrong with the frame that came last.
///
/// After an error the log shows VERSION and a journal that is a run so far, or the hello. After that it shows nothing,
/// a prefix of the next frames to be sent, or bytes of one frame that wasn't taken, and none past it.
///
/// The error is `OutOfMemory` if the link is new, has no fault, returns VERSION 3, and returns for each request that
/// was sent a reply that may be taken.
pub fn run_view<L: Link>(
    alloc: Global,
    link: &mut L,
    ops: &[ViewOp],
    block: u32,
    capacity: u32,
    options: &SftpOptions,
) -> Result<ViewReport, Error>
    requires may { MayView block capacity ops.now }
    requires count { (L.LinkState.state link.old).faults < 2 ^ 64 - 1 }
    ensures run { IfOk result (λ r. IsViewReport block capacity ops.now options.now (L.LinkState.state link.old).log (L.LinkState.state link.new).log r) }
    ensures stops { IfErr result (λ e. IfLogged (EndsAs (session_inputs one_lane options.now) IsJournal (L.LinkState.state link.new).ended e) (L.LinkState.state link.old).log (L.LinkState.state link.new).log) }
    ensures caused { IsCausedByLink (L.LinkState.state link.old) (L.LinkState.state link.new) result }
    ensures complete { IfErr result (StopsForMemory (session_inputs one_lane options.now) (L.LinkState.state link.old) (L.LinkState.state link.new)) }
{
    let mut view = match new_view(alloc, block, capacity, options) {
        Ok(view) => view,
        Err(OutOfMemory) => return Err(Error::OutOfMemory),
    };
    let answers = view.drive(alloc, link, ops)?;
    let hits = view.cache.hits();
    let misses = view.cache.misses();
    let View {
        session,
        cache: _,
        block: _,
    } = view;
    Ok(ViewReport {
        answers,
        hits,
        misses,
        journal: session.into_journal(),
    })
}
