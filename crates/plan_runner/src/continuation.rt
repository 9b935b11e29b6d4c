//! The continuation of a started call, for any call.
ghost use Rattle.std.specs.Prelude.{◌≡◌, Some, None};
ghost use Rattle.plan_runner.specs.Ran.{ContinuesByPlan};
ghost use Rattle.plan_runner.specs.Runners.{after, awaited_place, place_in};
ghost use Rattle.plan_window.specs.Windows.{first_of};
ghost use Rattle.plan_runner.specs.Sound.{AreWithin, AsksWithin, IsFittingReply, IsRunningSound};

use crate::buffer_flush::flush_replied;
use crate::buffer_read::filled_replied;
use crate::buffer_write::{Unwritten, defer_rest, room_replied};
use crate::file_calls::{CopyData, copy_replied};
use crate::next::{Next, Running};
use crate::open_call::open_replied;
use crate::read_all_call::{Missing, content_replied};
use crate::read_call::read_replied;
use crate::single::ending_told;
use crate::site::{oldest_deferred, reading_under_way};
use crate::turn::Turn;
use crate::whole::{Readdir, directory_opened, names_replied, whole_opened};
use crate::whole_read::{read_on, read_opened, window_replied};
use crate::write_call::{Part, part_replied, write_replied};
use plan_window::Window;
use sftp_model::{Outcome, Reply, Site};
use ssh_encoding::OutOfMemory;

impl Running {
    /// Returns the place of the request whose reply is awaited.
    pub fn awaited(&self, site: &Site) -> Option<u64>
        ensures { result ≡ awaited_place self.now site.now }
    {
        match self {
            Running::ReadingWhole { window, .. } => first_place(window),
            Running::Flushing { slot } => oldest_deferred(site, *slot),
            Running::AwaitingRoom { slot, .. } => oldest_deferred(site, *slot),
            Running::FillingBuffer { slot, .. } => reading_under_way(site, *slot),
            _ => self.own_place(),
        }
    }
}

/// Returns the place of the first READ of a window that was not answered.
fn first_place(window: &Window) -> Option<u64>
    ensures { result ≡ place_in (first_of window.now.waiting) }
{
    match window.first() {
        Some(read) => Some(read.place),
        None => None,
    }
}

/// Continues a call after the reply that it awaited, if it awaited one. `bytes` are those that the call carries.
///
/// # Errors
///
/// `OutOfMemory` if an allocation fails; `site` is unchanged.
pub fn go_on(
    turn: Turn,
    running: Running,
    reply: Option<Reply>,
    bytes: &[u8],
    site: &mut Site,
) -> Result<Next, OutOfMemory>
    requires sound { IsRunningSound running bytes.now site.old turn.facts }
    requires within { AreWithin turn.facts site.old }
    requires fits { IsFittingReply running reply }
    requires range { AsksWithin turn.facts (after running bytes.now site.old turn.facts reply) }
    ensures { ContinuesByPlan running reply bytes.now turn.place site.old site.new turn.facts result }
{
    let Some(reply) = reply else {
        return go_on_at_once(turn, running, bytes, site);
    };
    match running {
        Running::Ending { by, .. } => Ok(Next::Done(ending_told(turn.alloc, by, reply)?)),
        Running::Opening { place, slot, flags } => {
            Ok(Next::Done(open_replied(place, slot, flags, reply, site)))
        }
        Running::Reading { slot, file, .. } => {
            Ok(Next::Done(read_replied(slot, file, reply, site)))
        }
        Running::Gathering {
            place: awaited,
            slot,
            file,
            got,
            left,
            len,
        } => {
            let read = Missing {
                awaited,
                slot,
                file,
                left,
                len,
            };
            content_replied(turn, read, got, reply, site)
        }
        Running::Sending {
            slot,
            file,
            len,
            ..
        } => Ok(Next::Done(write_replied(slot, file, len, reply, site))),
        Running::Writing {
            place: awaited,
            slot,
            file,
            done,
        } => {
            let part = Part {
                awaited,
                slot,
                file,
                done,
            };
            part_replied(turn, part, reply, bytes, site)
        }
        Running::OpeningToWrite { place: grant } => whole_opened(turn, grant, reply, bytes, site),
        Running::OpeningToRead {
            place: grant,
            bound,
        } => read_opened(turn, grant, bound, reply, site),
        Running::ReadingWhole {
            grant,
            bound,
            window,
        } => window_replied(turn, grant, bound, window, reply, site),
        Running::OpeningDirectory {
            place: grant,
            bound,
        } => Ok(directory_opened(turn, grant, bound, reply, site)),
        Running::Listing {
            place: awaited,
            grant,
            got,
            bound,
        } => {
            let read = Readdir {
                awaited,
                grant,
                bound,
            };
            names_replied(turn, read, got, reply, site)
        }
        Running::Flushing { slot } => {
            Ok(flush_replied(slot, reply, turn.place, site, &turn.facts))
        },
        Running::AwaitingRoom { slot, done } => {
            room_replied(turn, Unwritten { slot, done }, reply, bytes, site)
        }
        Running::Deferred { count, .. } => Ok(Next::Done(Outcome::Count(count as u64))),
        Running::DeferringRest { slot, done } => defer_rest(turn, slot, done, bytes, site),
        Running::FillingBuffer {
            slot,
            n,
            offset,
            ..
        } => Ok(Next::Done(filled_replied(turn.alloc, slot, n, offset, reply, site)?)),
        Running::Copying {
            from,
            to,
            source,
            target,
            len,
            ..
        } => {
            let copy = CopyData {
                from,
                to,
                source,
                target,
                len,
            };
            Ok(Next::Done(copy_replied(copy, reply, site)))
        }
    }
}

/// Continues a call that awaits no reply. Fails only if an allocation fails; `site` is unchanged.
fn go_on_at_once(
    turn: Turn,
    running: Running,
    bytes: &[u8],
    site: &mut Site,
) -> Result<Next, OutOfMemory>
    requires sound { IsRunningSound running bytes.now site.old turn.facts }
    requires within { AreWithin turn.facts site.old }
    requires range { AsksWithin turn.facts (after running bytes.now site.old turn.facts None) }
    ensures { ContinuesByPlan running None bytes.now turn.place site.old site.new turn.facts result }
{
    match running {
        Running::Deferred { count, .. } => Ok(Next::Done(Outcome::Count(count as u64))),
        Running::DeferringRest { slot, done } => defer_rest(turn, slot, done, bytes, site),
        Running::ReadingWhole {
            grant,
            bound,
            window,
        } => read_on(turn, grant, bound, window, site),
        _ => Ok(Next::Done(Outcome::NoFile)),
    }
}
