//! Entries of a directory, as they come.
ghost use Rattle.std.specs.Prelude.{◌≡◌, true, false, None, Some};
ghost use Rattle.sftp_model.specs.Answers.{allows_reply};
ghost use Rattle.sftp_model.specs.declared.answers.Expected.TheVariants as expected;
ghost use Rattle.sftp_model.specs.declared.reply.Reply.TheVariants as reply;
ghost use Rattle.sftp_model.specs.declared.request.Request.TheVariants as request;
ghost use Rattle.sftp_model.specs.Frames.{is_too_long};
ghost use Rattle.plan_state.specs.Asked.{HoldsTicket, IsReady};
ghost use Rattle.plan_state.specs.Keeping.{KeepsGrants};
ghost use Rattle.sftp_fs.specs.Directories.{ClosesDir};
ghost use Rattle.sftp_fs.specs.Listings.{IsAwaiting, IsEmpty, IsListing, MayList, fresh_listing, given_up};
ghost use Rattle.sftp_fs.specs.Listings.{AsksMore, TakesListingReply, PollsEntries, TakesEntry, entry_told, left_by};

use crate::dir_entry::DirEntry;
use sftp_core::{Core, Ended, Grant, Polled, SubmitError, Ticket};
use sftp_file::{CloseCall, Poll, close_call};
use sftp_model::numbers::SSH_FX_EOF;
use sftp_model::{Error, NameEntry, Reply, Request};
use sftp_values::Items;
use std::alloc::Global;
use std::marker::Model;
use std::vec::IntoIter;

/// The listing of a directory. It isn't droppable: `start_close` consumes it, and `let_go` does after its core was
/// given up. A contract sees the grant, the entries that came and were not returned yet, the number of the READDIR
/// whose reply is awaited, and whether the end came.
///
/// Example: `crates/sftp_client/src/sftp/directories.rt`.
#[must_use]
pub struct ReadDir {
    grant: Grant,
    entries: IntoIter<NameEntry>,
    asked: Option<Ticket>,
    ended: bool,
}

impl Model for ReadDir {
    ghost use Rattle.std.specs.Vec.Iter.{into_iter_items};
    ghost use Rattle.sftp_fs.specs.Listings.{ListingValue};

    ghost Value = { ListingValue };

    ghost view = { λ d. record {
      grant = d.grant;
      entries = into_iter_items d.entries;
      asked = d.asked;
      ended = d.ended;
    } };
}

impl ReadDir {
    /// Returns the listing of a directory from the server's position in it; nothing has come yet.
    pub(crate) fn new(alloc: Global, grant: Grant) -> ReadDir
        ensures { result ≡ fresh_listing grant }
    {
        ReadDir {
            grant,
            entries: Vec::new(alloc).into_iter(),
            asked: None,
            ended: false,
        }
    }

    /// Returns the next entry, in the server's order: each entry of a NAME is returned once. Returns `None` after a
    /// STATUS of EOF or a NAME without entries, and always from then on. If no entry is left, more are asked for
    /// (draft-ietf-secsh-filexfer-02, section 6.7). Returns `Pending` if they were asked for now, or if the reply was
    /// not taken and the core has recorded no fault.
    ///
    /// # Errors
    ///
    /// `SftpError` for a STATUS of another code: the next poll asks again. `BackgroundTaskFailure` if the core has
    /// recorded a fault and no reply was taken. `OutOfMemory` if nothing could be asked for: the listing may be polled
    /// again.
    pub fn poll_next(&mut self, core: &mut Core) -> Poll<Option<Result<DirEntry, Error>>>
        requires { MayList core.old self.old }
        ensures { PollsEntries core.old core.new self.old self.new result }
    {
        if self.ended {
            return Poll::Ready(None);
        }
        if let Some(entry) = self.next_entry() {
            return Poll::Ready(Some(Ok(entry)));
        }
        match self.asked.take() {
            None => self.ask(core),
            Some(ticket) => self.hear(core, ticket),
        }
    }

    /// Returns the next of the entries that are left.
    fn next_entry(&mut self) -> Option<DirEntry>
        ensures { TakesEntry self.old self.new result }
    {
        self.entries.next().map(DirEntry::new)
    }

    /// Asks for more entries.
    fn ask(&mut self, core: &mut Core) -> Poll<Option<Result<DirEntry, Error>>>
        requires few { IsEmpty self.old }
        requires listing { IsListing core.old self.old }
        requires ready { IsReady core.old }
        ensures { AsksMore core.old core.new self.old self.new result }
    {
        match core.submit(&self.readdir_request()) {
            Ok(ticket) => {
                self.put(ticket);
                Poll::Pending
            }
            Err(SubmitError::Failed(fault)) => {
                Poll::Ready(Some(Err(Error::BackgroundTaskFailure(fault))))
            }
            Err(SubmitError::TooLong) => unreachable!(),
            Err(SubmitError::OutOfMemory) => Poll::Ready(Some(Err(Error::OutOfMemory))),
        }
    }

    /// Returns the READDIR of the directory. It fits a frame, since a handle has at most 256 bytes.
    fn readdir_request(&self) -> Request
        ensures is { result ≡ request.Readdir self.now.grant.handle }
        ensures short { is_too_long result ≡ false }
    {
        let handle = self.grant.handle();
        let _short = handle.as_bytes();
        Request::Readdir {
            handle: handle.copied(),
        }
    }

    /// Continues with the reply to a READDIR, if it was taken.
    fn hear(&mut self, core: &mut Core, ticket: Ticket) -> Poll<Option<Result<DirEntry, Error>>>
        requires few { IsEmpty self.old }
        requires held { HoldsTicket core.old ticket expected.Names }
        ensures { TakesListingReply core.old core.new self.old self.new ticket result }
    {
        match core.poll(ticket) {
            Ok(Polled::Reply(reply)) => Poll::Ready(self.tell(reply)),
            Ok(Polled::Granted(_grant)) => unreachable!(),
            Ok(Polled::Failed(fault)) => {
                Poll::Ready(Some(Err(Error::BackgroundTaskFailure(fault))))
            }
            Err(ticket) => {
                self.put(ticket);
                Poll::Pending
            }
        }
    }

    /// Returns the result that a reply to a READDIR gives.
    fn tell(&mut self, reply: Reply) -> Option<Result<DirEntry, Error>>
        requires few { IsEmpty self.old }
        requires allowed { allows_reply expected.Names reply ≡ true }
        ensures told { result ≡ entry_told reply }
        ensures left { self.new ≡ left_by self.old reply }
    {
        match reply {
            Reply::Names(names) => self.tell_names(names),
            Reply::Status {
                code,
                message,
                language,
            } => {
                if code == SSH_FX_EOF {
                    self.ended = true;
                    return None;
                }
                Some(Err(Error::SftpError {
                    code,
                    message,
                    language,
                }))
            }
            _ => unreachable!(),
        }
    }

    /// Returns the result that a NAME gives.
    fn tell_names(&mut self, names: Items<NameEntry>) -> Option<Result<DirEntry, Error>>
        requires few { IsEmpty self.old }
        ensures told { result ≡ entry_told (reply.Names names) }
        ensures left { self.new ≡ left_by self.old (reply.Names names) }
    {
        self.entries = names.into_vec().into_iter();
        match self.next_entry() {
            Some(entry) => Some(Ok(entry)),
            None => {
                self.ended = true;
                None
            }
        }
    }

    /// Awaits the reply to this READDIR.
    fn put(&mut self, ticket: Ticket)
        requires { self.old.asked ≡ None }
        ensures { self.new ≡ record self.old { asked = Some ticket } }
    {
        match self.asked.replace(ticket) {
            None => {}
            Some(_ticket) => unreachable!(),
        }
    }

    /// Returns true if the end came: every later poll returns `None`.
    pub fn is_terminated(&self) -> bool
        ensures { result ≡ self.now.ended }
    {
        self.ended
    }

    /// Releases the listing and its directory. The reply to a READDIR under way is dropped. CLOSE is sent exactly for
    /// the last user; the first poll of any other user's call returns `()` (draft-ietf-secsh-filexfer-02, section 6.3).
    /// It can't be refused.
    pub fn start_close(self, core: &mut Core) -> CloseCall
        requires { IsListing core.old self }
        ensures { ClosesDir self.grant (given_up core.old self.asked) core.new result }
    {
        let ReadDir {
            grant,
            entries: _,
            asked,
            ended: _,
        } = self;
        give_up(core, asked);
        close_call(core.release(grant))
    }

    /// Releases the listing after its core was given up. No CLOSE is sent.
    pub fn let_go(self, core: Ended) {
        let ReadDir {
            grant,
            entries: _,
            asked,
            ended: _,
        } = self;
        if let Some(ticket) = asked {
            ticket.let_go(core);
        }
        grant.let_go(core);
    }
}

/// Drops the reply to a READDIR under way.
fn give_up(core: &mut Core, asked: Option<Ticket>)
    requires { IsAwaiting core.old asked }
    ensures is { core.new ≡ given_up core.old asked }
    ensures grants { KeepsGrants core.old core.new }
{
    if let Some(ticket) = asked {
        core.abandon(ticket);
    }
}
