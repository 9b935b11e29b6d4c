//! READs of a whole read of a path.
ghost use Rattle.std.specs.Prelude.{◌≡◌, ◌<◌, ◌≢◌, ◌+◌, ◌^◌, ◌||◌, true, None, Some, IfErr, IfOk, OnErr, OnOk};
ghost use Rattle.std.specs.Option.{option_map};
ghost use Rattle.sftp_model.specs.Answers.{allows_reply, is_end_of_file};
ghost use Rattle.sftp_model.specs.declared.answers.Expected.TheVariants as expected;
ghost use Rattle.sftp_model.specs.declared.request.Request.TheVariants as request;
ghost use Rattle.sftp_model.specs.declared.slot.Move.TheVariants as moves;
ghost use Rattle.sftp_model.specs.declared.slot.Site.{Site};
ghost use Rattle.plan_model.specs.GoodMoves.{FitsFacts};
ghost use Rattle.plan_model.specs.WindowPlans.{brings_content};
ghost use Rattle.plan_window.specs.declared.window.ReadAt.{ReadAt as ReadAtValue};
ghost use Rattle.plan_window.specs.declared.next_move.WindowMove.TheVariants as step;
ghost use Rattle.plan_window.specs.Windows.{answered_more, asked_more, first_of, move_by, window_move, IsMoveInRange};
ghost use Rattle.plan_state.specs.Asked.{IsReady, SubmitsAsking};
ghost use Rattle.plan_state.specs.Calls.{IsUnfinished};
ghost use Rattle.plan_state.specs.declared.submission.Asking.TheVariants as asking;
ghost use Rattle.sftp_fs_read.specs.Reads.{IsWhyOver, no_reads, refusal_of};
ghost use Rattle.sftp_fs_read.specs.Tickets.{IsUnasked};

use crate::tickets::{Unasked, submit_read};
use plan_window::{ReadAt, Window, WindowMove};
use sftp_core::{Core, Ticket};
use sftp_model::numbers::SSH_FX_EOF;
use sftp_model::{Error, Facts, Handle, Reply};
use ssh_encoding::OutOfMemory;
use std::alloc::Global;
use std::marker::Model;

/// The greatest place of a READ, 2^43: below it every READ ends within the range of offsets.
const MAX_PLACE: u64 = 8796093022208;

/// The READs of a whole read, after its OPEN at place 1.
///
/// Used in `crates/sftp_fs_read/src/replies.rt`.
#[derive(Drop)]
pub struct Reads {
    facts: Facts,
    handle: Handle,
    place: u64,
    window: Window,
}

impl Model for Reads {
    ghost use Rattle.sftp_fs_read.specs.Reads.{AreRead, ReadsValue};

    ghost Value = { ReadsValue };

    ghost view = { λ s. record { facts = s.facts; handle = s.handle; place = s.place; window = s.window } };

    ghost invariant = { λ s. AreRead (record { facts = s.facts; handle = s.handle; place = s.place; window = s.window }) };
}

impl Reads {
    /// Returns an empty window: no READ was asked.
    pub(crate) fn new(alloc: Global, facts: Facts, handle: Handle) -> Reads
        requires { FitsFacts facts }
        ensures { result ≡ no_reads facts handle }
    {
        Reads {
            facts,
            handle,
            place: 2,
            window: Window::new(alloc),
        }
    }

    /// Returns the next move of the read, if the reply to the first READ under way has not come. Fails only if an
    /// allocation fails.
    pub(crate) fn next_move(&self, alloc: Global) -> Result<WindowMove, OutOfMemory>
        ensures goes { IfOk result (λ m. (site : Site)
            → window_move self.now.handle None self.now.window site self.now.facts ≡ move_by self.now.handle site m) }
        ensures range { IfOk result IsMoveInRange }
        ensures some { IfOk result (λ m. m ≢ step.GivenUp) }
    {
        match self.window.next_move(alloc, u32::MAX, &self.facts)? {
            WindowMove::GivenUp => Err(OutOfMemory),
            other => Ok(other),
        }
    }

    /// Returns how many bytes the first READ under way asks for, if there is one.
    pub(crate) fn first_len(&self) -> Option<u32>
        ensures len { result ≡ option_map (λ r. r.len) (first_of self.now.window.waiting) }
        ensures going { (site : Site) → first_of self.now.window.waiting ≢ None
            → IsUnfinished (window_move self.now.handle None self.now.window site self.now.facts) }
    {
        self.window.first().map(|r| r.len)
    }

    /// Submits the READ that the read asks next, and adds it to those under way. It is in the window before it is
    /// submitted, so that no allocation can fail after that. Fails if one fails before, or if the core has recorded a
    /// fault; the core and the READs are unchanged then.
    pub(crate) fn ask(&mut self, core: &mut Core, offset: u64, len: u32) -> Result<Ticket, Unasked>
        requires may { IsReady core.old × (offset + len < 2 ^ 64) }
        requires asks { (site : Site) → window_move self.old.handle None self.old.window site self.old.facts
            ≡ moves.Ask (request.Read self.old.handle offset len) }
        ensures submits { IfOk result (λ ticket. SubmitsAsking core.old
            (asking.Whole (request.Read self.old.handle offset len)) ticket core.new) }
        ensures more { OnOk result (self.new ≡ record self.old {
          place = self.old.place + 1;
          window = asked_more self.old.window
              (record { place = self.old.place; offset = offset; len = len });
        }) }
        ensures err { IfErr result (IsUnasked core.old) }
        ensures unchanged { OnErr result ((core.new ≡ core.old) × (self.new ≡ self.old)) }
    {
        let place = self.place;
        if place >= MAX_PLACE {
            return Err(Unasked::Short);
        }
        let Ok(()) = self.window.asked(ReadAt { place, offset, len }) else {
            return Err(Unasked::Short);
        };
        match submit_read(core, &self.handle, offset, len) {
            Ok(ticket) => {
                self.place = place + 1;
                Ok(ticket)
            }
            Err(why) => {
                self.window.unasked();
                Err(why)
            }
        }
    }

    /// Returns the READs after the reply to the first one under way. Fails if the server refused it: the read is over
    /// then.
    pub(crate) fn replied(self, reply: Reply) -> Result<Reads, Error>
        requires some { first_of self.window.waiting ≢ None }
        requires allowed { (r : ReadAtValue) → first_of self.window.waiting ≡ Some r
            → allows_reply (expected.Content r.len) reply ≡ true }
        ensures ok { IfOk result (λ s. s ≡ record self { window = answered_more self.window reply }) }
        ensures err { IfErr result (IsWhyOver self reply) }
    {
        let Reads {
            facts,
            handle,
            place,
            window,
        } = self;
        if !is_absorbed(&reply) {
            return Err(refusal(reply));
        }
        let mut window = window;
        window.replied(reply);
        Ok(Reads {
            facts,
            handle,
            place,
            window,
        })
    }
}

/// Returns true if a reply is a DATA or the end of the file.
fn is_absorbed(reply: &Reply) -> bool
    ensures { result ≡ (brings_content reply.now || is_end_of_file reply.now) }
{
    match reply {
        Reply::Content(_) => true,
        Reply::Status { code, .. } => *code == SSH_FX_EOF,
        _ => false,
    }
}

/// Returns the error of a reply that refuses a READ.
fn refusal(reply: Reply) -> Error
    ensures { result ≡ refusal_of reply }
{
    match reply {
        Reply::Status {
            code,
            message,
            language,
        } => Error::SftpError {
            code,
            message,
            language,
        },
        _ => Error::InvalidResponse { id: None },
    }
}
