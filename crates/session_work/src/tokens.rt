//! Tickets and grants that a lane holds of a core, each with the place of its request.
ghost use Rattle.std.specs.Prelude.{◌≡◌, ◌≢◌, ◌<◌, ◌≤◌, ℕ, Some, None, true, IfSome, length, slice_get, vec_len, vec_capacity};
ghost use Rattle.std.specs.FinMap as fin;
ghost use Rattle.sftp_core.specs.Core.{record_at, reply_in};
ghost use Rattle.session_laws.specs.Lanes.{Ticketed, Held, ticket_places, grant_places};
ghost use Rattle.session_laws.specs.Places.{IsRising, is_in};
ghost use Rattle.plan_model.specs.Moves.{Answers};
ghost use Rattle.plan_model.specs.BufferPlans.{is_good};
ghost use Rattle.session_work.specs.Tokens.{AreGrants, AreCounted, IsGivenUp, IsGrantAt, SpendsTicket, TellReplies};
ghost use Rattle.session_work.specs.Premises.{CanPoll, LeavesTokens};
ghost use Rattle.session_work.specs.Turning.{IsOpen};

use plan_runner::is_good;
use sftp_core::{Core, Ended, Grant, Polled, Ticket};
use sftp_model::{Handle, Reply};
use std::marker::Model;

/// A ticket, and the place of its request.
///
/// Used in `crates/session_work/src/lane.rt`.
pub struct Awaited {
    pub(crate) place: u64,
    pub(crate) ticket: Ticket,
}

impl Model for Awaited {
    ghost use Rattle.session_laws.specs.Lanes.{Ticketed};

    ghost Value = { Ticketed };

    ghost view = { λ a. record { place = a.place; ticket = a.ticket } };
}

/// A grant, and the place of its request.
///
/// Used in `crates/session_work/src/lane.rt`.
pub struct Granted {
    pub(crate) place: u64,
    pub(crate) grant: Grant,
}

impl Model for Granted {
    ghost use Rattle.session_laws.specs.Lanes.{Held};

    ghost Value = { Held };

    ghost view = { λ g. record { place = g.place; grant = g.grant } };
}

/// Returns the index of the ticket of a place.
pub(crate) fn ticket_at(tickets: &[Awaited], place: u64) -> Option<usize>
    ensures within { IfSome result (λ k. k < length tickets.now) }
    ensures found { (k : ℕ) (t : Ticketed) → result ≡ Some k → slice_get tickets.now k ≡ Some t → t.place ≡ place }
    ensures missing { (k : ℕ) (t : Ticketed) → result ≡ None → slice_get tickets.now k ≡ Some t → t.place ≢ place }
{
    tickets.iter().position(|t| t.place == place)
}

/// Returns the index of the grant of a place.
pub(crate) fn grant_at(grants: &[Granted], place: u64) -> Option<usize>
    ensures within { IfSome result (λ k. k < length grants.now) }
    ensures found { (k : ℕ) (g : Held) → result ≡ Some k → slice_get grants.now k ≡ Some g → g.place ≡ place }
    ensures missing { (k : ℕ) (g : Held) → result ≡ None → slice_get grants.now k ≡ Some g → g.place ≢ place }
{
    grants.iter().position(|g| g.place == place)
}

/// The tickets and grants of a lane.
///
/// Used in `crates/session_work/src/requests.rt`.
pub struct Tokens {
    pub(crate) tickets: Vec<Awaited>,
    pub(crate) grants: Vec<Granted>,
}

impl Tokens {
    /// Returns the reply to the request at a place, if it was taken; its ticket is consumed. A HANDLE is a grant from
    /// then on.
    pub(crate) fn reply(&mut self, core: &mut Core, place: u64) -> Option<Reply>
        requires { CanPoll core.old self.old place }
        ensures waits { result ≡ None → (core.new ≡ core.old) × (self.new ≡ self.old) }
        ensures missing { result ≡ None → (k : ℕ) × ((t : Ticketed) × ((slice_get self.old.tickets.items k ≡ Some t) × (t.place ≡ place) × (reply_in (record_at core.old t.ticket) ≡ None))) }
        ensures came { IfSome result (λ r. SpendsTicket core.old core.new self.old.tickets.items self.new.tickets.items self.old.grants.items self.new.grants.items place r) }
        ensures leaves { LeavesTokens core.old core.new self.old self.new }
    {
        let Some(k) = ticket_at(&self.tickets, place) else {
            unreachable!()
        };
        if core.peek(&self.tickets[k].ticket).is_none() {
            return None;
        }
        let Awaited { place: _, ticket } = self.tickets.remove(k);
        match core.poll(ticket) {
            Ok(Polled::Reply(reply)) => Some(reply),
            Ok(Polled::Granted(grant)) => {
                let handle = grant.handle().copied();
                self.grants.push(Granted { place, grant }).unwrap();
                Some(Reply::Handle(handle))
            }
            Ok(Polled::Failed(_)) => unreachable!(),
            Err(_ticket) => unreachable!(),
        }
    }

    /// Gives up the ticket of a place: it is dropped, and a HANDLE that had come is a grant.
    pub(crate) fn give_up(&mut self, core: &mut Core, place: u64)
        requires poll { CanPoll core.old self.old place }
        requires rising { IsRising (ticket_places self.old.tickets.items) }
        ensures { IsGivenUp core.old core.new self.old.tickets.items self.new.tickets.items self.old.grants.items self.new.grants.items place }
    {
        if self.reply(core, place).is_some() {
            return;
        }
        let Some(k) = ticket_at(&self.tickets, place) else {
            unreachable!()
        };
        let Awaited { place: _, ticket } = self.tickets.remove(k);
        core.abandon(ticket);
    }

    /// Returns true if the reply to the request at a place came, and is a STATUS of OK.
    pub(crate) fn is_good(&self, core: &Core, place: u64) -> bool
        requires counted { AreCounted core.now self.now.tickets.items }
        requires awaited { is_in place (ticket_places self.now.tickets.items) ≡ true }
        ensures { (answers : Answers) → TellReplies core.now self.now.tickets.items answers → result ≡ is_good (answers place) }
    {
        let Some(k) = ticket_at(&self.tickets, place) else {
            unreachable!()
        };
        match core.peek(&self.tickets[k].ticket) {
            Some(reply) => is_good(reply),
            None => false,
        }
    }

    /// Returns the handle of the grant of a place.
    pub(crate) fn handle_of(&self, place: u64) -> Handle
        requires { is_in place (grant_places self.now.grants.items) ≡ true }
        ensures { IsGrantAt self.now.grants.items place result }
    {
        let Some(k) = grant_at(&self.grants, place) else {
            unreachable!()
        };
        self.grants[k].grant.handle().copied()
    }

    /// Releases everything after the core was given up.
    pub(crate) fn let_go(self, core: Ended) {
        let Tokens {
            mut tickets,
            mut grants,
        } = self;
        while let Some(Awaited { place: _, ticket }) = tickets.pop() {
            ticket.let_go(core);
        }
        while let Some(Granted { place: _, grant }) = grants.pop() {
            grant.let_go(core);
        }
        tickets.destroy_empty();
        grants.destroy_empty();
    }
}
