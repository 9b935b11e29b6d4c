//! A lane: its running call, its site, its tickets and its grants.
ghost use Rattle.std.specs.Prelude.{◌≡◌, ◌<◌, ◌^◌, ◌∷◌, ◌≢◌, ◌==◌, ℕ, [], Some, None, true, false, IfOk, IfSome, OnOk, OnErr, is_some, length, slice_get};
ghost use Rattle.sftp_model.specs.Slots.{fresh_site, grant_of, has_grant, slot_has};
ghost use Rattle.session_work.specs.Premises.{MayTurn, MayGiveUp};
ghost use Rattle.session_work.specs.Rests.{IsSmall};
ghost use Rattle.session_work.specs.Turning.{IsOpen, TurnsLane, HasDeferred, IsSafeBy, LeavesBehind};
ghost use Rattle.session_laws.specs.Changes.{fresh_lane, ended_lane, let_go_lane, closed_lane, spent_lane};
ghost use Rattle.sftp_model.specs.declared.slot.Facts.{Facts as FactsValue};
ghost use Rattle.plan_model.specs.Moves.{Answers};
ghost use Rattle.plan_model.specs.BufferPlans.{cancelled_buf_flush};
ghost use Rattle.plan_runner.specs.Pending.{AwaitsNoMore, own_place, slots_times};
ghost use Rattle.plan_runner.specs.Sound.{KeepsSite};
ghost use Rattle.session_laws.specs.Ends.{GivesUp, StaysOpen, let_go};
ghost use Rattle.session_laws.specs.Lanes.{ticket_places, Held, grant_places, Ticketed};
ghost use Rattle.session_laws.specs.Places.{is_in, without_index};
ghost use Rattle.session_work.specs.Tokens.{AreCounted, TellReplies, AreGrants, slot_awaits};
ghost use Rattle.std.specs.List.{list_any};
ghost use Rattle.session_laws.specs.Dues.{unheld_of};
ghost use Rattle.sftp_core.specs.Core.{core_after_abandon};

use crate::call::{begin, meanwhile, resume};
use crate::requests::{settle, settle_meanwhile};
use crate::tokens::{Awaited, Granted, Tokens, grant_at};
use plan_runner::site::{holds_grant, oldest_deferred, some_has};
use plan_runner::{Running, Turn, take_oldest};
use session_model::Call;
use sftp_core::{Core, Ended};
use sftp_model::{Facts, Handle, Outcome, RemotePath, Request, Site, Slot};
use sftp_values::Items;
use ssh_encoding::OutOfMemory;
use std::alloc::Global;
use std::marker::Model;
use std::mem;

/// The effect of a lane's turn on its call.
///
/// Used in `crates/session_work/src/lanes.rt`.
#[derive(Debug, Drop)]
pub enum Moved {
    /// The call waits for a reply.
    Waits,
    /// The call continued, and awaits another reply.
    Went,
    /// This request was submitted.
    Asked { id: u32, request: Request },
    /// The call ended.
    Ended { outcome: Outcome },
}

/// A lane: the running call, the contents of its slots, its tickets and grants by the places of their requests, and how
/// many of its calls have ended.
///
/// Used in `crates/session_work/src/lanes.rt`.
pub struct LaneState {
    pub(crate) running: Option<Running>,
    pub(crate) site: Site,
    pub(crate) tokens: Tokens,
    pub(crate) ended: u32,
}

impl Model for LaneState {
    ghost use Rattle.session_laws.specs.Lanes.{LaneValue};

    ghost Value = { LaneValue };

    ghost view = { λ l. record {
      running = l.running;
      site = l.site;
      tickets = l.tokens.tickets.items;
      grants = l.tokens.grants.items;
      ended = l.ended;
    } };
}

/// Returns sixteen empty slots.
///
/// # Errors
///
/// `OutOfMemory` if an allocation fails.
pub fn empty_slots(alloc: Global) -> Result<Vec<Slot>, OutOfMemory>
    ensures { IfOk result (λ slots. slots.items ≡ fresh_site.slots) }
{
    let mut slots = Vec::with_capacity(alloc, 16)?;
    for _ in 0..16u32 {
        slots.push_reserved(Slot::Empty);
    }
    Ok(slots)
}

/// Takes out of a slot, the oldest first, the deferred writes whose STATUS of OK came, up to the first other. A
/// cancelled flush leaves the same.
fn take_good(core: &Core, tokens: &Tokens, slot: u8, site: &mut Site)
    requires slot { slot < length site.old.slots }
    requires counted { AreCounted core.now tokens.now.tickets.items }
    requires deferred { HasDeferred site.old tokens.now.tickets.items }
    ensures leaves { (facts : FactsValue) (answers : Answers) → TellReplies core.now tokens.now.tickets.items answers → cancelled_buf_flush slot site.old facts [] answers ≡ site.new }
    ensures fewer { AwaitsNoMore site.old site.new }
    ensures keeps { (facts : FactsValue) → KeepsSite facts site.old site.new }
{
    while let Some(place) = oldest_deferred(site, slot) {
        if !tokens.is_good(core, place) {
            return;
        }
        take_oldest(slot, site);
    }
}

/// Returns the index of the first grant that no slot has.
fn unheld_at(grants: &[Granted], site: &Site) -> Option<usize>
    ensures within { IfSome result (λ k. k < length grants.now) }
    ensures found { (k : ℕ) (g : Held) → result ≡ Some k → slice_get grants.now k ≡ Some g → has_grant site.now g.place ≡ false }
    ensures before { (k : ℕ) (i : ℕ) (g : Held) → result ≡ Some k → i < k → slice_get grants.now i ≡ Some g → has_grant site.now g.place ≡ true }
    ensures missing { (i : ℕ) (g : Held) → result ≡ None → slice_get grants.now i ≡ Some g → has_grant site.now g.place ≡ true }
{
    grants.iter().position(|g| !holds_grant(site, g.place))
}

/// Returns the place of the grant that a slot has.
fn grant_of(slot: &Slot) -> Option<u64>
    ensures { result ≡ grant_of slot.now }
{
    match slot {
        Slot::Empty => None,
        Slot::File(file) => Some(file.grant),
        Slot::Buffered(file, _) => Some(file.grant),
    }
}

/// Returns true if one of these writes has this place.
fn has_write(writes: &[(u64, u32)], place: u64) -> bool
    ensures { result ≡ list_any (λ write. write.0 == place) writes.now }
{
    writes.iter().any(|write| write.0 == place)
}

/// Returns true if the file in a slot awaits the reply to a place.
fn slot_awaits(slot: &Slot, place: u64) -> bool
    ensures { result ≡ slot_awaits place slot.now }
{
    match slot {
        Slot::Buffered(_, buffer) => {
            buffer.reading == Some(place) || has_write(buffer.deferred.as_slice(), place)
        }
        _ => false,
    }
}

/// Returns true if one of these slots awaits the reply to a place.
fn some_awaits(slots: &[Slot], place: u64) -> bool
    ensures { result ≡ list_any (slot_awaits place) slots.now }
{
    slots.iter().any(|slot| slot_awaits(slot, place))
}

/// Returns the index of the first ticket that no slot awaits.
fn unawaited_at(tickets: &[Awaited], slots: &[Slot]) -> Option<usize>
    ensures within { IfSome result (λ k. k < length tickets.now) }
    ensures found { (k : ℕ) (t : Ticketed) → result ≡ Some k → slice_get tickets.now k ≡ Some t → list_any (slot_awaits t.place) slots.now ≡ false }
    ensures missing { (k : ℕ) (t : Ticketed) → result ≡ None → slice_get tickets.now k ≡ Some t → list_any (slot_awaits t.place) slots.now ≡ true }
    ensures first { (k j : ℕ) (t : Ticketed) → result ≡ Some k → j < k → slice_get tickets.now j ≡ Some t → list_any (slot_awaits t.place) slots.now ≡ true }
{
    tickets.iter().position(|t| !some_awaits(slots, t.place))
}

impl LaneState {
    /// Returns a lane that has done nothing.
    ///
    /// # Errors
    ///
    /// `OutOfMemory` if an allocation fails.
    pub fn new(alloc: Global) -> Result<LaneState, OutOfMemory>
        ensures { IfOk result (λ lane. lane ≡ fresh_lane) }
    {
        let slots = empty_slots(alloc)?;
        Ok(LaneState {
            running: None,
            site: Site {
                slots: Items::new(slots),
                directory: RemotePath::new(Vec::new(alloc)),
            },
            tokens: Tokens {
                tickets: Vec::new(alloc),
                grants: Vec::new(alloc),
            },
            ended: 0,
        })
    }

    /// Returns true if a call runs.
    pub fn runs(&self) -> bool
        ensures { result ≡ is_some self.now.running }
    {
        self.running.is_some()
    }

    /// Returns how many of the lane's calls have ended.
    pub fn ended(&self) -> u32
        ensures { result ≡ self.now.ended }
    {
        self.ended
    }

    /// Returns how many grants the lane has.
    pub fn grant_count(&self) -> usize
        ensures { result ≡ length self.now.grants }
    {
        self.tokens.grants.len()
    }

    /// Makes one turn of the lane's call: it starts, continues after the one reply that it awaited, if it awaited one,
    /// or asks for more while that is missing. Its next request would have the place, and there is an id for it.
    ///
    /// # Errors
    ///
    /// `OutOfMemory` if an allocation fails.
    pub fn turn(
        &mut self,
        alloc: Global,
        core: &mut Core,
        call: &Call,
        place: u64,
        facts: &Facts,
    ) -> Result<Moved, OutOfMemory>
        requires { MayTurn call.now facts.now core.old self.old }
        ensures turned { IfOk result (λ m. TurnsLane call.now facts.now place core.old core.new self.old self.new m) }
        ensures small { IfOk result IsSmall }
        ensures left { OnErr result (IsOpen core.new) }
    {
        let turn = Turn {
            alloc,
            place,
            facts: *facts,
        };
        self.tokens.tickets.reserve(1)?;
        self.tokens.grants.reserve(1)?;
        let Some(running) = mem::replace(&mut self.running, None) else {
            let next = begin(alloc, call, place, &mut self.site, facts)?;
            return settle(core, next, place, &mut self.running, &mut self.tokens);
        };
        let Some(awaited) = running.awaited(&self.site) else {
            let next = resume(turn, call, running, None, &mut self.site)?;
            return settle(core, next, place, &mut self.running, &mut self.tokens);
        };
        let Some(reply) = self.tokens.reply(core, awaited) else {
            let next = meanwhile(alloc, call, running, place, &self.site, facts)?;
            return settle_meanwhile(core, next, place, &mut self.running, &mut self.tokens);
        };
        let next = resume(turn, call, running, Some(reply), &mut self.site)?;
        settle(core, next, place, &mut self.running, &mut self.tokens)
    }

    /// Ends the lane's call.
    pub fn end_call(&mut self)
        requires { self.old.ended < 2 ^ 31 }
        ensures { self.new ≡ ended_lane self.old self.old.site }
    {
        self.running = None;
        self.ended += 1;
    }

    /// Gives up the replies that the lane's started call awaits, and ends the call. The ticket of the call's own
    /// request is dropped, and a HANDLE that had come is a grant; a flush takes the statuses of OK that came. What
    /// slots await stays.
    ///
    /// # Errors
    ///
    /// `OutOfMemory` if an allocation fails; nothing is changed then.
    pub fn give_up(&mut self, core: &mut Core) -> Result<(), OutOfMemory>
        requires may { MayGiveUp core.old self.old }
        requires safe { IsSafeBy self.old.running self.old.site }
        ensures ok { OnOk result (GivesUp core.old core.new self.old self.new) }
        ensures leaves { OnOk result (LeavesBehind core.old self.old self.new) }
        ensures gone { OnOk result ((p : ℕ) → own_place self.old.running ≡ Some p → is_in p (ticket_places self.new.tickets) ≡ false) }
        ensures unchanged { OnErr result ((core.new ≡ core.old) × (self.new ≡ self.old)) }
    {
        self.tokens.grants.reserve(1)?;
        let Some(running) = mem::replace(&mut self.running, None) else {
            unreachable!()
        };
        self.ended += 1;
        if let Some(place) = running.own_place() {
            self.tokens.give_up(core, place);
            return Ok(());
        }
        match running {
            Running::Flushing { slot } => {
                take_good(core, &self.tokens, slot, &mut self.site);
                Ok(())
            }
            _ => Ok(()),
        }
    }

    /// Takes out the contents of the lane's slots, and leaves these empty ones; it runs no call then.
    pub fn empty(&mut self, slots: Vec<Slot>) -> Items<Slot>
        requires { slots.items ≡ fresh_site.slots }
        ensures slots { result ≡ self.old.site.slots }
        ensures lane { self.new ≡ let_go_lane self.old }
    {
        self.running = None;
        mem::replace(&mut self.site.slots, Items::new(slots))
    }

    /// Returns the index of the lane's first grant that no slot has.
    pub fn unheld(&self) -> Option<usize>
        ensures none { result ≡ None → unheld_of self.now.site (grant_places self.now.grants) ≡ [] }
        ensures first { (k : ℕ) → result ≡ Some k → (g : Held) × ((slice_get self.now.grants k ≡ Some g)
            × (unheld_of self.now.site (grant_places self.now.grants) ≡ g.place ∷ unheld_of self.now.site (grant_places (without_index k self.now.grants)))) }
    {
        unheld_at(&self.tokens.grants, &self.site)
    }

    /// Returns the index of the grant of a slot, if no later slot has it.
    pub fn closing(&self, slot: &Slot, later: &[Slot]) -> Option<usize>
        ensures none { result ≡ None → StaysOpen self.now.grants slot.now later.now }
        ensures some { (k : ℕ) → result ≡ Some k → (g : Held) × ((slice_get self.now.grants k ≡ Some g)
            × (grant_of slot.now ≡ Some g.place) × (list_any (slot_has g.place) later.now ≡ false)) }
    {
        let Some(grant) = grant_of(slot) else {
            return None;
        };
        if some_has(later, grant) {
            return None;
        }
        grant_at(&self.tokens.grants, grant)
    }

    /// Releases the grant at an index: the core queues its CLOSE, whose reply nobody awaits. Returns the id of the
    /// CLOSE and its handle.
    pub fn release(&mut self, core: &mut Core, k: usize) -> (u32, Handle)
        requires held { AreGrants core.old self.old.grants }
        requires within { k < length self.old.grants }
        ensures released { (g : Held) → slice_get self.old.grants k ≡ Some g → (result.0 ≡ g.grant.id) × ((result.1 ≡ g.grant.handle) × (core.new ≡ let_go core.old g.grant)) }
        ensures lane { self.new ≡ closed_lane self.old k }
        ensures small { result.0 < 2 ^ 32 }
    {
        let Granted { place: _, grant } = self.tokens.grants.remove(k);
        let handle = grant.handle().copied();
        let Some(ticket) = core.release(grant) else {
            unreachable!()
        };
        let id = ticket.id();
        core.abandon(ticket);
        (id, handle)
    }

    /// Returns the index of the lane's first ticket whose reply no slot awaits.
    pub fn unawaited(&self) -> Option<usize>
        ensures within { IfSome result (λ k. k < length self.now.tickets) }
        ensures none { (k : ℕ) (t : Ticketed) → result ≡ None → slice_get self.now.tickets k ≡ Some t → slots_times t.place self.now.site.slots ≢ 0 }
        ensures some { (k : ℕ) (t : Ticketed) → result ≡ Some k → slice_get self.now.tickets k ≡ Some t → slots_times t.place self.now.site.slots ≡ 0 }
        ensures first { (k j : ℕ) (t : Ticketed) → result ≡ Some k → j < k → slice_get self.now.tickets j ≡ Some t → slots_times t.place self.now.site.slots ≢ 0 }
    {
        unawaited_at(&self.tokens.tickets, self.site.slots.as_slice())
    }

    /// Drops the ticket at an index: nobody awaits its reply.
    pub fn forget(&mut self, core: &mut Core, k: usize)
        requires counted { AreCounted core.old self.old.tickets }
        requires within { k < length self.old.tickets }
        ensures core { (t : Ticketed) → slice_get self.old.tickets k ≡ Some t → core.new ≡ core_after_abandon core.old t.ticket }
        ensures lane { self.new ≡ spent_lane self.old k self.old.running self.old.site }
    {
        let Awaited { place: _, ticket } = self.tokens.tickets.remove(k);
        core.abandon(ticket);
    }

    /// Releases the lane after its core was given up.
    pub fn end(self, core: Ended) {
        let LaneState {
            running: _,
            site: _,
            tokens,
            ended: _,
        } = self;
        tokens.let_go(core);
    }
}
