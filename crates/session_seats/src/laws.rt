//! Laws of the definitions. The functions do nothing: their postconditions hold of all values.
ghost use Rattle.std.specs.Prelude.{◌≡◌, ℕ, List, false};
ghost use Rattle.std.specs.List.{list_any};
ghost use Rattle.session_model.specs.declared.entry.Entry.{Entry};
ghost use Rattle.session_seats.specs.declared.wakes.Tide.{Tide};
ghost use Rattle.session_seats.specs.declared.wakes.Waiter.{Waiter};
ghost use Rattle.session_seats.specs.declared.wakes.WakeSet.{WakeSet};
ghost use Rattle.session_seats.specs.Wakes.{ChangeCounts, answers_lane, concerns, count_of, counts_after, is_reply, is_request, nobody, raised_if, wakes, wakes_lane};

/// A hold that concerns nobody changed nothing for which a thread waits: neither the frames written, nor the stage, nor
/// the phase, and it added neither a request nor a reply.
pub fn quiet_holds_change_nothing()
    ensures { (before after : Tide) (more past : List Entry) → concerns before after more past ≡ nobody
        → (after.written ≡ before.written) × (after.stage ≡ before.stage) × (after.phase ≡ before.phase)
        × (list_any is_request more ≡ false) × (list_any is_reply more ≡ false) }
{}

/// A thread that a hold does not concern has no reason to go on. The sender: no request was added, and the stage and
/// the phase are as they were. The reader: no reply was added, and the frames written, the stage and the phase are as
/// they were. A lane: no reply to a request of that lane was added, and the phase is as it was.
pub fn others_have_no_news()
    ensures sender { (before after : Tide) (more past : List Entry) → (concerns before after more past).sender ≡ false
        → (after.stage ≡ before.stage) × (after.phase ≡ before.phase) × (list_any is_request more ≡ false) }
    ensures reader { (before after : Tide) (more past : List Entry) → (concerns before after more past).reader ≡ false
        → (after.written ≡ before.written) × (after.stage ≡ before.stage) × (after.phase ≡ before.phase)
        × (list_any is_reply more ≡ false) }
    ensures lane { (before after : Tide) (more past : List Entry) (lane : ℕ)
        → wakes_lane lane (concerns before after more past).lanes ≡ false
        → (after.phase ≡ before.phase) × (answers_lane lane more past ≡ false) }
{}

/// A change raises the count of each thread that it concerns by one, modulo 2^64, and no other count.
pub fn changes_are_counted()
    ensures { (who : Waiter) (set : WakeSet) (g : ChangeCounts)
        → count_of who (counts_after set g) ≡ raised_if (wakes who g set) (count_of who g) }
{}
