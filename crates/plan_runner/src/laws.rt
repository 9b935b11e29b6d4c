//! Laws of the rest of a plan. The functions do nothing: what they ensure holds for all values.
ghost use Rattle.std.specs.Prelude.{◌≡◌, ◌≢◌, ◌<◌, ℕ, true, false, List, [], length, Some, None};
ghost use Rattle.sftp_model.specs.declared.reply.Reply.{Reply};
ghost use Rattle.sftp_model.specs.declared.slot.Facts.{Facts};
ghost use Rattle.sftp_model.specs.declared.slot.Site.{Site};
ghost use Rattle.sftp_model.specs.Slots.{slot_at};
ghost use Rattle.plan_model.specs.Moves.{Answers, Own};
ghost use Rattle.plan_model.specs.BufferPlans.{cancelled_buf_flush, is_good};
ghost use Rattle.plan_runner.specs.declared.next.Running.{Running};
ghost use Rattle.plan_runner.specs.Buffers.{oldest_in, without_oldest};
ghost use Rattle.plan_runner.specs.Cancelling.{left_after, left_behind};
ghost use Rattle.plan_runner.specs.Runners.{after, awaited_place, idle, residual};
ghost use Rattle.plan_runner.specs.Pending.{own_place};
ghost use Rattle.plan_runner.specs.Sound.{IsRunningSound};

/// A started call continues by the reply that it awaits: it waits while that is missing, and otherwise continues after
/// it. A call that awaits none continues at once.
pub fn calls_go_on_by_awaited_replies()
    ensures missing { (running : Running) (bytes : List ℕ) (site : Site) (facts : Facts) (later : Own)
        (answers : Answers) (place : ℕ) → awaited_place running site ≡ Some place → answers place ≡ None
        → residual running bytes site facts later answers ≡ idle running bytes site facts later answers }
    ensures came { (running : Running) (bytes : List ℕ) (site : Site) (facts : Facts) (later : Own)
        (answers : Answers) (place : ℕ) (r : Reply) → awaited_place running site ≡ Some place → answers place ≡ Some r
        → residual running bytes site facts later answers ≡ after running bytes site facts (Some r) later answers }
    ensures none { (running : Running) (bytes : List ℕ) (site : Site) (facts : Facts) (later : Own)
        (answers : Answers) → awaited_place running site ≡ None
        → residual running bytes site facts later answers ≡ after running bytes site facts None later answers }
{}

/// The site that a cancelled call leaves is the same by its runner before the reply that it awaited as after it.
pub fn cancelled_calls_leave_by_awaited_replies()
    ensures { (running : Running) (bytes : List ℕ) (site : Site) (facts : Facts) (later : Own)
        (answers : Answers) (place : ℕ) (r : Reply) → awaited_place running site ≡ Some place → answers place ≡ Some r
        → left_behind running bytes site facts later answers
        ≡ left_after running bytes site facts (Some r) later answers }
{}

/// A call that is cancelled while it awaits the reply to a request of its own leaves its site unchanged.
pub fn own_calls_leave_their_site()
    ensures { (running : Running) (bytes : List ℕ) (site : Site) (facts : Facts) (answers : Answers)
        → own_place (Some running) ≢ None → IsRunningSound running bytes site facts
        → left_behind running bytes site facts [] answers ≡ site }
{}

/// A flush that is cancelled takes the oldest deferred write out of its slot if its reply is a STATUS of OK, and
/// continues with the next. If the oldest has none, or no write is deferred, the site is unchanged.
pub fn cancelled_flushes_take_oldest_first()
    ensures passes { (slot : ℕ) (site : Site) (facts : Facts) (own : Own) (answers : Answers) (place : ℕ)
        → slot < length site.slots → oldest_in (slot_at site slot) ≡ Some place → is_good (answers place) ≡ true
        → cancelled_buf_flush slot site facts own answers
        ≡ cancelled_buf_flush slot (without_oldest site slot (slot_at site slot)) facts own answers }
    ensures stops { (slot : ℕ) (site : Site) (facts : Facts) (own : Own) (answers : Answers) (place : ℕ)
        → oldest_in (slot_at site slot) ≡ Some place → is_good (answers place) ≡ false
        → cancelled_buf_flush slot site facts own answers ≡ site }
    ensures none { (slot : ℕ) (site : Site) (facts : Facts) (own : Own) (answers : Answers)
        → oldest_in (slot_at site slot) ≡ None → cancelled_buf_flush slot site facts own answers ≡ site }
{}
