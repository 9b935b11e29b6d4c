//! Laws of the plans. The functions do nothing: what they ensure holds for all values.
//!
//! A call so far is one whose own requests are those that its plan asked, and whose replies may answer them. A clause
//! `ranged` holds for any own requests. For a whole read it then has a premise: the READ that is asked is within the
//! range of offsets and the session's read length.
ghost use Rattle.std.specs.Prelude.{◌≡◌, ◌<◌, ◌^◌, ℕ, List, None, length};
ghost use Rattle.sftp_model.specs.Fits.{FitsRequest, AsksWithinReply};
ghost use Rattle.sftp_model.specs.declared.outcome.Outcome.{Outcome};
ghost use Rattle.sftp_model.specs.declared.request.Request.{Request};
ghost use Rattle.sftp_model.specs.declared.slot.Facts.{Facts};
ghost use Rattle.sftp_model.specs.declared.slot.Move.TheVariants.{Ask, Wait, Done};
ghost use Rattle.sftp_model.specs.declared.slot.Site.{Site};
ghost use Rattle.plan_model.specs.Moves.{Answers, Own};
ghost use Rattle.plan_model.specs.WindowPlans.{fs_read_next};
ghost use Rattle.plan_model.specs.declared.call.Call.{Call};
ghost use Rattle.plan_model.specs.CallPlans.{site_after_cancel, next};
ghost use Rattle.plan_model.specs.GoodMoves.{IsGood, IsGoodAsk, HoldsWithin, HoldsNoMore, FitsCall, FitsFacts, HandlesFit, ReadsWithin, WithinRange, situation};
ghost use Rattle.plan_model.specs.OwnRequests.{oldest_first, AreAsked, MayBeAnswered, IsCallSoFar};
ghost use Rattle.plan_model.specs.ReadsUnderWay.{Requests, AreAt, ReadsStand};
ghost use Rattle.plan_model.specs.RequestCounts.{AsksBelow, BuffersWithin, LeavesWithin, work};

/// Each move of a call is good.
pub fn moves_are_good()
    ensures asked { (c : Call) (site : Site) (facts : Facts) (past : Own) (answers : Answers) → FitsCall c
        → FitsFacts facts → IsCallSoFar c site facts past answers
        → IsGood (situation c site facts (oldest_first past) answers)
        (next c site facts (oldest_first past) answers) }
    ensures ranged { (c : Call) (site : Site) (facts : Facts) (own : Own) (answers : Answers)
        → WithinRange c site facts own answers
        → IsGood (situation c site facts own answers) (next c site facts own answers) }
{}

/// A plan waits only for a reply that was not taken.
pub fn plans_wait_for_missing_replies()
    ensures { (c : Call) (site : Site) (facts : Facts) (own : Own) (answers : Answers) (place : ℕ)
        → next c site facts own answers ≡ Wait place → answers place ≡ None }
{}

/// The requests of a call have handles that its lane holds or that the call was granted, and are within lengths and
/// offsets.
pub fn requests_may_be_asked()
    ensures asked { (c : Call) (site : Site) (facts : Facts) (past : Own) (answers : Answers) (r : Request)
        → FitsCall c → FitsFacts facts → IsCallSoFar c site facts past answers
        → next c site facts (oldest_first past) answers ≡ Ask r
        → IsGoodAsk (situation c site facts (oldest_first past) answers) r }
    ensures ranged { (c : Call) (site : Site) (facts : Facts) (own : Own) (answers : Answers) (r : Request)
        → WithinRange c site facts own answers → next c site facts own answers ≡ Ask r
        → IsGoodAsk (situation c site facts own answers) r }
{}

/// A call that ends leaves no grants except those that its lane held and the one that the call was granted.
pub fn ends_leave_held_grants()
    ensures { (c : Call) (site : Site) (facts : Facts) (own : Own) (answers : Answers) (o : Outcome) (after : Site)
        → next c site facts own answers ≡ Done o after
        → HoldsWithin (situation c site facts own answers) after }
{}

/// A call that is cancelled leaves no grants except those that its lane held.
pub fn cancelled_calls_leave_held_grants()
    ensures { (c : Call) (site : Site) (facts : Facts) (own : Own) (answers : Answers)
        → HoldsNoMore site (site_after_cancel c site facts own answers) }
{}

/// Each request that a call asks fits a frame, and no READ asks for more than one DATA can carry.
pub fn requests_fit_frames()
    ensures asked { (c : Call) (site : Site) (facts : Facts) (past : Own) (answers : Answers) (r : Request)
        → FitsCall c → FitsFacts facts → HandlesFit answers → IsCallSoFar c site facts past answers
        → next c site facts (oldest_first past) answers ≡ Ask r → FitsRequest r × AsksWithinReply r }
    ensures ranged { (c : Call) (site : Site) (facts : Facts) (own : Own) (answers : Answers) (r : Request)
        → FitsCall c → FitsFacts facts → HandlesFit answers → WithinRange c site facts own answers
        → next c site facts own answers ≡ Ask r → FitsRequest r × AsksWithinReply r }
{}

/// A call asks only if it has made fewer requests than its work, so the number that is left falls with each.
pub fn calls_make_so_many_requests()
    ensures { (c : Call) (site : Site) (facts : Facts) (past : Own) (answers : Answers) → FitsCall c
        → FitsFacts facts → BuffersWithin facts site → IsCallSoFar c site facts past answers
        → AsksBelow (length past) (work c facts) (next c site facts (oldest_first past) answers) }
{}

/// A call that ends, and one that is cancelled, leaves the bytes of deferred writes within the limit if they were
/// within it at its start.
pub fn buffers_keep_their_limit()
    ensures ended { (c : Call) (site : Site) (facts : Facts) (past : Own) (answers : Answers) → FitsFacts facts
        → BuffersWithin facts site → IsCallSoFar c site facts past answers
        → LeavesWithin facts (next c site facts (oldest_first past) answers) }
    ensures cancelled { (c : Call) (site : Site) (facts : Facts) (past : Own) (answers : Answers) → FitsFacts facts
        → BuffersWithin facts site → IsCallSoFar c site facts past answers
        → BuffersWithin facts (site_after_cancel c site facts (oldest_first past) answers) }
{}

/// If a READ is in flight for a buffered file, the buffer has no bytes, and the request is a READ at the file's offset
/// within the range of offsets. A call that ends, and one that is cancelled, keeps this if it held at its start.
pub fn reads_stand_at_their_files()
    ensures ended { (requests : Requests) (c : Call) (site : Site) (facts : Facts) (own : Own) (answers : Answers)
        (o : Outcome) (after : Site) → ReadsStand requests site → next c site facts own answers ≡ Done o after
        → ReadsStand requests after }
    ensures cancelled { (requests : Requests) (c : Call) (site : Site) (facts : Facts) (past : Own)
        (answers : Answers) → AreAsked (next c site facts) past answers → AreAt requests (oldest_first past)
        → ReadsStand requests site → ReadsStand requests (site_after_cancel c site facts (oldest_first past) answers) }
{}

/// A whole read without a bound also asks READs within the range of offsets and the session's read length, while it has
/// made fewer than 2^43 requests.
pub fn unbounded_reads_keep_within_range()
    ensures { (path : List ℕ) (site : Site) (facts : Facts) (past : Own) (answers : Answers) → FitsFacts facts
        → AreAsked (fs_read_next path None site facts) past answers → MayBeAnswered past answers
        → length past < 2 ^ 43
        → ReadsWithin facts (fs_read_next path None site facts (oldest_first past) answers) }
{}
