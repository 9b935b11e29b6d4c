//! A law of the rest of a plan. The function does nothing: what it ensures holds for all values.
ghost use Rattle.std.specs.Prelude.{◌≡◌, ◌||◌, false, ℕ, List, [], ◌∷◌, ◌++◌, Option, Some, None};
ghost use Rattle.sftp_model.specs.declared.reply.Reply.{Reply};
ghost use Rattle.sftp_model.specs.declared.slot.Facts.{Facts};
ghost use Rattle.sftp_model.specs.declared.slot.Site.{Site};
ghost use Rattle.plan_model.specs.Moves.{Answers, Own, refusal_move};
ghost use Rattle.sftp_model.specs.Answers.{is_end_of_file};
ghost use Rattle.plan_model.specs.WindowPlans.{answered_prefix, brings_content, first_refusal, outside, window_next};
ghost use Rattle.plan_window.specs.declared.window.ReadAt.{ReadAt};
ghost use Rattle.plan_window.specs.Windows.{Window, answered_more, as_request, asked_more, empty_window, first_of, reads_of, replies_of, under_way, window_move, window_plan};

/// The window determines the rest of the plan. It continues after the reply to the first READ that was not answered,
/// and waits while that is missing. A READ that is asked becomes one in flight, and one that was refused ends the call.
pub fn windows_tell_the_plan()
    ensures opened { (handle : List ℕ) (bound : Option ℕ) (site : Site) (facts : Facts) (later : Own)
        (answers : Answers) → window_plan handle bound empty_window site facts later answers
        ≡ window_next handle bound later (answered_prefix later answers) (outside later answers) site facts }
    ensures asked { (handle : List ℕ) (bound : Option ℕ) (w : Window) (site : Site) (facts : Facts) (r : ReadAt)
        (later : Own) (answers : Answers)
        → window_plan handle bound w site facts (as_request handle r ∷ later) answers
        ≡ window_plan handle bound (asked_more w r) site facts later answers }
    ensures came { (handle : List ℕ) (bound : Option ℕ) (w : Window) (site : Site) (facts : Facts) (later : Own)
        (answers : Answers) (r : ReadAt) (y : Reply) → first_of w.waiting ≡ Some r → answers r.place ≡ Some y
        → window_plan handle bound w site facts later answers
        ≡ window_plan handle bound (answered_more w y) site facts later answers }
    ensures missing { (handle : List ℕ) (bound : Option ℕ) (w : Window) (site : Site) (facts : Facts) (later : Own)
        (answers : Answers) (r : ReadAt) → first_of w.waiting ≡ Some r → answers r.place ≡ None
        → window_plan handle bound w site facts later answers
        ≡ window_next handle bound (reads_of handle w ++ later) (replies_of w) (under_way handle w ++ later)
        site facts }
    ensures refusal { (handle : List ℕ) (bound : Option ℕ) (w : Window) (site : Site) (facts : Facts) (later : Own)
        (answers : Answers) (r : ReadAt) (y : Reply) → first_of w.waiting ≡ Some r → answers r.place ≡ Some y
        → first_refusal (replies_of w) ≡ None → (brings_content y || is_end_of_file y) ≡ false
        → window_plan handle bound w site facts later answers ≡ refusal_move y site }
    ensures none { (handle : List ℕ) (bound : Option ℕ) (w : Window) (site : Site) (facts : Facts)
        (answers : Answers) → w.waiting ≡ [] → window_plan handle bound w site facts [] answers
        ≡ window_move handle bound w site facts }
{}
