//! Worked calls. The functions do nothing: what they ensure is computed.
ghost use Rattle.std.specs.Prelude.{[], ◌∷◌, codes};
ghost use Rattle.sftp_model.specs.Slots.{fresh_site};
ghost use Rattle.plan_model.specs.declared.call.Call.TheVariants as call;
ghost use Rattle.plan_model.specs.OwnRequests.{IsCallSoFar};
ghost use Rattle.plan_model.specs.PlanWords.{known, granted, read_at};
ghost use Rattle.plan_model.specs.WindowPlanRows.{got, opened, three};

/// A whole read so far: its OPEN, two READs at once, and the first DATA.
pub fn calls_as_worked_out()
    ensures { IsCallSoFar (call.FsRead (codes "a") 9) fresh_site three
        (read_at 2 2 2 ∷ read_at 1 0 2 ∷ opened ∷ [])
        (known ((1, got (codes "ab")) ∷ (0, granted) ∷ [])) }
{}
