//! Laws of the definitions. The functions do nothing: what they ensure holds for all values.
ghost use Rattle.std.specs.Prelude.{◌≡◌, ◌<◌, ℕ, None, [], length};
ghost use Rattle.machine_model.specs.FileTree.{opened_at};
ghost use Rattle.machine_tree.specs.Numbers.{numbered_handle};
ghost use Rattle.machine_answers.specs.MachineState.{MachineState, IsValid, MAX_HANDLES};

/// The handle that is granted next is not open, and a handle of no bytes never is.
#[tactic(auto, using(crate::proofs::HandleLaws::next_is_new, crate::proofs::HandleLaws::empty_is_new))]
pub fn grants_are_new()
    ensures next { (state : MachineState) → IsValid state → state.grants < MAX_HANDLES
        → opened_at state.tree (numbered_handle state.grants) ≡ None }
    ensures empty { (state : MachineState) → IsValid state → opened_at state.tree [] ≡ None }
    ensures len { (n : ℕ) → length (numbered_handle n) ≡ 4 }
{}
