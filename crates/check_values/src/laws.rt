//! That there is one answer, and that a roster's order means nothing.

ghost use Rattle.std.specs.Prelude.{◌≡◌, ℕ, List};
ghost use Rattle.model_rosters.specs.declared.instance.Instance.{Instance};
ghost use Rattle.model_rosters.specs.declared.instance.Shift.{Shift};
ghost use Rattle.check_values.specs.Answers.{StatedAnswer};
ghost use Rattle.check_values.specs.Orders.{CostsInAnyOrder};

/// States a law: a stated roster has one answer.
pub fn answers_once()
    ensures { (i : Instance) (shifts : List Shift) (s t : ℕ) (a b : List ℕ) → StatedAnswer i shifts s a
        → StatedAnswer i shifts t b → (s ≡ t) × (a ≡ b) }
{}

/// States a law: what a roster costs does not depend on the order of its shifts.
pub fn costs_in_any_order()
    ensures { CostsInAnyOrder }
{}
