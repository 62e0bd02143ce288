//! The law on prices that agree.

ghost use Rattle.std.specs.Prelude.{ℕ, ◌≡◌};
ghost use Rattle.model_rosters.specs.Agreement.{Agree};
ghost use Rattle.model_rosters.specs.Sound.{IsSound};
ghost use Rattle.model_rosters.specs.Sums.{PriceView, tree_sum};
ghost use Rattle.model_rosters.specs.Trees.{Parts, IsTreeOf};

use crate::grammar::Grammar;

/// Prices that agree at the letters of the day, at all arcs and at the rules give each tree of the
/// day one sum. So after [`crate::PriceRoom::set`] the sum of a tree is its reduced cost.
pub fn agreeing_sums()
    ensures { (g : Grammar) (p q : PriceView) → IsSound g → Agree g p q
        → (x : ℕ) (t : Parts) → IsTreeOf g x t → tree_sum p 1 t ≡ tree_sum q 1 t }
{}
