//! Prices under which a tree's sum is its cost.

ghost use Rattle.std.specs.Prelude.{◌≡◌, ◌≤◌, ℕ};
ghost use Rattle.model_rosters.specs.Arcs.{rule_cost};
ghost use Rattle.model_rosters.specs.Sound.{IsSound};

use model_rosters::{ArcKey, ArcPrice, Grammar, LetterPrice};

/// Prices under which the sum of a tree is its cost: a rule costs what it costs, and all else is free.
#[derive(Clone, Copy)]
pub struct CostPrices<'a> {
    pub grammar: &'a Grammar,
    pub ghost small: { (r : ℕ) → rule_cost grammar.now r ≤ 10000 },
}

impl<'a> CostPrices<'a> {
    /// Returns the prices. Takes no memory.
    pub fn new(grammar: &'a Grammar) -> CostPrices<'a>
        requires { IsSound grammar.now }
        ensures { result.grammar.now ≡ grammar.now }
    {
        CostPrices { grammar }
    }
}

impl<'a> LetterPrice for CostPrices<'a> {
    ghost use Rattle.tree_questions.specs.Prices.{cost_view};
    ghost use Rattle.tree_questions.specs.Small.{cost-small};

    ghost view = { λ s. cost_view s.grammar.now };

    // Returns 0 for each letter of the grammar's codes.
    fn letter(&self, code: u8, period: u8) -> Option<i128> {
        let _code = self.grammar.codes.as_slice().get(code as usize)?;
        Some(0)
    }

    // Returns 0 for each arc.
    fn arc(&self, arc: &ArcKey) -> i128 {
        0
    }

    // Returns that no arc has a price.
    fn arc_prices(&self) -> Option<&[ArcPrice]> {
        Some(&[])
    }

    // Returns the rule's cost, 0 where there is no rule of this number.
    fn rule(&self, rule: u8) -> i128 {
        let Some(place) = (rule as usize).checked_sub(1) else {
            return 0;
        };
        match self.grammar.rules.as_slice().get(place) {
            Some(rule) => rule.cost as i128,
            None => 0,
        }
    }

    ghost all_within = { λ s. cost-small s.grammar.now s.small };
}
