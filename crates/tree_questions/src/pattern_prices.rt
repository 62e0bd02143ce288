//! Prices of a pattern.

ghost use Rattle.std.specs.Prelude.{◌≡◌, ◌≤◌, ℕ};
ghost use Rattle.model_rosters.specs.Arcs.{rule_cost};
ghost use Rattle.model_rosters.specs.Sound.{IsSound};
ghost use Rattle.tree_questions.specs.Prices.{takes};

use crate::periods::byte_at;
use model_rosters::{ArcKey, ArcPrice, Grammar, LetterPrice};

/// Prices of a pattern: the letters that it takes are free and all others forbidden, an arc is free, and a
/// rule costs what it costs. Each letter is taken at the periods behind the pattern.
#[derive(Clone, Copy)]
pub struct PatternPrices<'a> {
    pub grammar: &'a Grammar,
    /// The byte that stands for any code, where there is one.
    pub any: Option<u8>,
    pub pattern: &'a [u8],
    pub ghost small: { (r : ℕ) → rule_cost grammar.now r ≤ 10000 },
}

impl<'a> PatternPrices<'a> {
    /// Returns the prices of a pattern, in which the byte `any` stands for any code. Takes no memory.
    pub fn new(grammar: &'a Grammar, any: Option<u8>, pattern: &'a [u8]) -> PatternPrices<'a>
        requires { IsSound grammar.now }
        ensures grammar { result.grammar.now ≡ grammar.now }
        ensures any { result.any ≡ any }
        ensures pattern { result.pattern.now ≡ pattern.now }
    {
        PatternPrices {
            grammar,
            any,
            pattern,
        }
    }
}

// Returns whether a byte may stand where the pattern has another, or nothing.
fn takes(any: Option<u8>, wanted: Option<u8>, byte: u8) -> bool
    ensures { result ≡ takes any wanted byte }
{
    match (any, wanted) {
        (_, None) => true,
        (None, Some(wanted)) => wanted == byte,
        (Some(any), Some(wanted)) => wanted == any || wanted == byte,
    }
}

impl<'a> LetterPrice for PatternPrices<'a> {
    ghost use Rattle.tree_questions.specs.Prices.{pattern_view};
    ghost use Rattle.tree_questions.specs.Small.{pattern-small};

    ghost view = { λ s. pattern_view s.grammar.now s.any s.pattern.now };

    // Returns 0 where the pattern takes the code at the period, and none elsewhere.
    fn letter(&self, code: u8, period: u8) -> Option<i128> {
        let code = self.grammar.codes.as_slice().get(code as usize)?;
        let wanted = byte_at(self.pattern, period);
        if takes(self.any, wanted, code.byte) {
            Some(0)
        } else {
            None
        }
    }

    // Returns 0 for each arc.
    fn arc(&self, arc: &ArcKey) -> i128 {
        0
    }

    // Returns that no arc has a price.
    fn arc_prices(&self) -> Option<&[ArcPrice]> {
        Some(&[])
    }

    // Returns the rule's cost, 0 where there is no rule of this number.
    fn rule(&self, rule: u8) -> i128 {
        let Some(place) = (rule as usize).checked_sub(1) else {
            return 0;
        };
        match self.grammar.rules.as_slice().get(place) {
            Some(rule) => rule.cost as i128,
            None => 0,
        }
    }

    ghost all_within = { λ s. pattern-small s.grammar.now s.any s.pattern.now s.small };
}
