//! The prices of a word.

ghost use Rattle.std.specs.Prelude.{◌≡◌, ◌≤◌, ℕ, length};
ghost use Rattle.model_rosters.specs.Arcs.{rule_cost};
ghost use Rattle.model_rosters.specs.Sound.{IsSound};
ghost use Rattle.model_rosters.specs.Sums.{IsLeast, tree_sum};
ghost use Rattle.model_rosters.specs.Trees.{IsTreeOf};
ghost use Rattle.model_rosters.specs.word_prices.Prices.{word_view, IsPriceOrNone};

use crate::{ArcKey, ArcPrice, Grammar, LetterPrice};

/// The prices of one word: its letters cost nothing and all others are forbidden, an arc costs
/// nothing, and a rule its cost.
#[derive(Clone, Copy)]
pub struct WordPrices<'a> {
    pub grammar: &'a Grammar,
    pub word: &'a [u8],
    pub ghost small: { (r : ℕ) → rule_cost grammar.now r ≤ 10000 },
}

impl<'a> WordPrices<'a> {
    /// Returns the prices of a word. Takes no memory.
    pub fn new(grammar: &'a Grammar, word: &'a [u8]) -> WordPrices<'a>
        requires { IsSound grammar.now }
        ensures grammar { result.grammar.now ≡ grammar.now }
        ensures word { result.word.now ≡ word.now }
    {
        WordPrices { grammar, word }
    }

    /// Returns the price of the word as one of the name, from the least sum of the name's trees on
    /// the whole day under these prices; `None` exactly where the name does not derive the word.
    pub fn price(&self, name: u8, least: Option<i128>) -> Option<u64>
        requires sound { IsSound self.now.grammar.now }
        requires length { length self.now.word.now ≡ self.now.grammar.now.periods }
        requires least { IsLeast (IsTreeOf self.now.grammar.now name)
            (tree_sum (word_view self.now.grammar.now self.now.word.now) 1) least }
        ensures { IsPriceOrNone self.now.grammar.now name self.now.word.now result }
    {
        match least {
            Some(sum) => Some(sum as u64),
            None => None,
        }
    }
}

impl<'a> LetterPrice for WordPrices<'a> {
    ghost use Rattle.model_rosters.specs.word_prices.Prices.{word_view};
    ghost use Rattle.model_rosters.specs.word_prices.Small.{view-small};

    ghost view = { λ s. word_view s.grammar.now s.word.now };

    // Returns 0 where the word has the code at the period, and none elsewhere.
    fn letter(&self, code: u8, period: u8) -> Option<i128> {
        let code = self.grammar.codes.as_slice().get(code as usize)?;
        let place = (period as usize).checked_sub(1)?;
        let letter = self.word.get(place)?;
        if *letter == code.byte { Some(0) } else { None }
    }

    // Returns 0 for each arc.
    fn arc(&self, arc: &ArcKey) -> i128 {
        0
    }

    // Returns that no arc has a price.
    fn arc_prices(&self) -> Option<&[ArcPrice]> {
        Some(&[])
    }

    // Returns the rule's cost, 0 where there is no rule of this number.
    fn rule(&self, rule: u8) -> i128 {
        let Some(place) = (rule as usize).checked_sub(1) else {
            return 0;
        };
        match self.grammar.rules.as_slice().get(place) {
            Some(rule) => rule.cost as i128,
            None => 0,
        }
    }

    ghost all_within = { λ s. view-small s.grammar.now s.word.now s.small };
}
