//! Prices of a prefix by the letters that miss it.

ghost use Rattle.std.specs.Prelude.{◌≡◌, ◌≤◌, ◌^◌, ◌-◌, ℕ, pos};
ghost use Rattle.model_rosters.specs.Sound.{IsSound};
ghost use Rattle.tree_questions.specs.Prices.{miss};

use crate::periods::byte_at;
use model_rosters::{ArcKey, ArcPrice, Grammar, LetterPrice};

/// Prices of a prefix: a letter that misses it costs 2 to the power of the number of the periods behind the
/// letter, and all else is free. So of two days the one that agrees longer with the prefix costs less.
#[derive(Clone, Copy)]
pub struct MissPrices<'a> {
    pub grammar: &'a Grammar,
    pub prefix: &'a [u8],
    pub ghost small: { grammar.now.periods ≤ 96 },
}

impl<'a> MissPrices<'a> {
    /// Returns the prices of a prefix. Takes no memory.
    pub fn new(grammar: &'a Grammar, prefix: &'a [u8]) -> MissPrices<'a>
        requires { IsSound grammar.now }
        ensures grammar { result.grammar.now ≡ grammar.now }
        ensures prefix { result.prefix.now ≡ prefix.now }
    {
        MissPrices { grammar, prefix }
    }
}

// Returns what a byte costs where another or nothing is wanted, with so many periods behind it.
fn miss(wanted: Option<u8>, byte: u8, left: u8) -> i128
    requires { left ≤ 96 }
    ensures { result ≡ pos (miss wanted byte left) }
{
    match wanted {
        Some(wanted) if wanted != byte => 2u128.pow(left as u32) as i128,
        _ => 0,
    }
}

impl<'a> LetterPrice for MissPrices<'a> {
    ghost use Rattle.tree_questions.specs.Prices.{miss_view};
    ghost use Rattle.tree_questions.specs.Small.{miss-small};

    ghost view = { λ s. miss_view s.grammar.now s.prefix.now };

    // Returns 0 where the prefix has the code at the period or has ended, and else what the miss costs.
    fn letter(&self, code: u8, period: u8) -> Option<i128> {
        let code = self.grammar.codes.as_slice().get(code as usize)?;
        let wanted = byte_at(self.prefix, period);
        let left = self.grammar.periods.saturating_sub(period);
        Some(miss(wanted, code.byte, left))
    }

    // Returns 0 for each arc.
    fn arc(&self, arc: &ArcKey) -> i128 {
        0
    }

    // Returns that no arc has a price.
    fn arc_prices(&self) -> Option<&[ArcPrice]> {
        Some(&[])
    }

    // Returns 0 for each rule.
    fn rule(&self, rule: u8) -> i128 {
        0
    }

    ghost all_within = { λ s. miss-small s.grammar.now s.prefix.now s.small };
}
