//! Prices of a fill, by the numbers of letters and rules.

ghost use Rattle.std.specs.Prelude.{◌≡◌};
ghost use Rattle.bench_runs.specs.Prices.{price_of};

use model_rosters::{ArcKey, ArcPrice, LetterPrice};

/// The prices of one fill: those of letters and rules are 0 to 99, by their numbers and the number of
/// the fill. Arcs cost nothing.
#[derive(Clone, Copy, Drop)]
pub struct FillPrices {
    /// The number of the fill.
    pub fill: u32,
}

impl FillPrices {
    /// Returns the price of what has this number.
    fn price(&self, number: u32) -> i128
        ensures { result ≡ price_of self.now.fill number }
    {
        i128::from((u64::from(self.fill) * 7 + u64::from(number)) % 100)
    }
}

impl LetterPrice for FillPrices {
    ghost use Rattle.bench_runs.specs.Prices.{fill_view};
    ghost use Rattle.bench_runs.specs.Small.{view-small};

    ghost view = { λ s. fill_view s.fill };

    fn letter(&self, code: u8, period: u8) -> Option<i128> {
        Some(self.price(u32::from(code) * 31 + u32::from(period) * 17))
    }

    fn arc(&self, arc: &ArcKey) -> i128 {
        0
    }

    fn arc_prices(&self) -> Option<&[ArcPrice]> {
        Some(&[])
    }

    fn rule(&self, rule: u8) -> i128 {
        self.price(u32::from(rule) * 13)
    }

    ghost all_within = { λ s. view-small s.fill };
}
