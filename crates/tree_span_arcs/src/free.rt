//! Prices under which everything is free, so that a least sum tells that there is a tree.

use model_rosters::{ArcKey, ArcPrice, LetterPrice};

/// Prices under which everything is free: there is a least sum exactly where there is a tree.
#[derive(Clone, Copy, Drop)]
pub struct Free;

impl LetterPrice for Free {
    ghost use Rattle.tree_span_arcs.specs.Marks.{free_view};
    ghost use Rattle.tree_span_arcs.specs.Free.{free-within};

    ghost view = { λ s. free_view };

    // Returns 0 for each letter.
    fn letter(&self, code: u8, period: u8) -> Option<i128> {
        Some(0)
    }

    // Returns 0 for each arc.
    fn arc(&self, arc: &ArcKey) -> i128 {
        0
    }

    // Returns that no arc has a price.
    fn arc_prices(&self) -> Option<&[ArcPrice]> {
        Some(&[])
    }

    // Returns 0 for each rule.
    fn rule(&self, rule: u8) -> i128 {
        0
    }

    ghost all_within = { λ s. free-within };
}
