//! The trait of prices.

ghost use Rattle.std.specs.Prelude.{◌≡◌, ◌^◌, IfSome};
ghost use Rattle.model_rosters.specs.RoomPrices.{listed_price};
ghost use Rattle.model_rosters.specs.Sums.{PriceView, Within, AllWithin};

use crate::arc_prices::ArcPrice;
use crate::grammar::ArcKey;

/// Prices of letters, arcs and rule uses, each within plus or minus 2^96.
///
/// The sum of a tree is the sum over its letters, its arcs and its rule uses.
pub trait LetterPrice {
    ghost view: { Self → PriceView };

    /// Returns the price of a letter, by its code's position and its period from 1. `None` forbids
    /// the letter, and a tree that has it has no sum.
    fn letter(&self, code: u8, period: u8) -> Option<i128>
        ensures value { result ≡ (view self.now).letter_at code period }
        ensures within { IfSome result (Within (2 ^ 96)) };

    /// Returns the price of an arc.
    fn arc(&self, arc: &ArcKey) -> i128
        ensures value { result ≡ (view self.now).arc_of arc.now }
        ensures within { Within (2 ^ 96) result };

    /// Returns entries that add up to what each arc costs, an arc with no entry costing nothing; `None`
    /// where arcs are to be asked for one by one.
    fn arc_prices(&self) -> Option<&[ArcPrice]>
        ensures { IfSome result (λ xs. (a : ArcKey) → (view self.now).arc_of a ≡ listed_price xs.now a) };

    /// Returns the price of one use of a rule, by the rule's number from 1.
    fn rule(&self, rule: u8) -> i128
        ensures value { result ≡ (view self.now).rule_of rule }
        ensures within { Within (2 ^ 96) result };

    ghost all_within: { (s : Self) → AllWithin (2 ^ 96) (view s) };
}
