//! Whole numbers of one width, with the numbers that stand for none.

ghost use Rattle.std.specs.Prelude.{◌≡◌, ◌+◌, ◌+ℤ◌, ◌<ℤ◌, ◌≤ℤ◌, ℤ, pos, IsTrue, IsFalse, IfSome, IfNone};
ghost use Rattle.std.specs.Ordering.{int_eq};
ghost use Rattle.model_rosters.specs.Sums.{Within};
ghost use Rattle.tree_cheapest.specs.Numbers.{Limits, AreLimits};

/// Whole numbers of one width, in which a pass over a graph adds.
pub trait Number: Copy {
    // Which number it is, and what a number is kept as.
    ghost value: { Self → ℤ };

    ghost kept: { ℤ → Self };

    ghost same: { (n : Self) → kept (value n) ≡ n };

    // How great prices and sums may be, and which numbers stand for no least sum and for none.
    ghost limits: { Limits };

    /// Returns a price; `None` exactly where it is beyond the limits.
    fn price(price: i128) -> Option<Self>
        ensures same { IfSome result (λ n. value n ≡ price) }
        ensures within { IfSome result (λ n. Within limits.price (value n)) }
        ensures beyond { IfNone result (Within limits.price price → ⊥) };

    /// Returns 0.
    fn zero() -> Self
        ensures { value result ≡ pos 0 };

    /// Returns the number that stands for none.
    fn none() -> Self
        ensures { value result ≡ pos limits.none };

    /// Returns the number that stands for no least sum.
    fn no_least() -> Self
        ensures { value result ≡ pos limits.least };

    /// Returns the number in 128 bits.
    fn widened(self) -> i128
        ensures { result ≡ value self };

    /// Returns the sum of two prices.
    fn plus(self, price: Self) -> Self
        requires one { Within limits.price (value self) }
        requires two { Within limits.price (value price) }
        ensures { value result ≡ value self +ℤ value price };

    /// Returns the sum of the number of a first part, two prices and the number of what follows.
    fn add(first: Self, prices: Self, rest: Self) -> Self
        requires first { Within limits.none (value first) }
        requires prices { Within (limits.price + limits.price) (value prices) }
        requires rest { Within limits.none (value rest) }
        ensures { value result ≡ (value first +ℤ value prices) +ℤ value rest };

    /// Returns whether it is less than another.
    fn is_less(self, than: Self) -> bool
        ensures less { IsTrue result → value self <ℤ value than }
        ensures not { IsFalse result → value than ≤ℤ value self };

    /// Returns whether it is the other.
    fn is_same(self, other: Self) -> bool
        ensures { result ≡ int_eq (value self) (value other) };

    /// Returns whether it is within the limit of sums.
    fn is_sum(self) -> bool
        ensures within { IsTrue result → Within limits.sum (value self) }
        ensures beyond { IsFalse result → Within limits.sum (value self) → ⊥ };

    ghost are_limits: { AreLimits limits };
}
