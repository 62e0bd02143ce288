//! Numbers of 128 bits for a pass.

ghost use Rattle.std.specs.Prelude.{◌≡◌, ◌≤ℤ◌, ◌^◌, IfSome};

use crate::number::Number;

// How great a price may be, 2^96.
const MOST_PRICE: i128 = 1 << 96;

// How great a sum may be, 2^110.
const MOST_SUM: i128 = 1 << 110;

// The number that stands for no least sum, 2^112. It is above all sums of two sums and two prices, and
// below what comes of a number that stands for none.
const NO_LEAST: i128 = 1 << 112;

// The number that stands for none, 2^113.
const NONE: i128 = 1 << 113;

/// Numbers of 128 bits. They fit all prices.
impl Number for i128 {
    ghost use Rattle.std.specs.Prelude.{◌+◌, ◌^◌, refl};
    ghost use Rattle.std.proofs.Common.{arith};

    ghost value = { λ n. n };

    ghost kept = { λ z. z };

    ghost same = { λ n. refl };

    ghost limits = { record {
      price = 2 ^ 96;
      sum = 2 ^ 110;
      least = 2 ^ 112;
      none = 2 ^ 113;
    } };

    ghost are_limits = { record {
      prices = Prim.omega arith;
      sums = Prim.omega arith;
      above = Prim.omega arith;
      below = Prim.omega arith;
    } };

    // Returns the number of a price, none where it is beyond the limits.
    fn price(price: i128) -> Option<i128> {
        if price < -MOST_PRICE || price > MOST_PRICE {
            None
        } else {
            Some(price)
        }
    }

    // Returns the number of what costs nothing.
    fn zero() -> i128 {
        0
    }

    // Returns the number that stands for none.
    fn none() -> i128 {
        NONE
    }

    // Returns the number that stands for no least sum.
    fn no_least() -> i128 {
        NO_LEAST
    }

    // Returns the number itself, which has 128 bits.
    fn widened(self) -> i128 {
        self
    }

    // Returns the sum of two prices.
    fn plus(self, price: i128) -> i128 {
        self + price
    }

    // Returns the sum of two sums and the prices between them.
    fn add(first: i128, prices: i128, rest: i128) -> i128 {
        first + prices + rest
    }

    // Says whether the number is below another one.
    fn is_less(self, than: i128) -> bool {
        self < than
    }

    // Says whether the numbers are the same.
    fn is_same(self, other: i128) -> bool {
        self == other
    }

    // Says whether the number is within the limit of sums.
    fn is_sum(self) -> bool {
        self >= -MOST_SUM && self <= MOST_SUM
    }
}
