//! Numbers of 64 bits for a pass; they fit nearly all prices.

ghost use Rattle.std.specs.Prelude.{◌≡◌, ◌≤ℤ◌, ◌^◌, IfSome};

use crate::number::Number;

// How great a price may be, 2^43.
const MOST_PRICE: i128 = 1 << 43;

// How great a sum may be, 2^59.
const MOST_SUM: i64 = 1 << 59;

// The number that stands for no least sum, 2^60 + 2^50. It is above all sums of two sums and two prices, and
// below what comes of a number that stands for none.
const NO_LEAST: i64 = (1 << 60) + (1 << 50);

// The number that stands for none, 2^61.
const NONE: i64 = 1 << 61;

/// Numbers of 64 bits. They fit nearly all prices.
impl Number for i64 {
    ghost use Rattle.std.specs.Prelude.{◌+◌, ◌^◌, refl};
    ghost use Rattle.std.proofs.Common.{arith};

    ghost value = { λ n. n };

    ghost kept = { λ z. z };

    ghost same = { λ n. refl };

    ghost limits = { record {
      price = 2 ^ 43;
      sum = 2 ^ 59;
      least = 2 ^ 60 + 2 ^ 50;
      none = 2 ^ 61;
    } };

    ghost are_limits = { record {
      prices = Prim.omega arith;
      sums = Prim.omega arith;
      above = Prim.omega arith;
      below = Prim.omega arith;
    } };

    // Returns the number of a price, none where it is beyond the limits.
    fn price(price: i128) -> Option<i64> {
        if price < -MOST_PRICE || price > MOST_PRICE {
            None
        } else {
            Some(price as i64)
        }
    }

    // Returns the number of what costs nothing.
    fn zero() -> i64 {
        0
    }

    // Returns the number that stands for none.
    fn none() -> i64 {
        NONE
    }

    // Returns the number that stands for no least sum.
    fn no_least() -> i64 {
        NO_LEAST
    }

    // Returns the number in 128 bits.
    fn widened(self) -> i128 {
        i128::from(self)
    }

    // Returns the sum of two prices.
    fn plus(self, price: i64) -> i64 {
        self + price
    }

    // Returns the sum of two sums and the prices between them.
    fn add(first: i64, prices: i64, rest: i64) -> i64 {
        first + prices + rest
    }

    // Says whether the number is below another one.
    fn is_less(self, than: i64) -> bool {
        self < than
    }

    // Says whether the numbers are the same.
    fn is_same(self, other: i64) -> bool {
        self == other
    }

    // Says whether the number is within the limit of sums.
    fn is_sum(self) -> bool {
        self >= -MOST_SUM && self <= MOST_SUM
    }
}
