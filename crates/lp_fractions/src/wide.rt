//! Why a result was refused.

use crate::Frac;

/// Why a result was refused, with the numbers that were asked for.
#[derive(Clone, Copy, PartialEq, Eq, Debug)]
pub enum TooWide {
    /// A sum, difference, product or quotient of two fractions.
    Pair {
        a: Frac,
        b: Frac,
    },
    /// An entry of a row step: `p * r`, `a * s` or their difference is out of range.
    Row {
        p: i128,
        r: i128,
        a: i128,
        s: i128,
    },
    /// A value above a limit in size.
    Value {
        value: i128,
        most: i128,
    },
    /// The floor of `num * d / den`, above a limit in size.
    Scaled {
        num: i128,
        den: i128,
        d: u64,
        most: i128,
    },
    /// A sum.
    Sum {
        a: i128,
        b: i128,
    },
    /// A product.
    Product {
        a: i128,
        b: i128,
    },
}
