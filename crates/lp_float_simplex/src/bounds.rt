//! Bounds of prices and reference weights.

use lp_float_basis::Price64;

/// A squared norm or a reference weight: a float of 64 bits.
pub(crate) type Weight64 = f64;

/// The greatest price or reduced cost in size, 2^27.
const MOST_PRICE: Price64 = 134_217_728.0;

/// The greatest reference weight, 2^32.
pub(crate) const MOST_WEIGHT: Weight64 = 4_294_967_296.0;

/// A ratio above all others.
pub(crate) const NEVER: f64 = 1.0e300;

/// Whether a number may be a price or a reduced cost.
pub(crate) fn is_price(number: Price64) -> bool {
    number.abs() <= MOST_PRICE
}

/// Returns a reference weight within its bound.
pub(crate) fn bounded(weight: Weight64) -> Weight64 {
    if weight < MOST_WEIGHT {
        weight
    } else {
        MOST_WEIGHT
    }
}

/// Returns a number, 0 where it is negative.
pub(crate) fn at_least_0(number: f64) -> f64 {
    if number < 0.0 { 0.0 } else { number }
}
