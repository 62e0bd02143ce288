//! Floats and whole numbers.

use std::num::{nearest_i64_to_f64, saturating_f64_to_i64};

/// A price of a row, a bound, or a sum of what rows are worth: a float of 64 bits.
pub(crate) type Price64 = f64;

/// What trees bring to a row, or a product of such numbers: a float of 64 bits.
pub(crate) type Cover64 = f64;

/// A factor of steps, or a share of a mean: a float of 64 bits.
pub(crate) type Share64 = f64;

/// The unit of whole prices, one in 2^24.
const UNIT: Price64 = 16_777_216.0;

/// Returns a whole price as a float, the last one on its side where it is beyond 64 bits.
pub(crate) fn price_of(number: i128) -> Price64 {
    let last = if number < 0 { i64::MIN } else { i64::MAX };
    nearest_i64_to_f64(i64::try_from(number).unwrap_or(last)) / UNIT
}

/// Returns the whole price next to a price towards 0, the last one on its side where that is beyond 64 bits.
pub(crate) fn whole_of(price: Price64) -> i128 {
    i128::from(saturating_f64_to_i64(price * UNIT))
}

/// Returns the greater number.
pub(crate) fn greater(number: f64, other: f64) -> f64 {
    if number < other { other } else { number }
}

/// Returns the lesser number.
pub(crate) fn lesser(number: f64, other: f64) -> f64 {
    if other < number { other } else { number }
}

/// Returns the number from the least to the greatest one that is nearest to this one.
pub(crate) fn bounded(number: f64, least: f64, greatest: f64) -> f64 {
    greater(lesser(number, greatest), least)
}
