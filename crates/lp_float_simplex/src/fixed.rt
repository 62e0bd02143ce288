//! Numbers in units of 2^-32 and of 2^-24.

ghost use Rattle.std.specs.Prelude.{◌≡◌};

use lp_float_basis::{Price64, Value64};
use std::num::saturating_f64_to_i64;

/// A number in units of 2^-32: values of columns.
#[derive(Clone, Copy, Drop)]
pub struct Q32(pub(crate) i64);

/// A number in units of 2^-24: prices and reduced costs.
#[derive(Clone, Copy, Drop)]
pub struct Q24(pub(crate) i64);

/// Returns the nearest whole number, or the last one on its side where it is beyond all.
pub(crate) fn nearest(number: f64) -> i64 {
    if number < 0.0 {
        saturating_f64_to_i64(number - 0.5)
    } else {
        saturating_f64_to_i64(number + 0.5)
    }
}

impl Q32 {
    /// Returns the number in units of 2^-32.
    pub fn raw(self) -> i64
        ensures { result ≡ self.0 }
    {
        self.0
    }

    /// Returns the number nearest to a value.
    pub(crate) fn of(value: Value64) -> Q32 {
        Q32(nearest(value * 4_294_967_296.0))
    }
}

impl Q24 {
    /// Returns the number in units of 2^-24.
    pub fn raw(self) -> i64
        ensures { result ≡ self.0 }
    {
        self.0
    }

    /// Returns the number nearest to a price.
    pub(crate) fn of(price: Price64) -> Q24 {
        Q24(nearest(price * 16_777_216.0))
    }
}
