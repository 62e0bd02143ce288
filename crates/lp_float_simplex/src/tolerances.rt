//! What a run takes for 0.

use lp_float_basis::{Price64, Value64};

/// What a run takes for 0.
#[derive(Clone, Copy, Drop)]
pub struct Tolerances {
    /// A column enters at a reduced cost below the negative of this.
    pub reduced: Price64,
    /// A value is negative below the negative of this, and the ratio test of a primal step allows a value
    /// as much.
    pub value: Value64,
}

impl Tolerances {
    /// Returns the usual ones, 2^-11 for reduced costs and 2^-17 for values.
    pub fn usual() -> Tolerances {
        Tolerances {
            reduced: 4.8828125e-4,
            value: 7.62939453125e-6,
        }
    }

    /// Returns these, multiplied by a factor.
    pub fn times(self, factor: f64) -> Tolerances {
        Tolerances {
            reduced: self.reduced * factor,
            value: self.value * factor,
        }
    }
}
