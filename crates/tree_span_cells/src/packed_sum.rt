//! A sum or none, in sixteen bytes.

ghost use Rattle.std.specs.Prelude.{◌≡◌, ◌^◌, IfSome};
ghost use Rattle.model_rosters.specs.Sums.{Within};
ghost use Rattle.tree_span_cells.specs.Numbers.{number_of};

use std::marker::Model;

/// The number that stands for a sum that is not there. With the number of any sum and the price of an
/// arc it comes to more than any sum, and two of them fit.
pub const NO_NUMBER: i128 = 1 << 125;

/// A sum that may not be there, in sixteen bytes: one number stands for none.
#[derive(Clone, Copy, Drop)]
pub struct PackedSum {
    number: i128,
}

impl Model for PackedSum {
    ghost use Rattle.std.specs.Prelude.{ℤ, Option};
    ghost use Rattle.tree_span_cells.specs.Numbers.{sum_of, number_of, number_of-sum_of};

    ghost Value = { Option ℤ };

    ghost view = { λ c. sum_of c.number };

    ghost inverse = { λ v. record { number = number_of v } };

    ghost inverse_ok = { λ a h i. record { number = number_of-sum_of a.number i } };
}

impl PackedSum {
    /// Packs a sum.
    pub fn new(sum: Option<i128>) -> PackedSum
        requires { IfSome sum (Within (2 ^ 110)) }
        ensures { result ≡ sum }
    {
        PackedSum {
            number: sum.unwrap_or(NO_NUMBER),
        }
    }

    /// Returns the sum.
    pub fn sum(&self) -> Option<i128>
        ensures { result ≡ self.now }
    {
        if self.number == NO_NUMBER {
            None
        } else {
            Some(self.number)
        }
    }

    /// Returns the number of the sum.
    pub fn number(&self) -> i128
        ensures { result ≡ number_of self.now }
    {
        self.number
    }
}
