//! Turns that may be made.

ghost use Rattle.std.specs.Prelude.{◌≡◌, ℕ, ◌+◌, ◌↔◌, IsTrue};
ghost use Rattle.std.specs.Bool.{OnTrue, OnFalse};
ghost use Rattle.lp_fractions.specs.Range.{overspent};

use crate::Tally;
use std::marker::Model;

/// A number of pivots that may be made. Contracts see how many are left.
#[derive(Drop)]
pub struct Budget {
    left: u32,
}

impl Model for Budget {
    ghost use Rattle.std.specs.Prelude.{ℕ};

    ghost Value = { ℕ };

    ghost view = { λ b. b.left };
}

impl Budget {
    /// Returns a budget of so many pivots.
    pub fn new(pivots: u32) -> Self
        ensures { result ≡ pivots }
    {
        Budget { left: pivots }
    }

    /// Takes one pivot, or says that none is left, which the tally counts.
    pub fn take(&mut self, tally: &mut Tally) -> bool
        ensures taken { OnTrue result ((self.old ≡ self.new + 1) × (tally.new ≡ tally.old)) }
        ensures spent { OnFalse result ((self.old ≡ 0) × (self.new ≡ 0) × (tally.new ≡
            overspent tally.old)) }
    {
        if self.left == 0 {
            tally.overspend();
            return false;
        }
        self.left -= 1;
        true
    }
}
