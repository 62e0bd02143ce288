//! Counts of refusals.

ghost use Rattle.std.specs.Prelude.{◌≡◌, ◌+◌, ◌-◌, ◌^◌, min};
ghost use Rattle.lp_fractions.specs.Range.{refused, overspent};

use std::marker::Model;

/// Counts of refusals. Each count stays at the last value of a `u64`.
#[derive(Drop)]
pub struct Tally {
    wide: u64,
    spent: u64,
}

impl Model for Tally {
    ghost use Rattle.lp_fractions.specs.Range.{Counts};

    ghost Value = { Counts };

    ghost view = { λ t. record { wide = t.wide; spent = t.spent } };
}

impl Tally {
    /// Returns a tally that counts 0 and 0.
    pub fn new() -> Self
        ensures wide { result.wide ≡ 0 }
        ensures spent { result.spent ≡ 0 }
    {
        Tally { wide: 0, spent: 0 }
    }

    /// Returns how many results were refused because a number was too wide.
    pub fn wide(&self) -> u64
        ensures { result ≡ self.now.wide }
    {
        self.wide
    }

    /// Returns how often a budget was found spent.
    pub fn spent(&self) -> u64
        ensures { result ≡ self.now.spent }
    {
        self.spent
    }

    /// Counts a refusal for width.
    pub(crate) fn refuse(&mut self)
        ensures { self.new ≡ refused self.old }
    {
        self.wide = self.wide.saturating_add(1);
    }

    /// Counts a spent budget.
    pub(crate) fn overspend(&mut self)
        ensures { self.new ≡ overspent self.old }
    {
        self.spent = self.spent.saturating_add(1);
    }
}
