//! A row of numbers.

ghost use Rattle.std.specs.Prelude.{◌≡◌, ◌<◌, ◌≤◌, ◌^◌, pos, ◌<ℤ◌, unsigned_abs, length, IfOk, IfErr, MatchResult};
ghost use Rattle.lp_fractions.specs.Range.{refused};
ghost use Rattle.lp_fractions.specs.pivot_rows.Rows.{AreNarrow, StepsTo, IsWideStep};
ghost use Rattle.lp_tableaus.specs.Lines.{IsLine};

use lp_fractions::{PivotRow, Tally, TooWide, step_row};
use std::marker::Model;

/// A row of numbers, which contracts see as a list.
#[derive(Drop)]
pub(crate) struct NumberRow {
    numbers: Vec<i64>,
}

impl Model for NumberRow {
    ghost use Rattle.std.specs.Prelude.{List as Items, ℤ};

    ghost Value = { Items ℤ };

    ghost view = { λ l. l.numbers.items };
}

impl NumberRow {
    /// Returns the row of these numbers.
    pub(crate) fn from_vec(numbers: Vec<i64>) -> NumberRow
        ensures { result ≡ numbers.items }
    {
        NumberRow { numbers }
    }

    /// Returns the numbers.
    pub(crate) fn as_slice(&self) -> &[i64]
        ensures { result.now ≡ self.now }
    {
        self.numbers.as_slice()
    }

    /// Takes a step of elimination by another row, as `step_row`.
    ///
    /// # Errors
    ///
    /// As of `step_row`: a new number that is above 2^56 in size is told, and the tally counts a refusal; the
    /// row then still has as many numbers, and nothing else is said of it.
    pub(crate) fn step(
        &mut self,
        factor: i128,
        other: &PivotRow,
        entry: i128,
        tally: &mut Tally,
    ) -> Result<(), TooWide>
        requires line { IsLine (length self.old) self.old }
        requires lengths { length self.old ≤ length other.now }
        requires other { AreNarrow other.now }
        requires factor { (pos 0 <ℤ factor) × (unsigned_abs factor ≤ 2 ^ 68) }
        requires entry { unsigned_abs entry ≤ 2 ^ 68 }
        ensures step { IfOk result (λ _. StepsTo self.old factor other.now entry self.new) }
        ensures line { IfOk result (λ _. IsLine (length self.old) self.new) }
        ensures length { length self.new ≡ length self.old }
        ensures wide { IfErr result (λ _. IsWideStep self.old factor other.now entry) }
        ensures counted { MatchResult result (λ _. tally.new ≡ tally.old)
            (λ _. tally.new ≡ refused tally.old) }
    {
        step_row(&mut self.numbers, factor, other, entry, tally)
    }
}
