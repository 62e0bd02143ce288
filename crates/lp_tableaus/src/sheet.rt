//! The numbers of a tableau.

ghost use Rattle.std.specs.Prelude.{ℕ, ◌≡◌, ◌≤◌, ◌<◌, ◌++◌, ◌∷◌, [], length, OnOk};
ghost use Rattle.lp_fractions.specs.Row.{at};
ghost use Rattle.lp_tableaus.specs.Sheet.{AreCopied};

use crate::line::NumberRow;
use crate::marks::Marks;
use lp_fractions::PivotRow;
use model_rosters::Memory;
use std::marker::Model;

/// The rows of a tableau, which contracts see as their list.
#[derive(Drop)]
pub(crate) struct Rows {
    pub(crate) lines: Vec<NumberRow>,
}

impl Model for Rows {
    ghost use Rattle.std.specs.Prelude.{List as Items, ℤ};

    ghost Value = { Items (Items ℤ) };

    ghost view = { λ r. r.lines.items };
}

/// The entries of a column, which contracts see as their list.
#[derive(Drop)]
pub(crate) struct Entries {
    pub(crate) numbers: Vec<i128>,
}

impl Model for Entries {
    ghost use Rattle.std.specs.Prelude.{List as Items, ℤ};

    ghost Value = { Items ℤ };

    ghost view = { λ e. e.numbers.items };
}

/// The numbers of a tableau, with the listed column that is basic in each row, and room for a turn.
#[derive(Drop)]
pub(crate) struct Sheet {
    /// The rows, each with its right side behind its numbers.
    pub(crate) rows: Rows,
    /// The prices, and behind them a value and their denominator.
    pub(crate) cost: NumberRow,
    /// The basic column of each row.
    pub(crate) basis: Vec<usize>,
    /// Whether the basic column of each row is wanted.
    pub(crate) wanted: Marks,
    /// Room for the entries of a column.
    pub(crate) entries: Entries,
    /// Room for the prices.
    pub(crate) prices: Entries,
    /// Room for the row of a pivot.
    pub(crate) pivot: PivotRow,
}

impl Rows {
    /// Adds a row at the end.
    ///
    /// # Errors
    ///
    /// `Memory` where memory runs out; nothing is said of the rows then.
    pub(crate) fn push(&mut self, line: NumberRow) -> Result<(), Memory>
        ensures { OnOk result (self.new ≡ self.old ++ line ∷ []) }
    {
        self.lines.push(line)?;
        Ok(())
    }

    /// Returns the rows in order.
    pub(crate) fn as_slice(&self) -> &[NumberRow]
        ensures { result.now ≡ self.now }
    {
        self.lines.as_slice()
    }
}

impl Entries {
    /// Returns the entries in the order of the rows.
    pub(crate) fn as_slice(&self) -> &[i128]
        ensures { result.now ≡ self.now }
    {
        self.numbers.as_slice()
    }

    /// Holds the first numbers of a row.
    pub(crate) fn copy(&mut self, row: &[i64])
        requires { length self.old ≤ length row.now }
        ensures copied { AreCopied (length self.old) self.new row.now }
        ensures length { length self.new ≡ length self.old }
    {
        copy_numbers(&mut self.numbers, row);
    }
}

/// Writes the first numbers of a row.
fn copy_numbers(numbers: &mut [i128], row: &[i64])
    requires { length numbers.old ≤ length row.now }
    ensures { AreCopied (length numbers.old) numbers.new row.now }
{
    for i in 0..numbers.len() {
        numbers[i] = i128::from(row[i]);
    }
}
