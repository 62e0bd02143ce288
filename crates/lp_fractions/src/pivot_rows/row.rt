//! The row of a pivot.

ghost use Rattle.std.specs.Prelude.{◌≡◌, ◌≤◌, ◌-◌, ◌++◌, length, IfOk, vec_capacity};
ghost use Rattle.lp_fractions.specs.pivot_rows.Rows.{zeros};
ghost use Rattle.lp_fractions.specs.pivot_rows.Places.{AreListed};

use model_rosters::Memory;
use std::alloc::Global;
use std::marker::Model;

/// The greatest size of a number of a row: 2^56.
pub const MOST_NUMBER: i64 = 1 << 56;

/// The row of a pivot, with the places of its numbers that are not 0. A contract sees the numbers.
#[derive(Drop)]
pub struct PivotRow {
    numbers: Vec<i64>,
    // The places of the numbers that are not 0, rising.
    places: Vec<usize>,
}

impl Model for PivotRow {
    ghost use Rattle.std.specs.Prelude.{List as Items, ℤ, ◌≤◌, length, vec_capacity};
    ghost use Rattle.lp_fractions.specs.pivot_rows.Places.{AreListed};

    ghost Value = { Items ℤ };

    ghost view = { λ r. r.numbers.items };

    ghost invariant = { λ r. (length r.numbers.items ≤ vec_capacity r.places) ×
        AreListed r.numbers.items (length r.numbers.items) r.places.items };
}

// Copies the numbers of a row, and puts zeros behind them.
fn copy_row(numbers: &mut [i64], row: &[i64])
    requires { length row.now ≤ length numbers.old }
    ensures { numbers.new ≡ row.now ++ zeros (length numbers.old - length row.now) }
{
    numbers[..row.len()].copy_from_slice(row);
    numbers[row.len()..].fill(0);
}

// Lists the places of the numbers that are not 0. There is room for all.
fn list_places(numbers: &[i64], places: &mut Vec<usize>)
    requires { length numbers.now ≤ vec_capacity places.old }
    ensures listed { AreListed numbers.now (length numbers.now) places.new.items }
    ensures room { length numbers.now ≤ vec_capacity places.new }
{
    places.clear();
    for place in 0..numbers.len() {
        if numbers[place] != 0 {
            places.push_reserved(place);
        }
    }
}

impl PivotRow {
    /// Returns a row of so many zeros. It has taken the memory for any row of this width.
    ///
    /// # Errors
    ///
    /// `Memory` where memory runs out; nothing is kept then.
    pub fn new(alloc: Global, width: usize) -> Result<PivotRow, Memory>
        ensures { IfOk result (λ row. row ≡ zeros width) }
    {
        let numbers = vec![in alloc; 0; width]?;
        let places = Vec::with_capacity(alloc, width)?;
        Ok(PivotRow { numbers, places })
    }

    /// Holds the numbers of another row, and zeros behind them where it is shorter. Takes no memory.
    pub fn set(&mut self, row: &[i64])
        requires length { length row.now ≤ length self.old }
        ensures { self.new ≡ row.now ++ zeros (length self.old - length row.now) }
    {
        copy_row(self.numbers.as_mut_slice(), row);
        list_places(self.numbers.as_slice(), &mut self.places);
    }

    /// Returns the numbers.
    pub fn numbers(&self) -> &[i64]
        ensures { result.now ≡ self.now }
    {
        self.numbers.as_slice()
    }

    /// Returns the places of the numbers that are not 0, rising.
    pub fn places(&self) -> &[usize]
        ensures { AreListed self.now (length self.now) result.now }
    {
        self.places.as_slice()
    }
}
