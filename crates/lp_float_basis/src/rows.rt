//! A row of the inverse of the whole basis.

use crate::basis::{Basis, Position, UnitNumber, sign_of};
use crate::columns::Columns;
use crate::kernel::{InverseRow, LOOSE};
use crate::numbers::{Entry64, is_row_number};
use crate::run::Run;
use crate::vectors::{
    at, copy_items, front_mut, place_at, scale, set_all, subtract_multiple, sum_before,
};

impl UnitNumber {
    /// Returns that of no row.
    pub(crate) fn none() -> UnitNumber {
        UnitNumber {
            row: LOOSE,
            number: 0.0,
        }
    }
}

/// Returns the entry of a column with these runs in a row.
fn entry_in(runs: &[Run], row: usize) -> Entry64 {
    let mut entry = 0.0;
    for run in runs {
        let (from, to) = (run.from as usize, run.to as usize);
        if from <= row && row < to {
            entry += 1.0;
        }
        if to <= row && row < from {
            entry -= 1.0;
        }
    }
    entry
}

/// Takes the rows of the inverse of the listed columns that have an entry in a row off another row.
fn subtract_rows(
    out: &mut [Entry64],
    rows: &[InverseRow],
    listed: &[usize],
    columns: &Columns,
    unit: UnitNumber,
) {
    for (row, place) in rows.iter().zip(listed) {
        let entry = entry_in(columns.runs_at(*place), unit.row);
        if entry != 0.0 {
            subtract_multiple(out, entry * unit.number, row.numbers.as_slice());
        }
    }
}

/// Leaves the sums of a row of the inverse before each row of the program, and behind the last.
fn fill_sums(slots: &[usize], numbers: &[Entry64], unit: UnitNumber, sums: &mut [Entry64]) {
    let mut total = 0.0;
    for (row, (slot, sum)) in slots.iter().zip(sums.iter_mut()).enumerate() {
        *sum = total;
        if *slot != LOOSE {
            total += at(numbers, *slot);
        } else if row == unit.row {
            total += unit.number;
        }
    }
    if let Some(sum) = sums.last_mut() {
        *sum = total;
    }
}

impl Basis {
    /// Works out the row of the inverse of the basic column at a position, and returns its number in a loose
    /// row.
    pub fn fill_row(&mut self, columns: &Columns, position: Position) -> UnitNumber {
        let count = self.kernel.size();
        let rows = self.rows();
        let out = front_mut(self.room.row.as_mut_slice(), count);
        match position {
            Position::Listed(slot) => {
                if let Some(row) = self.kernel.rows.as_slice().get(slot) {
                    copy_items(out, row.numbers.as_slice());
                }
                UnitNumber::none()
            }
            Position::Unit(row) => {
                let place = place_at(self.units.as_slice(), row);
                let unit = UnitNumber {
                    row,
                    number: sign_of(place, rows),
                };
                set_all(out, 0.0);
                subtract_rows(
                    out,
                    self.kernel.rows.as_slice(),
                    self.kernel.listed.as_slice(),
                    columns,
                    unit,
                );
                unit
            }
        }
    }

    /// Works out the sums of the row that was worked out last.
    pub fn sum_row(&mut self, unit: UnitNumber) {
        fill_sums(
            self.kernel.slots.as_slice(),
            self.room.row.as_slice(),
            unit,
            self.room.sums.as_mut_slice(),
        );
    }

    /// Works out the sums of prices.
    pub fn sum_prices(&mut self, prices: &[f64]) {
        sum_before(prices, self.room.sums.as_mut_slice());
    }

    /// Divides the row that was worked out last by a pivot, and returns what its number in a loose row
    /// becomes; nothing where a number does not fit.
    pub fn scale_row(&mut self, unit: UnitNumber, pivot: Entry64) -> Option<UnitNumber> {
        let count = self.kernel.size();
        let factor = 1.0 / pivot;
        let number = unit.number * factor;
        let fits = scale(front_mut(self.room.row.as_mut_slice(), count), factor);
        if fits && is_row_number(number) {
            Some(UnitNumber {
                row: unit.row,
                number,
            })
        } else {
            None
        }
    }
}
