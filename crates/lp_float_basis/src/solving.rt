//! A column, values and prices in terms of the basis.

use crate::basis::{Basis, Pick, sign_of};
use crate::columns::Columns;
use crate::grown::{Grown, fitting};
use crate::kernel::{InverseRow, LOOSE, slot_of};
use crate::numbers::{Entry64, Price64, Value64, is_entry, is_value, without_tiny};
use crate::run::{Run, entry_by_sums};
use crate::vectors::{
    add_at, at, front, front_mut, product_of, set_all, set_at, subtract_multiple, sum_before,
};
use std::num::nearest_i64_to_f64;

/// Picks the entry of a column in a row, if that is tight.
fn pick_row(picks: &mut Vec<Pick>, slots: &[usize], row: usize, entry: Entry64) {
    let slot = slot_of(slots, row);
    if slot != LOOSE && picks.len() < picks.capacity() {
        picks.push_reserved(Pick { slot, entry });
    }
}

/// Picks the entries of a column in the tight rows of a run.
fn pick_run(picks: &mut Vec<Pick>, slots: &[usize], run: &Run) {
    for row in run.from..run.to {
        pick_row(picks, slots, row as usize, 1.0);
    }
    for row in run.to..run.from {
        pick_row(picks, slots, row as usize, -1.0);
    }
}

/// Picks the entries in tight rows of the column with these runs.
fn pick_all(picks: &mut Vec<Pick>, slots: &[usize], runs: &[Run]) {
    picks.clear();
    for run in runs {
        pick_run(picks, slots, run);
    }
}

/// Returns the product of what was picked of a column with a row of the inverse.
fn picked(picks: &[Pick], row: &[Entry64]) -> Entry64 {
    let mut total = 0.0;
    for pick in picks {
        total += pick.entry * at(row, pick.slot);
    }
    total
}

/// Leaves the entries of a column for so many listed columns of the basis, and 0 at the positions behind
/// them. Says whether all fit.
fn fill_listed(rows: &[InverseRow], picks: &[Pick], out: &mut [Entry64], count: usize) -> bool {
    let mut fits = true;
    for (place, (row, number)) in rows.iter().zip(out.iter_mut()).enumerate() {
        *number = if place < count {
            let entry = without_tiny(picked(picks, row.numbers.as_slice()));
            fits &= is_entry(entry);
            entry
        } else {
            0.0
        };
    }
    fits
}

/// Adds a multiple of a column to what changes from each row to the next.
fn add_changes(changes: &mut [f64], runs: &[Run], factor: f64) {
    for run in runs {
        add_at(changes, run.from as usize, factor);
        add_at(changes, run.to as usize, -factor);
    }
}

/// Takes multiples of the listed columns of the basis off what changes from each row to the next.
pub(crate) fn subtract_listed(
    changes: &mut [f64],
    columns: &Columns,
    listed: &[usize],
    factors: &[f64],
) {
    for (place, factor) in listed.iter().zip(factors) {
        if *factor != 0.0 {
            add_changes(changes, columns.runs_at(*place), -*factor);
        }
    }
}

/// Leaves the entries of a column for the unit columns of the basis. Says whether all fit.
fn fill_units(changes: &[f64], units: &[usize], out: &mut [Entry64]) -> bool {
    let rows = units.len();
    let mut fits = true;
    let mut total = 0.0;
    for ((change, place), number) in changes.iter().zip(units).zip(out.iter_mut()) {
        total += *change;
        let entry = without_tiny(total * sign_of(*place, rows));
        fits &= is_entry(entry);
        *number = entry;
    }
    fits
}

/// Leaves the values of the unit columns of the basis. Says whether all fit.
fn fill_unit_values(
    changes: &[f64],
    units: &[usize],
    right: &[Value64],
    values: &mut [Value64],
) -> bool {
    let rows = units.len();
    let mut fits = true;
    let mut total = 0.0;
    for (((change, place), side), value) in changes
        .iter()
        .zip(units)
        .zip(right)
        .zip(values.iter_mut())
    {
        total += *change;
        let found = (*side + total) * sign_of(*place, rows);
        fits &= is_value(found);
        *value = found;
    }
    fits
}

/// Leaves the right sides of the tight rows, by their slots.
pub(crate) fn gather_right(tight: &[usize], right: &[Value64], out: &mut [Value64]) {
    for (row, side) in tight.iter().zip(out.iter_mut()) {
        *side = at(right, *row);
    }
}

/// Leaves the values of the listed columns of the basis. Says whether all fit.
pub(crate) fn fill_listed_values(
    rows: &[InverseRow],
    sides: &[Value64],
    values: &mut [Value64],
    count: usize,
) -> bool {
    let mut fits = true;
    for (row, value) in rows.iter().zip(values.iter_mut()).take(count) {
        let found = product_of(front(row.numbers.as_slice(), count), sides);
        fits &= is_value(found);
        *value = found;
    }
    fits
}

/// Returns the cost of a column as a float.
fn cost64_of(columns: &Columns, place: usize) -> Price64 {
    nearest_i64_to_f64(columns.cost(place))
}

/// Leaves the prices of loose rows, which their unit columns in the basis tell, and 0 for tight ones.
fn fill_loose_prices(units: &[usize], columns: &Columns, prices: &mut [Price64]) {
    let rows = units.len();
    for (place, price) in units.iter().zip(prices.iter_mut()) {
        *price = cost64_of(columns, *place) * sign_of(*place, rows);
    }
}

/// Leaves the prices of tight rows, by their slots: those of loose ones have these sums.
fn fill_tight_prices(
    rows: &[InverseRow],
    listed: &[usize],
    columns: &Columns,
    sums: &[Price64],
    out: &mut [Price64],
) {
    set_all(out, 0.0);
    for (row, place) in rows.iter().zip(listed) {
        let rest = cost64_of(columns, *place) - entry_by_sums(columns.runs_at(*place), sums);
        if rest != 0.0 {
            subtract_multiple(out, -rest, row.numbers.as_slice());
        }
    }
}

impl Basis {
    /// Works out the column at a place in terms of the basis.
    ///
    /// # Errors
    ///
    /// `Grown` where there is no such column, or a number in terms of the basis is beyond its bound.
    pub fn fill_column(&mut self, columns: &Columns, place: usize) -> Result<(), Grown> {
        if place >= columns.len() {
            return Err(Grown);
        }
        let runs = columns.runs_at(place);
        let rows = self.rows();
        let count = self.kernel.size();
        pick_all(&mut self.room.picks, self.kernel.slots.as_slice(), runs);
        let fits = fill_listed(
            self.kernel.rows.as_slice(),
            self.room.picks.as_slice(),
            self.room.entering.as_mut_slice(),
            count,
        );
        set_all(self.room.changes.as_mut_slice(), 0.0);
        add_changes(self.room.changes.as_mut_slice(), runs, 1.0);
        subtract_listed(
            self.room.changes.as_mut_slice(),
            columns,
            self.kernel.listed.as_slice(),
            self.room.entering.as_slice(),
        );
        let Some(entering) = self.room.entering.as_mut_slice().get_mut(rows..) else {
            return Err(Grown);
        };
        let units_fit = fill_units(
            self.room.changes.as_slice(),
            self.units.as_slice(),
            entering,
        );
        fitting(fits && units_fit)
    }

    /// Leaves the values of the basic columns at these right sides, by positions.
    ///
    /// # Errors
    ///
    /// `Grown` where a value is beyond its bound.
    pub fn fill_values(
        &mut self,
        columns: &Columns,
        right: &[Value64],
        values: &mut [Value64],
    ) -> Result<(), Grown> {
        let rows = self.rows();
        let count = self.kernel.size();
        set_all(values, 0.0);
        gather_right(
            self.kernel.tight.as_slice(),
            right,
            self.room.row.as_mut_slice(),
        );
        let fits = fill_listed_values(
            self.kernel.rows.as_slice(),
            self.room.row.as_slice(),
            values,
            count,
        );
        set_all(self.room.changes.as_mut_slice(), 0.0);
        subtract_listed(
            self.room.changes.as_mut_slice(),
            columns,
            self.kernel.listed.as_slice(),
            values,
        );
        let Some(values) = values.get_mut(rows..) else {
            return Err(Grown);
        };
        let units_fit = fill_unit_values(
            self.room.changes.as_slice(),
            self.units.as_slice(),
            right,
            values,
        );
        fitting(fits && units_fit)
    }

    /// Leaves the prices of the rows.
    pub fn fill_prices(&mut self, columns: &Columns, prices: &mut [Price64]) {
        let count = self.kernel.size();
        fill_loose_prices(self.units.as_slice(), columns, prices);
        sum_before(prices, self.room.sums.as_mut_slice());
        fill_tight_prices(
            self.kernel.rows.as_slice(),
            self.kernel.listed.as_slice(),
            columns,
            self.room.sums.as_slice(),
            front_mut(self.room.row.as_mut_slice(), count),
        );
        let tight = self.kernel.tight.as_slice().iter();
        for (row, price) in tight.zip(self.room.row.as_slice()) {
            set_at(prices, *row, *price);
        }
    }
}
