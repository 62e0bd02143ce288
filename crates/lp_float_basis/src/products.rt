//! Products with the inverse, over lent numbers and a `ProductWorkspace`.

use crate::basis::{Basis, sign_of};
use crate::columns::Columns;
use crate::making::{make_sums, make_zeros};
use crate::run::entry_by_sums;
use crate::solving::{fill_listed_values, gather_right, subtract_listed};
use crate::vectors::{at, front, front_mut, set_all, set_at, subtract_multiple, sum_before};
use std::alloc::{AllocError, Global};

/// The room in which products with the inverse of a basis are made.
#[derive(Drop)]
pub struct ProductWorkspace {
    /// Numbers of the tight rows, by their slots.
    slots: Vec<f64>,
    /// What changes from each row to the next, or the sums before each row and behind the last.
    sums: Vec<f64>,
}

/// Leaves the numbers of the unit columns of the basis, one after another.
fn fill_unit_numbers(changes: &[f64], units: &[usize], side: &[f64], out: &mut [f64]) {
    let rows = units.len();
    let mut total = 0.0;
    let mut next = 0usize;
    for ((change, place), number) in changes.iter().zip(units).zip(side) {
        total += *change;
        let sign = sign_of(*place, rows);
        if sign != 0.0 {
            set_at(out, next, (*number + total) * sign);
            next = next.saturating_add(1);
        }
    }
}

/// Leaves the numbers of loose rows, whose unit columns in the basis have these costs, one after another,
/// and 0 for tight rows.
fn fill_loose_numbers(units: &[usize], costs: &[f64], out: &mut [f64]) {
    let rows = units.len();
    let mut next = 0usize;
    for (place, number) in units.iter().zip(out.iter_mut()) {
        let sign = sign_of(*place, rows);
        if sign != 0.0 {
            *number = at(costs, next) * sign;
            next = next.saturating_add(1);
        } else {
            *number = 0.0;
        }
    }
}

/// Returns the numbers from a place on.
fn rest_of(numbers: &[f64], first: usize) -> &[f64] {
    match numbers.get(first..) {
        Some(rest) => rest,
        None => &[],
    }
}

impl ProductWorkspace {
    /// Returns the room for products with the inverse of a basis of so many rows.
    ///
    /// # Errors
    ///
    /// `AllocError` where memory runs out.
    pub fn new(alloc: Global, rows: usize) -> Result<ProductWorkspace, AllocError> {
        Ok(ProductWorkspace {
            slots: make_zeros(alloc, rows)?,
            sums: make_sums(alloc, rows)?,
        })
    }
}

impl Basis {
    /// Leaves the inverse of the basis times a side, which has a number for each row: a number for each basic
    /// column, first the listed ones by slots and then the unit columns by rows. Takes no memory.
    pub fn inverse_times(
        &self,
        columns: &Columns,
        side: &[f64],
        room: &mut ProductWorkspace,
        out: &mut [f64],
    ) {
        let count = self.kernel.size();
        set_all(out, 0.0);
        gather_right(
            self.kernel.tight.as_slice(),
            side,
            room.slots.as_mut_slice(),
        );
        let _fits = fill_listed_values(
            self.kernel.rows.as_slice(),
            room.slots.as_slice(),
            out,
            count,
        );
        set_all(room.sums.as_mut_slice(), 0.0);
        subtract_listed(
            room.sums.as_mut_slice(),
            columns,
            self.kernel.listed.as_slice(),
            front(out, count),
        );
        if let Some(out) = out.get_mut(count..) {
            fill_unit_numbers(room.sums.as_slice(), self.units.as_slice(), side, out);
        }
    }

    /// Leaves the numbers of the tight rows, by their slots: the listed columns of the basis have these
    /// costs, and the sums of the numbers of the loose rows are there.
    fn fill_slots(&self, columns: &Columns, costs: &[f64], room: &mut ProductWorkspace) {
        let out = front_mut(room.slots.as_mut_slice(), self.kernel.size());
        set_all(out, 0.0);
        let rows = self.kernel.rows.as_slice().iter();
        let listed = rows.zip(self.kernel.listed.as_slice());
        for ((row, place), cost) in listed.zip(costs) {
            let rest = *cost - entry_by_sums(columns.runs_at(*place), room.sums.as_slice());
            if rest != 0.0 {
                subtract_multiple(out, -rest, row.numbers.as_slice());
            }
        }
    }

    /// Leaves costs, one for each basic column in the order of `inverse_times`, times the inverse of the
    /// basis: a number for each row. Takes no memory.
    pub fn times_inverse(
        &self,
        columns: &Columns,
        costs: &[f64],
        room: &mut ProductWorkspace,
        out: &mut [f64],
    ) {
        let rest = rest_of(costs, self.kernel.size());
        fill_loose_numbers(self.units.as_slice(), rest, out);
        sum_before(out, room.sums.as_mut_slice());
        self.fill_slots(columns, costs, room);
        let tight = self.kernel.tight.as_slice().iter();
        for (row, number) in tight.zip(room.slots.as_slice()) {
            set_at(out, *row, *number);
        }
    }
}
