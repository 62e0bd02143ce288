//! What happens to the kernel and the positions in a pivot.

use crate::basis::{Basis, NO_COLUMN, Position, UnitNumber};
use crate::kernel::{InverseRow, LOOSE, slot_of};
use crate::numbers::Entry64;
use crate::vectors::{front, subtract_multiple};

/// A basic column that comes to another position.
#[derive(Clone, Copy, Drop)]
pub struct Move {
    pub from: usize,
    pub to: usize,
}

/// What a pivot does to the positions of a basis, by their numbers and in this order.
#[derive(Clone, Copy, Drop)]
pub struct Exchange {
    /// The last listed column comes in place of the one that leaves.
    pub moved: Option<Move>,
    /// A position is left without a column.
    pub emptied: Option<usize>,
    /// The column that enters stands here.
    pub entered: usize,
}

/// Takes multiples of the row that leaves off the other rows of the inverse. Returns how many were
/// touched.
fn step_rows(rows: &mut [InverseRow], row: &[Entry64], entering: &[Entry64], count: usize) -> u64 {
    let row = front(row, count);
    let mut touched = 0u64;
    for (own, entry) in rows.iter_mut().zip(entering).take(count) {
        if *entry != 0.0 {
            touched = touched.saturating_add(1);
            subtract_multiple(own.numbers.as_mut_slice(), *entry, row);
        }
    }
    touched
}

impl Basis {
    /// Returns the number of a row's position.
    fn position_in(&self, row: usize) -> usize {
        row.saturating_add(self.rows())
    }

    /// Lets the unit column of a tight row enter in place of a listed one.
    fn shrink(&mut self, slot: usize, row: usize, place: usize) -> Exchange {
        let last = self.kernel.size().saturating_sub(1);
        let own = slot_of(self.kernel.slots.as_slice(), row);
        self.kernel.shrink(slot, own);
        self.set_unit(row, place);
        Exchange {
            moved: Some(Move {
                from: last,
                to: slot,
            }),
            emptied: Some(last),
            entered: self.position_in(row),
        }
    }

    /// Puts a listed column in place of another one.
    fn replace_listed(&mut self, slot: usize, place: usize) -> Exchange {
        self.kernel
            .replace_listed(slot, place, self.room.row.as_slice());
        Exchange {
            moved: None,
            emptied: None,
            entered: slot,
        }
    }

    /// Lets a listed column enter in place of a row's unit column.
    fn grow(&mut self, unit: UnitNumber, place: usize) -> Exchange {
        let slot = self.kernel.size();
        self.kernel.grow(
            place,
            unit.row,
            self.room.row.as_slice(),
            self.room.entering.as_slice(),
            unit.number,
        );
        self.set_unit(unit.row, NO_COLUMN);
        Exchange {
            moved: None,
            emptied: Some(self.position_in(unit.row)),
            entered: slot,
        }
    }

    /// Lets a row's unit column enter in place of a row's unit column.
    fn exchange_units(&mut self, unit: UnitNumber, row: usize, place: usize) -> Exchange {
        let slot = slot_of(self.kernel.slots.as_slice(), row);
        let mut emptied = None;
        if slot != LOOSE {
            self.kernel
                .replace_tight(slot, unit.row, self.room.entering.as_slice(), unit.number);
            self.set_unit(unit.row, NO_COLUMN);
            emptied = Some(self.position_in(unit.row));
        }
        self.set_unit(row, place);
        Exchange {
            moved: None,
            emptied,
            entered: self.position_in(row),
        }
    }

    /// Lets the column at a place, which was expressed last, enter in place of the one at a position, whose
    /// row was worked out and scaled last, with this number in a loose row.
    pub fn exchange(&mut self, position: Position, unit: UnitNumber, place: usize) -> Exchange {
        let rows = self.rows();
        let count = self.kernel.size();
        let touched = step_rows(
            self.kernel.rows.as_mut_slice(),
            self.room.row.as_slice(),
            self.room.entering.as_slice(),
            count,
        );
        self.work = self
            .work
            .saturating_add(touched.saturating_mul(count as u64));
        let units = rows.saturating_mul(2);
        let row = if place < rows {
            place
        } else {
            place.saturating_sub(rows)
        };
        match position {
            Position::Listed(slot) if place < units => self.shrink(slot, row, place),
            Position::Listed(slot) => self.replace_listed(slot, place),
            Position::Unit(_) if place < units => self.exchange_units(unit, row, place),
            Position::Unit(_) => self.grow(unit, place),
        }
    }
}
