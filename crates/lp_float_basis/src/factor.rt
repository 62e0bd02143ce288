//! A basis of wanted columns, and its inverse, made anew.

use crate::basis::{Basis, NO_COLUMN, Position};
use crate::columns::Columns;
use crate::grown::Grown;
use crate::numbers::Entry64;
use crate::vectors::{number_of, place_at, set_all, set_at};

/// Leaves the basis of what is missing.
fn reset_units(units: &mut [usize]) {
    for (row, place) in units.iter_mut().enumerate() {
        *place = row;
    }
}

/// Takes a row, if it is there and free. Says whether it was.
fn take(taken: &mut [bool], row: usize) -> bool {
    match taken.get_mut(row) {
        Some(is_taken) if !*is_taken => {
            *is_taken = true;
            true
        }
        _ => false,
    }
}

/// Takes the rows whose columns of what is missing are wanted.
fn take_missing(taken: &mut [bool], wanted: &[usize]) {
    for place in wanted {
        let _is_free = take(taken, *place);
    }
}

/// Returns the loose row not yet taken with the greatest entry in size, if that is more than the least pivot.
fn free_row(entries: &[Entry64], taken: &[bool], least: Entry64) -> Option<usize> {
    let mut greatest = least;
    let mut found = None;
    for (row, (entry, is_taken)) in entries.iter().zip(taken).enumerate() {
        let size = entry.abs();
        if !*is_taken && size > greatest {
            greatest = size;
            found = Some(row);
        }
    }
    found
}

impl Basis {
    /// Wants no column in the basis that is to be made.
    pub fn want_none(&mut self) {
        self.room.wanted.clear();
    }

    /// Wants the column at a place in the basis that is to be made, where there is room for it.
    pub fn want(&mut self, place: usize) {
        let wanted = &mut self.room.wanted;
        if wanted.len() < wanted.capacity() {
            wanted.push_reserved(place);
        }
    }

    /// Wants the columns that it has.
    pub fn want_own(&mut self) {
        self.want_none();
        for row in 0..self.units.len() {
            let place = place_at(self.units.as_slice(), row);
            if place != NO_COLUMN {
                self.want(place);
            }
        }
        for slot in 0..self.kernel.size() {
            let place = place_at(self.kernel.listed.as_slice(), slot);
            self.want(place);
        }
    }

    /// Puts the column of what is beyond a row into the basis, if there is one and the row is free.
    fn put_beyond(&mut self, columns: &Columns, row: usize, place: usize) {
        if columns.is_free(place) && take(self.room.taken.as_mut_slice(), row) {
            set_at(self.units.as_mut_slice(), row, place);
        }
    }

    /// Puts the wanted columns of what is beyond into the basis.
    fn put_all_beyond(&mut self, columns: &Columns) {
        let rows = self.rows();
        for number in 0..self.room.wanted.len() {
            let place = place_at(self.room.wanted.as_slice(), number);
            if place >= rows && place - rows < rows {
                self.put_beyond(columns, place - rows, place);
            }
        }
    }

    /// Returns the row not yet taken in which the column that was expressed last has its greatest entry.
    fn free_row(&self, least: Entry64) -> Option<usize> {
        let entries = self.room.entering.as_slice().get(self.rows()..)?;
        free_row(entries, self.room.taken.as_slice(), least)
    }

    /// Puts a listed column into the basis, in the free row with its greatest entry, if that is more than the
    /// least pivot.
    fn put_listed(&mut self, columns: &Columns, place: usize, least: Entry64) -> Result<(), Grown> {
        self.fill_column(columns, place)?;
        let Some(row) = self.free_row(least) else {
            return Ok(());
        };
        let number = row.saturating_add(self.rows());
        let entry = number_of(self.room.entering.as_slice(), number)?;
        let unit = self.fill_row(columns, Position::Unit(row));
        let unit = self.scale_row(unit, entry).ok_or(Grown)?;
        let _exchange = self.exchange(Position::Unit(row), unit, place);
        let _is_free = take(self.room.taken.as_mut_slice(), row);
        Ok(())
    }

    /// Puts the wanted listed columns into the basis.
    fn put_all_listed(&mut self, columns: &Columns, least: Entry64) -> Result<(), Grown> {
        let first = self.rows().saturating_mul(2);
        for number in 0..self.room.wanted.len() {
            let place = place_at(self.room.wanted.as_slice(), number);
            if place >= first && place < columns.len() {
                self.put_listed(columns, place, least)?;
            }
        }
        Ok(())
    }

    /// Leaves the columns of what is missing as the basis.
    fn reset(&mut self, columns: &mut Columns) {
        self.kernel.clear();
        reset_units(self.units.as_mut_slice());
        columns.free_basic();
        set_all(self.room.taken.as_mut_slice(), false);
    }

    /// Becomes the basis of the wanted columns, as far as they are independent, and makes its inverse anew;
    /// their columns become basic. A row for which none is left has that of what is missing there. A listed
    /// column whose pivot is not more than the least one in size is left out: it nearly depends on the
    /// others.
    ///
    /// # Errors
    ///
    /// `Grown` where a number is beyond its bound; it is a basis of some of the wanted columns then, whose
    /// inverse is not to be used.
    pub fn factor(&mut self, columns: &mut Columns, least: Entry64) -> Result<(), Grown> {
        self.reset(columns);
        take_missing(self.room.taken.as_mut_slice(), self.room.wanted.as_slice());
        self.put_all_beyond(columns);
        let put = self.put_all_listed(columns, least);
        columns.mark_basic(self.units.as_slice());
        columns.mark_basic(self.kernel.listed.as_slice());
        put
    }
}
