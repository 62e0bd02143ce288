//! Columns and their entries, listed.

use crate::column::{Column, Standing};
use crate::run::{Run, Sign};
use crate::vectors::copy_list;
use model_rosters::Memory;
use std::alloc::Global;

/// The columns of a program by their places: first the unit columns of what is missing in each row, then
/// those of what is beyond, and then the listed ones.
#[derive(Drop)]
pub struct Columns {
    columns: Vec<Column>,
    runs: Vec<Run>,
}

/// Makes the last run longer, if it goes on with an entry in a row. Says whether it was.
fn lengthen_last(runs: &mut [Run], row: u32, sign: Sign) -> bool {
    match runs.last_mut() {
        Some(run) => run.go_on(row, sign),
        None => false,
    }
}

impl Columns {
    /// Returns no columns.
    pub fn new(alloc: Global) -> Columns {
        Columns {
            columns: Vec::new(alloc),
            runs: Vec::new(alloc),
        }
    }

    /// Returns how many there are.
    pub fn len(&self) -> usize {
        self.columns.len()
    }

    /// Returns the columns from a place on.
    pub fn rest_from(&self, first: usize) -> &[Column] {
        match self.columns.as_slice().get(first..) {
            Some(rest) => rest,
            None => &[],
        }
    }

    /// Returns the runs of a column.
    pub fn runs_of(&self, column: &Column) -> &[Run] {
        match self.runs.as_slice().get(column.first..column.end) {
            Some(own) => own,
            None => &[],
        }
    }

    /// Returns the runs of the column at a place.
    pub fn runs_at(&self, place: usize) -> &[Run] {
        match self.columns.as_slice().get(place) {
            Some(column) => self.runs_of(column),
            None => &[],
        }
    }

    /// Returns the cost of the column at a place, 0 where there is none.
    pub fn cost(&self, place: usize) -> i64 {
        match self.columns.as_slice().get(place) {
            Some(column) => column.cost,
            None => 0,
        }
    }

    /// Whether the column at a place may enter the basis.
    pub fn is_free(&self, place: usize) -> bool {
        match self.columns.as_slice().get(place) {
            Some(column) => column.is_free(),
            None => false,
        }
    }

    /// Sets the standing of the column at a place.
    pub fn set_standing(&mut self, place: usize, standing: Standing) {
        if let Some(column) = self.columns.as_mut_slice().get_mut(place) {
            column.standing = standing;
        }
    }

    /// Sets the cost of the column at a place.
    pub fn set_cost(&mut self, place: usize, cost: i64) {
        if let Some(column) = self.columns.as_mut_slice().get_mut(place) {
            column.cost = cost;
        }
    }

    /// Frees the basic columns.
    pub(crate) fn free_basic(&mut self) {
        for column in self.columns.as_mut_slice().iter_mut() {
            if column.is_basic() {
                column.standing = Standing::Free;
            }
        }
    }

    /// Makes the columns at these places basic.
    pub(crate) fn mark_basic(&mut self, basis: &[usize]) {
        for place in basis {
            self.set_standing(*place, Standing::Basic);
        }
    }

    /// Lists a column without entries.
    ///
    /// # Errors
    ///
    /// `Memory` where memory runs out; the columns are as before then.
    pub fn add(&mut self, cost: i64, standing: Standing) -> Result<(), Memory> {
        let place = self.runs.len();
        let column = Column {
            first: place,
            end: place,
            cost,
            standing,
        };
        self.columns.push(column)?;
        Ok(())
    }

    /// Adds an entry to the last column, in a row behind those of its other entries.
    ///
    /// # Errors
    ///
    /// `Memory` where memory runs out; the columns are as before then.
    pub fn add_entry(&mut self, row: u32, sign: Sign) -> Result<(), Memory> {
        let Some(column) = self.columns.as_mut_slice().last_mut() else {
            return Ok(());
        };
        if column.first < column.end && lengthen_last(self.runs.as_mut_slice(), row, sign) {
            return Ok(());
        }
        self.runs.push(Run::of_row(row, sign))?;
        column.end = self.runs.len();
        Ok(())
    }

    /// Gives the column at a place a further entry 1 in a row behind all its others: its runs are copied
    /// behind those of all columns, with one more.
    ///
    /// # Errors
    ///
    /// `Memory` where memory runs out; the columns are as before then.
    pub fn extend(&mut self, place: usize, row: u32) -> Result<(), Memory> {
        let first = self.runs.len();
        let Some(column) = self.columns.as_mut_slice().get_mut(place) else {
            return Ok(());
        };
        let (begin, end) = (column.first, column.end);
        if begin > end || end > first {
            return Ok(());
        }
        self.runs.extend_from_within(begin..end)?;
        self.runs.push(Run::of_row(row, Sign::Plus))?;
        column.first = first;
        column.end = self.runs.len();
        Ok(())
    }

    /// Becomes a copy of others.
    ///
    /// # Errors
    ///
    /// `Memory` where memory runs out; nothing is said of the columns then.
    pub fn copy_from(&mut self, other: &Columns) -> Result<(), Memory> {
        copy_list(&mut self.columns, other.columns.as_slice())?;
        copy_list(&mut self.runs, other.runs.as_slice())
    }
}
