//! A copy whose last row is a cut.

use crate::state::State;
use lp_float_basis::{Standing, set_at};
use model_rosters::Memory;

/// What the last row of a program becomes.
#[derive(Clone, Copy, Drop)]
pub struct LastRow {
    /// Its right side.
    pub right: i64,
    /// The cost of its column of entry 1.
    pub missing: i64,
    /// The cost of its column of entry -1, where it has one.
    pub beyond: Option<i64>,
}

/// The listed columns that have an entry 1 in the last row.
#[derive(Clone, Copy, Drop)]
struct Members<'a> {
    /// How many columns stand before the listed ones.
    units: usize,
    /// Whether each listed column is one.
    flags: &'a [bool],
}

impl Members<'_> {
    /// Whether a column is one.
    fn has(&self, place: usize) -> bool {
        if place < self.units {
            return false;
        }
        match self.flags.get(place - self.units) {
            Some(flag) => *flag,
            None => false,
        }
    }
}

impl State {
    /// Returns the number of the last row.
    fn last_row(&self) -> usize {
        self.rows().saturating_sub(1)
    }

    /// Gives the members among the columns an entry in the last row.
    fn extend_members(&mut self, members: Members<'_>) -> Result<(), Memory> {
        let row = u32::try_from(self.last_row()).unwrap_or(u32::MAX);
        for place in members.units..self.columns.len() {
            if members.has(place) {
                self.columns.extend(place, row)?;
            }
        }
        Ok(())
    }

    /// Sets the cost and the standing of a column of the last row.
    fn set_cost(&mut self, place: usize, cost: Option<i64>) {
        let standing = match cost {
            Some(_) => Standing::Free,
            None => Standing::Barred,
        };
        self.columns.set_cost(place, cost.unwrap_or(0));
        self.stand(place, standing);
    }

    /// Makes a column of the last row basic there.
    fn put_last(&mut self, last: usize, is_missing: bool) {
        let place = if is_missing {
            last
        } else {
            last.saturating_add(self.rows())
        };
        self.columns.set_standing(place, Standing::Basic);
        self.basis.set_unit(last, place);
    }

    /// Sets the right side and the costs of the last row, in which the basis has the column of entry 1.
    fn change_last(&mut self, row: LastRow) {
        let last = self.last_row();
        set_at(self.sides.perturbations.as_mut_slice(), last, 0.0);
        self.set_side(last, row.right);
        self.set_cost(last, Some(row.missing));
        self.set_cost(last.saturating_add(self.rows()), row.beyond);
        self.put_last(last, row.missing == 0 || row.beyond.is_none());
        self.positions.has_weights = false;
        self.changes.is_stale = true;
        self.changes.is_mispriced = true;
    }

    /// Becomes a copy of another program with as many rows whose last row is empty and loose; here that row
    /// is this one, and the flagged listed columns have an entry 1 in it. Takes memory as `copy_from` does.
    ///
    /// # Errors
    ///
    /// `Memory` where memory runs out; nothing is said of the program then.
    pub fn copy_with_row(
        &mut self,
        other: &State,
        row: LastRow,
        flags: &[bool],
    ) -> Result<(), Memory> {
        let units = self.rows().saturating_mul(2);
        self.copy_from(other)?;
        self.extend_members(Members { units, flags })?;
        self.change_last(row);
        Ok(())
    }
}
