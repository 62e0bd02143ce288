//! A basis to start from.

use crate::key::Key;
use crate::state::State;
use lp_float_basis::{Entry64, Grown, LEAST_PIVOT, Value64, at, set_all};

/// Returns the place of a column in a program of so many rows.
fn place_of(rows: usize, key: Key) -> usize {
    match key {
        Key::Missing(row) if row < rows => row,
        Key::Beyond(row) if row < rows => rows.saturating_add(row),
        Key::Listed(number) => rows.saturating_mul(2).saturating_add(number),
        _ => usize::MAX,
    }
}

/// Whether a right side is below a limit, if there is one.
fn is_below(right: Value64, limit: Option<Value64>) -> bool {
    match limit {
        Some(limit) => right < limit,
        None => true,
    }
}

impl State {
    /// Wants the columns with these keys.
    fn want_keys(&mut self, keys: &[Key]) {
        self.basis.want_none();
        let rows = self.rows();
        for key in keys {
            self.basis.want(place_of(rows, *key));
        }
    }

    /// Wants the columns of what is beyond in the rows whose right side is below a limit, or in all.
    fn want_beyond(&mut self, limit: Option<Value64>) {
        self.basis.want_none();
        let rows = self.rows();
        for row in 0..rows {
            if is_below(at(self.sides.right.as_slice(), row), limit) {
                self.basis.want(rows.saturating_add(row));
            }
        }
    }

    /// Makes the inverse anew from the wanted columns whose pivots are more than this in size, and works out
    /// what follows from it.
    fn make_anew(&mut self, least: Entry64) -> Result<(), Grown> {
        set_all(self.figures.weights.as_mut_slice(), 1.0);
        self.positions.reset();
        self.counts.since = 0;
        self.basis.factor(&mut self.columns, least)?;
        self.refresh()
    }

    /// Starts from a basis with these columns.
    ///
    /// # Errors
    ///
    /// `Grown` where a number of the inverse, or what follows from it, is beyond its bound.
    pub fn start(&mut self, keys: &[Key]) -> Result<(), Grown> {
        self.want_keys(keys);
        let made = self.make_anew(LEAST_PIVOT);
        self.answer();
        made
    }

    /// Starts from the columns of what is beyond, and of what is missing in rows without one.
    ///
    /// # Errors
    ///
    /// `Grown` where a number of the inverse, or what follows from it, is beyond its bound.
    pub fn start_beyond(&mut self) -> Result<(), Grown> {
        self.start_below(None)
    }

    /// Starts from the columns of what is missing, and of what is beyond in rows of a negative right side.
    ///
    /// # Errors
    ///
    /// `Grown` where a number of the inverse, or what follows from it, is beyond its bound.
    pub fn start_missing(&mut self) -> Result<(), Grown> {
        self.start_below(Some(0.0))
    }

    /// Starts from the columns of what is beyond in the rows whose right side is below a limit, or in all,
    /// and of what is missing in the others.
    fn start_below(&mut self, limit: Option<Value64>) -> Result<(), Grown> {
        self.want_beyond(limit);
        let made = self.make_anew(LEAST_PIVOT);
        self.answer();
        made
    }

    /// Makes the inverse anew from its basis.
    ///
    /// # Errors
    ///
    /// `Grown` where a number of the inverse, or what follows from it, is beyond its bound.
    pub(crate) fn renew(&mut self) -> Result<(), Grown> {
        self.renew_above(LEAST_PIVOT)
    }

    /// Makes the inverse anew from those columns of its basis whose pivots are more than this in size.
    ///
    /// # Errors
    ///
    /// `Grown` where a number of the inverse, or what follows from it, is beyond its bound.
    pub(crate) fn renew_above(&mut self, least: Entry64) -> Result<(), Grown> {
        self.basis.want_own();
        self.make_anew(least)
    }
}
