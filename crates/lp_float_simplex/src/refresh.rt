//! Values, prices and reduced costs, worked out anew.

use crate::bounds::is_price;
use crate::fixed::{Q24, Q32};
use crate::state::State;
use crate::sweeps::reduce;
use lp_float_basis::{Grown, NO_COLUMN, Price64, at, fitting, place_at, set_at};

/// Whether these prices all fit.
fn are_prices(prices: &[Price64]) -> bool {
    prices.iter().all(|price| is_price(*price))
}

/// Writes numbers in fixed point.
fn write_prices(prices: &[Price64], out: &mut [Q24]) {
    for (price, answer) in prices.iter().zip(out.iter_mut()) {
        *answer = Q24::of(*price);
    }
}

impl State {
    /// Works out the reduced costs of the columns from a place on.
    fn price_from(&mut self, first: usize) {
        self.basis.sum_prices(self.prices.as_slice());
        if let Some(reduced) = self.figures.reduced.as_mut_slice().get_mut(first..) {
            reduce(&self.columns, first, self.basis.sums(), reduced);
        }
        self.changes.priced = self.columns.len();
    }

    /// Works out the reduced costs of the columns that have none.
    pub(crate) fn price_new(&mut self) {
        if self.changes.priced < self.columns.len() {
            self.price_from(self.changes.priced);
        }
    }

    /// Works out the values from the inverse.
    ///
    /// # Errors
    ///
    /// `Grown` where a value is beyond its bound.
    pub(crate) fn renew_values(&mut self) -> Result<(), Grown> {
        self.changes.is_stale = false;
        self.basis.fill_values(
            &self.columns,
            self.sides.right.as_slice(),
            self.positions.values.as_mut_slice(),
        )
    }

    /// Works out values, prices and reduced costs from the inverse.
    ///
    /// # Errors
    ///
    /// `Grown` where a value or a price is beyond its bound.
    pub(crate) fn refresh(&mut self) -> Result<(), Grown> {
        self.basis
            .fill_prices(&self.columns, self.prices.as_mut_slice());
        self.price_from(0);
        self.changes.is_mispriced = false;
        self.counts.drift = 0;
        self.renew_values()?;
        fitting(are_prices(self.prices.as_slice()))
    }

    /// Writes a basic column's place and value.
    fn write_basic(&mut self, at: usize, place: usize, value: f64) {
        set_at(self.answers.basis.as_mut_slice(), at, place);
        set_at(self.answers.values.as_mut_slice(), at, Q32::of(value));
    }

    /// Writes the listed columns of the basis, and returns how many they are.
    fn write_listed(&mut self) -> usize {
        let count = self.basis.size();
        for slot in 0..count {
            let place = place_at(self.basis.listed(), slot);
            let value = at(self.positions.values.as_slice(), slot);
            self.write_basic(slot, place, value);
        }
        count
    }

    /// Writes the unit columns of the basis from a place on.
    fn write_units(&mut self, first: usize) {
        let rows = self.rows();
        let mut next = first;
        for row in 0..rows {
            let place = place_at(self.basis.units(), row);
            if place != NO_COLUMN {
                let number = row.saturating_add(rows);
                let value = at(self.positions.values.as_slice(), number);
                self.write_basic(next, place, value);
                next = next.saturating_add(1);
            }
        }
    }

    /// Writes the basis, and values and prices in fixed point.
    pub(crate) fn answer(&mut self) {
        let count = self.write_listed();
        self.write_units(count);
        write_prices(self.prices.as_slice(), self.answers.prices.as_mut_slice());
    }
}
