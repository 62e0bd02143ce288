//! Primal and dual steps.

use crate::bounds::is_price;
use crate::positions::Entered;
use crate::state::State;
use crate::sweeps::{Entering, dual_entering, primal_entering};
use crate::values::{dual_leaving, leaving, step_values, step_weights};
use lp_float_basis::{
    Entry64, Grown, Position, Price64, Standing, UnitNumber, add_at, fitting, is_value, number_of,
    position_of,
};

/// What a step did.
#[derive(Clone, Copy, Drop)]
pub(crate) enum Step {
    /// A column entered, or was put off.
    Stepped,
    /// There was nothing to do.
    Done,
    /// No column could enter, or none leave.
    Stuck,
}

/// A pivot: what leaves, and what enters.
#[derive(Clone, Copy, Drop)]
struct Pivot {
    /// The number of the position of the column that leaves.
    number: usize,
    /// The place of the column that enters.
    place: usize,
    /// Its entry at the position.
    entry: Entry64,
    /// What the row that leaves has in a loose row, over the entry.
    unit: UnitNumber,
}

impl State {
    /// Steps the values, and returns that of the column that enters.
    fn step_values(&mut self, number: usize, entry: Entry64) -> Result<f64, Grown> {
        let value = number_of(self.positions.values.as_slice(), number)?;
        let step = value / entry;
        let fits = step_values(
            self.positions.values.as_mut_slice(),
            self.basis.entering(),
            step,
        );
        fitting(fits && is_value(step))?;
        Ok(step)
    }

    /// Returns the reduced cost and the reference weight of a column.
    fn entering(&self, place: usize) -> Result<Entering, Grown> {
        Ok(Entering {
            reduced: number_of(self.figures.reduced.as_slice(), place)?,
            weight: number_of(self.figures.weights.as_slice(), place)?,
        })
    }

    /// Steps the prices for a column that enters at a reduced cost, the scaled row having been worked out.
    fn step_prices(&mut self, unit: UnitNumber, reduced: Price64) {
        let prices = self.prices.as_mut_slice();
        let tight = self.basis.tight().iter();
        for (row, number) in tight.zip(self.basis.row()) {
            add_at(prices, *row, reduced * *number);
        }
        add_at(prices, unit.row, reduced * unit.number);
    }

    /// Makes a column basic in place of the one at a position, and returns the place of that.
    fn exchange(&mut self, position: Position, place: usize) -> usize {
        let leaving = self.basis.place(position);
        self.stand(leaving, Standing::Free);
        self.stand(place, Standing::Basic);
        leaving
    }

    /// Ends a pivot: steps the inverse, keeps what the column that enters has, and counts.
    fn end_pivot(&mut self, pivot: Pivot, value: f64) {
        let weight = step_weights(
            self.positions.weights.as_mut_slice(),
            self.basis.entering(),
            pivot.number,
            pivot.entry,
        );
        let position = position_of(pivot.number, self.rows());
        let exchange = self.basis.exchange(position, pivot.unit, pivot.place);
        self.positions.follow(exchange, Entered { value, weight });
        self.counts.drift = self.counts.drift.saturating_add(1);
        self.counts.since = self.counts.since.saturating_add(1);
        self.counts.pivots = self.counts.pivots.saturating_add(1);
    }

    /// Lets a column of negative reduced cost enter.
    ///
    /// # Errors
    ///
    /// `Grown` where a number is beyond its bound; nothing is said of the program then, and its inverse is to
    /// be made anew.
    pub(crate) fn primal_step(&mut self) -> Result<Step, Grown> {
        let Some(place) = primal_entering(&self.figures, self.tolerances.reduced) else {
            return Ok(Step::Done);
        };
        self.basis.fill_column(&self.columns, place)?;
        let (values, entries) = (self.positions.values.as_slice(), self.basis.entering());
        let Some(number) = leaving(values, entries, self.tolerances.value) else {
            return Ok(Step::Stuck);
        };
        let entry = number_of(self.basis.entering(), number)?;
        let entering = self.entering(place)?;
        if self.puts_column_off(place, entry) {
            return Ok(Step::Stepped);
        }
        fitting(is_price(entering.reduced))?;
        let position = position_of(number, self.rows());
        let row = self.basis.fill_row(&self.columns, position);
        let unit = self.basis.scale_row(row, entry).ok_or(Grown)?;
        self.basis.sum_row(unit);
        let value = self.step_values(number, entry)?;
        self.step_prices(unit, entering.reduced);
        let _leaving = self.exchange(position, place);
        self.sweep(unit, entering);
        self.end_pivot(
            Pivot {
                number,
                place,
                entry,
                unit,
            },
            value,
        );
        Ok(Step::Stepped)
    }

    /// Lets a column leave whose value is negative.
    ///
    /// # Errors
    ///
    /// `Grown` where a number is beyond its bound; nothing is said of the program then, and its inverse is to
    /// be made anew.
    pub(crate) fn dual_step(&mut self) -> Result<Step, Grown> {
        self.positions.keep_weights();
        let Some(number) = dual_leaving(&self.positions, self.tolerances.value) else {
            return Ok(Step::Done);
        };
        let position = position_of(number, self.rows());
        let row = self.basis.fill_row(&self.columns, position);
        self.basis.sum_row(row);
        self.touch_all(row);
        let Some(place) = dual_entering(&self.figures) else {
            return Ok(Step::Stuck);
        };
        self.basis.fill_column(&self.columns, place)?;
        let entry = number_of(self.basis.entering(), number)?;
        let entering = self.entering(place)?;
        if self.puts_position_off(number, entry) {
            return Ok(Step::Stepped);
        }
        fitting(is_price(entering.reduced))?;
        let unit = self.basis.scale_row(row, entry).ok_or(Grown)?;
        let value = self.step_values(number, entry)?;
        self.step_prices(unit, entering.reduced);
        let leaving = self.exchange(position, place);
        self.sweep_touched(leaving, entry, entering);
        self.end_pivot(
            Pivot {
                number,
                place,
                entry,
                unit,
            },
            value,
        );
        Ok(Step::Stepped)
    }
}
