//! What careful runs do otherwise, and other costs of the rows' own columns.

use crate::bounds::{MOST_WEIGHT, Weight64};
use crate::state::State;
use lp_float_basis::{Entry64, at, set_at};

/// A careful run takes no step with a smaller pivot while there is another one.
const SAFE_PIVOT: Entry64 = 0.02;

/// The least pivots at which a careful run keeps columns where it makes its inverse anew since a number left
/// its bounds, one after the other: 2^-8, 2^-6 and 2^-4.
pub(crate) const STRICTER: [Entry64; 3] = [0.00390625, 0.015625, 0.0625];

/// Puts off what has a reference weight: it gets the greatest one. Says whether that was less before.
fn put_off(weights: &mut [Weight64], place: usize) -> bool {
    let is_first = at(weights, place) < MOST_WEIGHT;
    set_at(weights, place, MOST_WEIGHT);
    is_first
}

impl State {
    /// Lets further runs be careful: steps with small pivots wait, dual steps begin without negative reduced
    /// costs, and where a number leaves its bounds what nearly depends on others is left out of the basis.
    pub fn be_careful(&mut self) {
        self.is_careful = true;
    }

    /// Whether runs are careful.
    pub fn is_careful(&self) -> bool {
        self.is_careful
    }

    /// Whether a step with this pivot is to wait until others are taken.
    fn waits(&self, pivot: Entry64) -> bool {
        self.is_careful && pivot.abs() < SAFE_PIVOT
    }

    /// Puts the column at a place off where a primal step with this pivot is to wait. Says whether it was put
    /// off; one that was before is not.
    pub(crate) fn puts_column_off(&mut self, place: usize, pivot: Entry64) -> bool {
        self.waits(pivot) && put_off(self.figures.weights.as_mut_slice(), place)
    }

    /// Puts the position of a number off where a dual step with this pivot is to wait. Says whether it was
    /// put off; one that was before is not.
    pub(crate) fn puts_position_off(&mut self, number: usize, pivot: Entry64) -> bool {
        self.waits(pivot) && put_off(self.positions.weights.as_mut_slice(), number)
    }

    /// Raises negative reduced costs to 0 where a run is careful: dual steps come to an end so. It is as if
    /// the columns cost more until the reduced costs are worked out anew.
    pub(crate) fn shift_costs(&mut self) {
        if !self.is_careful {
            return;
        }
        for reduced in self.figures.reduced.as_mut_slice().iter_mut() {
            if *reduced < 0.0 {
                *reduced = 0.0;
            }
        }
    }

    /// Sets what the columns of what is missing and of what is beyond in a row cost; the next run works the
    /// prices out again. A column that a row does not have stays away. Takes no memory.
    pub fn set_row_costs(&mut self, row: usize, missing: i64, beyond: Option<i64>) {
        let place = row.saturating_add(self.rows());
        self.columns.set_cost(row, missing);
        if let Some(cost) = beyond {
            self.columns.set_cost(place, cost);
        }
        self.changes.is_mispriced = true;
    }
}
