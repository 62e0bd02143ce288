//! What is kept of the columns of the basis.

use crate::bounds::Weight64;
use lp_float_basis::{Exchange, Value64, at, copy_items, set_all, set_at};

/// What is kept of the columns of the basis, by positions: first a number for each listed column, as many as
/// there may be, and then one for each row, for its unit column; 0 where it has none.
#[derive(Drop)]
pub(crate) struct Positions {
    /// The values of the basic columns.
    pub(crate) values: Vec<Value64>,
    /// The reference weights of dual steps, while they are kept.
    pub(crate) weights: Vec<Weight64>,
    pub(crate) has_weights: bool,
}

/// What the column that enters gets at its position: its value, and its reference weight in dual steps.
#[derive(Clone, Copy, Drop)]
pub(crate) struct Entered {
    pub(crate) value: Value64,
    pub(crate) weight: Weight64,
}

/// What stands where there is no column.
const EMPTY: Entered = Entered {
    value: 0.0,
    weight: 1.0,
};

impl Positions {
    /// Sets what is kept at a position.
    fn set(&mut self, number: usize, entered: Entered) {
        set_at(self.values.as_mut_slice(), number, entered.value);
        set_at(self.weights.as_mut_slice(), number, entered.weight);
    }

    /// Follows a pivot, in which a column entered.
    pub(crate) fn follow(&mut self, exchange: Exchange, entered: Entered) {
        if let Some(step) = exchange.moved {
            let moved = Entered {
                value: at(self.values.as_slice(), step.from),
                weight: at(self.weights.as_slice(), step.from),
            };
            self.set(step.to, moved);
        }
        if let Some(number) = exchange.emptied {
            self.set(number, EMPTY);
        }
        self.set(exchange.entered, entered);
    }

    /// Gives each position the reference weight 1 where weights are not kept.
    pub(crate) fn keep_weights(&mut self) {
        if !self.has_weights {
            set_all(self.weights.as_mut_slice(), 1.0);
            self.has_weights = true;
        }
    }

    /// Leaves what is kept of no column.
    pub(crate) fn reset(&mut self) {
        set_all(self.values.as_mut_slice(), 0.0);
        set_all(self.weights.as_mut_slice(), 1.0);
        self.has_weights = false;
    }

    /// Becomes a copy of what another program with as many rows keeps.
    pub(crate) fn copy_from(&mut self, other: &Positions) {
        copy_items(self.values.as_mut_slice(), other.values.as_slice());
        copy_items(self.weights.as_mut_slice(), other.weights.as_slice());
        self.has_weights = other.has_weights;
    }
}
