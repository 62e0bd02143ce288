//! A program with a basis.

use crate::figures::Figures;
use crate::fixed::{Q24, Q32};
use crate::positions::Positions;
use crate::tolerances::Tolerances;
use lp_float_basis::{Basis, Columns, Price64, Standing, Value64};

/// The right sides of the rows.
#[derive(Drop)]
pub(crate) struct Sides {
    /// The right sides, perturbed.
    pub(crate) right: Vec<Value64>,
    /// How far each is perturbed.
    pub(crate) perturbations: Vec<Value64>,
}

/// What is to be worked out again before a run.
#[derive(Clone, Copy, Drop)]
pub(crate) struct Changes {
    /// How many columns have reduced costs.
    pub(crate) priced: usize,
    /// Whether the values are to be worked out again.
    pub(crate) is_stale: bool,
    /// Whether the prices are to be worked out again.
    pub(crate) is_mispriced: bool,
}

/// How many pivots there were.
#[derive(Clone, Copy, Drop)]
pub(crate) struct Counts {
    /// Since values and prices were worked out from the inverse.
    pub(crate) drift: u32,
    /// Since the inverse was made anew.
    pub(crate) since: u32,
    /// In all.
    pub(crate) pivots: u64,
}

/// What a program answers.
#[derive(Drop)]
pub(crate) struct Answers {
    /// The places of the basic columns.
    pub(crate) basis: Vec<usize>,
    /// Their values, in fixed point.
    pub(crate) values: Vec<Q32>,
    /// The prices of the rows, in fixed point.
    pub(crate) prices: Vec<Q24>,
}

/// A program with a basis. Its columns are those of what is missing in each row, those of what is beyond
/// in each row, and then the listed ones.
#[derive(Drop)]
pub struct State {
    pub(crate) sides: Sides,
    pub(crate) columns: Columns,
    pub(crate) basis: Basis,
    pub(crate) figures: Figures,
    pub(crate) positions: Positions,
    /// The prices of the rows.
    pub(crate) prices: Vec<Price64>,
    pub(crate) changes: Changes,
    pub(crate) counts: Counts,
    /// What runs take for 0.
    pub(crate) tolerances: Tolerances,
    /// Whether runs are careful.
    pub(crate) is_careful: bool,
    pub(crate) answers: Answers,
}

impl State {
    /// Returns how many rows there are.
    pub(crate) fn rows(&self) -> usize {
        self.sides.right.len()
    }

    /// Gives a column, which enters or leaves the basis, its standing.
    pub(crate) fn stand(&mut self, place: usize, standing: Standing) {
        self.columns.set_standing(place, standing);
        self.figures.reset(place);
    }
}

impl State {
    /// Returns the places of the basic columns: first come those of what is missing in each row, then those
    /// of what is beyond, and then the listed ones.
    pub fn basis(&self) -> &[usize] {
        self.answers.basis.as_slice()
    }

    /// Returns the values of the basic columns.
    pub fn values(&self) -> &[Q32] {
        self.answers.values.as_slice()
    }

    /// Returns the prices of the rows.
    pub fn prices(&self) -> &[Q24] {
        self.answers.prices.as_slice()
    }

    /// Returns the reduced cost of the column at a place after a run.
    pub fn reduced(&self, place: usize) -> Option<Q24> {
        match self.figures.reduced.as_slice().get(place) {
            Some(reduced) => Some(Q24::of(*reduced)),
            None => None,
        }
    }

    /// Returns what the column at a place costs, 0 where there is none.
    pub fn cost(&self, place: usize) -> i64 {
        self.columns.cost(place)
    }

    /// Returns how many pivots all runs made.
    pub fn pivots(&self) -> u64 {
        self.counts.pivots
    }

    /// Returns how many entries all steps have touched.
    pub fn work(&self) -> u64 {
        self.basis.work()
    }
}
