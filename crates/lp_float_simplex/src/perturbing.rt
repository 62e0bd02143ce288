//! Perturbations, set and taken off.

use crate::fixed::Q32;
use crate::state::State;
use lp_float_basis::{Value64, at, product_of, set_all, set_at, subtract_multiple};
use std::num::nearest_i64_to_f64;

/// How far a right side is perturbed at least, 2^-12.
const LEAST: Value64 = 2.44140625e-4;

/// What spreads the rows' perturbations: 2^16 over the golden ratio.
const SPREAD: usize = 40_503;

/// How many perturbations there are.
const COUNT: usize = 65_536;

/// Returns how far the right side of a row is perturbed, towards the cheaper of the row's own columns: so
/// what could be met before still can.
fn perturbation_of(row: usize, missing: i64, beyond: Option<i64>) -> Value64 {
    let number = (row % COUNT).saturating_mul(SPREAD) % COUNT;
    let share = nearest_i64_to_f64(number as i64) / nearest_i64_to_f64(COUNT as i64);
    let size = LEAST + LEAST * share;
    match beyond {
        Some(cost) if cost < missing => -size,
        _ => size,
    }
}

/// Sets the perturbations of rows whose own columns cost this.
fn set_perturbations(perturbations: &mut [Value64], missing: &[i64], beyond: &[Option<i64>]) {
    let costs = missing.iter().zip(beyond);
    for ((row, perturbation), (missing, beyond)) in perturbations
        .iter_mut()
        .enumerate()
        .zip(costs)
    {
        *perturbation = perturbation_of(row, *missing, *beyond);
    }
}

impl State {
    /// Perturbs the right sides a little, each by an amount of its own, so that few values of a basis are 0
    /// and few steps leave the value of the program as it is.
    pub(crate) fn perturb(&mut self, missing: &[i64], beyond: &[Option<i64>]) {
        set_perturbations(self.sides.perturbations.as_mut_slice(), missing, beyond);
        subtract_multiple(
            self.sides.right.as_mut_slice(),
            -1.0,
            self.sides.perturbations.as_slice(),
        );
    }

    /// Takes the perturbations off the right sides; the next run works the values out again.
    pub fn settle(&mut self) {
        subtract_multiple(
            self.sides.right.as_mut_slice(),
            1.0,
            self.sides.perturbations.as_slice(),
        );
        set_all(self.sides.perturbations.as_mut_slice(), 0.0);
        self.changes.is_stale = true;
    }

    /// Sets the right side of a row, before it is perturbed; the next run works the values out again. Takes
    /// no memory.
    pub fn set_side(&mut self, row: usize, right: i64) {
        let perturbation = at(self.sides.perturbations.as_slice(), row);
        set_at(
            self.sides.right.as_mut_slice(),
            row,
            nearest_i64_to_f64(right) + perturbation,
        );
        self.changes.is_stale = true;
    }

    /// Returns what the perturbations add to the program's value.
    pub fn perturbation_worth(&self) -> Q32 {
        Q32::of(product_of(self.prices.as_slice(), self.sides.perturbations.as_slice()))
    }
}
