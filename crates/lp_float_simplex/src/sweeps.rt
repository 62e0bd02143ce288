//! Reduced costs, and which column enters.

use crate::bounds::{NEVER, Weight64, at_least_0, bounded};
use crate::compare::Candidate;
use crate::figures::Figures;
use crate::state::State;
use lp_float_basis::{
    Columns, Entry64, LEAST_PIVOT, Price64, UnitNumber, at, entry_by_sums, place_at, without_tiny,
};
use std::num::nearest_i64_to_f64;

/// What the ratio test of a dual step allows a reduced cost, 2^-6.
const SLACK: Price64 = 0.015625;

/// Works out the reduced costs of the columns from a place on, `sums` being those of the prices.
pub(crate) fn reduce(columns: &Columns, first: usize, sums: &[Price64], reduced: &mut [Price64]) {
    for (column, reduced) in columns.rest_from(first).iter().zip(reduced.iter_mut()) {
        *reduced = if column.is_free() {
            nearest_i64_to_f64(column.cost()) - entry_by_sums(columns.runs_of(column), sums)
        } else {
            0.0
        };
    }
}

/// The column that enters: its reduced cost and its reference weight.
#[derive(Clone, Copy, Drop)]
pub(crate) struct Entering {
    pub(crate) reduced: Price64,
    pub(crate) weight: Weight64,
}

impl Entering {
    /// Takes a pivot's step of a column's reduced cost and reference weight, `entry` being its entry in
    /// the scaled row.
    fn step(self, entry: Entry64, reduced: &mut Price64, weight: &mut Weight64) {
        *reduced -= entry * self.reduced;
        let square = entry * entry * self.weight;
        if square > *weight {
            *weight = bounded(square);
        }
    }
}

/// Takes a primal pivot's step of the listed columns that may enter, from a place on, where these are the
/// sums of the scaled row.
fn sweep_listed(
    columns: &Columns,
    first: usize,
    sums: &[Entry64],
    figures: &mut Figures,
    entering: Entering,
) {
    let reduced = figures.reduced.as_mut_slice().get_mut(first..);
    let weights = figures.weights.as_mut_slice().get_mut(first..);
    if let (Some(reduced), Some(weights)) = (reduced, weights) {
        let kept = reduced.iter_mut().zip(weights.iter_mut());
        for (column, (reduced, weight)) in columns.rest_from(first).iter().zip(kept) {
            if column.is_free() {
                let entry = without_tiny(entry_by_sums(columns.runs_of(column), sums));
                if entry != 0.0 {
                    entering.step(entry, reduced, weight);
                }
            }
        }
    }
}

/// Takes a pivot's step of the column at a place, if it may enter.
fn step_at(
    columns: &Columns,
    figures: &mut Figures,
    place: usize,
    entry: Entry64,
    entering: Entering,
) {
    if columns.is_free(place) {
        figures.step(place, entry, entering);
    }
}

/// Touches the column at a place, if it may enter.
fn touch_free(columns: &Columns, figures: &mut Figures, place: usize, entry: Entry64) {
    if columns.is_free(place) {
        figures.touch(place, entry);
    }
}

/// Touches the listed columns that may enter, from a place on, in the row with these sums.
fn touch_listed(columns: &Columns, first: usize, sums: &[Entry64], figures: &mut Figures) {
    let mut place = first;
    for column in columns.rest_from(first) {
        if column.is_free() {
            figures.touch(place, entry_by_sums(columns.runs_of(column), sums));
        }
        place = place.saturating_add(1);
    }
}

impl Figures {
    /// Takes a pivot's step of the column at a place.
    fn step(&mut self, place: usize, entry: Entry64, entering: Entering) {
        let reduced = self.reduced.as_mut_slice().get_mut(place);
        let weight = self.weights.as_mut_slice().get_mut(place);
        if let (Some(reduced), Some(weight)) = (reduced, weight) {
            entering.step(entry, reduced, weight);
        }
    }

    /// Takes a dual pivot's step of the touched columns.
    fn step_all_touched(&mut self, factor: f64, entering: Entering) {
        for number in 0..self.touched.len() {
            let place = place_at(self.touched.as_slice(), number);
            let entry = at(self.entries.as_slice(), place) * factor;
            self.step(place, entry, entering);
        }
    }
}

impl State {
    /// Takes a primal pivot's step of a row's unit columns, which have this number in the scaled row.
    fn sweep_row(&mut self, row: usize, number: Entry64, entering: Entering) {
        let beyond = row.saturating_add(self.rows());
        let number = without_tiny(number);
        if number != 0.0 {
            step_at(&self.columns, &mut self.figures, row, number, entering);
            step_at(&self.columns, &mut self.figures, beyond, -number, entering);
        }
    }

    /// Takes a primal pivot's step of the columns that may enter, the scaled row and its sums having been
    /// worked out.
    pub(crate) fn sweep(&mut self, unit: UnitNumber, entering: Entering) {
        for slot in 0..self.basis.size() {
            let row = place_at(self.basis.tight(), slot);
            let number = at(self.basis.row(), slot);
            self.sweep_row(row, number, entering);
        }
        self.sweep_row(unit.row, unit.number, entering);
        let first = self.rows().saturating_mul(2);
        sweep_listed(
            &self.columns,
            first,
            self.basis.sums(),
            &mut self.figures,
            entering,
        );
    }

    /// Takes a dual pivot's step of the touched columns, and of the one that leaves, whose entry is 1.
    pub(crate) fn sweep_touched(&mut self, leaving: usize, pivot: Entry64, entering: Entering) {
        let factor = 1.0 / pivot;
        self.figures.step_all_touched(factor, entering);
        step_at(&self.columns, &mut self.figures, leaving, factor, entering);
    }

    /// Touches a row's unit columns in the row that leaves, which has this number there.
    fn touch_row(&mut self, row: usize, number: Entry64) {
        let beyond = row.saturating_add(self.rows());
        touch_free(&self.columns, &mut self.figures, row, number);
        touch_free(&self.columns, &mut self.figures, beyond, -number);
    }

    /// Touches the columns that may enter and have an entry in the row that leaves, which was worked out with
    /// its sums.
    pub(crate) fn touch_all(&mut self, unit: UnitNumber) {
        self.figures.touched.clear();
        for slot in 0..self.basis.size() {
            let row = place_at(self.basis.tight(), slot);
            let number = at(self.basis.row(), slot);
            self.touch_row(row, number);
        }
        self.touch_row(unit.row, unit.number);
        let first = self.rows().saturating_mul(2);
        touch_listed(&self.columns, first, self.basis.sums(), &mut self.figures);
    }
}

/// Returns the column whose reduced cost is negative by more than a tolerance and has the greatest square
/// over its reference weight.
pub(crate) fn primal_entering(figures: &Figures, tolerance: Price64) -> Option<usize> {
    let mut best: Option<Candidate> = None;
    let reduced = figures.reduced.as_slice().iter();
    for (place, (reduced, weight)) in reduced.zip(figures.weights.as_slice()).enumerate() {
        if *reduced < -tolerance {
            best = Candidate {
                place,
                square: *reduced * *reduced,
                weight: *weight,
            }
            .best(best);
        }
    }
    let found = best?;
    Some(found.place)
}

/// A touched column.
#[derive(Clone, Copy, Drop)]
struct Touched {
    /// Its entry in the row that leaves, with the other sign.
    size: Entry64,
    /// Its reduced cost, 0 where it is negative.
    reduced: Price64,
}

impl Figures {
    /// Returns the touched column at a place.
    fn touched_at(&self, place: usize) -> Touched {
        Touched {
            size: -at(self.entries.as_slice(), place),
            reduced: at_least_0(at(self.reduced.as_slice(), place)),
        }
    }
}

/// Returns the least ratio of a dual step, a reduced cost and the slack over the size of the entry.
fn least_dual_ratio(figures: &Figures) -> f64 {
    let mut least = NEVER;
    for place in figures.touched.as_slice() {
        let touched = figures.touched_at(*place);
        if touched.size >= LEAST_PIVOT {
            let ratio = (touched.reduced + SLACK) / touched.size;
            if ratio < least {
                least = ratio;
            }
        }
    }
    least
}

/// Returns the column that enters in a dual step: the one with the greatest entry in size among those
/// within the least ratio.
pub(crate) fn dual_entering(figures: &Figures) -> Option<usize> {
    let least = least_dual_ratio(figures);
    let mut greatest = 0.0;
    let mut found = None;
    for place in figures.touched.as_slice() {
        let touched = figures.touched_at(*place);
        let size = touched.size;
        if size >= LEAST_PIVOT && size > greatest && touched.reduced <= least * size {
            greatest = size;
            found = Some(*place);
        }
    }
    found
}
