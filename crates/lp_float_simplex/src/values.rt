//! Values, and which column leaves.

use crate::bounds::{NEVER, Weight64, at_least_0, bounded};
use crate::compare::Candidate;
use crate::positions::Positions;
use lp_float_basis::{Entry64, LEAST_PIVOT, Value64, is_value};

/// Whether a value is below 0 by more than a tolerance.
pub(crate) fn is_negative(value: Value64, tolerance: Value64) -> bool {
    value < -tolerance
}

/// Whether no value is below 0 by more than a tolerance.
pub(crate) fn are_feasible(values: &[Value64], tolerance: Value64) -> bool {
    values.iter().all(|value| *value >= -tolerance)
}

/// Takes a pivot's step of the values. Says whether all fit.
pub(crate) fn step_values(values: &mut [Value64], entries: &[Entry64], step: Value64) -> bool {
    let mut fits = true;
    for (value, entry) in values.iter_mut().zip(entries) {
        let stepped = *value - *entry * step;
        fits &= is_value(stepped);
        *value = stepped;
    }
    fits
}

/// Returns the least ratio of a primal step, a value and the slack over its entry.
fn least_primal_ratio(values: &[Value64], entries: &[Entry64], slack: Value64) -> f64 {
    let mut least = NEVER;
    for (value, entry) in values.iter().zip(entries) {
        if *entry >= LEAST_PIVOT {
            let ratio = (at_least_0(*value) + slack) / *entry;
            if ratio < least {
                least = ratio;
            }
        }
    }
    least
}

/// Returns the position that leaves in a primal step: the one with the greatest entry among those within the
/// least ratio, which allows a value the slack.
pub(crate) fn leaving(values: &[Value64], entries: &[Entry64], slack: Value64) -> Option<usize> {
    let least = least_primal_ratio(values, entries, slack);
    let mut greatest = 0.0;
    let mut found = None;
    for (number, (value, entry)) in values.iter().zip(entries).enumerate() {
        if *entry >= LEAST_PIVOT && *entry > greatest && *value <= least * *entry {
            greatest = *entry;
            found = Some(number);
        }
    }
    found
}

/// Returns the position that leaves in a dual step: the one whose negative value has the greatest square over
/// its reference weight.
pub(crate) fn dual_leaving(positions: &Positions, tolerance: Value64) -> Option<usize> {
    let mut best: Option<Candidate> = None;
    let values = positions.values.as_slice().iter();
    for (place, (value, weight)) in values.zip(positions.weights.as_slice()).enumerate() {
        if is_negative(*value, tolerance) {
            best = Candidate {
                place,
                square: *value * *value,
                weight: *weight,
            }
            .best(best);
        }
    }
    let found = best?;
    Some(found.place)
}

/// Takes a pivot's step of the reference weights of dual steps, and returns that of the column that enters
/// at a position with this entry.
pub(crate) fn step_weights(
    weights: &mut [Weight64],
    entries: &[Entry64],
    number: usize,
    entry: Entry64,
) -> Weight64 {
    let share = match weights.get(number) {
        Some(weight) => *weight / (entry * entry),
        None => 1.0,
    };
    for (weight, own) in weights.iter_mut().zip(entries) {
        let square = *own * *own * share;
        if square > *weight {
            *weight = bounded(square);
        }
    }
    if share > 1.0 { bounded(share) } else { 1.0 }
}
