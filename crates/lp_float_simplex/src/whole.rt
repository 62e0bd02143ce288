//! Whole numbers and floats, one from the other.

use crate::fixed::nearest;
use lp_float_basis::Run;
use std::num::nearest_i64_to_f64;

/// What a great number is taken apart by, 2^32.
const HIGH: i128 = 1 << 32;

/// The same as a float.
const HIGH64: f64 = 4_294_967_296.0;

/// Floats below this size, 2^62, have a nearest whole number of 64 bits.
const GREAT64: f64 = 4_611_686_018_427_387_904.0;

/// Returns a number, or the last one of 64 bits on its side.
fn clamped(number: i128) -> i64 {
    match i64::try_from(number) {
        Ok(number) => number,
        Err(_) if number < 0 => i64::MIN,
        Err(_) => i64::MAX,
    }
}

/// Returns about the float nearest to a number.
pub(crate) fn float_of(number: i128) -> f64 {
    let high = nearest_i64_to_f64(clamped(number / HIGH));
    let low = nearest_i64_to_f64(clamped(number % HIGH));
    high * HIGH64 + low
}

/// Returns about the whole number nearest to a float.
pub(crate) fn whole_of(number: f64) -> i128 {
    if number.abs() < GREAT64 {
        i128::from(nearest(number))
    } else {
        i128::from(nearest(number / HIGH64)).saturating_mul(HIGH)
    }
}

/// Adds to the number at a place, if there is one.
fn add_whole(numbers: &mut [i128], place: u32, number: i128) {
    if let Some(sum) = numbers.get_mut(place as usize) {
        *sum = sum.saturating_add(number);
    }
}

/// Adds a multiple of a column to what changes from each row to the next.
pub(crate) fn add_whole_changes(changes: &mut [i128], runs: &[Run], factor: i128) {
    for run in runs {
        add_whole(changes, run.from, factor);
        add_whole(changes, run.to, 0i128.saturating_sub(factor));
    }
}

/// Leaves the sums of numbers before each of them, and behind the last.
pub(crate) fn sum_whole(numbers: &[i128], sums: &mut [i128]) {
    let mut total = 0i128;
    for (number, sum) in numbers.iter().zip(sums.iter_mut()) {
        *sum = total;
        total = total.saturating_add(*number);
    }
    if let Some(sum) = sums.last_mut() {
        *sum = total;
    }
}

/// Returns the number at a place, 0 where there is none.
fn whole_at(numbers: &[i128], place: u32) -> i128 {
    match numbers.get(place as usize) {
        Some(number) => *number,
        None => 0,
    }
}

/// Returns the product of a column with the numbers whose sums these are.
pub(crate) fn whole_by_sums(runs: &[Run], sums: &[i128]) -> i128 {
    let mut total = 0i128;
    for run in runs {
        total = total
            .saturating_add(whole_at(sums, run.to))
            .saturating_sub(whole_at(sums, run.from));
    }
    total
}

/// Returns the greatest size of a number.
pub(crate) fn greatest_size(numbers: &[i128]) -> u128 {
    let mut greatest = 0;
    for number in numbers {
        greatest = number.unsigned_abs().max(greatest);
    }
    greatest
}
