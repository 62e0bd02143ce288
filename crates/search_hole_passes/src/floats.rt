//! Floats and whole numbers.

use std::num::{nearest_i64_to_f64, saturating_f64_to_i64};

/// A sum that stands for none: above all sums of trees.
pub const NONE: f64 = 1.0e15;

/// Sums from here on are of no tree.
pub const NEVER: f64 = 5.0e14;

/// What rounding may change.
pub const NEAR: f64 = 1.0e-6;

/// Floats below this size, 2^62, have a nearest whole number of 64 bits.
const GREAT: f64 = 4_611_686_018_427_387_904.0;

/// Returns the greater of two numbers.
pub fn greater(number: f64, other: f64) -> f64 {
    if number < other { other } else { number }
}

/// Returns the lesser of two numbers.
pub fn lesser(number: f64, other: f64) -> f64 {
    if other < number { other } else { number }
}

/// Returns the number of a range that is nearest to a number.
pub fn bounded(number: f64, least: f64, most: f64) -> f64 {
    greater(lesser(number, most), least)
}

/// Returns a count as a float.
pub fn of_count(count: u32) -> f64 {
    nearest_i64_to_f64(i64::from(count))
}

/// Returns a cost as a float.
pub fn of_cost(cost: u64) -> f64 {
    nearest_i64_to_f64(i64::try_from(cost).unwrap_or(i64::MAX))
}

/// Returns the whole number next to a float towards 0; 0 where the float is none, or too great.
pub fn whole(number: f64) -> i64 {
    if number.abs() < GREAT {
        saturating_f64_to_i64(number)
    } else {
        0
    }
}

/// Returns the cost that a float tells, rounded down; 0 where it tells none.
pub fn cost_of(number: f64) -> u64 {
    u64::try_from(whole(number)).unwrap_or(0)
}

/// Returns the number at a slot, and where there is none what stands for none.
pub fn at(numbers: &[f64], slot: u32) -> f64 {
    match numbers.get(slot as usize) {
        Some(number) => *number,
        None => NONE,
    }
}

/// Sets the number at a slot, where there is one.
pub fn set_at(numbers: &mut [f64], slot: u32, number: f64) {
    if let Some(own) = numbers.get_mut(slot as usize) {
        *own = number;
    }
}

/// Returns a place as a number of 32 bits.
pub fn short(place: usize) -> u32 {
    place.min(4_294_967_295) as u32
}
