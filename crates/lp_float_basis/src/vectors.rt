//! Rows of numbers.

use crate::basis::NO_COLUMN;
use crate::grown::Grown;
use crate::numbers::{Entry64, Value64, is_row_number};
use model_rosters::Memory;

/// Returns so many numbers at the front, or as many as there are.
pub(crate) fn front(numbers: &[f64], count: usize) -> &[f64] {
    match numbers.get(..count) {
        Some(front) => front,
        None => numbers,
    }
}

/// Returns so many numbers at the front to be changed, or none where there are fewer.
pub(crate) fn front_mut(numbers: &mut [f64], count: usize) -> &mut [f64] {
    match numbers.get_mut(..count) {
        Some(front) => front,
        None => &mut [],
    }
}

/// Subtracts a factor's multiple of numbers from numbers.
pub fn subtract_multiple(numbers: &mut [f64], factor: f64, other: &[f64]) {
    for (number, share) in numbers.iter_mut().zip(other) {
        *number -= factor * *share;
    }
}

/// Multiplies numbers by a factor. Says whether all fit.
pub(crate) fn scale(numbers: &mut [Entry64], factor: Entry64) -> bool {
    let mut fits = true;
    for number in numbers.iter_mut() {
        let share = *number * factor;
        fits &= is_row_number(share);
        *number = share;
    }
    fits
}

/// Returns the product of two rows of numbers.
pub fn product_of(numbers: &[Entry64], other: &[Value64]) -> Value64 {
    let mut total = 0.0;
    for (number, value) in numbers.iter().zip(other) {
        total += *number * *value;
    }
    total
}

/// Leaves the sums of numbers before each of them, and behind the last.
pub(crate) fn sum_before(numbers: &[f64], sums: &mut [f64]) {
    let mut total = 0.0;
    for (number, sum) in numbers.iter().zip(sums.iter_mut()) {
        *sum = total;
        total += *number;
    }
    if let Some(sum) = sums.last_mut() {
        *sum = total;
    }
}

/// Copies items, as many as both have.
pub fn copy_items<T: Copy>(out: &mut [T], items: &[T]) {
    for (copy, item) in out.iter_mut().zip(items) {
        *copy = *item;
    }
}

/// Copies a list.
///
/// # Errors
///
/// `Memory` where memory runs out; nothing is said of the list then.
pub fn copy_list<T: Copy + Drop>(out: &mut Vec<T>, items: &[T]) -> Result<(), Memory> {
    out.clear();
    out.extend_from_slice(items)?;
    Ok(())
}

/// Sets items to one value.
pub fn set_all<T: Copy>(items: &mut [T], value: T) {
    for item in items.iter_mut() {
        *item = value;
    }
}

/// Sets the item at a place, if there is one.
pub fn set_at<T: Copy>(items: &mut [T], place: usize, value: T) {
    if let Some(item) = items.get_mut(place) {
        *item = value;
    }
}

/// Adds to the number at a place, if there is one.
pub fn add_at(numbers: &mut [f64], place: usize, value: f64) {
    if let Some(number) = numbers.get_mut(place) {
        *number += value;
    }
}

/// Returns the number at a place, 0 where there is none.
pub fn at(numbers: &[f64], place: usize) -> f64 {
    match numbers.get(place) {
        Some(number) => *number,
        None => 0.0,
    }
}

/// Returns the number at a place.
///
/// # Errors
///
/// `Grown` where there is no such place.
pub fn number_of(numbers: &[f64], place: usize) -> Result<f64, Grown> {
    match numbers.get(place) {
        Some(number) => Ok(*number),
        None => Err(Grown),
    }
}

/// Returns the place at a place, that of no column where there is none.
pub fn place_at(places: &[usize], at: usize) -> usize {
    match places.get(at) {
        Some(place) => *place,
        None => NO_COLUMN,
    }
}

/// Adds a number behind the last one, where there is room for it.
pub fn push_if_room(numbers: &mut Vec<usize>, number: usize) {
    if numbers.len() < numbers.capacity() {
        numbers.push_reserved(number);
    }
}
