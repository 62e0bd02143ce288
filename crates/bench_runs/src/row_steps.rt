//! One row of a tableau, stepped again and again.

ghost use Rattle.std.specs.Prelude.{◌≡◌, length};

use lp_fractions::{Tally, row_step};
use std::alloc::{AllocError, Global};

/// Fills a row with numbers from -500 to 499, each times the factor.
fn fill(row: &mut [i128], seed: u64, factor: i128) {
    let mut state = seed;
    for entry in row.iter_mut() {
        state = state
            .wrapping_mul(6364136223846793005)
            .wrapping_add(1442695040888963407);
        *entry = (i128::from((state >> 33) % 1000) - 500).wrapping_mul(factor);
    }
}

/// Steps a copy of the first row so often, and returns the sum of the factors and of one entry of
/// each new row.
fn checksum(row: &mut [i128], first: &[i128], other: &[i128], steps: u64) -> i128
    requires first { length row.old ≡ length first.now }
    requires other { length row.old ≡ length other.now }
{
    let mut tally = Tally::new();
    let mut sum = 0i128;
    for step in 0..steps {
        row.copy_from_slice(first);
        if let Ok(factor) = row_step(row, 7 + i128::from(step % 3), other, 5, &mut tally) {
            sum = sum.wrapping_add(factor);
        }
        if let Some(entry) = row.first() {
            sum = sum.wrapping_add(*entry);
        }
    }
    sum
}

/// Steps one row of a tableau again and again, and returns a checksum of what it leaves. `factor` is
/// one of all its entries.
///
/// # Errors
///
/// `AllocError` where memory runs out.
pub fn row_steps(
    alloc: Global,
    width: usize,
    steps: u64,
    factor: i128,
) -> Result<i128, AllocError> {
    let mut first = vec![in alloc; 0i128; width]?;
    fill(&mut first, 1, factor);
    let mut other = vec![in alloc; 0i128; width]?;
    fill(&mut other, 2, factor);
    let mut row = vec![in alloc; 0i128; width]?;
    Ok(checksum(&mut row, &first, &other, steps))
}
