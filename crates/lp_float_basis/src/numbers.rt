//! The types of floats, and their bounds.

/// A number of the inverse, a sum of such numbers, or an entry of a column in terms of the basis: a float
/// of 64 bits.
pub type Entry64 = f64;

/// The value of a column: a float of 64 bits.
pub type Value64 = f64;

/// A cost, a price, a reduced cost or a sum of prices: a float of 64 bits.
pub type Price64 = f64;

/// The least pivot in size, 2^-10.
pub const LEAST_PIVOT: Entry64 = 9.765625e-4;

/// The greatest entry of a column in terms of the basis in size, 2^14.
const MOST_ENTRY: Entry64 = 16_384.0;

/// The greatest number of a pivot's row over its entry in size, 2^20.
const MOST_NUMBER: Entry64 = 1_048_576.0;

/// The greatest value in size, 2^19.
const MOST_VALUE: Value64 = 524_288.0;

/// Entries below this size, 2^-30, become 0.
const TINY: Entry64 = 9.31322574615478515625e-10;

/// Whether a number may be an entry in terms of the basis; what is no number may not.
pub(crate) fn is_entry(number: Entry64) -> bool {
    number.abs() <= MOST_ENTRY
}

/// Whether a number may stand in a pivot's row over its entry.
pub(crate) fn is_row_number(number: Entry64) -> bool {
    number.abs() <= MOST_NUMBER
}

/// Whether a number may be the value of a column.
pub fn is_value(number: Value64) -> bool {
    number.abs() <= MOST_VALUE
}

/// Returns an entry, or 0 where it is below 2^-30 in size.
pub fn without_tiny(number: Entry64) -> Entry64 {
    if number.abs() < TINY { 0.0 } else { number }
}
