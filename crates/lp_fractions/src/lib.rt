//! Exact arithmetic in 128 bits: fractions, row steps of elimination and the tally of refusals; and in 64
//! bits the rows of a tableau.
//!
//! A number is in range where it is within 2^127 - 1 in size. Each call answers the exact result, or
//! refuses with the numbers that it was given.
#![tactic(auto)]

mod addition;
mod budget;
mod checked;
mod divisors;
mod floor;
mod frac;
mod multiplication;
pub mod pivot_rows;
mod range;
mod row;
mod tally;
mod wide;

pub use addition::{add, sub};
pub use budget::Budget;
pub use checked::{fits, product, scaled, sum};
pub use divisors::{gcd, gcd_unsigned};
pub use frac::{Frac, compare};
pub use multiplication::{div, mul};
pub use pivot_rows::{MOST_NUMBER, PivotRow, Place, entry_in, row_steps_exist, step_row};
pub use row::row_step;
pub use tally::Tally;
pub use wide::TooWide;
