//! Prices of a master's rows, rounded to whole numbers over one denominator.
#![tactic(auto)]

mod denominator;
mod floors;
mod round;

pub use denominator::least_denominator;
pub use round::{RoundFault, to_prices};
