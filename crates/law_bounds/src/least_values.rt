//! That least sums and Lagrangian values exist: of every prices, at every list of cuts, on every sound day.
//!
//! The values of definitions that say "the least" are there, so what is said of all values is said of
//! something. Each public function has an empty body, and its contract is a law.

mod laws;

pub use laws::{best_bounds_rivals, have_least_sums, have_values};
