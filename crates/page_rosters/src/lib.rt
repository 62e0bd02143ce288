//! The tables and lists of a roster's page, from a day, its shifts, how its cells are covered, and its
//! labels.
#![tactic(auto)]

mod axis;
mod called;
mod counts;
mod heads;
mod laws;
mod lines;
mod moments;
mod runs;
mod tables;
mod totals;

pub use axis::axis_times;
pub use called::{group_called, row_called};
pub use laws::{names_stand_at_their_shifts, stretches_stand_under_their_shift};
pub use tables::tables_of;
