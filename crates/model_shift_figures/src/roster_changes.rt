//! What differs between two rosters of one day: which new shift stands for which old one, and in how many
//! periods and shifts they differ.

mod assignment;
mod board;
mod figures;
mod pairs;
mod prices;
mod scores;
mod search;
mod stages;
mod words;

pub use figures::{changed_periods, changed_shifts, is_left_over};
pub use stages::changes_of;
pub use words::{differing_periods, is_different};
