//! Small days that tests and laws share.
//!
//! [`day`] makes a sample day of its parts. The laws compute the definitions of the shared model on two
//! small grammars: each has an empty body, and its contract is what the definitions say of one worked case.
#![tactic(auto)]

mod days;
mod grammars;
mod parts;
mod rest_and_work;
mod two_readings;

pub use days::{
    BLOCK, BLOCK_PARTS, EXACT_PARTS, FLOOR_CELLS, FULL, GROUP_PARTS, HALF, ONE_PARTS, PAIR_PARTS,
    day_of_many_trees, long_cells, sound_day,
};
pub use grammars::{BLOCK_NAMES, BLOCKS, CELL, FULL_DAYS, HALVED_DAYS, PAIRS, SPLIT_DAYS};
pub use parts::{ANY, DayParts, REST, RuleParts, WORK, day, grammar};
pub use rest_and_work::{sum_of_a_block, tree_of_a_block};
pub use two_readings::{least_sum_of_two_readings, price_of_two_readings};
