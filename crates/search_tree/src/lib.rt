//! The tree of a search in an array, with the leaves on which the search can go on.
#![tactic(auto)]

mod laws;
mod seats;
mod tree;

pub use laws::{count_rises, few_seats, leaf_in_hand, limit_falls, short_paths};
pub use tree::SearchTree;
