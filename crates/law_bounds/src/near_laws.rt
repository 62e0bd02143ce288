//! What any solution of a node's master says of prices, least or not: a search can trust prices that
//! come from a floating-point solver beside weights of trees.
//!
//! Each public function has an empty body, and its contract is a law.

mod laws;

pub use laws::{
    completed_costs_least, completed_solves, near_are_best, near_counts_close,
    near_trees_show_best, rivals_below_solutions, worked_completed,
};
