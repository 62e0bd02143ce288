//! Kernels over lanes: the same step at several places of a list at once.
#![tactic(auto)]

mod counting;
mod least;

pub use counting::add_matches;
pub use least::least_sum;
