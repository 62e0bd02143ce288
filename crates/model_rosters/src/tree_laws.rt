//! Laws of derivation trees, their sums and least sums, for the crates that search over trees.

mod laws;

pub use laws::{
    few_uses, one_least_parts, one_least_tree, small_sums, split_by_first, split_by_rule,
};
