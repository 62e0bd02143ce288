//! The arcs of an instance: what each makes and uses, and how often they stand in trees.
//!
//! An arc makes a name or a suffix of a rule on a span, and uses its first part and what follows it.
//! The crate has the definitions over lists of the arcs and the laws on their counts: each public
//! function has an empty body, and its contract is a law.

mod laws;

pub use laws::{
    arc_once, arcs_pay, arcs_pay_over, leaves_count, leaves_count_over, list_holds_once, made_once,
    one_list, path_bounds, root_counts, root_counts_over, trees_balanced, trees_balanced_over,
};
