//! Counts of the arcs of a day's graph: the bounds that cuts leave them, the way from the root of a search to
//! a node, and lists of trees that have given counts.
#![tactic(auto)]

mod count_boxes;
mod node_path;
pub mod roster_split;

pub use count_boxes::{ArcBox, Bounds, cuts_elsewhere};
pub use node_path::NodePath;
pub use roster_split::{SplitFault, split, split_balanced};
