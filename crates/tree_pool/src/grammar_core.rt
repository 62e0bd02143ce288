//! The grammar's rules in parts of at most two, and the two lists that tell a derivation tree: its
//! rule uses and its arcs.

mod cursor;
mod items;
mod laws;
mod normal;
mod order;
mod suffix;
mod to_items;
mod to_tree;

pub use laws::{arcs_tell_tree, lists_tell_one_tree, steps_tell_tree};
pub use normal::{Item, Normal, Second, normalise};
pub use to_items::tree_to_items;
pub use to_tree::items_to_tree;
