//! The trees of a day that a search has found so far, each once; and the two lists that tell a tree, over
//! rules in parts of at most two.
#![tactic(auto)]

mod arcs;
mod costs;
mod entry;
mod facts;
pub mod grammar_core;
mod letters;
mod order;
mod pool;
mod tree;

pub use grammar_core::{
    Item, Normal, Second, arcs_tell_tree, items_to_tree, lists_tell_one_tree, normalise,
    steps_tell_tree, tree_to_items,
};
pub use pool::Pool;
pub use tree::Tree;
