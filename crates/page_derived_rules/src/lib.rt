//! How the rules derive a word: what is said of a tree of it, and of each rule that the tree uses.
#![tactic(auto)]

mod derivation;
mod text;

pub use derivation::derivation_with_rules;
