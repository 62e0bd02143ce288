//! The texts that a program says of its results.
//!
//! A written text has one space between words, and a line feed after each line.
#![tactic(auto)]

mod tree;
mod verdict;
mod write;

pub use tree::{write_tree, write_use};
pub use verdict::write_verdict;
