//! A day's graph in floats, and passes over it: cheapest trees at prices of cells.
//!
//! How it goes: the graph of the day is copied once into arcs with the slots of what is below them (24 bytes
//! an arc, some 40 bytes a slot). A pass sets the least sum of each node at prices of the cells, and a tree
//! is written by going down along arcs that have these sums. A pass takes no memory once trees of its length
//! were written.
#![tactic(auto)]

mod floats;
mod graph;
mod part;
mod passing;
mod roster;
mod tree;
mod weighing;

pub use floats::{
    NEAR, NEVER, NONE, at, bounded, cost_of, greater, lesser, of_cost, of_count, set_at, short,
    whole,
};
pub use graph::{HoleGraph, HoleTeam, Site};
pub use part::{HoleArc, Part, Row};
pub use passing::{Passer, Way, choose};
pub use roster::HoleRoster;
pub use tree::HoleTree;
pub use weighing::weight;
