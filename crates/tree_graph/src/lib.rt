//! The shared graph of all parses: the arcs of the instance, and the nodes that they join.
#![tactic(auto)]

mod fault;
mod graph;
mod guesses;
mod joints;
mod kid;
mod level;
mod links;
mod node;
mod room;
mod rows;
mod search;
mod walk;

pub use fault::GraphFault;
pub use graph::Graph;
pub use kid::Kid;
