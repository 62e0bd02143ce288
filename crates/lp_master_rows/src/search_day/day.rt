//! A day that is searched, with its graph, as one value.

use model_rosters::Instance;
use tree_graph::Graph;

/// A sound instance and the graph of its parses.
#[derive(Clone, Copy, Drop)]
pub struct Day<'a> {
    pub instance: &'a Instance,
    pub graph: &'a Graph,
}
