//! For each node an arc that makes it.

ghost use Rattle.std.specs.Prelude.{◌+◌, ◌<◌, IfOk, length};
ghost use Rattle.tree_graph.specs.Graphs.{HasGrammar};
ghost use Rattle.tree_short_order.specs.Best.{AreBestBefore, AreBest};

use model_rosters::Memory;
use std::alloc::Global;
use tree_graph::Graph;

/// Puts the first arc that makes a node into the node's place.
fn put_first(graph: &Graph, node: u32, best: &mut Vec<u32>)
    requires graph { HasGrammar graph.now }
    requires node { node < length graph.now.nodes }
    requires best { AreBestBefore graph.now node best.old.items }
    ensures { AreBestBefore graph.now (node + 1) best.new.items }
{
    let arcs = graph.makers(node);
    best[node as usize] = arcs[0];
}

/// Returns for each node of a graph an arc that makes it.
///
/// # Errors
///
/// `Memory` where memory runs out; nothing is kept then.
pub(crate) fn first_arcs(alloc: Global, graph: &Graph) -> Result<Vec<u32>, Memory>
    ensures { IfOk result (λ b. AreBest graph.now b.items) }
{
    let nodes = graph.nodes();
    let mut best = vec![in alloc; 0u32; nodes as usize]?;
    for node in 0..nodes {
        put_first(graph, node, &mut best);
    }
    Ok(best)
}

/// Makes an arc the best one of the node that it makes, and returns the node; `None` where the graph lacks
/// it.
pub(crate) fn choose(graph: &Graph, arc: u32, best: &mut Vec<u32>) -> Option<u32>
    requires { AreBest graph.now best.old.items }
    ensures { AreBest graph.now best.new.items }
{
    if (arc as usize) >= graph.arcs().len() {
        return None;
    }
    let node = graph.made_by(arc);
    if (node as usize) >= best.len() {
        return None;
    }
    best[node as usize] = arc;
    Some(node)
}
