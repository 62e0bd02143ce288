//! The steps of a tree, by the best arcs.

ghost use Rattle.std.specs.Prelude.{◌≡◌, ◌<◌, ◌++◌, length};
ghost use Rattle.model_rosters.specs.arc_laws.AtNodes.{steps_of};
ghost use Rattle.tree_short_order.specs.Best.{IsNodeOf};
ghost use Rattle.tree_short_order.specs.Walks.{AsksNode, WritesNode, AsksArc, WritesArc, AsksSlot, WritesSlot};

use model_rosters::{ArcKey, Step, TreeRoom};
use tree_graph::{Graph, Kid};

/// Returns the node that is below an arc, and the number of nodes where none is.
fn node_of(kid: Kid, nodes: u32) -> u32
    ensures { IsNodeOf nodes kid result }
{
    match kid {
        Kid::Nothing => nodes,
        Kid::Letter { .. } => nodes,
        Kid::Node(node) => node,
    }
}

/// Adds the rule use of the arc of a whole right side. Other arcs are no rule uses.
fn write_step(arc: &ArcKey, room: &mut TreeRoom)
    requires { arc.now.suffix ≡ 0 → length room.old.steps < room.old.most }
    ensures { room.new ≡ record room.old { steps = room.old.steps ++ steps_of arc.now } }
{
    if arc.suffix == 0 {
        room.push(Step {
            rule: arc.rule,
            start: arc.start,
            len: arc.len,
        });
    }
}

/// Adds the steps of the tree of a node, or of its parts, whose arcs are the best ones. Takes no memory.
#[cycle(walk)]
pub(crate) fn write_node(graph: &Graph, best: &[u32], node: u32, room: &mut TreeRoom)
    requires { AsksNode graph.now best.now node room.old }
    ensures { WritesNode graph.now best.now node room.old room.new }
{
    write_under(graph, best, best[node as usize], room);
}

/// Adds the steps of the tree with an arc at the top, or of such parts, whose other arcs are the best ones.
/// Takes no memory.
#[cycle(walk)]
pub(crate) fn write_under(graph: &Graph, best: &[u32], arc: u32, room: &mut TreeRoom)
    requires { AsksArc graph.now best.now arc room.old }
    ensures { WritesArc graph.now best.now arc room.old room.new }
{
    let (first, rest) = graph.children(arc);
    let nodes = graph.nodes();
    let first_node = node_of(first, nodes);
    let rest_node = node_of(rest, nodes);
    write_step(&graph.arcs()[arc as usize], room);
    write_slot(graph, best, first_node, room);
    write_slot(graph, best, rest_node, room);
}

/// Adds the steps of a node that is below an arc, and none where none is.
#[cycle(walk)]
fn write_slot(graph: &Graph, best: &[u32], node: u32, room: &mut TreeRoom)
    requires { AsksSlot graph.now best.now node room.old }
    ensures { WritesSlot graph.now best.now node room.old room.new }
{
    if (node as usize) < best.len() {
        write_node(graph, best, node, room);
    }
}
