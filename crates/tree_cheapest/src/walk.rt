//! The steps of a tree of least sum.

ghost use Rattle.std.specs.Prelude.{◌≡◌, ◌<◌, ◌++◌, length};
ghost use Rattle.model_rosters.specs.arc_laws.AtNodes.{steps_of};
ghost use Rattle.tree_cheapest.specs.Walks.{AsksNode, WritesNode, AsksArc, WritesArc, AsksSlot, WritesSlot};

use crate::slots::Links;
use model_rosters::{ArcKey, Step, TreeRoom};
use tree_graph::Graph;

// Adds the rule use of the arc of a whole right side. Other arcs are no rule uses.
fn write_step(arc: &ArcKey, room: &mut TreeRoom)
    requires { arc.now.suffix ≡ 0 → length room.old.steps < room.old.most }
    ensures { room.new ≡ record room.old { steps = room.old.steps ++ steps_of arc.now } }
{
    if arc.suffix == 0 {
        room.push(Step {
            rule: arc.rule,
            start: arc.start,
            len: arc.len,
        });
    }
}

/// Adds the steps of a tree of least sum of a node, or of parts of least sum. Takes no memory.
#[cycle(walk)]
pub fn write_node(graph: &Graph, links: &Links, best: &[u32], node: u32, room: &mut TreeRoom)
    requires { AsksNode graph.now links.now best.now node room.old }
    ensures { WritesNode graph.now links.now best.now node room.old room.new }
{
    write_under(graph, links, best, best[node as usize], room);
}

/// Adds the steps of a tree of least sum among those with an arc at the top, or of such parts. Takes
/// no memory.
#[cycle(walk)]
pub fn write_under(graph: &Graph, links: &Links, best: &[u32], arc: u32, room: &mut TreeRoom)
    requires { AsksArc graph.now links.now best.now arc room.old }
    ensures { WritesArc graph.now links.now best.now arc room.old room.new }
{
    let place = arc as usize;
    let first = links.first.as_slice()[place];
    let rest = links.rest.as_slice()[place];
    write_step(&graph.arcs()[place], room);
    write_slot(graph, links, best, first, room);
    write_slot(graph, links, best, rest, room);
}

// Adds the steps of what is in a slot: those of a node, and none for a letter or for nothing.
#[cycle(walk)]
fn write_slot(graph: &Graph, links: &Links, best: &[u32], slot: u32, room: &mut TreeRoom)
    requires { AsksSlot graph.now links.now best.now slot room.old }
    ensures { WritesSlot graph.now links.now best.now slot room.old room.new }
{
    if (slot as usize) < best.len() {
        write_node(graph, links, best, slot, room);
    }
}
