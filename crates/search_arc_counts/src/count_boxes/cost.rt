//! What the least counts cost, balanced in the box's room.

ghost use Rattle.std.specs.Prelude.{◌≡◌, ◌≤◌, ◌*◌, ◌^◌, All, length};
ghost use Rattle.model_rosters.specs.Folds.{sum_n};
ghost use Rattle.model_rosters.specs.Sound.{IsSound};
ghost use Rattle.model_rosters.specs.SoundInstance.{IsSoundInstance};
ghost use Rattle.model_rosters.specs.arc_laws.Counts.{top_cost};
ghost use Rattle.tree_graph.specs.Graphs.{HasArcs, IsGraph};
ghost use Rattle.check_parts.specs.pinned_part.Net.{IsNet};
ghost use Rattle.check_parts.specs.pinned_part.Places.{place_count};
ghost use Rattle.search_arc_counts.specs.count_boxes.Boxes.{IsSmall};
ghost use Rattle.search_arc_counts.specs.count_boxes.Costs.{low_of, IsCostOf};

use crate::count_boxes::bounds::Bounds;
use check_parts::{allowed_penalties, arc_cost, clear, count_arc};
use model_rosters::{ArcKey, Grammar, Instance};
use tree_graph::Graph;

// Counts each arc by its least count at the places of the nodes that it makes and uses, and returns
// what the arcs' rules cost.
fn count_arcs(grammar: &Grammar, arcs: &[ArcKey], bounds: &[Bounds], nodes: &mut [i64]) -> u64
    requires sound { IsSound grammar.now }
    requires arcs { HasArcs grammar.now arcs.now }
    requires few { length arcs.now ≤ 100000 }
    requires bounds { length bounds.now ≡ length arcs.now }
    requires small { All IsSmall bounds.now }
    requires places { length nodes.old ≡ place_count grammar.now }
    ensures net { IsNet grammar.now arcs.now (low_of arcs.now bounds.now) nodes.new }
    ensures paid { result ≡ sum_n (λ a. low_of arcs.now bounds.now a * top_cost grammar.now a) arcs.now }
    ensures within { result ≤ 2 ^ 60 }
{
    clear(nodes);
    let mut cost = 0;
    for (place, arc) in arcs.iter().enumerate() {
        let count = bounds[place].low;
        count_arc(grammar, nodes, arc, count);
        cost += u64::from(count) * u64::from(arc_cost(grammar, arc));
    }
    cost
}

/// Returns the cost of the least counts of the arcs, `None` exactly where they are the counts of no
/// allowed roster. What the numbers at the places were does not matter.
pub(crate) fn least_cost(
    instance: &Instance,
    graph: &Graph,
    bounds: &[Bounds],
    nodes: &mut [i64],
) -> Option<u64>
    requires sound { IsSoundInstance instance.now }
    requires graph { IsGraph instance.now.grammar graph.now }
    requires bounds { length bounds.now ≡ length graph.now.arcs }
    requires small { All IsSmall bounds.now }
    requires places { length nodes.old ≡ place_count instance.now.grammar }
    ensures cost { IsCostOf instance.now graph.now.arcs (low_of graph.now.arcs bounds.now) result }
{
    let cost = count_arcs(&instance.grammar, graph.arcs(), bounds, nodes);
    match allowed_penalties(instance, nodes) {
        Some(penalties) => Some(cost + penalties),
        None => None,
    }
}
