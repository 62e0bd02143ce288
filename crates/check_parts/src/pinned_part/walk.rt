//! All arcs, counted and paid.

ghost use Rattle.std.specs.Prelude.{ℕ, ◌≡◌, ◌≤◌, ◌<◌, ◌*◌, ◌^◌, pos, All, length, slice_index_or};
ghost use Rattle.model_rosters.specs.Sound.{IsSound};
ghost use Rattle.model_rosters.specs.arc_laws.Counts.{top_cost};
ghost use Rattle.tree_span_arcs.specs.DayArcs.{IsDayArcsOf};
ghost use Rattle.tree_span_arcs.specs.Shapes.{IsSplit};
ghost use Rattle.check_parts.specs.pinned_part.Places.{place_count};
ghost use Rattle.model_rosters.specs.Limits.{IsSmallCut};
ghost use Rattle.check_parts.specs.pinned_part.Counted.{AreCounted};

use crate::pinned_part::bounds::low;
use crate::pinned_part::counting::count_arc;
use model_rosters::{ArcKey, Cut, Grammar, rule_of};
use tree_span_arcs::DayArcs;

/// Returns the cost of the arc's rule where it is the arc of the whole right side, and otherwise 0.
pub fn arc_cost(grammar: &Grammar, arc: &ArcKey) -> u32
    requires sound { IsSound grammar.now }
    requires shaped { IsSplit grammar.now arc.now }
    ensures value { result ≡ top_cost grammar.now arc.now }
    ensures within { result ≤ 10000 }
{
    if arc.suffix == 0 {
        rule_of(grammar, arc.rule).cost
    } else {
        0
    }
}

/// Makes all numbers 0.
pub fn clear(nodes: &mut [i64])
    ensures length { length nodes.new ≡ length nodes.old }
    ensures zero { (p : ℕ) → p < length nodes.new → slice_index_or nodes.new p (pos 0) ≡ pos 0 }
{
    nodes.fill(0);
}

/// Counts all arcs of the instance by the least counts that the cuts leave them, and returns what
/// their rules cost.
pub fn count_arcs(grammar: &Grammar, cuts: &[Cut], arcs: &DayArcs, nodes: &mut [i64]) -> u64
    requires sound { IsSound grammar.now }
    requires small { All IsSmallCut cuts.now }
    requires arcs { IsDayArcsOf grammar.now arcs.now }
    requires length { length nodes.old ≡ place_count grammar.now }
    ensures counted { AreCounted grammar.now cuts.now nodes.new result }
    ensures within { result ≤ 2 ^ 60 }
{
    clear(nodes);
    let mut cost = 0;
    let mut next = arcs.next_arc(grammar, None);
    while let Some(arc) = next {
        let count = low(cuts, &arc);
        count_arc(grammar, nodes, &arc, count);
        cost += u64::from(count) * u64::from(arc_cost(grammar, &arc));
        next = arcs.next_arc(grammar, Some(arc));
    }
    cost
}
