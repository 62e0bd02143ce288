//! The arc that weighs farthest from a whole number.

ghost use Rattle.std.specs.Prelude.{◌≡◌, ◌≤◌, ◌<◌, ◌/◌, IfOk, IfSome, length};
ghost use Rattle.search_arc_weights.specs.Choices.{FitCounts};
ghost use Rattle.search_arc_weights.specs.Nodes.{IsSolvedNode};
ghost use Rattle.search_arc_weights.specs.Raw.{IsLeftBoth, IsOpen};

use crate::denominator::common_denominator;
use crate::node::SolvedNode;
use crate::sums::arc_sums;
use model_rosters::Memory;
use search_arc_counts::ArcBox;
use search_masters::Solution;
use std::alloc::Global;
use tree_graph::Graph;

// An arc whose sum is a fraction, and how far that is from a whole number.
#[derive(Clone, Copy, Drop)]
struct Open {
    arc: u32,
    // Its sum rounded down.
    b: u32,
    apart: u128,
    // The arc's length.
    len: u8,
}

// Returns an arc with its sum, and none where the sum is whole or the box does not leave both counts beside
// it.
fn open_at(arc_box: &ArcBox, arc: u32, len: u8, sum: u128, d: u128) -> Option<Open>
    requires d { 1 ≤ d }
    requires arc { arc < length arc_box.now.bounds }
    requires few { sum / d ≤ 64 }
    ensures { IfSome result (IsOpen arc_box.now.bounds) }
{
    let b = (sum / d) as u32;
    let rest = sum % d;
    if rest == 0 || b < arc_box.low(arc) || arc_box.high(arc) <= b {
        return None;
    }
    Some(Open {
        arc,
        b,
        apart: rest.min(d - rest),
        len,
    })
}

// Returns the arc whose sum is farthest from a whole number, of such ones a longest, and its sum rounded
// down.
fn farthest(graph: &Graph, arc_box: &ArcBox, sums: &[u128], d: u128) -> Option<(u32, u32)>
    requires arcs { length sums.now ≡ length graph.now.arcs }
    requires fit { FitCounts arc_box.now.bounds d sums.now }
    ensures { IfSome result (IsLeftBoth arc_box.now.bounds) }
{
    let arcs = graph.arcs();
    let mut best: Option<Open> = None;
    for (place, sum) in sums.iter().enumerate() {
        let Some(next) = open_at(arc_box, place as u32, arcs[place].len, *sum, d) else {
            continue;
        };
        best = match best {
            Some(other) if (next.apart, next.len) <= (other.apart, other.len) => Some(other),
            _ => Some(next),
        };
    }
    let best = best?;
    Some((best.arc, best.b))
}

/// Returns the arc whose trees weigh farthest from a whole number, and what they weigh rounded down, of the
/// arcs to which the path leaves both whole numbers beside it; `None` where there is none.
///
/// No margin is taken: it is for near weights that [`crate::weigh`] takes for whole, where the roster of the
/// nearest counts does not close the node. The weights of an exact solution that it takes for whole are
/// whole, so of those there is none.
///
/// # Errors
///
/// Want of memory for one sum for each arc of the graph.
pub fn farthest_from_whole(alloc: Global, node: &SolvedNode) -> Result<Option<(u32, u32)>, Memory>
    requires { IsSolvedNode node.now }
    ensures { IfOk result (λ choice. IfSome choice (IsLeftBoth node.now.arc_box.now.bounds)) }
{
    if node.solution == Solution::Exact {
        return Ok(None);
    }
    let Some(d) = common_denominator(node.weights) else {
        return Ok(None);
    };
    let graph = node.day.graph;
    let sums = arc_sums(alloc, graph, node.pool, node.weights, d)?;
    Ok(farthest(graph, node.arc_box, sums.as_slice(), d))
}
