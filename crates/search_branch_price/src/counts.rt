//! The least counts that a box leaves, and the arc of a number.

ghost use Rattle.std.specs.Prelude.{◌≡◌, ◌<◌, IfOk, Some, length, slice_get};
ghost use Rattle.search_branch_price.specs.Plans.{AreLeast};

use model_rosters::{ArcKey, Memory};
use search_arc_counts::ArcBox;
use std::alloc::Global;
use tree_graph::Graph;

/// Returns the least count that a box leaves each arc.
///
/// # Errors
///
/// `Memory` where memory runs out; nothing is kept then.
pub(crate) fn least_counts(
    alloc: Global,
    graph: &Graph,
    arc_box: &ArcBox,
) -> Result<Vec<u32>, Memory>
    requires { length arc_box.now.bounds ≡ length graph.now.arcs }
    ensures { IfOk result (λ v. AreLeast arc_box.now v.items) }
{
    let mut counts = Vec::with_capacity(alloc, graph.arcs().len())?;
    for arc in 0..graph.arcs().len() {
        counts.push(arc_box.low(arc as u32))?;
    }
    Ok(counts)
}

/// Returns the arc of a number.
pub(crate) fn arc_at(graph: &Graph, arc: u32) -> ArcKey
    requires { arc < length graph.now.arcs }
    ensures { slice_get graph.now.arcs arc ≡ Some result }
{
    graph.arcs()[arc as usize]
}
