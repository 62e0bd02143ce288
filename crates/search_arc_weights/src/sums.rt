//! The weight of the trees with each arc, in units of 1/D.

ghost use Rattle.std.specs.Prelude.{ℕ, ◌≡◌, ◌<◌, ◌≤◌, ◌*◌, ◌+◌, ◌^◌, IfOk, length};
ghost use Rattle.model_rosters.specs.Folds.{Each};
ghost use Rattle.model_rosters.specs.arc_laws.Lists.{StandOnce};
ghost use Rattle.search_arc_weights.specs.Sums.{unit, HaveRoom, AreAdded, AreInPool, HaveRoomFor, AreSums};

use model_rosters::{ArcKey, Memory};
use search_masters::{Pool, Weight};
use std::alloc::Global;
use tree_graph::Graph;

// Returns a weight in units of 1 / d.
fn units(weight: &Weight, d: u128) -> u128
    requires { unit d weight.now < 2 ^ 128 }
    ensures { result ≡ unit d weight.now }
{
    weight.x.num().unsigned_abs() * (d / weight.x.den().unsigned_abs())
}

// Adds a weight to the sum of each of these arcs of the graph.
fn add_arcs(graph: &Graph, arcs: &[ArcKey], units: u128, sums: &mut [u128])
    requires once { StandOnce graph.now.arcs }
    requires each { length sums.old ≡ length graph.now.arcs }
    requires room { HaveRoom graph.now.arcs units arcs.now sums.old }
    ensures each { length sums.new ≡ length sums.old }
    ensures sums { AreAdded graph.now.arcs units arcs.now sums.old sums.new }
{
    for arc in arcs {
        if let Some(place) = graph.find(arc) {
            sums[place as usize] += units;
        }
    }
}

/// Returns the weight of the trees with each arc of the graph, in units of 1 / d.
///
/// # Errors
///
/// `Memory` where memory runs out; nothing is kept then.
pub fn arc_sums(
    alloc: Global,
    graph: &Graph,
    pool: &Pool,
    weights: &[Weight],
    d: u128,
) -> Result<Vec<u128>, Memory>
    requires once { StandOnce graph.now.arcs }
    requires pool { AreInPool d pool.now weights.now }
    requires room { HaveRoomFor d graph.now.arcs pool.now weights.now }
    ensures { IfOk result (λ sums. AreSums d graph.now.arcs pool.now weights.now sums.items) }
{
    let mut sums = vec![in alloc; 0; graph.arcs().len()]?;
    for weight in weights {
        let arcs = pool.arcs(weight.column);
        add_arcs(graph, arcs, units(weight, d), sums.as_mut_slice());
    }
    Ok(sums)
}
