//! Weighing a solution: `weigh`, and its answers.

ghost use Rattle.std.specs.Prelude.{IfOk};
ghost use Rattle.search_arc_weights.specs.Nodes.{IsSolvedNode, IsWeighedNode};

use crate::choice::conclude;
use crate::denominator::common_denominator;
use crate::node::SolvedNode;
use crate::sums::arc_sums;
use model_rosters::{List, Memory};
use std::alloc::Global;

/// What the weights of a solution's trees say of the arcs. In a near solution each distance to a whole
/// number is measured with a margin of 2^-12.
#[derive(Debug, Drop)]
pub enum Weighed {
    /// The trees of each arc weigh a whole number together, or nearly one where the solution is near: one
    /// count for each arc of the graph, the nearest.
    Whole(List<u32>),
    /// The trees of an arc weigh more than `b` and less than `b + 1`, by the margin or more where the
    /// solution is near, and the path leaves both halves a count.
    Between { arc: u32, b: u32 },
    /// Of an exact solution: the weights' least common denominator is above 2^100, or what they miss of a
    /// High cut is made up by an artificial column. Of a near one: what the trees lack of the rows with
    /// artificial columns is 2^-20 or more together.
    Other,
}

/// Sums the weights of the trees at a node's solution by the trees' arcs. Of the arcs whose sum is a
/// fraction the one that is preferred is answered, whatever that is; where it is none of them, the one with
/// the greatest sum; of those with the same sum rounded down, the one nearest to a half, and then the
/// longest.
///
/// The solution says how the weights are to be read: as those of a basic solution of least cost, where a sum
/// is a fraction if it is not whole, or as weights in units of 2^-56 that show the node's prices to be best,
/// where it is one if it is more than 2^-12 from each whole number.
///
/// # Errors
///
/// `Memory` where memory runs out; there is no answer then.
pub fn weigh(alloc: Global, node: &SolvedNode, preferred: Option<u32>) -> Result<Weighed, Memory>
    requires { IsSolvedNode node.now }
    ensures { IfOk result (IsWeighedNode node.now) }
{
    let Some(d) = common_denominator(node.weights) else {
        return Ok(Weighed::Other);
    };
    let graph = node.day.graph;
    let sums = arc_sums(alloc, graph, node.pool, node.weights, d)?;
    conclude(
        alloc,
        graph,
        node.arc_box,
        preferred,
        sums.as_slice(),
        d,
        node.solution,
    )
}
