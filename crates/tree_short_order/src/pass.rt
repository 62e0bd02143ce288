//! The pass over the arcs from below.

ghost use Rattle.tree_short_order.specs.Best.{AreBest};

use crate::best::choose;
use crate::chain::{Chain, Joint, Spot, letter_slot};
use crate::costs::{Costs, price_of, put};
use model_rosters::LetterPrice;
use tree_graph::Graph;

/// A sum from here on stands for none.
pub(crate) const FAR: i64 = 1 << 60;

/// The number that stands for none. What comes of it and of any sum is not below `FAR`.
const NONE: i64 = 1 << 61;

/// The least sum: a lesser one is taken for this one.
const LEAST: i64 = -(1 << 59);

/// A least sum of a node so far, and an arc that has it.
#[derive(Clone, Copy, Drop)]
struct Least {
    /// The sum, `FAR` where there is none so far.
    sum: i64,
    /// The place of the arc.
    arc: u32,
}

/// Returns the sum in a slot.
pub(crate) fn sum_at(sums: &[i64], slot: u32) -> i64 {
    sums.get(slot as usize).copied().unwrap_or(NONE)
}

/// Returns the sum of an arc: what it costs, and the sums of what is below it.
pub(crate) fn sum_of(costs: &Costs, sums: &[i64], joint: &Joint) -> i64 {
    sum_at(sums, joint.first)
        .saturating_add(costs.of(joint))
        .saturating_add(sum_at(sums, joint.rest))
}

/// Puts the prices of the letters into their slots, 0 into that of nothing, and none into those of the nodes,
/// of which there are so many.
fn begin<P: LetterPrice>(prices: &P, letters: &[Spot], nodes: u32, sums: &mut Vec<i64>) {
    sums.fill(NONE);
    put(sums, nodes as usize, 0);
    for spot in letters {
        if let Some(price) = prices.letter(spot.code, spot.period) {
            put(sums, letter_slot(*spot, nodes) as usize, price_of(price));
        }
    }
}

/// Returns the least sum of some arcs.
fn least_of(costs: &Costs, sums: &[i64], joints: &[Joint]) -> Least {
    let mut least = Least { sum: FAR, arc: 0 };
    for joint in joints {
        let sum = sum_of(costs, sums, joint);
        if sum < least.sum {
            least = Least {
                sum,
                arc: joint.arc,
            };
        }
    }
    least
}

/// Puts the least sum of a node's arcs into its slot, and an arc that has it.
fn pass_row(
    graph: &Graph,
    costs: &Costs,
    joints: &[Joint],
    sums: &mut Vec<i64>,
    best: &mut Vec<u32>,
)
    requires { AreBest graph.now best.old.items }
    ensures { AreBest graph.now best.new.items }
{
    let least = least_of(costs, sums, joints);
    if least.sum >= FAR {
        return;
    }
    if let Some(node) = choose(graph, least.arc, best) {
        put(sums, node as usize, least.sum.max(LEAST));
    }
}

/// Puts the least sum of each node over the arcs of a chain into its slot, and an arc that has it.
pub(crate) fn pass<P: LetterPrice>(
    graph: &Graph,
    prices: &P,
    costs: &Costs,
    letters: &[Spot],
    chain: &Chain,
    sums: &mut Vec<i64>,
    best: &mut Vec<u32>,
)
    requires { AreBest graph.now best.old.items }
    ensures { AreBest graph.now best.new.items }
{
    begin(prices, letters, graph.nodes(), sums);
    for row in chain.rows.iter() {
        pass_row(graph, costs, chain.row(*row), sums, best);
    }
}
