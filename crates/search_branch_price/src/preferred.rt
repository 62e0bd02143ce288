//! The arc that is tried.

ghost use Rattle.search_primal.specs.Nodes.{IsOpenNode, IsSmall};

use model_rosters::{List, Memory};
use search_candidates::{Roster, limit};
use search_masters::{Handover, Pool, Weight};
use search_primal::{OpenNode, SplitHints, in_parts};
use search_strong_branching::{Share, SplitNode, best_arc};
use search_watch::Watch;
use std::alloc::Global;

/// The weight 1 of a share.
const ONE: i128 = 4_294_967_296;

/// The greatest weight.
const MOST_WEIGHT: i128 = 64 * ONE;

/// Returns the weights as shares.
fn shares_of(alloc: Global, weights: &[Weight]) -> Result<List<Share>, Memory> {
    let mut shares = List::new(alloc);
    for weight in weights {
        shares.push(Share {
            column: weight.column,
            weight: in_parts(weight.x, ONE).clamp(0, MOST_WEIGHT) as i64,
        })?;
    }
    Ok(shares)
}

/// Returns an arc on which a node may be split well, from the weights of the trees at its solution, where no
/// roster that costs as much as the best one is looked for. It is the one on which an old certificate splits
/// the node, where its trees weigh no whole number, or else one that is tried, by a program that begins at
/// the last column generation's basis. What splits gain is counted. It is a hint.
///
/// # Errors
///
/// `Memory` where memory runs out; there is no answer then.
pub(crate) fn preferred_arc<W: Watch>(
    alloc: Global,
    node: &OpenNode,
    weights: &[Weight],
    best: &Option<Roster>,
    pool: &Pool,
    handover: &Handover,
    splits: &mut SplitHints,
    watch: &W,
) -> Result<Option<u32>, Memory>
    requires node { IsOpenNode node.now }
    requires small { IsSmall node.now.searched.day.instance.now node.now.cuts.now }
{
    let day = &node.searched.day;
    let shares = shares_of(alloc, weights)?;
    let old = splits
        .old
        .sharp_arc(day.graph, node.cuts, pool, shares.as_slice());
    if old.is_some() {
        return Ok(old);
    }
    let tried = SplitNode {
        day: *day,
        cuts: node.cuts,
        arc_box: node.arc_box,
        pool,
        shares: shares.as_slice(),
        last: &handover.last,
    };
    let limit = limit(day.instance, best);
    best_arc(alloc, &tried, limit, &mut splits.gains, watch)
}
