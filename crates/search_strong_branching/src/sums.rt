//! Weights by arc, with a mark of the trees that have it.

ghost use Rattle.std.specs.Prelude.{◌≡◌, length, IfOk};

use crate::shares::Share;
use model_rosters::{ArcKey, Memory};
use std::alloc::Global;
use tree_graph::Graph;
use tree_pool::Pool;

/// What spreads the numbers of shares over 64 bits: 2^64 over the golden ratio.
const SPREAD: u64 = 11_400_714_819_323_198_485;

/// What the trees of an arc weigh together, in units of 2^-32, and a mark of which trees these are.
#[derive(Clone, Copy, Drop)]
pub(crate) struct ArcSum {
    pub weight: i64,
    pub mark: u64,
}

/// Adds a share to the sum of an arc.
fn add_arc(graph: &Graph, arc: &ArcKey, weight: i64, mark: u64, sums: &mut [ArcSum])
    ensures { length sums.new ≡ length sums.old }
{
    let Some(place) = graph.find(arc) else {
        return;
    };
    let place = place as usize;
    if place < sums.len() {
        let sum = sums[place];
        sums[place] = ArcSum {
            weight: sum.weight.saturating_add(weight),
            mark: sum.mark ^ mark,
        };
    }
}

/// Adds a share to the sums of its tree's arcs.
fn add_share(graph: &Graph, pool: &Pool, share: &Share, mark: u64, sums: &mut [ArcSum])
    ensures { length sums.new ≡ length sums.old }
{
    if share.column >= pool.len() {
        return;
    }
    for arc in pool.arcs(share.column) {
        add_arc(graph, arc, share.weight, mark, sums);
    }
}

/// Returns the sum of each arc of the graph.
///
/// # Errors
///
/// `Memory` where memory runs out; nothing is kept then.
pub(crate) fn sums_of(
    alloc: Global,
    graph: &Graph,
    pool: &Pool,
    shares: &[Share],
) -> Result<Vec<ArcSum>, Memory>
    ensures { IfOk result (λ sums. length sums.items ≡ length graph.now.arcs) }
{
    let none = ArcSum { weight: 0, mark: 0 };
    let mut sums = vec![in alloc; none; graph.arcs().len()]?;
    for (number, share) in shares.iter().enumerate() {
        let mark = (number as u64).wrapping_add(1).wrapping_mul(SPREAD);
        add_share(graph, pool, share, mark, sums.as_mut_slice());
    }
    Ok(sums)
}
