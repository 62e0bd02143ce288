//! The pass from above, and which arcs are kept.

use crate::chain::{Chain, Joint};
use crate::costs::{Costs, put};
use crate::pass::{FAR, sum_at, sum_of};
use model_rosters::Memory;
use tree_graph::Graph;

/// Returns the node that a row's arcs make.
fn node_of(graph: &Graph, joints: &[Joint]) -> Option<u32> {
    let joint = joints.first()?;
    if (joint.arc as usize) < graph.arcs().len() {
        return Some(graph.made_by(joint.arc));
    }
    None
}

/// Lowers the number in a slot of a node to another one.
fn lower(beside: &mut Vec<i64>, slot: u32, sum: i64) {
    if let Some(number) = beside.get_mut(slot as usize) {
        if sum < *number {
            *number = sum;
        }
    }
}

/// Puts beside each node what the rest of a cheapest tree with it costs, of the trees of at most this sum
/// alone, `FAR` where there is none. The sums of the nodes are filled.
pub(crate) fn pass_down(
    graph: &Graph,
    chain: &Chain,
    costs: &Costs,
    sums: &[i64],
    most: i64,
    beside: &mut Vec<i64>,
) {
    beside.fill(FAR);
    let Some(root) = graph.root() else {
        return;
    };
    put(beside, root as usize, 0);
    for row in chain.rows.iter().rev() {
        let joints = chain.row(*row);
        let out = beside_of(graph, joints, beside);
        if out < FAR {
            lower_all(joints, costs, sums, most, out, beside);
        }
    }
}

/// Returns what stands beside the node that a row's arcs make.
fn beside_of(graph: &Graph, joints: &[Joint], beside: &[i64]) -> i64 {
    let Some(node) = node_of(graph, joints) else {
        return FAR;
    };
    beside.get(node as usize).copied().unwrap_or(FAR)
}

/// Lowers the numbers of what is below a node's arcs whose trees cost at most so much, where the rest of a
/// tree with the node costs this.
fn lower_all(
    joints: &[Joint],
    costs: &Costs,
    sums: &[i64],
    most: i64,
    out: i64,
    beside: &mut Vec<i64>,
) {
    for joint in joints {
        let whole = out.saturating_add(sum_of(costs, sums, joint));
        if whole <= most {
            lower(
                beside,
                joint.first,
                whole.saturating_sub(sum_at(sums, joint.first)),
            );
            lower(
                beside,
                joint.rest,
                whole.saturating_sub(sum_at(sums, joint.rest)),
            );
        }
    }
}

/// Puts into a chain the arcs of another one whose cheapest tree costs at most so much.
///
/// # Errors
///
/// `Memory` where memory runs out, which it does not where the chain is for the graph; some arcs are missing
/// then.
pub(crate) fn keep_cheap(
    graph: &Graph,
    all: &Chain,
    costs: &Costs,
    sums: &[i64],
    most: i64,
    beside: &[i64],
    kept: &mut Chain,
) -> Result<(), Memory> {
    kept.clear();
    for row in all.rows.iter() {
        let joints = all.row(*row);
        let out = beside_of(graph, joints, beside);
        let begin = kept.joints.len();
        for joint in joints {
            if out < FAR && out.saturating_add(sum_of(costs, sums, joint)) <= most {
                kept.push(*joint)?;
            }
        }
        kept.end_row(begin)?;
    }
    Ok(())
}

/// Puts all arcs of a chain into another one.
///
/// # Errors
///
/// `Memory` where memory runs out, which it does not where the chain is for the graph; some arcs are missing
/// then.
pub(crate) fn keep_chain(all: &Chain, kept: &mut Chain) -> Result<(), Memory> {
    kept.clear();
    for joint in all.joints.iter() {
        kept.push(*joint)?;
    }
    for row in all.rows.iter() {
        kept.rows.push(*row)?;
    }
    Ok(())
}
