//! The split of a node.

ghost use Rattle.std.specs.Prelude.{◌<◌, IfOk, length};
ghost use Rattle.search_arc_counts.specs.count_boxes.Paths.{IsLooseAt};
ghost use Rattle.search_arc_weights.specs.Nodes.{IsSolvedNode};
ghost use Rattle.search_primal.specs.Workspaces.{CanFind, HasFound};
ghost use Rattle.search_primal.specs.Nodes.{IsOpenNode};
ghost use Rattle.search_primal.specs.Solutions.{IsShown};
ghost use Rattle.search_branch_price.specs.Plans.{IsPlanFor, IsPlanAt, IsPlanLeft};

use crate::preferred::preferred_arc;
use model_rosters::Memory;
use search_arc_counts::ArcBox;
use search_arc_weights::{SolvedNode, Weighed, farthest_from_whole, weigh};
use search_candidates::{Roster, limit, offer_counts};
use search_masters::Pool;
use search_open_nodes::Plan;
use search_primal::{OpenNode, SearchWorkspace, Solved, offer_rounded};
use search_watch::{Watch, Work};
use std::alloc::Global;

/// Returns the split of an arc at its least count.
fn at_least(arc_box: &ArcBox, arc: u32) -> Plan
    requires { arc < length arc_box.now.bounds }
    ensures { IsPlanAt arc_box.now arc result }
{
    Plan {
        arc,
        b: arc_box.low(arc),
    }
}

// Returns where a node is split whose arcs' weights are all nearly whole, and whose nearest counts do not
// close it: on the arc that weighs farthest from a whole number as the weights stand, or else on the arc
// `loose`.
fn plan_by_weights(alloc: Global, node: &SolvedNode, loose: u32) -> Result<Plan, Memory>
    requires node { IsSolvedNode node.now }
    requires loose { IsLooseAt node.now.day.instance.now node.now.day.graph.now node.now.cuts.now loose }
    ensures { IfOk result (IsPlanLeft node.now.arc_box.now) }
{
    let farthest = farthest_from_whole(alloc, node)?;
    match farthest {
        Some((arc, b)) => Ok(Plan { arc, b }),
        None => Ok(at_least(node.arc_box, loose)),
    }
}

/// Returns where a node is to be split, from the weights of the trees at its solution; `None` where its
/// prices show no less than the best roster costs. Where the weights of the arcs are whole, or nearly so,
/// their roster is offered first; where it does not close the node, the weights as they stand decide.
///
/// # Errors
///
/// `Memory` where memory runs out.
pub(crate) fn plan_for<W: Watch>(
    alloc: Global,
    node: &OpenNode,
    solved: &Solved,
    value: u64,
    workspace: &mut SearchWorkspace,
    pool: &mut Pool,
    best: &mut Option<Roster>,
    watch: &W,
) -> Result<Option<Plan>, Memory>
    requires node { IsOpenNode node.now }
    requires shown { IsShown node.now.searched.day.instance.now node.now.cuts.now pool.old solved.now value }
    requires find { CanFind node.now.searched.day pool.old workspace.old best.old }
    ensures plan { IfOk result (IsPlanFor node.now best.new value solved.now.prices) }
    ensures found { HasFound node.now.searched.day pool.old pool.new workspace.new best.old best.new }
{
    let instance = node.searched.day.instance;
    if limit(instance, best) <= value {
        return Ok(None);
    }
    watch.tell(Work::Splits);
    let weights = solved.weights.as_slice();
    let preferred = preferred_arc(
        alloc,
        node,
        weights,
        best,
        pool,
        &workspace.handover,
        &mut workspace.splits,
        watch,
    )?;
    let weighed = SolvedNode {
        day: node.searched.day,
        cuts: node.cuts,
        arc_box: node.arc_box,
        pool: &*pool,
        weights,
        solution: solved.solution,
    };
    match weigh(alloc, &weighed, preferred)? {
        Weighed::Between { arc, b } => {
            offer_rounded(alloc, instance, weights, pool, &mut workspace.rosters, best)?;
            Ok(Some(Plan { arc, b }))
        }
        Weighed::Whole(counts) => {
            let plan = plan_by_weights(alloc, &weighed, node.loose)?;
            offer_counts(
                alloc,
                &node.searched.day,
                counts.as_slice(),
                pool,
                &mut workspace.rosters,
                best,
            )?;
            if limit(instance, best) <= value {
                Ok(None)
            } else {
                Ok(Some(plan))
            }
        }
        Weighed::Other => Ok(Some(at_least(node.arc_box, node.loose))),
    }
}
