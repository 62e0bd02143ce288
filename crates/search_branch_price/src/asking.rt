//! The one place where the master is asked.

ghost use Rattle.std.specs.Prelude.{◌≡◌, IfOk};
ghost use Rattle.search_primal.specs.Workspaces.{AreTools, StayTools};
ghost use Rattle.search_primal.specs.Nodes.{IsOpenNode};
ghost use Rattle.search_branch_price.specs.Asking.{AreNodeCuts, EndsAt, IsCounted};

use model_rosters::Memory;
use search_masters::{Master, NodeEnd, Pool};
use search_primal::{OpenNode, SearchWorkspace};
use search_watch::Watch;
use std::alloc::Global;

/// Asks the master for the prices of a node.
///
/// # Errors
///
/// `Memory` where memory runs out; the master's count of refusals stays as it is then. The workspace still
/// fits the day, and the pool has its trees under their numbers, and perhaps further trees of the day.
pub(crate) fn ask_master<M: Master, W: Watch>(
    alloc: Global,
    node: &OpenNode,
    workspace: &mut SearchWorkspace,
    pool: &mut Pool,
    master: &mut M,
    watch: &W,
) -> Result<NodeEnd, Memory>
    requires node { IsOpenNode node.now }
    requires cuts { AreNodeCuts node.now.searched.day.instance.now node.now.cuts.now }
    requires tools { AreTools node.now.searched.day pool.old workspace.old }
    ensures end { IfOk result (EndsAt node.now pool.new (M.strict master.old) (W.patient watch.now)) }
    ensures counted { IsCounted result (M.refused master.old) (M.refused master.new) }
    ensures strict_stays { M.strict master.new ≡ M.strict master.old }
    ensures tools { StayTools node.now.searched.day pool.old pool.new workspace.new }
{
    let day = &node.searched.day;
    let pricer = &mut workspace.pricing.pricer;
    let cuts = node.cuts;
    let handover = &mut workspace.handover;
    master.node(alloc, day, pricer, pool, cuts, handover, watch)
}
